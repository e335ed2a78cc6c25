//! What a segment is checked by: its items, the parts of composites, and code lists.
ghost use Rattle.std.specs.Prelude.{None, ◌≡◌, if◌then◌else◌};
ghost use Rattle.std.specs.Option.{ForSome};
ghost use Rattle.dir_compile.specs.Directory.{IsDirectory};
ghost use Rattle.element_check.specs.Rules.{list_of, parts_of, rules_of};

use dir_compile::{Codes, Directory};
use edi_tables::{Code, ItemDef, PartDef, Tag};
use seg_lexer::Context;
use service_tables::{service_composite, service_segment};
use std::marker::Model;

/// The rules of a segment: the context of its text, its items, and the directory that defines their composites and code
/// lists. A service segment has no directory.
#[derive(Drop)]
pub struct Rules<'a> {
    pub context: &'a Context,
    pub items: &'a [ItemDef],
    directory: Option<&'a Directory>,
}

impl<'a> Model for Rules<'a> {
    ghost use Rattle.std.specs.Option.{ForSome, option_copied};
    ghost use Rattle.dir_compile.specs.Directory.{IsDirectory};
    ghost use Rattle.element_check.specs.Rules.{SegmentRules};

    ghost Value = { SegmentRules };

    ghost view = { λ r. record {
      context = r.context.now;
      items = r.items.now;
      directory = option_copied r.directory;
    } };

    ghost invariant = { λ r. ForSome (option_copied r.directory) IsDirectory };
}

impl<'a> Rules<'a> {
    /// The rules of the segments of a tag, if it is a service segment's or in the directory.
    #[inline(always)]
    #[tactic(auto, unfolding(crate::specs::Rules::rules_of))]
    pub fn of(directory: &'a Directory, context: &'a Context, tag: Tag) -> Option<Rules<'a>>
        ensures rules { result ≡ rules_of directory.now context.now tag.octets }
        ensures lawful { IsDirectory directory.now }
    {
        let _lawful = directory.parts();
        match service_segment(tag) {
            Some(items) => Some(Rules {
                context,
                items,
                directory: None,
            }),
            None => {
                let segment = directory.segment(tag)?;
                Some(Rules {
                    context,
                    items: segment.items.items(),
                    directory: Some(directory),
                })
            }
        }
    }

    /// The parts of a composite; one that isn't defined has none.
    #[inline(always)]
    #[tactic(auto, unfolding(crate::specs::Rules::parts_of))]
    pub fn parts(&self, code: Code) -> &'a [PartDef]
        ensures parts { result.now ≡ parts_of self.now code.octets }
        ensures lawful { ForSome self.now.directory IsDirectory }
    {
        match self.directory {
            None => service_composite(code, self.context.version).unwrap_or(&[]),
            Some(directory) => match directory.composite(code) {
                Some(composite) => composite.parts.items(),
                None => &[],
            },
        }
    }

    /// The code list that the values of a data element must be in, if one is loaded: none where its composite names a
    /// list itself.
    #[inline(always)]
    pub fn list_unless(&self, named: bool, element: Code) -> Option<Codes<'a>>
        ensures { result ≡ (if named then None else list_of self.now element.octets) }
    {
        if named { None } else { self.list(element) }
    }

    /// The code list of a data element, if one is loaded.
    #[inline(always)]
    #[tactic(auto, unfolding(crate::specs::Rules::list_of))]
    fn list(&self, element: Code) -> Option<Codes<'a>>
        ensures { result ≡ list_of self.now element.octets }
    {
        self.directory?.list(element)
    }
}
