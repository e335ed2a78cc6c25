//! The names of definitions: none comes twice, and each is found at its place.
ghost use Rattle.std.specs.Prelude.{◌≡◌, ◌≤◌, List, [], ℕ, All, IfOk, length, map};
ghost use Rattle.std.specs.List.{flat_map};
ghost use Rattle.dir_compile.specs.Forms.{HasForms};
ghost use Rattle.dir_compile.specs.Judges.{Judges};
ghost use Rattle.dir_compile.specs.Compile.{
  twice_in,
  twice_faults,
  value_name,
  element_name,
  list_name,
  composite_name,
  segment_name,
  message_name,
};

use crate::known::KnownNames;
use crate::parts::Parts;
use crate::stop::{CompileKind, CompileStop, fault};
use edi_octets::EarlierNames;
use edi_tables::{Chunk, CodeList, CompositeDef, ElementDef, MessageDef, SegmentDef};
use indexmap::IndexSet;
use std::alloc::{AllocError, Global};

/// Something that has a name: a definition, or a code of a list, which is its own name.
pub trait Named {
    ghost name_of: { Self → List ℕ };

    /// The octets of its name.
    fn name(&self) -> &[u8]
        ensures { result.now ≡ name_of self.now };
}

impl Named for ElementDef {
    ghost name_of = { element_name };

    fn name(&self) -> &[u8] {
        &self.code.octets
    }
}

impl Named for CodeList {
    ghost name_of = { list_name };

    fn name(&self) -> &[u8] {
        &self.element.octets
    }
}

impl Named for CompositeDef {
    ghost name_of = { composite_name };

    fn name(&self) -> &[u8] {
        &self.code.octets
    }
}

impl Named for SegmentDef {
    ghost name_of = { segment_name };

    fn name(&self) -> &[u8] {
        &self.tag.octets
    }
}

impl Named for MessageDef {
    ghost name_of = { message_name };

    fn name(&self) -> &[u8] {
        self.name.octets()
    }
}

impl Named for Chunk {
    ghost name_of = { value_name };

    fn name(&self) -> &[u8] {
        self.octets()
    }
}

/// The names, each at the place of its definition. None comes twice.
fn index<T: Named, const N: usize>(
    alloc: Global,
    items: &[T],
) -> Result<IndexSet<[u8; N]>, AllocError>
    requires long { All (λ x. length (T.name_of x) ≡ N) items.now }
    requires apart { twice_in T.name_of items.now ≡ [] }
    ensures { IfOk result (λ set. set.keys ≡ map T.name_of items.now) }
{
    let mut set = IndexSet::with_capacity(alloc, items.len())?;
    for item in items {
        set.insert(octets_of(item.name()))?;
    }
    Ok(set)
}

/// The same. It is remembered where those that are asked for are among them.
fn index_known<T: Named, U: Named, const N: usize>(
    alloc: Global,
    items: &[T],
    asked: &[U],
) -> Result<KnownNames<N>, AllocError>
    requires short { N ≤ 6 }
    requires long { All (λ x. length (T.name_of x) ≡ N) items.now }
    requires apart { twice_in T.name_of items.now ≡ [] }
    requires asked { All (λ x. length (U.name_of x) ≡ N) asked.now }
    ensures { IfOk result (λ known. known ≡ map T.name_of items.now) }
{
    KnownNames::of(alloc, index(alloc, items)?, asked)
}

/// These octets, of which there are as many as the array holds.
pub(crate) fn octets_of<const N: usize>(name: &[u8]) -> [u8; N]
    requires { length name.now ≡ N }
    ensures { result ≡ name.now }
{
    let mut octets = [0; N];
    octets.copy_from_slice(name);
    octets
}

/// Finds the first name that equals one before it.
fn judge_names<T: Named>(alloc: Global, items: &[T]) -> Result<(), CompileStop>
    ensures { Judges result (twice_in T.name_of items.now) }
{
    let mut seen = EarlierNames::with_capacity(alloc, items.len())?;
    for item in items {
        let name = item.name();
        let added = seen.add(name)?;
        if !added {
            return Err(fault(alloc, CompileKind::Twice, name));
        }
    }
    Ok(())
}

/// The names of definitions, each found at its place.
#[derive(Drop)]
pub(crate) struct Names {
    pub elements: IndexSet<[u8; 4]>,
    pub lists: KnownNames<4>,
    pub composites: KnownNames<4>,
    pub segments: KnownNames<3>,
    pub messages: IndexSet<[u8; 6]>,
}

impl Names {
    ghost use Rattle.dir_compile.specs.Names.{IsNamesOf};

    /// The names of these parts, of which none comes twice.
    pub fn of(alloc: Global, parts: &Parts) -> Result<Names, AllocError>
        requires forms { HasForms parts.now }
        requires apart { twice_faults parts.now ≡ [] }
        ensures { IfOk result (λ names. IsNamesOf names parts.now) }
    {
        let elements = index(alloc, parts.elements.items())?;
        // Each value asks for the list of its element, and most elements have none.
        let lists = index_known(alloc, parts.lists.items(), parts.elements.items())?;
        let composites = index_known(alloc, parts.composites.items(), parts.composites.items())?;
        let segments = index_known(alloc, parts.segments.items(), parts.segments.items())?;
        let messages = index(alloc, parts.messages.items())?;
        Ok(Names {
            elements,
            lists,
            composites,
            segments,
            messages,
        })
    }
}

/// Finds the first definition, or code of a list, whose name equals one before it.
pub(crate) fn judge_twice(alloc: Global, parts: &Parts) -> Result<(), CompileStop>
    ensures { Judges result (twice_faults parts.now) }
{
    judge_names(alloc, parts.elements.items())?;
    judge_names(alloc, parts.lists.items())?;
    judge_codes(alloc, parts.lists.items())?;
    judge_names(alloc, parts.composites.items())?;
    judge_names(alloc, parts.segments.items())?;
    judge_names(alloc, parts.messages.items())
}

/// Finds the first code that comes twice in a list.
fn judge_codes(alloc: Global, lists: &[CodeList]) -> Result<(), CompileStop>
    ensures { Judges result (flat_map (λ list. twice_in value_name list.values) lists.now) }
{
    for list in lists {
        judge_names(alloc, list.values.items())?;
    }
    Ok(())
}
