//! Whether a first look at a segment shows that it has no local error.
ghost use Rattle.std.specs.Prelude.{Bool, ℕ, Some, [], ◌≡◌, ◌∷◌, ◌≤◌, true, length, unwrap_or, IfSome, IsTrue};
ghost use Rattle.std.specs.Option.{option_map};
ghost use Rattle.seg_lexer.specs.Fields.{are_single, components_of, separators_of};
ghost use Rattle.seg_lexer.specs.Tag.{tag_of};
ghost use Rattle.element_check.specs.Local.{local_errors_of};
ghost use Rattle.element_check.specs.Repertoire.{AreAdmitted};
ghost use Rattle.element_check.specs.Rules.{parts_of};
ghost use Rattle.element_check.specs.Streams.{after_front, composite_errors, front_values, item_errors, items_errors, part_errors, part_rules, parts_errors};
ghost use Rattle.clean_segments.specs.Looked.{AreOfOne, looked_left};
ghost use Rattle.edi_octets.specs.declared.octets.TheConstants.{LONGEST_TEXT};

use crate::kinds::OctetKinds;
use crate::looked::LookedFields;
use dir_compile::Directory;
use edi_tables::{Code, ItemDef, PartDef, Tag};
use element_check::{Rules, passes_admitted};
use seg_lexer::Context;

/// The tag of the segment that has these octets, where a first look shows that it has no local error, by its context and a
/// directory. `None` says nothing of the segment. It takes no memory.
pub fn clean_tag(
    kinds: &OctetKinds,
    directory: &Directory,
    context: &Context,
    octets: &[u8],
) -> Option<Tag>
    requires short { length octets.now ≤ LONGEST_TEXT }
    ensures tag { IfSome result (λ tag.
        tag_of (components_of (separators_of context.now.service) octets.now) ≡ Some tag.octets) }
    ensures clean { IfSome result (λ tag. local_errors_of directory.now context.now
        (components_of (separators_of context.now.service) octets.now) ≡ []) }
{
    if !kinds.are_by(context) {
        return None;
    }
    let mut fields = LookedFields::of(kinds, octets);
    let tag = fields.take_tag()?;
    let rules = Rules::of(directory, context, tag)?;
    if are_elements_clean(&rules, fields) {
        Some(tag)
    } else {
        None
    }
}

// Whether all elements of a segment are seen to have no error.
fn are_elements_clean(rules: &Rules<'_>, fields: LookedFields<'_>) -> bool
    requires short { length rules.now.items ≤ 99 }
    requires level { fields.kinds.now.level ≡ rules.now.context.level }
    ensures clean { IsTrue result
        → items_errors rules.now 0 rules.now.items (looked_left fields.entry) ≡ [] }
    ensures single { IsTrue result → are_single
        (components_of fields.entry.kinds.now.separators fields.entry.octets.now) ≡ true }
{
    let mut rest = fields;
    let mut element = 0;
    for item in rules.items {
        element += 1;
        if !is_item_clean(rules, item, element, &mut rest) {
            return false;
        }
    }
    rest.is_at_end()
}

// Whether an element that has this item is seen to have no error. Then its components are taken.
fn is_item_clean(
    rules: &Rules<'_>,
    item: &ItemDef,
    element: u32,
    fields: &mut LookedFields<'_>,
) -> bool
    requires level { fields.old.kinds.now.level ≡ rules.now.context.level }
    ensures clean { IsTrue result → item_errors rules.now element item.now
        (front_values element (looked_left fields.old)) ≡ [] }
    ensures after { IsTrue result
        → looked_left fields.new ≡ after_front element (looked_left fields.old) }
    ensures one { AreOfOne fields.old fields.new }
{
    match item {
        ItemDef::Alone { part, .. } => {
            let Ok(value) = fields.take(element) else {
                return false;
            };
            is_part_clean(rules, part, value) && fields.is_past(element)
        }
        ItemDef::Composite { code, must, .. } => {
            is_composite_clean(rules, *code, *must, element, fields)
        }
    }
}

// Whether the composite of a code is seen to have no error: one that isn't written, or all of whose values are good. Its parts
// are looked up only if it is written. One that is needed is left to the check where its first value is empty.
fn is_composite_clean(
    rules: &Rules<'_>,
    code: Code,
    must: bool,
    element: u32,
    fields: &mut LookedFields<'_>,
) -> bool
    requires level { fields.old.kinds.now.level ≡ rules.now.context.level }
    ensures clean { IsTrue result
        → composite_errors rules.now element must (parts_of rules.now code.octets)
        (front_values element (looked_left fields.old)) ≡ [] }
    ensures after { IsTrue result
        → looked_left fields.new ≡ after_front element (looked_left fields.old) }
    ensures one { AreOfOne fields.old fields.new }
{
    match fields.take(element) {
        Err(_) => false,
        Ok(None) => !must,
        Ok(Some([])) if must => false,
        Ok(Some([])) if fields.is_past(element) => true,
        Ok(Some(first)) => are_parts_clean(rules, rules.parts(code), first, element, fields),
    }
}

// Whether the values of the parts of a composite are seen to have no error. The first is taken already.
fn are_parts_clean(
    rules: &Rules<'_>,
    parts: &[PartDef],
    first: &[u8],
    element: u32,
    fields: &mut LookedFields<'_>,
) -> bool
    requires admitted { AreAdmitted rules.now.context.level first.now }
    requires level { fields.old.kinds.now.level ≡ rules.now.context.level }
    ensures clean { (named : Bool) → IsTrue result
        → parts_errors (part_rules rules.now named) element 1 parts.now
        (first.now ∷ front_values element (looked_left fields.old)) ≡ [] }
    ensures after { IsTrue result
        → looked_left fields.new ≡ after_front element (looked_left fields.old) }
    ensures one { AreOfOne fields.old fields.new }
{
    let [head, later @ ..] = parts else {
        return false;
    };
    if !is_part_clean(rules, head, Some(first)) {
        return false;
    }
    for part in later {
        let Ok(value) = fields.take(element) else {
            return false;
        };
        if !is_part_clean(rules, part, value) {
            return false;
        }
    }
    fields.is_past(element)
}

// Whether a data element is seen to have no error, by its value, if one is written.
#[inline(always)]
fn is_part_clean(rules: &Rules<'_>, part: &PartDef, value: Option<&[u8]>) -> bool
    requires admitted { IfSome value
        (λ octets. AreAdmitted rules.now.context.level octets.now) }
    ensures { (element component : ℕ) (named : Bool) → IsTrue result
        → part_errors (part_rules rules.now named) element component part.now
        (unwrap_or (option_map (λ octets. octets.now) value.entry) []) ≡ [] }
{
    match value {
        Some(octets) => is_value_clean(rules, part, octets),
        None => !part.must,
    }
}

// The same where these octets are written. If there are any, they are good by the list of the data element, and so by none
// where the composite names another list.
#[inline(always)]
fn is_value_clean(rules: &Rules<'_>, part: &PartDef, octets: &[u8]) -> bool
    requires admitted { AreAdmitted rules.now.context.level octets.now }
    ensures { (element component : ℕ) (named : Bool) → IsTrue result
        → part_errors (part_rules rules.now named) element component part.now octets.now ≡ [] }
{
    if octets.is_empty() {
        return !part.must;
    }
    let list = rules.list_unless(false, part.code);
    passes_admitted(rules.context, part.repr, list, octets)
}
