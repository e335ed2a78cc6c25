//! The local errors of a segment.
ghost use Rattle.std.specs.Prelude.{◌≡◌, ◌+◌, ◌++◌, ◌<◌, ◌≤◌, ◌^◌, length, IfOk, IsErr, OnOk, OnErr};
ghost use Rattle.std.specs.Option.{option_map};
ghost use Rattle.seg_lexer.specs.Fields.{IsInOrder, components_at};
ghost use Rattle.seg_lexer.specs.Left.{components_left};
ghost use Rattle.seg_lexer.specs.Service.{IsUsable};
ghost use Rattle.seg_lexer.specs.Tag.{tag_of};
ghost use Rattle.element_check.specs.Ascending.{AreAscending};
ghost use Rattle.element_check.specs.Local.{local_errors_of};
ghost use Rattle.element_check.specs.Streams.{AreOrdered, components_ahead, errors_past, repeated_errors, surplus_elements};
ghost use Rattle.edi_octets.specs.declared.octets.TheConstants.{LONGEST_TEXT};

use crate::LocalError;
use crate::error::ErrorList;
use crate::repeated::check_element;
use crate::rules::Rules;
use crate::values::Ahead;
use dir_compile::Directory;
use edi_octets::Octets;
use edi_tables::Tag;
use error_ledger::Kind;
use seg_lexer::{Context, Fields, fields};
use smallvec::SmallVec;
use std::alloc::{AllocError, Global};

/// The local errors of the segment `start..end` of a text, by its context and a directory, in order of element, component
/// and kind. Up to four errors take no memory.
pub fn check_segment<O: Octets>(
    alloc: Global,
    directory: &Directory,
    context: &Context,
    text: &O,
    start: usize,
    end: usize,
) -> Result<SmallVec<LocalError, 4>, AllocError>
    requires usable { IsUsable context.now.service (O.octets text.now) }
    requires short { length (O.octets text.now) ≤ LONGEST_TEXT }
    requires ordered { start ≤ end }
    requires within { end ≤ length (O.octets text.now) }
    ensures errors { IfOk result (λ list. list.items
        ≡ local_errors_of directory.now context.now
        (components_at context.now.service (O.octets text.now) start end)) }
    ensures ascending { IfOk result (λ list. AreAscending list.items) }
    ensures only_past_four { IsErr result
        → 4 < length (local_errors_of directory.now context.now
        (components_at context.now.service (O.octets text.now) start end)) }
{
    let components = fields(text, &context.service, start, end);
    let (_, errors) = check_components(alloc, directory, context, components)?;
    Ok(errors)
}

/// The tag of the segment that has these components, all of them, and its local errors, by its context and a directory, in
/// order of element, component and kind. Each component is read once. Up to four errors take no memory.
pub fn check_components<O: Octets>(
    alloc: Global,
    directory: &Directory,
    context: &Context,
    components: Fields<'_, O>,
) -> Result<(Option<Tag>, SmallVec<LocalError, 4>), AllocError>
    requires in_order { IsInOrder 0 (components_left components) }
    requires few { length (components_left components) < 2 ^ 31 }
    ensures tag { IfOk result
        (λ found. option_map (λ t. t.octets) found.0 ≡ tag_of (components_left components.entry)) }
    ensures errors { IfOk result (λ found. found.1.items
        ≡ local_errors_of directory.now context.now (components_left components.entry)) }
    ensures ascending { IfOk result (λ found. AreAscending found.1.items) }
    ensures only_past_four { IsErr result
        → 4
        < length (local_errors_of directory.now context.now (components_left components.entry)) }
{
    let mut elements = components;
    let tag = elements.take_tag();
    let mut errors = ErrorList::new(alloc);
    gather(directory, context, tag, elements, &mut errors)?;
    Ok((tag, errors.into_list()))
}

/// Puts the errors of the segment that has this tag and these components of elements.
fn gather<O: Octets>(
    directory: &Directory,
    context: &Context,
    tag: Option<Tag>,
    elements: Fields<'_, O>,
    errors: &mut ErrorList,
) -> Result<(), AllocError>
    requires few { length (components_left elements) < 2 ^ 31 }
    requires ordered { AreOrdered 1 0 (components_left elements) }
    ensures ok { OnOk result (errors.new ≡ errors.old
        ++ errors_past directory.now context.now
        (components_left elements.entry) (option_map (λ t. t.octets) tag)) }
    ensures full { OnErr result (4 < length errors.old
        + length (errors_past directory.now context.now
        (components_left elements.entry) (option_map (λ t. t.octets) tag))) }
{
    let Some(tag) = tag else {
        return errors.put_if(true, 0, 0, Kind::BadTag);
    };
    let Some(rules) = Rules::of(directory, context, tag) else {
        return errors.put_if(true, 0, 0, Kind::UnknownSegment);
    };
    check_elements(&rules, elements, errors)
}

/// Puts the errors of all elements of a segment.
fn check_elements<O: Octets>(
    rules: &Rules<'_>,
    elements: Fields<'_, O>,
    errors: &mut ErrorList,
) -> Result<(), AllocError>
    requires few { length (components_left elements) < 2 ^ 31 }
    requires ordered { AreOrdered 1 0 (components_left elements) }
    requires short { length rules.now.items ≤ 99 }
    ensures ok { OnOk result (errors.new
        ≡ errors.old ++ repeated_errors rules.now 0 rules.now.items (components_left elements.entry)) }
    ensures full { OnErr result (4
        < length errors.old
        + length (repeated_errors rules.now 0 rules.now.items (components_left elements.entry))) }
{
    let mut element = 0;
    let mut rest = Ahead::of(elements);
    for item in rules.items {
        element += 1;
        check_element(rules, item, element, &mut rest, errors)?;
    }
    check_surplus(element, rest, errors)
}

/// Puts the errors of the elements past the one of this number.
fn check_surplus<O: Octets>(
    last: u32,
    elements: Ahead<'_, O>,
    errors: &mut ErrorList,
) -> Result<(), AllocError>
    ensures ok { OnOk result (errors.new
        ≡ errors.old ++ surplus_elements last (components_ahead elements.entry)) }
    ensures full { OnErr result (4
        < length errors.old + length (surplus_elements last (components_ahead elements.entry))) }
{
    let mut rest = elements;
    let mut told = last;
    while let Some(found) = rest.step() {
        if found.element > told && found.repetition > 0 && !found.value.is_empty() {
            told = found.element;
            errors.put_if(true, told, 0, Kind::TooManyElements)?;
        }
    }
    Ok(())
}
