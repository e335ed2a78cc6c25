//! The two forms of a table line: a segment, or a group.
ghost use Rattle.std.specs.Prelude.{◌≡◌, true, MatchOption, IfSome, option_copied};
ghost use Rattle.std.specs.List.{list_all};
ghost use Rattle.std.specs.Option.{option_map};
ghost use Rattle.std.specs.Str.Parse.{digits_value};
ghost use Rattle.edi_octets.specs.Left.{cells_left};
ghost use Rattle.dir_messages.specs.Message as message;
ghost use Rattle.dir_messages.specs.Message.{is_dashes, is_plain_number, number_drawn, tag_drawn};
ghost use Rattle.dir_messages.specs.Parts.{HasNoForm, IsForm};

use crate::words::{are_dashes, is_number, is_word};
use edi_octets::{Cells, read_decimal};
use edi_tables::Tag;

/// What is between the position and the status of a table line.
#[derive(Clone, Copy, Debug)]
pub(crate) enum LineForm {
    Segment(Tag),
    /// A group with its number, which is `None` where it has 20 or more digits.
    Group(Option<u64>),
}

/// The form of the fields between position and status; `None` where they have neither.
pub(crate) fn form_of(middle: Cells<'_>) -> Option<LineForm>
    ensures { MatchOption result
        (HasNoForm (cells_left middle.entry))
        (λ form. IsForm (cells_left middle.entry) form) }
{
    if let Some(number) = group_number(middle) {
        return Some(LineForm::Group(read_decimal(number)));
    }
    let tag = segment_tag(middle)?;
    Some(LineForm::Segment(tag))
}

/// The tag of a segment line: a tag and a name are there.
fn segment_tag(mut middle: Cells<'_>) -> Option<Tag>
    ensures { result ≡ tag_drawn (cells_left middle.entry) }
{
    let tag = middle.next()?;
    let _name = middle.next()?;
    Tag::read(tag)
}

/// The number of a group line: `-`, `Segment`, `group`, a number, and fields of `-` alone are there.
fn group_number(mut middle: Cells<'_>) -> Option<&[u8]>
    ensures number { option_map (digits_value 10) (option_copied result)
        ≡ number_drawn (cells_left middle.entry) }
    ensures plain { IfSome result (λ number. is_plain_number number.now ≡ true) }
{
    let dashes = middle.next()?;
    let segment = middle.next()?;
    let group = middle.next()?;
    let number = middle.next()?;
    if begins_group(dashes, segment, group) && is_number(number) && are_all_dashes(middle) {
        Some(number)
    } else {
        None
    }
}

/// Whether each field has `-` alone.
fn are_all_dashes(mut fields: Cells<'_>) -> bool
    ensures { result ≡ list_all is_dashes (cells_left fields.entry) }
{
    fields.all(are_dashes)
}

/// Whether these are the fields that a group line begins with.
fn begins_group(dashes: &[u8], segment: &[u8], group: &[u8]) -> bool
    ensures { result ≡ message.begins_group dashes.now segment.now group.now }
{
    dashes.len() >= 2
        && are_dashes(dashes)
        && is_word(segment, b"Segment")
        && is_word(group, b"group")
}
