//! What the lines of segments and messages give.
ghost use Rattle.std.specs.Prelude.{◌≡◌};
ghost use Rattle.std.specs.Option.{option_copied, option_map};
ghost use Rattle.dir_store.specs.Rules as rules;

use crate::definition_line::{MOST_MEMBERS, is_between, part_of};
use crate::earlier::EarlierDefinitions;
use crate::line::{comes_after, read_head, read_number};
use crate::version::StoreVersion;
use edi_octets::{
    four_words, is_message_name, read_composite_code, read_element_code, read_status, three_words,
    two_words,
};
use edi_tables::{ItemDef, MessageDef, SegmentDef, TableRow, Tag};
use service_tables::service_segment;

// The greatest number of repetitions that an item may have.
const MOST_REPETITIONS: u64 = 99;

/// The tag of a segment on a line, in order and not a service segment's, and how many items follow: 1 to 99.
pub(crate) fn segment_on(line: &[u8], before: Option<&SegmentDef>) -> Option<(Tag, u64)>
    ensures { option_map (λ h. (h.0.octets, h.1)) result
        ≡ rules.segment_in (option_copied before.entry) line.now }
{
    let (name, count) = read_head(line)?;
    let tag = Tag::read(name)?;
    if !is_between(1, MOST_MEMBERS, count) || service_segment(tag).is_some() {
        return None;
    }
    if !comes_after(before.map(|segment| segment.tag.octets.as_slice()), name) {
        return None;
    }
    Some((tag, count))
}

/// The item on a line: a data element or a composite of the store, a status, and a number of repetitions.
pub(crate) fn item_on(line: &[u8], known: &EarlierDefinitions<'_>) -> Option<ItemDef>
    ensures { result
        ≡ rules.item_in known.now.version known.now.elements.now known.now.composites.now line.now }
{
    let (word, status, reps) = item_words(known.version, line)?;
    let must = read_status(status)?;
    if let Some(code) = read_element_code(word) {
        let part = part_of(known, code, must)?;
        return Some(ItemDef::Alone { part, reps });
    }
    let code = read_composite_code(word)?;
    if known.has_composite(code) {
        Some(ItemDef::Composite { code, must, reps })
    } else {
        None
    }
}

// The words of an item's line that are its code and its status, and its number of repetitions.
fn item_words(version: StoreVersion, line: &[u8]) -> Option<(&[u8], &[u8], u8)>
    ensures { option_map (λ w. (w.0.now, w.1.now, w.2)) result
        ≡ rules.item_words_in version line.now }
{
    match version {
        StoreVersion::First => {
            let (code, status) = two_words(line)?;
            Some((code, status, 1))
        }
        StoreVersion::Second => {
            let (code, status, reps) = three_words(line)?;
            let reps = read_between(1, MOST_REPETITIONS, reps)?;
            Some((code, status, reps as u8))
        }
    }
}

/// The name of a message on a line, in order and not CONTRL, and how many rows follow: 2 to 2,000.
pub(crate) fn message_on<'l>(line: &'l [u8], before: Option<&MessageDef>) -> Option<(&'l [u8], u64)>
    ensures { option_map (λ h. (h.0.now, h.1)) result
        ≡ rules.message_in (option_copied before.entry) line.now }
{
    let (name, count) = read_head(line)?;
    if !is_message_name(name) || !is_between(2, 2000, count) || name == b"CONTRL".as_slice() {
        return None;
    }
    if !comes_after(before.map(|message| message.name.octets()), name) {
        return None;
    }
    Some((name, count))
}

/// The row on a line: its depth, what it is called, a status, and its greatest count.
pub(crate) fn row_on(line: &[u8], known: &EarlierDefinitions<'_>) -> Option<TableRow>
    ensures { result ≡ rules.row_in known.now.segments.now line.now }
{
    let (depth, word, status, max) = four_words(line)?;
    let depth = read_between(0, 16, depth)?;
    let tag = read_row_name(word, known)?;
    let must = read_status(status)?;
    let max = read_between(1, 999_999, max)?;
    Some(TableRow {
        tag,
        must,
        max: max as u32,
        depth: depth as u8,
    })
}

// A number in this range.
fn read_between(low: u64, high: u64, word: &[u8]) -> Option<u64>
    ensures { result ≡ rules.kept (rules.is_between low high) (rules.number_in word.now) }
{
    let n = read_number(word)?;
    if is_between(low, high, n) {
        Some(n)
    } else {
        None
    }
}

/// What a row is called: `-` for a group, or the tag of a segment of the store or a service segment.
pub(crate) fn read_row_name(word: &[u8], known: &EarlierDefinitions<'_>) -> Option<Option<Tag>>
    ensures { result ≡ rules.called known.now.segments.now word.now }
{
    if word == b"-".as_slice() {
        return Some(None);
    }
    let tag = Tag::read(word)?;
    if known.has_segment(tag) || service_segment(tag).is_some() {
        Some(Some(tag))
    } else {
        None
    }
}
