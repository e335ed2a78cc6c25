//! How an interchange is opened: what its UNB tells, and what is wrong before the first segment, in the opening, and after the
//! last segment.
ghost use Rattle.std.specs.Prelude.{◌≡◌, ◌+◌, ◌++◌, ◌≤◌, [], length, map, slice_get, slice_index, unwrap_or, IfOk, IfSome, OnOk};
ghost use Rattle.std.specs.List.{list_any};
ghost use Rattle.std.specs.Option.{option_map};
ghost use Rattle.std.specs.Str.{bytes_eq};
ghost use Rattle.dir_compile.specs.Directory.{IsDirectory};
ghost use Rattle.dir_compile.specs.declared.parts.Parts.{Parts};
ghost use Rattle.seg_lexer.specs.Left.{components_left};
ghost use Rattle.seg_lexer.specs.Segments.{boundaries_of, ends_of, tail_of};
ghost use Rattle.seg_lexer.specs.Service.{IsUsable};
ghost use Rattle.seg_lexer.specs.Value.{octets_of};
ghost use Rattle.segment_records.specs.Errors.{is_unknown as is_unknown_of};
ghost use Rattle.segment_records.specs.Line.{opening_seen};
ghost use Rattle.segment_records.specs.Look.{seen_of};
ghost use Rattle.segment_records.specs.Openers.{interchange_party_in, opening_by};
ghost use Rattle.segment_records.specs.Told.{components_seen};
ghost use Rattle.segment_records.specs.WalkedSegments.{LiesIn, seen_in};
ghost use Rattle.text_reading.specs.Errors.{advice_lines, first_segment, syntax_lines, tail_lines, untagged};
ghost use Rattle.edi_octets.specs.declared.octets.TheConstants.{LONGEST_TEXT};

use crate::parties::copy_party;
use crate::tail::find_tail;
use contrl_segments::{Opening, Party};
use edi_octets::Octets;
use envelope_check::SegmentMark;
use error_ledger::{ErrorLine, Kind};
use seg_lexer::{Context, Fields, Service, Value, read_service};
use segment_records::{WalkedSegment, copy_value, error_with, is_named};
use std::alloc::{AllocError, Global};
use std::marker::Brand;
use std::sync::ledger::Blank;

// The levels and the versions of the syntax.
const LEVELS: [&[u8]; 6] = [b"UNOA", b"UNOB", b"UNOC", b"UNOD", b"UNOE", b"UNOF"];

const VERSIONS: [&[u8]; 4] = [b"1", b"2", b"3", b"4"];

/// What a UNB tells: it is bad where it has a local error; else it gives the level and the version of the context, and the
/// parties and the reference that are read from its text. Only want of memory is an error.
pub(crate) fn read_opening<O: Octets>(
    alloc: Global,
    text: &O,
    context: &Context,
    first: &WalkedSegment<'_>,
) -> Result<Opening, AllocError>
    requires usable { IsUsable context.now.service (O.octets text.now) }
    requires short { length (O.octets text.now) ≤ LONGEST_TEXT }
    requires within { first.now.from + first.now.record.now.octets ≤ length (O.octets text.now) }
    ensures { IfOk result (λ opening. opening ≡ opening_by context.now
        (components_seen context.now.service (O.octets text.now) (seen_of first.now))
        first.now.record.now.local) }
{
    if !first.record.local().is_empty() {
        return Ok(Opening::BadUnb);
    }
    let components = first.components(text, &context.service);
    let sender = copy_routed(alloc, components, 2)?;
    let recipient = copy_routed(alloc, components, 3)?;
    let reference = copy_value(alloc, components, 5, 1)?;
    Ok(Opening::Good {
        level: context.level,
        version: context.version,
        sender,
        recipient,
        reference,
    })
}

// A party of an interchange, in an element of its UNB.
fn copy_routed<O: Octets>(
    alloc: Global,
    components: Fields<'_, O>,
    element: u32,
) -> Result<Party, AllocError>
    ensures { IfOk result (λ party. party
        ≡ interchange_party_in (components_left components.entry) element) }
{
    let route = copy_value(alloc, components, element, 3)?;
    copy_party(alloc, components, element, route)
}

/// Puts that a UNB names a level or a version of the syntax that there isn't. They are read from its text, by these service
/// characters. Only want of memory is an error.
pub(crate) fn put_opening<O: Octets>(
    text: &O,
    service: &Service,
    first: &WalkedSegment<'_>,
    list: &mut Vec<ErrorLine>,
) -> Result<(), AllocError>
    requires usable { IsUsable service.now (O.octets text.now) }
    requires short { length (O.octets text.now) ≤ LONGEST_TEXT }
    requires within { first.now.from + first.now.record.now.octets ≤ length (O.octets text.now) }
    ensures { OnOk result (list.new.items
        ≡ list.old.items ++ opening_seen service.now (O.octets text.now) (seen_of first.now)) }
{
    let components = first.components(text, service);
    if is_unknown(components.value_at(1, 1), &LEVELS) {
        list.push(first.error(1, 1, Kind::Syntax))?;
    }
    if is_unknown(components.value_at(1, 2), &VERSIONS) {
        list.push(first.error(1, 2, Kind::Syntax))?;
    }
    Ok(())
}

// Whether a value is filled, and none of these.
fn is_unknown<O: Octets>(value: Option<Value<'_, O>>, known: &[&[u8]]) -> bool
    ensures { result ≡ is_unknown_of (unwrap_or (option_map octets_of value.entry) [])
        (map (λ name. name.now) known.now) }
{
    match value {
        Some(value) => !value.is_empty() && !is_among(&value, known),
        None => false,
    }
}

// Whether a value is one of these.
fn is_among<O: Octets>(value: &Value<'_, O>, known: &[&[u8]]) -> bool
    ensures { result
        ≡ list_any (bytes_eq (octets_of value.now)) (map (λ name. name.now) known.now) }
{
    for name in known {
        if is_name(value, name) {
            return true;
        }
    }
    false
}

fn is_name<O: Octets>(value: &Value<'_, O>, name: &[u8]) -> bool
    ensures { result ≡ bytes_eq (octets_of value.now) name.now }
{
    value.is(name)
}

/// Puts that the service string advice can't be used. Only want of memory is an error.
pub(crate) fn put_advice(service: &Service, list: &mut Vec<ErrorLine>) -> Result<(), AllocError>
    ensures { OnOk result (list.new.items ≡ list.old.items ++ advice_lines service.now.sound) }
{
    if !service.sound {
        list.push(error_with(0, untagged(0), 0, 0, Kind::BadUna))?;
    }
    Ok(())
}

// A place of a text where no tag is read.
fn untagged(start: u32) -> SegmentMark
    ensures { result ≡ untagged start }
{
    SegmentMark { start, tag: None }
}

/// Puts that something is left after the last of `count` segments, where the boundary `from` is. Only want of memory is an error.
pub(crate) fn put_tail<O: Octets>(
    text: &O,
    service: &Service,
    from: usize,
    count: u32,
    list: &mut Vec<ErrorLine>,
) -> Result<(), AllocError>
    requires usable { IsUsable service.now (O.octets text.now) }
    requires short { length (O.octets text.now) ≤ LONGEST_TEXT }
    requires last { from ≡ slice_index (boundaries_of service.now (O.octets text.now))
        (length (ends_of service.now (O.octets text.now))) }
    requires few { count ≤ LONGEST_TEXT }
    ensures { OnOk result (list.new.items ≡ list.old.items
        ++ tail_lines count (tail_of service.now (O.octets text.now))) }
{
    if let Some(start) = find_tail::<_, Brand>(text, service, from, Blank::new(1)) {
        list.push(error_with(count + 1, untagged(start), 0, 0, Kind::Tail))?;
    }
    Ok(())
}

/// Puts that the first segment of a text, where it is UNB, names a level or a version of the syntax that there isn't. It is cut
/// without repetitions for that, by the service characters of the text itself. Only want of memory is an error.
pub(crate) fn put_syntax<O: Octets>(
    text: &O,
    first: Option<WalkedSegment<'_>>,
    list: &mut Vec<ErrorLine>,
) -> Result<(), AllocError>
    requires short { length (O.octets text.now) ≤ LONGEST_TEXT }
    requires within { IfSome first
        (λ first. LiesIn (O.octets text.now) (seen_of first)) }
    ensures { (directory : Parts) → IsDirectory directory
        → option_map seen_of first.entry ≡ slice_get (seen_in directory (O.octets text.now)) 0
        → OnOk result (list.new.items
        ≡ list.old.items ++ syntax_lines (first_segment (O.octets text.now))) }
{
    match first {
        Some(first) if is_named(b"UNB", first.record.tag()) => {
            let service = read_service(text);
            put_opening(text, &service, &first, list)
        }
        _ => Ok(()),
    }
}
