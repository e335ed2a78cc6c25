//! The messages of a text: which segments open them, and which stop them.
ghost use Rattle.std.specs.Prelude.{◌≡◌, ◌+◌, ◌++◌, ◌<◌, ◌≤◌, IfOk, None, OnOk, Some, codes, filter, is_some, length};
ghost use Rattle.std.specs.List.{list_any};
ghost use Rattle.std.specs.Option.{ForSome, option_copied, option_map};
ghost use Rattle.contrl_writer.specs.Levels.{is_among};
ghost use Rattle.edi_tables.specs.Rows.{has_name};
ghost use Rattle.error_ledger.specs.Order.{IsAscending};
ghost use Rattle.seg_lexer.specs.Service.{IsUsable};
ghost use Rattle.segment_records.specs.Look.{seen_of};
ghost use Rattle.segment_records.specs.Spans.{begun_by as begun_by_of, ended_by, group_by as group_by_of, message_ended, message_seen};
ghost use Rattle.segment_records.specs.Segments.{segments_of_text};
ghost use Rattle.segment_records.specs.WalkedSegments.{LiesIn};
ghost use Rattle.contrl_writer.specs.Needed.{is_asked as is_asked_of, is_asked_at};
ghost use Rattle.text_reading.specs.Summary.{messages_in};
ghost use Rattle.edi_octets.specs.declared.octets.TheConstants.{LONGEST_TEXT};

use crate::group_heads::{last_by, stops_group};
use contrl_segments::MessageHead;
use edi_octets::Octets;
use edi_tables::Tag;
use error_ledger::ErrorLine;
use kept_text::KeptText;
use seg_lexer::Service;
use segment_records::{WalkedSegment, copy_value, is_named, stops_message};
use std::alloc::{AllocError, Global};

// A message that is open: its UNH, and the place of its functional group, from 0.
#[derive(Clone, Copy)]
struct Opened<'e> {
    unh: WalkedSegment<'e>,
    group: Option<u32>,
}

// Puts the message that is open, if there is one, with its last segment, by its number from 1, if it is asked for: each one is,
// or if errors are given, each one that has one of them. Its values are read from its text, by the service characters of the
// text. Only want of memory is an error.
fn put_message<O: Octets>(
    alloc: Global,
    text: &O,
    service: &Service,
    errors: Option<&[ErrorLine]>,
    current: Option<Opened<'_>>,
    last: u32,
    messages: &mut Vec<MessageHead>,
) -> Result<(), AllocError>
    requires usable { IsUsable service.now (O.octets text.now) }
    requires short { length (O.octets text.now) ≤ LONGEST_TEXT }
    requires within { ForSome current (λ opened. LiesIn (O.octets text.now) (seen_of opened.unh)) }
    requires ascending { ForSome errors (λ list. IsAscending list.now) }
    ensures { OnOk result (messages.new.items ≡ messages.old.items
        ++ filter (is_asked_of (option_copied errors.entry)) (ended_by message_ended
        (option_map (λ opened. message_seen service.now (O.octets text.now)
        opened.group (seen_of opened.unh)) current.entry) last)) }
{
    let Some(opened) = current else {
        return Ok(());
    };
    if !is_asked(errors, opened.unh.number, last) {
        return Ok(());
    }
    let mut head = read_message(alloc, text, service, &opened.unh, opened.group)?;
    head.last = last;
    messages.push(head)?;
    Ok(())
}

// Whether a message with these segments is asked for.
fn is_asked(errors: Option<&[ErrorLine]>, first: u32, last: u32) -> bool
    requires { ForSome errors (λ list. IsAscending list.now) }
    ensures { result ≡ is_asked_at (option_copied errors.entry) first last }
{
    match errors {
        None => true,
        Some(errors) => has_error(errors, first, last),
    }
}

// Whether one of these errors is at one of the segments `first..=last`.
fn has_error(errors: &[ErrorLine], first: u32, last: u32) -> bool
    requires { IsAscending errors.now }
    ensures { result ≡ list_any (λ e. is_among first last e.segment) errors.now }
{
    let from = errors.partition_point(|e| e.segment < first);
    let to = errors.partition_point(|e| e.segment <= last);
    from < to
}

// The message that a segment opens in a functional group, by the group's place from 0, if it is a UNH.
fn open_message<'e>(seen: &WalkedSegment<'e>, group: Option<u32>) -> Option<Opened<'e>>
    ensures opens { is_some result ≡ has_name (codes "UNH") seen.now.record.now.tag }
    ensures here { ForSome result
        (λ opened. (opened.group ≡ group) × (seen_of opened.unh ≡ seen_of seen.now)) }
{
    if is_named(b"UNH", seen.record.tag()) {
        Some(Opened { unh: *seen, group })
    } else {
        None
    }
}

// The message that a UNH opens in a group.
fn read_message<O: Octets>(
    alloc: Global,
    text: &O,
    service: &Service,
    seen: &WalkedSegment<'_>,
    group: Option<u32>,
) -> Result<MessageHead, AllocError>
    requires usable { IsUsable service.now (O.octets text.now) }
    requires short { length (O.octets text.now) ≤ LONGEST_TEXT }
    requires within { seen.now.from + seen.now.record.now.octets ≤ length (O.octets text.now) }
    ensures { IfOk result (λ head. head
        ≡ message_seen service.now (O.octets text.now) group (seen_of seen.now)) }
{
    let components = seen.components(text, service);
    let reference = copy_value(alloc, components, 1, 1)?;
    let kind = copy_value(alloc, components, 2, 1)?;
    let version = copy_value(alloc, components, 2, 2)?;
    let release = copy_value(alloc, components, 2, 3)?;
    let agency = copy_value(alloc, components, 2, 4)?;
    let association = copy_value(alloc, components, 2, 5)?;
    Ok(MessageHead {
        first: seen.number,
        last: seen.number,
        group,
        reference,
        kind,
        version,
        release,
        agency,
        association,
    })
}

/// How many functional groups have begun with a segment with this tag, where so many have before it.
pub(crate) fn begun_by(tag: Option<Tag>, begun: u32) -> u32
    requires { begun < LONGEST_TEXT }
    ensures { result ≡ begun_by_of tag begun }
{
    if is_named(b"UNG", tag) {
        begun + 1
    } else {
        begun
    }
}

/// The place, from 0, of the functional group that is open after a segment with this tag, by how many have begun before it and
/// the place of the one that is open there.
pub(crate) fn group_by(tag: Option<Tag>, begun: u32, group: Option<u32>) -> Option<u32>
    ensures { result ≡ group_by_of tag begun group }
{
    if is_named(b"UNG", tag) {
        Some(begun)
    } else if stops_group(tag) {
        None
    } else {
        group
    }
}

/// All messages of a text, in order, each with its functional group. Their values are read from the text. Only want of memory is
/// an error.
pub(crate) fn all_messages(
    kept: &KeptText<'_>,
    alloc: Global,
) -> Result<Vec<MessageHead>, AllocError>
    ensures { IfOk result (λ messages. messages.items
        ≡ messages_in (segments_of_text kept.now.text)) }
{
    messages_of(kept, alloc, None)
}

/// The messages of a text, in order, each with its functional group: all of them, or if errors are given, those that have one of
/// them. Their values are read from the text. Only want of memory is an error.
pub(crate) fn messages_of(
    kept: &KeptText<'_>,
    alloc: Global,
    errors: Option<&[ErrorLine]>,
) -> Result<Vec<MessageHead>, AllocError>
    requires { ForSome errors (λ list. IsAscending list.now) }
    ensures { IfOk result (λ messages. messages.items
        ≡ filter (is_asked_of (option_copied errors.entry))
        (messages_in (segments_of_text kept.now.text))) }
{
    let text = kept.whole();
    let service = kept.service();
    let count = kept.segment_count();
    let mut messages = Vec::new(alloc);
    let mut current = None;
    // How many groups have begun, and the place of the one that is open.
    let mut begun = 0;
    let mut group = None;
    // Only notable segments open or stop one.
    for seen in kept.notable_segments() {
        let tag = seen.record.tag();
        group = group_by(tag, begun, group);
        begun = begun_by(tag, begun);
        if stops_message(tag) {
            let last = last_by(is_named(b"UNT", tag), seen.number);
            put_message(alloc, &text, service, errors, current, last, &mut messages)?;
            current = open_message(&seen, group);
        }
    }
    put_message(alloc, &text, service, errors, current, count, &mut messages)?;
    Ok(messages)
}
