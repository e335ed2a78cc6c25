//! The functional groups of a text: which segments open them, and which stop them.
ghost use Rattle.std.specs.Prelude.{◌≡◌, ◌+◌, ◌++◌, ◌<◌, ◌≤◌, IfOk, None, OnOk, Some, codes, if◌then◌else◌, length};
ghost use Rattle.edi_tables.specs.Rows.{has_name};
ghost use Rattle.seg_lexer.specs.Service.{IsUsable};
ghost use Rattle.segment_records.specs.Look.{seen_of};
ghost use Rattle.segment_records.specs.Spans.{ended_by, group_ended, group_seen, last_by as last_by_of, stops_group as stops_group_of};
ghost use Rattle.segment_records.specs.Segments.{segments_of_text};
ghost use Rattle.text_reading.specs.Summary.{groups_in};
ghost use Rattle.edi_octets.specs.declared.octets.TheConstants.{LONGEST_TEXT};

use crate::parties::copy_party;
use contrl_segments::GroupHead;
use edi_octets::Octets;
use edi_tables::{Chunk, Tag};
use kept_text::KeptText;
use seg_lexer::Service;
use segment_records::{WalkedSegment, copy_value, is_named, is_no_part};
use std::alloc::{AllocError, Global};

/// Puts the functional group that is open, if there is one, with its last segment, by its number from 1. Only want of memory is
/// an error.
pub(crate) fn put_group(
    current: Option<GroupHead>,
    last: u32,
    groups: &mut Vec<GroupHead>,
) -> Result<(), AllocError>
    ensures { OnOk result (groups.new.items
        ≡ groups.old.items ++ ended_by group_ended current last) }
{
    if let Some(mut head) = current {
        head.last = last;
        groups.push(head)?;
    }
    Ok(())
}

/// The functional group that a segment opens, if it is a UNG; its last segment isn't known yet. Its values are read from its
/// text, by the service characters of the text. Only want of memory is an error.
pub(crate) fn open_group<O: Octets>(
    alloc: Global,
    text: &O,
    service: &Service,
    seen: &WalkedSegment<'_>,
) -> Result<Option<GroupHead>, AllocError>
    requires usable { IsUsable service.now (O.octets text.now) }
    requires short { length (O.octets text.now) ≤ LONGEST_TEXT }
    requires within { seen.now.from + seen.now.record.now.octets ≤ length (O.octets text.now) }
    ensures { IfOk result (λ opened. opened ≡ (if has_name (codes "UNG") seen.now.record.now.tag
        then Some (group_seen service.now (O.octets text.now) (seen_of seen.now)) else None)) }
{
    if is_named(b"UNG", seen.record.tag()) {
        Ok(Some(read_group(alloc, text, service, seen)?))
    } else {
        Ok(None)
    }
}

// The group that a UNG opens.
fn read_group<O: Octets>(
    alloc: Global,
    text: &O,
    service: &Service,
    seen: &WalkedSegment<'_>,
) -> Result<GroupHead, AllocError>
    requires usable { IsUsable service.now (O.octets text.now) }
    requires short { length (O.octets text.now) ≤ LONGEST_TEXT }
    requires within { seen.now.from + seen.now.record.now.octets ≤ length (O.octets text.now) }
    ensures { IfOk result (λ head. head
        ≡ group_seen service.now (O.octets text.now) (seen_of seen.now)) }
{
    let components = seen.components(text, service);
    let reference = copy_value(alloc, components, 5, 1)?;
    let sender = copy_party(alloc, components, 2, Chunk::empty(alloc))?;
    let recipient = copy_party(alloc, components, 3, Chunk::empty(alloc))?;
    Ok(GroupHead {
        first: seen.number,
        last: seen.number,
        reference,
        sender,
        recipient,
    })
}

/// The number, from 1, of the last segment of what stops at segment `number`: this one itself, if it closes; else the one
/// before it.
pub(crate) fn last_by(closes: bool, number: u32) -> u32
    requires { 0 < number }
    ensures { result ≡ last_by_of closes number }
{
    if closes { number } else { number - 1 }
}

/// Whether a segment with this tag stops a functional group: UNE, UNG, UNZ and UNB do.
pub(crate) fn stops_group(tag: Option<Tag>) -> bool
    ensures { result ≡ stops_group_of tag }
{
    is_no_part(tag)
}

// Its functional groups, in order. Their values are read from the text. Only notable segments open or stop one.
pub(crate) fn groups_of(kept: &KeptText<'_>, alloc: Global) -> Result<Vec<GroupHead>, AllocError>
    ensures { IfOk result (λ groups. groups.items ≡ groups_in (segments_of_text kept.now.text)) }
{
    let text = kept.whole();
    let service = kept.service();
    let count = kept.segment_count();
    let mut groups = Vec::new(alloc);
    let mut current = None;
    for seen in kept.notable_segments() {
        let tag = seen.record.tag();
        if stops_group(tag) {
            let last = last_by(is_named(b"UNE", tag), seen.number);
            put_group(current, last, &mut groups)?;
            current = open_group(alloc, &text, service, &seen)?;
        }
    }
    put_group(current, count, &mut groups)?;
    Ok(groups)
}
