//! What one segment of an acknowledgement finds in the text that it answers.
ghost use Rattle.std.specs.Prelude.{◌≡◌, ◌+◌, ◌<◌, ◌≤◌, IfOk, [], Some, codes};
ghost use Rattle.std.specs.Option.{ForSome, option_and_then, option_map};
ghost use Rattle.seg_lexer.specs.Left.{components_left};
ghost use Rattle.segment_records.specs.Segments.{value_in};
ghost use Rattle.contrl_match.specs.Passes.{spot_after};
ghost use Rattle.contrl_match.specs.Spots.{group_named, message_named, segment_placed, segment_with};
ghost use Rattle.contrl_match.specs.Telling.{answer_told, finding_at, told_with};
ghost use Rattle.contrl_match.specs.Walked.{
  HasSmallSite,
  HasSmallSites,
  IsTold,
  group_told,
  message_told,
  place_told,
  segment_told,
  site_seen,
  spot_seen,
  told_seen,
};

use crate::finding::{Finding, Where};
use crate::head_index::HeadIndex;
use crate::spot::Spot;
use crate::values::{Site, read_number, read_site};
use contrl_segments::MessageHead;
use edi_octets::Flat;
use edi_tables::{Chunk, Tag};
use seg_lexer::Fields;
use segment_records::{copy_value, is_named, lend_found};
use std::alloc::{AllocError, Global};

/// What a segment of an acknowledgement finds.
#[derive(Drop)]
pub(crate) enum Told {
    /// It leads to no place of the text.
    Lost,
    /// It says of nothing that it is wrong.
    Nothing,
    Found(Finding),
}

/// What a segment finds after those that lead to this spot, by its tag and its values. The spot is then that of the next one.
/// Only want of memory is an error.
pub(crate) fn tell<'s>(
    alloc: Global,
    index: &HeadIndex<'s>,
    spot: &mut Spot<'s>,
    tag: Option<Tag>,
    components: Fields<'_, Flat<'_>>,
) -> Result<Told, AllocError>
    requires small { HasSmallSites tag (value_in (components_left components)) }
    ensures { let s = index.now.summary.now in
        let values = value_in (components_left components.entry) in
        IfOk result (λ told. IsTold told spot.new (told_with s (spot_seen spot.old) tag values)
        (spot_after s (spot_seen spot.old) tag values)) }
{
    if is_named(b"UCI", tag) {
        tell_answer(alloc, Where::Interchange, 5, 0, components)
    } else if is_named(b"UCF", tag) {
        tell_group(alloc, index, spot, components)
    } else if is_named(b"UCM", tag) {
        tell_message(alloc, index, spot, components)
    } else if is_named(b"UCS", tag) {
        tell_position(alloc, spot, components)
    } else if is_named(b"UCD", tag) {
        tell_detail(alloc, spot, components)
    } else {
        Ok(Told::Nothing)
    }
}

// UCF: the group that it names.
fn tell_group<'s>(
    alloc: Global,
    index: &HeadIndex<'s>,
    spot: &mut Spot<'s>,
    components: Fields<'_, Flat<'_>>,
) -> Result<Told, AllocError>
    requires small { HasSmallSite (value_in (components_left components)) 7 }
    ensures { let groups = index.now.summary.now.groups in
        let values = value_in (components_left components.entry) in
        IfOk result (λ told. IsTold told spot.new (group_told index.now.summary.now values)
        (record (spot_seen spot.old)
        { group = option_map (λ p. p.0) (group_named groups (values 1 1)) })) }
{
    let reference = lend_found(alloc, components.value_at(1, 1))?;
    match index.group(&reference) {
        Some((place, group)) => {
            spot.group = Some(place);
            tell_answer(alloc, Where::Group, 5, group.first, components)
        }
        None => {
            spot.group = None;
            Ok(Told::Lost)
        }
    }
}

// UCM: the message that it names in the group of the last UCF.
fn tell_message<'s>(
    alloc: Global,
    index: &HeadIndex<'s>,
    spot: &mut Spot<'s>,
    components: Fields<'_, Flat<'_>>,
) -> Result<Told, AllocError>
    requires small { HasSmallSite (value_in (components_left components)) 6 }
    ensures { let s = index.now.summary.now in
        let before = spot_seen spot.old in
        let values = value_in (components_left components.entry) in
        IfOk result (λ told. IsTold told spot.new (message_told s before values)
        (record before { message = message_named s.messages before.group (values 1 1) })) }
{
    let reference = lend_found(alloc, components.value_at(1, 1))?;
    spot.message = index.message(spot.group, &reference);
    match spot.message {
        Some(message) => tell_answer(alloc, Where::Message, 4, message.first, components),
        None => Ok(Told::Lost),
    }
}

// UCS: the segment that has its position in the message of the last UCM.
fn tell_position(
    alloc: Global,
    spot: &mut Spot<'_>,
    components: Fields<'_, Flat<'_>>,
) -> Result<Told, AllocError>
    ensures { let before = spot_seen spot.old in
        let values = value_in (components_left components.entry) in
        IfOk result (λ told. IsTold told spot.new (segment_told before values)
        (record before
        { segment = option_and_then (segment_placed (values 1 1)) before.message })) }
{
    spot.segment = find_segment(alloc, spot.message, components)?;
    let Some(segment) = spot.segment else {
        return Ok(Told::Lost);
    };
    let code = copy_value(alloc, components, 2, 1)?;
    if code.octets().is_empty() {
        return Ok(Told::Nothing);
    }
    let site = Site {
        element: 0,
        component: 0,
    };
    let tag = Chunk::empty(alloc);
    Ok(Told::Found(finding_in(Where::Segment, segment, tag, code, site)))
}

// The segment of a message that has the position of this UCS.
fn find_segment(
    alloc: Global,
    message: Option<&MessageHead>,
    components: Fields<'_, Flat<'_>>,
) -> Result<Option<u32>, AllocError>
    ensures { let position = value_in (components_left components.entry) 1 1 in
        IfOk result (λ segment. segment
        ≡ option_and_then (segment_placed position) (option_map (λ m. m.now) message.entry)) }
{
    let Some(message) = message else {
        return Ok(None);
    };
    match read_number(alloc, components, 1, 1)? {
        Some(position) => Ok(place_segment(message, position)),
        None => Ok(None),
    }
}

// UCD: a place in the segment of the last UCS.
fn tell_detail(
    alloc: Global,
    spot: &Spot<'_>,
    components: Fields<'_, Flat<'_>>,
) -> Result<Told, AllocError>
    requires small { HasSmallSite (value_in (components_left components)) 2 }
    ensures { let values = value_in (components_left components.entry) in
        IfOk result (λ told. told_seen told ≡ place_told (spot_seen spot.now) values) }
{
    let Some(segment) = spot.segment else {
        return Ok(Told::Lost);
    };
    let Some(site) = read_site(alloc, components, 2)? else {
        return Ok(Told::Lost);
    };
    let code = copy_value(alloc, components, 1, 1)?;
    let tag = Chunk::empty(alloc);
    Ok(Told::Found(finding_in(Where::Segment, segment, tag, code, site)))
}

// What 0085, 0013 and S011 tell, which are this element and the next two.
fn tell_answer(
    alloc: Global,
    level: Where,
    element: u32,
    segment: u32,
    components: Fields<'_, Flat<'_>>,
) -> Result<Told, AllocError>
    requires few { element ≤ 5 }
    requires small { HasSmallSite (value_in (components_left components)) (element + 2) }
    ensures { let values = value_in (components_left components.entry) in
        IfOk result (λ told. told_seen told ≡ answer_told level element segment values) }
{
    let Some(site) = read_site(alloc, components, element + 2)? else {
        return Ok(Told::Lost);
    };
    let code = copy_value(alloc, components, element, 1)?;
    if code.octets().is_empty() {
        return Ok(Told::Nothing);
    }
    let tag = copy_value(alloc, components, element + 1, 1)?;
    Ok(Told::Found(finding_in(level, segment, tag, code, site)))
}

// A finding at a place of a segment that is small.
fn finding_in(level: Where, segment: u32, tag: Chunk, code: Chunk, site: Site) -> Finding
    requires element { site.element < 1000 }
    requires component { site.component < 1000 }
    ensures { result ≡ finding_at level segment tag code (site_seen site) }
{
    Finding {
        level,
        segment,
        tag,
        element: site.element as u32,
        component: site.component as u32,
        code,
    }
}

// The number of the segment that has this position in a message, if there is one: its UNH has position 1.
fn place_segment(message: &MessageHead, position: u64) -> Option<u32>
    requires { 0 < position }
    ensures { result ≡ segment_with message.now position }
{
    let count = (u64::from(message.last) + 1).saturating_sub(u64::from(message.first));
    if position <= count {
        Some((u64::from(message.first) + position - 1) as u32)
    } else {
        None
    }
}
