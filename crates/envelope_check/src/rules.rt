//! The rules on envelopes, each a test of its own on one segment.
ghost use Rattle.std.specs.Prelude.{◌≡◌, ◌+◌, ◌<◌, ◌^◌, List, Some, false, is_some, true};
ghost use Rattle.std.specs.Option.{option_copied};
ghost use Rattle.std.specs.List.{list_any};
ghost use Rattle.envelope_check.specs.Head as heads;
ghost use Rattle.envelope_check.specs.Envelope.{gives as gives_number};
ghost use Rattle.envelope_check.specs.Known.{
  second_unb_by,
  has_place_by,
  outside_by,
  empty_interchange_by,
  mixed_by,
  lacks_une_by,
  empty_group_by,
  other_type_by,
  counted_by,
  count_due_by,
  miscounts_by,
  opening_by,
  refers_elsewhere_by,
  lacks_table_by,
  rules_by,
  next_number,
  sound_run_by,
  group_end as group_end_of,
  next_but_unt as next_but_unt_of,
};

use crate::head::{Head, HeadKind};
use crate::heads::{group_end, kind_in, next_but_unt};
use crate::known::Known;
use edi_octets::read_decimal;
use error_ledger::Kind;

/// A rule at a segment: whether it is broken, and the element and the kind of its error.
pub(crate) type Rule = (bool, u32, Kind);

/// The rules at a segment, in the order of their errors.
#[tactic(auto, unfolding(crate::specs::Known::rules_by))]
pub(crate) fn rules(known: &Known, head: Option<&Head<'_>>, after: &[Head<'_>]) -> [Rule; 11]
    requires { known.now.segments + 1 < 2 ^ 32 }
    ensures { result ≡ rules_by known.now (option_copied head.entry) after.now }
{
    let kind = kind_in(head);
    #[rattlefmt::skip]
    let rules = [
        (is_second_unb(known, kind), 0, Kind::SecondUnb),
        (known.ended, 0, Kind::AfterEnd),
        (is_outside(known, kind), 0, Kind::Outside),
        (is_empty_interchange(known, kind), 0, Kind::EmptyInterchange),
        (is_mixed(known, kind), 0, Kind::Mixed),
        (lacks_une(kind, after), 0, Kind::NoUne),
        (is_empty_group(kind, after), 0, Kind::EmptyGroup),
        (is_of_other_type(kind, head, known.group), 0, Kind::GroupType),
        (miscounts(head, count_due(known, kind)), 1, Kind::Count),
        (refers_elsewhere(head, opening(known, kind)), 2, Kind::Reference),
        (lacks_table(head), 2, Kind::NoTable),
    ];
    rules
}

/// Whether a segment is seen at once to break no rule: a UNH or a UNT that is as it should be, as nearly every one is. Another one
/// may break none either.
#[inline(always)]
pub(crate) fn is_sound(known: &Known, head: Option<&Head<'_>>) -> bool
    requires { known.now.segments + 1 < 2 ^ 32 }
    ensures { (after : List heads.Head) → result ≡ true
        → list_any (λ rule. rule.0) (rules_by known.now (option_copied head.entry) after) ≡ false }
{
    match head {
        Some(head) if !known.ended => match head.kind() {
            HeadKind::Unh => is_sound_start(known, head),
            HeadKind::Unt => is_sound_end(known, head),
            _ => false,
        },
        _ => false,
    }
}

// Whether a UNH breaks no rule.
#[inline(always)]
fn is_sound_start(known: &Known, head: &Head<'_>) -> bool
    ensures table { result ≡ true → lacks_table_by (Some head.now) ≡ false }
    ensures mixed { result ≡ true
        → mixed_by (Some head.now.kind) (is_some known.now.group) known.now.has_groups ≡ false }
    ensures name { result ≡ true
        → other_type_by (Some head.now.kind) (Some head.now) (option_copied known.now.group)
        ≡ false }
{
    let kind = Some(head.kind());
    if lacks_table(Some(head)) || is_mixed(known, kind) {
        return false;
    }
    !is_of_other_type(kind, Some(head), known.group)
}

// Whether a UNT is in a message and breaks no rule.
#[inline(always)]
fn is_sound_end(known: &Known, head: &Head<'_>) -> bool
    requires { known.now.segments + 1 < 2 ^ 32 }
    ensures inside { result ≡ true → is_some known.now.message ≡ true }
    ensures count { result ≡ true
        → miscounts_by (Some head.now) (count_due_by (Some head.now.kind) known.now) ≡ false }
    ensures reference { result ≡ true
        → refers_elsewhere_by (Some head.now) (opening_by (Some head.now.kind) known.now)
        ≡ false }
{
    let kind = Some(head.kind());
    if known.message.is_none() || miscounts(Some(head), count_due(known, kind)) {
        return false;
    }
    !refers_elsewhere(Some(head), opening(known, kind))
}

/// How many segments from here on are no heads and can break no rule: before the end and in an open message, those up to
/// the next head or to the last segment.
pub(crate) fn sound_run(known: &Known, rest: &[Head<'_>], total: u32) -> u32
    requires { known.now.segments < next_number rest.now total }
    ensures { result ≡ sound_run_by known.now rest.now total }
{
    if known.ended || known.message.is_none() {
        return 0;
    }
    match rest {
        [head, ..] => head.segment() - 1 - known.segments,
        [] => total - known.segments,
    }
}

/// Whether one of the rules is broken.
pub(crate) fn breaks_any(rules: &[Rule]) -> bool
    ensures { result ≡ list_any (λ rule. rule.0) rules.now }
{
    rules.iter().any(|rule| rule.0)
}

// A UNB that isn't the first segment, and isn't after the end.
fn is_second_unb(known: &Known, kind: Option<HeadKind>) -> bool
    ensures { result ≡ second_unb_by kind known.now.segments known.now.ended }
{
    matches!(kind, Some(HeadKind::Unb)) && known.segments != 0 && !known.ended
}

// It lies in a message, closes a message or a group, or is one that needs neither.
fn has_place(known: &Known, kind: Option<HeadKind>) -> bool
    ensures { result ≡ has_place_by kind (is_some known.now.message) (is_some known.now.group) }
{
    match kind {
        None | Some(HeadKind::Unt) => known.message.is_some(),
        Some(HeadKind::Une) => known.group.is_some(),
        Some(_) => true,
    }
}

fn is_outside(known: &Known, kind: Option<HeadKind>) -> bool
    ensures { result
        ≡ outside_by kind known.now.ended (is_some known.now.message) (is_some known.now.group) }
{
    !known.ended && !has_place(known, kind)
}

// The first UNZ, with no group and no message before it.
fn is_empty_interchange(known: &Known, kind: Option<HeadKind>) -> bool
    ensures { result
        ≡ empty_interchange_by kind known.now.ended known.now.groups known.now.messages }
{
    matches!(kind, Some(HeadKind::Unz)) && !known.ended && known.groups == 0 && known.messages == 0
}

// A message in no group, in a text with groups.
fn is_mixed(known: &Known, kind: Option<HeadKind>) -> bool
    ensures { result ≡ mixed_by kind (is_some known.now.group) known.now.has_groups }
{
    matches!(kind, Some(HeadKind::Unh)) && known.group.is_none() && known.has_groups
}

// A group that ends without a UNE.
fn lacks_une(kind: Option<HeadKind>, after: &[Head<'_>]) -> bool
    ensures { result ≡ lacks_une_by kind (group_end_of after.now) }
{
    matches!(kind, Some(HeadKind::Ung)) && !matches!(group_end(after), Some(HeadKind::Une))
}

// A group without a message: its first head that isn't UNT is no UNH.
fn is_empty_group(kind: Option<HeadKind>, after: &[Head<'_>]) -> bool
    ensures { result ≡ empty_group_by kind (next_but_unt_of after.now) }
{
    matches!(kind, Some(HeadKind::Ung)) && !matches!(next_but_unt(after), Some(HeadKind::Unh))
}

// A message of another type than its group's.
fn is_of_other_type(
    kind: Option<HeadKind>,
    head: Option<&Head<'_>>,
    group: Option<&Head<'_>>,
) -> bool
    ensures { result ≡ other_type_by kind (option_copied head.entry) (option_copied group.entry) }
{
    match (kind, head, group) {
        (Some(HeadKind::Unh), Some(head), Some(group)) => { head.name() != group.name() }
        _ => false,
    }
}

// The number that a closing segment has to give.
fn count_due(known: &Known, kind: Option<HeadKind>) -> Option<u32>
    requires { known.now.segments + 1 < 2 ^ 32 }
    ensures { result ≡ count_due_by kind known.now }
{
    match kind? {
        HeadKind::Unt => known
            .message
            .is_some()
            .then_some(known.message_segments + 1),
        HeadKind::Une => known.group.is_some().then_some(known.group_messages),
        HeadKind::Unz => (!known.ended).then_some(counted(known.groups, known.messages)),
        _ => None,
    }
}

// What the end of the interchange counts: the groups or, where there are none, the messages.
fn counted(groups: u32, messages: u32) -> u32
    ensures { result ≡ counted_by groups messages }
{
    if groups == 0 { messages } else { groups }
}

// A count that isn't the number that it has to be.
fn miscounts(head: Option<&Head<'_>>, due: Option<u32>) -> bool
    ensures { result ≡ miscounts_by (option_copied head.entry) due }
{
    match (head, due) {
        (Some(head), Some(due)) => !gives(head.count(), due),
        _ => false,
    }
}

// Whether these octets are 1 to 19 digits that give this number.
fn gives(value: &[u8], number: u32) -> bool
    ensures { result ≡ gives_number value.now number }
{
    match read_decimal(value) {
        Some(given) => given == u64::from(number),
        None => false,
    }
}

// The segment that opened what a segment closes.
fn opening<'a, 'k>(known: &Known<'a, 'k>, kind: Option<HeadKind>) -> Option<&'a Head<'k>>
    ensures { option_copied result ≡ opening_by kind known.now }
{
    match kind? {
        HeadKind::Unt => known.message,
        HeadKind::Une => known.group,
        HeadKind::Unz if !known.ended => known.interchange,
        _ => None,
    }
}

// A reference that isn't that of the opening segment.
#[inline(always)]
fn refers_elsewhere(head: Option<&Head<'_>>, opening: Option<&Head<'_>>) -> bool
    ensures { result
        ≡ refers_elsewhere_by (option_copied head.entry) (option_copied opening.entry) }
{
    match (head, opening) {
        (Some(head), Some(opening)) => head.reference() != opening.reference(),
        _ => false,
    }
}

// A message for which the directory has no table.
fn lacks_table(head: Option<&Head<'_>>) -> bool
    ensures { result ≡ lacks_table_by (option_copied head.entry) }
{
    match head {
        Some(head) => matches!(head.kind(), HeadKind::Unh) && !head.is_tabled(),
        None => false,
    }
}
