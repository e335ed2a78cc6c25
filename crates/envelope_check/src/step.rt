//! What a segment opens and closes.
ghost use Rattle.std.specs.Prelude.{◌≡◌, ◌+◌, ◌<◌, ◌^◌};
ghost use Rattle.std.specs.Option.{option_copied};
ghost use Rattle.envelope_check.specs.Known.{
  message_after as message_left,
  group_after as group_left,
  message_segments_after as message_segments_left,
  group_messages_after as group_messages_left,
};

use crate::head::{Head, HeadKind};

/// The message that is open after a segment: each head closes it, and a UNH opens one.
pub(crate) fn message_after<'a, 'k>(
    kind: Option<HeadKind>,
    head: Option<&'a Head<'k>>,
    before: Option<&'a Head<'k>>,
) -> Option<&'a Head<'k>>
    ensures { option_copied result
        ≡ message_left kind (option_copied head.entry) (option_copied before.entry) }
{
    match kind {
        None => before,
        Some(HeadKind::Unh) => head,
        Some(_) => None,
    }
}

/// The group that is open after a segment: each head but UNH and UNT closes it, and a UNG opens one.
pub(crate) fn group_after<'a, 'k>(
    kind: Option<HeadKind>,
    head: Option<&'a Head<'k>>,
    before: Option<&'a Head<'k>>,
) -> Option<&'a Head<'k>>
    ensures { option_copied result
        ≡ group_left kind (option_copied head.entry) (option_copied before.entry) }
{
    match kind {
        Some(HeadKind::Ung) => head,
        None | Some(HeadKind::Unh | HeadKind::Unt) => before,
        Some(_) => None,
    }
}

/// How many segments the open message has after a segment.
pub(crate) fn message_segments_after(kind: Option<HeadKind>, before: u32) -> u32
    requires { before + 1 < 2 ^ 32 }
    ensures { result ≡ message_segments_left kind before }
{
    match kind {
        Some(HeadKind::Unh) => 1,
        _ => before + 1,
    }
}

/// How many messages the open group has after a segment.
pub(crate) fn group_messages_after(kind: Option<HeadKind>, before: u32) -> u32
    requires { before + 1 < 2 ^ 32 }
    ensures { result ≡ group_messages_left kind before }
{
    match kind {
        Some(HeadKind::Ung) => 0,
        Some(HeadKind::Unh) => before + 1,
        _ => before,
    }
}
