//! What is known of a text when one of its segments is looked at.
ghost use Rattle.std.specs.Prelude.{◌≡◌, ◌+◌, ◌≤◌, ◌<◌, ◌^◌, None};

use crate::head::{Head, HeadKind};
use crate::heads::{first_unb, has_groups, kind_in};
use crate::step::{group_after, group_messages_after, message_after, message_segments_after};

/// What is known of a text when one of its segments is looked at: what the segments before it have opened and counted.
#[derive(Clone, Copy)]
pub(crate) struct Known<'a, 'k> {
    /// The text has a functional group, before the segment or after it.
    pub has_groups: bool,
    /// The first segment, where it is UNB.
    pub interchange: Option<&'a Head<'k>>,
    /// A UNZ came before.
    pub ended: bool,
    /// The UNH of the message that is open, and how many segments it has so far.
    pub message: Option<&'a Head<'k>>,
    pub message_segments: u32,
    /// The UNG of the group that is open, and how many messages it has so far.
    pub group: Option<&'a Head<'k>>,
    pub group_messages: u32,
    /// How many segments, groups and messages came before.
    pub segments: u32,
    pub groups: u32,
    pub messages: u32,
    ghost few_message_segments: { message_segments ≤ segments },
    ghost few_group_messages: { group_messages ≤ segments },
    ghost few_groups: { groups ≤ segments },
    ghost few_messages: { messages ≤ segments },
}

impl<'a, 'k> Known<'a, 'k> {
    ghost use Rattle.std.specs.Option.{option_copied};
    ghost use Rattle.envelope_check.specs.Known.{IsKnownAfter, IsKnownAfterOthers, IsKnownFirst};

    /// Before the first segment.
    pub(crate) fn first(heads: &'a [Head<'k>]) -> Known<'a, 'k>
        ensures { IsKnownFirst heads.now result }
    {
        Known {
            has_groups: has_groups(heads),
            interchange: first_unb(heads),
            ended: false,
            message: None,
            message_segments: 0,
            group: None,
            group_messages: 0,
            segments: 0,
            groups: 0,
            messages: 0,
        }
    }

    /// After a segment, which may be a head.
    #[inline(always)]
    pub(crate) fn after(&self, head: Option<&'a Head<'k>>) -> Known<'a, 'k>
        requires { self.now.segments + 1 < 2 ^ 32 }
        ensures { IsKnownAfter self.now (option_copied head.entry) result }
    {
        if head.is_none() {
            return self.after_others(1);
        }
        let kind = kind_in(head);
        Known {
            has_groups: self.has_groups,
            interchange: self.interchange,
            ended: self.ended || matches!(kind, Some(HeadKind::Unz)),
            message: message_after(kind, head, self.message),
            message_segments: message_segments_after(kind, self.message_segments),
            group: group_after(kind, head, self.group),
            group_messages: group_messages_after(kind, self.group_messages),
            segments: self.segments + 1,
            groups: self.groups + u32::from(matches!(kind, Some(HeadKind::Ung))),
            messages: self.messages + u32::from(matches!(kind, Some(HeadKind::Unh))),
        }
    }

    /// After so many segments that are no heads: they only add to the segments.
    #[inline(always)]
    pub(crate) fn after_others(&self, count: u32) -> Known<'a, 'k>
        requires { self.now.segments + count < 2 ^ 32 }
        ensures { IsKnownAfterOthers self.now count result }
    {
        Known {
            has_groups: self.has_groups,
            interchange: self.interchange,
            ended: self.ended,
            message: self.message,
            message_segments: self.message_segments + count,
            group: self.group,
            group_messages: self.group_messages,
            segments: self.segments + count,
            groups: self.groups,
            messages: self.messages,
        }
    }
}
