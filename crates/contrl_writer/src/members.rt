//! The messages of each group.
ghost use Rattle.std.specs.Prelude.{ℕ, ◌≡◌, IfOk, map};
ghost use Rattle.std.specs.List.Sorted.{IsNonDecreasingBy};
ghost use Rattle.contrl_writer.specs.Contrl.{members_of};
ghost use Rattle.contrl_writer.specs.Members.{group_of, heads_in};

use contrl_segments::MessageHead;
use std::alloc::{AllocError, Global};
use std::marker::Model;

/// A message that lies in the group at this place.
#[derive(Clone, Copy)]
pub struct Member<'a> {
    pub(crate) group: u32,
    pub(crate) message: &'a MessageHead,
}

/// The messages that lie in groups, by the places of these, and those of one group in order.
#[derive(Drop)]
pub(crate) struct Members<'a> {
    items: Vec<Member<'a>>,
}

impl<'a> Model for Members<'a> {
    ghost use Rattle.std.specs.Prelude.{List};
    ghost use Rattle.std.specs.List.Sorted.{IsNonDecreasingBy};
    ghost use Rattle.contrl_writer.specs.declared.members.Member as members;

    ghost Value = { List members.Member };

    ghost view = { λ m. m.items.items };

    ghost invariant = { λ m. IsNonDecreasingBy (λ x. x.group) m.items.items };
}

impl<'a> Members<'a> {
    /// Those of these messages.
    pub(crate) fn of(alloc: Global, messages: &'a [MessageHead]) -> Result<Members<'a>, AllocError>
        ensures { IfOk result (λ m. (i : ℕ) → heads_in i m ≡ members_of i messages.now) }
    {
        let mut items = Vec::new(alloc);
        for message in messages {
            if let Some(group) = message.group {
                items.push(Member { group, message })?;
            }
        }
        items.sort_by_key(|member| member.group)?;
        Ok(Members { items })
    }

    /// Those of the group at place i.
    pub(crate) fn of_group(&self, i: usize) -> &[Member<'a>]
        ensures { map (λ x. x.message.now) result.now ≡ heads_in i self.now }
    {
        members_at(&self.items, i)
    }
}

// Those of the group at place i, in a list by the places of groups.
fn members_at<'a, 'm>(members: &'a [Member<'m>], i: usize) -> &'a [Member<'m>]
    requires { IsNonDecreasingBy group_of members.now }
    ensures { map (λ x. x.message.now) result.now ≡ heads_in i members.now }
{
    let from = members.partition_point(|member| (member.group as usize) < i);
    let to = members.partition_point(|member| member.group as usize <= i);
    &members[from..to.max(from)]
}
