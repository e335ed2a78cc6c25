//! The functional groups and messages of a text, each found by its reference.
ghost use Rattle.std.specs.Prelude.{◌≡◌, IfOk};
ghost use Rattle.std.specs.Option.{option_map};
ghost use Rattle.contrl_match.specs.Spots.{group_named, message_named};
ghost use Rattle.contrl_match.specs.Index.{IsGroupIndex, IsMessageIndex, group_seen, found_head};

use contrl_segments::{GroupHead, MessageHead, Summary};
use indexmap::IndexMap;
use std::alloc::{AllocError, Global};

/// The groups and messages of a summary: the first of each reference is found by it, with no search.
#[derive(Drop)]
pub(crate) struct HeadIndex<'s> {
    pub summary: &'s Summary,
    groups: IndexMap<&'s [u8], (usize, &'s GroupHead)>,
    messages: IndexMap<(Option<usize>, &'s [u8]), &'s MessageHead>,
    ghost by_group: { IsGroupIndex groups summary.now.groups },
    ghost by_message: { IsMessageIndex messages summary.now.messages },
}

impl<'s> HeadIndex<'s> {
    /// The groups and messages of this summary. Only want of memory is an error.
    pub fn of(alloc: Global, summary: &'s Summary) -> Result<HeadIndex<'s>, AllocError>
        ensures { IfOk result (λ index. index.summary.now ≡ summary.now) }
    {
        let groups = index_groups(alloc, summary.groups.items())?;
        let messages = index_messages(alloc, summary.messages.items())?;
        Ok(HeadIndex {
            summary,
            groups,
            messages,
        })
    }

    /// The first group with this reference, and its place among the groups.
    pub fn group(&self, reference: &[u8]) -> Option<(usize, &'s GroupHead)>
        ensures { option_map group_seen result
            ≡ group_named self.now.summary.now.groups reference.now }
    {
        let found = self.groups.get(reference)?;
        Some(*found)
    }

    /// The first message with this reference in the group at a place, or in none.
    pub fn message(&self, group: Option<usize>, reference: &[u8]) -> Option<&'s MessageHead>
        ensures { option_map found_head result
            ≡ message_named self.now.summary.now.messages group reference.now }
    {
        let found = self.messages.get(&(group, reference))?;
        Some(*found)
    }
}

// The first group of each reference, by it: from the last to the first, each takes the place of those after it.
fn index_groups<'s>(
    alloc: Global,
    groups: &'s [GroupHead],
) -> Result<IndexMap<&'s [u8], (usize, &'s GroupHead)>, AllocError>
    ensures { IfOk result (λ map. IsGroupIndex map groups.now) }
{
    let mut map = IndexMap::with_capacity(alloc, groups.len())?;
    let mut place = groups.len();
    while place > 0 {
        place -= 1;
        let group = &groups[place];
        map.insert(group.reference.octets(), (place, group))?;
    }
    Ok(map)
}

// The first message of each group and reference, by these.
fn index_messages<'s>(
    alloc: Global,
    messages: &'s [MessageHead],
) -> Result<IndexMap<(Option<usize>, &'s [u8]), &'s MessageHead>, AllocError>
    ensures { IfOk result (λ map. IsMessageIndex map messages.now) }
{
    let mut map = IndexMap::with_capacity(alloc, messages.len())?;
    let mut place = messages.len();
    while place > 0 {
        place -= 1;
        let message = &messages[place];
        map.insert((group_place(message), message.reference.octets()), message)?;
    }
    Ok(map)
}

// The place of a message's group.
fn group_place(message: &MessageHead) -> Option<usize>
    ensures { result ≡ message.now.group }
{
    match message.group {
        Some(group) => Some(group as usize),
        None => None,
    }
}
