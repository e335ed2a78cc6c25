//! The members of a tree: where each segment of a text is placed.
use edi_tables::Tag;

/// A segment in the tree: its number, from 1, its tag, and where it is placed.
#[derive(Clone, Copy, Debug, PartialEq, Eq)]
pub struct TreeLine {
    pub segment: u32,
    pub tag: Option<Tag>,
    pub place: TreePlace,
}

/// Where a segment is placed: outside of messages, in a message without table, at no entry of its message's table,
/// or at an entry, with the number of groups round it, and the group that it opens where it is a trigger.
#[derive(Clone, Copy, Debug, PartialEq, Eq)]
pub enum TreePlace {
    Outside,
    Untabled,
    Unplaced,
    Placed {
        entry: u16,
        depth: u8,
        opens: Option<GroupMark>,
    },
}

/// A group that is opened: its number among the groups of its table, from 1, and its count with this opening.
#[derive(Clone, Copy, Debug, PartialEq, Eq)]
pub struct GroupMark {
    pub number: u16,
    pub count: u32,
}
