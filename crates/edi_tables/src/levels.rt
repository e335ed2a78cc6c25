//! The levels of a segment table: the groups round a node, and the later siblings of each.
ghost use Rattle.std.specs.Prelude.{◌≡◌, ◌<◌, [], MatchOption, length};
ghost use Rattle.std.specs.Iterator.{YieldsFirst, item_count};
ghost use Rattle.edi_tables.specs.Walk.{end_at, entry_for, is_group_at, is_must_at, level_end, later_siblings, parent_at};
ghost use Rattle.edi_tables.specs.Places.{IsNode, IsPlace, IsNextSibling};

use crate::Node;
use std::marker::Model;

/// The groups round a node that are left, innermost first. It takes no memory.
#[derive(Debug, Drop)]
pub struct Groups<'a> {
    pub(crate) nodes: &'a [Node],
    pub(crate) at: usize,
}

impl<'a> Model for Groups<'a> {
    ghost use Rattle.std.specs.Prelude.{List, ℕ};
    ghost use Rattle.edi_tables.specs.Walk.{groups_round};
    ghost use Rattle.edi_tables.specs.Places.{IsNode};

    ghost Value = { List ℕ };

    ghost view = { λ g. groups_round g.nodes.now g.at };

    ghost invariant = { λ g. IsNode g.nodes.now g.at };
}

impl<'a> Iterator for Groups<'a> {
    type Item = u16;

    ghost next_gives = { YieldsFirst (λ left. left) };

    ghost remaining = { item_count (λ left. left) };

    #[inline]
    fn next(&mut self) -> Option<u16> {
        let group = parent_at(self.nodes, self.at)?;
        self.at = usize::from(group);
        Some(group)
    }
}

/// The later siblings of a node that are left, ascending. It takes no memory.
#[derive(Debug, Drop)]
pub struct LaterSiblings<'a> {
    pub(crate) nodes: &'a [Node],
    pub(crate) at: usize,
    // Where the siblings end.
    pub(crate) bound: usize,
}

impl<'a> Model for LaterSiblings<'a> {
    ghost use Rattle.std.specs.Prelude.{List, ℕ};
    ghost use Rattle.edi_tables.specs.Walk.{later_siblings};
    ghost use Rattle.edi_tables.specs.Places.{IsPlace};

    ghost Value = { List ℕ };

    ghost view = { λ s. later_siblings s.nodes.now s.at };

    ghost invariant = { λ s. IsPlace s.nodes.now s.at s.bound };
}

impl<'a> Iterator for LaterSiblings<'a> {
    type Item = u16;

    ghost next_gives = { YieldsFirst (λ left. left) };

    ghost remaining = { item_count (λ left. left) };

    #[inline]
    fn next(&mut self) -> Option<u16> {
        let sibling = next_sibling(self.nodes, self.at, self.bound)?;
        self.at = usize::from(sibling);
        Some(sibling)
    }
}

/// The group that holds a node.
#[inline]
pub fn parent_at(nodes: &[Node], i: usize) -> Option<u16>
    requires { i < length nodes.now }
    ensures { result ≡ parent_at nodes.now i }
{
    nodes[i].parent
}

/// One past the last descendant of a node.
#[inline]
pub fn end_at(nodes: &[Node], i: usize) -> u16
    requires { i < length nodes.now }
    ensures { result ≡ end_at nodes.now i }
{
    nodes[i].end
}

/// Whether a node is a group.
#[inline]
pub fn is_group_at(nodes: &[Node], i: usize) -> bool
    requires { i < length nodes.now }
    ensures { result ≡ is_group_at nodes.now i }
{
    nodes[i].tag.is_none()
}

/// Whether a node is mandatory.
#[inline]
pub fn is_must_at(nodes: &[Node], i: usize) -> bool
    requires { i < length nodes.now }
    ensures { result ≡ is_must_at nodes.now i }
{
    nodes[i].must
}

/// The next sibling of a node on a level that ends at this bound: the node at its end.
#[inline]
pub fn next_sibling(nodes: &[Node], at: usize, bound: usize) -> Option<u16>
    requires { IsPlace nodes.now at bound }
    ensures { MatchOption result
        (later_siblings nodes.now at ≡ [])
        (λ next. IsNextSibling nodes.now at bound next) }
{
    let end = end_at(nodes, at);
    if usize::from(end) < bound {
        Some(end)
    } else {
        None
    }
}

/// Where the siblings of a node end: with the group that holds them, or with the table.
#[inline]
pub fn level_end(nodes: &[Node], i: usize) -> usize
    requires { IsNode nodes.now i }
    ensures { result ≡ level_end nodes.now i }
{
    match parent_at(nodes, i) {
        Some(group) => usize::from(end_at(nodes, usize::from(group))),
        None => nodes.len(),
    }
}

/// The entry of a node: that of a group is its trigger.
#[inline]
pub fn entry_for(nodes: &[Node], i: u16) -> u16
    requires { IsNode nodes.now i }
    ensures { result ≡ entry_for nodes.now i }
{
    if is_group_at(nodes, usize::from(i)) {
        i + 1
    } else {
        i
    }
}
