//! Where two followers of an entry may share a tag, by a look at what comes outwards of it.
ghost use Rattle.std.specs.Prelude.{◌≡◌, ◌<◌, ◌+◌, false, [], length, MatchOption};
ghost use Rattle.edi_tables.specs.Rows.{IsTable};
ghost use Rattle.edi_tables.specs.Walk.{entry_for, later_siblings, level_end, tag_at};
ghost use Rattle.edi_tables.specs.Places.{IsNextSibling, IsNode, IsPlace};
ghost use Rattle.edi_tables.specs.Collisions.{followers_of, shared_pairs};
ghost use Rattle.collision_check.specs.Ranks.{IsNoted};

use crate::ranks::{RANKS, Ranks};
use edi_tables::{Table, Tag};

/// Whether two followers of an entry may share a tag. Where it is false, none do.
///
/// It looks at the candidates up to the first mandatory one: no later one is a follower.
pub fn may_share(table: &Table, ranks: &Ranks, entry: u16) -> bool
    requires { entry < length table.now }
    ensures { result ≡ false → shared_pairs table.now (followers_of table.now entry) ≡ [] }
{
    let mut seen = [false; RANKS];
    let mut at = usize::from(entry);
    if !table.is_trigger(at) {
        note(&mut seen, ranks, table.node(at).tag);
    }
    let mut bound = level_end(table, at);
    loop {
        if let Some(sibling) = next_sibling(table, at, bound) {
            at = usize::from(sibling);
            if !note(&mut seen, ranks, tag_of_entry(table, at)) {
                return true;
            }
            if table.node(at).must {
                return false;
            }
        } else {
            let Some(group) = table.parent(at) else {
                return false;
            };
            at = usize::from(group);
            if !note(&mut seen, ranks, table.node(at + 1).tag) {
                return true;
            }
            bound = level_end(table, at);
        }
    }
}

// Notes the tag of a node, if it has one. Answers whether none with its number was noted before.
#[inline]
fn note(seen: &mut [bool; RANKS], ranks: &Ranks, tag: Option<Tag>) -> bool
    ensures { IsNoted ranks.now tag seen.old seen.new result }
{
    let Some(tag) = tag else {
        return true;
    };
    let rank = ranks.rank(tag);
    let is_new = !seen[rank];
    seen[rank] = true;
    is_new
}

// Where the siblings of a node end: with the group that holds them, or with the table.
#[inline]
fn level_end(table: &Table, i: usize) -> usize
    requires { i < length table.now }
    ensures value { result ≡ level_end table.now i }
    ensures lawful { IsTable table.now }
{
    match table.parent(i) {
        Some(group) => usize::from(table.node(usize::from(group)).end),
        None => table.len(),
    }
}

// The next sibling of a node on a level that ends at this bound: the node at its end.
#[inline]
fn next_sibling(table: &Table, at: usize, bound: usize) -> Option<u16>
    requires { IsPlace table.now at bound }
    ensures { MatchOption result
        (later_siblings table.now at ≡ [])
        (λ next. IsNextSibling table.now at bound next) }
{
    let end = table.node(at).end;
    if usize::from(end) < bound {
        Some(end)
    } else {
        None
    }
}

// The tag of the entry of a node: that of a group is its trigger's.
#[inline]
fn tag_of_entry(table: &Table, i: usize) -> Option<Tag>
    requires { IsNode table.now i }
    ensures { result ≡ tag_at table.now (entry_for table.now i) }
{
    if table.is_group(i) {
        table.node(i + 1).tag
    } else {
        table.node(i).tag
    }
}
