//! The collisions of a segment table.
ghost use Rattle.std.specs.Prelude.{◌≡◌, ℕ, List, ◌<◌, ◌+◌, ◌∷◌, [], None, ◌++◌, All, map, length, true, false, IfOk};
ghost use Rattle.std.specs.List.{filter_map, range_with_len};
ghost use Rattle.edi_tables.specs.Rows.{IsTable};
ghost use Rattle.edi_tables.specs.Walk.{is_group_at, tag_at};
ghost use Rattle.edi_tables.specs.Collisions.{collisions_of, followers_of, shared_pairs};
ghost use Rattle.edi_tables.specs.Placement.{IsPlacement};
ghost use Rattle.edi_tables.specs.declared.tag.Tag.{Tag};
ghost use Rattle.collision_check.specs.Listed.{IsAmbiguous, collision_seen, collisions_at, with_followers};
ghost use Rattle.collision_check.specs.Marks.{IsClear, IsFresh, goes_on, numbers_of};

use crate::marks::Mark;
use crate::numbers::{all_differ, numbers};
use crate::ranks::Ranks;
use crate::suspect::may_share;
use crate::{follow, front};
use edi_tables::{List, Table, Tag};
use std::alloc::{AllocError, Global};

/// A list of tags, and two lists of entries that a message with these tags may be placed at.
///
/// `front` holds the tags of the front, and after them the tag that both last entries have.
#[derive(Debug, Drop)]
pub struct Collision {
    pub front: List<Tag>,
    pub first: List<u16>,
    pub second: List<u16>,
}

/// The collisions of a table, by the entry that comes before the shared tag, in table order.
#[tactic(auto, using(crate::proofs::Single::at_most_one))]
pub fn list_collisions(alloc: Global, table: &Table) -> Result<Vec<Collision>, AllocError>
    ensures listed { IfOk result
        (λ collisions. map collision_seen collisions.items ≡ collisions_of table.now) }
    ensures ambiguous { IfOk result
        (λ collisions. All (λ c. IsAmbiguous table.now (collision_seen c)) collisions.items) }
    // Where the table has no collision, a list of tags has one placement at most.
    ensures only { collisions_of table.now ≡ []
        → (tags : List Tag)
        (p q : List ℕ) → IsPlacement table.now tags p
        → IsPlacement table.now tags q
        → p ≡ q }
{
    let count = table.len();
    let mut ranks = Ranks::none();
    ranks.number(table.nodes());
    let mut collisions = Vec::new(alloc);
    if has_none(table, &ranks) {
        return Ok(collisions);
    }
    let numbers = numbers(alloc, table.nodes())?;
    if all_differ(&numbers) {
        return Ok(collisions);
    }
    let mut marks = unmarked(alloc, count)?;
    let marks = marks.as_mut_slice();
    let mut is_clear = false;
    for entry in 0..count {
        is_clear = push_collisions(
            alloc,
            table,
            &ranks,
            &numbers,
            marks,
            entry as u16,
            is_clear,
            &mut collisions,
        )?;
    }
    Ok(collisions)
}

/// Whether a table has no collision, as far as a look at each entry shows.
fn has_none(table: &Table, ranks: &Ranks) -> bool
    ensures { result ≡ true → collisions_of table.now ≡ [] }
{
    let mut is_clear = false;
    for place in 0..table.len() {
        if table.is_group(place) {
            is_clear = false;
        } else if is_clear_at(table, ranks, place as u16, is_clear) {
            is_clear = true;
        } else {
            return false;
        }
    }
    true
}

/// So many marks that say nothing.
fn unmarked(alloc: Global, count: usize) -> Result<Vec<Option<Mark>>, AllocError>
    ensures { IfOk result (λ marks. marks.items ≡ map (λ _. None) (range_with_len 0 count)) }
{
    (0..count).map(|_| None).collect(alloc)
}

/// Appends the collisions after an entry; a group has none. Answers whether it is an entry without any.
fn push_collisions(
    alloc: Global,
    table: &Table,
    ranks: &Ranks,
    numbers: &[Option<u16>],
    marks: &mut [Option<Mark>],
    entry: u16,
    is_clear: bool,
    collisions: &mut Vec<Collision>,
) -> Result<bool, AllocError>
    requires within { entry < length table.now }
    requires numbers { numbers.now ≡ numbers_of table.now }
    requires marks { length marks.old ≡ length table.now }
    requires fresh { IsFresh entry marks.old }
    requires clear { is_clear ≡ true → IsClear table.now entry }
    ensures listed { IfOk result (λ _. map collision_seen collisions.new.items
        ≡ map collision_seen collisions.old.items ++ collisions_at table.now entry) }
    ensures fresh { IfOk result (λ _. IsFresh (entry + 1) marks.new) }
    ensures clear { IfOk result (λ clear. clear ≡ true → IsClear table.now (entry + 1)) }
{
    if table.is_group(usize::from(entry)) {
        return Ok(false);
    }
    if is_clear_at(table, ranks, entry, is_clear) {
        return Ok(true);
    }
    let pairs = follow::pairs(alloc, table, numbers, marks, entry)?;
    if pairs.is_empty() {
        return Ok(true);
    }
    let front = front::front(alloc, table, entry)?;
    push_pairs(alloc, table, &front, &pairs, collisions)?;
    Ok(false)
}

/// Whether a look at an entry shows that it has no collision.
///
/// Where the node before has none and this one is optional and beside it, it has none: what follows it, follows that
/// node too.
#[inline]
fn is_clear_at(table: &Table, ranks: &Ranks, entry: u16, is_clear: bool) -> bool
    requires within { entry < length table.now }
    requires segment { is_group_at table.now entry ≡ false }
    requires clear { is_clear ≡ true → IsClear table.now entry }
    ensures { result ≡ true → shared_pairs table.now (followers_of table.now entry) ≡ [] }
{
    if is_clear && goes_on(table, entry) {
        return true;
    }
    !may_share(table, ranks, entry)
}

/// Whether this node is optional, and beside the one before.
#[inline]
fn goes_on(table: &Table, entry: u16) -> bool
    requires some { 0 < entry }
    requires within { entry < length table.now }
    ensures value { result ≡ goes_on table.now entry }
    ensures lawful { IsTable table.now }
{
    let at = usize::from(entry);
    table.parent(at - 1) == table.parent(at) && !table.node(at).must
}

/// Appends the collision of each of these pairs of followers.
fn push_pairs(
    alloc: Global,
    table: &Table,
    front: &[u16],
    pairs: &[(u16, u16)],
    collisions: &mut Vec<Collision>,
) -> Result<(), AllocError>
    ensures { IfOk result (λ _. map collision_seen collisions.new.items
        ≡ map collision_seen collisions.old.items
        ++ map (λ pair. with_followers table.now front.now pair.0 pair.1) pairs.now) }
{
    for pair in pairs {
        collisions.push(colliding(alloc, table, front, pair.0, pair.1)?)?;
    }
    Ok(())
}

/// The collision of two followers with one tag: the front, and then the one or the other.
fn colliding(
    alloc: Global,
    table: &Table,
    front: &[u16],
    first: u16,
    second: u16,
) -> Result<Collision, AllocError>
    ensures { IfOk result
        (λ c. collision_seen c ≡ with_followers table.now front.now first second) }
{
    let first = with_last(alloc, front, first)?;
    let second = with_last(alloc, front, second)?;
    Ok(Collision {
        front: List::of(tags(alloc, table, &first)?),
        first: List::of(first),
        second: List::of(second),
    })
}

/// The tags of these entries.
fn tags(alloc: Global, table: &Table, entries: &[u16]) -> Result<Vec<Tag>, AllocError>
    ensures { IfOk result (λ tags. tags.items ≡ filter_map (tag_at table.now) entries.now) }
{
    entries
        .iter()
        .filter_map(|entry| tag_at(table, *entry))
        .collect(alloc)
}

/// The tag of the node with this number, if there is one; a group has none.
fn tag_at(table: &Table, i: u16) -> Option<Tag>
    ensures { result ≡ tag_at table.now i }
{
    match table.nodes().get(usize::from(i)) {
        Some(node) => node.tag,
        None => None,
    }
}

/// These entries, and one more after them.
fn with_last(alloc: Global, entries: &[u16], last: u16) -> Result<Vec<u16>, AllocError>
    ensures { IfOk result (λ longer. longer.items ≡ entries.now ++ last ∷ []) }
{
    let mut longer = Vec::with_capacity(alloc, entries.len() + 1)?;
    longer.extend_from_slice(entries)?;
    longer.push(last)?;
    Ok(longer)
}
