//! The reading of a whole message by its definition: counts are looked up backwards, for each candidate anew.
ghost use Rattle.std.specs.Prelude.{◌≡◌, ◌<◌, ◌+◌, ℕ, List, Option, Some, [], IfOk, Bool, count_by, length, map, take};
ghost use Rattle.edi_tables.specs.declared.tag.Tag.{Tag};
ghost use Rattle.edi_tables.specs.Walk.{max_at};
ghost use Rattle.edi_tables.specs.Placement.{IsDerivation, entry_count, group_count, is_at, is_over, last_placed, placed_since, rank_of};
ghost use Rattle.edi_tables.specs.Collisions.{collisions_of};
ghost use Rattle.edi_tables.specs.Extents.{tag_in};
ghost use Rattle.table_walk.specs.Reading.{IsReading, first_free, member_at, member_of, reading_of};
ghost use Rattle.table_walk.specs.Errors.{faults_at, structure_errors_of};
ghost use Rattle.table_walk.specs.Bodies.{opens_in};

use crate::position::{Best, has_tag};
use edi_tables::{Table, Tag};
use std::alloc::{AllocError, Global};

/// The reading of a message with these tags: the entry of each segment, or none. The first tag is that of UNH.
///
/// It is slow, and shows what a reading is: each step looks at the whole list before it.
#[tactic(auto, using(crate::proofs::Readings::reading_is, crate::proofs::Whole::only_reading, crate::proofs::Whole::first_member, crate::proofs::Derived::derived_reading))]
pub fn read_tags(
    alloc: Global,
    table: &Table,
    tags: &[Option<Tag>],
) -> Result<Vec<Option<u16>>, AllocError>
    ensures value { IfOk result (λ placed. placed.items ≡ reading_of table.now tags.now) }
    ensures reading { 0 < length tags.now
        → IsReading table.now tags.now (reading_of table.now tags.now) }
    ensures only { (other : List (Option ℕ))
        → IsReading table.now tags.now other
        → other ≡ reading_of table.now tags.now }
    // A segment with no error of its own is at the first candidate with its tag that has nothing missing and isn't over.
    ensures first { let placed = reading_of table.now tags.now in
        (k : ℕ) → k + 1 < length placed
        → faults_at table.now placed (k + 1) ≡ []
        → member_at placed (k + 1)
        ≡ first_free table.now (take (k + 1) placed) (tag_in tags.now (k + 1)) }
    // Where the table lists no collision, a derivation is the reading of its tags, which has no structure error.
    ensures derived { collisions_of table.now ≡ []
        → (names : List Tag)
        (entries : List ℕ) → map Some names ≡ tags.now
        → IsDerivation table.now names entries
        → (reading_of table.now tags.now ≡ map Some entries)
        × ((closed : Bool) → structure_errors_of table.now tags.now closed ≡ []) }
{
    if tags.is_empty() {
        return Ok(Vec::new(alloc));
    }
    // UNH is the first entry of each table.
    prove!(table.len() > 0);
    let mut placed = Vec::with_capacity(alloc, tags.len())?;
    placed.push(Some(0))?;
    for tag in &tags[1..] {
        let member = member_of(table, &placed, *tag);
        placed.push(member)?;
    }
    Ok(placed)
}

// Where a segment with this tag is after these: at the first candidate with the least rank.
fn member_of(table: &Table, placed: &[Option<u16>], tag: Option<Tag>) -> Option<u16>
    requires { last_placed placed.now < length table.now }
    ensures { result ≡ member_of table.now placed.now tag }
{
    let last = last_placed(placed);
    let mut best = Best::NONE;
    for candidate in table.candidates(last) {
        if has_tag(table, tag, candidate) {
            best = best.or(candidate, rank_of(table, placed, last, candidate));
        }
    }
    best.entry
}

// The rank of a candidate, from 0 to 3.
#[tactic(auto, unfolding(edi_tables::specs::Placement::rank_of))]
fn rank_of(table: &Table, placed: &[Option<u16>], last: u16, candidate: u16) -> u8
    requires last { last ≡ last_placed placed.now }
    requires within { last < length table.now }
    requires candidate { candidate < length table.now }
    ensures { result ≡ rank_of table.now placed.now candidate }
{
    let misses = table.missing(last, candidate).next().is_some();
    match (is_over(table, placed, last, candidate), misses) {
        (false, false) => 0,
        (true, false) => 1,
        (false, true) => 2,
        (true, true) => 3,
    }
}

// Whether going to a candidate is one too many.
#[tactic(auto, unfolding(edi_tables::specs::Placement::is_over))]
fn is_over(table: &Table, placed: &[Option<u16>], last: u16, candidate: u16) -> bool
    requires last { last ≡ last_placed placed.now }
    requires within { last < length table.now }
    requires candidate { candidate < length table.now }
    ensures { result ≡ is_over table.now placed.now candidate }
{
    if table.is_repeat(last, candidate) {
        max_at(table, candidate - 1) <= group_count(table, placed, candidate - 1)
    } else {
        candidate == last && max_at(table, candidate) <= entry_count(table, placed, candidate)
    }
}

// The greatest count of a node.
fn max_at(table: &Table, node: u16) -> usize
    requires { node < length table.now }
    ensures { result ≡ max_at table.now node }
{
    table.node(usize::from(node)).max as usize
}

// The count of a group: the placements of its trigger after the last one of the trigger of the group round it.
fn group_count(table: &Table, placed: &[Option<u16>], group: u16) -> usize
    requires { group < length table.now }
    ensures { result ≡ group_count table.now placed.now group }
{
    // A group comes after the one that holds it, so its trigger isn't that one's.
    let parent = table.parent(usize::from(group));
    count_since(placed, parent, usize::from(group) + 1)
}

// The count of an entry: its placements since the last one of its group's trigger, that one included.
#[tactic(auto, unfolding(edi_tables::specs::Placement::entry_count))]
fn entry_count(table: &Table, placed: &[Option<u16>], entry: u16) -> usize
    requires { entry < length table.now }
    ensures { result ≡ entry_count table.now placed.now entry }
{
    count_since(placed, table.parent(usize::from(entry)), usize::from(entry))
}

// The placements of an entry since the last one of this group's trigger, that one included.
fn count_since(placed: &[Option<u16>], group: Option<u16>, entry: usize) -> usize
    ensures { result ≡ count_by (is_at entry) (placed_since group placed.now) }
{
    let mut count = 0;
    for member in placed {
        if is_trigger_of(group, *member) {
            count = 0;
        }
        if is_at(entry, *member) {
            count += 1;
        }
    }
    count
}

// Whether a segment is at the trigger of this group.
fn is_trigger_of(group: Option<u16>, member: Option<u16>) -> bool
    ensures { result ≡ opens_in group member }
{
    match group {
        Some(group) => is_at(usize::from(group) + 1, member),
        None => false,
    }
}

// Whether a segment is at this entry.
fn is_at(entry: usize, member: Option<u16>) -> bool
    ensures { result ≡ is_at entry member }
{
    match member {
        Some(member) => usize::from(member) == entry,
        None => false,
    }
}

// The entry that was placed last.
fn last_placed(placed: &[Option<u16>]) -> u16
    ensures { result ≡ last_placed placed.now }
{
    let mut last = 0;
    for member in placed {
        last = member.unwrap_or(last);
    }
    last
}
