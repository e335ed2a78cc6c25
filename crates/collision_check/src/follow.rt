//! An entry's followers, where the next segment may be with nothing missing or too often, and those that share a tag.
ghost use Rattle.std.specs.Prelude.{◌≡◌, ◌<◌, ◌+◌, None, IfOk, length, slice_index_or};
ghost use Rattle.std.specs.Option.{ForSome};
ghost use Rattle.edi_tables.specs.Collisions.{followers_of, may_come_again, shared_pairs};
ghost use Rattle.collision_check.specs.Marks.{IsFresh, marks_after, numbers_of, only_met};

use crate::marks::{Mark, meet};
use edi_tables::Table;
use std::alloc::{AllocError, Global};

/// The first two followers of each tag that two followers of an entry share, by the place of the second of them.
///
/// Once a candidate misses a node, each later one does, so the rest is not looked at.
pub fn pairs(
    alloc: Global,
    table: &Table,
    numbers: &[Option<u16>],
    marks: &mut [Option<Mark>],
    entry: u16,
) -> Result<Vec<(u16, u16)>, AllocError>
    requires within { entry < length table.now }
    requires numbers { numbers.now ≡ numbers_of table.now }
    requires marks { length marks.old ≡ length table.now }
    requires fresh { IsFresh entry marks.old }
    ensures pairs { IfOk result
        (λ pairs. pairs.items ≡ shared_pairs table.now (followers_of table.now entry)) }
    ensures fresh { IfOk result (λ _. IsFresh (entry + 1) marks.new) }
{
    let first_must = table.first_must_after(entry);
    let mut pairs = Vec::new(alloc);
    for candidate in table.candidates(entry) {
        if table.misses(entry, first_must, candidate) {
            return Ok(pairs);
        }
        if may_come_again(table, entry, candidate) {
            if let Some(first) = first_met(numbers, marks, entry, candidate) {
                pairs.push((first, candidate))?;
            }
        }
    }
    Ok(pairs)
}

/// The only follower of an entry with the tag of this one that was met before, and notes this one.
#[inline]
fn first_met(
    numbers: &[Option<u16>],
    marks: &mut [Option<Mark>],
    entry: u16,
    follower: u16,
) -> Option<u16>
    requires within { follower < length numbers.now }
    requires marked { ForSome (slice_index_or numbers.now follower None)
        (λ n. n < length marks.old) }
    ensures first { result
        ≡ only_met entry marks.old (slice_index_or numbers.now follower None) }
    ensures marks { marks.new
        ≡ marks_after entry follower marks.old (slice_index_or numbers.now follower None) }
{
    match numbers[usize::from(follower)] {
        Some(number) => meet(marks, entry, number, follower),
        None => None,
    }
}

/// Whether a repeated group, or the entry itself, may come a second time; another candidate comes for the first time.
#[inline]
fn may_come_again(table: &Table, entry: u16, candidate: u16) -> bool
    requires within { entry < length table.now }
    requires candidate { candidate < length table.now }
    ensures { result ≡ may_come_again table.now entry candidate }
{
    if table.is_repeat(entry, candidate) {
        table.node(usize::from(candidate) - 1).max >= 2
    } else {
        candidate != entry || table.node(usize::from(candidate)).max >= 2
    }
}
