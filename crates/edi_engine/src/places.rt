//! Where segments are in the tree of a text.
ghost use Rattle.std.specs.Prelude.{◌≡◌, ◌+◌, ◌<◌, IfOk, IfSome, length, map, if◌then◌else◌};
ghost use Rattle.dir_compile.specs.Directory.{tables_of};
ghost use Rattle.edi_tables.specs.Pairs.{count_in as count_of};
ghost use Rattle.edi_tables.specs.Walk.{groups_round};
ghost use Rattle.segment_records.specs.Places.{opened_by, opening_place as opening_place_of, place_by, place_with};
ghost use Rattle.table_walk.specs.Steps.{AreCountsUpTo};
ghost use Rattle.segment_records.specs.Groups.{numbers_in};
ghost use Rattle.segment_records.specs.Look.{seen_of};
ghost use Rattle.segment_records.specs.WalkedSegments.{Follows, as_segment};

use dir_compile::Directory;
use edi_tables::{List, Table};
use error_ledger::{GroupMark, TreePlace};
use segment_records::{Mode, WalkedSegment, is_named, is_no_part};
use std::alloc::{AllocError, Global};
use table_walk::State;

/// Where a segment is in the tree. `numbers` are those that `number_groups` gives of the directory.
#[inline(always)]
pub(crate) fn find_place(
    directory: &Directory,
    numbers: &[List<u16>],
    seen: &WalkedSegment<'_>,
) -> TreePlace
    requires follows { Follows directory.now (seen_of seen.now) }
    requires numbers { numbers.now ≡ map numbers_in (tables_of directory.now) }
    ensures { result ≡ place_by directory.now seen.now.before.now (as_segment (seen_of seen.now))
        seen.now.record.now.step }
{
    let tag = seen.record.tag();
    let entry = seen.record.entry();
    if is_named(b"UNH", tag) {
        return opening_place(entry);
    }
    if is_no_part(tag) {
        return TreePlace::Outside;
    }
    match seen.before {
        Mode::Outside => TreePlace::Outside,
        Mode::Untabled => TreePlace::Untabled,
        Mode::Within { table, state } => {
            let i = *table as usize;
            let table = directory.table(i);
            // The entry is one of its nodes.
            let _nodes = table.nodes();
            inner_place(table, numbers[i].items(), state, entry)
        }
    }
}

// Where a UNH is: at entry 0, where its message has a table.
fn opening_place(entry: Option<u16>) -> TreePlace
    ensures { result ≡ opening_place_of entry }
{
    match entry {
        None => TreePlace::Untabled,
        Some(entry) => TreePlace::Placed {
            entry,
            depth: 0,
            opens: None,
        },
    }
}

// Where a segment of a message with this table is, after this state.
#[inline(always)]
fn inner_place(table: &Table, numbers: &[u16], state: &State, entry: Option<u16>) -> TreePlace
    requires within { IfSome entry (λ at. at < length table.now) }
    requires numbers { numbers.now ≡ numbers_in table.now }
    requires few { AreCountsUpTo 4194303 state.now }
    ensures { result ≡ place_with table.now (λ group. count_of state.now group + 1) entry }
{
    match entry {
        None => TreePlace::Unplaced,
        Some(entry) => TreePlace::Placed {
            entry,
            depth: depth_of(table, entry),
            opens: opened_at(table, numbers, state, entry),
        },
    }
}

// How many groups are round an entry.
fn depth_of(table: &Table, entry: u16) -> u8
    requires { entry < length table.now }
    ensures { result ≡ length (groups_round table.now entry) }
{
    // No more than sixteen.
    let _nodes = table.nodes();
    table.groups_round(usize::from(entry)).count() as u8
}

// The group that an entry opens after this state, where it is a trigger.
fn opened_at(table: &Table, numbers: &[u16], state: &State, entry: u16) -> Option<GroupMark>
    requires within { entry < length table.now }
    requires numbers { numbers.now ≡ numbers_in table.now }
    requires few { AreCountsUpTo 4194303 state.now }
    ensures { result ≡ opened_by table.now (λ group. count_of state.now group + 1) entry }
{
    if !table.is_trigger(usize::from(entry)) {
        return None;
    }
    let group = entry - 1;
    Some(GroupMark {
        number: numbers[usize::from(group)],
        count: state.count_of(group) + 1,
    })
}

/// For each table of a directory, how many groups there are up to each node, itself included: for a group, its number from 1.
/// Only want of memory is an error.
pub(crate) fn number_groups(
    alloc: Global,
    directory: &Directory,
) -> Result<Vec<List<u16>>, AllocError>
    ensures { IfOk result (λ numbers. numbers.items ≡ map numbers_in (tables_of directory.now)) }
{
    let mut numbers = Vec::new(alloc);
    for i in 0..directory.table_count() {
        numbers.push(List::of(groups_until(alloc, directory.table(i))?))?;
    }
    Ok(numbers)
}

// How many groups are among the nodes up to each node, itself included.
fn groups_until(alloc: Global, table: &Table) -> Result<Vec<u16>, AllocError>
    ensures { IfOk result (λ numbers. numbers.items ≡ numbers_in table.now) }
{
    let mut numbers = Vec::with_capacity(alloc, table.len())?;
    let mut count = 0;
    for i in 0..table.len() {
        count = count_on(count, table.is_group(i));
        numbers.push(count)?;
    }
    Ok(numbers)
}

// A count, with one more where a node is a group.
fn count_on(count: u16, is_group: bool) -> u16
    requires { count < 2000 }
    ensures { result ≡ count + (if is_group then 1 else 0) }
{
    if is_group { count + 1 } else { count }
}
