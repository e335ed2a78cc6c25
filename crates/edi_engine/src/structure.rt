//! What is wrong in the structure of messages.
ghost use Rattle.std.specs.Prelude.{[], true, ◌≡◌, ◌++◌, ◌<◌, All, OnOk, length, map};
ghost use Rattle.std.specs.Option.{option_copied};
ghost use Rattle.edi_tables.specs.Walk.{entry_for as entry_for_of};
ghost use Rattle.table_walk.specs.Errors.Fault.{Missing};
ghost use Rattle.table_walk.specs.Steps.{IsShaped, member_in, missing_in};
ghost use Rattle.segment_records.specs.Errors.{fault_line};
ghost use Rattle.segment_records.specs.Line.{end_lines, ends_before as ends_before_of, fault_lines, faults_of_step, step_lines, structure_seen};
ghost use Rattle.segment_records.specs.Look.{seen_of};
ghost use Rattle.segment_records.specs.WalkedSegments.{Follows, as_segment};

use dir_compile::Directory;
use edi_tables::Table;
use error_ledger::{ErrorLine, Kind};
use segment_records::{Mode, Record, WalkedSegment, bounds_message};
use std::alloc::{AllocError, Global};
use table_walk::State;

/// Puts what is wrong with a segment in the structure of its message, and what is missing where its message ends with it. Only
/// want of memory is an error.
#[inline(always)]
pub(crate) fn put_structure(
    alloc: Global,
    directory: &Directory,
    seen: &WalkedSegment<'_>,
    list: &mut Vec<ErrorLine>,
) -> Result<(), AllocError>
    requires { Follows directory.now (seen_of seen.now) }
    ensures { OnOk result (list.new.items
        ≡ list.old.items ++ structure_seen directory.now (seen_of seen.now)) }
{
    put_step(directory, seen, list)?;
    put_end(alloc, directory, seen, list)
}

// Puts what is wrong with a segment that is part of an open message with a table.
#[inline(always)]
fn put_step(
    directory: &Directory,
    seen: &WalkedSegment<'_>,
    list: &mut Vec<ErrorLine>,
) -> Result<(), AllocError>
    requires { Follows directory.now (seen_of seen.now) }
    ensures { OnOk result (list.new.items
        ≡ list.old.items ++ step_lines directory.now seen.now.before.now (seen_of seen.now)) }
{
    if is_well_placed(seen.record) {
        return Ok(());
    }
    match seen.before {
        Mode::Within { table, state } if !bounds_message(seen.record.tag()) => {
            put_walked(directory.table(*table as usize), state, seen, list)
        }
        _ => Ok(()),
    }
}

// Whether a segment is at an entry, with nothing missing before it, and isn't one too many there. Most are.
#[inline]
fn is_well_placed(segment: &Record) -> bool
    ensures { result ≡ true → faults_of_step segment.now.step ≡ [] }
{
    segment.entry().is_some() && segment.missing().is_empty() && !segment.is_over()
}

// Puts what is wrong with where a segment is after this state.
#[inline(never)]
fn put_walked(
    table: &Table,
    state: &State,
    seen: &WalkedSegment<'_>,
    list: &mut Vec<ErrorLine>,
) -> Result<(), AllocError>
    requires shaped { IsShaped table.now state.now }
    requires entry { seen.now.record.now.step.entry
        ≡ member_in table.now state.now seen.now.record.now.tag }
    requires missing { seen.now.record.now.step.missing
        ≡ missing_in table.now state.now seen.now.record.now.step.entry }
    ensures { OnOk result (list.new.items ≡ list.old.items
        ++ fault_lines table.now (seen_of seen.now) (faults_of_step seen.now.record.now.step)) }
{
    // Where a segment is, and what is missing, are nodes of the table.
    let _nodes = table.nodes();
    let Some(entry) = seen.record.entry() else {
        list.push(seen.error(0, 0, Kind::Unplaced))?;
        return Ok(());
    };
    put_missing(table, seen, seen.record.missing(), list)?;
    if seen.record.is_over() {
        let kind = if table.is_trigger(usize::from(entry)) {
            Kind::TooManyGroups
        } else {
            Kind::TooManySegments
        };
        list.push(seen.error(0, 0, kind))?;
    }
    Ok(())
}

// Puts what is missing where a message ends with a segment.
#[inline(always)]
fn put_end(
    alloc: Global,
    directory: &Directory,
    seen: &WalkedSegment<'_>,
    list: &mut Vec<ErrorLine>,
) -> Result<(), AllocError>
    requires { Follows directory.now (seen_of seen.now) }
    ensures { OnOk result (list.new.items
        ≡ list.old.items ++ end_lines directory.now (seen_of seen.now)) }
{
    match seen.record.mode() {
        Mode::Within { table, state } if ends_before(seen.next) => {
            let table = directory.table(*table as usize);
            let missing = state.finish(alloc, table)?;
            put_missing(table, seen, missing.as_slice(), list)
        }
        _ => Ok(()),
    }
}

// Puts that nodes are missing at a segment.
#[inline]
fn put_missing(
    table: &Table,
    seen: &WalkedSegment<'_>,
    nodes: &[u16],
    list: &mut Vec<ErrorLine>,
) -> Result<(), AllocError>
    requires { All (λ node. node < length table.now) nodes.now }
    ensures { OnOk result (list.new.items
        ≡ list.old.items ++ fault_lines table.now (seen_of seen.now) (map Missing nodes.now)) }
{
    for node in nodes {
        list.push(missing_error(table, seen, *node))?;
    }
    Ok(())
}

// That a node is missing at a segment: a segment, or a group by its trigger.
fn missing_error(table: &Table, seen: &WalkedSegment<'_>, node: u16) -> ErrorLine
    requires { node < length table.now }
    ensures { result
        ≡ fault_line table.now seen.now.number (as_segment (seen_of seen.now)) (Missing node) }
{
    let kind = if table.is_group(usize::from(node)) {
        Kind::MissingGroup
    } else {
        Kind::MissingSegment
    };
    ErrorLine {
        node,
        missing: table.node(usize::from(entry_for(table, node))).tag,
        ..seen.error(0, 0, kind)
    }
}

// The entry of a node, which for a group is its trigger.
fn entry_for(table: &Table, node: u16) -> u16
    requires { node < length table.now }
    ensures entry { result ≡ entry_for_of table.now node }
    ensures within { result < length table.now }
{
    // Each group of a table has its trigger.
    let _nodes = table.nodes();
    if table.is_group(usize::from(node)) {
        node + 1
    } else {
        node
    }
}

/// Whether no segment follows, or one that ends an open message.
pub(crate) fn ends_before(next: Option<&Record>) -> bool
    ensures { result ≡ ends_before_of (option_copied next.entry) }
{
    match next {
        Some(record) => bounds_message(record.tag()),
        None => true,
    }
}
