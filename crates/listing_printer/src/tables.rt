//! The printed forms of a directory's segment tables.
ghost use Rattle.std.specs.Prelude.{◌≡◌, ◌++◌, map, IfOk, OnOk};
ghost use Rattle.std.specs.List.{flat_map};
ghost use Rattle.collision_check.specs.Listed.{collision_seen};
ghost use Rattle.listing_printer.specs.Tables.{collision_line, entries_shown, gap, labels_line, node_line, node_lines_from, node_shown, table_text, tables_text, tags_shown};

use collision_check::Collision;
use dir_compile::{Directory, Parts};
use edi_octets::{put_count, put_decimal, put_status};
use edi_tables::{Chunk, MessageDef, TableRow, Tag};
use std::alloc::{AllocError, Global};

/// The printed form of a directory's tables: its labels, and each table except that of CONTRL with its collisions.
pub fn print_tables(alloc: Global, directory: &Directory) -> Result<Chunk, AllocError>
    ensures { IfOk result (λ c. c ≡ tables_text directory.now) }
{
    let parts = directory.parts();
    let mut out = Chunk::empty(alloc);
    put_labels(&mut out, parts)?;
    for (i, message) in parts.messages.items().iter().enumerate() {
        put_table(&mut out, message, directory.collisions(i + 1))?;
    }
    Ok(out)
}

// The labels of a directory.
#[tactic(auto, unfolding(crate::specs::Tables::labels_line))]
fn put_labels(out: &mut Chunk, parts: &Parts) -> Result<(), AllocError>
    ensures { OnOk result (out.new ≡ out.old ++ labels_line parts.now) }
{
    out.add(b"directory ")?;
    out.add(parts.version.octets())?;
    out.add(b" ")?;
    out.add(parts.release.octets())?;
    out.add(b" ")?;
    out.add(parts.agency.octets())?;
    out.add(b"\n")
}

// The table of a message, and its collisions.
#[tactic(auto, unfolding(crate::specs::Tables::table_text))]
fn put_table(
    out: &mut Chunk,
    message: &MessageDef,
    collisions: &[Collision],
) -> Result<(), AllocError>
    ensures { OnOk result
        (out.new ≡ out.old ++ table_text message.now (map collision_seen collisions.now)) }
{
    let rows = message.rows.items();
    out.add(b"table ")?;
    put_count(out, message.name.octets(), rows.len())?;
    put_nodes(out, rows)?;
    put_count(out, b"collisions", collisions.len())?;
    put_collisions(out, collisions)
}

// The lines of nodes, numbered from 0.
fn put_nodes(out: &mut Chunk, rows: &[TableRow]) -> Result<(), AllocError>
    ensures { OnOk result (out.new ≡ out.old ++ node_lines_from 0 rows.now) }
{
    for (i, row) in rows.iter().enumerate() {
        put_node(out, i, row)?;
    }
    Ok(())
}

// The line of a node: its number, its depth, its tag or `group`, its status and its greatest count.
#[tactic(auto, unfolding(crate::specs::Tables::node_line))]
fn put_node(out: &mut Chunk, number: usize, row: &TableRow) -> Result<(), AllocError>
    ensures { OnOk result (out.new ≡ out.old ++ node_line number row.now) }
{
    put_decimal(out, number as u64)?;
    out.add(b" ")?;
    put_decimal(out, u64::from(row.depth))?;
    out.add(b" ")?;
    put_node_name(out, row.tag)?;
    out.add(b" ")?;
    put_status(out, row.must)?;
    out.add(b" ")?;
    put_decimal(out, u64::from(row.max))?;
    out.add(b"\n")
}

fn put_node_name(out: &mut Chunk, tag: Option<Tag>) -> Result<(), AllocError>
    ensures { OnOk result (out.new ≡ out.old ++ node_shown tag) }
{
    match tag {
        Some(tag) => out.add(&tag.octets),
        None => out.add(b"group"),
    }
}

// The lines of collisions.
fn put_collisions(out: &mut Chunk, collisions: &[Collision]) -> Result<(), AllocError>
    ensures { OnOk result
        (out.new ≡ out.old ++ flat_map collision_line (map collision_seen collisions.now)) }
{
    for collision in collisions {
        put_collision(out, collision)?;
    }
    Ok(())
}

// The line of a collision: its tags, and the two lists of entries that they may be placed at.
#[tactic(auto, unfolding(crate::specs::Tables::collision_line))]
fn put_collision(out: &mut Chunk, collision: &Collision) -> Result<(), AllocError>
    ensures { OnOk result (out.new ≡ out.old ++ collision_line (collision_seen collision.now)) }
{
    put_tags(out, collision.front.items())?;
    out.add(b" | ")?;
    put_entries(out, collision.first.items())?;
    out.add(b" | ")?;
    put_entries(out, collision.second.items())?;
    out.add(b"\n")
}

// Tags, separated by single spaces.
fn put_tags(out: &mut Chunk, tags: &[Tag]) -> Result<(), AllocError>
    ensures { OnOk result (out.new ≡ out.old ++ tags_shown tags.now) }
{
    for (i, tag) in tags.iter().enumerate() {
        put_gap(out, i)?;
        out.add(&tag.octets)?;
    }
    Ok(())
}

// Numbers of entries, separated by single spaces.
fn put_entries(out: &mut Chunk, entries: &[u16]) -> Result<(), AllocError>
    ensures { OnOk result (out.new ≡ out.old ++ entries_shown entries.now) }
{
    for (i, entry) in entries.iter().enumerate() {
        put_gap(out, i)?;
        put_decimal(out, u64::from(*entry))?;
    }
    Ok(())
}

// A space before each except the first.
fn put_gap(out: &mut Chunk, i: usize) -> Result<(), AllocError>
    ensures { OnOk result (out.new ≡ out.old ++ gap i) }
{
    if i > 0 { out.add(b" ") } else { Ok(()) }
}
