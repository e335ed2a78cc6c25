//! The reduced directory.
ghost use Rattle.std.specs.Prelude.{[], ◌≡◌, ◌<◌, IfOk, length, map};
ghost use Rattle.dir_compile.specs.Compile.{compile_faults};
ghost use Rattle.dir_compile.specs.Forms.{HasForms};
ghost use Rattle.drill_maker.specs.Reduced.{drill_directory, order_messages, reduced};
ghost use Rattle.drill_maker.specs.Rows.{composite_given, list_given, segment_given};

use crate::tables::{
    COMPOSITES, CompositeRow, ELEMENTS, LISTS, ListRow, ORDER_ROWS, SEGMENTS, SegmentRow,
};
use dir_compile::{Directory, Parts, compile};
use edi_tables::{Chunk, CodeList, CompositeDef, List, MessageDef, SegmentDef};
use std::alloc::{AllocError, Global};

/// The reduced directory. Only want of memory is an error.
pub fn reduced_directory(alloc: Global) -> Result<Directory, AllocError>
    ensures { IfOk result (λ directory. directory ≡ drill_directory) }
{
    match compile(alloc, reduced_parts(alloc)?) {
        Ok(directory) => Ok(directory),
        Err(_) => Err(AllocError),
    }
}

/// The parts of the reduced directory, which give a directory. Only want of memory is an error.
#[tactic(auto, unfolding(crate::specs::Reduced::reduced))]
pub fn reduced_parts(alloc: Global) -> Result<Parts, AllocError>
    ensures parts { IfOk result (λ parts. parts ≡ reduced) }
    ensures few { IfOk result (λ parts. length parts.messages < 4000000000) }
    ensures forms { IfOk result HasForms }
    ensures faultless { IfOk result (λ parts. compile_faults parts ≡ []) }
{
    Ok(Parts {
        version: Chunk::of(alloc, b"D")?,
        release: Chunk::of(alloc, b"96A")?,
        agency: Chunk::of(alloc, b"UN")?,
        elements: List::of(ELEMENTS.to_vec(alloc)?),
        lists: lists_of(alloc, LISTS)?,
        composites: composites_of(alloc, COMPOSITES)?,
        segments: segments_of(alloc, SEGMENTS)?,
        messages: order_message(alloc)?,
    })
}

// The code lists of these rows.
fn lists_of(alloc: Global, rows: &[ListRow]) -> Result<List<CodeList>, AllocError>
    ensures { IfOk result (λ lists. lists ≡ map list_given rows.now) }
{
    let mut lists = Vec::with_capacity(alloc, rows.len())?;
    for row in rows {
        lists.push(CodeList {
            element: row.element,
            values: values_of(alloc, row.values)?,
        })?;
    }
    Ok(List::of(lists))
}

// Copies of these values.
fn values_of(alloc: Global, values: &[&[u8]]) -> Result<List<Chunk>, AllocError>
    ensures { IfOk result (λ copies. copies ≡ map (λ value. value.now) values.now) }
{
    let mut copies = Vec::with_capacity(alloc, values.len())?;
    for value in values {
        copies.push(Chunk::of(alloc, value)?)?;
    }
    Ok(List::of(copies))
}

// The composites of these rows.
fn composites_of(alloc: Global, rows: &[CompositeRow]) -> Result<List<CompositeDef>, AllocError>
    ensures { IfOk result (λ composites. composites ≡ map composite_given rows.now) }
{
    let mut composites = Vec::with_capacity(alloc, rows.len())?;
    for row in rows {
        composites.push(CompositeDef {
            code: row.code,
            parts: List::of(row.parts.to_vec(alloc)?),
        })?;
    }
    Ok(List::of(composites))
}

// The segments of these rows.
fn segments_of(alloc: Global, rows: &[SegmentRow]) -> Result<List<SegmentDef>, AllocError>
    ensures { IfOk result (λ segments. segments ≡ map segment_given rows.now) }
{
    let mut segments = Vec::with_capacity(alloc, rows.len())?;
    for row in rows {
        segments.push(SegmentDef {
            tag: row.tag,
            items: List::of(row.items.to_vec(alloc)?),
        })?;
    }
    Ok(List::of(segments))
}

// The message TSTORD.
fn order_message(alloc: Global) -> Result<List<MessageDef>, AllocError>
    ensures { IfOk result (λ messages. messages ≡ order_messages) }
{
    let mut messages = Vec::with_capacity(alloc, 1)?;
    messages.push(MessageDef {
        name: Chunk::of(alloc, b"TSTORD")?,
        rows: List::of(ORDER_ROWS.to_vec(alloc)?),
    })?;
    Ok(List::of(messages))
}
