//! The lines of segments and messages.
ghost use Rattle.std.specs.Prelude.{◌≡◌, ◌++◌, OnOk};
ghost use Rattle.dir_store.specs.declared.version.StoreVersion.TheVariants.{Second};
ghost use Rattle.dir_store.specs.Spelling.{line_of, segment_text, item_words, item_text, row_text, row_name, message_text};
ghost use Rattle.dir_store.specs.Store.{segment_at, item_at, row_at, message_at};

use crate::earlier::EarlierDefinitions;
use crate::entry::{Entry, put_listed, read_several};
use crate::line::read_line;
use crate::line_stop::Stop;
use crate::segment_line::{item_on, message_on, row_on, segment_on};
use crate::usual_row::usual_row;
use edi_octets::{put_decimal, put_status};
use edi_tables::{
    Chunk, Code, ItemDef, List as Members, MessageDef, SegmentDef, Table, TableRow, Tag,
};
use std::alloc::{AllocError, Global};

impl Entry for SegmentDef {
    ghost text = { segment_text Second };

    ghost read_at = { λ known. segment_at known.version known.elements.now known.composites.now };

    #[tactic(auto, unfolding(crate::specs::Store::segment_at))]
    fn read<'o>(
        alloc: Global,
        known: &EarlierDefinitions<'_>,
        before: Option<&SegmentDef>,
        octets: &'o [u8],
    ) -> Result<(SegmentDef, &'o [u8]), Stop> {
        let (line, rest) = read_line(octets)?;
        let (tag, count) = segment_on(line, before).ok_or(Stop::at(octets))?;
        let (items, rest) = read_several(alloc, known, count, rest)?;
        let items = Members::of(items);
        Ok((SegmentDef { tag, items }, rest))
    }

    fn put(&self, out: &mut Chunk) -> Result<(), AllocError> {
        put_listed(out, &self.tag.octets, self.items.items())
    }
}

impl Entry for ItemDef {
    ghost text = { item_text Second };

    ghost read_at = { λ known. item_at known.version known.elements.now known.composites.now };

    #[tactic(auto, unfolding(crate::specs::Store::item_at))]
    fn read<'o>(
        _: Global,
        known: &EarlierDefinitions<'_>,
        _: Option<&ItemDef>,
        octets: &'o [u8],
    ) -> Result<(ItemDef, &'o [u8]), Stop> {
        let (line, rest) = read_line(octets)?;
        let item = item_on(line, known).ok_or(Stop::at(octets))?;
        Ok((item, rest))
    }

    fn put(&self, out: &mut Chunk) -> Result<(), AllocError> {
        match self {
            ItemDef::Alone { part, reps } => put_item(out, part.code, part.must, *reps),
            ItemDef::Composite { code, must, reps } => put_item(out, *code, *must, *reps),
        }
    }
}

// Puts the line of an item: its code, its status and its greatest number of repetitions.
fn put_item(out: &mut Chunk, code: Code, must: bool, reps: u8) -> Result<(), AllocError>
    ensures { OnOk result (out.new ≡ out.old ++ line_of (item_words Second code.octets must reps)) }
{
    out.add(&code.octets)?;
    out.add(b" ")?;
    put_status(out, must)?;
    out.add(b" ")?;
    put_decimal(out, u64::from(reps))?;
    out.add(b"\n")
}

impl Entry for MessageDef {
    ghost text = { message_text };

    ghost read_at = { λ known. message_at known.segments.now };

    #[tactic(auto, unfolding(crate::specs::Store::message_at))]
    fn read<'o>(
        alloc: Global,
        known: &EarlierDefinitions<'_>,
        before: Option<&MessageDef>,
        octets: &'o [u8],
    ) -> Result<(MessageDef, &'o [u8]), Stop> {
        let (line, rest) = read_line(octets)?;
        let (name, count) = message_on(line, before).ok_or(Stop::at(octets))?;
        let (rows, rest) = read_several(alloc, known, count, rest)?;
        if Table::first_fault(&rows).is_some() {
            return Err(Stop::at(octets));
        }
        let name = Chunk::of(alloc, name)?;
        let rows = Members::of(rows);
        Ok((MessageDef { name, rows }, rest))
    }

    fn put(&self, out: &mut Chunk) -> Result<(), AllocError> {
        put_listed(out, self.name.octets(), self.rows.items())
    }
}

impl Entry for TableRow {
    ghost text = { row_text };

    ghost read_at = { λ known. row_at known.segments.now };

    #[tactic(auto, unfolding(crate::specs::Store::row_at))]
    fn read<'o>(
        _: Global,
        known: &EarlierDefinitions<'_>,
        _: Option<&TableRow>,
        octets: &'o [u8],
    ) -> Result<(TableRow, &'o [u8]), Stop> {
        if let Some((row, rest)) = usual_row(known, octets) {
            return Ok((row, rest));
        }
        let (line, rest) = read_line(octets)?;
        let row = row_on(line, known).ok_or(Stop::at(octets))?;
        Ok((row, rest))
    }

    fn put(&self, out: &mut Chunk) -> Result<(), AllocError> {
        put_decimal(out, u64::from(self.depth))?;
        out.add(b" ")?;
        put_row_name(out, self.tag)?;
        out.add(b" ")?;
        put_status(out, self.must)?;
        out.add(b" ")?;
        put_decimal(out, u64::from(self.max))?;
        out.add(b"\n")
    }
}

fn put_row_name(out: &mut Chunk, tag: Option<Tag>) -> Result<(), AllocError>
    ensures { OnOk result (out.new ≡ out.old ++ row_name tag) }
{
    match tag {
        Some(tag) => out.add(&tag.octets),
        None => out.add(b"-"),
    }
}
