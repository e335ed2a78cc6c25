//! The drill: an interchange that is made from numbers and edited, to measure with.
ghost use Rattle.std.specs.Prelude.{◌≡◌, ◌++◌, ◌<◌, ◌≤◌, IfOk, OnOk, length};
ghost use Rattle.drill_maker.specs.Edit.{cut_of};
ghost use Rattle.drill_printer.specs.Drill.{counts_line, drill_text, edited_text, edits_line, error_count, error_sum, numbers_line, spaced, text_drilled, text_edited};
ghost use Rattle.drill_maker.specs.Numbers.{IsDrill};
ghost use Rattle.drill_maker.specs.Reduced.{drill_directory};

use dir_compile::Directory;
use drill_maker::{make_edit, make_interchange, reduced_directory};
use edi_engine::Engine;
use edi_octets::put_decimal;
use edi_tables::Chunk;
use itoa::Buffer;
use std::alloc::{AllocError, Global};
use std::marker::Brand;
use std::sync::ledger::{Blank, Ledger};
use step_counter::Steps;

/// What is printed of a drill of so many messages and edits, which are made from a number. Only want of memory is an error.
pub fn print_drill(
    alloc: Global,
    messages: u32,
    edits: u32,
    number: u64,
) -> Result<Chunk, AllocError>
    requires { IsDrill messages edits number }
    ensures { IfOk result (λ c. c ≡ drill_text messages edits number) }
{
    let text = make_interchange(alloc, messages, number)?;
    let mut out = Chunk::empty(alloc);
    put_numbers(
        &mut out,
        b"drill",
        u64::from(messages),
        u64::from(edits),
        number,
    )?;
    put_drilled(alloc, &mut out, text.octets(), edits, number)?;
    Ok(out)
}

// A line of a word and three numbers.
fn put_numbers(out: &mut Chunk, word: &[u8], a: u64, b: u64, c: u64) -> Result<(), AllocError>
    ensures { OnOk result (out.new ≡ out.old ++ numbers_line word.now a b c) }
{
    out.add(word)?;
    put_spaced(out, a)?;
    put_spaced(out, b)?;
    put_spaced(out, c)?;
    out.add(b"\n")
}

// A number after a space.
fn put_spaced(out: &mut Chunk, n: u64) -> Result<(), AllocError>
    ensures { OnOk result (out.new ≡ out.old ++ spaced n) }
{
    out.add(b" ")?;
    put_decimal(out, n)
}

// The line of the edits.
#[tactic(auto, unfolding(crate::specs::Drill::edits_line))]
fn put_total(out: &mut Chunk, edits: u32, total: u128) -> Result<(), AllocError>
    ensures { OnOk result (out.new ≡ out.old ++ edits_line edits total) }
{
    out.add(b"edits")?;
    put_spaced(out, u64::from(edits))?;
    out.add(b" ")?;
    out.add(Buffer::new().format(total).as_bytes())?;
    out.add(b"\n")
}

// What is printed of a text that so many edits are applied to.
fn put_drilled(
    alloc: Global,
    out: &mut Chunk,
    octets: &[u8],
    edits: u32,
    number: u64,
) -> Result<(), AllocError>
    requires few { edits ≤ 1000 }
    requires small { number ≤ 999999999 }
    requires short { length octets.now < 200000 }
    ensures { OnOk result (out.new ≡ out.old ++ edited_text number edits octets.now) }
{
    let directory = reduced_directory(alloc)?;
    put_edited::<Brand, Brand>(
        alloc,
        out,
        &directory,
        octets,
        edits,
        number,
        Blank::new(1),
        Blank::new(1),
    )
}

fn put_edited<L: Ledger, M: Ledger>(
    alloc: Global,
    out: &mut Chunk,
    directory: &Directory,
    octets: &[u8],
    edits: u32,
    number: u64,
    lexing: Blank,
    placing: Blank,
) -> Result<(), AllocError>
    requires few { edits ≤ 1000 }
    requires small { number ≤ 999999999 }
    requires short { length octets.now < 200000 }
    requires directory { directory.now ≡ drill_directory }
    requires lexing_name { lexing.name ≡ L.name }
    requires lexing_parts { lexing.parts ≡ L.parts }
    requires lexing_some { 0 < lexing.parts }
    requires placing_name { placing.name ≡ M.name }
    requires placing_parts { placing.parts ≡ M.parts }
    requires placing_some { 0 < placing.parts }
    ensures { OnOk result (out.new ≡ out.old ++ edited_text number edits octets.now) }
{
    let mut lexed = Steps::<L>::start(lexing);
    let mut placed = Steps::<M>::start(placing);
    let mut engine = Engine::open(alloc, directory, octets, &mut lexed, &mut placed)?;
    put_counts(alloc, out, b"open", &engine)?;
    let total = apply_edits(alloc, &mut engine, &mut lexed, &mut placed, edits, number)?;
    put_total(out, edits, total)?;
    put_counts(alloc, out, b"close", &engine)
}

// A word, and the numbers of octets, segments and errors of a text.
fn put_counts(
    alloc: Global,
    out: &mut Chunk,
    word: &[u8],
    engine: &Engine<'_>,
) -> Result<(), AllocError>
    requires { engine.now.directory ≡ drill_directory }
    ensures { OnOk result (out.new ≡ out.old ++ counts_line word.now engine.now.text) }
{
    let errors = count_errors(alloc, engine)?;
    let segments = u64::from(engine.segment_count());
    put_numbers(out, word, engine.text_len(), segments, errors)
}

// How many errors a text has.
fn count_errors(alloc: Global, engine: &Engine<'_>) -> Result<u64, AllocError>
    requires { engine.now.directory ≡ drill_directory }
    ensures { IfOk result (λ n. n ≡ error_count engine.now.text) }
{
    Ok(engine.errors(alloc)?.len() as u64)
}

// Applies so many edits, one after the other, and gives the sum of the numbers of errors after each of them.
fn apply_edits<L: Ledger, M: Ledger>(
    alloc: Global,
    engine: &mut Engine<'_>,
    lexed: &mut Steps<L>,
    placed: &mut Steps<M>,
    edits: u32,
    number: u64,
) -> Result<u128, AllocError>
    requires few { edits ≤ 1000 }
    requires small { number ≤ 999999999 }
    requires short { length engine.old.text < 200000 }
    requires directory { engine.old.directory ≡ drill_directory }
    ensures total { IfOk result (λ total. total ≡ error_sum number edits engine.old.text) }
    ensures text { OnOk result (engine.new.text ≡ text_drilled number edits engine.old.text) }
    ensures directory { OnOk result (engine.new.directory ≡ drill_directory) }
{
    let mut total: u128 = 0;
    for j in 0..edits {
        apply_edit(alloc, engine, lexed, placed, j, number)?;
        total += u128::from(count_errors(alloc, engine)?);
    }
    Ok(total)
}

// Applies one edit, made for the length of the text.
fn apply_edit<L: Ledger, M: Ledger>(
    alloc: Global,
    engine: &mut Engine<'_>,
    lexed: &mut Steps<L>,
    placed: &mut Steps<M>,
    j: u32,
    number: u64,
) -> Result<(), AllocError>
    requires small { number ≤ 999999999 }
    requires room { cut_of j ≤ length engine.old.text }
    ensures text { OnOk result (engine.new.text ≡ text_edited number j engine.old.text) }
    ensures directory { OnOk result (engine.new.directory ≡ engine.old.directory) }
{
    let edit = make_edit(j, number, engine.text_len());
    match engine.replace(alloc, edit.at, edit.cut, edit.put, lexed, placed) {
        Ok(_) => Ok(()),
        Err(_) => Err(AllocError),
    }
}
