//! The printed forms of a text.
ghost use Rattle.std.specs.Prelude.{◌≡◌, ◌+◌, ◌++◌, ◌<◌, ◌≤◌, codes, length, IfOk, OnOk};
ghost use Rattle.edi_octets.specs.Decimal.{count_line};
ghost use Rattle.seg_lexer.specs.Context.{context_of};
ghost use Rattle.seg_lexer.specs.Segments.{segments_of, tail_of};
ghost use Rattle.seg_lexer.specs.Service.{IsUsable};
ghost use Rattle.listing_printer.specs.Printing.{printed_text, segments_from, segment_lines, tail_line};
ghost use Rattle.edi_octets.specs.declared.octets.TheConstants.{LONGEST_TEXT};

use crate::segment_line::{Numerals, put_line};
use crate::value_lines::put_values;
use edi_octets::{Flat, put_count, put_decimal};
use edi_tables::Chunk;
use seg_lexer::{Lexed, Service, fields, next_segment, read_context, read_tag};
use std::alloc::{AllocError, Global};
use std::marker::Brand;
use std::sync::ledger::{Blank, Ledger};
use step_counter::Steps;

/// How much is printed of a text.
#[derive(Clone, Copy, Debug, PartialEq, Eq)]
pub enum Detail {
    /// Its segments.
    Segments,
    /// Its segments with their values.
    Values,
}

/// The printed form of a text, in two parts: the head says how many lines of segments follow.
#[derive(Debug, Drop)]
pub struct PrintedText {
    pub head: Chunk,
    pub lines: Chunk,
}

/// The printed form of a text of at most 4,194,304 octets. Only want of memory is an error.
pub fn print_text(alloc: Global, detail: Detail, text: &[u8]) -> Result<PrintedText, AllocError>
    requires { length text.now ≤ LONGEST_TEXT }
    ensures { IfOk result (λ p. p.head ++ p.lines ≡ printed_text detail text.now) }
{
    let text = Flat { octets: text };
    let (count, lines) = list_segments::<Brand>(alloc, detail, &text, Blank::new(1))?;
    let head = print_count(alloc, count)?;
    Ok(PrintedText { head, lines })
}

// The line of a count of segments.
fn print_count(alloc: Global, count: u32) -> Result<Chunk, AllocError>
    ensures { IfOk result (λ c. c ≡ count_line (codes "segments") count) }
{
    let mut head = Chunk::empty(alloc);
    put_count(&mut head, b"segments", count as usize)?;
    Ok(head)
}

// How many segments a text has, and the lines of these and of its tail, in one pass over it.
fn list_segments<L: Ledger>(
    alloc: Global,
    detail: Detail,
    text: &Flat,
    blank: Blank,
) -> Result<(u32, Chunk), AllocError>
    requires short { length text.now.octets.now ≤ LONGEST_TEXT }
    requires name { blank.name ≡ L.name }
    requires parts { blank.parts ≡ L.parts }
    requires some { 0 < blank.parts }
    ensures count { let octets = text.now.octets.now in
        IfOk result (λ l. l.0 ≡ length (segments_of (context_of octets).service octets)) }
    ensures lines { let octets = text.now.octets.now in let service = (context_of octets).service in
        IfOk result (λ l. l.1 ≡ segments_from detail service octets 1 (segments_of service octets)
        ++ tail_line octets (tail_of service octets)) }
{
    let mut lexed = Steps::<L>::start(blank);
    let service = read_context(text, &mut lexed).service;
    let mut lines = Chunk::empty(alloc);
    let mut numerals = Numerals::new();
    let mut count: u32 = 0;
    let mut from = service.body;
    loop {
        match next_segment(text, &service, from, &mut lexed) {
            Lexed::Ended { start, end } => {
                count += 1;
                put_segment(
                    &mut lines,
                    &mut numerals,
                    detail,
                    text,
                    &service,
                    count,
                    start,
                    end,
                )?;
                from = end + 1;
            }
            Lexed::Tail { start } => {
                put_tail(&mut lines, text, start)?;
                return Ok((count, lines));
            }
            Lexed::Nothing => return Ok((count, lines)),
        }
    }
}

// The line of a tail.
fn put_tail(lines: &mut Chunk, text: &Flat, start: usize) -> Result<(), AllocError>
    requires { start ≤ length text.now.octets.now }
    ensures { OnOk result (lines.new ≡ lines.old ++ tail_line text.now.octets.now (Some start)) }
{
    lines.add(b"tail ")?;
    put_decimal(lines, start as u64)?;
    lines.add(b" ")?;
    put_decimal(lines, (text.octets.len() - start) as u64)?;
    lines.add(b"\n")
}

// What is printed of a segment.
#[tactic(auto, unfolding(crate::specs::Printing::segment_lines))]
fn put_segment(
    lines: &mut Chunk,
    numerals: &mut Numerals,
    detail: Detail,
    text: &Flat,
    service: &Service,
    number: u32,
    start: usize,
    end: usize,
) -> Result<(), AllocError>
    requires usable { IsUsable service.now text.now.octets.now }
    requires ordered { start ≤ end }
    requires within { end ≤ length text.now.octets.now }
    requires short { length text.now.octets.now ≤ LONGEST_TEXT }
    ensures { let segment = segment_lines detail service.now text.now.octets.now number in
        OnOk result (lines.new ≡ lines.old ++ segment (record { from = start; to = end })) }
{
    let tag = read_tag(text, service, start, end);
    put_line(lines, numerals, number, start, end, tag)?;
    match detail {
        Detail::Segments => Ok(()),
        Detail::Values => put_values(lines, fields(text, service, start, end)),
    }
}
