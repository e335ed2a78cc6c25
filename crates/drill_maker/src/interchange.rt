//! The interchange of a drill.
ghost use Rattle.std.specs.Prelude.{◌≡◌, ◌++◌, ◌<◌, ◌≤◌, IfOk, OnOk, length};
ghost use Rattle.drill_maker.specs.Interchange.{closing_text, end_text, head_text, interchange_text, line_text, lines_text, drill_message, messages_text, opening_text};

use edi_octets::put_decimal;
use edi_tables::Chunk;
use std::alloc::{AllocError, Global};

/// The interchange of `n` orders for the number `x`, fewer than 200,000 octets. Only want of memory is an error.
pub fn make_interchange(alloc: Global, n: u32, x: u64) -> Result<Chunk, AllocError>
    requires some { 1 ≤ n }
    requires few { n ≤ 1000 }
    requires small { x ≤ 999999999 }
    ensures text { IfOk result (λ text. text ≡ interchange_text n x) }
    ensures short { IfOk result (λ text. length text < 200000) }
{
    let count = u64::from(n);
    let mut out = Chunk::empty(alloc);
    put_opening(&mut out)?;
    put_messages(&mut out, count, x)?;
    put_closing(&mut out, count)?;
    Ok(out)
}

// UNB.
#[tactic(auto, unfolding(crate::specs::Interchange::opening_text))]
fn put_opening(out: &mut Chunk) -> Result<(), AllocError>
    ensures { OnOk result (out.new ≡ out.old ++ opening_text) }
{
    out.add(b"UNB+UNOA:3+BUYER:14+SELLER:14+960105:0930+R1'")
}

// The messages.
fn put_messages(out: &mut Chunk, n: u64, x: u64) -> Result<(), AllocError>
    requires few { n ≤ 1000 }
    requires small { x ≤ 999999999 }
    ensures { OnOk result (out.new ≡ out.old ++ messages_text n x) }
{
    for i in 0..n {
        put_message(out, x, i)?;
    }
    Ok(())
}

// UNZ.
#[tactic(auto, unfolding(crate::specs::Interchange::closing_text))]
fn put_closing(out: &mut Chunk, n: u64) -> Result<(), AllocError>
    ensures { OnOk result (out.new ≡ out.old ++ closing_text n) }
{
    out.add(b"UNZ+")?;
    put_decimal(out, n)?;
    out.add(b"+R1'")
}

// Message `i`, from 0.
#[tactic(auto, unfolding(crate::specs::Interchange::drill_message))]
fn put_message(out: &mut Chunk, x: u64, i: u64) -> Result<(), AllocError>
    requires few { i < 1000 }
    requires small { x ≤ 999999999 }
    ensures { OnOk result (out.new ≡ out.old ++ drill_message x i) }
{
    let reference = i + 1;
    let lines = 1 + (i + x) % 3;
    put_head(out, reference)?;
    put_lines(out, i, lines)?;
    put_end(out, lines, reference)
}

// UNH, BGM and DTM.
fn put_head(out: &mut Chunk, reference: u64) -> Result<(), AllocError>
    ensures { OnOk result (out.new ≡ out.old ++ head_text reference) }
{
    out.add(b"UNH+")?;
    put_decimal(out, reference)?;
    out.add(b"+TSTORD:D:96A:UN'BGM+220+PO")?;
    put_decimal(out, reference)?;
    out.add(b"+9'DTM+137:19960105:102'")
}

// The lines of message `i`, numbered from 1.
fn put_lines(out: &mut Chunk, i: u64, lines: u64) -> Result<(), AllocError>
    requires few { i < 1000 }
    requires three { lines ≤ 3 }
    ensures { OnOk result (out.new ≡ out.old ++ lines_text i lines) }
{
    for j in 0..lines {
        put_line(out, j + 1, i + j + 1)?;
    }
    Ok(())
}

// LIN and QTY.
#[tactic(auto, unfolding(crate::specs::Interchange::line_text))]
fn put_line(out: &mut Chunk, number: u64, quantity: u64) -> Result<(), AllocError>
    ensures { OnOk result (out.new ≡ out.old ++ line_text number quantity) }
{
    out.add(b"LIN+")?;
    put_decimal(out, number)?;
    out.add(b"'QTY+21:")?;
    put_decimal(out, quantity)?;
    out.add(b"'")
}

// UNS and UNT.
#[tactic(auto, unfolding(crate::specs::Interchange::end_text))]
fn put_end(out: &mut Chunk, lines: u64, reference: u64) -> Result<(), AllocError>
    requires { lines ≤ 3 }
    ensures { OnOk result (out.new ≡ out.old ++ end_text lines reference) }
{
    out.add(b"UNS+S'UNT+")?;
    put_decimal(out, 5 + 2 * lines)?;
    out.add(b"+")?;
    put_decimal(out, reference)?;
    out.add(b"'")
}
