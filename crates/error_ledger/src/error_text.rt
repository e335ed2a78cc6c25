//! The printed error list.
ghost use Rattle.std.specs.Prelude.{[], ◌≡◌, ◌∷◌, ◌++◌, IfOk, OnOk};
ghost use Rattle.error_ledger.specs.Printing.{
  error_line,
  errors_text,
  fault_shown,
  missing_shown,
  place_shown,
};

use crate::error::ErrorLine;
use crate::kind::{Kind, code_of};
use crate::put::{put_number, put_tag, room_for_lines};
use edi_octets::{put_count, put_decimal};
use edi_tables::{Chunk, Tag};
use std::alloc::{AllocError, Global};

/// Room for a line of errors: most lines have 20 to 40 octets.
const ERROR_LINE_ROOM: usize = 32;

/// The printed form of errors: how many there are, and a line for each.
#[tactic(auto, unfolding(crate::specs::Printing::errors_text))]
pub fn print_errors(alloc: Global, list: &[ErrorLine]) -> Result<Chunk, AllocError>
    ensures { IfOk result (λ c. c ≡ errors_text list.now) }
{
    let mut out = room_for_lines(alloc, list.len(), ERROR_LINE_ROOM)?;
    put_count(&mut out, b"errors", list.len())?;
    for error in list {
        put_error(&mut out, error)?;
    }
    Ok(out)
}

// The line of an error.
#[tactic(auto, unfolding(crate::specs::Printing::error_line))]
fn put_error(out: &mut Chunk, error: &ErrorLine) -> Result<(), AllocError>
    ensures { OnOk result (out.new ≡ out.old ++ error_line error.now) }
{
    put_place(out, error)?;
    out.add(b" ")?;
    put_fault(out, error.kind, error.missing)
}

// Where an error is.
#[tactic(auto, unfolding(crate::specs::Printing::place_shown))]
fn put_place(out: &mut Chunk, error: &ErrorLine) -> Result<(), AllocError>
    ensures { OnOk result (out.new ≡ out.old ++ place_shown error.now) }
{
    put_number(out, error.segment)?;
    put_decimal(out, u64::from(error.start))?;
    put_tag(out, error.tag, b' ')?;
    put_number(out, error.element)?;
    put_decimal(out, u64::from(error.component))
}

// What is wrong there, to the end of the line.
#[tactic(auto, unfolding(crate::specs::Printing::fault_shown))]
fn put_fault(out: &mut Chunk, kind: Kind, missing: Option<Tag>) -> Result<(), AllocError>
    ensures { OnOk result (out.new ≡ out.old ++ (fault_shown kind missing ++ 10 ∷ [])) }
{
    put_number(out, u32::from(code_of(kind)))?;
    out.add(kind.word())?;
    put_missing(out, kind, missing)
}

// What is missing, where the kind says that something is, and the end of the line.
fn put_missing(out: &mut Chunk, kind: Kind, missing: Option<Tag>) -> Result<(), AllocError>
    ensures { OnOk result (out.new ≡ out.old ++ (missing_shown kind missing ++ 10 ∷ [])) }
{
    match kind {
        Kind::MissingSegment | Kind::MissingGroup => put_tag(out, missing, b'\n'),
        _ => out.add(b"\n"),
    }
}
