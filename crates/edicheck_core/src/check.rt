//! `check`: the errors of a text, and its tree.
ghost use Rattle.std.specs.Prelude.{◌≡◌, ◌⊎◌, ◌++◌, ◌≤◌, ℕ, List, length, IfOk};
ghost use Rattle.run_outcome.specs.Outcome.{memory_refused};
ghost use Rattle.edicheck_core.specs.About.{checked_text, found_if};
ghost use Rattle.edi_octets.specs.declared.octets.TheConstants.{LONGEST_TEXT};

use dir_compile::Directory;
use edi_engine::check_text;
use edi_tables::Chunk;
use error_ledger::{ErrorLine, print_errors, put_tree_head};
use run_outcome::{Made, Status};
use std::alloc::{AllocError, Global};

/// The errors and the tree of a text, by a directory.
pub(crate) fn tell_check(alloc: Global, directory: &Directory, octets: &[u8]) -> Made
    requires { length octets.now ≤ LONGEST_TEXT }
    ensures { (result ≡ checked_text directory.now octets.now) ⊎ (result ≡ memory_refused) }
{
    match print_check(alloc, directory, octets) {
        Ok(printed) => Made::headed(printed.status, printed.errors, printed.tree),
        Err(_) => Made::memory_refused(),
    }
}

// A status, a printed error list with the head of a printed tree, and the lines of that tree.
#[derive(Drop)]
struct Printed {
    status: Status,
    errors: Chunk,
    tree: Chunk,
}

fn print_check(alloc: Global, directory: &Directory, octets: &[u8]) -> Result<Printed, AllocError>
    requires { length octets.now ≤ LONGEST_TEXT }
    ensures { IfOk result (λ p. record { status = p.status; output = p.errors ++ p.tree }
        ≡ checked_text directory.now octets.now) }
{
    let checked = check_text(alloc, directory, octets)?;
    let mut errors = print_errors(alloc, &checked.errors)?;
    put_tree_head(&mut errors, checked.tree.lines)?;
    Ok(Printed {
        status: found_if(&checked.errors),
        errors,
        tree: checked.tree.text,
    })
}

// Whether something was found in a text.
fn found_if(errors: &[ErrorLine]) -> Status
    ensures { (output : List ℕ)
        → found_if errors.now output ≡ record { status = result; output = output } }
{
    if errors.is_empty() {
        Status::Done
    } else {
        Status::Found
    }
}
