//! A handle, which a program in C has between two calls.
ghost use Rattle.std.specs.Prelude.{◌≡◌, None, Ok, Err, MatchResult};
ghost use Rattle.std.specs.declared.option.Option.{Option};
ghost use Rattle.edicheck_c.specs.Held.{boxed, held};
ghost use Rattle.edicheck_c.specs.Keeping.{IsChanged, IsChangedTo, closing_code, replaced};
ghost use Rattle.edicheck_c.specs.contracts.kept.Kept.{the_row};
ghost use Rattle.edicheck_c.specs.declared.kept.Kept.{Kept};

use crate::answer::Answer;
use crate::code::{CLOSED, DONE, NO_MEMORY, NO_RANGE, TOO_LONG};
use crate::held::Held;
use crate::kept::{Kept, edit_kept};
use edi_engine::EditStop;
use std::alloc::Global;
use std::marker::Model;
use std::mem::replace;

/// What a handle keeps, as a pointer that says nothing of it; null is a handle that is closed. C can't be given a struct that is
/// over the type of what it owns, and can be given this one.
#[repr(C)]
pub struct Handle {
    at: *mut u8,
    pub(crate) ghost kept: { Option Kept },
}

impl Model for Handle {
    ghost also_owns = { λ h. held the_row h.at h.kept };
}

// The same pointer, for C.
fn lent(held: Held<Kept>) -> Handle
    ensures { result.kept ≡ held.kept }
{
    let Held { at } = held;
    Handle { at: at as *mut u8 }
}

// The same pointer, from C.
fn given(handle: Handle) -> Held<Kept>
    ensures { result.kept ≡ handle.kept }
{
    let Handle { at } = handle;
    Held {
        at: at as *mut Kept,
    }
}

/// Has a handle keep what is in this box, or nothing, and gives what it kept.
pub(crate) fn exchange(
    alloc: Global,
    handle: &mut Handle,
    kept: Option<Box<Kept>>,
) -> Option<Box<Kept>>
    ensures now { handle.new.kept ≡ boxed kept }
    ensures before { boxed result ≡ handle.old.kept }
{
    let held = match kept {
        None => Held::empty(),
        Some(kept) => Held::of(kept),
    };
    given(replace(handle, lent(held))).into_box(alloc)
}

/// Has a handle keep what was made, with the length of its text as the number; or gives the refusal, and it keeps what it kept.
pub(crate) fn keep(
    alloc: Global,
    handle: &mut Handle,
    made: Result<Box<Kept>, Answer>,
    number: &mut usize,
) -> u32
    ensures { MatchResult made
        (λ kept. IsChangedTo (Ok kept.value)
        (record {
          before = handle.old.kept;
          after = handle.new.kept;
          number = number.new;
          code = result;
        }))
        (λ answer. IsChangedTo (Err answer)
        (record {
          before = handle.old.kept;
          after = handle.new.kept;
          number = number.new;
          code = result;
        })) }
{
    match made {
        Ok(kept) => {
            *number = kept.engine.text_len() as usize;
            exchange(alloc, handle, Some(kept));
            DONE
        }
        Err(answer) => {
            *number = answer.number;
            answer.code
        }
    }
}

/// Edits the text that a handle keeps.
pub(crate) fn replace_in(
    alloc: Global,
    handle: &mut Handle,
    at: u64,
    cut: u64,
    put: &[u8],
    number: &mut usize,
) -> u32
    ensures { IsChanged (replaced handle.old.kept at cut put.now)
        (record {
          before = handle.old.kept;
          after = handle.new.kept;
          number = number.new;
          code = result;
        }) }
{
    *number = 0;
    let Some(mut kept) = exchange(alloc, handle, None) else {
        return CLOSED;
    };
    let edited = edit_kept(alloc, &mut kept, at, cut, put);
    exchange(alloc, handle, Some(kept));
    match edited {
        Ok(length) => {
            *number = length as usize;
            DONE
        }
        Err(EditStop::Range) => NO_RANGE,
        Err(EditStop::TooLong) => TOO_LONG,
        Err(EditStop::Memory) => NO_MEMORY,
    }
}

/// Lets go of what a handle keeps.
pub(crate) fn close(alloc: Global, handle: &mut Handle) -> u32
    ensures closed { handle.new.kept ≡ None }
    ensures code { result ≡ closing_code handle.old.kept }
{
    match exchange(alloc, handle, None) {
        None => CLOSED,
        Some(_) => DONE,
    }
}
