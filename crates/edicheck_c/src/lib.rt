//! The calls for programs in C, and in every language that calls C. Each takes octets and gives octets. Most keep nothing; those
//! that are given a handle read a text once, and keep it between two calls.
#![tactic(auto)]

ghost use Rattle.std.specs.Prelude.{◌≡◌, None};
ghost use Rattle.edicheck_c.specs.Answer.{IsCallAnswered, IsCallAnsweredAs};
ghost use Rattle.edicheck_c.specs.Keeping.{IsChanged, closing_code, opened, opened_beside, replaced, told_of};
ghost use Rattle.edicheck_c.specs.Told.{contrl_answer, contrl_words_told, errors_answer, errors_told, text_told};
ghost use Rattle.edicheck_c.specs.Told.{tree_answer, tree_told};
ghost use Rattle.edicheck_c.specs.Script.{IsScriptAnswer};

mod answer;
mod check;
mod code;
mod contrl;
mod handle;
mod held;
mod kept;
mod opening;
mod replies;
mod script;

use crate::answer::hand_out;
use crate::check::{tell_errors, tell_kept_errors, tell_kept_text, tell_kept_tree, tell_tree};
use crate::contrl::{tell_contrl, tell_kept_contrl};
use crate::handle::{Handle, close, exchange, keep, replace_in};
use crate::kept::{open_beside, open_kept};
use crate::script::tell_script;
use std::alloc::Global;

/// The printed errors of a text, by the directory that a store spells.
#[unsafe(no_mangle)]
pub extern "C" fn edicheck_errors(
    alloc: Global,
    store: &[u8],
    text: &[u8],
    out: &mut [u8],
    needed: &mut usize,
) -> u32
    ensures { IsCallAnswered (errors_answer store.now text.now)
        (record { before = out.old; after = out.new; needed = needed.new; code = result }) }
{
    hand_out(&tell_errors(alloc, store, text), out, needed)
}

/// The printed tree of a text, by the directory that a store spells.
#[unsafe(no_mangle)]
pub extern "C" fn edicheck_tree(
    alloc: Global,
    store: &[u8],
    text: &[u8],
    out: &mut [u8],
    needed: &mut usize,
) -> u32
    ensures { IsCallAnswered (tree_answer store.now text.now)
        (record { before = out.old; after = out.new; needed = needed.new; code = result }) }
{
    hand_out(&tell_tree(alloc, store, text), out, needed)
}

/// The acknowledgement of a text, by the directory that a store spells. The stamp is `YYMMDD:HHMM`, and the reference 1 to 14
/// octets of `A` to `Z` and `0` to `9`.
#[unsafe(no_mangle)]
pub extern "C" fn edicheck_contrl(
    alloc: Global,
    store: &[u8],
    text: &[u8],
    stamp: &[u8],
    reference: &[u8],
    out: &mut [u8],
    needed: &mut usize,
) -> u32
    ensures { IsCallAnswered (contrl_answer store.now text.now stamp.now reference.now)
        (record { before = out.old; after = out.new; needed = needed.new; code = result }) }
{
    hand_out(
        &tell_contrl(alloc, store, text, stamp, reference),
        out,
        needed,
    )
}

/// The replies to a script of commands on a text, by the directory that a store spells.
#[unsafe(no_mangle)]
pub extern "C" fn edicheck_script(
    alloc: Global,
    store: &[u8],
    text: &[u8],
    script: &[u8],
    out: &mut [u8],
    needed: &mut usize,
) -> u32
    ensures { IsCallAnsweredAs (IsScriptAnswer store.now text.now script.now)
        (record { before = out.old; after = out.new; needed = needed.new; code = result }) }
{
    hand_out(&tell_script(alloc, store, text, script), out, needed)
}

/// Has a handle keep a text, read by the directory that a store spells. That directory is never let go, so a store is opened once;
/// more texts are opened beside the first. What the handle kept before is let go.
#[unsafe(no_mangle)]
pub extern "C" fn edicheck_open(
    alloc: Global,
    handle: &mut Handle,
    store: &[u8],
    text: &[u8],
    number: &mut usize,
) -> u32
    ensures { IsChanged (opened store.now text.now)
        (record {
          before = handle.old.kept;
          after = handle.new.kept;
          number = number.new;
          code = result;
        }) }
{
    keep(alloc, handle, open_kept(alloc, store, text), number)
}

/// Has a handle keep a text, read by the directory of what another handle keeps.
#[unsafe(no_mangle)]
pub extern "C" fn edicheck_open_beside(
    alloc: Global,
    handle: &mut Handle,
    beside: &mut Handle,
    text: &[u8],
    number: &mut usize,
) -> u32
    ensures opened { IsChanged (opened_beside beside.old.kept text.now)
        (record {
          before = handle.old.kept;
          after = handle.new.kept;
          number = number.new;
          code = result;
        }) }
    ensures beside { beside.new.kept ≡ beside.old.kept }
{
    let lent = exchange(alloc, beside, None);
    let made = open_beside(alloc, &lent, text);
    exchange(alloc, beside, lent);
    keep(alloc, handle, made, number)
}

/// Puts octets in place of the `cut` octets of the text that a handle keeps, from place `at` on. It reads what it touches.
#[unsafe(no_mangle)]
pub extern "C" fn edicheck_replace(
    alloc: Global,
    handle: &mut Handle,
    at: u64,
    cut: u64,
    put: &[u8],
    number: &mut usize,
) -> u32
    ensures { IsChanged (replaced handle.old.kept at cut put.now)
        (record {
          before = handle.old.kept;
          after = handle.new.kept;
          number = number.new;
          code = result;
        }) }
{
    replace_in(alloc, handle, at, cut, put, number)
}

/// The printed errors of the text that a handle keeps.
#[unsafe(no_mangle)]
pub extern "C" fn edicheck_kept_errors(
    alloc: Global,
    handle: &mut Handle,
    out: &mut [u8],
    needed: &mut usize,
) -> u32
    ensures answered { IsCallAnswered (told_of errors_told handle.old.kept)
        (record { before = out.old; after = out.new; needed = needed.new; code = result }) }
    ensures kept { handle.new.kept ≡ handle.old.kept }
{
    let kept = exchange(alloc, handle, None);
    let code = hand_out(&tell_kept_errors(alloc, &kept), out, needed);
    exchange(alloc, handle, kept);
    code
}

/// The printed tree of the text that a handle keeps.
#[unsafe(no_mangle)]
pub extern "C" fn edicheck_kept_tree(
    alloc: Global,
    handle: &mut Handle,
    out: &mut [u8],
    needed: &mut usize,
) -> u32
    ensures answered { IsCallAnswered (told_of tree_told handle.old.kept)
        (record { before = out.old; after = out.new; needed = needed.new; code = result }) }
    ensures kept { handle.new.kept ≡ handle.old.kept }
{
    let kept = exchange(alloc, handle, None);
    let code = hand_out(&tell_kept_tree(alloc, &kept), out, needed);
    exchange(alloc, handle, kept);
    code
}

/// The acknowledgement of the text that a handle keeps.
#[unsafe(no_mangle)]
pub extern "C" fn edicheck_kept_contrl(
    alloc: Global,
    handle: &mut Handle,
    stamp: &[u8],
    reference: &[u8],
    out: &mut [u8],
    needed: &mut usize,
) -> u32
    ensures answered { IsCallAnswered
        (told_of (contrl_words_told stamp.now reference.now) handle.old.kept)
        (record { before = out.old; after = out.new; needed = needed.new; code = result }) }
    ensures kept { handle.new.kept ≡ handle.old.kept }
{
    let kept = exchange(alloc, handle, None);
    let code = hand_out(
        &tell_kept_contrl(alloc, &kept, stamp, reference),
        out,
        needed,
    );
    exchange(alloc, handle, kept);
    code
}

/// The text that a handle keeps.
#[unsafe(no_mangle)]
pub extern "C" fn edicheck_kept_text(
    alloc: Global,
    handle: &mut Handle,
    out: &mut [u8],
    needed: &mut usize,
) -> u32
    ensures answered { IsCallAnswered (told_of text_told handle.old.kept)
        (record { before = out.old; after = out.new; needed = needed.new; code = result }) }
    ensures kept { handle.new.kept ≡ handle.old.kept }
{
    let kept = exchange(alloc, handle, None);
    let code = hand_out(&tell_kept_text(alloc, &kept), out, needed);
    exchange(alloc, handle, kept);
    code
}

/// Lets go of what a handle keeps, which is closed then.
#[unsafe(no_mangle)]
pub extern "C" fn edicheck_close(alloc: Global, handle: &mut Handle) -> u32
    ensures closed { handle.new.kept ≡ None }
    ensures code { result ≡ closing_code handle.old.kept }
{
    close(alloc, handle)
}
