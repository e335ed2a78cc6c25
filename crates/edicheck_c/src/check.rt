//! The errors of a text, and its tree.
ghost use Rattle.std.specs.Prelude.{◌≡◌, ◌⊎◌, ◌++◌, ◌≤◌, codes, length, IfOk};
ghost use Rattle.edi_octets.specs.Decimal.{count_line};
ghost use Rattle.edi_octets.specs.declared.octets.TheConstants.{LONGEST_TEXT};
ghost use Rattle.error_ledger.specs.Printing.{errors_text, tree_text};
ghost use Rattle.text_reading.specs.Errors.{errors_of};
ghost use Rattle.text_reading.specs.Tree.{tree_of};
ghost use Rattle.edicheck_c.specs.Answer.{no_memory_answer};
ghost use Rattle.edicheck_c.specs.Held.{boxed};
ghost use Rattle.edicheck_c.specs.Keeping.{told_of};
ghost use Rattle.edicheck_c.specs.Told.{errors_answer, errors_told, text_told, tree_answer, tree_told};

use crate::answer::Answer;
use crate::code::{CLOSED, DONE};
use crate::kept::Kept;
use crate::opening::open;
use dir_compile::Directory;
use edi_engine::{Engine, PrintedTree, check_text, list_text_errors};
use edi_tables::Chunk;
use error_ledger::{print_errors, put_tree_head};
use std::alloc::{AllocError, Global};

/// The printed errors of a text, by the directory that a store spells.
pub(crate) fn tell_errors(alloc: Global, store: &[u8], text: &[u8]) -> Answer
    ensures { (result ≡ errors_answer store.now text.now) ⊎ (result ≡ no_memory_answer) }
{
    match open(alloc, store, text) {
        Ok(directory) => errors_by(alloc, &directory, text),
        Err(answer) => answer,
    }
}

/// The printed tree of a text, by the directory that a store spells.
pub(crate) fn tell_tree(alloc: Global, store: &[u8], text: &[u8]) -> Answer
    ensures { (result ≡ tree_answer store.now text.now) ⊎ (result ≡ no_memory_answer) }
{
    match open(alloc, store, text) {
        Ok(directory) => tree_by(alloc, &directory, text),
        Err(answer) => answer,
    }
}

/// The printed errors of the text that is kept.
pub(crate) fn tell_kept_errors(alloc: Global, kept: &Option<Box<Kept>>) -> Answer
    ensures { (result ≡ told_of errors_told (boxed kept.now)) ⊎ (result ≡ no_memory_answer) }
{
    let Some(kept) = kept else {
        return Answer::refusing(alloc, CLOSED, 0);
    };
    match errors_in(alloc, &kept.engine) {
        Ok(printed) => Answer::printing(DONE, printed),
        Err(_) => Answer::no_memory(alloc),
    }
}

/// The printed tree of the text that is kept.
pub(crate) fn tell_kept_tree(alloc: Global, kept: &Option<Box<Kept>>) -> Answer
    ensures { (result ≡ told_of tree_told (boxed kept.now)) ⊎ (result ≡ no_memory_answer) }
{
    let Some(kept) = kept else {
        return Answer::refusing(alloc, CLOSED, 0);
    };
    match tree_in(alloc, &kept.engine) {
        Ok(printed) => Answer::printing(DONE, printed),
        Err(_) => Answer::no_memory(alloc),
    }
}

/// The text that is kept.
pub(crate) fn tell_kept_text(alloc: Global, kept: &Option<Box<Kept>>) -> Answer
    ensures { (result ≡ told_of text_told (boxed kept.now)) ⊎ (result ≡ no_memory_answer) }
{
    let Some(kept) = kept else {
        return Answer::refusing(alloc, CLOSED, 0);
    };
    match kept.engine.copy_text(alloc) {
        Ok(text) => Answer::printing(DONE, text),
        Err(_) => Answer::no_memory(alloc),
    }
}

// The printed errors of a text, by a directory.
fn errors_by(alloc: Global, directory: &Directory, text: &[u8]) -> Answer
    requires { length text.now ≤ LONGEST_TEXT }
    ensures { (result ≡ errors_told text.now directory.now) ⊎ (result ≡ no_memory_answer) }
{
    match list_errors(alloc, directory, text) {
        Ok(printed) => Answer::printing(DONE, printed),
        Err(_) => Answer::no_memory(alloc),
    }
}

// The printed tree of a text, by a directory.
fn tree_by(alloc: Global, directory: &Directory, text: &[u8]) -> Answer
    requires { length text.now ≤ LONGEST_TEXT }
    ensures { (result ≡ tree_told text.now directory.now) ⊎ (result ≡ no_memory_answer) }
{
    match list_tree(alloc, directory, text) {
        Ok(printed) => Answer::printing(DONE, printed),
        Err(_) => Answer::no_memory(alloc),
    }
}

fn list_errors(alloc: Global, directory: &Directory, text: &[u8]) -> Result<Chunk, AllocError>
    requires { length text.now ≤ LONGEST_TEXT }
    ensures { IfOk result
        (λ printed. printed ≡ errors_text (errors_of directory.now text.now)) }
{
    let errors = list_text_errors(alloc, directory, text)?;
    print_errors(alloc, &errors)
}

fn errors_in(alloc: Global, engine: &Engine<'_>) -> Result<Chunk, AllocError>
    ensures { IfOk result
        (λ printed. printed ≡ errors_text (errors_of engine.now.directory engine.now.text)) }
{
    let errors = engine.errors(alloc)?;
    print_errors(alloc, &errors)
}

fn list_tree(alloc: Global, directory: &Directory, text: &[u8]) -> Result<Chunk, AllocError>
    requires { length text.now ≤ LONGEST_TEXT }
    ensures { IfOk result (λ printed. printed ≡ tree_text (tree_of directory.now text.now)) }
{
    let checked = check_text(alloc, directory, text)?;
    headed(alloc, &checked.tree)
}

fn tree_in(alloc: Global, engine: &Engine<'_>) -> Result<Chunk, AllocError>
    ensures { IfOk result
        (λ printed. printed ≡ tree_text (tree_of engine.now.directory engine.now.text)) }
{
    let tree = engine.print_tree(alloc)?;
    headed(alloc, &tree)
}

// A printed tree with its head.
fn headed(alloc: Global, tree: &PrintedTree) -> Result<Chunk, AllocError>
    ensures { IfOk result (λ printed. printed
        ≡ count_line (codes "tree") tree.now.lines ++ tree.now.text) }
{
    let mut printed = Chunk::empty(alloc);
    put_tree_head(&mut printed, tree.lines)?;
    printed.add(tree.text.octets())?;
    Ok(printed)
}
