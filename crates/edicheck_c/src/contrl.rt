//! The acknowledgement of a text.
ghost use Rattle.std.specs.Prelude.{◌≡◌, ◌⊎◌, ◌≤◌, length, IfOk, IsTrue};
ghost use Rattle.contrl_segments.specs.Stamp.{IsStamp, is_reference_of, stamp_in};
ghost use Rattle.edi_octets.specs.declared.octets.TheConstants.{LONGEST_TEXT};
ghost use Rattle.text_reading.specs.Summary.{contrl_to};
ghost use Rattle.edicheck_c.specs.Answer.{no_memory_answer};
ghost use Rattle.edicheck_c.specs.Held.{boxed};
ghost use Rattle.edicheck_c.specs.Keeping.{told_of};
ghost use Rattle.edicheck_c.specs.Told.{acknowledgement_told, contrl_answer, contrl_words_told, contrl_told};

use crate::answer::Answer;
use crate::code::{BAD_REFERENCE, BAD_STAMP, BAD_UNB, CLOSED, DONE, NO_UNB};
use crate::kept::Kept;
use crate::opening::open;
use contrl_writer::{Contrl, Stamp, is_reference, read_stamp};
use dir_compile::Directory;
use edi_engine::Engine;
use std::alloc::{AllocError, Global};

/// The acknowledgement of a text, by the directory that a store spells, with a stamp and a reference that are still to be read.
pub(crate) fn tell_contrl(
    alloc: Global,
    store: &[u8],
    text: &[u8],
    stamp: &[u8],
    reference: &[u8],
) -> Answer
    ensures { (result ≡ contrl_answer store.now text.now stamp.now reference.now)
        ⊎ (result ≡ no_memory_answer) }
{
    match open(alloc, store, text) {
        Ok(directory) => acknowledge(alloc, &directory, text, stamp, reference),
        Err(answer) => answer,
    }
}

/// The acknowledgement of the text that is kept, with a stamp and a reference that are still to be read.
pub(crate) fn tell_kept_contrl(
    alloc: Global,
    kept: &Option<Box<Kept>>,
    stamp: &[u8],
    reference: &[u8],
) -> Answer
    ensures { (result ≡ told_of (contrl_words_told stamp.now reference.now) (boxed kept.now))
        ⊎ (result ≡ no_memory_answer) }
{
    match kept {
        Some(kept) => acknowledge_kept(alloc, kept, stamp, reference),
        None => Answer::refusing(alloc, CLOSED, 0),
    }
}

fn acknowledge_kept(alloc: Global, kept: &Kept, stamp: &[u8], reference: &[u8]) -> Answer
    ensures { (result ≡ contrl_words_told stamp.now reference.now kept.now.engine.text
        kept.now.engine.directory) ⊎ (result ≡ no_memory_answer) }
{
    let Some(stamp) = read_stamp(stamp) else {
        return Answer::refusing(alloc, BAD_STAMP, 0);
    };
    if !is_reference(reference) {
        return Answer::refusing(alloc, BAD_REFERENCE, 0);
    }
    match kept.engine.contrl(alloc, &stamp, reference) {
        Ok(contrl) => answer_of(alloc, contrl),
        Err(_) => Answer::no_memory(alloc),
    }
}

// Its acknowledgement, by a directory.
fn acknowledge(
    alloc: Global,
    directory: &Directory,
    text: &[u8],
    stamp: &[u8],
    reference: &[u8],
) -> Answer
    requires { length text.now ≤ LONGEST_TEXT }
    ensures { (result
        ≡ acknowledgement_told text.now (stamp_in stamp.now) reference.now directory.now)
        ⊎ (result ≡ no_memory_answer) }
{
    let Some(stamp) = read_stamp(stamp) else {
        return Answer::refusing(alloc, BAD_STAMP, 0);
    };
    if !is_reference(reference) {
        return Answer::refusing(alloc, BAD_REFERENCE, 0);
    }
    match make_contrl(alloc, directory, text, &stamp, reference) {
        Ok(contrl) => answer_of(alloc, contrl),
        Err(_) => Answer::no_memory(alloc),
    }
}

fn make_contrl(
    alloc: Global,
    directory: &Directory,
    text: &[u8],
    stamp: &Stamp,
    reference: &[u8],
) -> Result<Contrl, AllocError>
    requires short { length text.now ≤ LONGEST_TEXT }
    requires stamp { IsStamp stamp.now }
    requires reference { IsTrue (is_reference_of reference.now) }
    ensures { IfOk result (λ contrl. contrl
        ≡ contrl_to directory.now text.now stamp.now reference.now) }
{
    let engine = Engine::read(alloc, directory, text.to_vec(alloc)?)?;
    engine.contrl(alloc, stamp, reference)
}

fn answer_of(alloc: Global, contrl: Contrl) -> Answer
    ensures { result ≡ contrl_told contrl }
{
    match contrl {
        Contrl::Octets(octets) => Answer::printing(DONE, octets),
        Contrl::NoUnb => Answer::refusing(alloc, NO_UNB, 0),
        Contrl::BadUnb => Answer::refusing(alloc, BAD_UNB, 0),
    }
}
