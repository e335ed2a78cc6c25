//! What a call on a text begins with.
ghost use Rattle.std.specs.Prelude.{◌≡◌, ◌⊎◌, ◌≤◌, Ok, Err, length, IfOk, MatchResult, not};
ghost use Rattle.edi_octets.specs.declared.octets.TheConstants.{LONGEST_TEXT};
ghost use Rattle.edicheck_c.specs.Answer.{no_memory_answer};
ghost use Rattle.edicheck_c.specs.Told.{is_short as is_short_of, opened_by_store, opened_with_script};

use crate::answer::Answer;
use crate::code::{BAD_STORE, TOO_LONG};
use dir_compile::Directory;
use dir_store::{StoreStop, read_store};
use edi_octets::LONGEST_TEXT;
use std::alloc::Global;

/// Whether octets are within the limit of a text.
pub(crate) fn is_short(octets: &[u8]) -> bool
    ensures { result ≡ is_short_of octets.now }
{
    octets.len() <= LONGEST_TEXT
}

/// The directory that a store spells, where the text isn't too long; or what comes in its place.
pub(crate) fn open(alloc: Global, store: &[u8], text: &[u8]) -> Result<Directory, Answer>
    ensures opened { MatchResult result
        (λ directory. opened_by_store store.now text.now ≡ Ok directory)
        (λ answer. (opened_by_store store.now text.now ≡ Err answer) ⊎ (answer ≡ no_memory_answer)) }
    ensures short { IfOk result (λ _. length text.now ≤ LONGEST_TEXT) }
{
    if !is_short(store) || !is_short(text) {
        return Err(Answer::refusing(alloc, TOO_LONG, 0));
    }
    match read_store(alloc, store) {
        Ok(directory) => Ok(directory),
        Err(StoreStop::Fault { at }) => Err(Answer::refusing(alloc, BAD_STORE, at)),
        Err(StoreStop::Memory) => Err(Answer::no_memory(alloc)),
    }
}

/// The same, where the script isn't too long either.
pub(crate) fn open_with_script(
    alloc: Global,
    store: &[u8],
    text: &[u8],
    script: &[u8],
) -> Result<Directory, Answer>
    ensures opened { MatchResult result
        (λ directory. opened_with_script store.now text.now script.now ≡ Ok directory)
        (λ answer. (opened_with_script store.now text.now script.now ≡ Err answer)
        ⊎ (answer ≡ no_memory_answer)) }
    ensures short { IfOk result (λ _. length text.now ≤ LONGEST_TEXT) }
{
    if !is_short(script) {
        return Err(Answer::refusing(alloc, TOO_LONG, 0));
    }
    open(alloc, store, text)
}
