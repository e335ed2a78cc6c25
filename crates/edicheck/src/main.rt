//! The program: its words, its input, its output and its folder, handed to the one call that does the work.
#![tactic(auto)]

ghost use Rattle.std.specs.Prelude.{◌≡◌, [], IfOk, IsUtf8};

mod command_input;
mod hints;
mod kept;
mod place;
mod watched;

use crate::command_input::CommandInput;
use crate::hints::{hint_at_read, hint_at_script, hint_at_word};
use crate::watched::{WatchedShelf, WatchedSource};
use edi_ports::{FolderShelf, Shelf, Source, StdSink, StdSource};
use edi_tables::Chunk;
use edicheck_core::{Status, find_wrong_word, refuse_memory, run};
use std::alloc::{AllocError, Global};
use std::env::FillError;
use std::process::ExitCode;
use std::rt::Env;

// The longest word that counts is a file's name.
const LONGEST_NAME: usize = 128;

// A longer word is of no form.
const LONGEST_WORD: usize = 256;

// A name fits.
const _: () = prove!(LONGEST_NAME <= LONGEST_WORD);

fn main(rt: HostRuntime) -> ExitCode {
    let alloc = rt.alloc();
    let mut out = StdSink::new(rt.stdout());
    let mut input = WatchedSource::new(CommandInput::new(StdSource::new(rt.stdin())));
    let status = match read_words(&rt, alloc) {
        Ok(words) => {
            let mut shelf = WatchedShelf::new(FolderShelf::new(&rt));
            let status = run(alloc, &words, &mut shelf, &mut input, &mut out);
            hint(&rt, status, &words, &shelf, &input);
            status
        }
        Err(_) => refuse_memory(&mut out),
    };
    ExitCode::from(status.number())
}

// Says on standard error what the last line of the output doesn't, for the refusals that need it.
fn hint<S: Shelf, I: Source>(
    rt: &impl Eprint,
    status: Status,
    words: &[Chunk],
    shelf: &WatchedShelf<S>,
    input: &WatchedSource<I>,
) {
    match status {
        Status::Words => {
            if let Some(wrong) = find_wrong_word(words) {
                hint_at_word(rt, wrong);
            }
        }
        Status::ReadFault => hint_at_read(rt, shelf.failed()),
        Status::BadScript => hint_at_script(rt, input.taken(), input.has_ended()),
        _ => {}
    }
}

// The words after the program's name. A word that isn't text, or is longer than any that counts, is an empty word,
// which is of no form.
fn read_words(rt: &impl Env, alloc: Global) -> Result<Vec<Chunk>, AllocError> {
    let mut words = Vec::new(alloc);
    let mut buffer = [0u8; LONGEST_WORD];
    for i in 1..usize::MAX {
        match rt.arg(i, &mut buffer) {
            Ok(len) => words.push(read_word(alloc, &buffer[..len])?)?,
            Err(FillError::TooLong) => words.push(Chunk::empty(alloc))?,
            Err(FillError::NotPresent) => break,
        }
    }
    Ok(words)
}

// A word that is text, as it is; else the empty word.
fn read_word(alloc: Global, word: &[u8]) -> Result<Chunk, AllocError>
    ensures text { IsUtf8 word.now → IfOk result (λ chunk. chunk ≡ word.now) }
    ensures other { ¬ IsUtf8 word.now → IfOk result (λ chunk. chunk ≡ []) }
{
    if str::from_utf8(word).is_ok() {
        Chunk::of(alloc, word)
    } else {
        Ok(Chunk::empty(alloc))
    }
}
