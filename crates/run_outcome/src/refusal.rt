//! Files that give no directory, as outcomes.
ghost use Rattle.std.specs.Prelude.{◌≡◌, ◌⊎◌, ◌++◌, [], ◌∷◌, IfOk, codes, decimal};
ghost use Rattle.dir_compile.specs.CompileKind.{word_of as parts_word};
ghost use Rattle.run_outcome.specs.Outcome.{memory_refused};
ghost use Rattle.run_outcome.specs.Refusal.{file_refused, refusal, rule_broken, unread};

use crate::outcome::Made;
use crate::status::Status;
use dir_compile::CompileKind;
use dir_load::{FileFault, Refusal};
use edi_octets::put_decimal;
use edi_ports::Unread;
use edi_tables::Chunk;
use std::alloc::{AllocError, Global};

/// What files that give no directory come to, unless memory was refused for its line.
pub fn refuse(alloc: Global, why: &Refusal) -> Made
    ensures { (result ≡ refusal why.now) ⊎ (result ≡ memory_refused) }
{
    match why {
        Refusal::File { name, fault } => refuse_file(alloc, name.octets(), *fault),
        Refusal::Parts { kind, name } => {
            let line = print_parts(alloc, *kind, name.octets());
            Made::lines(Status::BadDirectory, line)
        }
        Refusal::Store { name, at } => {
            let line = print_misspelled(alloc, name.octets(), *at);
            Made::lines(Status::BadDirectory, line)
        }
    }
}

/// That there are no octets under a name, unless memory was refused for the line that says it.
pub fn refuse_unread(alloc: Global, name: &[u8], why: Unread) -> Made
    ensures { (result ≡ unread name.now why) ⊎ (result ≡ memory_refused) }
{
    match why {
        Unread::Absent => {
            Made::lines(Status::Absent, print_named(alloc, b"fault absent ", name))
        }
        Unread::TooLarge => {
            Made::lines(Status::TooLarge, print_named(alloc, b"fault large ", name))
        }
    }
}

/// That the named file breaks a rule at a line, said after these words, unless memory was refused for saying so.
pub fn refuse_rule(alloc: Global, words: &[u8], name: &[u8], line: u32, rule: &[u8]) -> Made
    ensures { (result ≡ rule_broken words.now name.now line rule.now) ⊎ (result ≡ memory_refused) }
{
    Made::lines(
        Status::BadDirectory,
        print_broken(alloc, words, name, line, rule),
    )
}

// The named file gives no definitions.
fn refuse_file(alloc: Global, name: &[u8], fault: FileFault) -> Made
    ensures { (result ≡ file_refused name.now fault) ⊎ (result ≡ memory_refused) }
{
    match fault {
        FileFault::Unread(why) => refuse_unread(alloc, name, why),
        FileFault::Grammar(fault) => {
            refuse_rule(
                alloc,
                b"fault directory ",
                name,
                fault.line,
                fault.kind.word(),
            )
        }
    }
}

// A line of words, with a name after them.
fn print_named(alloc: Global, words: &[u8], name: &[u8]) -> Result<Chunk, AllocError>
    ensures { IfOk result (λ line. line ≡ words.now ++ name.now ++ 10 ∷ []) }
{
    let mut line = Chunk::of(alloc, words)?;
    line.add(name)?;
    line.add(b"\n")?;
    Ok(line)
}

// The line of a name that breaks a rule of the parts.
fn print_parts(alloc: Global, kind: CompileKind, name: &[u8]) -> Result<Chunk, AllocError>
    ensures { IfOk result (λ line. line
        ≡ codes "fault compile " ++ parts_word kind ++ codes " " ++ name.now ++ 10 ∷ []) }
{
    let mut line = Chunk::of(alloc, b"fault compile ")?;
    line.add(kind.word())?;
    line.add(b" ")?;
    line.add(name)?;
    line.add(b"\n")?;
    Ok(line)
}

// The line of a named store that breaks a rule at a place.
fn print_misspelled(alloc: Global, name: &[u8], at: usize) -> Result<Chunk, AllocError>
    ensures { IfOk result (λ line. line
        ≡ codes "fault store " ++ name.now ++ codes " " ++ decimal at ++ 10 ∷ []) }
{
    let mut line = Chunk::of(alloc, b"fault store ")?;
    line.add(name)?;
    line.add(b" ")?;
    put_decimal(&mut line, at as u64)?;
    line.add(b"\n")?;
    Ok(line)
}

// The line of a named file that breaks a rule.
fn print_broken(
    alloc: Global,
    words: &[u8],
    name: &[u8],
    line: u32,
    rule: &[u8],
) -> Result<Chunk, AllocError>
    ensures { IfOk result (λ text. text
        ≡ words.now ++ name.now ++ codes " " ++ decimal line ++ codes " " ++ rule.now ++ 10 ∷ []) }
{
    let mut text = Chunk::of(alloc, words)?;
    text.add(name)?;
    text.add(b" ")?;
    put_decimal(&mut text, u64::from(line))?;
    text.add(b" ")?;
    text.add(rule)?;
    text.add(b"\n")?;
    Ok(text)
}
