//! Replies, how they are made from an engine, and how they are put.
ghost use Rattle.std.specs.Prelude.{◌≡◌, ◌≤◌, ◌-◌, ℕ, [], ◌∷◌, ◌++◌, length, IsTrue, IfOk, MatchResult, codes, decimal};
ghost use Rattle.std.specs.Bool.{OnFalse};
ghost use Rattle.edi_ports.specs.Faults.{HasRisen};
ghost use Rattle.error_ledger.specs.Printing.{errors_text, tree_text};
ghost use Rattle.contrl_segments.specs.Stamp.{IsStamp, is_reference_of};
ghost use Rattle.text_reading.specs.Errors.{errors_of};
ghost use Rattle.text_reading.specs.Summary.{contrl_to};
ghost use Rattle.text_reading.specs.Tree.{tree_of};
ghost use Rattle.run_outcome.specs.Put.{IsPutOut};
ghost use Rattle.script_answers.specs.Replied.{octets_of};
ghost use Rattle.script_answers.specs.Reply.{contrl_reply, counted, no_memory};

use contrl_writer::{Contrl, Stamp};
use edi_engine::{Engine, PrintedTree};
use edi_ports::Sink;
use edi_tables::Chunk;
use error_ledger::print_errors;
use run_outcome::{put_numbered, put_pair};
use std::alloc::{AllocError, Global};

/// A whole reply, which is put without memory: octets of the program; the length of a text that was edited; words and
/// the number of an edit; printed lines; the lines of a printed tree, and how many these are; or octets, after a line of
/// this head and their number.
#[derive(Debug, Drop)]
pub(crate) enum Reply {
    Fixed(&'static [u8]),
    Edited(u64),
    Refused(&'static [u8], u32),
    Lines(Chunk),
    Tree { lines: usize, text: Chunk },
    Counted { head: &'static [u8], octets: Chunk },
}

// A reply, unless memory was refused for it.
pub(crate) fn or_no_memory(reply: Result<Reply, AllocError>) -> Reply
    ensures { MatchResult reply (λ made. octets_of result ≡ octets_of made)
        (λ _. octets_of result ≡ no_memory) }
{
    match reply {
        Ok(made) => made,
        Err(_) => Reply::Fixed(b"no memory\n"),
    }
}

pub(crate) fn list_errors(alloc: Global, engine: &Engine<'_>) -> Result<Reply, AllocError>
    ensures { IfOk result (λ reply. octets_of reply
        ≡ errors_text (errors_of engine.now.directory engine.now.text)) }
{
    let errors = engine.errors(alloc)?;
    Ok(Reply::Lines(print_errors(alloc, &errors)?))
}

pub(crate) fn list_tree(alloc: Global, engine: &Engine<'_>) -> Result<Reply, AllocError>
    ensures { IfOk result (λ reply. octets_of reply
        ≡ tree_text (tree_of engine.now.directory engine.now.text)) }
{
    let PrintedTree { lines, text } = engine.print_tree(alloc)?;
    Ok(Reply::Tree { lines, text })
}

pub(crate) fn acknowledge(
    alloc: Global,
    engine: &Engine<'_>,
    stamp: &Stamp,
    reference: &[u8],
) -> Result<Reply, AllocError>
    requires stamp { IsStamp stamp.now }
    requires reference { IsTrue (is_reference_of reference.now) }
    ensures { IfOk result (λ reply. octets_of reply
        ≡ contrl_reply (contrl_to engine.now.directory engine.now.text stamp.now reference.now)) }
{
    Ok(match engine.contrl(alloc, stamp, reference)? {
        Contrl::Octets(octets) => Reply::Counted {
            head: b"contrl ",
            octets,
        },
        Contrl::NoUnb => Reply::Fixed(b"no unb\n"),
        Contrl::BadUnb => Reply::Fixed(b"bad unb\n"),
    })
}

pub(crate) fn copy_text(alloc: Global, engine: &Engine<'_>) -> Result<Reply, AllocError>
    ensures { IfOk result (λ reply. octets_of reply ≡ counted (codes "text") engine.now.text) }
{
    Ok(Reply::Counted {
        head: b"text ",
        octets: engine.copy_text(alloc)?,
    })
}

// Puts a reply.
pub(crate) fn put_reply<O: Sink>(out: &mut O, reply: &Reply) -> bool
    ensures put { IsPutOut (O.held out.old) (O.held out.new) (octets_of reply.now) result }
    ensures counted { O.faults out.old ≤ O.faults out.new }
    ensures cause { OnFalse result (HasRisen (O.faults out.old) (O.faults out.new)) }
    ensures room { (n : ℕ) → O.has_room out.old n → length (octets_of reply.now) ≤ n
        → IsTrue result × O.has_room out.new (n - length (octets_of reply.now)) }
{
    match reply {
        Reply::Fixed(octets) => put_pair(out, octets, b""),
        Reply::Edited(length) => put_numbered(out, b"ok ", *length, b"\n"),
        Reply::Refused(words, edit) => put_numbered(out, words, *edit as u64, b"\n"),
        Reply::Lines(lines) => put_pair(out, lines.octets(), b""),
        Reply::Tree { lines, text } => {
            put_counted(out, b"tree ", *lines as u64, text.octets(), b"")
        }
        Reply::Counted { head, octets } => {
            let octets = octets.octets();
            put_counted(out, head, octets.len() as u64, octets, b"\n")
        }
    }
}

// Puts octets after a line of this head and their count, and an end after them.
fn put_counted<O: Sink>(out: &mut O, head: &[u8], count: u64, octets: &[u8], end: &[u8]) -> bool
    ensures put { IsPutOut (O.held out.old) (O.held out.new)
        (head.now ++ decimal count ++ 10 ∷ (octets.now ++ end.now)) result }
    ensures counted { O.faults out.old ≤ O.faults out.new }
    ensures cause { OnFalse result (HasRisen (O.faults out.old) (O.faults out.new)) }
    ensures room { (n : ℕ) → O.has_room out.old n
        → length (head.now ++ decimal count ++ 10 ∷ (octets.now ++ end.now)) ≤ n
        → IsTrue result × O.has_room out.new
        (n - length (head.now ++ decimal count ++ 10 ∷ (octets.now ++ end.now))) }
{
    put_numbered(out, head, count, b"\n") && put_pair(out, octets, end)
}
