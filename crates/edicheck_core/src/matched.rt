//! `match`: the findings of a reply to a text, a partner's acknowledgement that is led back to it.
ghost use Rattle.std.specs.Prelude.{◌≡◌, ◌≢◌, ◌⊎◌, ◌++◌, ◌≤◌, [], ◌∷◌, List, MatchResult, Result, Ok, Err, length, ℕ, IfOk, decimal};
ghost use Rattle.std.specs.Option.{option_map as map_told};
ghost use Rattle.dir_compile.specs.declared.parts.Parts.{Parts};
ghost use Rattle.dir_load.specs.declared.stop.Refusal.{Refusal};
ghost use Rattle.dir_load.specs.Load.{load_of};
ghost use Rattle.edi_ports.specs.Faults.{HasRisen};
ghost use Rattle.edi_ports.specs.Named.{octets_named};
ghost use Rattle.edi_ports.specs.declared.named.Unread.{Unread};
ghost use Rattle.contrl_match.specs.Match.{match_of};
ghost use Rattle.contrl_match.specs.declared.stop.MatchStop.TheVariants.{Memory};
ghost use Rattle.run_outcome.specs.Outcome.{memory_refused};
ghost use Rattle.edicheck_core.specs.About.{after_reading};
ghost use Rattle.edicheck_core.specs.Matched.{matched, replied, replied_to, reply_named};
ghost use Rattle.edicheck_core.specs.OneOf.{IsOneOf};

use contrl_match::{Finding, MatchStop, match_contrl, print_findings};
use dir_compile::Directory;
use edi_engine::Engine;
use edi_octets::{LONGEST_TEXT, put_decimal};
use edi_ports::Shelf;
use edi_tables::Chunk;
use run_outcome::{Made, Status, load_directory, load_file};
use std::alloc::{AllocError, Global};

/// The findings of the reply of that name to the text of that name, by the directory of that manifest; or why it isn't led
/// back to it; or the refusal of one of these, in the order manifest, text, reply.
pub(crate) fn tell_match<S: Shelf>(
    alloc: Global,
    manifest: &[u8],
    text: &[u8],
    reply: &[u8],
    shelf: &mut S,
) -> Made
    ensures due { IsOneOf ((loaded : Result Parts Refusal) × (read : Result (List ℕ) Unread)
        × (answer : Result (List ℕ) Unread)
        × (result ≡ matched text.now reply.now loaded read answer))
        (map_told (λ files. matched text.now reply.now (load_of files manifest.now)
        (octets_named LONGEST_TEXT files text.now) (octets_named LONGEST_TEXT files reply.now))
        (S.files shelf.old))
        (HasRisen (S.faults shelf.old) (S.faults shelf.new)) (Unit {0}) result }
    ensures files { S.files shelf.new ≡ S.files shelf.old }
    ensures steady { S.is_steady shelf.old → result.status ≢ Status.ReadFault }
{
    match load_directory(alloc, manifest, shelf) {
        Ok(directory) => match_text(alloc, &directory, text, reply, shelf),
        Err(made) => made,
    }
}

// The same, by a directory that was loaded.
fn match_text<S: Shelf>(
    alloc: Global,
    directory: &Directory,
    text: &[u8],
    reply: &[u8],
    shelf: &mut S,
) -> Made
    ensures due { IsOneOf ((read : Result (List ℕ) Unread) × (answer : Result (List ℕ) Unread)
        × (result ≡ after_reading text.now (reply_named reply.now answer directory.now) read))
        (map_told (λ files. after_reading text.now (reply_named reply.now
        (octets_named LONGEST_TEXT files reply.now) directory.now)
        (octets_named LONGEST_TEXT files text.now)) (S.files shelf.old))
        (HasRisen (S.faults shelf.old) (S.faults shelf.new)) (Unit {0}) result }
    ensures files { S.files shelf.new ≡ S.files shelf.old }
    ensures steady { S.is_steady shelf.old → result.status ≢ Status.ReadFault }
{
    match load_file(alloc, text, shelf) {
        Ok(octets) => match_reply(alloc, directory, octets, reply, shelf),
        Err(made) => made,
    }
}

// The same, by a text that was read.
fn match_reply<S: Shelf>(
    alloc: Global,
    directory: &Directory,
    text: Vec<u8>,
    reply: &[u8],
    shelf: &mut S,
) -> Made
    requires { length text.items ≤ LONGEST_TEXT }
    ensures due { IsOneOf ((answer : Result (List ℕ) Unread)
        × (result ≡ reply_named reply.now answer directory.now text.items))
        (map_told (λ files. reply_named reply.now (octets_named LONGEST_TEXT files reply.now)
        directory.now text.items) (S.files shelf.old))
        (HasRisen (S.faults shelf.old) (S.faults shelf.new)) (Unit {0}) result }
    ensures files { S.files shelf.new ≡ S.files shelf.old }
    ensures steady { S.is_steady shelf.old → result.status ≢ Status.ReadFault }
{
    match load_file(alloc, reply, shelf) {
        Ok(octets) => tell_reply(alloc, directory, text, &octets),
        Err(made) => made,
    }
}

// What a reply to a text comes to, by a directory.
fn tell_reply(alloc: Global, directory: &Directory, text: Vec<u8>, reply: &[u8]) -> Made
    requires text { length text.items ≤ LONGEST_TEXT }
    requires reply { length reply.now ≤ LONGEST_TEXT }
    ensures { (result ≡ replied_to directory.now text.items reply.now)
        ⊎ (result ≡ memory_refused) }
{
    match lead_back(alloc, directory, text, reply) {
        Ok(findings) => Made::lines(Status::Done, print_findings(alloc, &findings)),
        Err(why) => tell_unmatched(alloc, why),
    }
}

// The findings of a reply to a text, or why it isn't led back to it.
fn lead_back(
    alloc: Global,
    directory: &Directory,
    text: Vec<u8>,
    reply: &[u8],
) -> Result<Vec<Finding>, MatchStop>
    requires text { length text.items ≤ LONGEST_TEXT }
    requires reply { length reply.now ≤ LONGEST_TEXT }
    ensures { MatchResult result
        (λ found. match_of directory.now text.items reply.now ≡ Ok found.items)
        (λ stop. (stop ≡ Memory) ⊎ (match_of directory.now text.items reply.now ≡ Err stop)) }
{
    let engine = Engine::read(alloc, directory, text)?;
    match_contrl(&engine, alloc, reply)
}

// Why a reply isn't led back to a text, unless memory was refused for the line that tells it.
fn tell_unmatched(alloc: Global, why: MatchStop) -> Made
    ensures { (result ≡ replied (Err why)) ⊎ (result ≡ memory_refused) }
{
    match why {
        MatchStop::Unclean { errors } => {
            Made::lines(
                Status::Found,
                print_number(alloc, b"reply unclean ", errors),
            )
        }
        MatchStop::NotContrl => Made::fixed(Status::Found, b"reply not-contrl\n"),
        MatchStop::Other => Made::fixed(Status::Found, b"reply other\n"),
        MatchStop::Unknown { segment } => {
            Made::lines(
                Status::Found,
                print_number(alloc, b"reply unknown ", segment),
            )
        }
        MatchStop::Memory => Made::memory_refused(),
    }
}

// A line of words with a number after them.
fn print_number(alloc: Global, words: &[u8], n: u32) -> Result<Chunk, AllocError>
    ensures { IfOk result (λ line. line ≡ words.now ++ decimal n ++ 10 ∷ []) }
{
    let mut line = Chunk::of(alloc, words)?;
    put_decimal(&mut line, u64::from(n))?;
    line.add(b"\n")?;
    Ok(line)
}
