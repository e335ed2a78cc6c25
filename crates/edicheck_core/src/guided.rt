//! `guide`: the errors of a text and its tree, by the directory that a guide narrows.
ghost use Rattle.std.specs.Prelude.{◌≡◌, ◌≢◌, ◌⊎◌, ◌≤◌, List, Result, length, ℕ};
ghost use Rattle.std.specs.Option.{option_map as map_told};
ghost use Rattle.dir_compile.specs.declared.parts.Parts.{Parts};
ghost use Rattle.dir_load.specs.declared.stop.Refusal.{Refusal};
ghost use Rattle.dir_load.specs.Load.{load_of};
ghost use Rattle.edi_ports.specs.Faults.{HasRisen};
ghost use Rattle.edi_ports.specs.Named.{octets_named};
ghost use Rattle.edi_ports.specs.declared.named.Unread.{Unread};
ghost use Rattle.run_outcome.specs.Outcome.{memory_refused};
ghost use Rattle.edicheck_core.specs.About.{after_reading};
ghost use Rattle.edicheck_core.specs.Guided.{checked_named, guide_refused, guided, narrowed_by};
ghost use Rattle.edicheck_core.specs.OneOf.{IsOneOf};

use crate::check::tell_check;
use dir_compile::Directory;
use edi_octets::LONGEST_TEXT;
use edi_ports::Shelf;
use guide_overlay::{GuideKind, GuideStop, narrow};
use run_outcome::{Made, Status, load_directory, load_file, refuse_rule};
use std::alloc::Global;

/// The errors and the tree of the text of that name, by the directory that the guide of that name makes of the directory of
/// that manifest; or the refusal of one of these, in the order manifest, guide, text.
pub(crate) fn tell_guided<S: Shelf>(
    alloc: Global,
    manifest: &[u8],
    guide: &[u8],
    text: &[u8],
    shelf: &mut S,
) -> Made
    ensures due { IsOneOf ((loaded : Result Parts Refusal) × (lines : Result (List ℕ) Unread)
        × (read : Result (List ℕ) Unread)
        × (result ≡ guided guide.now text.now loaded lines read))
        (map_told (λ files. guided guide.now text.now (load_of files manifest.now)
        (octets_named LONGEST_TEXT files guide.now) (octets_named LONGEST_TEXT files text.now))
        (S.files shelf.old))
        (HasRisen (S.faults shelf.old) (S.faults shelf.new)) (Unit {0}) result }
    ensures files { S.files shelf.new ≡ S.files shelf.old }
    ensures steady { S.is_steady shelf.old → result.status ≢ Status.ReadFault }
{
    match load_directory(alloc, manifest, shelf) {
        Ok(directory) => tell_by_guide(alloc, &directory, guide, text, shelf),
        Err(made) => made,
    }
}

// The same, by a directory that was loaded.
fn tell_by_guide<S: Shelf>(
    alloc: Global,
    directory: &Directory,
    guide: &[u8],
    text: &[u8],
    shelf: &mut S,
) -> Made
    ensures due { IsOneOf ((lines : Result (List ℕ) Unread) × (read : Result (List ℕ) Unread)
        × (result ≡ after_reading guide.now
        (narrowed_by guide.now text.now read directory.now) lines))
        (map_told (λ files. after_reading guide.now (narrowed_by guide.now text.now
        (octets_named LONGEST_TEXT files text.now) directory.now)
        (octets_named LONGEST_TEXT files guide.now)) (S.files shelf.old))
        (HasRisen (S.faults shelf.old) (S.faults shelf.new)) (Unit {0}) result }
    ensures files { S.files shelf.new ≡ S.files shelf.old }
    ensures steady { S.is_steady shelf.old → result.status ≢ Status.ReadFault }
{
    match load_file(alloc, guide, shelf) {
        Ok(octets) => tell_narrowed(alloc, directory, guide, &octets, text, shelf),
        Err(made) => made,
    }
}

// The same, by a guide that was read under that name.
fn tell_narrowed<S: Shelf>(
    alloc: Global,
    directory: &Directory,
    guide: &[u8],
    octets: &[u8],
    text: &[u8],
    shelf: &mut S,
) -> Made
    requires { length octets.now ≤ LONGEST_TEXT }
    ensures due { IsOneOf ((read : Result (List ℕ) Unread)
        × (result ≡ narrowed_by guide.now text.now read directory.now octets.now))
        (map_told (λ files. narrowed_by guide.now text.now (octets_named LONGEST_TEXT files text.now)
        directory.now octets.now) (S.files shelf.old))
        (HasRisen (S.faults shelf.old) (S.faults shelf.new)) (Unit {0}) result }
    ensures files { S.files shelf.new ≡ S.files shelf.old }
    ensures steady { S.is_steady shelf.old → result.status ≢ Status.ReadFault }
{
    match narrow(alloc, directory, octets) {
        Ok(narrower) => check_named(alloc, &narrower, text, shelf),
        Err(GuideStop::Fault { line, kind }) => refuse_guide(alloc, guide, line, kind),
        Err(GuideStop::Memory) => Made::memory_refused(),
    }
}

// The errors and the tree of the text of that name, by a directory.
fn check_named<S: Shelf>(alloc: Global, directory: &Directory, text: &[u8], shelf: &mut S) -> Made
    ensures due { IsOneOf ((read : Result (List ℕ) Unread)
        × (result ≡ checked_named text.now read directory.now))
        (map_told (λ files. checked_named text.now (octets_named LONGEST_TEXT files text.now)
        directory.now) (S.files shelf.old))
        (HasRisen (S.faults shelf.old) (S.faults shelf.new)) (Unit {0}) result }
    ensures files { S.files shelf.new ≡ S.files shelf.old }
    ensures steady { S.is_steady shelf.old → result.status ≢ Status.ReadFault }
{
    match load_file(alloc, text, shelf) {
        Ok(octets) => tell_check(alloc, directory, &octets),
        Err(made) => made,
    }
}

// That the guide of that name breaks a rule at a line, unless memory was refused for the line that tells it.
fn refuse_guide(alloc: Global, guide: &[u8], line: u32, kind: GuideKind) -> Made
    ensures { (result ≡ guide_refused guide.now (record { line = line; kind = kind }))
        ⊎ (result ≡ memory_refused) }
{
    refuse_rule(alloc, b"fault guide ", guide, line, kind.word())
}
