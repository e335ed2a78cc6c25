//! A directory from the files of a shelf.
ghost use Rattle.std.specs.Prelude.{◌≡◌, ◌≤◌, ℕ, List, Some, Ok, IsErrOf, length};
ghost use Rattle.edi_tables.specs.First.{IsVerdict};
ghost use Rattle.edi_ports.specs.declared.shelf.ShelfFile.{ShelfFile};
ghost use Rattle.edi_ports.specs.Faults.{IsFair};
ghost use Rattle.edi_ports.specs.Named.{octets_named};
ghost use Rattle.dir_compile.specs.declared.parts.Parts.{Parts};
ghost use Rattle.dir_compile.specs.Directory.{IsDirectory};
ghost use Rattle.dir_store.specs.Spelling.{IsStoreOf, begins_as_store};
ghost use Rattle.dir_load.specs.Load.{lines_under, load_of, store_under};
ghost use Rattle.dir_load.specs.Stop.{refusal_in};

use crate::LoadStop;
use crate::gather::gather_files;
use crate::manifest::read_manifest;
use crate::stop::FileStop;
use dir_compile::{Directory, compile};
use dir_store::read_store;
use edi_octets::LONGEST_TEXT;
use edi_ports::{Shelf, read_named};
use std::alloc::Global;

/// The directory of the manifest of that name. A manifest that begins with `EDIDIR1` and LF, or with `EDIDIR2` and LF, is
/// a store, and its first fault is answered with its place. Every other manifest is lines: the whole manifest is judged
/// first, then each file that it names, in order: whether it is there, has at most 4,194,304 octets and breaks no rule of
/// its grammar; a segment file is read with the composites of all files before it. Then their parts are compiled. The
/// first refusal is answered with the name that it is about. `Fault` comes only where the shelf failed.
pub fn load<S: Shelf>(alloc: Global, shelf: &mut S, name: &[u8]) -> Result<Directory, LoadStop>
    ensures loads { (files : List ShelfFile) → S.files shelf.old ≡ Some files
        → IsVerdict (λ directory. directory) refusal_in result (load_of files name.now) }
    ensures files { S.files shelf.new ≡ S.files shelf.old }
    ensures fair { IsFair S.faults S.is_steady shelf.old shelf.new (IsErrOf result LoadStop.Fault) }

    // A store of a directory, of either version, gives this directory again under that name.
    ensures again { (files : List ShelfFile) (octets : List ℕ) (directory : Parts)
        → IsDirectory directory → IsStoreOf octets directory → octets_named LONGEST_TEXT files name.now ≡ Ok octets
        → load_of files name.now ≡ Ok directory }
{
    let octets = match read_named(alloc, shelf, name, LONGEST_TEXT) {
        Ok(octets) => octets,
        Err(stop) => return Err(FileStop::from(stop).at_file(alloc, name)),
    };
    if is_store(&octets) {
        load_store(alloc, name, &octets)
    } else {
        load_lines(alloc, shelf, name, &octets)
    }
}

// Whether a manifest is a store.
fn is_store(octets: &[u8]) -> bool
    ensures { result ≡ begins_as_store octets.now }
{
    octets.starts_with(b"EDIDIR1\n") || octets.starts_with(b"EDIDIR2\n")
}

// The directory of the store of that name.
fn load_store(alloc: Global, name: &[u8], octets: &[u8]) -> Result<Directory, LoadStop>
    requires { length octets.now ≤ LONGEST_TEXT }
    ensures loads { IsVerdict (λ directory. directory) refusal_in result
        (store_under name.now octets.now) }
    ensures unfailing { IsErrOf result LoadStop.Fault → ⊥ }
{
    match read_store(alloc, octets) {
        Ok(directory) => Ok(directory),
        Err(stop) => Err(LoadStop::in_store(alloc, name, stop)),
    }
}

// The directory of the lines of the manifest of that name.
fn load_lines<S: Shelf>(
    alloc: Global,
    shelf: &mut S,
    name: &[u8],
    octets: &[u8],
) -> Result<Directory, LoadStop>
    requires { length octets.now ≤ LONGEST_TEXT }
    ensures loads { (files : List ShelfFile) → S.files shelf.old ≡ Some files
        → IsVerdict (λ directory. directory) refusal_in result
        (lines_under files name.now octets.now) }
    ensures files { S.files shelf.new ≡ S.files shelf.old }
    ensures fair { IsFair S.faults S.is_steady shelf.old shelf.new (IsErrOf result LoadStop.Fault) }
{
    let manifest = match read_manifest(alloc, octets) {
        Ok(manifest) => manifest,
        Err(stop) => return Err(FileStop::from(stop).at_file(alloc, name)),
    };
    let gathered = gather_files(alloc, shelf, manifest.files.items())?;
    Ok(compile(alloc, gathered.into_parts(manifest.labels))?)
}
