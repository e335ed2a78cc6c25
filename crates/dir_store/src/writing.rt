//! The store of a directory.
ghost use Rattle.std.specs.Prelude.{◌≡◌, ◌++◌, IfOk, OnOk, Ok};
ghost use Rattle.dir_compile.specs.declared.parts.Parts.{Parts};
ghost use Rattle.dir_compile.specs.Directory.{IsDirectory};
ghost use Rattle.dir_store.specs.Spelling.{IsCountable, labels_text, store_text};
ghost use Rattle.dir_store.specs.Store.{store_of};

use crate::entry::put_listed;
use dir_compile::{Directory, Parts};
use edi_tables::Chunk;
use std::alloc::{AllocError, Global};

/// The one spelling of a directory that is written, in version 2. It may have more octets than a store that is read may
/// have.
pub fn write_store(alloc: Global, dir: &Directory) -> Result<Chunk, AllocError>
    ensures spells { IfOk result (λ text. text ≡ store_text dir.now) }

    // What is spelled is read again, and no other directory is spelled so.
    ensures again { IsCountable (store_text dir.now) → store_of (store_text dir.now) ≡ Ok dir.now }
    ensures once { (other : Parts) → IsDirectory other → IsCountable (store_text dir.now)
        → store_text other ≡ store_text dir.now → other ≡ dir.now }
{
    spell(alloc, dir.parts())
}

// The spelling of these parts.
#[tactic(auto, unfolding(crate::specs::Spelling::spelling_of))]
fn spell(alloc: Global, parts: &Parts) -> Result<Chunk, AllocError>
    ensures { IfOk result (λ text. text ≡ store_text parts.now) }
{
    let mut out = Chunk::empty(alloc);
    out.add(b"EDIDIR2\n")?;
    put_labels(&mut out, parts)?;
    put_listed(&mut out, b"E", parts.elements.items())?;
    put_listed(&mut out, b"L", parts.lists.items())?;
    put_listed(&mut out, b"C", parts.composites.items())?;
    put_listed(&mut out, b"S", parts.segments.items())?;
    put_listed(&mut out, b"T", parts.messages.items())?;
    Ok(out)
}

// The line of the labels.
fn put_labels(out: &mut Chunk, parts: &Parts) -> Result<(), AllocError>
    ensures { OnOk result (out.new ≡ out.old ++ labels_text parts.now) }
{
    out.add(parts.version.octets())?;
    out.add(b" ")?;
    out.add(parts.release.octets())?;
    out.add(b" ")?;
    out.add(parts.agency.octets())?;
    out.add(b"\n")
}
