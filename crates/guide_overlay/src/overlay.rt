//! The directory that a guide makes of another.
ghost use Rattle.std.specs.Prelude.{◌≡◌, ◌≤◌, [], length, IfOk};
ghost use Rattle.dir_compile.specs.Directory.{IsDirectory};
ghost use Rattle.edi_octets.specs.declared.octets.TheConstants.{LONGEST_TEXT};
ghost use Rattle.edi_tables.specs.First.{IsVerdict};
ghost use Rattle.edi_tables.specs.Octets.{Octets};
ghost use Rattle.text_reading.specs.Errors.{errors_of};
ghost use Rattle.guide_overlay.specs.Guide.{narrow_of, narrowed};
ghost use Rattle.guide_overlay.specs.Kept.{IsGuideReading, sections_seen};
ghost use Rattle.guide_overlay.specs.Narrowed.{HasNoCollision};
ghost use Rattle.guide_overlay.specs.Narrowing.{AreNarrowing};
ghost use Rattle.guide_overlay.specs.Stop.{fault_in};

use crate::judge::read_guide;
use crate::lists::narrow_lists;
use crate::members::{narrow_composites, narrow_segments};
use crate::sections::Reading;
use crate::stop::GuideStop;
use crate::tables::narrow_messages;
use dir_compile::{Directory, Parts};
use edi_tables::{Chunk, List};
use std::alloc::{AllocError, Global};

/// The directory that a guide makes of this one, or the guide's first fault. A guide has at most 4 MiB.
///
/// It is no less strict: a text without an error by the new directory has none by this one, if the segment tables of
/// this one that the text uses list no collision.
pub fn narrow(alloc: Global, dir: &Directory, file: &[u8]) -> Result<Directory, GuideStop>
    requires { length file.now ≤ LONGEST_TEXT }
    ensures narrowed { IsVerdict (λ narrower. narrower) fault_in result
        (narrow_of dir.now file.now) }
    ensures sound { IfOk result (λ narrower. (text : Octets) → errors_of narrower text ≡ []
        → HasNoCollision dir.now text → errors_of dir.now text ≡ []) }
{
    let reading = read_guide(alloc, dir.parts(), file)?;
    let parts = narrow_parts(alloc, dir, &reading)?;
    Ok(Directory::of(alloc, parts)?)
}

// The parts of a directory as a guide has them.
fn narrow_parts(alloc: Global, dir: &Directory, reading: &Reading<'_>) -> Result<Parts, AllocError>
    requires directory { IsDirectory dir.now }
    requires kept { IsGuideReading reading.now }
    requires narrowing { AreNarrowing dir.now (sections_seen reading.now) }
    ensures { IfOk result (λ parts. parts ≡ narrowed (sections_seen reading.now) dir.now) }
{
    let parts = dir.parts();
    Ok(Parts {
        version: Chunk::of(alloc, parts.version.octets())?,
        release: Chunk::of(alloc, parts.release.octets())?,
        agency: Chunk::of(alloc, parts.agency.octets())?,
        elements: List::of(parts.elements.items().to_vec(alloc)?),
        lists: narrow_lists(alloc, parts, reading)?,
        composites: narrow_composites(alloc, parts, reading)?,
        segments: narrow_segments(alloc, parts, reading)?,
        messages: narrow_messages(alloc, dir, reading)?,
    })
}
