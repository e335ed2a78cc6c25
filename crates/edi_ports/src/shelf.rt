//! Shelves of files.
ghost use Rattle.std.specs.Prelude.{◌≡◌, ◌<◌, ◌^◌, List, ℕ, Bool, true, Option, length};
ghost use Rattle.edi_ports.specs.declared.shelf.ShelfFile.{ShelfFile};
ghost use Rattle.edi_ports.specs.Source.{IsTake, IsFailedTake, count_after_take};
ghost use Rattle.edi_ports.specs.Shelf.{IsOpening, IsFailedOpening, count_after_opening, is_opened};

use crate::Taken;
use edi_tables::Chunk;

/// What one call of `open` did: opened the file, found none of that name, or failed.
#[derive(Clone, Copy, Debug, PartialEq, Eq)]
pub enum Opened {
    Open,
    Absent,
    Failed,
}

/// A file of a shelf.
#[derive(Debug, Drop)]
pub struct ShelfFile {
    pub name: Chunk,
    pub octets: Chunk,
}

/// Something that holds files, one of which may be open. No call changes the files.
pub trait Shelf {
    /// Its files, where it tells them; of two files of one name the first counts.
    ghost files: { Self → Option (List ShelfFile) };

    /// The octets that are left of the open file, where the shelf tells them.
    ghost rest: { Self → Option (List ℕ) };

    /// Whether a file is open.
    ghost is_open: { Self → Bool };

    /// How often it has failed: a count that never falls, and stays at 2^64 - 1 once it is there.
    ghost faults: { Self → ℕ };

    /// That none of its calls fails from here on.
    ghost is_steady: { Self → Type 0 };

    /// Opens the file of that name at its first octet; after another answer no file is open.
    /// `Absent` comes only where there is none. At `Failed`, and only there, the count rises.
    fn open(&mut self, name: &[u8]) -> Opened
        ensures opening { IsOpening (files self.old) name.now (rest self.new) result }
        ensures is_open { is_open self.new ≡ is_opened result }
        ensures files { files self.new ≡ files self.old }
        ensures counted { faults self.new ≡ count_after_opening (faults self.old) result }
        ensures steady { is_steady self.old → (IsFailedOpening result → ⊥) × is_steady self.new };

    /// Moves octets of the open file, as a source does.
    fn take(&mut self, buffer: &mut [u8]) -> Taken
        requires open { is_open self.old ≡ true }
        requires some { 0 < length buffer.old }
        ensures taken { IsTake (rest self.old) (rest self.new) buffer.new result }
        ensures is_open { is_open self.new ≡ true }
        ensures files { files self.new ≡ files self.old }
        ensures counted { faults self.new ≡ count_after_take (faults self.old) result }
        ensures steady { is_steady self.old → (IsFailedTake result → ⊥) × is_steady self.new };

    /// The count is a number of 64 bits.
    ghost fits: { (shelf : Self) → faults shelf < 2 ^ 64 };
}
