//! A shelf in memory.
ghost use Rattle.std.specs.Prelude.{◌≡◌, ◌<◌, ◌^◌, [], true, false, Some, None, length, IfSome, MatchOption};
ghost use Rattle.edi_ports.specs.Source.{IsTake, IsFailedTake, count_after_take};
ghost use Rattle.edi_ports.specs.Shelf.{IsOpening, IsFailedOpening, count_after_opening, is_opened, file_named};
ghost use Rattle.edi_ports.specs.Place.{IsPlaced, octets_at};

use crate::memory::calls::{Calls, copy_front};
use crate::{Opened, Shelf, ShelfFile, Taken};

// The file that is open, by its place among the files, and its next octet.
#[derive(Clone, Copy, Debug)]
pub(crate) struct OpenFile {
    pub(crate) file: usize,
    pub(crate) from: usize,
}

/// A shelf in memory: it gives at most `most` octets per call, and fails at the calls that `failing` numbers, from 0;
/// openings and takes are numbered together. Of two files of one name the first counts.
#[derive(Debug, Drop)]
pub struct MemShelf {
    files: Vec<ShelfFile>,
    most: usize,
    calls: Calls,
    place: Option<OpenFile>,
    ghost moves: { 0 < most },
    ghost fits: { calls.faults < 2 ^ 64 },
    ghost placed: { IsPlaced files.items place },
}

impl MemShelf {
    ghost use Rattle.edi_ports.specs.MemShelf.{IsMade, files_of};

    /// A shelf with these files, none of them open. `most` is at least 1.
    pub fn new(files: Vec<ShelfFile>, most: usize, failing: Vec<u64>) -> MemShelf
        requires { 0 < most }
        ensures files { ⟦<MemShelf as Shelf>⟧.files result ≡ Some files.items }
        ensures shut { ⟦<MemShelf as Shelf>⟧.is_open result ≡ false }
        ensures made { IsMade most failing result }
        ensures faults { ⟦<MemShelf as Shelf>⟧.faults result ≡ 0 }
        ensures steady { failing.items ≡ [] → ⟦<MemShelf as Shelf>⟧.is_steady result }
    {
        MemShelf {
            files,
            most,
            calls: Calls::new(failing),
            place: None,
        }
    }
}

impl Shelf for MemShelf {
    ghost use Rattle.edi_ports.specs.MemShelf.{files_of, rest_of, is_open_of, faults_of, IsSteady, opened_next, taken_next, IsNextCall};

    ghost files = { λ s. Some (files_of s) };

    ghost rest = { λ s. Some (rest_of s) };

    ghost is_open = { is_open_of };

    ghost faults = { faults_of };

    ghost is_steady = { IsSteady };

    ghost fits = { λ shelf. shelf.fits };

    fn open(&mut self, name: &[u8]) -> Opened
        ensures opening { IsOpening (Some (files_of self.old)) name.now
            (Some (rest_of self.new)) result }
        ensures is_open { is_open_of self.new ≡ is_opened result }
        ensures files { Some (files_of self.new) ≡ Some (files_of self.old) }
        ensures counted { faults_of self.new ≡ count_after_opening (faults_of self.old) result }
        ensures steady { IsSteady self.old → (IsFailedOpening result → ⊥) × IsSteady self.new }
        ensures exact { result ≡ opened_next self.old name.now }
        ensures next { IsNextCall self.old self.new }
    {
        self.place = None;
        if self.calls.next_fails() {
            return Opened::Failed;
        }
        match position_of(&self.files, name) {
            None => Opened::Absent,
            Some(file) => {
                self.place = Some(OpenFile { file, from: 0 });
                Opened::Open
            }
        }
    }

    fn take(&mut self, buffer: &mut [u8]) -> Taken
        requires open { is_open_of self.old ≡ true }
        requires some { 0 < length buffer.old }
        ensures taken { IsTake (Some (rest_of self.old)) (Some (rest_of self.new))
            buffer.new result }
        ensures is_open { is_open_of self.new ≡ true }
        ensures files { Some (files_of self.new) ≡ Some (files_of self.old) }
        ensures counted { faults_of self.new ≡ count_after_take (faults_of self.old) result }
        ensures steady { IsSteady self.old → (IsFailedTake result → ⊥) × IsSteady self.new }
        ensures exact { result ≡ taken_next self.old (length buffer.old) }
        ensures next { IsNextCall self.old self.new }
    {
        if self.calls.next_fails() {
            return Taken::Failed;
        }
        let place = self.place.unwrap();
        let octets = file_octets(&self.files, place.file);
        let left = octets.len() - place.from;
        if left == 0 {
            return Taken::End;
        }
        let n = left.min(self.most).min(buffer.len());
        copy_front(buffer, &octets[place.from..place.from + n]);
        self.place = Some(OpenFile {
            file: place.file,
            from: place.from + n,
        });
        Taken::Got(n)
    }
}

// The first file of that name, by its place.
fn position_of(files: &[ShelfFile], name: &[u8]) -> Option<usize>
    ensures found { IfSome result (λ i. (i < length files.now)
        × (file_named name.now files.now ≡ Some (octets_at files.now i))) }
    ensures none { result ≡ None → file_named name.now files.now ≡ None }
{
    for (i, file) in files.iter().enumerate() {
        if file.name.octets() == name {
            return Some(i);
        }
    }
    None
}

// The octets of the file at that place.
fn file_octets(files: &[ShelfFile], file: usize) -> &[u8]
    requires { file < length files.now }
    ensures { result.now ≡ octets_at files.now file }
{
    files[file].octets.octets()
}
