//! Definitions gathered from files.
ghost use Rattle.std.specs.Prelude.{◌≡◌, ◌≤◌, ◌+◌, ℕ, List as Members, Some, IfOk, IsErrOf, OnOk, length};
ghost use Rattle.std.specs.Result.{result_map_both};
ghost use Rattle.edi_tables.specs.First.{IsVerdict, unless_faulty};
ghost use Rattle.edi_ports.specs.declared.shelf.ShelfFile.{ShelfFile};
ghost use Rattle.edi_ports.specs.Faults.{IsFair};
ghost use Rattle.dir_load.specs.declared.stop.FileFault.TheVariants.{Grammar};
ghost use Rattle.dir_load.specs.Gathered.{Appends, IsFormed, found_of, joined};
ghost use Rattle.dir_load.specs.Load.{found_in_file, found_by, found_on, nothing, parts_with, refusals_of};
ghost use Rattle.dir_load.specs.Stop.{file_fault_in, refusal_in};
ghost use Rattle.edi_octets.specs.declared.octets.TheConstants.{LONGEST_TEXT};

use crate::LoadStop;
use crate::manifest::{FileKind, FileLine};
use crate::stop::FileStop;
use dir_compile::Parts;
use dir_lists::{read_codes, read_elements};
use dir_messages::read_message;
use dir_segments::{read_composites, read_segments};
use edi_octets::{DirStop, LONGEST_TEXT, Labels};
use edi_ports::{Shelf, read_named};
use edi_tables::{CodeList, CompositeDef, ElementDef, List, MessageDef, SegmentDef};
use std::alloc::Global;

/// What the files so far define, each kind in the order of the files.
#[derive(Drop)]
pub struct Gathered {
    pub elements: Vec<ElementDef>,
    pub lists: Vec<CodeList>,
    pub composites: Vec<CompositeDef>,
    pub segments: Vec<SegmentDef>,
    pub messages: Vec<MessageDef>,
}

/// What the files of these lines define, read in their order.
pub fn gather_files<S: Shelf>(
    alloc: Global,
    shelf: &mut S,
    lines: &[FileLine],
) -> Result<Gathered, LoadStop>
    ensures gathers { (files : Members ShelfFile) → S.files shelf.old ≡ Some files
        → IsVerdict found_of refusal_in result
        (unless_faulty (refusals_of files lines.now) (found_on files lines.now)) }
    ensures formed { IfOk result (IsFormed (length lines.now)) }
    ensures files { S.files shelf.new ≡ S.files shelf.old }
    ensures fair { IsFair S.faults S.is_steady shelf.old shelf.new (IsErrOf result LoadStop.Fault) }
{
    let mut gathered = Gathered::new(alloc);
    for line in lines {
        if let Err(stop) = gathered.add_file(alloc, shelf, line) {
            return Err(stop.at_file(alloc, line.name.octets()));
        }
    }
    Ok(gathered)
}

impl Gathered {
    // Nothing yet.
    fn new(alloc: Global) -> Gathered
        ensures none { found_of result ≡ nothing }
        ensures formed { IsFormed 0 result }
    {
        Gathered {
            elements: Vec::new(alloc),
            lists: Vec::new(alloc),
            composites: Vec::new(alloc),
            segments: Vec::new(alloc),
            messages: Vec::new(alloc),
        }
    }

    // Reads the file that a line of a manifest names, and adds what it defines.
    fn add_file<S: Shelf>(
        &mut self,
        alloc: Global,
        shelf: &mut S,
        line: &FileLine,
    ) -> Result<(), FileStop>
        ensures adds { (files : Members ShelfFile) → S.files shelf.old ≡ Some files
            → IsVerdict (λ _. found_of self.new) file_fault_in result
            (result_map_both (joined (found_of self.old)) (λ fault. fault)
            (found_in_file files self.old.composites.items line.now)) }
        ensures formed { (most : ℕ) → IsFormed most self.old
            → OnOk result (IsFormed (most + 1) self.new) }
        ensures files { S.files shelf.new ≡ S.files shelf.old }
        ensures fair { IsFair S.faults S.is_steady shelf.old shelf.new
            (IsErrOf result FileStop.Fault) }
    {
        let octets = read_named(alloc, shelf, line.name.octets(), LONGEST_TEXT)?;
        self.add_octets(alloc, line.kind, &octets)
    }

    // Adds what a file of that kind defines. A segment file is read with the composites so far.
    fn add_octets(&mut self, alloc: Global, kind: FileKind, octets: &[u8]) -> Result<(), FileStop>
        requires { length octets.now ≤ LONGEST_TEXT }
        ensures adds { IsVerdict (λ _. found_of self.new) file_fault_in result
            (result_map_both (joined (found_of self.old)) Grammar
            (found_by kind self.old.composites.items octets.now)) }
        ensures formed { (most : ℕ) → IsFormed most self.old
            → OnOk result (IsFormed (most + 1) self.new) }
        ensures unfailing { IsErrOf result FileStop.Fault → ⊥ }
    {
        match kind {
            FileKind::Elements => append(&mut self.elements, read_elements(alloc, octets)),
            FileKind::Codes => append(&mut self.lists, read_codes(alloc, octets)),
            FileKind::Composites => append(&mut self.composites, read_composites(alloc, octets)),
            FileKind::Segments => {
                let read = read_segments(alloc, octets, &self.composites);
                append(&mut self.segments, read)
            }
            FileKind::Message => self.add_message(alloc, octets),
        }
    }

    // Adds the message of a message file.
    fn add_message(&mut self, alloc: Global, octets: &[u8]) -> Result<(), FileStop>
        requires { length octets.now ≤ LONGEST_TEXT }
        ensures adds { IsVerdict (λ _. found_of self.new) file_fault_in result
            (result_map_both (joined (found_of self.old)) Grammar
            (found_by FileKind.Message self.old.composites.items octets.now)) }
        ensures formed { (most : ℕ) → IsFormed most self.old
            → OnOk result (IsFormed (most + 1) self.new) }
        ensures unfailing { IsErrOf result FileStop.Fault → ⊥ }
    {
        let message = read_message(alloc, octets)?;
        self.messages.push(message)?;
        Ok(())
    }

    /// The parts of a directory with these labels.
    pub fn into_parts(self, labels: Labels) -> Parts
        ensures { result ≡ parts_with labels (found_of self) }
    {
        Parts {
            version: labels.version,
            release: labels.release,
            agency: labels.agency,
            elements: List::of(self.elements),
            lists: List::of(self.lists),
            composites: List::of(self.composites),
            segments: List::of(self.segments),
            messages: List::of(self.messages),
        }
    }
}

// Puts the definitions of a file after those of the files before.
fn append<T: Drop>(all: &mut Vec<T>, read: Result<Vec<T>, DirStop>) -> Result<(), FileStop>
    ensures { Appends read all.old.items all.new.items result }
{
    let mut found = read?;
    all.append(&mut found)?;
    Ok(())
}
