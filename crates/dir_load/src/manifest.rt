//! Manifests: the labels of a directory, and the files that it is made of.
ghost use Rattle.std.specs.Prelude.{◌≡◌, ◌≤◌, ◌+◌, ◌++◌, ◌∷◌, [], List, length, IfOk, IfSome, OnOk};
ghost use Rattle.dir_load.specs.Counted.{counted_left};
ghost use Rattle.dir_load.specs.Manifest.{is_in_turn as is_in_turn_of, kind_named, kind_place_of, labels_on, file_on, file_faults, faults_on, files_on, manifest_in};
ghost use Rattle.edi_octets.specs.Labels.{HasLabelForms};
ghost use Rattle.edi_octets.specs.DirStop.{fault_in};
ghost use Rattle.edi_tables.specs.First.{IsVerdict, unless_faulty};
ghost use Rattle.edi_octets.specs.Left.{line_shown};
ghost use Rattle.edi_octets.specs.Lines.{Line, pieces_in};
ghost use Rattle.edi_octets.specs.declared.octets.TheConstants.{LONGEST_TEXT};

use crate::counted::CountedLines;
use edi_octets::{DirKind, DirStop, Labels, LineText, four_words, is_name, two_words};
use edi_tables::{Chunk, List};
use std::alloc::{AllocError, Global};

/// The kinds of directory files, in the order in which a manifest names them.
#[derive(Clone, Copy, Debug, PartialEq, Eq)]
pub(crate) enum FileKind {
    Elements,
    Codes,
    Composites,
    Segments,
    Message,
}

/// A file that a manifest names.
#[derive(Debug, Drop)]
pub(crate) struct FileLine {
    pub kind: FileKind,
    pub name: Chunk,
}

/// A manifest: the labels of a directory, and its files in order.
#[derive(Debug, Drop)]
pub(crate) struct Manifest {
    pub labels: Labels,
    pub files: List<FileLine>,
}

/// Reads a manifest of at most 4,194,304 octets: a line `directory VERSION RELEASE AGENCY`, and then one line a file,
/// its kind and its name, separated by one space; lines of spaces alone are skipped. Else the first fault in judging
/// order: `bad-line`, at line 0 where there is no line, or `too-many` at the 401st file.
#[tactic(auto, unfolding(crate::specs::Manifest::manifest_in))]
pub(crate) fn read_manifest(alloc: Global, octets: &[u8]) -> Result<Manifest, DirStop>
    requires { length octets.now ≤ LONGEST_TEXT }
    ensures reads { IsVerdict (λ manifest. manifest) fault_in result (manifest_in octets.now) }
    ensures formed { IfOk result (λ manifest. HasLabelForms manifest.labels) }
    ensures few { IfOk result (λ manifest. length manifest.files ≤ 400) }
{
    let mut lines = CountedLines::of(octets);
    let Some(head) = lines.next() else {
        return Err(DirStop::at(0, DirKind::BadLine));
    };
    let Some(labels) = read_labels(alloc, head.octets)? else {
        return Err(DirStop::at(head.number, DirKind::BadLine));
    };
    let files = read_files(alloc, lines)?;
    Ok(Manifest {
        labels,
        files: List::of(files),
    })
}

// The files of a manifest's later lines.
fn read_files(alloc: Global, lines: CountedLines<'_>) -> Result<Vec<FileLine>, DirStop>
    ensures few { IfOk result (λ files. length files.items ≤ 400) }
    ensures reads { IsVerdict (λ files. files.items) fault_in result
        (unless_faulty (faults_on (counted_left lines.entry))
        (files_on (counted_left lines.entry))) }
{
    let mut files = Vec::new(alloc);
    for line in lines {
        read_line(alloc, &line, &mut files)?;
    }
    Ok(files)
}

// The labels of a manifest's first line.
fn read_labels(alloc: Global, line: &[u8]) -> Result<Option<Labels>, AllocError>
    ensures labels { IfOk result (λ labels. labels ≡ labels_on (pieces_in line.now)) }
    ensures formed { IfOk result (λ labels. IfSome labels HasLabelForms) }
{
    let Some((word, version, release, agency)) = four_words(line) else {
        return Ok(None);
    };
    if word != b"directory".as_slice() {
        return Ok(None);
    }
    Labels::of(alloc, version, release, agency)
}

// The file that a manifest's later line names.
fn read_file_line(alloc: Global, line: &[u8]) -> Result<Option<FileLine>, AllocError>
    ensures { IfOk result (λ file. file ≡ file_on (pieces_in line.now)) }
{
    let Some((word, name)) = two_words(line) else {
        return Ok(None);
    };
    let Some(kind) = read_kind(word) else {
        return Ok(None);
    };
    if !is_name(name) {
        return Ok(None);
    }
    Ok(Some(FileLine {
        kind,
        name: Chunk::of(alloc, name)?,
    }))
}

// The kind that a word names.
fn read_kind(word: &[u8]) -> Option<FileKind>
    ensures { result ≡ kind_named word.now }
{
    if word == b"elements".as_slice() {
        Some(FileKind::Elements)
    } else if word == b"codes".as_slice() {
        Some(FileKind::Codes)
    } else if word == b"composites".as_slice() {
        Some(FileKind::Composites)
    } else if word == b"segments".as_slice() {
        Some(FileKind::Segments)
    } else if word == b"message".as_slice() {
        Some(FileKind::Message)
    } else {
        None
    }
}

impl FileKind {
    // Its place in the order of kinds.
    fn place(self) -> u8
        ensures { result ≡ kind_place_of self }
    {
        match self {
            FileKind::Elements => 0,
            FileKind::Codes => 1,
            FileKind::Composites => 2,
            FileKind::Segments => 3,
            FileKind::Message => 4,
        }
    }
}

// Reads a line after others, whose files are given. Its file joins them.
fn read_line(alloc: Global, line: &LineText<'_>, files: &mut Vec<FileLine>) -> Result<(), DirStop>
    ensures judged { (earlier : List Line)
        → files.old.items ≡ files_on earlier → length files.old.items ≡ length earlier
        → IsVerdict (λ done. done) fault_in result
        (unless_faulty (file_faults earlier (line_shown line.now)) tt) }
    ensures joins { OnOk result
        (files.new.items ≡ files.old.items ++ files_on (line_shown line.now ∷ [])) }
    ensures one { OnOk result (length files.new.items ≡ length files.old.items + 1) }
    ensures few { OnOk result (length files.new.items ≤ 400) }
{
    let Some(file) = read_file_line(alloc, line.octets)? else {
        return Err(DirStop::at(line.number, DirKind::BadLine));
    };
    if !is_in_turn(files, file.kind) {
        return Err(DirStop::at(line.number, DirKind::BadLine));
    }
    if files.len() >= MOST_FILES {
        return Err(DirStop::at(line.number, DirKind::TooMany));
    }
    files.push(file).map_err(AllocError::from)?;
    Ok(())
}

// The most files that a manifest names.
const MOST_FILES: usize = 400;

// Whether a kind doesn't come before that of the last file.
fn is_in_turn(files: &[FileLine], kind: FileKind) -> bool
    ensures { result ≡ is_in_turn_of files.now kind }
{
    match files {
        [.., last] => last.kind.place() <= kind.place(),
        [] => true,
    }
}
