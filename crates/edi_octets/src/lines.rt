//! The lines of a file, and what is in a line.
ghost use Rattle.std.specs.Prelude.{◌≡◌, ℕ, ◌+◌, ◌<◌, ◌≤◌, ◌∷◌, length, drop, if◌then◌else◌};
ghost use Rattle.edi_octets.specs.Lines.{lines_from, without_return};
ghost use Rattle.edi_octets.specs.Profile.{is_marked, marks_of};
ghost use Rattle.edi_octets.specs.declared.octets.TheConstants.{LONGEST_TEXT};

use crate::cells::{Cells, spaces_in_front};
use crate::fault::{DirFault, DirKind, DirStop};
use crate::profile::{is_mark, is_rule};
use memchr::memchr;

/// The most marks in front of a line that are read as spaces.
const MOST_MARKS: usize = 3;

/// A line and its number, from 1.
#[derive(Clone, Copy, Debug)]
pub struct LineText<'a> {
    pub number: u32,
    pub octets: &'a [u8],
}

/// The lines of a file that are left. It takes no memory, and a copy goes on from the same place.
#[derive(Clone, Copy, Debug)]
pub struct Lines<'a> {
    number: u32,
    rest: &'a [u8],
    ghost few: { number + length rest.now ≤ 4194305 },
}

impl Lines<'_> {
    ghost use Rattle.edi_octets.specs.Lines.{lines_of};
    ghost use Rattle.edi_octets.specs.Left.{lines_left};

    /// The lines of a file of at most 4,194,304 octets, numbered from 1. LF ends a line, and one CR
    /// before it is dropped; a last line without LF is a line where it isn't empty.
    pub fn of(file: &[u8]) -> Lines<'_>
        requires { length file.now ≤ LONGEST_TEXT }
        ensures lines { lines_left result ≡ lines_of file.now }
        ensures few { length (lines_left result) ≤ length file.now }
    {
        Lines {
            number: 1,
            rest: file,
        }
    }
}

impl<'a> Iterator for Lines<'a> {
    ghost use Rattle.std.specs.Iterator.{YieldsFirstBy, item_count};
    ghost use Rattle.edi_octets.specs.Left.{line_shown, lines_left};

    type Item = LineText<'a>;

    ghost next_gives = { YieldsFirstBy line_shown lines_left };

    ghost remaining = { item_count lines_left };

    fn next(&mut self) -> Option<LineText<'a>> {
        if self.rest.is_empty() {
            return None;
        }
        let (octets, rest) = cut_line(self.rest);
        let number = self.number;
        self.number = number + 1;
        self.rest = rest;
        Some(LineText { number, octets })
    }
}

/// The first line of a text that isn't empty, without its end, and what is after its end.
fn cut_line(text: &[u8]) -> (&[u8], &[u8])
    requires { 0 < length text.now }
    ensures line { (n : ℕ) → lines_from n text.now
        ≡ record { number = n; octets = result.0.now } ∷ lines_from (n + 1) result.1.now }
    ensures shorter { length result.1.now < length text.now }
{
    match memchr(b'\n', text) {
        Some(end) => (before_return(&text[..end]), &text[end + 1..]),
        None => (text, &[]),
    }
}

/// A line without the one CR at its end.
fn before_return(line: &[u8]) -> &[u8]
    ensures { result.now ≡ without_return line.now }
{
    match line {
        [before @ .., b'\r'] => before,
        _ => line,
    }
}

impl<'a> LineText<'a> {
    ghost use Rattle.edi_octets.specs.declared.fault.DirStop.TheVariants.{Fault};
    ghost use Rattle.edi_octets.specs.DirStop.{at_line};
    ghost use Rattle.std.specs.Prelude.{◌≡◌, true};
    ghost use Rattle.edi_octets.specs.Head.{is_code_and_name};
    ghost use Rattle.edi_octets.specs.Profile.{begins_with_word, fields_of, first_field, indentation_of, is_written, is_separator};
    ghost use Rattle.edi_octets.specs.Left.{line_shown, cells_left};

    /// The fields of the line: its cells, once marks in front are read as spaces.
    pub fn fields(&self) -> Cells<'a>
        ensures { cells_left result ≡ fields_of self.now.octets.now }
    {
        Cells::of(behind_marks(self.octets))
    }

    /// How many spaces the line begins with, marks in front read as spaces.
    pub fn indentation(&self) -> usize
        ensures { result ≡ indentation_of self.now.octets.now }
    {
        let behind = behind_marks(self.octets);
        self.octets.len() - behind.len() + spaces_in_front(behind)
    }

    /// Whether the line has a field.
    pub fn is_written(&self) -> bool
        ensures { result ≡ is_written (line_shown self.now) }
    {
        self.fields().next().is_some()
    }

    /// The first field of the line; no octet where the line has no field.
    pub fn first_field(&self) -> &'a [u8]
        ensures { result.now ≡ first_field (fields_of self.now.octets.now) }
    {
        self.fields().next().unwrap_or(&[])
    }

    /// Whether the line's first field is this word.
    pub fn begins_with(&self, word: &[u8]) -> bool
        ensures { result ≡ begins_with_word word.now (fields_of self.now.octets.now) }
    {
        self.first_field() == word
    }

    /// Whether the line has a field after its first: a code has a name there.
    pub fn has_name(&self) -> bool
        ensures { result ≡ is_code_and_name (λ _. true) (fields_of self.now.octets.now) }
    {
        let mut fields = self.fields();
        matches!((fields.next(), fields.next()), (Some(_), Some(_)))
    }

    /// The stop for a rule that the line breaks.
    pub fn breaks(&self, kind: DirKind) -> DirStop
        ensures { result ≡ Fault (at_line kind (line_shown self.now)) }
    {
        DirStop::Fault(DirFault {
            line: self.number,
            kind,
        })
    }

    /// Whether the line is a separator: one field of ten or more `-`.
    pub fn is_separator(&self) -> bool
        ensures { result ≡ is_separator (line_shown self.now) }
    {
        let mut fields = self.fields();
        match (fields.next(), fields.next()) {
            (Some(field), None) => is_rule(field),
            _ => false,
        }
    }
}

/// What is after the marks in front of a line, where those are read as spaces; else the line.
fn behind_marks(line: &[u8]) -> &[u8]
    ensures { result.now
        ≡ (if is_marked line.now then drop (marks_of line.now) line.now else line.now) }
{
    let marks = marks_in_front(line);
    if marks <= MOST_MARKS && (marks == line.len() || line[marks] == b' ') {
        &line[marks..]
    } else {
        line
    }
}

/// How many marks a line begins with.
fn marks_in_front(line: &[u8]) -> usize
    ensures front { result ≡ marks_of line.now }
    ensures within { result ≤ length line.now }
{
    line.iter().take_while(|octet| is_mark(**octet)).count()
}
