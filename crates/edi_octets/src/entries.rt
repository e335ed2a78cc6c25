//! The entries of a file: what is after its first separator, cut at separators.
ghost use Rattle.std.specs.Prelude.{◌≡◌, ◌≤◌, length};
ghost use Rattle.std.specs.List.{after_first};
ghost use Rattle.edi_octets.specs.Profile.{is_separator};
ghost use Rattle.edi_octets.specs.Left.{lines_left};
ghost use Rattle.edi_octets.specs.declared.octets.TheConstants.{LONGEST_TEXT};

use crate::lines::{LineText, Lines};

/// An entry: its head, which is its first line that isn't blank, and the lines after the head.
#[derive(Clone, Copy, Debug)]
pub struct Entry<'a> {
    pub head: LineText<'a>,
    pub body: Body<'a>,
}

/// The lines of an entry that are left, without the blank ones. It takes no memory, and a copy goes on
/// from the same place.
#[derive(Clone, Copy, Debug)]
pub struct Body<'a> {
    lines: Lines<'a>,
}

/// The entries of a file that are left. It takes no memory, and a copy goes on from the same place.
#[derive(Clone, Copy, Debug)]
pub struct Entries<'a> {
    lines: Lines<'a>,
}

impl Entries<'_> {
    ghost use Rattle.std.specs.Prelude.{◌≡◌, ◌≤◌, length};
    ghost use Rattle.edi_octets.specs.Lines.{lines_of};
    ghost use Rattle.edi_octets.specs.Profile.{entries_of};
    ghost use Rattle.edi_octets.specs.Left.{entries_left};

    /// The entries of a file of at most 4,194,304 octets.
    pub fn of(file: &[u8]) -> Entries<'_>
        requires { length file.now ≤ LONGEST_TEXT }
        ensures entries { entries_left result ≡ entries_of (lines_of file.now) }
        ensures few { length (entries_left result) ≤ length file.now }
    {
        Entries {
            lines: behind_separator(Lines::of(file)),
        }
    }
}

impl<'a> Iterator for Entries<'a> {
    ghost use Rattle.std.specs.Iterator.{YieldsFirstBy, item_count};
    ghost use Rattle.edi_octets.specs.Left.{entry_shown, entries_left};

    type Item = Entry<'a>;

    ghost next_gives = { YieldsFirstBy entry_shown entries_left };

    ghost remaining = { item_count entries_left };

    fn next(&mut self) -> Option<Entry<'a>> {
        while let Some(head) = self.lines.next() {
            if head.is_written() && !head.is_separator() {
                let body = Body { lines: self.lines };
                self.lines = behind_separator(self.lines);
                return Some(Entry { head, body });
            }
        }
        None
    }
}

impl<'a> Iterator for Body<'a> {
    ghost use Rattle.std.specs.Iterator.{YieldsFirstBy, item_count};
    ghost use Rattle.edi_octets.specs.Left.{line_shown, body_left};

    type Item = LineText<'a>;

    ghost next_gives = { YieldsFirstBy line_shown body_left };

    ghost remaining = { item_count body_left };

    fn next(&mut self) -> Option<LineText<'a>> {
        let mut ahead = self.lines;
        while let Some(line) = ahead.next() {
            if line.is_separator() {
                return None;
            }
            self.lines = ahead;
            if line.is_written() {
                return Some(line);
            }
        }
        None
    }
}

/// The lines after the next separator; no line where there is none.
fn behind_separator(lines: Lines<'_>) -> Lines<'_>
    ensures { lines_left result ≡ after_first is_separator (lines_left lines.entry) }
{
    let mut behind = lines;
    while let Some(line) = behind.next() {
        if line.is_separator() {
            break;
        }
    }
    behind
}
