//! The lines of a manifest that count.
ghost use Rattle.std.specs.Prelude.{◌≡◌, ◌==◌};
ghost use Rattle.std.specs.List.{list_all};
ghost use Rattle.edi_octets.specs.Left.{line_shown};
ghost use Rattle.dir_load.specs.Manifest.{is_counted as is_counted_of};
ghost use Rattle.edi_octets.specs.declared.octets.TheConstants.{LONGEST_TEXT};

use edi_octets::{LineText, Lines};

/// The lines of a manifest that are left, except those of spaces alone. A copy goes on from the same place.
#[derive(Clone, Copy, Debug)]
pub struct CountedLines<'a> {
    lines: Lines<'a>,
}

impl CountedLines<'_> {
    ghost use Rattle.std.specs.Prelude.{◌≡◌, ◌≤◌, filter, length};
    ghost use Rattle.edi_octets.specs.Lines.{lines_of};
    ghost use Rattle.dir_load.specs.Manifest.{is_counted};
    ghost use Rattle.dir_load.specs.Counted.{counted_left};

    /// The lines of a manifest of at most 4,194,304 octets.
    pub fn of(octets: &[u8]) -> CountedLines<'_>
        requires { length octets.now ≤ LONGEST_TEXT }
        ensures { counted_left result ≡ filter is_counted (lines_of octets.now) }
    {
        CountedLines {
            lines: Lines::of(octets),
        }
    }
}

impl<'a> Iterator for CountedLines<'a> {
    ghost use Rattle.std.specs.Iterator.{YieldsFirstBy, item_count};
    ghost use Rattle.edi_octets.specs.Left.{line_shown};
    ghost use Rattle.dir_load.specs.Counted.{counted_left};

    type Item = LineText<'a>;

    ghost next_gives = { YieldsFirstBy line_shown counted_left };

    ghost remaining = { item_count counted_left };

    fn next(&mut self) -> Option<LineText<'a>> {
        while let Some(line) = self.lines.next() {
            if is_counted(&line) {
                return Some(line);
            }
        }
        None
    }
}

// Whether a line has an octet that isn't a space.
fn is_counted(line: &LineText<'_>) -> bool
    ensures { result ≡ is_counted_of (line_shown line.now) }
{
    !is_blank(line.octets)
}

fn is_blank(octets: &[u8]) -> bool
    ensures { result ≡ list_all (λ x. x == 32) octets.now }
{
    octets.iter().all(|octet| *octet == b' ')
}
