//! The cells of a line: its longest parts without a space.
ghost use Rattle.std.specs.Prelude.{◌≡◌, ◌≤◌, ◌==◌, length, drop};
ghost use Rattle.std.specs.List.{prefix_len, position_or_len};

/// The cells of a line that are left, in order. It takes no memory, and a copy goes on from the same place.
#[derive(Clone, Copy, Debug)]
pub struct Cells<'a> {
    rest: &'a [u8],
}

impl Cells<'_> {
    ghost use Rattle.edi_octets.specs.Lines.{cells_of};
    ghost use Rattle.edi_octets.specs.Left.{cells_left};

    /// The cells of a line.
    pub fn of(line: &[u8]) -> Cells<'_>
        ensures { cells_left result ≡ cells_of line.now }
    {
        Cells { rest: line }
    }
}

impl<'a> Iterator for Cells<'a> {
    ghost use Rattle.std.specs.Iterator.{YieldsFirstRef, item_count};
    ghost use Rattle.edi_octets.specs.Left.{cells_left};

    type Item = &'a [u8];

    ghost next_gives = { YieldsFirstRef cells_left };

    ghost remaining = { item_count cells_left };

    fn next(&mut self) -> Option<&'a [u8]> {
        let behind = skip_spaces(self.rest);
        let (cell, rest) = behind.split_at(first_space(behind));
        self.rest = rest;
        if cell.is_empty() { None } else { Some(cell) }
    }
}

/// How many spaces a line begins with.
pub(crate) fn spaces_in_front(line: &[u8]) -> usize
    ensures front { result ≡ prefix_len (λ x. x == 32) line.now }
    ensures within { result ≤ length line.now }
{
    line.iter().take_while(|octet| **octet == b' ').count()
}

/// What is after the spaces that a line begins with.
fn skip_spaces(line: &[u8]) -> &[u8]
    ensures { result.now ≡ drop (prefix_len (λ x. x == 32) line.now) line.now }
{
    &line[spaces_in_front(line)..]
}

/// Where the first space is; the line's length where there is none. Words are short: octets are looked at one by one.
pub(crate) fn first_space(line: &[u8]) -> usize
    ensures place { result ≡ position_or_len (λ x. x == 32) line.now }
    ensures within { result ≤ length line.now }
{
    line.iter().take_while(|octet| **octet != b' ').count()
}
