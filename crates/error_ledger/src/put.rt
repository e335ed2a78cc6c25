//! What both printed lists are made of.
ghost use Rattle.std.specs.Prelude.{[], ◌≡◌, ◌∷◌, ◌++◌, IfOk, OnOk, codes, decimal};
ghost use Rattle.error_ledger.specs.Printing.{tag_shown};

use edi_octets::put_decimal;
use edi_tables::{Chunk, Tag};
use std::alloc::{AllocError, Global};

/// Room for the line of a word and a count: words have at most 6 octets, and a count at most 20 digits.
const COUNT_LINE_ROOM: usize = 32;

/// No octets, with room for the line of the count and so many lines of so many octets each.
pub(crate) fn room_for_lines(
    alloc: Global,
    lines: usize,
    octets: usize,
) -> Result<Chunk, AllocError>
    ensures { IfOk result (λ c. c ≡ []) }
{
    let room = lines.saturating_mul(octets).saturating_add(COUNT_LINE_ROOM);
    Chunk::with_room(alloc, room)
}

/// A number and a space.
pub(crate) fn put_number(out: &mut Chunk, n: u32) -> Result<(), AllocError>
    ensures { OnOk result (out.new ≡ out.old ++ (decimal n ++ codes " ")) }
{
    put_decimal(out, u64::from(n))?;
    out.add(b" ")
}

/// What `tag_octets` gives.
pub(crate) fn put_tag(out: &mut Chunk, tag: Option<Tag>, end: u8) -> Result<(), AllocError>
    ensures { OnOk result (out.new ≡ out.old ++ (codes " " ++ tag_shown tag ++ end ∷ [])) }
{
    out.add(&tag_octets(tag, end))
}

/// A space, a tag, or `---` where there is none, and the octet that ends it.
#[inline]
pub(crate) fn tag_octets(tag: Option<Tag>, end: u8) -> [u8; 5]
    ensures { result ≡ codes " " ++ tag_shown tag ++ end ∷ [] }
{
    match tag {
        Some(tag) => {
            let [first, second, third] = tag.octets;
            [b' ', first, second, third, end]
        }
        None => [b' ', b'-', b'-', b'-', end],
    }
}
