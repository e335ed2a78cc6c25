//! The tags that bound messages.
ghost use Rattle.std.specs.Prelude.{◌≡◌, ◌∷◌, ℕ, true, [], codes};
ghost use Rattle.std.specs.List.{list_any};
ghost use Rattle.edi_tables.specs.Rows.{has_name};
ghost use Rattle.segment_records.specs.Bounds.{bounds_message as bounds_message_of, stops_message as stops_message_of};

use edi_tables::Tag;

/// Whether a segment has the tag of this name.
pub fn is_named(name: &[u8; 3], tag: Option<Tag>) -> bool
    ensures { result ≡ has_name name.now tag }
{
    match tag {
        Some(tag) => tag.octets == *name,
        None => false,
    }
}

/// Whether a segment with this tag is in no message, as UNB, UNG, UNE and UNZ.
pub fn is_no_part(tag: Option<Tag>) -> bool
    ensures { result
        ≡ list_any (λ name. has_name name tag)
        (codes "UNB" ∷ codes "UNG" ∷ codes "UNE" ∷ codes "UNZ" ∷ []) }
{
    is_named(b"UNB", tag) || is_named(b"UNG", tag) || is_named(b"UNE", tag) || is_named(b"UNZ", tag)
}

/// Whether a segment with this tag opens a message, or is in none.
pub fn bounds_message(tag: Option<Tag>) -> bool
    ensures { result ≡ bounds_message_of tag }
{
    is_named(b"UNH", tag) || is_no_part(tag)
}

/// Whether a segment with this tag stops a message: UNT, UNH, UNE, UNG, UNZ and UNB do.
#[inline(always)]
pub fn stops_message(tag: Option<Tag>) -> bool
    ensures { result ≡ stops_message_of tag }
{
    // Most tags show by their first letter that they don't.
    begins_so(b'U', tag) && (is_named(b"UNT", tag) || is_named(b"UNH", tag) || is_no_part(tag))
}

// Whether a segment has a tag that begins with this letter.
#[inline(always)]
fn begins_so(letter: u8, tag: Option<Tag>) -> bool
    ensures { (second third : ℕ)
        → has_name (letter ∷ second ∷ third ∷ []) tag ≡ true
        → result ≡ true }
{
    match tag {
        Some(tag) => tag.octets[0] == letter,
        None => false,
    }
}
