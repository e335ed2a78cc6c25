//! Segment tags.
ghost use Rattle.std.specs.Prelude.{◌≡◌};
ghost use Rattle.edi_tables.specs.Tag.{is_tag_of, is_tag_octet_of};

/// A segment tag: three octets of `A` to `Z` and `0` to `9`, the first a letter.
#[derive(Clone, Copy, Debug, PartialEq, Eq, PartialOrd, Ord, Hash)]
pub struct Tag {
    pub octets: [u8; 3],
}

impl Tag {
    ghost use Rattle.std.specs.Prelude.{Some, None, if◌then◌else◌};

    /// The tag that these octets are, if they are one.
    pub fn read(part: &[u8]) -> Option<Tag>
        ensures { result
            ≡ (if is_tag_of part.now then Some (record { octets = part.now }) else None) }
    {
        match part {
            [first, second, third] if is_tag(part) => Some(Tag {
                octets: [*first, *second, *third],
            }),
            _ => None,
        }
    }
}

/// Whether these octets are a tag: three octets of `A` to `Z` and `0` to `9`, the first a letter.
pub fn is_tag(part: &[u8]) -> bool
    ensures { result ≡ is_tag_of part.now }
{
    match part {
        [first, second, third] => {
            first.is_ascii_uppercase() && is_tag_octet(*second) && is_tag_octet(*third)
        }
        _ => false,
    }
}

fn is_tag_octet(octet: u8) -> bool
    ensures { result ≡ is_tag_octet_of octet }
{
    octet.is_ascii_uppercase() || octet.is_ascii_digit()
}
