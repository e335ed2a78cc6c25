//! The names of files and of messages, and the labels of a directory.
ghost use Rattle.std.specs.Prelude.{◌≡◌};
ghost use Rattle.std.specs.List.{list_all};
ghost use Rattle.edi_tables.specs.Forms.{is_label as is_label_of, is_message_name as is_message_name_of};
ghost use Rattle.edi_tables.specs.Tag.{is_tag_octet_of};
ghost use Rattle.edi_octets.specs.Name.{is_name_octet, is_name_of, is_name_part};

/// The most octets of a name.
const MOST_OCTETS: usize = 128;

/// Whether these octets are a name: 1 to 128 octets, parts of letters, digits, `.`, `_` and `-`
/// separated by `/`, each part not empty and not beginning with `.`.
pub fn is_name(part: &[u8]) -> bool
    ensures { result ≡ is_name_of part.now }
{
    if part.is_empty() || part.len() > MOST_OCTETS {
        return false;
    }
    part.split(|octet| *octet == b'/').all(is_part)
}

fn is_part(part: &[u8]) -> bool
    ensures { result ≡ is_name_part part.now }
{
    match part {
        [] => false,
        [first, ..] => part.iter().all(|octet| is_octet(*octet)) && *first != b'.',
    }
}

fn is_octet(octet: u8) -> bool
    ensures { result ≡ is_name_octet octet }
{
    octet.is_ascii_alphanumeric() || octet == b'.' || octet == b'_' || octet == b'-'
}

/// Whether a word is a label of a directory: 1 to so many octets of `A` to `Z` and `0` to `9`.
pub fn is_label(word: &[u8], most: usize) -> bool
    ensures { result ≡ is_label_of most word.now }
{
    1 <= word.len() && word.len() <= most && has_label_octets(word)
}

/// Whether a word is the name of a message: six octets of `A` to `Z` and `0` to `9`, the first a letter.
pub fn is_message_name(word: &[u8]) -> bool
    ensures { result ≡ is_message_name_of word.now }
{
    word.len() == 6 && word[0].is_ascii_uppercase() && has_label_octets(word)
}

fn has_label_octets(word: &[u8]) -> bool
    ensures { result ≡ list_all is_tag_octet_of word.now }
{
    word.iter().all(|octet| octet.is_ascii_uppercase() || octet.is_ascii_digit())
}
