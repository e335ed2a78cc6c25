//! Which word keeps the words from being a command, and what is expected in its place: a hint for people.
ghost use Rattle.std.specs.Prelude.{◌≡◌, ◌↔◌, ◌+◌, ◌≤◌, length, IfSome, IsNone, IsSome};
ghost use Rattle.std.specs.Option.{option_map};
ghost use Rattle.edicheck_core.specs.Form.{form_of};
ghost use Rattle.edicheck_core.specs.WrongWord.{expected_after, is_expected, wrong_from, wrong_word_of};

use crate::words::{MOST_EDITS, MOST_MESSAGES, MOST_NUMBER, read_number};
use contrl_segments::{is_reference, read_stamp};
use edi_octets::is_name;
use edi_tables::Chunk;
use std::fmt;

/// What is expected in the place of a word.
#[derive(Clone, Copy, Debug, PartialEq, Eq)]
pub enum Expected {
    /// A command.
    Command,
    /// The name of the file of a manifest.
    Manifest,
    /// That of a text.
    Text,
    /// That of a reply.
    Reply,
    /// That of a guide.
    Guide,
    /// The date and time of an acknowledgement.
    Stamp,
    /// The reference of an acknowledgement.
    Reference,
    /// How many messages a drill has.
    Messages,
    /// How many edits it has.
    Edits,
    /// The number that it is made from.
    Number,
    /// No word.
    Nothing,
}

/// The first word, by its number from 1, that isn't what is expected in its place, or that is missing there.
#[derive(Clone, Copy, Debug, PartialEq, Eq)]
pub struct WrongWord {
    pub place: usize,
    pub expected: Expected,
    pub is_missing: bool,
}

/// The first word that keeps these words from being a command; `None` exactly if they are one.
pub fn find_wrong_word(words: &[Chunk]) -> Option<WrongWord>
    ensures first { result ≡ wrong_word_of words.now }
    ensures none { IsNone result ↔ IsSome (form_of words.now) }
{
    match words {
        [] => Some(WrongWord {
            place: 1,
            expected: Expected::Command,
            is_missing: true,
        }),
        [command, rest @ ..] => match list_expected(command.octets()) {
            Some(expected) => find_from(2, expected, rest),
            None => Some(WrongWord {
                place: 1,
                expected: Expected::Command,
                is_missing: false,
            }),
        },
    }
}

// The first wrong word of these, of which the first is in this place.
fn find_from(place: usize, expected: &[Expected], words: &[Chunk]) -> Option<WrongWord>
    requires { place + length expected.now ≤ 6 }
    ensures { result ≡ wrong_from place expected.now words.now }
{
    match (expected, words) {
        ([], []) => None,
        ([], [_, ..]) => Some(WrongWord {
            place,
            expected: Expected::Nothing,
            is_missing: false,
        }),
        ([first, ..], []) => Some(WrongWord {
            place,
            expected: *first,
            is_missing: true,
        }),
        ([first, others @ ..], [word, rest @ ..]) => {
            if is_as_expected(*first, word.octets()) {
                find_from(place + 1, others, rest)
            } else {
                Some(WrongWord {
                    place,
                    expected: *first,
                    is_missing: false,
                })
            }
        }
    }
}

// What is expected after the word of a command, word by word.
fn list_expected(command: &[u8]) -> Option<&'static [Expected]>
    ensures words { option_map (λ expected. expected.now) result ≡ expected_after command.now }
    ensures short { IfSome result (λ expected. length expected.now ≤ 4) }
{
    if command == b"--help".as_slice()
        || command == b"--version".as_slice()
        || command == b"segments".as_slice()
        || command == b"values".as_slice()
    {
        Some(&[])
    } else if command == b"tables".as_slice() || command == b"compile".as_slice() {
        Some(&[Expected::Manifest])
    } else if command == b"check".as_slice()
        || command == b"edit".as_slice()
        || command == b"session".as_slice()
    {
        Some(&[Expected::Manifest, Expected::Text])
    } else if command == b"match".as_slice() {
        Some(&[Expected::Manifest, Expected::Text, Expected::Reply])
    } else if command == b"guide".as_slice() {
        Some(&[Expected::Manifest, Expected::Guide, Expected::Text])
    } else if command == b"contrl".as_slice() {
        Some(&[
            Expected::Manifest,
            Expected::Text,
            Expected::Stamp,
            Expected::Reference,
        ])
    } else if command == b"drill".as_slice() {
        Some(&[Expected::Messages, Expected::Edits, Expected::Number])
    } else {
        None
    }
}

// Whether a word is as expected.
fn is_as_expected(expected: Expected, word: &[u8]) -> bool
    ensures { result ≡ is_expected expected word.now }
{
    match expected {
        Expected::Manifest | Expected::Text | Expected::Reply | Expected::Guide => is_name(word),
        Expected::Stamp => read_stamp(word).is_some(),
        Expected::Reference => is_reference(word),
        Expected::Messages => read_number(word, 1, MOST_MESSAGES).is_some(),
        Expected::Edits => read_number(word, 0, MOST_EDITS).is_some(),
        Expected::Number => read_number(word, 0, MOST_NUMBER).is_some(),
        Expected::Command | Expected::Nothing => false,
    }
}
