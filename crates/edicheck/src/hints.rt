//! Hints for people, on standard error: what a refusal's line doesn't say.
use edicheck_core::{Expected, WrongWord};
use std::fmt;

/// Says which word is wrong, and what is expected in its place.
pub fn hint_at_word(rt: &impl Eprint, wrong: WrongWord) {
    let place = wrong.place;
    let expected = Shown(wrong.expected);
    let _printed = if wrong.expected == Expected::Nothing {
        eprintln!(rt; "edicheck: word {place} is one too many")
    } else if wrong.is_missing {
        eprintln!(rt; "edicheck: word {place} is missing: it must be {expected}")
    } else if is_name(wrong.expected) {
        eprintln!(rt; "edicheck: word {place} must be {expected}: {NAME_RULE}")
    } else {
        eprintln!(rt; "edicheck: word {place} must be {expected}")
    };
}

/// Says at which octet a script is wrong, or that it ends too early, after so many octets were taken.
pub fn hint_at_script(rt: &impl Eprint, taken: u64, has_ended: bool) {
    let _printed = if has_ended {
        eprintln!(rt;
            "edicheck: the script ends after {taken} octets, inside a command or before its end"
        )
    } else {
        let place = taken.saturating_sub(1);
        eprintln!(rt; "edicheck: octet {place} of the script, from 0, can't belong to a command")
    };
}

/// Says which file couldn't be read, or that it was the input.
pub fn hint_at_read(rt: &impl Eprint, name: Option<&[u8]>) {
    let _printed = match name {
        Some(name) => {
            let name = str::from_utf8(name).unwrap_or("");
            eprintln!(rt; "edicheck: can't read {name}: is it a folder, or may you not read it?")
        }
        None => eprintln!(rt; "edicheck: can't read standard input"),
    };
}

// How a file may be named.
const NAME_RULE: &str =
    "1 to 128 letters, digits, '.', '_', '-' and '/', where no part is empty or begins with '.'";

// Whether a name of a file is expected.
fn is_name(expected: Expected) -> bool {
    matches!(
        expected,
        Expected::Manifest | Expected::Text | Expected::Reply | Expected::Guide
    )
}

// What is expected, in words.
#[derive(Clone, Copy)]
struct Shown(Expected);

impl fmt::Display for Shown {
    fn fmt<W: fmt::Write>(&self, f: &mut fmt::Formatter<W>) -> fmt::Result {
        let words = match self.0 {
            Expected::Command => "a command: edicheck --help prints them",
            Expected::Manifest => "the name of a manifest",
            Expected::Text => "the name of a text",
            Expected::Reply => "the name of a reply",
            Expected::Guide => "the name of a guide",
            Expected::Stamp => "a stamp YYMMDD:HHMM, ten digits and a colon",
            Expected::Reference => "a reference of 1 to 14 capital letters and digits",
            Expected::Messages => "a number of messages, 1 to 1000",
            Expected::Edits => "a number of edits, 0 to 1000",
            Expected::Number => "a number, 0 to 999999999",
            Expected::Nothing => "no word",
        };
        f.write_str(words)
    }
}
