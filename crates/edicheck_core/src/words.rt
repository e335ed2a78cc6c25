//! The forms of words.
ghost use Rattle.std.specs.Prelude.{◌≡◌, ◌≤◌, IfSome};
ghost use Rattle.std.specs.Option.{option_map};
ghost use Rattle.edicheck_core.specs.Form.{form_of, form_shown, lone_word, number_in, script_kind_of, with_manifest, with_numbers, with_stamp, with_text, with_three_words, with_two_files};
ghost use Rattle.edicheck_core.specs.Lawful.{IsLawful};

use contrl_segments::{Stamp, is_reference, read_stamp};
use edi_octets::{is_name, read_decimal};
use edi_tables::Chunk;
use listing_printer::Detail;

/// How many messages and how many edits a drill has at most.
pub(crate) const MOST_MESSAGES: u64 = 1_000;

pub(crate) const MOST_EDITS: u64 = 1_000;

/// The greatest number that a drill is made from.
pub(crate) const MOST_NUMBER: u64 = 999_999_999;

/// What is asked of a text.
#[derive(Clone, Copy, Debug)]
pub(crate) enum Question<'a> {
    /// Its errors and its tree.
    Errors,
    /// Its acknowledgement, made at a time, with a reference of its own.
    Answer { stamp: Stamp, reference: &'a [u8] },
}

/// Which commands a script has: those of an edit, or those of a session too.
#[derive(Clone, Copy, Debug)]
pub(crate) enum ScriptKind {
    Edits,
    Sessions,
}

/// What the words ask for.
#[derive(Clone, Copy, Debug)]
pub(crate) enum Form<'a> {
    /// A short text that says what the program does.
    Help,
    /// The version of the program, and of the toolchain that proved it.
    Version,
    /// The text on the input, in this detail.
    Text(Detail),
    /// The segment tables of the directory of the manifest of this name.
    Tables(&'a [u8]),
    /// The store of that directory.
    Compile(&'a [u8]),
    /// The answer to a question about the text of this name, by the directory of the manifest of this name.
    About {
        question: Question<'a>,
        manifest: &'a [u8],
        text: &'a [u8],
    },
    /// The findings of a reply to a text, by that directory.
    Match {
        manifest: &'a [u8],
        text: &'a [u8],
        reply: &'a [u8],
    },
    /// The errors of a text and its tree, by the directory that a guide makes of that directory.
    Guide {
        manifest: &'a [u8],
        guide: &'a [u8],
        text: &'a [u8],
    },
    /// The answers to a script on the input, on the text of this name, by the directory of the manifest of this name.
    Script {
        kind: ScriptKind,
        manifest: &'a [u8],
        text: &'a [u8],
    },
    /// A drill of so many messages and edits, which are made from a number.
    Drill {
        messages: u32,
        edits: u32,
        number: u64,
    },
}

/// The form of the words; `None` where they are of no form.
pub(crate) fn read_form(words: &[Chunk]) -> Option<Form<'_>>
    ensures form { option_map form_shown result ≡ form_of words.now }
    ensures lawful { IfSome result (λ form. IsLawful (form_shown form)) }
{
    match words {
        [word] => read_lone_word(word.octets()),
        [word, manifest] => read_with_manifest(word.octets(), manifest.octets()),
        [word, manifest, text] => read_with_text(word.octets(), manifest.octets(), text.octets()),
        [word, first, second, third] => read_with_three_words(
            word.octets(),
            first.octets(),
            second.octets(),
            third.octets(),
        ),
        [word, manifest, text, stamp, reference] => read_with_stamp(
            word.octets(),
            manifest.octets(),
            text.octets(),
            stamp.octets(),
            reference.octets(),
        ),
        _ => None,
    }
}

fn read_lone_word(word: &[u8]) -> Option<Form<'static>>
    ensures form { option_map form_shown result ≡ lone_word word.now }
    ensures lawful { IfSome result (λ form. IsLawful (form_shown form)) }
{
    if word == b"--help".as_slice() {
        Some(Form::Help)
    } else if word == b"--version".as_slice() {
        Some(Form::Version)
    } else if word == b"segments".as_slice() {
        Some(Form::Text(Detail::Segments))
    } else if word == b"values".as_slice() {
        Some(Form::Text(Detail::Values))
    } else {
        None
    }
}

fn read_with_manifest<'a>(word: &[u8], manifest: &'a [u8]) -> Option<Form<'a>>
    ensures form { option_map form_shown result ≡ with_manifest word.now manifest.now }
    ensures lawful { IfSome result (λ form. IsLawful (form_shown form)) }
{
    if word == b"tables".as_slice() && is_name(manifest) {
        Some(Form::Tables(manifest))
    } else if word == b"compile".as_slice() && is_name(manifest) {
        Some(Form::Compile(manifest))
    } else {
        None
    }
}

fn read_with_text<'a>(word: &[u8], manifest: &'a [u8], text: &'a [u8]) -> Option<Form<'a>>
    ensures form { option_map form_shown result ≡ with_text word.now manifest.now text.now }
    ensures lawful { IfSome result (λ form. IsLawful (form_shown form)) }
{
    if !is_name(manifest) || !is_name(text) {
        None
    } else if word == b"check".as_slice() {
        Some(Form::About {
            question: Question::Errors,
            manifest,
            text,
        })
    } else {
        let kind = read_script_kind(word)?;
        Some(Form::Script {
            kind,
            manifest,
            text,
        })
    }
}

// The kind of the script that a word asks for, if it asks for one.
fn read_script_kind(word: &[u8]) -> Option<ScriptKind>
    ensures { result ≡ script_kind_of word.now }
{
    if word == b"edit".as_slice() {
        Some(ScriptKind::Edits)
    } else if word == b"session".as_slice() {
        Some(ScriptKind::Sessions)
    } else {
        None
    }
}

fn read_with_stamp<'a>(
    word: &[u8],
    manifest: &'a [u8],
    text: &'a [u8],
    stamp: &[u8],
    reference: &'a [u8],
) -> Option<Form<'a>>
    ensures form { option_map form_shown result
        ≡ with_stamp word.now manifest.now text.now stamp.now reference.now }
    ensures lawful { IfSome result (λ form. IsLawful (form_shown form)) }
{
    if word != b"contrl".as_slice()
        || !is_name(manifest)
        || !is_name(text)
        || !is_reference(reference)
    {
        return None;
    }
    let stamp = read_stamp(stamp)?;
    Some(Form::About {
        question: Question::Answer { stamp, reference },
        manifest,
        text,
    })
}

fn read_with_three_words<'a>(
    word: &[u8],
    first: &'a [u8],
    second: &'a [u8],
    third: &'a [u8],
) -> Option<Form<'a>>
    ensures form { option_map form_shown result
        ≡ with_three_words word.now first.now second.now third.now }
    ensures lawful { IfSome result (λ form. IsLawful (form_shown form)) }
{
    if word == b"drill".as_slice() {
        read_with_numbers(first, second, third)
    } else {
        read_with_two_files(word, first, second, third)
    }
}

fn read_with_two_files<'a>(
    word: &[u8],
    manifest: &'a [u8],
    first: &'a [u8],
    second: &'a [u8],
) -> Option<Form<'a>>
    ensures form { option_map form_shown result
        ≡ with_two_files word.now manifest.now first.now second.now }
    ensures lawful { IfSome result (λ form. IsLawful (form_shown form)) }
{
    if !is_name(manifest) || !is_name(first) || !is_name(second) {
        None
    } else if word == b"match".as_slice() {
        Some(Form::Match {
            manifest,
            text: first,
            reply: second,
        })
    } else if word == b"guide".as_slice() {
        Some(Form::Guide {
            manifest,
            guide: first,
            text: second,
        })
    } else {
        None
    }
}

fn read_with_numbers(messages: &[u8], edits: &[u8], number: &[u8]) -> Option<Form<'static>>
    ensures form { option_map form_shown result
        ≡ with_numbers messages.now edits.now number.now }
    ensures lawful { IfSome result (λ form. IsLawful (form_shown form)) }
{
    let messages = read_number(messages, 1, MOST_MESSAGES)?;
    let edits = read_number(edits, 0, MOST_EDITS)?;
    let number = read_number(number, 0, MOST_NUMBER)?;
    Some(Form::Drill {
        messages: messages as u32,
        edits: edits as u32,
        number,
    })
}

// The number that 1 to 19 digits give, where it is from the least to the most.
pub(crate) fn read_number(word: &[u8], least: u64, most: u64) -> Option<u64>
    ensures value { result ≡ number_in least most word.now }
    ensures within { IfSome result (λ n. (least ≤ n) × (n ≤ most)) }
{
    let n = read_decimal(word)?;
    if least <= n && n <= most {
        Some(n)
    } else {
        None
    }
}
