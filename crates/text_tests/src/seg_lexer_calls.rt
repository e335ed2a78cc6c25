//! Service characters, levels and versions in texts that are made octet by octet, and the copy of a value.
ghost use Rattle.std.specs.Prelude.{◌≡◌, ◌<◌, ◌≤◌, length};

use edi_octets::{Flat, LONGEST_TEXT};
use seg_lexer::*;
use std::alloc::Global;
use std::marker::Brand;
use std::process::Abort;
use std::sync::ledger::{Blank, Ledger};
use std::test::Fail;
use step_counter::Steps;

// Texts come in as arguments, so that no proof computes what a definition gives on them.

/// The service characters of a text.
fn service_in(octets: &[u8]) -> Service {
    read_service(&Flat { octets })
}

#[test]
fn service_characters(rt: HostRuntime) {
    let wanted = Service {
        component: b';',
        element: 0,
        repetition: None,
        mark: b'A',
        release: None,
        terminator: 255,
        body: 9,
        sound: true,
    };
    assert_eq!(rt; service_in(b"UNA;\0A \r\xffUNB"), wanted);
}

/// An octet in each place of a service string advice that it can't be in.
#[rattlefmt::skip]
const REFUSED: [(usize, u8); 12] = [
    // that of another service character
    (3, b'+'), (3, b'?'), (3, b'\''), (4, b'?'), (4, b'\''), (6, b'\''),
    // a letter, a digit, CR or LF
    (3, b'Z'), (4, b'a'), (6, b'9'), (8, b'\n'),
    // a space in another place than the release character's
    (3, b' '), (8, b' '),
];

#[test]
fn refused_service_characters(rt: HostRuntime) {
    for (place, octet) in REFUSED {
        let mut text = *b"UNA:+.? '";
        assert!(rt; place < text.len());
        text[place] = octet;
        assert!(rt; !service_in(&text).sound, "{text:?}");
    }
}

/// The context of a short text.
fn context_in(octets: &[u8]) -> Option<Context> {
    if octets.len() > LONGEST_TEXT {
        return None;
    }
    Some(context_by::<Brand>(&Flat { octets }, Blank::new(1)))
}

fn context_by<L: Ledger>(text: &Flat<'_>, blank: Blank) -> Context
    requires name { blank.name ≡ L.name }
    requires parts { blank.parts ≡ L.parts }
    requires some { 0 < blank.parts }
    requires short { length text.now.octets.now ≤ LONGEST_TEXT }
{
    let mut lexed = Steps::<L>::start(blank);
    read_context(text, &mut lexed)
}

/// A letter and a digit, and the level and version that they name.
#[rattlefmt::skip]
const OPENINGS: [(u8, u8, Level, u8); 7] = [
    (b'A', b'1', Level::A, 1),
    (b'B', b'2', Level::B, 2),
    (b'C', b'3', Level::C, 3),
    (b'D', b'0', Level::D, 3),
    (b'E', b'4', Level::E, 4),
    (b'F', b'x', Level::F, 3),
    (b'G', b'1', Level::B, 1),
];

#[test]
fn levels_and_versions(rt: HostRuntime) -> Result<(), Fail> {
    for (letter, digit, level, version) in OPENINGS {
        let mut text = *b"UNB+UNOx:x'";
        text[7] = letter;
        text[9] = digit;
        let context = context_in(&text).ok_or("too long")?;
        assert_eq!(rt; (context.level, context.version), (level, version));
    }
    Ok(())
}

/// Texts, what separates repetitions in each, and whether its service string advice is sound.
#[rattlefmt::skip]
const SEPARATORS: [(&[u8], Option<u8>, bool); 6] = [
    (b"UNB+UNOA:4'", Some(b'*'), true),
    (b"UNA:+.?~'UNB+UNOA:4'", Some(b'~'), true),
    (b"UNA:+.? 'UNB+UNOA:4'", None, true),
    (b"UNA:+.?:'UNB+UNOA:4'", None, false),
    (b"UNA::.?~'UNB+UNOA:4'", Some(b'*'), false),
    (b"UNA:+.?:'UNB+UNOA:3'", None, true),
];

#[test]
fn what_separates_repetitions(rt: HostRuntime) -> Result<(), Fail> {
    for (octets, repetition, sound) in SEPARATORS {
        let service = context_in(octets).ok_or("too long")?.service;
        assert_eq!(rt; (service.repetition, service.sound), (repetition, sound));
    }
    Ok(())
}

/// The value of element 1 is copied, without its release characters.
fn expect_copy(rt: &impl Abort, alloc: Global, octets: &[u8], wanted: &[u8]) -> Result<(), Fail> {
    assert!(rt; octets.len() <= LONGEST_TEXT);
    let text = Flat { octets };
    let components = fields(&text, &read_service(&text), 0, octets.len());
    let value = components.value_at(1, 1).ok_or("no value")?;
    assert_eq!(rt; value.copy(alloc)?.octets(), wanted);
    Ok(())
}

#[test]
fn a_value_is_copied(rt: HostRuntime) -> Result<(), Fail> {
    expect_copy(&rt, rt.alloc(), b"A+?B??+C", b"B?")
}

/// The default characters, with a star between repetitions.
const STARRED: Service = Service {
    component: b':',
    element: b'+',
    repetition: Some(b'*'),
    mark: b'.',
    release: Some(b'?'),
    terminator: b'\'',
    body: 0,
    sound: true,
};

/// The components of a segment: the numbers of each one's element, of its repetition and of itself, and how many octets its
/// value has.
#[rattlefmt::skip]
const REPEATED: [(u32, u32, u32, usize); 7] = [
    (0, 1, 1, 3), (1, 1, 1, 1), (1, 1, 2, 1), (1, 2, 1, 3), (1, 3, 1, 0), (2, 1, 1, 1), (2, 2, 1, 1),
];

/// The components of a segment with a star between repetitions are these.
fn expect_components(rt: &impl Abort, octets: &[u8], wanted: &[(u32, u32, u32, usize)]) {
    assert!(rt; octets.len() <= LONGEST_TEXT);
    let text = Flat { octets };
    let mut left = wanted.iter();
    for found in fields(&text, &STARRED, 0, octets.len()) {
        let numbers = (
            found.element,
            found.repetition,
            found.component,
            found.value.len(),
        );
        assert_eq!(rt; left.next(), Some(&numbers));
    }
    assert_eq!(rt; left.next(), None);
}

#[test]
fn repetitions(rt: HostRuntime) {
    expect_components(&rt, b"A*B+2:A*137*+?**C", &REPEATED);
}
