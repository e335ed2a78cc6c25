//! The segments round the reports of an acknowledgement.
ghost use Rattle.std.specs.Prelude.{◌≡◌, ◌++◌, OnOk, map};
ghost use Rattle.contrl_segments.specs.Written.{segment_text};
ghost use Rattle.contrl_segments.specs.Service.{answered_version as answered_version_of, group_party as group_party_of, interchange_party as interchange_party_of, level_word as level_word_of, syntax_identifier, uci, unb, unh, unt, unz};
ghost use Rattle.contrl_segments.specs.Lent.{action_for, value_lent};
ghost use Rattle.std.specs.Option.{option_copied};
ghost use Rattle.edi_tables.specs.Growing.{HasGrown};

use crate::segment::WrittenValue::{self, Number, Octets};
use crate::segment::{put_answer, put_segment};
use crate::stamp::Stamp;
use crate::summary::Party;
use edi_tables::{Chunk, Tag};
use error_ledger::ErrorLine;
use seg_lexer::Level;
use std::alloc::AllocError;

const UNB: Tag = Tag { octets: *b"UNB" };

const UNH: Tag = Tag { octets: *b"UNH" };

const UNT: Tag = Tag { octets: *b"UNT" };

const UCI: Tag = Tag { octets: *b"UCI" };

const UNZ: Tag = Tag { octets: *b"UNZ" };

/// UNT: the number of segments of the message.
pub fn put_unt(out: &mut Chunk, count: u32) -> Result<(), AllocError>
    ensures ok { OnOk result (out.new ≡ out.old ++ segment_text (unt count)) }
    ensures grown { HasGrown out.old out.new }
{
    put_segment(out, UNT, &[&[Number(count)], &[Octets(b"1")]])
}

/// UNH: message 1 of its interchange, a CONTRL message of version D, release 3.
pub fn put_unh(out: &mut Chunk) -> Result<(), AllocError>
    ensures ok { OnOk result (out.new ≡ out.old ++ segment_text unh) }
    ensures grown { HasGrown out.old out.new }
{
    put_segment(
        out,
        UNH,
        &[
            &[Octets(b"1")],
            &[Octets(b"CONTRL"), Octets(b"D"), Octets(b"3"), Octets(b"UN")],
        ],
    )
}

/// UNB: as the recipient of the interchange that is answered, to its sender.
pub fn put_unb<'a>(
    out: &mut Chunk,
    level: Level,
    version: u8,
    sender: &'a Party,
    recipient: &'a Party,
    stamp: &'a Stamp,
    reference: &'a [u8],
) -> Result<(), AllocError>
    ensures ok { OnOk result
        (out.new ≡ out.old ++ segment_text
        (unb (syntax_identifier level version) sender.now recipient.now stamp.now reference.now)) }
    ensures grown { HasGrown out.old out.new }
{
    let version = answered_version(version);
    let syntax = [Octets(level_word(level)), Number(u32::from(version))];
    let from = interchange_party(recipient);
    let to = interchange_party(sender);
    let made = [Octets(&stamp.date), Octets(&stamp.time)];
    put_segment(
        out,
        UNB,
        &[&syntax, &from, &to, &made, &[Octets(reference)]],
    )
}

/// The version of the syntax that an answer is written in: that of the text that is answered, but 3 where that is 4.
fn answered_version(version: u8) -> u8
    ensures { result ≡ answered_version_of version }
{
    if version == 4 { 3 } else { version }
}

fn level_word<'a>(level: Level) -> &'a [u8]
    ensures { result.now ≡ level_word_of level }
{
    match level {
        Level::A => b"UNOA",
        Level::B => b"UNOB",
        Level::C => b"UNOC",
        Level::D => b"UNOD",
        Level::E => b"UNOE",
        Level::F => b"UNOF",
    }
}

fn interchange_party(party: &Party) -> [WrittenValue<'_>; 3]
    ensures { map value_lent result ≡ interchange_party_of party.now }
{
    [
        Octets(party.id.octets()),
        Octets(party.qualifier.octets()),
        Octets(party.route.octets()),
    ]
}

/// A party of a functional group, as it is written: its identification and the qualifier of that.
pub fn group_party(party: &Party) -> [WrittenValue<'_>; 2]
    ensures { map value_lent result ≡ group_party_of party.now }
{
    [Octets(party.id.octets()), Octets(party.qualifier.octets())]
}

/// UCI: the interchange that is answered, the action, and the error that it is rejected for, where it is.
pub fn put_uci<'a>(
    out: &mut Chunk,
    sender: &'a Party,
    recipient: &'a Party,
    reference: &'a [u8],
    error: Option<&'a ErrorLine>,
) -> Result<(), AllocError>
    ensures ok { OnOk result
        (out.new ≡ out.old ++ segment_text (uci sender.now recipient.now reference.now
        (action_for (option_copied error.entry)) (option_copied error.entry))) }
    ensures grown { HasGrown out.old out.new }
{
    let reference = [Octets(reference)];
    let from = interchange_party(sender);
    let to = interchange_party(recipient);
    let action = [Octets(if error.is_some() { b"4" } else { b"7" })];
    put_answer(out, UCI, &[&reference, &from, &to, &action], error)
}

/// UNZ: one message, and the reference of the interchange.
pub fn put_unz<'a>(out: &mut Chunk, reference: &'a [u8]) -> Result<(), AllocError>
    ensures ok { OnOk result (out.new ≡ out.old ++ segment_text (unz reference.now)) }
    ensures grown { HasGrown out.old out.new }
{
    let messages = [Octets(b"1")];
    let reference = [Octets(reference)];
    put_segment(out, UNZ, &[&messages, &reference])
}
