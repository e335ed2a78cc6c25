//! The context of a text: its service characters, and what its first segment settles for all of it.
ghost use Rattle.std.specs.Prelude.{[], ◌≡◌, ◌+◌, ◌≤◌, length};
ghost use Rattle.std.specs.Option.{option_map};
ghost use Rattle.std.specs.Str.{bytes_eq};
ghost use Rattle.seg_lexer.specs.Context.{context_in, context_of, is_unusable as is_unusable_of, level_in, opening_in, repetition_octet as octet_of_repetition, service_in, version_in};
ghost use Rattle.seg_lexer.specs.Fields.{components_at};
ghost use Rattle.seg_lexer.specs.Service.{IsUsable, service_of};
ghost use Rattle.seg_lexer.specs.Value.{octets_of};
ghost use Rattle.edi_octets.specs.declared.octets.TheConstants.{LONGEST_TEXT};

use crate::segment::{Lexed, fields, next_segment};
use crate::service::{Service, begins_with_advice, is_plain, read_service};
use crate::tag::read_tag;
use crate::value::Value;
use edi_octets::Octets;
use edi_tables::Tag;
use std::sync::ledger::Ledger;
use step_counter::Steps;

/// A level of characters, `UNOA` to `UNOF`: which octets values may have.
#[derive(Clone, Copy, Debug, PartialEq, Eq)]
pub enum Level {
    A,
    B,
    C,
    D,
    E,
    F,
}

/// What all segments of a text are read by.
#[derive(Clone, Copy, Debug, PartialEq, Eq)]
pub struct Context {
    pub service: Service,
    pub level: Level,
    /// The version of the syntax, 1 to 4.
    pub version: u8,
}

const UNB: Tag = Tag { octets: *b"UNB" };

/// The context of a text. Its level and version are those that its first segment names, if that has the tag `UNB`; a
/// level that isn't found so is `UNOB`, and a version that isn't found so is 3. In version 4 its service characters have a
/// repetition separator, if there is one that can be used; the first segment is read without it.
pub fn read_context<O: Octets, L: Ledger>(text: &O, lexed: &mut Steps<L>) -> Context
    requires { length (O.octets text.now) ≤ LONGEST_TEXT }
    ensures context { result ≡ context_of (O.octets text.now) }
    ensures usable { IsUsable result.service (O.octets text.now) }
    ensures counted { lexed.new ≡ lexed.old + 1 }
{
    let service = read_service(text);
    match next_segment(text, &service, service.body, lexed) {
        Lexed::Ended { start, end } => opening_context(text, &service, start, end),
        Lexed::Tail { start: _ } | Lexed::Nothing => context_by(text, &service, Level::B, 3),
    }
}

/// The context that the segment `start..end` settles as the first one.
fn opening_context<O: Octets>(text: &O, service: &Service, start: usize, end: usize) -> Context
    requires usable { IsUsable service.now (O.octets text.now) }
    requires short { length (O.octets text.now) ≤ LONGEST_TEXT }
    requires own { service.now ≡ service_of (O.octets text.now) }
    requires ordered { start ≤ end }
    requires within { end ≤ length (O.octets text.now) }
    ensures { let components = components_at service.now (O.octets text.now) start end in
        result ≡ context_in service.now (O.octets text.now) (opening_in components) }
{
    if read_tag(text, service, start, end) != Some(UNB) {
        return context_by(text, service, Level::B, 3);
    }
    let components = fields(text, service, start, end);
    let level = level_named(components.value_at(1, 1));
    let version = version_named(components.value_at(1, 2));
    context_by(text, service, level, version)
}

/// The context of a text with these service characters, level and version: version 4 has a repetition separator.
fn context_by<O: Octets>(text: &O, service: &Service, level: Level, version: u8) -> Context
    requires own { service.now ≡ service_of (O.octets text.now) }
    ensures { result ≡ record {
      service = service_in version service.now (O.octets text.now);
      level = level;
      version = version;
    } }
{
    if version != 4 {
        return Context {
            service: Service {
                repetition: None,
                ..*service
            },
            level,
            version,
        };
    }
    let octet = repetition_octet(text, service);
    let unusable = is_unusable(service, octet);
    Context {
        service: Service {
            repetition: if unusable || octet == b' ' {
                None
            } else {
                Some(octet)
            },
            sound: service.sound && !unusable,
            ..*service
        },
        level,
        version,
    }
}

/// The octet in the place of a repetition separator: octet 7 of a service string advice that can be used, and `*` in every
/// other text.
fn repetition_octet<O: Octets>(text: &O, service: &Service) -> u8
    requires own { service.now ≡ service_of (O.octets text.now) }
    ensures { result ≡ octet_of_repetition service.now (O.octets text.now) }
{
    if service.sound && begins_with_advice(text) {
        text.octet(7)
    } else {
        b'*'
    }
}

/// Whether an octet can't separate repetitions: it is another service character, a letter, a digit, CR or LF.
fn is_unusable(service: &Service, octet: u8) -> bool
    ensures { result ≡ is_unusable_of service.now octet }
{
    octet == service.component
        || octet == service.element
        || octet == service.terminator
        || service.release.is_some_and(|release| octet == release)
        || (is_plain(octet) && octet != b' ')
}

fn level_named<O: Octets>(name: Option<Value<'_, O>>) -> Level
    ensures { result ≡ level_in (option_map octets_of name.entry) }
{
    match name {
        Some(name) if is_name(&name, b"UNOA") => Level::A,
        Some(name) if is_name(&name, b"UNOC") => Level::C,
        Some(name) if is_name(&name, b"UNOD") => Level::D,
        Some(name) if is_name(&name, b"UNOE") => Level::E,
        Some(name) if is_name(&name, b"UNOF") => Level::F,
        _ => Level::B,
    }
}

fn version_named<O: Octets>(name: Option<Value<'_, O>>) -> u8
    ensures { result ≡ version_in (option_map octets_of name.entry) }
{
    match name {
        Some(name) if is_name(&name, b"1") => 1,
        Some(name) if is_name(&name, b"2") => 2,
        Some(name) if is_name(&name, b"4") => 4,
        _ => 3,
    }
}

fn is_name<O: Octets>(value: &Value<'_, O>, name: &[u8]) -> bool
    ensures { result ≡ bytes_eq (octets_of value.now) name.now }
{
    value.is(name)
}
