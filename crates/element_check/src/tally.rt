//! What one scan of a value finds.
ghost use Rattle.std.specs.Prelude.{◌≡◌, ◌+◌, ◌<◌, ◌^◌, ◌&&◌, not};
ghost use Rattle.std.specs.List.{list_all, list_any};
ghost use Rattle.edi_tables.specs.Tag.{is_digit};
ghost use Rattle.seg_lexer.specs.Value.{octets_of};
ghost use Rattle.element_check.specs.Tally.{form_after, is_number, length_if_typed, nothing_found, numbered_after, sort_of as sort_of_octet, tally_by, tally_over, typed_after, typed_by};
ghost use Rattle.element_check.specs.Value.{is_mark as is_mark_of, is_numeric, is_service_character as is_service_character_of};

use crate::repertoire::admits;
use edi_octets::Octets;
use edi_tables::Class;
use seg_lexer::{Context, Level, Service, Value};

/// What an octet is in a number.
#[derive(Clone, Copy)]
pub(crate) enum Sort {
    Digit,
    Hyphen,
    Point,
    Other,
}

/// How far the octets of a value are a number: nothing yet, a `-`, digits before a mark, a mark, digits after it, or
/// none of these.
#[derive(Clone, Copy)]
pub(crate) enum NumberForm {
    Start,
    Minus,
    Whole,
    Mark,
    Fraction,
    Broken,
}

/// What a scan found.
#[derive(Clone, Copy)]
pub(crate) struct Tally {
    /// An octet that the level doesn't admit.
    pub refused: bool,
    /// An octet that the class doesn't admit.
    pub foreign: bool,
    /// How many octets the length counts.
    pub counted: usize,
    pub form: NumberForm,
}

const NOTHING: Tally = Tally {
    refused: false,
    foreign: false,
    counted: 0,
    form: NumberForm::Start,
};

impl NumberForm {
    /// How far it is after one more octet.
    fn after(self, sort: Sort) -> NumberForm
        ensures { result ≡ form_after self sort }
    {
        match (self, sort) {
            (NumberForm::Start, Sort::Hyphen) => NumberForm::Minus,
            (NumberForm::Start | NumberForm::Minus | NumberForm::Whole, Sort::Digit) =>
                NumberForm::Whole,
            (NumberForm::Whole, Sort::Point) => NumberForm::Mark,
            (NumberForm::Mark | NumberForm::Fraction, Sort::Digit) => NumberForm::Fraction,
            _ => NumberForm::Broken,
        }
    }

    /// Whether the octets so far are a number.
    fn is_number(self) -> bool
        ensures { result ≡ is_number self }
    {
        matches!(self, NumberForm::Whole | NumberForm::Fraction)
    }
}

impl Tally {
    /// What was found after one more octet of a value of a class, its repertoire left out.
    #[inline(always)]
    fn after(self, service: &Service, class: Class, octet: u8) -> Tally
        requires { self.counted + 1 < 2 ^ 64 }
        ensures { result ≡ typed_after service.now class self octet }
    {
        match class {
            Class::An => Tally {
                counted: self.counted + 1,
                ..self
            },
            Class::A => Tally {
                foreign: self.foreign || octet.is_ascii_digit(),
                counted: self.counted + 1,
                ..self
            },
            Class::N => self.after_sort(sort_of(service, octet)),
        }
    }

    /// The same for one more octet of a number, of that sort.
    fn after_sort(self, sort: Sort) -> Tally
        requires { self.counted + 1 < 2 ^ 64 }
        ensures { result ≡ numbered_after self sort }
    {
        match sort {
            Sort::Digit => Tally {
                counted: self.counted + 1,
                form: self.form.after(sort),
                ..self
            },
            Sort::Hyphen | Sort::Point => Tally {
                form: self.form.after(sort),
                ..self
            },
            Sort::Other => Tally {
                foreign: true,
                counted: self.counted + 1,
                form: NumberForm::Broken,
                ..self
            },
        }
    }

    /// Whether a value of a class must be a number, has its octets, and isn't one.
    pub(crate) fn is_no_number(&self, class: Class) -> bool
        ensures { result
            ≡ (is_numeric class && not self.now.foreign && not (is_number self.now.form)) }
    {
        match class {
            Class::N => !self.foreign && !self.form.is_number(),
            Class::A | Class::An => false,
        }
    }
}

/// Scans a value for the tests of its class.
pub(crate) fn scan<O: Octets>(context: &Context, class: Class, value: &Value<'_, O>) -> Tally
    ensures { result ≡ tally_over context.now class nothing_found (octets_of value.now) }
{
    match value.slice() {
        Some(octets) => scan_slice(context, class, octets),
        None => scan_each(context, class, value),
    }
}

// The same for a value of these octets.
fn scan_slice(context: &Context, class: Class, octets: &[u8]) -> Tally
    ensures { result ≡ tally_over context.now class nothing_found octets.now }
{
    let level = context.level;
    let service = &context.service;
    // Each class is scanned by a loop of its own: most values are of class an, and few tests are theirs.
    match class {
        Class::A => scan_as(level, service, Class::A, octets),
        Class::N => scan_as(level, service, Class::N, octets),
        Class::An => scan_as(level, service, Class::An, octets),
    }
}

#[inline(always)]
fn scan_as(level: Level, service: &Service, class: Class, octets: &[u8]) -> Tally
    ensures { result ≡ tally_by level service.now class nothing_found octets.now }
{
    let mut found = NOTHING;
    for octet in octets {
        found = Tally {
            refused: found.refused || !admits(level, *octet),
            ..found.after(service, class, *octet)
        };
    }
    found
}

/// The length of a value of these octets that is compared with its representation, where each octet is of its class and a
/// number has the form of one. Most values are of class an, and none of their octets is looked at.
#[inline(always)]
pub(crate) fn typed_length(service: &Service, class: Class, octets: &[u8]) -> Option<usize>
    ensures { result ≡ length_if_typed class (typed_by service.now class nothing_found octets.now) }
{
    match class {
        Class::An => Some(octets.len()),
        Class::A => {
            if has_digit(octets) {
                return None;
            }
            Some(octets.len())
        }
        Class::N => number_length(service, octets),
    }
}

// The same where the value must be a number. Most are digits alone.
#[inline(always)]
fn number_length(service: &Service, octets: &[u8]) -> Option<usize>
    ensures { result
        ≡ length_if_typed Class.N (typed_by service.now Class.N nothing_found octets.now) }
{
    if !octets.is_empty() && are_digits(octets) {
        return Some(octets.len());
    }
    let found = scan_number(service, octets);
    if found.foreign || found.is_no_number(Class::N) {
        return None;
    }
    Some(found.counted)
}

#[inline(always)]
fn are_digits(octets: &[u8]) -> bool
    ensures { result ≡ list_all is_digit octets.now }
{
    octets.iter().all(|octet| octet.is_ascii_digit())
}

fn has_digit(octets: &[u8]) -> bool
    ensures { result ≡ list_any is_digit octets.now }
{
    octets.iter().any(|octet| octet.is_ascii_digit())
}

// Scans what must be a number, its repertoire left out.
#[inline(never)]
fn scan_number(service: &Service, octets: &[u8]) -> Tally
    ensures { result ≡ typed_by service.now Class.N nothing_found octets.now }
{
    let mut found = NOTHING;
    for octet in octets {
        found = found.after(service, Class::N, *octet);
    }
    found
}

fn scan_each<O: Octets>(context: &Context, class: Class, value: &Value<'_, O>) -> Tally
    ensures { result ≡ tally_over context.now class nothing_found (octets_of value.now) }
{
    let mut found = NOTHING;
    for octet in value.octets() {
        found = Tally {
            refused: found.refused || !admits(context.level, octet),
            ..found.after(&context.service, class, octet)
        };
    }
    found
}

#[tactic(auto, unfolding(crate::specs::Tally::sort_of))]
fn sort_of(service: &Service, octet: u8) -> Sort
    ensures { result ≡ sort_of_octet service.now octet }
{
    match octet {
        b'0'..=b'9' => Sort::Digit,
        b'-' => Sort::Hyphen,
        _ if is_mark(service, octet) => Sort::Point,
        _ => Sort::Other,
    }
}

/// Whether an octet is a decimal mark: `.`, `,` or the mark of the service characters, but none of the other service
/// characters, no digit and no `-`.
fn is_mark(service: &Service, octet: u8) -> bool
    ensures { result ≡ is_mark_of service.now octet }
{
    (octet == b'.' || octet == b',' || octet == service.mark)
        && !is_service_character(service, octet)
        && !octet.is_ascii_digit()
        && octet != b'-'
}

fn is_service_character(service: &Service, octet: u8) -> bool
    ensures { result ≡ is_service_character_of service.now octet }
{
    octet == service.component
        || octet == service.element
        || service
            .repetition
            .is_some_and(|repetition| octet == repetition)
        || octet == service.terminator
        || service.release.is_some_and(|release| octet == release)
}
