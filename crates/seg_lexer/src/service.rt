//! Service characters: what a service string advice (`UNA`) gives, and the default characters.
ghost use Rattle.std.specs.Prelude.{◌≡◌, ◌≤◌, length, codes, nat_eq};
ghost use Rattle.std.specs.List.{starts_with};
ghost use Rattle.seg_lexer.specs.Service.{IsUsable, advice_in, is_acceptable as is_acceptable_of, is_plain as is_plain_of, service_of};

use edi_octets::Octets;

/// The service characters of a text, and where its body begins.
#[derive(Clone, Copy, Debug, PartialEq, Eq)]
pub struct Service {
    /// Separates the components of an element.
    pub component: u8,
    /// Separates the data elements of a segment.
    pub element: u8,
    /// Separates the repetitions of a data element; a text may have none.
    pub repetition: Option<u8>,
    /// The decimal mark.
    pub mark: u8,
    /// Takes away the meaning of the octet after it; a text may have none.
    pub release: Option<u8>,
    /// Ends a segment.
    pub terminator: u8,
    /// The first octet after the service string advice.
    pub body: usize,
    /// False where the service string advice isn't acceptable, and the default characters are used, or where in version 4
    /// its octet for repetitions can't separate them.
    pub sound: bool,
}

/// The service characters that a segment is cut by.
#[derive(Clone, Copy, Debug, PartialEq, Eq)]
pub struct Separators {
    pub release: Option<u8>,
    pub element: u8,
    pub repetition: Option<u8>,
    pub component: u8,
}

impl Service {
    ghost use Rattle.seg_lexer.specs.Fields.{separators_of};

    /// Those that a segment is cut by.
    pub fn separators(&self) -> Separators
        ensures { result ≡ separators_of self.now }
    {
        Separators {
            release: self.release,
            element: self.element,
            repetition: self.repetition,
            component: self.component,
        }
    }
}

const DEFAULT: Service = Service {
    component: b':',
    element: b'+',
    repetition: None,
    mark: b'.',
    release: Some(b'?'),
    terminator: b'\'',
    body: 0,
    sound: true,
};

/// The octets of a service string advice: `UNA` and six characters.
const ADVICE_LEN: usize = 9;

/// The service characters of a text: those of its service string advice if it begins with an acceptable one, else the
/// default characters `:` `+` `.` `?` `'`. None separates repetitions.
#[tactic(auto, unfolding(crate::specs::Service::service_of))]
pub fn read_service<O: Octets>(text: &O) -> Service
    ensures service { result ≡ service_of (O.octets text.now) }
    ensures usable { IsUsable result (O.octets text.now) }
{
    if !begins_with_advice(text) {
        return DEFAULT;
    }
    if text.len() >= ADVICE_LEN {
        let advice = read_advice(text);
        if is_acceptable(&advice) {
            return advice;
        }
    }
    Service {
        body: text.len().min(ADVICE_LEN),
        sound: false,
        ..DEFAULT
    }
}

pub(crate) fn begins_with_advice<O: Octets>(text: &O) -> bool
    ensures { result ≡ starts_with nat_eq (O.octets text.now) (codes "UNA") }
{
    text.len() >= 3 && text.octet(0) == b'U' && text.octet(1) == b'N' && text.octet(2) == b'A'
}

fn read_advice<O: Octets>(text: &O) -> Service
    requires { 9 ≤ length (O.octets text.now) }
    ensures { result ≡ advice_in (O.octets text.now) }
{
    let release = text.octet(6);
    Service {
        component: text.octet(3),
        element: text.octet(4),
        repetition: None,
        mark: text.octet(5),
        release: if release == b' ' { None } else { Some(release) },
        terminator: text.octet(8),
        body: ADVICE_LEN,
        sound: true,
    }
}

fn is_acceptable(service: &Service) -> bool
    ensures { result ≡ is_acceptable_of service.now }
{
    let Service {
        component,
        element,
        release,
        terminator,
        ..
    } = *service;
    component != element
        && component != terminator
        && element != terminator
        && !is_plain(component)
        && !is_plain(element)
        && !is_plain(terminator)
        && release.is_none_or(|release| {
            release != component
                && release != element
                && release != terminator
                && !is_plain(release)
        })
}

/// Whether an octet is a letter, a digit, a space, CR or LF.
pub(crate) fn is_plain(octet: u8) -> bool
    ensures { result ≡ is_plain_of octet }
{
    octet.is_ascii_alphanumeric() || matches!(octet, b' ' | b'\r' | b'\n')
}
