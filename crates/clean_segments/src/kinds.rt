//! What each octet is to a first look at a segment.
ghost use Rattle.std.specs.Prelude.{◌≡◌, IsTrue};
ghost use Rattle.seg_lexer.specs.Fields.{is_separator, separators_of};
ghost use Rattle.seg_lexer.specs.Released.{is_release};
ghost use Rattle.clean_segments.specs.Kind.{AreKinds, kind_of as kind_of_octet};

use element_check::admits;
use seg_lexer::{Context, Level, Separators};

/// What an octet is to a first look.
#[derive(Clone, Copy, Debug)]
pub(crate) enum OctetKind {
    /// It is a part of a value.
    Inner,
    /// It separates elements.
    Element,
    /// It separates components.
    Component,
    /// The look ends at it: it is the release character or separates repetitions, or a value may not have it.
    Stop,
}

/// How many octets there are.
const OCTETS: usize = 256;

/// What each octet is to a first look, by what a segment is cut by and the level of its text. It is made once for many segments.
#[derive(Clone, Copy, Debug)]
pub struct OctetKinds {
    separators: Separators,
    level: Level,
    kinds: [OctetKind; OCTETS],
    ghost made: { AreKinds separators level kinds },
}

impl OctetKinds {
    /// What they are by a context.
    pub fn of(context: &Context) -> OctetKinds
        ensures separators { result.separators ≡ separators_of context.now.service }
        ensures level { result.level ≡ context.now.level }
    {
        let separators = context.service.separators();
        let level = context.level;
        let mut kinds = [OctetKind::Stop; OCTETS];
        for octet in 0..OCTETS {
            kinds[octet] = kind_of(separators, level, octet as u8);
        }
        OctetKinds {
            separators,
            level,
            kinds,
        }
    }

    /// The same, where they are by this context, or else what they are by it.
    pub fn adapted(&self, context: &Context) -> OctetKinds
        ensures separators { result.separators ≡ separators_of context.now.service }
        ensures level { result.level ≡ context.now.level }
    {
        if self.are_by(context) {
            *self
        } else {
            OctetKinds::of(context)
        }
    }

    /// Whether they are by this context.
    #[inline(always)]
    pub(crate) fn are_by(&self, context: &Context) -> bool
        ensures separators { IsTrue result
            → self.now.separators ≡ separators_of context.now.service }
        ensures level { IsTrue result → self.now.level ≡ context.now.level }
    {
        self.separators == context.service.separators() && self.level == context.level
    }

    /// What an octet is.
    #[inline(always)]
    pub(crate) fn kind(&self, octet: u8) -> OctetKind
        ensures { result ≡ kind_of_octet self.now.separators self.now.level octet }
    {
        self.kinds[usize::from(octet)]
    }
}

// What an octet is, by what a segment is cut by and a level.
#[tactic(auto, unfolding(crate::specs::Kind::kind_of))]
fn kind_of(separators: Separators, level: Level, octet: u8) -> OctetKind
    ensures { result ≡ kind_of_octet separators level octet }
{
    if is_one(separators.release, octet) || is_one(separators.repetition, octet) {
        OctetKind::Stop
    } else if octet == separators.element {
        OctetKind::Element
    } else if octet == separators.component {
        OctetKind::Component
    } else if admits(level, octet) {
        OctetKind::Inner
    } else {
        OctetKind::Stop
    }
}

// Whether an octet is this one, if there is one.
fn is_one(one: Option<u8>, octet: u8) -> bool
    ensures separator { result ≡ is_separator one octet }
    ensures release { result ≡ is_release one octet }
{
    match one {
        Some(one) => octet == one,
        None => false,
    }
}
