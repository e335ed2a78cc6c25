//! The segments as the rules on envelopes see them.
ghost use Rattle.std.specs.Prelude.{[], ◌≡◌, ◌≤◌, length, IfOk};
ghost use Rattle.envelope_check.specs.Heads.{kind_of};
ghost use Rattle.envelope_check.specs.declared.head.TheConstants.{SHORT};

use edi_tables::Tag;
use std::alloc::{AllocError, Global};
use std::marker::Model;

/// Which of the six tags that open or close an interchange, a functional group or a message.
#[derive(Clone, Copy, Debug, PartialEq, Eq)]
pub enum HeadKind {
    Unb,
    Ung,
    Unh,
    Unt,
    Une,
    Unz,
}

impl HeadKind {
    /// The kind of a segment with this tag, if it is one of the six.
    pub fn of(tag: Option<Tag>) -> Option<HeadKind>
        ensures { result ≡ kind_of tag }
    {
        match &tag?.octets {
            b"UNB" => Some(HeadKind::Unb),
            b"UNG" => Some(HeadKind::Ung),
            b"UNH" => Some(HeadKind::Unh),
            b"UNT" => Some(HeadKind::Unt),
            b"UNE" => Some(HeadKind::Une),
            b"UNZ" => Some(HeadKind::Unz),
            _ => None,
        }
    }
}

/// A value of a head, seen as the list of its octets. Up to 14, as every lawful one has, take no memory of their own.
#[derive(Debug, Drop)]
pub struct HeadValue {
    octets: ValueOctets,
}

// How many octets need no memory of their own. A reference has at most 14, a count and a name 6.
const SHORT: usize = 14;

// The octets of a value: the first `len` of a few, or a list that lies elsewhere.
#[derive(Debug, Drop)]
enum ValueOctets {
    Short { len: u8, octets: [u8; SHORT] },
    Long(Box<Vec<u8>>),
}

impl Model for HeadValue {
    ghost use Rattle.std.specs.Prelude.{List, ℕ};
    ghost use Rattle.envelope_check.specs.HeadValue.{IsInside, octets_in};

    ghost Value = { List ℕ };

    ghost view = { λ v. octets_in v.octets };

    ghost invariant = { λ v. IsInside v.octets };
}

impl HeadValue {
    /// A copy of these octets. Only want of memory is an error.
    pub fn of(alloc: Global, octets: &[u8]) -> Result<HeadValue, AllocError>
        ensures { IfOk result (λ value. value ≡ octets.now) }
    {
        if octets.len() > SHORT {
            let octets = octets.to_vec(alloc)?;
            return Ok(HeadValue {
                octets: ValueOctets::Long(Box::new(alloc, octets)?),
            });
        }
        Ok(HeadValue::short(octets))
    }

    // A copy of a few octets.
    fn short(octets: &[u8]) -> HeadValue
        requires { length octets.now ≤ SHORT }
        ensures { result ≡ octets.now }
    {
        let mut short = [0; SHORT];
        short[..octets.len()].copy_from_slice(octets);
        HeadValue {
            octets: ValueOctets::Short {
                len: octets.len() as u8,
                octets: short,
            },
        }
    }

    /// No octets.
    pub fn empty() -> HeadValue
        ensures { result ≡ [] }
    {
        HeadValue::short(&[])
    }

    /// All its octets.
    pub fn octets(&self) -> &[u8]
        ensures { result.now ≡ self.now }
    {
        match &self.octets {
            ValueOctets::Short { len, octets } => &octets[..usize::from(*len)],
            ValueOctets::Long(octets) => octets,
        }
    }
}

/// The values of a head that are compared: its reference, and the count or the name that it gives by its kind.
///
/// `reference` is 0020 of UNB and UNZ, 0048 of UNG and UNE, and 0062 of UNH and UNT. `other` is the count of a closing segment,
/// 0074 of UNT, 0060 of UNE and 0036 of UNZ, or the name of the messages that are opened, 0065 of UNH and 0038 of UNG. A UNB has
/// none, and its `other` isn't looked at.
#[derive(Debug, Drop)]
pub struct HeadValues {
    pub reference: HeadValue,
    pub other: HeadValue,
}

impl HeadValues {
    /// A copy of them. Only want of memory is an error.
    pub fn copy(&self, alloc: Global) -> Result<HeadValues, AllocError>
        ensures { IfOk result (λ values. values ≡ self.now) }
    {
        Ok(HeadValues {
            reference: HeadValue::of(alloc, self.reference.octets())?,
            other: HeadValue::of(alloc, self.other.octets())?,
        })
    }
}

/// A segment that opens or closes something: its number, from 1, its first octet, its kind, and its values, which are kept
/// elsewhere. `tabled` tells of a UNH whether the directory has a segment table for its message, and is false for every other
/// kind.
#[derive(Debug, Drop)]
pub struct Head<'a> {
    segment: u32,
    start: u32,
    kind: HeadKind,
    tabled: bool,
    values: &'a HeadValues,
}

impl<'a> Model for Head<'a> {
    ghost use Rattle.envelope_check.specs.Head.{Head, head_with};

    ghost Value = { Head };

    ghost view = { λ h. head_with h.segment h.start h.kind h.tabled h.values.now };
}

impl<'a> Head<'a> {
    ghost use Rattle.envelope_check.specs.Head.{head_with};

    /// A head with these values.
    pub fn of(
        segment: u32,
        start: u32,
        kind: HeadKind,
        tabled: bool,
        values: &'a HeadValues,
    ) -> Head<'a>
        ensures { result ≡ head_with segment start kind tabled values.now }
    {
        Head {
            segment,
            start,
            kind,
            tabled,
            values,
        }
    }

    /// The number of its segment.
    pub(crate) fn segment(&self) -> u32
        ensures { result ≡ self.now.segment }
    {
        self.segment
    }

    /// Its kind.
    pub(crate) fn kind(&self) -> HeadKind
        ensures { result ≡ self.now.kind }
    {
        self.kind
    }

    /// Whether the directory has a segment table for the message that it opens.
    pub(crate) fn is_tabled(&self) -> bool
        ensures { result ≡ self.now.tabled }
    {
        self.tabled
    }

    /// Its reference.
    pub(crate) fn reference(&self) -> &'a [u8]
        ensures { result.now ≡ self.now.reference }
    {
        self.values.reference.octets()
    }

    /// The count that it gives; no octets where its kind gives none.
    pub(crate) fn count(&self) -> &'a [u8]
        ensures { result.now ≡ self.now.count }
    {
        match self.kind {
            HeadKind::Unt | HeadKind::Une | HeadKind::Unz => self.values.other.octets(),
            HeadKind::Unb | HeadKind::Ung | HeadKind::Unh => &[],
        }
    }

    /// The name that it gives; no octets where its kind gives none.
    pub(crate) fn name(&self) -> &'a [u8]
        ensures { result.now ≡ self.now.name }
    {
        match self.kind {
            HeadKind::Ung | HeadKind::Unh => self.values.other.octets(),
            HeadKind::Unb | HeadKind::Unt | HeadKind::Une | HeadKind::Unz => &[],
        }
    }
}

/// A segment's first octet, and its tag if it has one.
#[derive(Clone, Copy, Debug, PartialEq, Eq)]
pub struct SegmentMark {
    pub start: u32,
    pub tag: Option<Tag>,
}
