//! Data elements, code lists and composites of a directory.
ghost use Rattle.std.specs.Prelude.{◌≡◌, ◌==◌, Some, None, length, if◌then◌else◌};

use crate::{Chunk, List};

/// The name of a data element (four digits) or of a composite (`C` or `S` and three digits).
#[derive(Clone, Copy, Debug, PartialEq, Eq, PartialOrd, Ord, Hash)]
pub struct Code {
    pub octets: [u8; 4],
}

impl Code {
    /// The code that four octets are; no other octets are one.
    pub fn read(part: &[u8]) -> Option<Code>
        ensures { result
            ≡ (if length part.now == 4 then Some (record { octets = part.now }) else None) }
    {
        match part {
            [first, second, third, fourth] => Some(Code {
                octets: [*first, *second, *third, *fourth],
            }),
            _ => None,
        }
    }
}

/// What characters a value has: letters, digits, or both.
#[derive(Clone, Copy, Debug, PartialEq, Eq)]
pub enum Class {
    A,
    N,
    An,
}

/// A representation: `an3` is exact, `an..35` has a greatest length. Lengths count octets, from 1 to 9999.
#[derive(Clone, Copy, Debug, PartialEq, Eq)]
pub struct Repr {
    pub class: Class,
    pub exact: bool,
    pub max: u16,
}

/// A data element and its representation.
#[derive(Clone, Copy, Debug, PartialEq, Eq)]
pub struct ElementDef {
    pub code: Code,
    pub repr: Repr,
}

/// The values that a coded data element may have, each of 1 to 35 octets.
#[derive(Debug, Drop)]
pub struct CodeList {
    pub element: Code,
    pub values: List<Chunk>,
}

/// A data element where it is used: in a composite, or alone in a segment.
#[derive(Clone, Copy, Debug, PartialEq, Eq)]
pub struct PartDef {
    pub code: Code,
    pub must: bool,
    pub repr: Repr,
}

/// A composite and its components, in order.
#[derive(Debug, Drop)]
pub struct CompositeDef {
    pub code: Code,
    pub parts: List<PartDef>,
}
