//! The composites of the service segments.
ghost use Rattle.std.specs.Prelude.{◌≡◌, true, IfSome};
ghost use Rattle.std.specs.List.{list_all};
ghost use Rattle.std.specs.Option.{option_copied};
ghost use Rattle.service_tables.specs.ServiceTables.{service_parts_of};
ghost use Rattle.service_tables.specs.Sound.{is_sound_part};

use crate::part;
use edi_tables::{Code, PartDef};

const S001: &[PartDef] = &[part!(b"0001" A 4 M), part!(b"0002" N 1 M)];

const S002: &[PartDef] = &[
    part!(b"0004" An..35 M),
    part!(b"0007" An..4 C),
    part!(b"0008" An..14 C),
];

const S003: &[PartDef] = &[
    part!(b"0010" An..35 M),
    part!(b"0007" An..4 C),
    part!(b"0014" An..14 C),
];

const S004: &[PartDef] = &[part!(b"0017" N 6 M), part!(b"0019" N 4 M)];

// The same in version 4, where the year has four digits.
const S004_IN_VERSION_4: &[PartDef] = &[part!(b"0017" N 8 M), part!(b"0019" N 4 M)];

const S005: &[PartDef] = &[part!(b"0022" An..14 M), part!(b"0025" An 2 C)];

const S006: &[PartDef] = &[part!(b"0040" An..35 M), part!(b"0007" An..4 C)];

const S007: &[PartDef] = &[part!(b"0044" An..35 M), part!(b"0007" An..4 C)];

const S008: &[PartDef] = &[
    part!(b"0052" An..3 M),
    part!(b"0054" An..3 M),
    part!(b"0057" An..6 C),
];

const S009: &[PartDef] = &[
    part!(b"0065" An..6 M),
    part!(b"0052" An..3 M),
    part!(b"0054" An..3 M),
    part!(b"0051" An..2 M),
    part!(b"0057" An..6 C),
];

const S010: &[PartDef] = &[part!(b"0070" N..2 M), part!(b"0073" A 1 C)];

const S011: &[PartDef] = &[part!(b"0098" N..3 M), part!(b"0104" N..3 C)];

/// The components of a composite of the service segments in order, in a version of the syntax, if there is one of that
/// code.
#[tactic(auto, unfolding(crate::specs::ServiceTables::service_parts_of))]
pub fn service_composite(code: Code, version: u8) -> Option<&'static [PartDef]>
    ensures parts { option_copied result ≡ service_parts_of version code.octets }
    ensures sound { IfSome result (λ parts. list_all is_sound_part parts.now ≡ true) }
{
    match &code.octets {
        b"S001" => Some(S001),
        b"S002" => Some(S002),
        b"S003" => Some(S003),
        b"S004" if version == 4 => Some(S004_IN_VERSION_4),
        b"S004" => Some(S004),
        b"S005" => Some(S005),
        b"S006" => Some(S006),
        b"S007" => Some(S007),
        b"S008" => Some(S008),
        b"S009" => Some(S009),
        b"S010" => Some(S010),
        b"S011" => Some(S011),
        _ => None,
    }
}
