//! The service segments.
ghost use Rattle.std.specs.Prelude.{ℕ, ◌≡◌, true, IfSome};
ghost use Rattle.std.specs.List.{list_all};
ghost use Rattle.std.specs.Option.{option_copied};
ghost use Rattle.service_tables.specs.ServiceTables.{service_items_of};
ghost use Rattle.service_tables.specs.Sound.{is_sound_item};

use crate::{alone, composite};
use edi_tables::{ItemDef, Tag};

const UNB: &[ItemDef] = &[
    composite!(b"S001" M),
    composite!(b"S002" M),
    composite!(b"S003" M),
    composite!(b"S004" M),
    alone!(b"0020" An..14 M),
    composite!(b"S005" C),
    alone!(b"0026" An..14 C),
    alone!(b"0029" A 1 C),
    alone!(b"0031" N 1 C),
    alone!(b"0032" An..35 C),
    alone!(b"0035" N 1 C),
];

const UNG: &[ItemDef] = &[
    alone!(b"0038" An..6 M),
    composite!(b"S006" M),
    composite!(b"S007" M),
    composite!(b"S004" M),
    alone!(b"0048" An..14 M),
    alone!(b"0051" An..2 M),
    composite!(b"S008" M),
    alone!(b"0058" An..14 C),
];

const UNH: &[ItemDef] = &[
    alone!(b"0062" An..14 M),
    composite!(b"S009" M),
    alone!(b"0068" An..35 C),
    composite!(b"S010" C),
];

const UNT: &[ItemDef] = &[alone!(b"0074" N..6 M), alone!(b"0062" An..14 M)];

const UNE: &[ItemDef] = &[alone!(b"0060" N..6 M), alone!(b"0048" An..14 M)];

const UNZ: &[ItemDef] = &[alone!(b"0036" N..6 M), alone!(b"0020" An..14 M)];

const UNS: &[ItemDef] = &[alone!(b"0081" A 1 M)];

const UCI: &[ItemDef] = &[
    alone!(b"0020" An..14 M),
    composite!(b"S002" M),
    composite!(b"S003" M),
    alone!(b"0083" An..3 M),
    alone!(b"0085" An..3 C),
    alone!(b"0013" An 3 C),
    composite!(b"S011" C),
];

const UCF: &[ItemDef] = &[
    alone!(b"0048" An..14 M),
    composite!(b"S006" M),
    composite!(b"S007" M),
    alone!(b"0083" An..3 M),
    alone!(b"0085" An..3 C),
    alone!(b"0013" An 3 C),
    composite!(b"S011" C),
];

const UCM: &[ItemDef] = &[
    alone!(b"0062" An..14 M),
    composite!(b"S009" M),
    alone!(b"0083" An..3 M),
    alone!(b"0085" An..3 C),
    alone!(b"0013" An 3 C),
    composite!(b"S011" C),
];

const UCS: &[ItemDef] = &[alone!(b"0096" N..6 M), alone!(b"0085" An..3 C)];

const UCD: &[ItemDef] = &[alone!(b"0085" An..3 M), composite!(b"S011" M)];

/// The data elements of a service segment in order, if there is one of that tag. Each composite of them is a service
/// composite of each version of the syntax.
#[tactic(auto, unfolding(crate::specs::ServiceTables::service_items_of, crate::specs::ServiceTables::service_parts_of))]
pub fn service_segment(tag: Tag) -> Option<&'static [ItemDef]>
    ensures items { option_copied result ≡ service_items_of tag.octets }
    ensures sound { IfSome result (λ items.
        (version : ℕ) → list_all (is_sound_item version) items.now ≡ true) }
{
    match &tag.octets {
        b"UNB" => Some(UNB),
        b"UNG" => Some(UNG),
        b"UNH" => Some(UNH),
        b"UNT" => Some(UNT),
        b"UNE" => Some(UNE),
        b"UNZ" => Some(UNZ),
        b"UNS" => Some(UNS),
        b"UCI" => Some(UCI),
        b"UCF" => Some(UCF),
        b"UCM" => Some(UCM),
        b"UCS" => Some(UCS),
        b"UCD" => Some(UCD),
        _ => None,
    }
}
