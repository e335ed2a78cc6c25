//! The segment table of CONTRL.
ghost use Rattle.std.specs.Prelude.{◌≡◌, true, []};
ghost use Rattle.std.specs.List.{list_all};
ghost use Rattle.edi_tables.specs.Rows.{table_faults};
ghost use Rattle.service_tables.specs.ServiceTables.{contrl_table_rows};
ghost use Rattle.service_tables.specs.Sound.{is_sound_row};

use crate::row;
use edi_tables::TableRow;

const CONTRL: &[TableRow] = &[
    row!(b"UNH" M 1 depth 0),
    row!(b"UCI" M 1 depth 0),
    row!(group C 999999 depth 0),
    row!(b"UCM" M 1 depth 1),
    row!(group C 999 depth 1),
    row!(b"UCS" M 1 depth 2),
    row!(b"UCD" C 99 depth 2),
    row!(group C 999999 depth 0),
    row!(b"UCF" M 1 depth 1),
    row!(group C 999999 depth 1),
    row!(b"UCM" M 1 depth 2),
    row!(group C 999 depth 2),
    row!(b"UCS" M 1 depth 3),
    row!(b"UCD" C 99 depth 3),
    row!(b"UNT" M 1 depth 0),
];

/// The rows of the segment table of CONTRL, version `D`, release `3`, agency `UN`.
pub fn contrl_rows() -> &'static [TableRow]
    ensures rows { result.now ≡ contrl_table_rows }
    ensures lawful { table_faults result.now ≡ [] }
    ensures sound { list_all is_sound_row result.now ≡ true }
{
    CONTRL
}
