//! The heads of composites.
ghost use Rattle.std.specs.Prelude.{◌≡◌, List, [], ◌∷◌, ◌++◌, map, OnOk};
ghost use Rattle.edi_tables.specs.First.{IsVerdict, unless_faulty};
ghost use Rattle.edi_tables.specs.Forms.{is_composite_code};
ghost use Rattle.edi_octets.specs.DirStop.{fault_in};
ghost use Rattle.edi_octets.specs.Head.{head_faults, head_field};
ghost use Rattle.edi_octets.specs.Left.{line_shown};
ghost use Rattle.edi_octets.specs.Lines.{Line};

use edi_octets::{DirStop, EarlierNames, LineText, read_composite_code};
use edi_tables::Code;

/// Reads the head of a composite's entry after others, whose codes are seen: its code and a name.
pub(crate) fn read_code_head<'a>(
    head: &LineText<'a>,
    seen: &mut EarlierNames<'a>,
) -> Result<Code, DirStop>
    ensures judged { (earlier : List (List Line)) → seen.old ≡ map head_field earlier
        → IsVerdict (λ code. code) fault_in result
        (unless_faulty (head_faults is_composite_code earlier (line_shown head.now))
        (record { octets = head_field (line_shown head.now ∷ []) })) }
    ensures joins { OnOk result
        (seen.new ≡ seen.old ++ head_field (line_shown head.now ∷ []) ∷ []) }
{
    seen.read_head(head, read_composite_code(head.first_field()))
}
