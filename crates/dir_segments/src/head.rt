//! The heads of segments.
ghost use Rattle.std.specs.Prelude.{◌≡◌, List, [], ◌∷◌, ◌++◌, map, OnOk};
ghost use Rattle.edi_tables.specs.First.{IsVerdict, unless_faulty};
ghost use Rattle.edi_tables.specs.Tag.{is_tag_of};
ghost use Rattle.edi_octets.specs.DirStop.{fault_in};
ghost use Rattle.edi_octets.specs.Head.{head_faults, head_field};
ghost use Rattle.edi_octets.specs.Left.{line_shown};
ghost use Rattle.edi_octets.specs.Lines.{Line};

use edi_octets::{DirStop, EarlierNames, LineText};
use edi_tables::Tag;

/// Reads the head of a segment's entry after others, whose tags are seen: its tag and a name.
pub(crate) fn read_tag_head<'a>(
    head: &LineText<'a>,
    seen: &mut EarlierNames<'a>,
) -> Result<Tag, DirStop>
    ensures judged { (earlier : List (List Line)) → seen.old ≡ map head_field earlier
        → IsVerdict (λ tag. tag) fault_in result
        (unless_faulty (head_faults is_tag_of earlier (line_shown head.now))
        (record { octets = head_field (line_shown head.now ∷ []) })) }
    ensures joins { OnOk result
        (seen.new ≡ seen.old ++ head_field (line_shown head.now ∷ []) ∷ []) }
{
    seen.read_head(head, Tag::read(head.first_field()))
}
