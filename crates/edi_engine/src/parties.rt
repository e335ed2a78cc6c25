//! The parties of an interchange and of a functional group.
ghost use Rattle.std.specs.Prelude.{◌≡◌, IfOk};
ghost use Rattle.seg_lexer.specs.Left.{components_left};
ghost use Rattle.segment_records.specs.Openers.{party_in};

use contrl_segments::Party;
use edi_octets::Octets;
use edi_tables::Chunk;
use seg_lexer::Fields;
use segment_records::copy_two;
use std::alloc::{AllocError, Global};

/// A party in an element of a UNB or a UNG, by its first two components, with this route.
pub(crate) fn copy_party<O: Octets>(
    alloc: Global,
    components: Fields<'_, O>,
    element: u32,
    route: Chunk,
) -> Result<Party, AllocError>
    ensures { IfOk result (λ party. party
        ≡ party_in (components_left components.entry) element route) }
{
    let (id, qualifier) = copy_two(alloc, components, (element, 1), (element, 2))?;
    Ok(Party {
        id,
        qualifier,
        route,
    })
}
