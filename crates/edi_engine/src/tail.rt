//! What is left of a text after its last segment.
ghost use Rattle.std.specs.Prelude.{◌≡◌, ◌<◌, ◌≤◌, length, slice_index};
ghost use Rattle.seg_lexer.specs.Segments.{boundaries_of, ends_of, tail_of};
ghost use Rattle.seg_lexer.specs.Service.{IsUsable};
ghost use Rattle.edi_octets.specs.declared.octets.TheConstants.{LONGEST_TEXT};

use edi_octets::Octets;
use seg_lexer::{Lexed, Service, next_segment};
use std::sync::ledger::{Blank, Ledger};
use step_counter::Steps;

/// The place of the first octet of the tail, from 0, if there is one. `from` is the boundary after the last segment. The call of
/// the lexer that finds it is counted by a counter of its own.
pub(crate) fn find_tail<O: Octets, L: Ledger>(
    text: &O,
    service: &Service,
    from: usize,
    blank: Blank,
) -> Option<u32>
    requires name { blank.name ≡ L.name }
    requires parts { blank.parts ≡ L.parts }
    requires some { 0 < blank.parts }
    requires usable { IsUsable service.now (O.octets text.now) }
    requires short { length (O.octets text.now) ≤ LONGEST_TEXT }
    requires last { from ≡ slice_index (boundaries_of service.now (O.octets text.now))
        (length (ends_of service.now (O.octets text.now))) }
    ensures { result ≡ tail_of service.now (O.octets text.now) }
{
    let mut lexed = Steps::<L>::start(blank);
    match next_segment(text, service, from, &mut lexed) {
        Lexed::Tail { start } => Some(start as u32),
        Lexed::Nothing => None,
        Lexed::Ended { .. } => unreachable!(),
    }
}
