//! Segments, one after another.
ghost use Rattle.std.specs.Prelude.{◌≡◌, ◌+◌, ◌-◌, ◌≤◌, ℕ, Some, length, slice_get};
ghost use Rattle.seg_lexer.specs.Fields.{IsInOrder, components_at, fields_at};
ghost use Rattle.seg_lexer.specs.Left.{components_left, fields_left};
ghost use Rattle.seg_lexer.specs.Segments.{IsBoundary, IsLexed, boundaries_of};
ghost use Rattle.seg_lexer.specs.Service.{IsUsable};
ghost use Rattle.edi_octets.specs.declared.octets.TheConstants.{LONGEST_TEXT};

use crate::components::Fields;
use crate::scan::{Sought, find_free, skip_breaks};
use crate::service::Service;
use edi_octets::Octets;
use std::sync::ledger::Ledger;
use step_counter::Steps;

/// What is found at a boundary of a text.
#[derive(Clone, Copy, Debug, PartialEq, Eq)]
pub enum Lexed {
    /// A segment: its first octet, and its terminator's place.
    Ended { start: usize, end: usize },
    /// No terminator follows: the first octet of what is left, CR and LF skipped.
    Tail { start: usize },
    /// No terminator follows, and nothing is left but CR and LF.
    Nothing,
}

/// The segment that begins at a boundary, which is the body's start or the octet after a terminator; or else the tail
/// or nothing. The segments of a text are found by going on from the octet after each terminator.
#[inline(always)]
pub fn next_segment<O: Octets, L: Ledger>(
    text: &O,
    service: &Service,
    from: usize,
    lexed: &mut Steps<L>,
) -> Lexed
    requires usable { IsUsable service.now (O.octets text.now) }
    requires short { length (O.octets text.now) ≤ LONGEST_TEXT }
    requires boundary { IsBoundary service.now (O.octets text.now) from }
    ensures lexed { (k : ℕ)
        → slice_get (boundaries_of service.now (O.octets text.now)) k ≡ Some from
        → IsLexed service.now (O.octets text.now) k from result }
    ensures counted { lexed.new ≡ lexed.old + 1 }
{
    lexed.tick();
    let len = text.len();
    let sought = Sought::One(service.terminator);
    match find_free(text, service.release, sought, from, len) {
        Some(found) => Lexed::Ended {
            start: skip_breaks(text, from, found.place),
            end: found.place,
        },
        None => {
            let start = skip_breaks(text, from, len);
            if start < len {
                Lexed::Tail { start }
            } else {
                Lexed::Nothing
            }
        }
    }
}

/// The components of the segment `start..end`, in order, empty ones too: those of the tag field, which is element 0,
/// and then those of each element.
pub fn fields<'a, O: Octets>(
    text: &'a O,
    service: &Service,
    start: usize,
    end: usize,
) -> Fields<'a, O>
    requires usable { IsUsable service.now (O.octets text.now) }
    requires short { length (O.octets text.now) ≤ LONGEST_TEXT }
    requires ordered { start ≤ end }
    requires within { end ≤ length (O.octets text.now) }
    ensures fields { fields_left result ≡ fields_at service.now (O.octets text.now) start end }
    ensures components { components_left result
        ≡ components_at service.now (O.octets text.now) start end }
    ensures in_order { IsInOrder 0 (components_left result) }
    ensures few { length (fields_left result) ≤ end - start + 1 }
{
    Fields::new(text, service, start, end)
}
