//! What a call comes to, and how the caller gets it.
ghost use Rattle.std.specs.Prelude.{◌≡◌, ◌≤◌, length};
ghost use Rattle.edicheck_c.specs.Answer.{IsHandedOut, no_memory_answer, printing, refusing};

use crate::code::{NO_MEMORY, NO_ROOM};
use edi_tables::Chunk;
use std::alloc::Global;

/// A code, the octets that are printed, and the number that goes with the code: how many octets are printed, or the place of
/// a fault.
#[derive(Drop)]
pub(crate) struct Answer {
    pub(crate) code: u32,
    pub(crate) printed: Chunk,
    pub(crate) number: usize,
}

impl Answer {
    /// Octets are printed, with this code.
    pub(crate) fn printing(code: u32, printed: Chunk) -> Answer
        ensures { result ≡ printing code printed }
    {
        let number = printed.octets().len();
        Answer {
            code,
            printed,
            number,
        }
    }

    /// Nothing is printed, with this code and this number. It takes no memory.
    pub(crate) fn refusing(alloc: Global, code: u32, number: usize) -> Answer
        ensures { result ≡ refusing code number }
    {
        Answer {
            code,
            printed: Chunk::empty(alloc),
            number,
        }
    }

    /// Memory was refused.
    pub(crate) fn no_memory(alloc: Global) -> Answer
        ensures { result ≡ no_memory_answer }
    {
        Answer::refusing(alloc, NO_MEMORY, 0)
    }
}

/// Gives the caller an answer: its octets in front of the buffer, if they have room there, its number and its code.
pub(crate) fn hand_out(answer: &Answer, out: &mut [u8], needed: &mut usize) -> u32
    ensures { IsHandedOut answer.now
        (record { before = out.old; after = out.new; needed = needed.new; code = result }) }
{
    let printed = answer.printed.octets();
    if out.len() < printed.len() {
        *needed = printed.len();
        return NO_ROOM;
    }
    out[..printed.len()].copy_from_slice(printed);
    *needed = answer.number;
    answer.code
}
