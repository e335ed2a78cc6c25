//! One call of std, and the count of its faults.
ghost use Rattle.std.specs.Prelude.{◌≡◌, ◌<◌, ◌^◌, length};
ghost use Rattle.edi_ports.specs.Faults.{one_more};
ghost use Rattle.edi_ports.specs.Source.{IsTake, count_after_take};

use crate::Taken;
use std::io::Read;

// One call of `read`. An error is a fault.
pub(super) fn take_once<R: Read>(reader: &mut R, buffer: &mut [u8], faults: &mut u64) -> Taken
    requires { 0 < length buffer.old }
    ensures taken { IsTake (R.remaining reader.old) (R.remaining reader.new) buffer.new result }
    ensures counted { faults.new ≡ count_after_take faults.old result }
    ensures fits { faults.old < 2 ^ 64 → faults.new < 2 ^ 64 }
{
    match reader.read(buffer) {
        Ok(0) => Taken::End,
        Ok(n) => Taken::Got(n),
        Err(_) => {
            raise(faults);
            Taken::Failed
        }
    }
}

// Counts one fault.
pub(super) fn raise(faults: &mut u64)
    ensures counted { faults.new ≡ one_more faults.old }
    ensures fits { faults.new < 2 ^ 64 }
{
    *faults = faults.saturating_add(1);
}
