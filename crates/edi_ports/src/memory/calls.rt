//! The calls of an object in memory, and which of them fail.
ghost use Rattle.std.specs.Prelude.{◌≡◌, ◌≤◌, ◌<◌, ◌^◌, if◌then◌else◌, length, take};

// How many calls there were, which of them fail, and how many failed.
#[derive(Debug, Drop)]
pub(crate) struct Calls {
    pub(crate) failing: Vec<u64>,
    pub(crate) made: u64,
    pub(crate) faults: u64,
}

impl Calls {
    ghost use Rattle.edi_ports.specs.Memory.{fails_next, after_call, after_fault};
    ghost use Rattle.edi_ports.specs.Faults.{one_more};

    pub(crate) fn new(failing: Vec<u64>) -> Calls
        ensures { result ≡ record { failing = failing; made = 0; faults = 0 } }
    {
        Calls {
            failing,
            made: 0,
            faults: 0,
        }
    }

    // Counts one more call, and tells whether it fails.
    pub(crate) fn next_fails(&mut self) -> bool
        ensures fails { result ≡ fails_next self.old }
        ensures after { self.new ≡ after_call self.old }
        ensures counted { self.new.faults
            ≡ (if result then one_more self.old.faults else self.old.faults) }
        ensures fits { self.old.faults < 2 ^ 64 → self.new.faults < 2 ^ 64 }
    {
        let call = self.made;
        self.made = self.made.saturating_add(1);
        if self.failing.contains(&call) {
            self.fail();
            return true;
        }
        false
    }

    pub(crate) fn fail(&mut self)
        ensures after { self.new ≡ after_fault self.old }
        ensures counted { self.new.faults ≡ one_more self.old.faults }
    {
        self.faults = self.faults.saturating_add(1);
    }
}

// Copies the part to the front of the buffer.
pub(crate) fn copy_front(buffer: &mut [u8], part: &[u8])
    requires { length part.now ≤ length buffer.old }
    ensures { take (length part.now) buffer.new ≡ part.now }
{
    let n = part.len();
    buffer[..n].copy_from_slice(part);
}
