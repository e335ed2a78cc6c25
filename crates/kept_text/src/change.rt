//! What an edit puts in place of a text's records.
ghost use Rattle.std.specs.Prelude.{◌≡◌, ◌+◌, ◌-◌, ◌<◌, ◌≤◌, ◌^◌, ◌++◌, length, IfOk};
ghost use Rattle.kept_text.specs.Change.{changed_by};

use segment_records::Record;
use seq_tree::Seq;
use std::alloc::{AllocError, Global};

/// The records that come in place of those from number `first` up to number `next`: those that were read, and after them those
/// that were placed again.
#[derive(Drop)]
pub(crate) struct Change {
    pub(crate) first: usize,
    pub(crate) next: usize,
    pub(crate) read: Vec<Record>,
    pub(crate) again: Vec<Record>,
}

impl Change {
    /// The records so changed. Only want of memory is an error.
    pub(crate) fn apply(
        self,
        alloc: Global,
        records: &Seq<Record>,
    ) -> Result<Seq<Record>, AllocError>
        requires in_order { self.first ≤ self.next }
        requires within { self.next ≤ length records.now }
        requires few { length (changed_by self records.now) < 2 ^ 32 }
        ensures { IfOk result (λ changed. changed ≡ changed_by self records.now) }
    {
        let Change {
            first,
            next,
            mut read,
            mut again,
        } = self;
        read.append(&mut again)?;
        let others = Seq::of_items(alloc, read)?;
        records.splice(alloc, first, next, &others)
    }
}
