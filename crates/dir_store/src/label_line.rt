//! The labels of a directory on the second line of its store.
ghost use Rattle.std.specs.Prelude.{◌≡◌, IfOk};
ghost use Rattle.dir_store.specs.Rules.{labels_in};

use edi_octets::{Labels, three_words};
use std::alloc::{AllocError, Global};

/// The labels on a line of three words, if it has them.
pub(crate) fn read_labels(alloc: Global, line: &[u8]) -> Result<Option<Labels>, AllocError>
    ensures { IfOk result (λ labels. labels ≡ labels_in line.now) }
{
    match three_words(line) {
        Some((version, release, agency)) => Labels::of(alloc, version, release, agency),
        None => Ok(None),
    }
}
