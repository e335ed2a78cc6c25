//! The versions of a store.

/// The versions of a store. The first has no greatest numbers of repetitions, and is only read; the second has one for
/// each item of a segment, and is the one that is written.
#[derive(Clone, Copy, Debug)]
pub(crate) enum StoreVersion {
    First,
    Second,
}
