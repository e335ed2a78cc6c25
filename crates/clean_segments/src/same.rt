//! Whether two lists of octets are the same.
ghost use Rattle.std.specs.Prelude.{◌≡◌, ◌+◌, ◌≤◌, length, slice_range, IsTrue};

/// Whether they are the same. They are compared eight at a time, and the last eight once more.
pub(crate) fn are_same(one: &[u8], other: &[u8]) -> bool
    ensures { IsTrue result → one.now ≡ other.now }
{
    let len = one.len();
    if len != other.len() {
        return false;
    }
    if len < 8 {
        return one == other;
    }
    let last = len - 8;
    let mut at = 0;
    while at < last {
        if !are_eight_same(one, other, at) {
            return false;
        }
        at += 8;
    }
    are_eight_same(one, other, last)
}

// Whether the eight octets from a place on are the same.
#[inline(always)]
fn are_eight_same(one: &[u8], other: &[u8], at: usize) -> bool
    requires one { at + 8 ≤ length one.now }
    requires other { at + 8 ≤ length other.now }
    ensures { IsTrue result → slice_range one.now at (at + 8) ≡ slice_range other.now at (at + 8) }
{
    match (one[at..].first_chunk::<8>(), other[at..].first_chunk::<8>()) {
        (Some(octets), Some(others)) => u64::from_le_bytes(*octets) == u64::from_le_bytes(*others),
        _ => false,
    }
}
