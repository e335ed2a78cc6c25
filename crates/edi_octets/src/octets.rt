//! Texts that are read by place, however they are kept.
ghost use Rattle.std.specs.Prelude.{List, ℕ, ◌≡◌, ◌+◌, ◌<◌, ◌≤◌, length, slice_index, slice_range};

/// The most octets that a text or a file may have, by this project's own limit.
pub const LONGEST_TEXT: usize = 4_194_304;

/// A text that is read by place: contracts see it as the list of its octets, numbered from 0.
pub trait Octets {
    /// The octets of the list.
    ghost octets: { Self → List ℕ };

    /// How many octets it has.
    fn len(&self) -> usize
        ensures { result ≡ length (octets self.now) };

    /// The octet at a place.
    fn octet(&self, i: usize) -> u8
        requires { i < length (octets self.now) }
        ensures { result ≡ slice_index (octets self.now) i };

    /// A part of it that begins at a place and isn't empty. How long it is depends on how the text is kept.
    fn slice_at(&self, i: usize) -> &[u8]
        requires { i < length (octets self.now) }
        ensures nonempty { 0 < length result.now }
        ensures within { i + length result.now ≤ length (octets self.now) }
        ensures part { result.now ≡ slice_range (octets self.now) i (i + length result.now) };
}

/// A text in one slice.
#[derive(Clone, Copy, Debug)]
pub struct Flat<'a> {
    pub octets: &'a [u8],
}

impl Octets for Flat<'_> {
    ghost octets = { λ s. s.octets.now };

    fn len(&self) -> usize {
        self.octets.len()
    }

    fn octet(&self, i: usize) -> u8 {
        self.octets[i]
    }

    fn slice_at(&self, i: usize) -> &[u8] {
        &self.octets[i..]
    }
}
