//! An input and a shelf that remember, for a hint, what a fault was about. What they do is what those under them do.
ghost use Rattle.std.specs.Prelude.{◌≡◌, ◌≤◌, ◌<◌, ◌^◌};

use edi_ports::{Opened, Shelf, Source, Taken};

// The longest name of a file that is opened.
const LONGEST_NAME: usize = 128;

/// A source that counts what is taken from it.
#[derive(Drop)]
pub struct WatchedSource<I> {
    source: I,
    taken: u64,
    has_ended: bool,
}

impl<I: Source> WatchedSource<I> {
    /// This source, of which nothing was taken.
    pub fn new(source: I) -> WatchedSource<I> {
        WatchedSource {
            source,
            taken: 0,
            has_ended: false,
        }
    }

    /// How many octets were taken.
    pub fn taken(&self) -> u64 {
        self.taken
    }

    /// Whether the last call found the end.
    pub fn has_ended(&self) -> bool {
        self.has_ended
    }
}

impl<I: Source> Source for WatchedSource<I> {
    ghost rest = { λ s. I.rest s.source };

    ghost faults = { λ s. I.faults s.source };

    ghost is_steady = { λ s. I.is_steady s.source };

    ghost fits = { λ s. I.fits s.source };

    fn take(&mut self, buffer: &mut [u8]) -> Taken {
        let taken = self.source.take(buffer);
        self.has_ended = taken == Taken::End;
        if let Taken::Got(n) = taken {
            self.taken = self.taken.saturating_add(n as u64);
        }
        taken
    }
}

// The name of a file, kept without memory; a longer one, which no file here has, is kept as none.
#[derive(Clone, Copy)]
struct FileName {
    octets: [u8; LONGEST_NAME],
    length: usize,
    ghost fits: { length ≤ 128 },
}

impl FileName {
    fn of(name: &[u8]) -> FileName {
        let mut octets = [0; LONGEST_NAME];
        let mut length = 0;
        if name.len() <= LONGEST_NAME {
            octets[..name.len()].copy_from_slice(name);
            length = name.len();
        }
        FileName { octets, length }
    }
}

/// A shelf that remembers the file that it couldn't open or read.
#[derive(Drop)]
pub struct WatchedShelf<S> {
    shelf: S,
    name: FileName,
    has_failed: bool,
}

impl<S: Shelf> WatchedShelf<S> {
    /// This shelf, before its first file.
    pub fn new(shelf: S) -> WatchedShelf<S> {
        WatchedShelf {
            shelf,
            name: FileName::of(b""),
            has_failed: false,
        }
    }

    /// The name of the file that couldn't be opened or read last, if there is one.
    pub fn failed(&self) -> Option<&[u8]> {
        if self.has_failed {
            Some(&self.name.octets[..self.name.length])
        } else {
            None
        }
    }
}

impl<S: Shelf> Shelf for WatchedShelf<S> {
    ghost files = { λ s. S.files s.shelf };

    ghost rest = { λ s. S.rest s.shelf };

    ghost is_open = { λ s. S.is_open s.shelf };

    ghost faults = { λ s. S.faults s.shelf };

    ghost is_steady = { λ s. S.is_steady s.shelf };

    ghost fits = { λ s. S.fits s.shelf };

    fn open(&mut self, name: &[u8]) -> Opened {
        self.name = FileName::of(name);
        let opened = self.shelf.open(name);
        self.has_failed = opened == Opened::Failed;
        opened
    }

    fn take(&mut self, buffer: &mut [u8]) -> Taken {
        let taken = self.shelf.take(buffer);
        self.has_failed = taken == Taken::Failed;
        taken
    }
}
