//! Names that are found at their places, most of them by a first look.
ghost use Rattle.std.specs.Prelude.{◌≡◌, ◌<◌, List, ℕ, All, IfOk, IfSome, IsTrue, length, position};
ghost use Rattle.std.specs.List.{list_any};
ghost use Rattle.std.specs.Str.{bytes_eq};
ghost use Rattle.dir_compile.specs.Known.{IsHint};
ghost use Rattle.dir_compile.specs.declared.known.TheConstants.{SLOTS};

use crate::names::{Named, octets_of};
use crate::number::{MOST_OCTETS, number_of, spread};
use indexmap::IndexSet;
use std::alloc::{AllocError, Global};
use std::marker::Model;

/// How many names are remembered at most.
const SLOTS: usize = 2_048;

/// A name that may be asked for, and its place among the names, if it is one of them.
#[derive(Clone, Copy, Debug)]
struct Hint<const N: usize> {
    name: [u8; N],
    place: Option<u32>,
}

/// Names, seen as a list in the order of their definitions. It is remembered where some of them are, and of some others that
/// they aren't there.
///
/// A segment of a text asks for several names, and a look at what is remembered costs less than a hash.
#[derive(Drop)]
pub(crate) struct KnownNames<const N: usize> {
    names: IndexSet<[u8; N]>,
    // `SLOTS` of them.
    hints: Vec<Option<Hint<N>>>,
}

impl<const N: usize> Model for KnownNames<N> {
    ghost use Rattle.std.specs.Prelude.{List, ℕ};

    ghost Value = { List (List ℕ) };

    ghost use Rattle.dir_compile.specs.Known.{AreHints};

    ghost view = { λ known. known.names.keys };

    ghost invariant = { λ known. AreHints known.names.keys known.hints.items };
}

impl<const N: usize> KnownNames<N> {
    /// These names. It is remembered where those that are asked for are among them.
    pub(crate) fn of<T: Named>(
        alloc: Global,
        names: IndexSet<[u8; N]>,
        asked: &[T],
    ) -> Result<KnownNames<N>, AllocError>
        requires long { All (λ x. length (T.name_of x) ≡ N) asked.now }
        ensures { IfOk result (λ known. known ≡ names.entry.keys) }
    {
        let mut hints = Vec::from_elem(alloc, None, SLOTS)?;
        for item in asked {
            let name = octets_of::<N>(item.name());
            hints[slot_of(&name)] = hint_of(&names, name);
        }
        Ok(KnownNames { names, hints })
    }

    /// The place of a name, if it is there.
    #[inline(always)]
    pub(crate) fn place_of(&self, name: &[u8; N]) -> Option<usize>
        ensures index { result ≡ position (bytes_eq name.now) self.now }
    {
        if let Some(hint) = &self.hints[slot_of(name)] {
            if are_same(&hint.name, name) {
                return match hint.place {
                    Some(place) => Some(place as usize),
                    None => None,
                };
            }
        }
        self.names.get_index_of(name)
    }

    /// Whether a name is there.
    pub(crate) fn contains(&self, name: &[u8; N]) -> bool
        ensures { result ≡ list_any (bytes_eq name.now) self.now }
    {
        self.names.contains(name)
    }
}

// A name and its place among these, if that fits 32 bits.
fn hint_of<const N: usize>(names: &IndexSet<[u8; N]>, name: [u8; N]) -> Option<Hint<N>>
    ensures { IfSome result (IsHint names.now.keys) }
{
    let place = match names.get_index_of(&name) {
        Some(place) => Some(u32::try_from(place).ok()?),
        None => None,
    };
    Some(Hint { name, place })
}

// Whether two names are the same, if they are short. They are compared at once.
#[inline(always)]
fn are_same<const N: usize>(one: &[u8; N], other: &[u8; N]) -> bool
    ensures { IsTrue result → one.now ≡ other.now }
{
    N <= MOST_OCTETS && number_of(one) == number_of(other)
}

// The slot in which a name is remembered.
#[inline(always)]
fn slot_of<const N: usize>(name: &[u8; N]) -> usize
    ensures { result < SLOTS }
{
    if N > MOST_OCTETS {
        return 0;
    }
    spread(number_of(name)) as usize % SLOTS
}
