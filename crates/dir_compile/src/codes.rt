//! Code lists in which most codes are found by a first look.
ghost use Rattle.std.specs.Prelude.{◌≡◌, All, IfOk, IsTrue, set, true};
ghost use Rattle.std.specs.List.{list_any};
ghost use Rattle.std.specs.Str.{bytes_eq};
ghost use Rattle.edi_tables.specs.Ascending.{IsAscendingBy};
ghost use Rattle.dir_compile.specs.Codes.{IsCodeNumber};
ghost use Rattle.dir_compile.specs.Compile.{value_name};

use crate::number::{MOST_OCTETS, number_of, spread};
use edi_tables::{Chunk, CodeList, List};
use std::alloc::{AllocError, Global};
use std::marker::Model;

/// No list has more slots than twice these.
const MOST_SLOTS: usize = 65_536;

/// A code list of a directory, with its codes in ascending order. It is seen as the list.
///
/// A value of a text is compared with a few of its codes at least, each in memory of its own. So the numbers of its codes lie in
/// one piece, most of them where they are looked for.
#[derive(Drop)]
pub struct Codes<'a> {
    list: &'a CodeList,
    numbers: &'a [u64],
}

impl<'a> Model for Codes<'a> {
    ghost use Rattle.edi_tables.specs.declared.element.CodeList.{CodeList};
    ghost use Rattle.dir_compile.specs.Codes.{AreFound};

    ghost Value = { CodeList };

    ghost view = { λ codes. codes.list.now };

    ghost invariant = { λ codes. AreFound codes.list.now codes.numbers.now };
}

impl<'a> Codes<'a> {
    /// The codes of this list, of which some have these numbers.
    #[inline(always)]
    pub(crate) fn of(list: &'a CodeList, numbers: &'a [u64]) -> Codes<'a>
        requires ordered { IsAscendingBy value_name list.now.values }
        requires numbers { All (IsCodeNumber list.now.values) numbers.now }
        ensures { result ≡ list.now }
    {
        Codes { list, numbers }
    }

    /// The list.
    pub fn list(&self) -> &'a CodeList
        ensures list { result.now ≡ self.now }
        ensures ordered { IsAscendingBy value_name self.now.values }
    {
        self.list
    }

    /// Whether these octets are seen at once to be one of its codes. No says nothing of them.
    #[inline(always)]
    pub fn knows(&self, octets: &[u8]) -> bool
        ensures { IsTrue result
            → list_any (λ code. bytes_eq code octets.now) self.now.values ≡ true }
    {
        if octets.len() > MOST_OCTETS {
            return false;
        }
        let number = number_of(octets);
        match self.numbers.get(slot_of(number, self.numbers.len())) {
            Some(known) => *known == number,
            None => false,
        }
    }
}

/// The numbers of some of these codes, each in its slot. There is room for twice as many as there are codes.
pub(crate) fn numbers_of(alloc: Global, codes: &[Chunk]) -> Result<List<u64>, AllocError>
    ensures { IfOk result (λ numbers. All (IsCodeNumber codes.now) numbers) }
{
    let mut numbers = Vec::new(alloc);
    for code in codes {
        let octets = code.octets();
        if octets.len() <= MOST_OCTETS {
            let number = number_of(octets);
            if numbers.is_empty() {
                numbers = Vec::from_elem(alloc, number, slots_for(codes.len()))?;
            }
            let slot = slot_of(number, numbers.len());
            put(&mut numbers, slot, number);
        }
    }
    Ok(List::of(numbers))
}

// Puts a number in a slot, if there is such a slot.
fn put(numbers: &mut Vec<u64>, slot: usize, number: u64)
    ensures { numbers.new.items ≡ set numbers.old.items slot number }
{
    if let Some(place) = numbers.get_mut(slot) {
        *place = number;
    }
}

// How many slots there are for so many codes: a power of two.
fn slots_for(codes: usize) -> usize {
    let mut slots = 2;
    while slots < codes && slots < MOST_SLOTS {
        slots *= 2;
    }
    2 * slots
}

// The slot of a number among so many, which are a power of two.
#[inline(always)]
fn slot_of(number: u64, slots: usize) -> usize {
    spread(number) as usize & slots.wrapping_sub(1)
}
