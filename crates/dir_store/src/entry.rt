//! What a store lists, read and put one after another.
ghost use Rattle.std.specs.Prelude.{◌≡◌, ◌++◌, List, ℕ, Option, Result, [], OnOk};
ghost use Rattle.std.specs.List.{flat_map};
ghost use Rattle.std.specs.Option.{option_copied};
ghost use Rattle.edi_tables.specs.First.{IsVerdict};
ghost use Rattle.dir_store.specs.Spelling.{listed};
ghost use Rattle.dir_store.specs.Store.{section_at};
ghost use Rattle.dir_store.specs.Lines.{several};
ghost use Rattle.dir_store.specs.LineStop.{left_in};

use crate::earlier::EarlierDefinitions;
use crate::line::{read_line, section_on};
use crate::line_stop::Stop;
use edi_octets::put_decimal;
use edi_tables::Chunk;
use std::alloc::{AllocError, Global};

/// A member of one of a store's lists: it has a line, or a line and a list of its own.
pub trait Entry: Sized + Drop {
    ghost use Rattle.dir_store.specs.declared.earlier.EarlierDefinitions.{EarlierDefinitions};

    ghost text: { Self → List ℕ };

    ghost read_at: { EarlierDefinitions → Option Self → List ℕ → Result (Self × List ℕ) ℕ };

    /// Reads a member and gives the octets after it. It comes after the one before, if there is one.
    fn read<'o>(
        alloc: Global,
        known: &EarlierDefinitions<'_>,
        before: Option<&Self>,
        octets: &'o [u8],
    ) -> Result<(Self, &'o [u8]), Stop>
        ensures { IsVerdict (λ x. (x.0, x.1.now)) left_in result
            (read_at known.now (option_copied before.entry) octets.now) };

    /// Puts the lines of a member at the end.
    fn put(&self, out: &mut Chunk) -> Result<(), AllocError>
        ensures { OnOk result (out.new ≡ out.old ++ text self.now) };
}

// For how many members there is room at first: no message has more rows. A greater count may be wrong.
const MOST_ROOM: u64 = 2000;

/// Reads so many members, and gives the octets after them.
pub fn read_several<'o, T: Entry>(
    alloc: Global,
    known: &EarlierDefinitions<'_>,
    count: u64,
    octets: &'o [u8],
) -> Result<(Vec<T>, &'o [u8]), Stop>
    ensures { IsVerdict (λ x. (x.0.items, x.1.now)) left_in result
        (several count (T.read_at known.now) [] octets.now) }
{
    let mut members = Vec::with_capacity(alloc, count.min(MOST_ROOM) as usize)?;
    let mut rest = octets;
    for _ in 0..count {
        let (member, after) = T::read(alloc, known, members.last(), rest)?;
        members.push(member)?;
        rest = after;
    }
    Ok((members, rest))
}

/// Reads the section of that letter, and gives the octets after it.
#[tactic(auto, unfolding(crate::specs::Store::section_at))]
pub fn read_section<'o, T: Entry>(
    alloc: Global,
    known: &EarlierDefinitions<'_>,
    letter: &[u8],
    octets: &'o [u8],
) -> Result<(Vec<T>, &'o [u8]), Stop>
    ensures { IsVerdict (λ x. (x.0.items, x.1.now)) left_in result
        (section_at letter.now (T.read_at known.now) octets.now) }
{
    let (line, rest) = read_line(octets)?;
    let (_, count) = section_on(line, letter).ok_or(Stop::at(octets))?;
    let (members, rest) = read_several(alloc, known, count, rest)?;
    Ok((members, rest))
}

/// Puts members at the end.
pub fn put_all<T: Entry>(out: &mut Chunk, members: &[T]) -> Result<(), AllocError>
    ensures { OnOk result (out.new ≡ out.old ++ flat_map T.text members.now) }
{
    for member in members {
        member.put(out)?;
    }
    Ok(())
}

/// Puts a list under its name at the end.
pub fn put_listed<T: Entry>(out: &mut Chunk, name: &[u8], members: &[T]) -> Result<(), AllocError>
    ensures { OnOk result (out.new ≡ out.old ++ listed name.now T.text members.now) }
{
    out.add(name)?;
    out.add(b" ")?;
    put_decimal(out, members.len() as u64)?;
    out.add(b"\n")?;
    put_all(out, members)
}
