//! The lines of data elements, code lists and composites.
ghost use Rattle.std.specs.Prelude.{◌≡◌, ◌++◌, OnOk};
ghost use Rattle.dir_store.specs.Spelling.{element_text, list_text, value_text, part_text, composite_text, repr_text, class_text};
ghost use Rattle.dir_store.specs.Store.{element_at, list_at, value_at, part_at, composite_at};

use crate::definition_line::{composite_on, element_on, is_code_value, list_on, part_on};
use crate::earlier::EarlierDefinitions;
use crate::entry::{Entry, put_listed, read_several};
use crate::line::{comes_after, read_line};
use crate::line_stop::Stop;
use edi_octets::{put_decimal, put_status};
use edi_tables::{
    Chunk, Class, CodeList, CompositeDef, ElementDef, List as Members, PartDef, Repr,
};
use std::alloc::{AllocError, Global};

impl Entry for ElementDef {
    ghost text = { element_text };

    ghost read_at = { λ known. element_at };

    #[tactic(auto, unfolding(crate::specs::Store::element_at))]
    fn read<'o>(
        _: Global,
        _: &EarlierDefinitions<'_>,
        before: Option<&ElementDef>,
        octets: &'o [u8],
    ) -> Result<(ElementDef, &'o [u8]), Stop> {
        let (line, rest) = read_line(octets)?;
        let element = element_on(line, before).ok_or(Stop::at(octets))?;
        Ok((element, rest))
    }

    fn put(&self, out: &mut Chunk) -> Result<(), AllocError> {
        out.add(&self.code.octets)?;
        out.add(b" ")?;
        put_repr(out, self.repr)?;
        out.add(b"\n")
    }
}

fn put_repr(out: &mut Chunk, repr: Repr) -> Result<(), AllocError>
    ensures { OnOk result (out.new ≡ out.old ++ repr_text repr) }
{
    put_class(out, repr.class)?;
    if !repr.exact {
        out.add(b"..")?;
    }
    put_decimal(out, u64::from(repr.max))
}

fn put_class(out: &mut Chunk, class: Class) -> Result<(), AllocError>
    ensures { OnOk result (out.new ≡ out.old ++ class_text class) }
{
    match class {
        Class::A => out.add(b"a"),
        Class::N => out.add(b"n"),
        Class::An => out.add(b"an"),
    }
}

impl Entry for CodeList {
    ghost text = { list_text };

    ghost read_at = { λ known. list_at known.elements.now };

    #[tactic(auto, unfolding(crate::specs::Store::list_at))]
    fn read<'o>(
        alloc: Global,
        known: &EarlierDefinitions<'_>,
        before: Option<&CodeList>,
        octets: &'o [u8],
    ) -> Result<(CodeList, &'o [u8]), Stop> {
        let (line, rest) = read_line(octets)?;
        let (element, count) = list_on(line, known, before).ok_or(Stop::at(octets))?;
        let (values, rest) = read_several(alloc, known, count, rest)?;
        let values = Members::of(values);
        Ok((CodeList { element, values }, rest))
    }

    fn put(&self, out: &mut Chunk) -> Result<(), AllocError> {
        put_listed(out, &self.element.octets, self.values.items())
    }
}

impl Entry for Chunk {
    ghost text = { value_text };

    ghost read_at = { λ known. value_at };

    #[tactic(auto, unfolding(crate::specs::Store::value_at))]
    fn read<'o>(
        alloc: Global,
        _: &EarlierDefinitions<'_>,
        before: Option<&Chunk>,
        octets: &'o [u8],
    ) -> Result<(Chunk, &'o [u8]), Stop> {
        let (line, rest) = read_line(octets)?;
        if !is_code_value(line) || !comes_after(before.map(|value| value.octets()), line) {
            return Err(Stop::at(octets));
        }
        Ok((Chunk::of(alloc, line)?, rest))
    }

    fn put(&self, out: &mut Chunk) -> Result<(), AllocError> {
        out.add(self.octets())?;
        out.add(b"\n")
    }
}

impl Entry for CompositeDef {
    ghost text = { composite_text };

    ghost read_at = { λ known. composite_at known.elements.now };

    #[tactic(auto, unfolding(crate::specs::Store::composite_at))]
    fn read<'o>(
        alloc: Global,
        known: &EarlierDefinitions<'_>,
        before: Option<&CompositeDef>,
        octets: &'o [u8],
    ) -> Result<(CompositeDef, &'o [u8]), Stop> {
        let (line, rest) = read_line(octets)?;
        let (code, count) = composite_on(line, before).ok_or(Stop::at(octets))?;
        let (parts, rest) = read_several(alloc, known, count, rest)?;
        let parts = Members::of(parts);
        Ok((CompositeDef { code, parts }, rest))
    }

    fn put(&self, out: &mut Chunk) -> Result<(), AllocError> {
        put_listed(out, &self.code.octets, self.parts.items())
    }
}

impl Entry for PartDef {
    ghost text = { part_text };

    ghost read_at = { λ known. part_at known.elements.now };

    #[tactic(auto, unfolding(crate::specs::Store::part_at))]
    fn read<'o>(
        _: Global,
        known: &EarlierDefinitions<'_>,
        _: Option<&PartDef>,
        octets: &'o [u8],
    ) -> Result<(PartDef, &'o [u8]), Stop> {
        let (line, rest) = read_line(octets)?;
        let part = part_on(line, known).ok_or(Stop::at(octets))?;
        Ok((part, rest))
    }

    fn put(&self, out: &mut Chunk) -> Result<(), AllocError> {
        out.add(&self.code.octets)?;
        out.add(b" ")?;
        put_status(out, self.must)?;
        out.add(b"\n")
    }
}
