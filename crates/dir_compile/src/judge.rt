//! The judges of references: what a definition names has to be there.
ghost use Rattle.std.specs.Prelude.{◌≡◌, List};
ghost use Rattle.std.specs.List.{flat_map};
ghost use Rattle.std.specs.Option.{option_copied};
ghost use Rattle.edi_tables.specs.Rows.{table_faults, when};
ghost use Rattle.dir_compile.specs.Judges.{Judges, reference_faults};
ghost use Rattle.dir_compile.specs.Stop.{PartsFault, fault_with};
ghost use Rattle.dir_compile.specs.Names.{IsNamesOf};
ghost use Rattle.dir_compile.specs.Compile.{element_name, named_in, list_fault, part_faults, composite_fault, item_faults, row_faults, segment_fault, message_fault};
ghost use Rattle.edi_tables.specs.Filled.{is_filled};

use crate::names::Names;
use crate::parts::Parts;
use crate::stop::{CompileKind, CompileStop, fault};
use edi_tables::{
    Code, CodeList, CompositeDef, ElementDef, ItemDef, MessageDef, PartDef, SegmentDef, Table,
    TableRow,
};
use service_tables::service_segment;
use std::alloc::Global;

/// Finds the first definition that names something that isn't there, or is none that a directory can have.
pub fn judge_references(alloc: Global, parts: &Parts, names: &Names) -> Result<(), CompileStop>
    requires { IsNamesOf names.now parts.now }
    ensures { Judges result (reference_faults parts.now) }
{
    judge_each(alloc, parts, names, parts.lists.items())?;
    judge_each(alloc, parts, names, parts.composites.items())?;
    judge_each(alloc, parts, names, parts.segments.items())?;
    judge_each(alloc, parts, names, parts.messages.items())
}

/// What is judged by the definitions that it names.
trait Judged {
    ghost use Rattle.dir_compile.specs.declared.parts.Parts.{Parts};

    ghost faults: { Parts → Self → List PartsFault };

    /// Finds the first rule that it breaks among these parts.
    fn judge(&self, alloc: Global, parts: &Parts, names: &Names) -> Result<(), CompileStop>
        requires { IsNamesOf names.now parts.now }
        ensures { Judges result (faults parts.now self.now) };
}

/// Judges these one after another.
fn judge_each<T: Judged>(
    alloc: Global,
    parts: &Parts,
    names: &Names,
    items: &[T],
) -> Result<(), CompileStop>
    requires { IsNamesOf names.now parts.now }
    ensures { Judges result (flat_map (T.faults parts.now) items.now) }
{
    for item in items {
        item.judge(alloc, parts, names)?;
    }
    Ok(())
}

/// A list is of an element that is there.
impl Judged for CodeList {
    ghost faults = { list_fault };

    fn judge(&self, alloc: Global, _parts: &Parts, names: &Names) -> Result<(), CompileStop> {
        let name = &self.element.octets;
        if !names.elements.contains(name) {
            return Err(fault(alloc, CompileKind::UnknownElement, name));
        }
        Ok(())
    }
}

/// The element of a component is there, with the same representation.
impl Judged for PartDef {
    ghost faults = { part_faults };

    fn judge(&self, alloc: Global, parts: &Parts, names: &Names) -> Result<(), CompileStop> {
        match element_named(parts, names, self.code) {
            None => Err(fault(alloc, CompileKind::UnknownElement, &self.code.octets)),
            Some(element) => {
                if self.repr == element.repr {
                    Ok(())
                } else {
                    Err(fault(alloc, CompileKind::ReprDiffers, &self.code.octets))
                }
            }
        }
    }
}

/// The components of a composite are judged.
impl Judged for CompositeDef {
    ghost faults = { composite_fault };

    fn judge(&self, alloc: Global, parts: &Parts, names: &Names) -> Result<(), CompileStop> {
        judge_each(alloc, parts, names, self.parts.items())
    }
}

/// An item is such a component, or of a composite that is there.
impl Judged for ItemDef {
    ghost faults = { item_faults };

    fn judge(&self, alloc: Global, parts: &Parts, names: &Names) -> Result<(), CompileStop> {
        match self {
            ItemDef::Alone { part, .. } => part.judge(alloc, parts, names),
            ItemDef::Composite { code, .. } => {
                let name = &code.octets;
                if names.composites.contains(name) {
                    Ok(())
                } else {
                    Err(fault(alloc, CompileKind::UnknownComposite, name))
                }
            }
        }
    }
}

/// A segment is no service segment, and its items are judged.
impl Judged for SegmentDef {
    ghost faults = { segment_fault };

    fn judge(&self, alloc: Global, parts: &Parts, names: &Names) -> Result<(), CompileStop> {
        if service_segment(self.tag).is_some() {
            return Err(fault(alloc, CompileKind::Reserved, &self.tag.octets));
        }
        judge_each(alloc, parts, names, self.items.items())
    }
}

/// The segment of a row is there, or is a service segment.
impl Judged for TableRow {
    ghost faults = { row_faults };

    fn judge(&self, alloc: Global, _parts: &Parts, names: &Names) -> Result<(), CompileStop> {
        let Some(tag) = self.tag else {
            return Ok(());
        };
        if names.segments.contains(&tag.octets) {
            return Ok(());
        }
        match service_segment(tag) {
            Some(_) => Ok(()),
            None => Err(fault(alloc, CompileKind::UnknownSegment, &tag.octets)),
        }
    }
}

/// A message isn't CONTRL, its rows are judged, and they are a segment table.
impl Judged for MessageDef {
    ghost faults = { message_fault };

    fn judge(&self, alloc: Global, parts: &Parts, names: &Names) -> Result<(), CompileStop> {
        let name = self.name.octets();
        if name == b"CONTRL".as_slice() {
            return Err(fault(alloc, CompileKind::Reserved, name));
        }
        judge_each(alloc, parts, names, self.rows.items())?;
        judge_table(alloc, name, self.rows.items())
    }
}

/// The element of that code, if there is one.
fn element_named<'a>(parts: &'a Parts, names: &Names, code: Code) -> Option<&'a ElementDef>
    requires { IsNamesOf names.now parts.now }
    ensures { option_copied result ≡ named_in element_name parts.now.elements code.octets }
{
    let place = names.elements.get_index_of(&code.octets)?;
    parts.elements.items().get(place)
}

/// Judges the rows of a message as a segment table.
fn judge_table(alloc: Global, name: &[u8], rows: &[TableRow]) -> Result<(), CompileStop>
    ensures { Judges result (when (is_filled (table_faults rows.now))
        (fault_with CompileKind.BadTable name.now)) }
{
    match Table::first_fault(rows) {
        None => Ok(()),
        Some(_) => Err(fault(alloc, CompileKind::BadTable, name)),
    }
}
