//! Element files.
ghost use Rattle.std.specs.Prelude.{◌≡◌, ◌≤◌, Option, List, [], ◌∷◌, ◌++◌, length, map, is_some, true, IfOk, OnOk};
ghost use Rattle.std.specs.List.{list_all, list_any, flat_map};
ghost use Rattle.edi_tables.specs.Forms.{is_element_formed};
ghost use Rattle.edi_tables.specs.First.{IsVerdict, unless_faulty};
ghost use Rattle.edi_octets.specs.DirStop.{fault_in};
ghost use Rattle.edi_octets.specs.Head.{head_field};
ghost use Rattle.edi_octets.specs.Left.{line_shown, cells_left, body_left, entry_shown};
ghost use Rattle.edi_octets.specs.Lines.{Line};
ghost use Rattle.edi_octets.specs.Profile.{with_earlier};
ghost use Rattle.dir_lists.specs.Elements.{elements_in, element_faults, element_of, body_faults, end_faults, is_repr_line, repr_after_word, repr_of_entry};
ghost use Rattle.edi_octets.specs.declared.octets.TheConstants.{LONGEST_TEXT};

use crate::head::read_head;
use edi_octets::{Cells, DirKind, DirStop, EarlierNames, Entries, Entry, LineText, read_repr};
use edi_tables::{ElementDef, Repr};
use std::alloc::Global;

/// Reads an element file of at most 4,194,304 octets: one data element an entry, in order. Else the
/// first fault in judging order: `bad-code` and `twice` at a head, `bad-line` at a second `Repr:` line,
/// `bad-repr` at a `Repr:` line without a representation, `no-repr` at the head of an entry without one.
pub fn read_elements(alloc: Global, file: &[u8]) -> Result<Vec<ElementDef>, DirStop>
    requires { length file.now ≤ LONGEST_TEXT }
    ensures answers { IsVerdict (λ elements. elements.items) fault_in result
        (elements_in file.now) }
    ensures forms { IfOk result (λ elements. list_all is_element_formed elements.items ≡ true) }
{
    let mut elements = Vec::new(alloc);
    let mut seen = EarlierNames::new(alloc);
    for entry in Entries::of(file) {
        let element = read_element(&entry, &mut seen)?;
        elements.push(element)?;
    }
    Ok(elements)
}

/// Reads an entry after others, whose codes are seen.
fn read_element<'a>(entry: &Entry<'a>, seen: &mut EarlierNames<'a>) -> Result<ElementDef, DirStop>
    ensures judged { (earlier : List (List Line)) → seen.old ≡ map head_field earlier
        → IsVerdict (λ element. Option.Some element) fault_in result
        (unless_faulty (element_faults earlier (entry_shown entry.now))
        (element_of (entry_shown entry.now))) }
    ensures joins { OnOk result (seen.new ≡ seen.old ++ head_field (entry_shown entry.now) ∷ []) }
{
    let code = read_head(&entry.head, seen)?;
    let repr = read_body(entry)?;
    Ok(ElementDef { code, repr })
}

/// Reads the lines of an entry after its head, and judges its end.
fn read_body(entry: &Entry<'_>) -> Result<Repr, DirStop>
    ensures { let body = body_left entry.now.body in
        IsVerdict (λ repr. Option.Some repr) fault_in result
        (unless_faulty
        (flat_map (λ p. body_faults p.0 p.1) (with_earlier body)
        ++ end_faults (line_shown entry.now.head) body)
        (repr_of_entry body)) }
{
    let mut found = None;
    for line in entry.body {
        found = read_line(&line, found)?;
    }
    found.ok_or(entry.head.breaks(DirKind::NoRepr))
}

/// Reads a line of an entry after others, in which this representation was found: what is found with it.
fn read_line(line: &LineText<'_>, found: Option<Repr>) -> Result<Option<Repr>, DirStop>
    ensures { (earlier : List Line)
        → found ≡ repr_of_entry earlier
        → is_some found ≡ list_any is_repr_line earlier
        → IsVerdict (λ found. found) fault_in result
        (unless_faulty (body_faults earlier (line_shown line.now))
        (repr_of_entry (earlier ++ line_shown line.now ∷ []))) }
{
    if !line.begins_with(b"Repr:") {
        return Ok(found);
    }
    if found.is_some() {
        return Err(line.breaks(DirKind::BadLine));
    }
    match read_behind_word(line.fields()) {
        Some(repr) => Ok(Some(repr)),
        None => Err(line.breaks(DirKind::BadRepr)),
    }
}

/// The representation that the one field after a line's first word is.
fn read_behind_word(fields: Cells<'_>) -> Option<Repr>
    ensures { result ≡ repr_after_word (cells_left fields.entry) }
{
    let mut fields = fields;
    match (fields.next(), fields.next(), fields.next()) {
        (Some(_), Some(field), None) => read_repr(field),
        _ => None,
    }
}
