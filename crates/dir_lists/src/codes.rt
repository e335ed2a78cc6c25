//! Code files.
ghost use Rattle.std.specs.Prelude.{◌≡◌, ◌≤◌, ◌&&◌, nat_le, List, [], ◌∷◌, ◌++◌, length, map, true, IfOk, OnOk};
ghost use Rattle.std.specs.List.{list_all, flat_map};
ghost use Rattle.edi_tables.specs.Forms.{is_list_formed};
ghost use Rattle.edi_tables.specs.First.{IsVerdict, unless_faulty};
ghost use Rattle.edi_octets.specs.DirStop.{fault_in};
ghost use Rattle.edi_octets.specs.Head.{head_field, is_code_and_name};
ghost use Rattle.edi_octets.specs.Left.{line_shown, body_left, entry_shown};
ghost use Rattle.edi_octets.specs.Lines.{Line};
ghost use Rattle.edi_octets.specs.Profile.{with_earlier, fields_of, indentation_of};
ghost use Rattle.dir_lists.specs.Codes as codes;
ghost use Rattle.edi_octets.specs.declared.octets.TheConstants.{LONGEST_TEXT};

use crate::head::read_head;
use edi_octets::{Body, DirKind, DirStop, EarlierNames, Entries, Entry, LineText};
use edi_tables::{Chunk, CodeList, List};
use std::alloc::Global;

/// Reads a code file of at most 4,194,304 octets: one list an entry, in order; an entry without a code is
/// an empty list. Else the first fault in judging order: `bad-code` and `twice` at a head, `bad-line` at a
/// line that is neither text nor a code, `twice` at a code that its entry has already.
pub fn read_codes(alloc: Global, file: &[u8]) -> Result<Vec<CodeList>, DirStop>
    requires { length file.now ≤ LONGEST_TEXT }
    ensures answers { IsVerdict (λ lists. lists.items) fault_in result (codes.codes_in file.now) }
    ensures forms { IfOk result (λ lists. list_all is_list_formed lists.items ≡ true) }
{
    let mut lists = Vec::new(alloc);
    let mut seen = EarlierNames::new(alloc);
    for entry in Entries::of(file) {
        let list = read_list(alloc, &entry, &mut seen)?;
        lists.push(list)?;
    }
    Ok(lists)
}

/// Reads an entry after others, whose codes are seen.
fn read_list<'a>(
    alloc: Global,
    entry: &Entry<'a>,
    seen: &mut EarlierNames<'a>,
) -> Result<CodeList, DirStop>
    ensures judged { (earlier : List (List Line)) → seen.old ≡ map head_field earlier
        → IsVerdict (λ list. list) fault_in result
        (unless_faulty (codes.list_faults earlier (entry_shown entry.now))
        (codes.list_of (entry_shown entry.now))) }
    ensures joins { OnOk result (seen.new ≡ seen.old ++ head_field (entry_shown entry.now) ∷ []) }
{
    let element = read_head(&entry.head, seen)?;
    let values = read_values(alloc, entry.body)?;
    Ok(CodeList {
        element,
        values: List::of(values),
    })
}

/// Reads the codes of an entry, from its lines after its head.
fn read_values(alloc: Global, body: Body<'_>) -> Result<Vec<Chunk>, DirStop>
    ensures { let lines = body_left body.entry in
        IsVerdict (λ values. values.items) fault_in result
        (unless_faulty (flat_map (λ p. codes.body_faults p.0 p.1) (with_earlier lines))
        (codes.values_of lines)) }
{
    let mut seen = EarlierNames::new(alloc);
    for line in body {
        read_line(&line, &mut seen)?;
    }
    Ok(seen.copies(alloc)?)
}

/// Reads a line of an entry after others, whose codes are seen. Its code joins them.
fn read_line<'a>(line: &LineText<'a>, seen: &mut EarlierNames<'a>) -> Result<(), DirStop>
    ensures judged { (earlier : List Line) → seen.old ≡ codes.values_of earlier
        → IsVerdict (λ done. done) fault_in result
        (unless_faulty (codes.body_faults earlier (line_shown line.now)) tt) }
    ensures joins { OnOk result
        (seen.new ≡ seen.old ++ codes.values_of (line_shown line.now ∷ [])) }
{
    if is_text(line) {
        return Ok(());
    }
    if !has_value(line) {
        return Err(line.breaks(DirKind::BadLine));
    }
    if !seen.add(line.first_field())? {
        return Err(line.breaks(DirKind::Twice));
    }
    Ok(())
}

/// Whether a line is text: it begins with `Desc:`, `Repr:` or `Note:`, or is indented by 10 or more.
fn is_text(line: &LineText<'_>) -> bool
    ensures { result ≡ codes.is_text (line_shown line.now) }
{
    line.begins_with(b"Desc:")
        || line.begins_with(b"Repr:")
        || line.begins_with(b"Note:")
        || line.indentation() >= 10
}

/// Whether a line is indented by 1 to 7 and is a code and a name.
fn has_value(line: &LineText<'_>) -> bool
    ensures { let octets = line.now.octets.now in
        result ≡ (nat_le 1 (indentation_of octets) && nat_le (indentation_of octets) 7
        && is_code_and_name codes.is_value (fields_of octets)) }
{
    let indentation = line.indentation();
    1 <= indentation && indentation <= 7 && line.has_name() && is_value(line.first_field())
}

/// Whether a field is a code: 1 to 35 octets.
fn is_value(field: &[u8]) -> bool
    ensures { result ≡ codes.is_value field.now }
{
    !field.is_empty() && field.len() <= 35
}
