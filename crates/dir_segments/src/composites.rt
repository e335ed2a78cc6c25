//! Composite files.
ghost use Rattle.std.specs.Prelude.{◌≡◌, ◌≤◌, List, [], ◌∷◌, ◌++◌, length, map, true, IfOk, OnOk};
ghost use Rattle.std.specs.List.{list_all};
ghost use Rattle.edi_tables.specs.Forms.{is_composite_formed};
ghost use Rattle.edi_tables.specs.First.{IsVerdict, unless_faulty};
ghost use Rattle.edi_octets.specs.DirStop.{fault_in};
ghost use Rattle.edi_octets.specs.Left.{line_shown, body_left, entry_shown};
ghost use Rattle.edi_octets.specs.Lines.{Line};
ghost use Rattle.dir_segments.specs.Composites as composites;
ghost use Rattle.edi_octets.specs.Head.{head_field};
ghost use Rattle.dir_segments.specs.Parts.{count_faults};
ghost use Rattle.edi_octets.specs.declared.octets.TheConstants.{LONGEST_TEXT};

use crate::composite_head::read_code_head;
use crate::fields::is_item_line;
use crate::part_line::{judge_count, read_part};
use edi_octets::{DirStop, EarlierNames, Entries, Entry};
use edi_tables::{CompositeDef, List, PartDef};
use std::alloc::Global;

/// Reads a composite file of at most 4,194,304 octets: one composite an entry, in order. Else the first
/// fault in judging order: `bad-code` and `twice` at a head, `bad-line`, `bad-position`, `bad-status` and
/// `bad-repr` at a part line, `bad-line` at the head of an entry with no part or more than 99.
pub fn read_composites(alloc: Global, file: &[u8]) -> Result<Vec<CompositeDef>, DirStop>
    requires { length file.now ≤ LONGEST_TEXT }
    ensures answers { IsVerdict (λ found. found.items) fault_in result
        (composites.composites_in file.now) }
    ensures forms { IfOk result (λ found. list_all is_composite_formed found.items ≡ true) }
{
    let mut found = Vec::new(alloc);
    let mut seen = EarlierNames::new(alloc);
    for entry in Entries::of(file) {
        let composite = read_entry(alloc, &mut seen, &entry)?;
        found.push(composite)?;
    }
    Ok(found)
}

/// Reads an entry after others, whose codes are seen.
fn read_entry<'a>(
    alloc: Global,
    seen: &mut EarlierNames<'a>,
    entry: &Entry<'a>,
) -> Result<CompositeDef, DirStop>
    ensures judged { (earlier : List (List Line)) → seen.old ≡ map head_field earlier
        → IsVerdict (λ composite. composite) fault_in result
        (unless_faulty (composites.composite_faults earlier (entry_shown entry.now))
        (composites.composite_of (entry_shown entry.now))) }
    ensures joins { OnOk result (seen.new ≡ seen.old ++ head_field (entry_shown entry.now) ∷ []) }
{
    let code = read_code_head(&entry.head, seen)?;
    let parts = read_parts(alloc, entry)?;
    Ok(CompositeDef {
        code,
        parts: List::of(parts),
    })
}

/// Reads the part lines of an entry, and judges its end.
fn read_parts(alloc: Global, entry: &Entry<'_>) -> Result<Vec<PartDef>, DirStop>
    ensures { let body = body_left entry.now.body in
        IsVerdict (λ parts. parts.items) fault_in result
        (unless_faulty (composites.parts_faults body
        ++ count_faults (line_shown entry.now.head) (length (composites.part_lines body)))
        (composites.parts_in body)) }
{
    let mut parts = Vec::new(alloc);
    let mut before = None;
    for line in entry.body {
        if !is_item_line(&line) {
            continue;
        }
        let (position, part) = read_part(before, &line)?;
        parts.push(part)?;
        before = Some(position);
    }
    judge_count(&entry.head, parts.len())?;
    Ok(parts)
}
