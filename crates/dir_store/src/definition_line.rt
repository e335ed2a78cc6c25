//! What the lines of data elements, code lists and composites give.
ghost use Rattle.std.specs.Prelude.{◌≡◌, ◌==◌, ◌&&◌, not};
ghost use Rattle.std.specs.List.{list_all};
ghost use Rattle.std.specs.Option.{option_copied, option_map};
ghost use Rattle.edi_tables.specs.Forms.{is_code_value as is_code_value_of};
ghost use Rattle.dir_store.specs.Rules as rules;

use crate::earlier::EarlierDefinitions;
use crate::line::{comes_after, read_head};
use edi_octets::{read_composite_code, read_element_code, read_repr, read_status, two_words};
use edi_tables::{Code, CodeList, CompositeDef, ElementDef, PartDef};

/// The most parts of a composite, and the most items of a segment.
pub const MOST_MEMBERS: u64 = 99;

/// The data element on a line: a code in order, and a representation.
pub(crate) fn element_on(line: &[u8], before: Option<&ElementDef>) -> Option<ElementDef>
    ensures { result ≡ rules.element_in (option_copied before.entry) line.now }
{
    let (code, repr) = two_words(line)?;
    let code = read_element_code(code)?;
    if !comes_after(
        before.map(|element| element.code.octets.as_slice()),
        &code.octets,
    ) {
        return None;
    }
    let repr = read_repr(repr)?;
    Some(ElementDef { code, repr })
}

/// The element of a code list on a line, which is one of the store, in order, and how many codes follow.
pub(crate) fn list_on(
    line: &[u8],
    known: &EarlierDefinitions<'_>,
    before: Option<&CodeList>,
) -> Option<(Code, u64)>
    ensures { option_map (λ h. (h.0.octets, h.1)) result
        ≡ rules.list_in known.now.elements.now (option_copied before.entry) line.now }
{
    let (name, count) = read_head(line)?;
    let code = read_element_code(name)?;
    known.element(code)?;
    if !comes_after(before.map(|list| list.element.octets.as_slice()), name) {
        return None;
    }
    Some((code, count))
}

/// Whether a line is a code value: 1 to 35 octets, none of them a space.
pub(crate) fn is_code_value(line: &[u8]) -> bool
    ensures { result ≡ is_code_value_of line.now }
{
    1 <= line.len() && line.len() <= 35 && is_plain(line)
}

fn is_plain(line: &[u8]) -> bool
    ensures { result ≡ list_all (λ x. not (x == 32) && not (x == 10)) line.now }
{
    line.iter().all(|octet| *octet != b' ' && *octet != b'\n')
}

/// The code of a composite on a line, in order, and how many parts follow: 1 to 99.
pub(crate) fn composite_on(line: &[u8], before: Option<&CompositeDef>) -> Option<(Code, u64)>
    ensures { option_map (λ h. (h.0.octets, h.1)) result
        ≡ rules.composite_in (option_copied before.entry) line.now }
{
    let (name, count) = read_head(line)?;
    let code = read_composite_code(name)?;
    if !is_between(1, MOST_MEMBERS, count) {
        return None;
    }
    if !comes_after(
        before.map(|composite| composite.code.octets.as_slice()),
        name,
    ) {
        return None;
    }
    Some((code, count))
}

/// Whether a number is in this range.
pub fn is_between(low: u64, high: u64, n: u64) -> bool
    ensures { result ≡ rules.is_between low high n }
{
    low <= n && n <= high
}

/// The part on a line: a data element of the store, and a status.
pub(crate) fn part_on(line: &[u8], known: &EarlierDefinitions<'_>) -> Option<PartDef>
    ensures { result ≡ rules.part_in known.now.elements.now line.now }
{
    let (code, status) = two_words(line)?;
    let must = read_status(status)?;
    let code = read_element_code(code)?;
    part_of(known, code, must)
}

/// The data element of the store of that code, where it is used.
pub fn part_of(known: &EarlierDefinitions<'_>, code: Code, must: bool) -> Option<PartDef>
    ensures { result ≡ rules.part_of known.now.elements.now code.octets must }
{
    let element = known.element(code)?;
    Some(PartDef {
        code,
        must,
        repr: element.repr,
    })
}
