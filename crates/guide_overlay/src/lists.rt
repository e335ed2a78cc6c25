//! The code lists that a guide leaves.
ghost use Rattle.std.specs.Prelude.{◌≡◌, [], AllPairs, IfOk, false, map, true};
ghost use Rattle.std.specs.List.{filter_map};
ghost use Rattle.dir_compile.specs.Compile.{element_name, twice_in, value_name};
ghost use Rattle.dir_compile.specs.Directory.{IsDirectory};
ghost use Rattle.dir_compile.specs.InOrder.{ascending_by};
ghost use Rattle.edi_tables.specs.Forms.{is_element_code};
ghost use Rattle.dir_compile.specs.Ordered.{IsInOrder};
ghost use Rattle.guide_overlay.specs.Guide.{is_same_detail, list_left as list_left_of, values_in};
ghost use Rattle.guide_overlay.specs.Kept.{IsGuideReading, detail_seen, sections_seen};
ghost use Rattle.guide_overlay.specs.Narrowing.{AreNarrowing};

use crate::base::find_named;
use crate::line::DetailText;
use crate::sections::Reading;
use dir_compile::Parts;
use edi_tables::{Chunk, CodeList, ElementDef, List};
use std::alloc::{AllocError, Global};

/// The lists of a directory's data elements: the kept values where the guide has a head for the element, else the
/// directory's own.
pub(crate) fn narrow_lists(
    alloc: Global,
    parts: &Parts,
    reading: &Reading<'_>,
) -> Result<List<CodeList>, AllocError>
    requires directory { IsDirectory parts.now }
    requires kept { IsGuideReading reading.now }
    requires narrowing { AreNarrowing parts.now (sections_seen reading.now) }
    ensures { IfOk result (λ lists. lists
        ≡ filter_map (list_left_of (sections_seen reading.now) parts.now) parts.now.elements) }
{
    let mut lists = Vec::new(alloc);
    for element in parts.elements.items() {
        if let Some(list) = list_left(alloc, parts, reading, element)? {
            lists.push(list)?;
        }
    }
    Ok(List::of(lists))
}

// The list of a data element.
fn list_left(
    alloc: Global,
    parts: &Parts,
    reading: &Reading<'_>,
    element: &ElementDef,
) -> Result<Option<CodeList>, AllocError>
    requires ordered { IsInOrder parts.now }
    requires kept { IsGuideReading reading.now }
    requires narrowing { AreNarrowing parts.now (sections_seen reading.now) }
    requires named { is_element_code (element_name element.now) ≡ true }
    ensures { IfOk result (λ list. list
        ≡ list_left_of (sections_seen reading.now) parts.now element.now) }
{
    let name = element.code.octets.as_slice();
    if let Some(details) = reading.details_under(name) {
        return Ok(Some(CodeList {
            element: element.code,
            values: kept_values(alloc, details)?,
        }));
    }
    match find_named(parts.lists.items(), name) {
        Some(list) => Ok(Some(copy_list(alloc, list)?)),
        None => Ok(None),
    }
}

// The values of these details, in ascending order.
fn kept_values(alloc: Global, details: &[DetailText<'_>]) -> Result<List<Chunk>, AllocError>
    requires { AllPairs (λ earlier later. is_same_detail later earlier ≡ false)
        (map detail_seen details.now) }
    ensures { IfOk result (λ values. values
        ≡ ascending_by value_name (values_in (map detail_seen details.now))) }
{
    let mut values = Vec::with_capacity(alloc, details.len())?;
    for detail in details {
        if let DetailText::Value { value } = *detail {
            values.push(Chunk::of(alloc, value)?)?;
        }
    }
    Ok(ascending(values))
}

// These values in ascending order.
fn ascending(mut values: Vec<Chunk>) -> List<Chunk>
    requires { twice_in value_name values.items ≡ [] }
    ensures { result ≡ ascending_by value_name values.items }
{
    values.sort_unstable_by(|a, b| a.octets().cmp(b.octets()));
    List::of(values)
}

// A copy of a list.
fn copy_list(alloc: Global, list: &CodeList) -> Result<CodeList, AllocError>
    ensures { IfOk result (λ copy. copy ≡ list.now) }
{
    let values = list.values.items();
    let mut copies = Vec::with_capacity(alloc, values.len())?;
    for value in values {
        copies.push(Chunk::of(alloc, value.octets())?)?;
    }
    Ok(CodeList {
        element: list.element,
        values: List::of(copies),
    })
}
