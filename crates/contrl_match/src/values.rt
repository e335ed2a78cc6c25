//! Values of a segment of an acknowledgement: numbers, and places in segments.
ghost use Rattle.std.specs.Prelude.{◌≡◌, ◌<◌, IfOk, IfSome};
ghost use Rattle.std.specs.Option.{option_map};
ghost use Rattle.seg_lexer.specs.Left.{components_left};
ghost use Rattle.segment_records.specs.Segments.{value_in};
ghost use Rattle.contrl_match.specs.Spots.{number_named};
ghost use Rattle.contrl_match.specs.Telling.{number_or_none, site_in};
ghost use Rattle.contrl_match.specs.Walked.{site_seen, unless_zero};

use edi_octets::{Flat, read_decimal};
use seg_lexer::Fields;
use segment_records::lend_found;
use std::alloc::{AllocError, Global};

/// The numbers of an element and of a component, from 1; each is 0 where it isn't named.
#[derive(Clone, Copy)]
pub(crate) struct Site {
    pub element: u64,
    pub component: u64,
}

/// The number that the value of a component is, if it is one and isn't 0.
pub(crate) fn read_number(
    alloc: Global,
    components: Fields<'_, Flat<'_>>,
    element: u32,
    component: u32,
) -> Result<Option<u64>, AllocError>
    ensures number { let value = value_in (components_left components.entry) element component in
        IfOk result (λ number. number ≡ number_named value) }
    ensures some { IfOk result (λ number. IfSome number (λ n. 0 < n)) }
{
    let value = lend_found(alloc, components.value_at(element, component))?;
    Ok(not_zero(read_decimal(&value)))
}

fn not_zero(number: Option<u64>) -> Option<u64>
    ensures { result ≡ unless_zero number }
{
    match number {
        Some(0) => None,
        _ => number,
    }
}

// The same for a number that may be left out, which is 0 then.
fn read_number_or_none(
    alloc: Global,
    components: Fields<'_, Flat<'_>>,
    element: u32,
    component: u32,
) -> Result<Option<u64>, AllocError>
    ensures { let value = value_in (components_left components.entry) element component in
        IfOk result (λ number. number ≡ number_or_none value) }
{
    let value = lend_found(alloc, components.value_at(element, component))?;
    if value.is_empty() {
        return Ok(Some(0));
    }
    Ok(not_zero(read_decimal(&value)))
}

/// The place that S011 names in this element, which counts the tag field.
pub(crate) fn read_site(
    alloc: Global,
    components: Fields<'_, Flat<'_>>,
    element: u32,
) -> Result<Option<Site>, AllocError>
    ensures { IfOk result (λ site.
        option_map site_seen site ≡ site_in (value_in (components_left components.entry)) element) }
{
    let Some(position) = read_number_or_none(alloc, components, element, 1)? else {
        return Ok(None);
    };
    let Some(component) = read_number_or_none(alloc, components, element, 2)? else {
        return Ok(None);
    };
    Ok(Some(Site {
        element: position.saturating_sub(1),
        component,
    }))
}
