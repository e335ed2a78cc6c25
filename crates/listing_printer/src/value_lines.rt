//! The printed lines of values.
ghost use Rattle.std.specs.Prelude.{◌≡◌, ◌++◌, codes, decimal, OnOk};
ghost use Rattle.std.specs.List.{flat_map, list_all};
ghost use Rattle.seg_lexer.specs.Fields.{unplaced};
ghost use Rattle.seg_lexer.specs.Left.{components_left, placed_in};
ghost use Rattle.seg_lexer.specs.Value.{octets_of};
ghost use Rattle.edi_octets.specs.Shown.{octet_shown};
ghost use Rattle.listing_printer.specs.Printing.{component_line, stands_for_itself as stands_for_itself_in, repetition_shown, value_line, value_lines};

use edi_octets::{Octets, put_decimal, put_shown};
use edi_tables::Chunk;
use seg_lexer::{Component, Fields, Value};
use std::alloc::AllocError;

/// The lines of a segment's values. Each component is lexed once.
pub fn put_values<O: Octets>(lines: &mut Chunk, components: Fields<'_, O>) -> Result<(), AllocError>
    ensures { OnOk result
        (lines.new ≡ lines.old ++ value_lines (components_left components.entry)) }
{
    for component in components {
        put_component(lines, &component)?;
    }
    Ok(())
}

// The line of a component, if it is printed: one of an element that isn't empty.
fn put_component<O: Octets>(
    lines: &mut Chunk,
    component: &Component<'_, O>,
) -> Result<(), AllocError>
    ensures { OnOk result (lines.new
        ≡ lines.old ++ component_line (unplaced (placed_in component.now))) }
{
    if component.element == 0 || component.value.is_empty() {
        return Ok(());
    }
    put_value(lines, component)
}

#[tactic(auto, unfolding(crate::specs::Printing::value_line))]
fn put_value<O: Octets>(lines: &mut Chunk, component: &Component<'_, O>) -> Result<(), AllocError>
    ensures { OnOk result (lines.new
        ≡ lines.old ++ value_line (unplaced (placed_in component.now))) }
{
    put_numbers(
        lines,
        component.element,
        component.repetition,
        component.component,
    )?;
    put_octets(lines, &component.value)?;
    lines.add(b"\n")
}

// Two spaces, the element of a component, its repetition, if that isn't the first, and its own number, and a space. Most numbers
// have one digit.
fn put_numbers(
    lines: &mut Chunk,
    element: u32,
    repetition: u32,
    component: u32,
) -> Result<(), AllocError>
    ensures { OnOk result (lines.new ≡ lines.old ++ codes "  " ++ decimal element
        ++ repetition_shown repetition ++ codes " " ++ decimal component ++ codes " ") }
{
    if element < 10 && repetition == 1 && component < 10 {
        let (element, component) = (b'0' + element as u8, b'0' + component as u8);
        return lines.add(&[b' ', b' ', element, b' ', component, b' ']);
    }
    put_any_numbers(lines, element, repetition, component)
}

// The same for any numbers.
#[inline(never)]
fn put_any_numbers(
    lines: &mut Chunk,
    element: u32,
    repetition: u32,
    component: u32,
) -> Result<(), AllocError>
    ensures { OnOk result (lines.new ≡ lines.old ++ codes "  " ++ decimal element
        ++ repetition_shown repetition ++ codes " " ++ decimal component ++ codes " ") }
{
    lines.add(b"  ")?;
    put_decimal(lines, u64::from(element))?;
    put_repetition(lines, repetition)?;
    lines.add(b" ")?;
    put_decimal(lines, u64::from(component))?;
    lines.add(b" ")
}

// The number of a repetition after the first, after a star.
fn put_repetition(lines: &mut Chunk, repetition: u32) -> Result<(), AllocError>
    ensures { OnOk result (lines.new ≡ lines.old ++ repetition_shown repetition) }
{
    if repetition == 1 {
        return Ok(());
    }
    lines.add(b"*")?;
    put_decimal(lines, u64::from(repetition))
}

// The octets of a value, as they are shown. Most are shown as they are, and are put in one piece.
fn put_octets<O: Octets>(lines: &mut Chunk, value: &Value<'_, O>) -> Result<(), AllocError>
    ensures { OnOk result (lines.new
        ≡ lines.old ++ flat_map octet_shown (octets_of value.now)) }
{
    match value.slice() {
        Some(octets) if stand_for_themselves(octets) => lines.add(octets),
        _ => put_each_octet(lines, value),
    }
}

// Whether each of these octets is shown as it is.
fn stand_for_themselves(octets: &[u8]) -> bool
    ensures { result ≡ list_all stands_for_itself_in octets.now }
{
    octets.iter().all(|octet| stands_for_itself(*octet))
}

#[inline(always)]
fn stands_for_itself(octet: u8) -> bool
    ensures { result ≡ stands_for_itself_in octet }
{
    (32..=126).contains(&octet) && octet != b'\\'
}

// The octets of a value one by one, as they are shown.
#[inline(never)]
fn put_each_octet<O: Octets>(lines: &mut Chunk, value: &Value<'_, O>) -> Result<(), AllocError>
    ensures { OnOk result (lines.new
        ≡ lines.old ++ flat_map octet_shown (octets_of value.now)) }
{
    for octet in value.octets() {
        put_shown(lines, octet)?;
    }
    Ok(())
}
