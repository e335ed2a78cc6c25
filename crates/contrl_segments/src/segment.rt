//! Segments as they are written.
ghost use Rattle.std.specs.Prelude.{◌≡◌, ◌++◌, OnOk, map};
ghost use Rattle.std.specs.Option.{option_copied};
ghost use Rattle.edi_tables.specs.Growing.{HasGrown};
ghost use Rattle.contrl_segments.specs.Written.{element_text, elements_text, is_empty_element, is_empty_value, segment_text, trimmed, value_text};
ghost use Rattle.contrl_segments.specs.Lent.{answer_lent, element_lent, segment_lent, value_lent};

use crate::details::{told_code, told_position, told_tag};
use edi_tables::{Chunk, Tag};
use error_ledger::ErrorLine;
use itoa::Buffer;
use std::alloc::AllocError;

/// A value that is written: octets, or a number in decimal.
#[derive(Clone, Copy)]
pub enum WrittenValue<'a> {
    Octets(&'a [u8]),
    Number(u32),
}

/// The values of an element's components.
pub type Element<'a, 'v> = &'a [WrittenValue<'v>];

impl WrittenValue<'_> {
    // Whether it has no octet.
    fn is_empty(self) -> bool
        ensures { result ≡ is_empty_value (value_lent self.entry) }
    {
        match self {
            WrittenValue::Octets(octets) => octets.is_empty(),
            WrittenValue::Number(_number) => false,
        }
    }
}

/// Puts a segment at the end: its tag, its elements without the empty ones at the end, and a terminator. Where memory is
/// refused, a part of it may be put.
#[tactic(auto, using(edi_tables::proofs::GrowingLaws::grown_then))]
pub fn put_segment(
    out: &mut Chunk,
    tag: Tag,
    elements: &[Element<'_, '_>],
) -> Result<(), AllocError>
    ensures ok { OnOk result (out.new ≡ out.old ++ segment_text (segment_lent tag elements.now)) }
    ensures grown { HasGrown out.old out.new }
{
    out.add(&tag.octets)?;
    put_elements(out, kept_elements(elements))?;
    out.add(b"'")
}

/// Puts the answer to what these elements say, with the error that it is rejected for, if one is given. Where memory is
/// refused, a part of it may be put.
#[tactic(auto, using(edi_tables::proofs::GrowingLaws::grown_then))]
pub fn put_answer(
    out: &mut Chunk,
    tag: Tag,
    subject: &[Element<'_, '_>],
    error: Option<&ErrorLine>,
) -> Result<(), AllocError>
    ensures ok { OnOk result
        (out.new ≡ out.old
        ++ segment_text (answer_lent tag subject.now (option_copied error.entry))) }
    ensures grown { HasGrown out.old out.new }
{
    let Some(error) = error else {
        return put_segment(out, tag, subject);
    };
    let code = [told_code(error)];
    let tag_told = [told_tag(error)];
    let position = told_position(error);
    out.add(&tag.octets)?;
    put_elements(out, subject)?;
    put_elements(out, kept_elements(&[&code, &tag_told, &position]))?;
    out.add(b"'")
}

// Puts each element after a separator.
#[tactic(auto, using(edi_tables::proofs::GrowingLaws::grown_then, edi_tables::proofs::GrowingLaws::grown_same))]
fn put_elements(out: &mut Chunk, elements: &[Element<'_, '_>]) -> Result<(), AllocError>
    ensures ok { OnOk result (out.new ≡ out.old ++ elements_text (map element_lent elements.now)) }
    ensures grown { HasGrown out.old out.new }
{
    for element in elements {
        out.add(b"+")?;
        put_element(out, element)?;
    }
    Ok(())
}

// The elements up to the last that isn't empty.
fn kept_elements<'a, 'b, 'v>(elements: &'a [Element<'b, 'v>]) -> &'a [Element<'b, 'v>]
    ensures { map element_lent result.now
        ≡ trimmed is_empty_element (map element_lent elements.now) }
{
    let mut kept = 0;
    for (i, element) in elements.iter().enumerate() {
        if !is_empty(element) {
            kept = i + 1;
        }
    }
    &elements[..kept]
}

// Whether an element has no value but empty ones.
fn is_empty(element: &[WrittenValue<'_>]) -> bool
    ensures { result ≡ is_empty_element (map value_lent element.now) }
{
    element.iter().all(|value| value.is_empty())
}

// Puts the values of an element, without the empty ones at the end.
#[tactic(auto, using(edi_tables::proofs::GrowingLaws::grown_then, edi_tables::proofs::GrowingLaws::grown_same))]
fn put_element(out: &mut Chunk, element: &[WrittenValue<'_>]) -> Result<(), AllocError>
    ensures ok { OnOk result (out.new ≡ out.old ++ element_text (map value_lent element.now)) }
    ensures grown { HasGrown out.old out.new }
{
    let Some((first, later)) = kept_values(element).split_first() else {
        return Ok(());
    };
    put_value(out, *first)?;
    for value in later {
        out.add(b":")?;
        put_value(out, *value)?;
    }
    Ok(())
}

// The values up to the last that isn't empty.
fn kept_values<'a, 'b>(values: &'a [WrittenValue<'b>]) -> &'a [WrittenValue<'b>]
    ensures { map value_lent result.now ≡ trimmed is_empty_value (map value_lent values.now) }
{
    let mut kept = 0;
    for (i, value) in values.iter().enumerate() {
        if !value.is_empty() {
            kept = i + 1;
        }
    }
    &values[..kept]
}

fn put_value(out: &mut Chunk, value: WrittenValue<'_>) -> Result<(), AllocError>
    ensures ok { OnOk result (out.new ≡ out.old ++ value_text (value_lent value.entry)) }
    ensures grown { HasGrown out.old out.new }
{
    match value {
        WrittenValue::Octets(octets) => put_octets(out, octets),
        WrittenValue::Number(number) => put_octets(out, Buffer::new().format(number).as_bytes()),
    }
}

// Puts octets, with a release character before each that is a service character.
#[tactic(auto, using(edi_tables::proofs::GrowingLaws::grown_then, edi_tables::proofs::GrowingLaws::grown_same))]
fn put_octets(out: &mut Chunk, octets: &[u8]) -> Result<(), AllocError>
    ensures ok { OnOk result (out.new ≡ out.old ++ value_text octets.now) }
    ensures grown { HasGrown out.old out.new }
{
    for octet in octets {
        if matches!(octet, b'\'' | b'+' | b':' | b'?') {
            out.add(b"?")?;
        }
        out.add(&[*octet])?;
    }
    Ok(())
}
