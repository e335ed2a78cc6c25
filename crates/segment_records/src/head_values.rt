//! The values of the segments that open or close an envelope, and the segment table that a UNH names by some of them.
ghost use Rattle.std.specs.Prelude.{◌≡◌, ◌<◌, ◌≤◌, true, codes, length, IfOk, IfSome};
ghost use Rattle.std.specs.Option.{option_map};
ghost use Rattle.clean_segments.specs.Plain.{plain_left};
ghost use Rattle.dir_compile.specs.Directory.{tables_of};
ghost use Rattle.edi_octets.specs.declared.octets.TheConstants.{LONGEST_TEXT};
ghost use Rattle.edi_tables.specs.Rows.{has_name};
ghost use Rattle.envelope_check.specs.declared.head.HeadKind.TheVariants.{Unh};
ghost use Rattle.seg_lexer.specs.Fields.{components_at};
ghost use Rattle.seg_lexer.specs.Left.{components_left};
ghost use Rattle.seg_lexer.specs.Service.{IsUsable};
ghost use Rattle.segment_records.specs.Heads.{given_by, second_element as second_element_of, values_in};
ghost use Rattle.segment_records.specs.Messages.{table_for};

use crate::tags::stops_message;
use crate::values::{PlainNames, find_plain_names, find_table, lend_two, plain_components};
use clean_segments::PlainFields;
use dir_compile::Directory;
use edi_octets::Octets;
use edi_tables::Tag;
use envelope_check::{HeadKind, HeadValue, HeadValues};
use seg_lexer::{Fields, Service, fields};
use std::alloc::{AllocError, Global};

/// What a segment says as a head: the values that it gives, if it is one, and the number of the segment table that it names, if it
/// is a UNH and the directory has the table.
#[derive(Drop)]
pub(crate) struct Heading {
    pub(crate) values: Option<Box<HeadValues>>,
    pub(crate) table: Option<u32>,
}

/// That of the segment `start..end` of a text, which has this tag. Only want of memory is an error.
#[inline(always)]
pub(crate) fn read_heading<O: Octets>(
    alloc: Global,
    directory: &Directory,
    tag: Option<Tag>,
    text: &O,
    service: &Service,
    start: usize,
    end: usize,
) -> Result<Heading, AllocError>
    requires usable { IsUsable service.now (O.octets text.now) }
    requires short { length (O.octets text.now) ≤ LONGEST_TEXT }
    requires ordered { start ≤ end }
    requires within { end ≤ length (O.octets text.now) }
    ensures values { IfOk result (λ heading. option_map (λ values. values.value) heading.values
        ≡ given_by tag (components_at service.now (O.octets text.now) start end)) }
    ensures table { has_name (codes "UNH") tag ≡ true
        → IfOk result (λ heading. heading.table
        ≡ table_for directory.now (components_at service.now (O.octets text.now) start end)) }
    ensures within { IfOk result
        (λ heading. IfSome heading.table (λ i. i < length (tables_of directory.now))) }
{
    // Most segments are no heads.
    if !stops_message(tag) {
        return Ok(Heading {
            values: None,
            table: None,
        });
    }
    read_head(alloc, directory, tag, fields(text, service, start, end))
}

// The same of the components of a segment that may be a head. Few are: this is kept out of the way of the others.
#[inline(never)]
fn read_head<O: Octets>(
    alloc: Global,
    directory: &Directory,
    tag: Option<Tag>,
    components: Fields<'_, O>,
) -> Result<Heading, AllocError>
    ensures values { IfOk result (λ heading. option_map (λ values. values.value) heading.values
        ≡ given_by tag (components_left components.entry)) }
    ensures table { has_name (codes "UNH") tag ≡ true
        → IfOk result
        (λ heading. heading.table ≡ table_for directory.now (components_left components.entry)) }
    ensures within { IfOk result
        (λ heading. IfSome heading.table (λ i. i < length (tables_of directory.now))) }
{
    let Some(kind) = HeadKind::of(tag) else {
        return Ok(Heading {
            values: None,
            table: None,
        });
    };
    let Named { values, table } = match kind {
        HeadKind::Unh => read_unh(alloc, directory, components)?,
        _ => Named {
            values: read_values(alloc, components, kind)?,
            table: None,
        },
    };
    Ok(Heading {
        values: Some(Box::new(alloc, values)?),
        table,
    })
}

// The values that a head gives, and the number of the segment table that it names, if there is one.
#[derive(Drop)]
struct Named {
    values: HeadValues,
    table: Option<u32>,
}

// Those of a UNH, by its components. Most are plain.
fn read_unh<O: Octets>(
    alloc: Global,
    directory: &Directory,
    components: Fields<'_, O>,
) -> Result<Named, AllocError>
    ensures values { IfOk result
        (λ named. named.values ≡ values_in (components_left components.entry) Unh) }
    ensures table { IfOk result
        (λ named. named.table ≡ table_for directory.now (components_left components.entry)) }
    ensures within { IfOk result
        (λ named. IfSome named.table (λ i. i < length (tables_of directory.now))) }
{
    match plain_components(&components) {
        Some(plain) => read_plain_unh(alloc, directory, plain),
        None => Ok(Named {
            values: read_values(alloc, components, HeadKind::Unh)?,
            table: find_table(alloc, directory, components)?,
        }),
    }
}

// Those of a plain UNH: all are found in one way through its components.
#[inline(always)]
fn read_plain_unh(
    alloc: Global,
    directory: &Directory,
    components: PlainFields<'_>,
) -> Result<Named, AllocError>
    ensures values { IfOk result
        (λ named. named.values ≡ values_in (plain_left components.entry) Unh) }
    ensures table { IfOk result
        (λ named. named.table ≡ table_for directory.now (plain_left components.entry)) }
    ensures within { IfOk result
        (λ named. IfSome named.table (λ i. i < length (tables_of directory.now))) }
{
    // The number of its tables fits.
    let _parts = directory.parts();
    let PlainNames {
        reference,
        message,
        version,
        release,
        agency,
    } = find_plain_names(components);
    let message = message.unwrap_or(&[]);
    let found = directory.find_table(
        message,
        version.unwrap_or(&[]),
        release.unwrap_or(&[]),
        agency.unwrap_or(&[]),
    );
    let values = HeadValues {
        reference: HeadValue::of(alloc, reference.unwrap_or(&[]))?,
        other: HeadValue::of(alloc, message)?,
    };
    match found {
        Some(table) => Ok(Named {
            values,
            table: Some(table as u32),
        }),
        None => Ok(Named {
            values,
            table: None,
        }),
    }
}

// The values that a head of this kind gives, by its components. Only want of memory is an error.
fn read_values<O: Octets>(
    alloc: Global,
    components: Fields<'_, O>,
    kind: HeadKind,
) -> Result<HeadValues, AllocError>
    ensures { IfOk result
        (λ values. values ≡ values_in (components_left components.entry) kind) }
{
    let (first, second) = lend_two(alloc, components, (1, 1), (second_element(kind), 1))?;
    let second = HeadValue::of(alloc, &second)?;
    match kind {
        HeadKind::Unb => Ok(HeadValues {
            reference: second,
            other: HeadValue::empty(),
        }),
        HeadKind::Unh => Ok(HeadValues {
            reference: HeadValue::of(alloc, &first)?,
            other: second,
        }),
        HeadKind::Ung | HeadKind::Unt | HeadKind::Une | HeadKind::Unz => Ok(HeadValues {
            reference: second,
            other: HeadValue::of(alloc, &first)?,
        }),
    }
}

// The element of the second of the two values that are read of a head. The first is in element 1.
fn second_element(kind: HeadKind) -> u32
    ensures { result ≡ second_element_of kind }
{
    match kind {
        HeadKind::Unb | HeadKind::Ung => 5,
        HeadKind::Unh | HeadKind::Unt | HeadKind::Une | HeadKind::Unz => 2,
    }
}
