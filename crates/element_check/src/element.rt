//! The errors of one repetition of an element.
ghost use Rattle.std.specs.Prelude.{[], ◌≡◌, ◌+◌, ◌++◌, ◌<◌, ◌^◌, length, unwrap_or, OnOk, OnErr};
ghost use Rattle.std.specs.List.{list_any};
ghost use Rattle.std.specs.Option.{option_map};
ghost use Rattle.seg_lexer.specs.Value.{octets_of};
ghost use Rattle.element_check.specs.Local.{has_octet as is_filled_of, is_list_named as is_list_named_of, names_list};
ghost use Rattle.element_check.specs.Streams.{after_left, alone_errors, components_ahead, composite_errors, demanded, item_errors, part_errors, part_rules, parts_errors, surplus_components, values_left};

use crate::error::{ErrorList, put_failed};
use crate::rules::Rules;
use crate::value::test_value;
use crate::values::Ahead;
use edi_octets::Octets;
use edi_tables::{ItemDef, PartDef};
use error_ledger::Kind;
use seg_lexer::Value;
use std::alloc::AllocError;

/// Puts the errors of the repetition of an element that is read, and that has this item. It may need a value, whatever the
/// item says.
pub(crate) fn check_item<O: Octets>(
    rules: &Rules<'_>,
    item: &ItemDef,
    must: bool,
    element: u32,
    values: &mut Ahead<'_, O>,
    errors: &mut ErrorList,
) -> Result<(), AllocError>
    requires few { length (values_left element values.old) < 2 ^ 31 }
    ensures ok { OnOk result (errors.new
        ≡ errors.old
        ++ item_errors rules.now element (demanded must item.now) (values_left element values.old)) }
    ensures full { OnErr result (4
        < length errors.old
        + length (item_errors
        rules.now element (demanded must item.now) (values_left element values.old))) }
    ensures after { OnOk result (after_left element values.new ≡ after_left element values.old) }
{
    match item {
        ItemDef::Alone { part, .. } => {
            check_alone(rules, &PartDef { must, ..*part }, element, values, errors)
        }
        ItemDef::Composite { code, .. } => {
            check_composite(rules, rules.parts(*code), must, element, values, errors)
        }
    }
}

/// Puts the errors of a stand-alone data element.
fn check_alone<O: Octets>(
    rules: &Rules<'_>,
    part: &PartDef,
    element: u32,
    values: &mut Ahead<'_, O>,
    errors: &mut ErrorList,
) -> Result<(), AllocError>
    requires few { length (values_left element values.old) < 2 ^ 31 }
    ensures ok { OnOk result (errors.new
        ≡ errors.old ++ alone_errors rules.now element part.now (values_left element values.old)) }
    ensures full { OnErr result (4
        < length errors.old
        + length (alone_errors rules.now element part.now (values_left element values.old))) }
    ensures after { OnOk result (after_left element values.new ≡ after_left element values.old) }
{
    let first = values.take(element);
    check_part(rules, part, false, first, element, 0, errors)?;
    check_surplus(element, values, 2, errors)
}

/// Puts the errors of a composite.
fn check_composite<O: Octets>(
    rules: &Rules<'_>,
    parts: &[PartDef],
    must: bool,
    element: u32,
    values: &mut Ahead<'_, O>,
    errors: &mut ErrorList,
) -> Result<(), AllocError>
    requires few { length (values_left element values.old) < 2 ^ 31 }
    requires short { length parts.now < 2 ^ 31 }
    ensures ok { OnOk result (errors.new
        ≡ errors.old
        ++ composite_errors rules.now element must parts.now (values_left element values.old)) }
    ensures full { OnErr result (4
        < length errors.old
        + length (composite_errors
        rules.now element must parts.now (values_left element values.old))) }
    ensures after { OnOk result (after_left element values.new ≡ after_left element values.old) }
{
    if is_any_filled(element, values) {
        let named = is_list_named(parts, element, values);
        check_parts(rules, parts, named, element, values, errors)
    } else {
        errors.put_if(must, element, 0, Kind::Missing)
    }
}

/// Whether any value of the repetition that is read is filled. Most often the first is, and then no other is read.
pub(crate) fn is_any_filled<O: Octets>(element: u32, values: &mut Ahead<'_, O>) -> bool
    ensures filled { result ≡ list_any is_filled_of (values_left element values.old) }
    ensures values { values_left element values.new ≡ values_left element values.old }
    ensures after { after_left element values.new ≡ after_left element values.old }
    ensures ahead { components_ahead values.new ≡ components_ahead values.old }
    ensures same { values.new.repetition ≡ values.old.repetition }
{
    values.begins_filled(element) || is_filled_behind(element, values)
}

fn is_filled_behind<O: Octets>(element: u32, values: &Ahead<'_, O>) -> bool
    ensures { result ≡ list_any is_filled_of (values_left element values.now) }
{
    let mut values = *values;
    while let Some(value) = values.take(element) {
        if !value.is_empty() {
            return true;
        }
    }
    false
}

/// The data element that says which list the codes of its composite are from.
const LIST_NAME: [u8; 4] = *b"1131";

/// Whether a composite itself names the list that its codes are from. Few have a part for that, and else no value is read.
#[tactic(auto, using(crate::proofs::StreamLemmas::unnamed_list))]
fn is_list_named<O: Octets>(parts: &[PartDef], element: u32, values: &Ahead<'_, O>) -> bool
    ensures { result ≡ is_list_named_of parts.now (values_left element values.now) }
{
    has_list_name(parts) && is_list_name_filled(parts, element, values)
}

fn has_list_name(parts: &[PartDef]) -> bool
    ensures { result ≡ list_any names_list parts.now }
{
    parts.iter().any(|part| part.code.octets == LIST_NAME)
}

fn is_list_name_filled<O: Octets>(parts: &[PartDef], element: u32, values: &Ahead<'_, O>) -> bool
    ensures { result ≡ is_list_named_of parts.now (values_left element values.now) }
{
    let mut values = *values;
    for part in parts {
        let Some(value) = values.take(element) else {
            return false;
        };
        if part.code.octets == LIST_NAME && !value.is_empty() {
            return true;
        }
    }
    false
}

/// Puts the errors of the parts of a composite, and of the components past them.
fn check_parts<O: Octets>(
    rules: &Rules<'_>,
    parts: &[PartDef],
    named: bool,
    element: u32,
    values: &mut Ahead<'_, O>,
    errors: &mut ErrorList,
) -> Result<(), AllocError>
    requires few { length (values_left element values.old) < 2 ^ 31 }
    requires short { length parts.now < 2 ^ 31 }
    ensures ok { OnOk result (errors.new
        ≡ errors.old
        ++ parts_errors (part_rules rules.now named) element 1 parts.now
        (values_left element values.old)) }
    ensures full { OnErr result (4
        < length errors.old
        + length (parts_errors (part_rules rules.now named) element 1 parts.now
        (values_left element values.old))) }
    ensures after { OnOk result (after_left element values.new ≡ after_left element values.old) }
{
    let mut component = 1;
    for part in parts {
        let value = values.take(element);
        check_part(rules, part, named, value, element, component, errors)?;
        component += 1;
    }
    check_surplus(element, values, component, errors)
}

/// Puts the errors of one data element, by its value: it must have one, or the value must pass its tests. Where the
/// composite names a list, the data element's own list isn't looked at.
fn check_part<O: Octets>(
    rules: &Rules<'_>,
    part: &PartDef,
    named: bool,
    value: Option<Value<'_, O>>,
    element: u32,
    component: u32,
    errors: &mut ErrorList,
) -> Result<(), AllocError>
    ensures ok { OnOk result (errors.new
        ≡ errors.old
        ++ part_errors (part_rules rules.now named) element component part.now
        (unwrap_or (option_map octets_of value.entry) [])) }
    ensures full { OnErr result (4
        < length errors.old
        + length (part_errors (part_rules rules.now named) element component part.now
        (unwrap_or (option_map octets_of value.entry) []))) }
{
    match value {
        Some(value) => check_value(rules, part, named, &value, element, component, errors),
        None => errors.put_if(part.must, element, component, Kind::Missing),
    }
}

/// The same where the component is written: its value may be empty.
fn check_value<O: Octets>(
    rules: &Rules<'_>,
    part: &PartDef,
    named: bool,
    value: &Value<'_, O>,
    element: u32,
    component: u32,
    errors: &mut ErrorList,
) -> Result<(), AllocError>
    ensures ok { OnOk result (errors.new
        ≡ errors.old
        ++ part_errors (part_rules rules.now named) element component part.now
        (octets_of value.now)) }
    ensures full { OnErr result (4
        < length errors.old
        + length (part_errors (part_rules rules.now named) element component part.now
        (octets_of value.now))) }
{
    if value.is_empty() {
        return errors.put_if(part.must, element, component, Kind::Missing);
    }
    let list = rules.list_unless(named, part.code);
    let results = test_value(rules.context, part.repr, list, value);
    put_failed(errors, element, component, &results)
}

/// Puts the errors of the components past the last one that is defined, of which the first has this number.
fn check_surplus<O: Octets>(
    element: u32,
    values: &mut Ahead<'_, O>,
    first: u32,
    errors: &mut ErrorList,
) -> Result<(), AllocError>
    requires few { first + length (values_left element values.old) < 2 ^ 32 }
    ensures ok { OnOk result (errors.new
        ≡ errors.old ++ surplus_components element first (values_left element values.old)) }
    ensures full { OnErr result (4
        < length errors.old
        + length (surplus_components element first (values_left element values.old))) }
    ensures after { OnOk result (after_left element values.new ≡ after_left element values.old) }
{
    let mut component = first;
    while let Some(value) = values.take(element) {
        errors.put_if(
            !value.is_empty(),
            element,
            component,
            Kind::TooManyComponents,
        )?;
        component += 1;
    }
    Ok(())
}
