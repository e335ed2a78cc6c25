//! The errors of an element with all its repetitions.
ghost use Rattle.std.specs.Prelude.{◌≡◌, ◌&&◌, ◌||◌, ◌+◌, ◌++◌, ◌<◌, ◌≤◌, ◌^◌, Some, false, length, nat_lt, not, OnOk, OnErr};
ghost use Rattle.std.specs.List.{list_all, list_any};
ghost use Rattle.edi_tables.specs.Forms.{reps_of};
ghost use Rattle.edi_tables.specs.Rows.{when};
ghost use Rattle.error_ledger.specs.declared.kind.Kind.TheVariants.{TooManyRepetitions};
ghost use Rattle.element_check.specs.Ascending.{AreAscending};
ghost use Rattle.element_check.specs.Local.{element_errors, error_at, is_missing as is_missing_of, is_used, repetitions_of};
ghost use Rattle.element_check.specs.Merging.{merged};
ghost use Rattle.element_check.specs.Streams.{after_front, after_left, AreOrdered, components_ahead, demanded, has_needed as has_needed_of, is_mandatory as is_mandatory_of, item_errors, values_left};

use crate::LocalError;
use crate::element::{check_item, is_any_filled};
use crate::error::ErrorList;
use crate::merge::absorb;
use crate::rules::Rules;
use crate::values::Ahead;
use edi_octets::Octets;
use edi_tables::ItemDef;
use error_ledger::Kind;
use std::alloc::AllocError;

/// Puts the errors of an element that has this item. Most often it has one repetition, whose errors are put at once.
pub(crate) fn check_element<O: Octets>(
    rules: &Rules<'_>,
    item: &ItemDef,
    element: u32,
    rest: &mut Ahead<'_, O>,
    errors: &mut ErrorList,
) -> Result<(), AllocError>
    requires few { length (components_ahead rest.old) < 2 ^ 31 }
    requires ordered { AreOrdered element 0 (components_ahead rest.old) }
    ensures ok { OnOk result (errors.new
        ≡ errors.old
        ++ element_errors rules.now (Some item.now)
        (repetitions_of (components_ahead rest.old) element) element) }
    ensures full { OnErr result (4
        < length errors.old
        + length (element_errors rules.now (Some item.now)
        (repetitions_of (components_ahead rest.old) element) element)) }
    ensures after { OnOk result (components_ahead rest.new
        ≡ after_front element (components_ahead rest.old)) }
{
    let known = errors.len();
    rest.begin(element);
    let missing = is_missing(item, element, rest);
    let first_excess = is_excess(false, item, element, rest);
    check_item(rules, item, missing, element, rest, errors)?;
    rest.pass(element);
    let repeated = rest.next_repetition(element);
    if !repeated {
        if !first_excess {
            return Ok(());
        }
    }
    let mut all = errors.split_off(known)?;
    let mut excess = first_excess;
    while rest.next_repetition(element) {
        let over = is_excess(excess, item, element, rest);
        check_repetition(rules, item, element, rest, &mut all)?;
        excess = over;
    }
    put_excess(excess, element, &mut all)?;
    errors.add(all.as_slice())
}

/// Puts the errors of one more repetition of an element among those of its others.
fn check_repetition<O: Octets>(
    rules: &Rules<'_>,
    item: &ItemDef,
    element: u32,
    rest: &mut Ahead<'_, O>,
    all: &mut ErrorList,
) -> Result<(), AllocError>
    requires few { length (values_left element rest.old) < 2 ^ 31 }
    requires ascending { AreAscending all.old }
    ensures ok { OnOk result (all.new
        ≡ merged all.old
        (item_errors rules.now element (demanded false item.now) (values_left element rest.old))) }
    ensures full { OnErr result (4
        < length (merged all.old
        (item_errors
        rules.now element (demanded false item.now) (values_left element rest.old)))) }
    ensures after { OnOk result (components_ahead rest.new ≡ after_left element rest.old) }
{
    let mut fresh = all.none();
    check_item(rules, item, false, element, rest, &mut fresh)?;
    rest.pass(element);
    absorb(all, fresh.as_slice())
}

/// Puts the error of an item that is repeated too often, if it is.
fn put_excess(excess: bool, element: u32, all: &mut ErrorList) -> Result<(), AllocError>
    requires ascending { AreAscending all.old }
    ensures ok { OnOk result (all.new
        ≡ merged all.old (when excess (error_at element 0 TooManyRepetitions))) }
    ensures full { OnErr result
        (4 < length (merged all.old (when excess (error_at element 0 TooManyRepetitions)))) }
{
    if !excess {
        return Ok(());
    }
    let error = LocalError {
        element,
        component: 0,
        kind: Kind::TooManyRepetitions,
    };
    absorb(all, &[error])
}

/// Whether the repetition that is read, or one before it, is past the greatest number of an item, and used.
fn is_excess<O: Octets>(before: bool, item: &ItemDef, element: u32, rest: &mut Ahead<'_, O>) -> bool
    ensures excess { result
        ≡ (before
        || (nat_lt (reps_of item.now) rest.old.repetition && is_used (values_left element rest.old))) }
    ensures values { values_left element rest.new ≡ values_left element rest.old }
    ensures after { after_left element rest.new ≡ after_left element rest.old }
    ensures ahead { components_ahead rest.new ≡ components_ahead rest.old }
    ensures same { rest.new.repetition ≡ rest.old.repetition }
{
    if before {
        return true;
    }
    rest.repetition() > u32::from(item.reps()) && is_any_filled(element, rest)
}

/// Whether an item needs a value that no repetition of its element has. Most often the first component is filled, and then
/// no other is read.
fn is_missing<O: Octets>(item: &ItemDef, element: u32, rest: &mut Ahead<'_, O>) -> bool
    requires ordered { AreOrdered element 1 (components_ahead rest.old) }
    requires first { rest.old.repetition ≡ 1 }
    ensures missing { result
        ≡ list_all (is_missing_of item.now) (repetitions_of (components_ahead rest.old) element) }
    ensures values { values_left element rest.new ≡ values_left element rest.old }
    ensures after { after_left element rest.new ≡ after_left element rest.old }
    ensures ahead { components_ahead rest.new ≡ components_ahead rest.old }
    ensures same { rest.new.repetition ≡ rest.old.repetition }
{
    if !is_mandatory(item) {
        return false;
    }
    if rest.begins_filled(element) {
        return false;
    }
    is_lacking(item, element, rest)
}

/// Whether an item needs a value.
fn is_mandatory(item: &ItemDef) -> bool
    ensures { result ≡ is_mandatory_of item.now }
{
    match item {
        ItemDef::Alone { part, .. } => part.must,
        ItemDef::Composite { must, .. } => *must,
    }
}

/// Whether no repetition of an element has a value that its item may need.
fn is_lacking<O: Octets>(item: &ItemDef, element: u32, rest: &Ahead<'_, O>) -> bool
    requires ordered { AreOrdered element 1 (components_ahead rest.now) }
    ensures { result
        ≡ not (list_any (has_needed_of item.now) (repetitions_of (components_ahead rest.now) element)) }
{
    let mut values = *rest;
    while values.next_repetition(element) {
        if has_needed(item, element, &mut values) {
            return false;
        }
        values.pass(element);
    }
    true
}

/// Whether the repetition that is read has a value that its item may need: a stand-alone data element its first component,
/// a composite any.
fn has_needed<O: Octets>(item: &ItemDef, element: u32, values: &mut Ahead<'_, O>) -> bool
    ensures needed { result ≡ has_needed_of item.now (values_left element values.old) }
    ensures after { after_left element values.new ≡ after_left element values.old }
{
    match item {
        ItemDef::Alone { .. } => values.begins_filled(element),
        ItemDef::Composite { .. } => is_any_filled(element, values),
    }
}
