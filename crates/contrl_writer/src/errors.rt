//! The errors of a summary in order, each with its level.
ghost use Rattle.std.specs.Prelude.{[], ◌≡◌, ◌-◌, ◌≤◌, All, IfOk, IsTrue, codes, filter, length, map};
ghost use Rattle.std.specs.Option.{option_copied};
ghost use Rattle.std.specs.List.Sorted.{IsNonDecreasingBy};
ghost use Rattle.edi_tables.specs.Rows.{has_name};
ghost use Rattle.error_ledger.specs.Order.{in_order};
ghost use Rattle.contrl_writer.specs.Levels.{errors_among, first_error, is_among, is_level, level_of, levelled, with_level};
ghost use Rattle.contrl_writer.specs.Range.{IsRange};
ghost use Rattle.contrl_writer.specs.Raising.{closing_raised, first_raised, group_raised, last_raised, lower_raised, message_raised, part_raised, segment_of};

use crate::level::{ErrorLevel, Levelled, is_of_group, is_of_interchange};
use contrl_segments::{GroupHead, MessageHead, Summary};
use edi_tables::Tag;
use error_ledger::{ErrorLine, order_errors};
use std::alloc::{AllocError, Global};
use std::marker::Model;

const UNE: Tag = Tag { octets: *b"UNE" };

/// The errors of a summary in order, each with its level: seen as their list.
#[derive(Debug, Drop)]
pub(crate) struct LevelledErrors {
    items: Vec<Levelled>,
}

impl Model for LevelledErrors {
    ghost use Rattle.std.specs.Prelude.{List};
    ghost use Rattle.std.specs.List.Sorted.{IsNonDecreasingBy};
    ghost use Rattle.contrl_writer.specs.declared.level.Levelled as levels;

    ghost Value = { List levels.Levelled };

    ghost view = { λ e. e.items.items };

    ghost invariant = { λ e. IsNonDecreasingBy (λ x. x.error.segment) e.items.items };
}

impl LevelledErrors {
    /// Those of a summary.
    pub(crate) fn of(alloc: Global, summary: &Summary) -> Result<LevelledErrors, AllocError>
        ensures { IfOk result (λ e. e ≡ levelled summary.now) }
    {
        let errors = put_in_order(alloc, summary.errors.items())?;
        let mut items = told_alone(alloc, &errors)?;
        for group in summary.groups.items() {
            raise_to_group(&mut items, group);
        }
        for message in summary.messages.items() {
            raise_to_message(&mut items, message);
        }
        Ok(LevelledErrors { items })
    }

    /// All of them.
    pub(crate) fn items(&self) -> &[Levelled]
        ensures { result.now ≡ self.now }
    {
        &self.items
    }

    /// Those at the segments `first..=last`.
    pub(crate) fn among(&self, first: u32, last: u32) -> &[Levelled]
        ensures errors { result.now ≡ errors_among first last self.now }
        ensures order { IsNonDecreasingBy segment_of result.now }
        ensures own { All (λ x. IsTrue (is_among first last x.error.segment)) result.now }
    {
        let (from, to) = places_among(&self.items, first, last);
        &self.items[from..to]
    }
}

/// The first of some errors that has this level.
pub(crate) fn first_told(errors: &[Levelled], level: ErrorLevel) -> Option<&ErrorLine>
    ensures { option_copied result ≡ first_error (filter (λ x. is_level level x.level) errors.now) }
{
    for x in errors {
        if level.is(x.level) {
            return Some(&x.error);
        }
    }
    None
}

// LevelledErrors in order.
fn put_in_order(alloc: Global, errors: &[ErrorLine]) -> Result<Vec<ErrorLine>, AllocError>
    ensures { IfOk result (λ v. v.items ≡ in_order errors.now) }
{
    let mut ordered = errors.to_vec(alloc)?;
    order_errors(&mut ordered)?;
    Ok(ordered)
}

// LevelledErrors with the levels that they have where there are no groups and no messages.
fn told_alone(alloc: Global, errors: &[ErrorLine]) -> Result<Vec<Levelled>, AllocError>
    ensures { IfOk result (λ v. v.items ≡ map (with_level [] []) errors.now) }
{
    let mut items = Vec::with_capacity(alloc, errors.len())?;
    for error in errors {
        items.push(Levelled {
            error: *error,
            level: level_alone(error),
        })?;
    }
    Ok(items)
}

// The level that an error has where there are no groups and no messages.
#[tactic(auto, using(crate::proofs::LevelLemmas::level_alone))]
fn level_alone(error: &ErrorLine) -> ErrorLevel
    ensures { result ≡ level_of [] [] error.now }
{
    if is_of_group(error.kind) {
        ErrorLevel::Group
    } else {
        ErrorLevel::Interchange
    }
}

// Where the errors at the segments `first..=last` are.
fn places_among(errors: &[Levelled], first: u32, last: u32) -> (usize, usize)
    requires { IsNonDecreasingBy segment_of errors.now }
    ensures ordered { result.0 ≤ result.1 }
    ensures within { result.1 ≤ length errors.now }
    ensures among { IsRange (λ x. is_among first last x.error.segment) errors.now
        result.0 (result.1 - result.0) }
{
    let from = errors.partition_point(|x| x.error.segment < first);
    let to = errors.partition_point(|x| x.error.segment <= last);
    (from, to.max(from))
}

// Reports the errors at the ends of a group for that group, except those of the interchange.
fn raise_to_group(errors: &mut [Levelled], group: &GroupHead)
    requires { IsNonDecreasingBy segment_of errors.old }
    ensures { errors.new ≡ map (group_raised group.now) errors.old }
{
    raise_first(errors, group.first);
    raise_last(errors, group.last);
}

// Reports the errors at the first segment of a group for that group.
fn raise_first(errors: &mut [Levelled], segment: u32)
    requires { IsNonDecreasingBy segment_of errors.old }
    ensures { errors.new ≡ map (first_raised segment) errors.old }
{
    let (from, to) = places_among(errors, segment, segment);
    raise_part(&mut errors[from..to]);
}

// Reports the errors at the last segment of a group for that group, where it is a UNE.
fn raise_last(errors: &mut [Levelled], segment: u32)
    requires { IsNonDecreasingBy segment_of errors.old }
    ensures { errors.new ≡ map (last_raised segment) errors.old }
{
    let (from, to) = places_among(errors, segment, segment);
    raise_closing(&mut errors[from..to]);
}

fn raise_part(errors: &mut [Levelled])
    ensures { errors.new ≡ map part_raised errors.old }
{
    for x in errors.iter_mut() {
        *x = raised_to_group(*x);
    }
}

fn raise_closing(errors: &mut [Levelled])
    ensures { errors.new ≡ map closing_raised errors.old }
{
    for x in errors.iter_mut() {
        *x = raised_at_end(*x);
    }
}

// Reported for a group, unless its kind tells of the interchange.
fn raised_to_group(x: Levelled) -> Levelled
    ensures { result ≡ part_raised x }
{
    if is_of_interchange(x.error.kind) {
        return x;
    }
    Levelled {
        level: ErrorLevel::Group,
        ..x
    }
}

// The same of an error at a UNE.
fn raised_at_end(x: Levelled) -> Levelled
    ensures { result ≡ closing_raised x }
{
    if is_une(x.error.tag) {
        return raised_to_group(x);
    }
    x
}

fn is_une(tag: Option<Tag>) -> bool
    ensures { result ≡ has_name (codes "UNE") tag }
{
    matches!(tag, Some(tag) if tag == UNE)
}

// Reports the errors at the segments of a message for that message, except those of the interchange and of groups.
fn raise_to_message(errors: &mut [Levelled], message: &MessageHead)
    requires { IsNonDecreasingBy segment_of errors.old }
    ensures { errors.new ≡ map (message_raised message.now) errors.old }
{
    let (from, to) = places_among(errors, message.first, message.last);
    raise_lower(&mut errors[from..to]);
}

fn raise_lower(errors: &mut [Levelled])
    ensures { errors.new ≡ map lower_raised errors.old }
{
    for x in errors.iter_mut() {
        *x = raised_to_message(*x);
    }
}

// Reported for a message, unless its kind tells of the interchange or of a group.
fn raised_to_message(x: Levelled) -> Levelled
    ensures { result ≡ lower_raised x }
{
    if is_of_interchange(x.error.kind) || is_of_group(x.error.kind) {
        return x;
    }
    Levelled {
        level: ErrorLevel::Message,
        ..x
    }
}
