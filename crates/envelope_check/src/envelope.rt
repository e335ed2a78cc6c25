//! The errors of the envelopes of a text.
ghost use Rattle.std.specs.Prelude.{
  ◌≡◌,
  ◌+◌,
  ◌-◌,
  ◌^◌,
  ◌<◌,
  ◌≤◌,
  ◌++◌,
  length,
  not,
  is_some,
  IfOk,
  OnOk,
};
ghost use Rattle.std.specs.Option.{option_copied};
ghost use Rattle.edi_tables.specs.Rows.{when};
ghost use Rattle.envelope_check.specs.Heads.{Fits};
ghost use Rattle.envelope_check.specs.Envelope.{envelope_errors_of, error_of_text as text_error};
ghost use Rattle.envelope_check.specs.Known.{
  errors_by,
  mark_at,
  rules_by,
  first_unb as first_unb_of,
  has_kind,
  is_unz,
};

use crate::head::{Head, SegmentMark};
use crate::heads::{first_unb, has_end, split_here};
use crate::known::Known;
use crate::marks::SegmentMarks;
use crate::rules::{Rule, breaks_any, is_sound, rules, sound_run};
use error_ledger::{ErrorLine, Kind};
use std::alloc::{AllocError, Global};

/// The errors of the envelopes of a text, in the order of errors: of the interchange, its functional groups and its messages.
/// What is wrong with the service string advice, the syntax that UNB names, and a tail are left to the caller.
///
/// `heads` are those segments that have one of the six tags of `HeadKind`, in order, and `total` is how many segments
/// there are. A segment's mark is asked for only where an error is told of it. Only want of memory is an error.
/// The work grows with the heads, and with the segments that are outside of a message or after the end.
pub fn envelope_errors<M: SegmentMarks>(
    alloc: Global,
    heads: &[Head<'_>],
    total: u32,
    marks: &mut M,
) -> Result<Vec<ErrorLine>, AllocError>
    requires fits { Fits heads.now (M.marks marks.old) }
    requires total { total ≡ length (M.marks marks.old) }
    ensures all { IfOk result
        (λ errors. errors.items ≡ envelope_errors_of heads.now (M.marks marks.old)) }
    ensures same { M.marks marks.new ≡ M.marks marks.old }
{
    let mut errors = text_errors(alloc, heads)?;
    let mut known = Known::first(heads);
    // How many heads are done with.
    let mut done = 0;
    while known.segments < total {
        let rest = &heads[done..];
        let sound = sound_run(&known, rest, total);
        known = known.after_others(sound);
        if known.segments == total {
            return Ok(errors);
        }
        let number = known.segments + 1;
        let (head, after) = split_here(rest, number);
        push_segment_errors(&mut errors, number, marks, &known, head, after)?;
        known = known.after(head);
        done = heads.len() - after.len();
    }
    Ok(errors)
}

// The errors of the text as a whole: it begins with no UNB, and it has no UNZ.
fn text_errors(alloc: Global, heads: &[Head<'_>]) -> Result<Vec<ErrorLine>, AllocError>
    ensures { IfOk result (λ errors. errors.items
        ≡ when (not (is_some (first_unb_of heads.now))) (text_error Kind.NoUnb)
        ++ when (not (has_kind is_unz heads.now)) (text_error Kind.NoUnz)) }
{
    let mut errors = Vec::new(alloc);
    if first_unb(heads).is_none() {
        errors.push(error_of_text(Kind::NoUnb))?;
    }
    if !has_end(heads) {
        errors.push(error_of_text(Kind::NoUnz))?;
    }
    Ok(errors)
}

// An error of the text as a whole, at segment 0.
fn error_of_text(kind: Kind) -> ErrorLine
    ensures { result ≡ text_error kind }
{
    ErrorLine {
        segment: 0,
        start: 0,
        tag: None,
        element: 0,
        component: 0,
        kind,
        node: 0,
        missing: None,
    }
}

// Puts the errors of the rules that a segment breaks at the end. Most segments break none, which is seen at once. The others are
// given a copy of what is known, so that it lies in memory for them alone.
#[inline(always)]
fn push_segment_errors<M: SegmentMarks>(
    errors: &mut Vec<ErrorLine>,
    number: u32,
    marks: &mut M,
    known: &Known,
    head: Option<&Head<'_>>,
    after: &[Head<'_>],
) -> Result<(), AllocError>
    requires first { 0 < number }
    requires last { number ≤ length (M.marks marks.old) }
    requires few { known.now.segments + 1 < 2 ^ 32 }
    ensures told { OnOk result (errors.new.items ≡ errors.old.items
        ++ errors_by number (mark_at (M.marks marks.old) (number - 1))
        (rules_by known.now (option_copied head.entry) after.now)) }
    ensures same { M.marks marks.new ≡ M.marks marks.old }
{
    if is_sound(known, head) {
        return Ok(());
    }
    push_broken(errors, number, marks, *known, head, after)
}

// The same, with a look at each rule.
#[inline(never)]
fn push_broken<M: SegmentMarks>(
    errors: &mut Vec<ErrorLine>,
    number: u32,
    marks: &mut M,
    known: Known<'_, '_>,
    head: Option<&Head<'_>>,
    after: &[Head<'_>],
) -> Result<(), AllocError>
    requires first { 0 < number }
    requires last { number ≤ length (M.marks marks.old) }
    requires few { known.segments + 1 < 2 ^ 32 }
    ensures told { OnOk result (errors.new.items ≡ errors.old.items
        ++ errors_by number (mark_at (M.marks marks.old) (number - 1))
        (rules_by known.entry (option_copied head.entry) after.now)) }
    ensures same { M.marks marks.new ≡ M.marks marks.old }
{
    let rules = rules(&known, head, after);
    if !breaks_any(&rules) {
        return Ok(());
    }
    let mark = marks.mark(number - 1);
    push_errors(errors, number, &mark, rules)
}

// Puts the errors of the rules that a segment with this mark breaks at the end.
#[tactic(auto, unfolding(crate::specs::Known::errors_by))]
fn push_errors(
    errors: &mut Vec<ErrorLine>,
    number: u32,
    mark: &SegmentMark,
    rules: [Rule; 11],
) -> Result<(), AllocError>
    ensures { OnOk result (errors.new.items ≡ errors.old.items ++ errors_by number mark.now rules) }
{
    for (is_broken, element, kind) in rules {
        if is_broken {
            errors.push(ErrorLine {
                segment: number,
                start: mark.start,
                tag: mark.tag,
                element,
                component: 0,
                kind,
                node: 0,
                missing: None,
            })?;
        }
    }
    Ok(())
}
