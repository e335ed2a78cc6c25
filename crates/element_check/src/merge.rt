//! The errors of one more repetition of an element, put among those that are known.
ghost use Rattle.std.specs.Prelude.{◌≡◌, ◌+◌, ◌++◌, ◌<◌, ◌≤◌, true, false, length, take, drop, OnOk, OnErr};
ghost use Rattle.std.specs.List.Sorted.{IsPartitionPoint};
ghost use Rattle.element_check.specs.Ascending.{AreAscending};
ghost use Rattle.element_check.specs.Merging.{is_before as is_before_of, merged};

use crate::error::{ErrorList, LocalError};
use std::alloc::AllocError;

/// Puts the errors of one more repetition among those that are known: each is there once, in order. Where all are known
/// already they are only looked up, by halving; else the known ones from the place of the first new one on are moved.
pub(crate) fn absorb(known: &mut ErrorList, fresh: &[LocalError]) -> Result<(), AllocError>
    requires { AreAscending known.old }
    ensures ok { OnOk result (known.new ≡ merged known.old fresh.now) }
    ensures full { OnErr result (4 < length (merged known.old fresh.now)) }
{
    let first = first_new(known.as_slice(), fresh);
    if first.passed == fresh.len() {
        return Ok(());
    }
    let later = known.cut(first.at)?;
    put_merged(known, later.as_slice(), &fresh[first.passed..])
}

/// Where the first new error goes among the known ones, and how many are before it among the fresh ones.
#[derive(Clone, Copy)]
struct FirstNew {
    at: usize,
    passed: usize,
}

/// Finds the first of the fresh errors that isn't known, by halving what is left of the known ones for each.
fn first_new(known: &[LocalError], fresh: &[LocalError]) -> FirstNew
    requires { AreAscending known.now }
    ensures within { result.at ≤ length known.now }
    ensures passed { result.passed ≤ length fresh.now }
    ensures front { merged known.now fresh.now
        ≡ take result.at known.now ++ merged (drop result.at known.now) (drop result.passed fresh.now) }
{
    let mut at = 0;
    for (passed, error) in fresh.iter().enumerate() {
        at += count_before(&known[at..], error);
        if at == known.len() || is_before(error, &known[at]) {
            return FirstNew { at, passed };
        }
        at += 1;
    }
    FirstNew {
        at,
        passed: fresh.len(),
    }
}

/// How many of the known errors are before a fresh one.
fn count_before(known: &[LocalError], error: &LocalError) -> usize
    requires { AreAscending known.now }
    ensures within { result ≤ length known.now }
    ensures point { IsPartitionPoint (λ x. is_before_of x error.now ≡ true)
        (λ x. is_before_of x error.now ≡ false) known.now result }
{
    known.partition_point(|x| is_before(x, error))
}

/// Whether an error is before another: by its element, its component, and the number of its kind.
fn is_before(x: &LocalError, y: &LocalError) -> bool
    ensures { result ≡ is_before_of x.now y.now }
{
    if x.element != y.element {
        return x.element < y.element;
    }
    if x.component != y.component {
        return x.component < y.component;
    }
    x.kind.number() < y.kind.number()
}

/// Puts the errors of two lists at the end, merged.
fn put_merged(
    errors: &mut ErrorList,
    known: &[LocalError],
    fresh: &[LocalError],
) -> Result<(), AllocError>
    ensures ok { OnOk result (errors.new ≡ errors.old ++ merged known.now fresh.now) }
    ensures full { OnErr result (4 < length errors.old + length (merged known.now fresh.now)) }
{
    let mut i = 0;
    let mut j = 0;
    while i < known.len() && j < fresh.len() {
        if is_before(&fresh[j], &known[i]) {
            errors.put(fresh[j])?;
            j += 1;
        } else {
            errors.put(known[i])?;
            if !is_before(&known[i], &fresh[j]) {
                j += 1;
            }
            i += 1;
        }
    }
    errors.add(&known[i..])?;
    errors.add(&fresh[j..])
}
