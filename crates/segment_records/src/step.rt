//! One segment after another: where a segment is by the mode before it, and the mode after it.
ghost use Rattle.std.specs.Prelude.{◌≡◌, ◌+◌, ◌<◌, ◌≤◌, [], ℕ, List, None, Some, false, true, codes, length, IfOk, IfSome, if◌then◌else◌};
ghost use Rattle.edi_tables.specs.Rows.{has_name};
ghost use Rattle.dir_compile.specs.Directory.{tables_of};
ghost use Rattle.seg_lexer.specs.Fields.{Component};
ghost use Rattle.dir_compile.specs.declared.parts.Parts.{Parts};
ghost use Rattle.segment_records.specs.Known.{AreKnown, IsKnown};
ghost use Rattle.segment_records.specs.Messages.{table_for};
ghost use Rattle.segment_records.specs.Records.{IsModeOf};
ghost use Rattle.segment_records.specs.Steps.{inner_step, opening_step, plain_step as step_to, step_of};
ghost use Rattle.segment_records.specs.Standings.{entry_at, is_over_at};
ghost use Rattle.segment_records.specs.Taken.{read_as, taken};

use crate::known::{KnownStep, KnownSteps};
use crate::mode::Mode;
use crate::tags::{is_named, is_no_part};
use dir_compile::Directory;
use edi_tables::Tag;
use smallvec::SmallVec;
use std::alloc::{AllocError, Global};
use std::sync::ledger::Ledger;
use step_counter::Steps;
use table_walk::{State, start};

/// Where a segment is: at no entry, at one, or at one where it is one too many.
#[derive(Clone, Copy, Debug)]
pub(crate) enum Standing {
    Nowhere,
    At(u16),
    Over(u16),
}

/// Where a segment is, what is missing before it, and the mode after it.
#[derive(Debug, Drop)]
pub(crate) struct Step {
    pub(crate) standing: Standing,
    pub(crate) missing: SmallVec<u16, 4>,
    pub(crate) after: Mode,
}

// The standing of a segment at this entry, if it is at one, where it is one too many or isn't.
#[inline(always)]
fn standing_of(entry: Option<u16>, over: bool) -> Standing
    requires { entry ≡ None → over ≡ false }
    ensures entry { entry_at result ≡ entry }
    ensures over { is_over_at result ≡ over }
{
    match entry {
        None => Standing::Nowhere,
        Some(entry) => {
            if over {
                Standing::Over(entry)
            } else {
                Standing::At(entry)
            }
        }
    }
}

/// The step of a segment with this tag after this mode. `table` is the number of the table that it names, if it is a UNH and the
/// directory has the table. At most one call of the walk is counted.
#[inline(always)]
pub(crate) fn take_step<L: Ledger>(
    alloc: Global,
    directory: &Directory,
    before: &Mode,
    tag: Option<Tag>,
    table: Option<u32>,
    known: &mut KnownSteps,
    placed: &mut Steps<L>,
) -> Result<Step, AllocError>
    requires within { IfSome table (λ i. i < length (tables_of directory.now)) }
    requires mode { IsModeOf directory.now 4194303 before.now }
    requires known { AreKnown directory.now known.old }
    ensures step { (components : List Component)
        → (has_name (codes "UNH") tag ≡ true → table ≡ table_for directory.now components)
        → IfOk result (λ step. taken step
        ≡ step_of directory.now before.now (read_as tag components)) }
    ensures mode { (most : ℕ)
        → IsModeOf directory.now most before.now
        → IfOk result (λ step. IsModeOf directory.now (most + 1) step.after) }
    ensures known { AreKnown directory.now known.new }
    ensures counted { placed.new ≤ placed.old + 1 }
{
    if is_named(b"UNH", tag) {
        return open_message(alloc, directory, table);
    }
    if is_no_part(tag) {
        return Ok(plain_step(alloc, Mode::Outside));
    }
    // Nearly every segment is in a message with a table.
    match before {
        Mode::Within { table, state } => {
            go_on(alloc, directory, *table, state, tag, known, placed)
        }
        _ => take_inner_step(alloc, directory, before, tag, known, placed),
    }
}

/// The step of a segment with this tag after this mode, where the tag is none of UNH, UNB, UNG, UNE and UNZ: what it says
/// doesn't matter. At most one call of the walk is counted.
#[inline(always)]
pub(crate) fn take_inner_step<L: Ledger>(
    alloc: Global,
    directory: &Directory,
    before: &Mode,
    tag: Option<Tag>,
    known: &mut KnownSteps,
    placed: &mut Steps<L>,
) -> Result<Step, AllocError>
    requires mode { IsModeOf directory.now 4194303 before.now }
    requires known { AreKnown directory.now known.old }
    ensures step { IfOk result
        (λ step. taken step ≡ inner_step directory.now before.now (read_as tag [])) }
    ensures mode { (most : ℕ)
        → IsModeOf directory.now most before.now
        → IfOk result (λ step. IsModeOf directory.now (most + 1) step.after) }
    ensures known { AreKnown directory.now known.new }
    ensures counted { placed.new ≤ placed.old + 1 }
{
    match before {
        Mode::Outside => Ok(plain_step(alloc, Mode::Outside)),
        Mode::Untabled => Ok(plain_step(alloc, unless_closed(tag, Mode::Untabled))),
        Mode::Within { table, state } => {
            go_on(alloc, directory, *table, state, tag, known, placed)
        }
    }
}

// The step of a UNH, which is at entry 0 of the table that it names, if there is one.
fn open_message(
    alloc: Global,
    directory: &Directory,
    table: Option<u32>,
) -> Result<Step, AllocError>
    requires within { IfSome table (λ i. i < length (tables_of directory.now)) }
    ensures step { IfOk result (λ step. taken step ≡ opening_step directory.now table) }
    ensures mode { IfOk result (λ step. IsModeOf directory.now 1 step.after) }
{
    let Some(table) = table else {
        return Ok(plain_step(alloc, Mode::Untabled));
    };
    let state = start(alloc, directory.table(table as usize))?;
    Ok(Step {
        standing: Standing::At(0),
        missing: SmallVec::new(alloc),
        after: Mode::Within { table, state },
    })
}

// The step of a segment of a message with a table. It is looked for among the known ones first.
#[inline(always)]
fn go_on<L: Ledger>(
    alloc: Global,
    directory: &Directory,
    table: u32,
    state: &State,
    tag: Option<Tag>,
    known: &mut KnownSteps,
    placed: &mut Steps<L>,
) -> Result<Step, AllocError>
    requires mode { IsModeOf directory.now 4194303 (Mode.Within table state.now) }
    requires known { AreKnown directory.now known.old }
    ensures step { IfOk result
        (λ step. taken step
        ≡ inner_step directory.now (Mode.Within table state.now) (read_as tag [])) }
    ensures mode { (most : ℕ)
        → IsModeOf directory.now most (Mode.Within table state.now)
        → IfOk result (λ step. IsModeOf directory.now (most + 1) step.after) }
    ensures known { AreKnown directory.now known.new }
    ensures counted { placed.new ≤ placed.old + 1 }
{
    match go_on_as_known(alloc, table, state, tag, known) {
        Some(step) => Ok(step),
        None => go_on_anew(alloc, directory, table, state, tag, known, placed),
    }
}

/// The same step as one that is known, if there is one: nothing is missing before it.
#[inline(always)]
pub(crate) fn go_on_as_known(
    alloc: Global,
    table: u32,
    state: &State,
    tag: Option<Tag>,
    known: &mut KnownSteps,
) -> Option<Step>
    ensures step { (directory : Parts) → AreKnown directory known.old
        → IfSome result (λ step. taken step
        ≡ inner_step directory (Mode.Within table state.now) (read_as tag [])) }
    ensures mode { (directory : Parts) (most : ℕ) → AreKnown directory known.old
        → IsModeOf directory most (Mode.Within table state.now)
        → IfSome result (λ step. IsModeOf directory (most + 1) step.after) }
    ensures whole { IfSome result (λ step. step.missing.items ≡ []) }
    ensures known { known.new ≡ known.old }
{
    let before = state.few()?;
    let tag = tag?;
    let place = known.place_of(table, before, tag)?;
    known.go_to(place);
    let found = known.at(place)?;
    Some(step_again(alloc, found))
}

// A known step, taken again.
#[inline(always)]
fn step_again(alloc: Global, known: &KnownStep) -> Step
    ensures step { (directory : Parts) → IsKnown directory known.now → taken result
        ≡ inner_step directory (Mode.Within known.now.table known.now.before)
        (read_as (Some known.now.tag) []) }
    ensures mode { (directory : Parts) (most : ℕ) → IsKnown directory known.now
        → IsModeOf directory most (Mode.Within known.now.table known.now.before)
        → IsModeOf directory (most + 1) result.after }
    ensures whole { result.missing.items ≡ [] }
{
    Step {
        standing: Standing::At(known.entry),
        missing: SmallVec::new(alloc),
        after: unless_closed(
            Some(known.tag),
            Mode::Within {
                table: known.table,
                state: State::of_few(known.after.copy()),
            },
        ),
    }
}

// The step of a segment of a message with a table, by its table. From now on it is known, if it can be.
#[inline(never)]
fn go_on_anew<L: Ledger>(
    alloc: Global,
    directory: &Directory,
    table: u32,
    state: &State,
    tag: Option<Tag>,
    known: &mut KnownSteps,
    placed: &mut Steps<L>,
) -> Result<Step, AllocError>
    requires mode { IsModeOf directory.now 4194303 (Mode.Within table state.now) }
    requires known { AreKnown directory.now known.old }
    ensures step { IfOk result
        (λ step. taken step
        ≡ inner_step directory.now (Mode.Within table state.now) (read_as tag [])) }
    ensures mode { (most : ℕ)
        → IsModeOf directory.now most (Mode.Within table state.now)
        → IfOk result (λ step. IsModeOf directory.now (most + 1) step.after) }
    ensures known { AreKnown directory.now known.new }
    ensures counted { placed.new ≤ placed.old + 1 }
{
    let next = state.place(alloc, directory.table(table as usize), tag, placed)?;
    known.keep(table, state, tag, &next);
    Ok(Step {
        standing: standing_of(next.entry, next.over),
        missing: next.missing,
        after: unless_closed(
            tag,
            Mode::Within {
                table,
                state: next.state,
            },
        ),
    })
}

// A step that nothing is said of but the mode after it.
fn plain_step(alloc: Global, after: Mode) -> Step
    ensures { taken result ≡ step_to after }
{
    Step {
        standing: Standing::Nowhere,
        missing: SmallVec::new(alloc),
        after,
    }
}

// The mode after a segment of a message: UNT closes it.
#[inline(always)]
fn unless_closed(tag: Option<Tag>, after: Mode) -> Mode
    ensures { result ≡ (if has_name (codes "UNT") tag then Mode.Outside else after) }
{
    if is_named(b"UNT", tag) {
        Mode::Outside
    } else {
        after
    }
}
