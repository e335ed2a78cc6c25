//! The state of a walk: what one segment leaves to the next.
ghost use Rattle.std.specs.Prelude.{◌≡◌, ◌+◌, ◌<◌, ◌↔◌, ℕ, List, [], ◌∷◌, Option, Some, None, length, slice_get, IsTrue, IfOk, IfSome};
ghost use Rattle.edi_tables.specs.declared.tag.Tag.{Tag};
ghost use Rattle.edi_tables.specs.declared.table.Node.{Node};
ghost use Rattle.edi_tables.specs.Rows.{IsTable};
ghost use Rattle.edi_tables.specs.Walk.{missing_past};
ghost use Rattle.edi_tables.specs.Placement.{last_placed};
ghost use Rattle.edi_tables.specs.Pairs.{count_in, entry_in, pairs_next, pairs_of};
ghost use Rattle.table_walk.specs.Reading.{IsReading};
ghost use Rattle.table_walk.specs.Steps.{AreCountsUpTo, GoOnAlike, GoesOn, IsShaped, is_over_in, member_in, missing_in, pairs_after, tagged_in};

use crate::few_pairs::FewPairs;
use crate::position::{Position, gather, is_over_by};
use edi_tables::{Table, Tag};
use smallvec::SmallVec;
use std::alloc::{AllocError, Global};
use std::marker::Model;
use std::rc::RcSlice;
use std::sync::ledger::Ledger;
use step_counter::Steps;

/// The groups round the entry placed last, outermost first, and that entry, each with its count.
///
/// It is seen as this list of pairs. A few of them lie in it; more, or greater counts, are in a slice that states share.
#[derive(Debug, Drop)]
pub struct State {
    pairs: Held,
}

// How a state holds its pairs.
#[derive(Debug, Drop)]
enum Held {
    Few(FewPairs),
    Many(RcSlice<(u16, u32)>),
}

impl Model for State {
    ghost use Rattle.std.specs.Prelude.{ℕ, List};
    ghost use Rattle.table_walk.specs.StateView.{pairs_held};

    ghost Value = { List (ℕ × ℕ) };

    ghost view = { λ s. pairs_held s.pairs };
}

/// Where a segment is: at an entry or at none, with what is missing before it, and the state after it.
#[derive(Debug, Drop)]
pub struct Placed {
    pub state: State,
    pub entry: Option<u16>,
    pub over: bool,
    pub missing: SmallVec<u16, 4>,
}

/// The state after UNH.
pub fn start(_alloc: Global, table: &Table) -> Result<State, AllocError>
    ensures pairs { IfOk result (λ state. state ≡ pairs_of table.now (Some 0 ∷ [])) }
    ensures shaped { IfOk result (λ state. IsShaped table.now state) }
    ensures counts { IfOk result (λ state. AreCountsUpTo 1 state) }
{
    // UNH is the first entry of each table, and in no group.
    prove!(table.len() > 0);
    Ok(State {
        pairs: Held::Few(FewPairs::one(0, 1)),
    })
}

impl State {
    /// The count of a group round the entry placed last, or of that entry; 0 for another node.
    #[inline(always)]
    pub fn count_of(&self, node: u16) -> u32
        ensures { result ≡ count_in self.now node }
    {
        match &self.pairs {
            Held::Few(pairs) => pairs.count_of(node),
            Held::Many(pairs) => count_in(pairs.as_slice(), node),
        }
    }

    /// The pair of this number, from 0, outermost first: a node, and its count. There is none after that of the entry
    /// placed last.
    pub fn pair(&self, number: usize) -> Option<(u16, u32)>
        ensures { result ≡ slice_get self.now number }
    {
        match &self.pairs {
            Held::Few(pairs) => pairs.pair(number),
            Held::Many(pairs) => pairs.as_slice().get(number).copied(),
        }
    }

    /// Its pairs, where they are few.
    #[inline(always)]
    pub fn few(&self) -> Option<&FewPairs>
        ensures { IfSome result (λ few. few.now ≡ self.now) }
    {
        match &self.pairs {
            Held::Few(pairs) => Some(pairs),
            Held::Many(_) => None,
        }
    }

    /// The state that has a few pairs.
    #[inline(always)]
    pub fn of_few(pairs: FewPairs) -> State
        ensures { result ≡ pairs }
    {
        State {
            pairs: Held::Few(pairs),
        }
    }

    // The entry placed last.
    #[inline(always)]
    pub(crate) fn entry(&self) -> u16
        ensures { result ≡ entry_in self.now }
    {
        match &self.pairs {
            Held::Few(pairs) => pairs.entry(),
            Held::Many(pairs) => entry_in(pairs.as_slice()),
        }
    }

    /// Where the next segment is, and the state after it. The call is counted.
    #[inline(always)]
    pub fn place<L: Ledger>(
        &self,
        alloc: Global,
        table: &Table,
        tag: Option<Tag>,
        placed: &mut Steps<L>,
    ) -> Result<Placed, AllocError>
        requires shaped { IsShaped table.now self.now }
        requires few { AreCountsUpTo 4194303 self.now }
        ensures counted { placed.new ≡ placed.old + 1 }
        ensures entry { IfOk result (λ next. next.entry ≡ member_in table.now self.now tag) }
        ensures nowhere { IfOk result
            (λ next. (next.entry ≡ None) ↔ (tagged_in table.now self.now tag ≡ [])) }
        ensures missing { IfOk result
            (λ next. next.missing.items ≡ missing_in table.now self.now next.entry) }
        ensures over { IfOk result (λ next. next.over ≡ is_over_in table.now self.now next.entry) }
        ensures state { IfOk result
            (λ next. next.state ≡ pairs_after table.now self.now next.entry) }
        ensures shaped { IfOk result (λ next. IsShaped table.now next.state) }
        ensures counts { (most : ℕ)
            → AreCountsUpTo most self.now
            → IfOk result (λ next. AreCountsUpTo (most + 1) next.state) }
        ensures reading { IfOk result
            (λ next. (tags : List (Option Tag))
            (before : List (Option ℕ)) → IsReading table.now tags before
            → pairs_of table.now before ≡ self.now
            → GoesOn table.now tags before tag next) }
    {
        placed.tick();
        let position = Position::of(table, self);
        let best = position.member(tag);
        match best.entry {
            Some(entry) => Ok(Placed {
                state: state_next(alloc, &position, entry)?,
                entry: Some(entry),
                over: is_over_by(best.rank),
                missing: position.missing_by(alloc, entry, best.rank)?,
            }),
            None => Ok(Placed {
                state: self.share()?,
                entry: None,
                over: false,
                missing: SmallVec::new(alloc),
            }),
        }
    }

    /// The mandatory nodes from here to the table's end, ascending: what is missing where a message ends here.
    pub fn finish(&self, alloc: Global, table: &Table) -> Result<SmallVec<u16, 4>, AllocError>
        requires { IsShaped table.now self.now }
        ensures missing { IfOk result
            (λ missing. missing.items ≡ missing_past table.now (entry_in self.now)) }
        ensures reading { IfOk result
            (λ missing. (tags : List (Option Tag))
            (placed : List (Option ℕ)) → IsReading table.now tags placed
            → pairs_of table.now placed ≡ self.now
            → missing.items ≡ missing_past table.now (last_placed placed)) }
    {
        let position = Position::of(table, self);
        let missing = gather(alloc, position.missing_past())?;
        Ok(missing)
    }

    /// Whether two states have the same pairs.
    pub fn same(&self, other: &State) -> bool
        ensures equal { IsTrue result ↔ (self.now ≡ other.now) }
        // So a walk need not be taken again from where it comes to a state that it had.
        ensures onward { IsTrue result
            → (nodes : List Node) → IsTable nodes
            → (one_tags two_tags : List (Option Tag))
            (one two : List (Option ℕ)) → IsReading nodes one_tags one
            → IsReading nodes two_tags two
            → pairs_of nodes one ≡ self.now
            → pairs_of nodes two ≡ other.now
            → GoOnAlike nodes one two }
    {
        self.has_pairs_of(other)
    }

    // Whether two states have the same pairs.
    fn has_pairs_of(&self, other: &State) -> bool
        ensures { IsTrue result ↔ (self.now ≡ other.now) }
    {
        match (&self.pairs, &other.pairs) {
            (Held::Few(one), Held::Few(other)) => are_same_few(one, other),
            (Held::Many(one), Held::Many(other)) => are_same(one.as_slice(), other.as_slice()),
            (Held::Few(few), Held::Many(many)) => are_alike(few.as_slice(), many.as_slice()),
            (Held::Many(many), Held::Few(few)) => are_alike(few.as_slice(), many.as_slice()),
        }
    }

    /// The same state once more. It takes no memory: the error is that of an `Rc` whose count is full.
    pub fn share(&self) -> Result<State, AllocError>
        ensures { IfOk result (λ state. state ≡ self.now) }
    {
        match &self.pairs {
            Held::Few(pairs) => Ok(State {
                pairs: Held::Few(pairs.copy()),
            }),
            Held::Many(pairs) => Ok(State {
                pairs: Held::Many(pairs.clone()?),
            }),
        }
    }
}

// The state after an entry that a position goes to.
#[inline(always)]
fn state_next(alloc: Global, position: &Position<'_>, entry: u16) -> Result<State, AllocError>
    requires within { entry < length position.now.table.now }
    requires few { AreCountsUpTo 4194303 position.now.pairs.now }
    ensures { IfOk result
        (λ state. state ≡ pairs_next position.now.table.now position.now.pairs.now entry) }
{
    match position.few_next(entry) {
        Some(pairs) => Ok(State {
            pairs: Held::Few(pairs),
        }),
        None => many_next(alloc, position, entry),
    }
}

// The same, however many pairs there are.
#[inline(never)]
fn many_next(alloc: Global, position: &Position<'_>, entry: u16) -> Result<State, AllocError>
    requires within { entry < length position.now.table.now }
    requires few { AreCountsUpTo 4194303 position.now.pairs.now }
    ensures { IfOk result
        (λ state. state ≡ pairs_next position.now.table.now position.now.pairs.now entry) }
{
    let pairs = position.pairs_next(alloc, entry)?;
    Ok(State {
        pairs: Held::Many(RcSlice::from_vec(pairs)?),
    })
}

// Whether two lists of few pairs are one.
fn are_same_few(one: &FewPairs, other: &FewPairs) -> bool
    ensures { IsTrue result ↔ (one.now ≡ other.now) }
{
    one.as_slice() == other.as_slice()
}

// Whether two lists of pairs are one.
fn are_same(one: &[(u16, u32)], other: &[(u16, u32)]) -> bool
    ensures { IsTrue result ↔ (one.now ≡ other.now) }
{
    one == other
}

// Whether two lists of pairs are one, whose counts have different widths.
fn are_alike(few: &[(u16, u16)], many: &[(u16, u32)]) -> bool
    ensures { IsTrue result ↔ (few.now ≡ many.now) }
{
    if few.len() != many.len() {
        return false;
    }
    for (i, pair) in few.iter().enumerate() {
        if pair.0 != many[i].0 || u32::from(pair.1) != many[i].1 {
            return false;
        }
    }
    true
}

// The entry of pairs: the node of the last.
fn entry_in(pairs: &[(u16, u32)]) -> u16
    ensures { result ≡ entry_in pairs.now }
{
    match pairs.last() {
        Some(pair) => pair.0,
        None => 0,
    }
}

// The count of a node in pairs; 0 where they lack it.
fn count_in(pairs: &[(u16, u32)], node: u16) -> u32
    ensures { result ≡ count_in pairs.now node }
{
    for pair in pairs {
        if pair.0 == node {
            return pair.1;
        }
    }
    0
}
