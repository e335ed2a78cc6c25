//! One step of a walk, by the pairs of the entry placed last.
ghost use Rattle.std.specs.Prelude.{◌≡◌, ◌+◌, ◌<◌, ◌≤◌, Bool, Some, All, AllPairs, IfOk, filter, nat_le, nat_lt, length, IfSome, if◌then◌else◌};
ghost use Rattle.edi_tables.specs.Rows.{IsTable};
ghost use Rattle.edi_tables.specs.Walk.{max_at, missing_between, missing_past, reached_node};
ghost use Rattle.edi_tables.specs.Filled.{is_filled};
ghost use Rattle.edi_tables.specs.Pairs.{count_in, entry_in, entry_next, group_next, over_in, pairs_next, rank_in};
ghost use Rattle.table_walk.specs.Bodies.{bound_of};
ghost use Rattle.table_walk.specs.Reading.{has_tag, least_from};
ghost use Rattle.table_walk.specs.Steps.{AreCountsUpTo, IsShaped, member_in};

use crate::few_pairs::FewPairs;
use crate::state::State;
use edi_tables::{Candidates, Missing, Table, Tag};
use smallvec::SmallVec;
use std::alloc::{AllocError, Global};

/// The best candidate so far, and its rank: 4, which is more than each rank, where there is none.
#[derive(Clone, Copy)]
pub struct Best {
    pub entry: Option<u16>,
    pub rank: u8,
}

impl Best {
    /// No candidate.
    pub const NONE: Best = Best {
        entry: None,
        rank: 4,
    };

    /// The better of the best so far and a candidate with this rank: the candidate only where its rank is less.
    pub fn or(self, candidate: u16, rank: u8) -> Best
        ensures { result
            ≡ (if nat_lt rank self.rank
            then record { entry = Some candidate; rank = rank } else self) }
    {
        if rank < self.rank {
            Best {
                entry: Some(candidate),
                rank,
            }
        } else {
            self
        }
    }
}

/// An entry that was placed last, with its pairs.
#[derive(Drop)]
pub struct Position<'a> {
    table: &'a Table,
    pairs: &'a State,
    entry: u16,
    ghost lawful: { IsTable table.now },
    ghost shaped: { IsShaped table.now pairs.now },
    ghost here: { entry ≡ entry_in pairs.now },
}

impl<'a> Position<'a> {
    /// The position that a state tells by its pairs.
    #[inline(always)]
    pub fn of(table: &'a Table, pairs: &'a State) -> Position<'a>
        requires { IsShaped table.now pairs.now }
        ensures table { result.table.now ≡ table.now }
        ensures pairs { result.pairs.now ≡ pairs.now }
    {
        let entry = pairs.entry();
        prove!(usize::from(entry) < table.len());
        Position {
            table,
            pairs,
            entry,
        }
    }

    /// Where a segment with this tag is: at the first candidate with the least rank. With its rank.
    #[inline(always)]
    pub fn member(&self, tag: Option<Tag>) -> Best
        ensures entry { result.entry ≡ member_in self.now.table.now self.now.pairs.now tag }
        ensures rank { result.rank
            ≡ bound_of (rank_in self.now.table.now self.now.pairs.now) result.entry }
    {
        let mut candidates = self.table.candidates(self.entry);
        while let Some(candidate) = candidates.next() {
            if has_tag(self.table, tag, candidate) {
                return self.best_from(tag, candidate, candidates);
            }
        }
        Best::NONE
    }

    // The best of a candidate with this tag and of those after it.
    //
    // Most often the first has rank 0, and nothing more is looked for. Else it stops at a candidate
    // that can't better the best so far: ranks are at least 2 once a candidate misses a node.
    #[inline(always)]
    fn best_from(&self, tag: Option<Tag>, first: u16, others: Candidates<'_>) -> Best
        requires within { first < length self.now.table.now }
        requires inside { All (λ c. c < length self.now.table.now) others }
        requires rising { AllPairs
            (λ c d. reached_node self.now.table.now (entry_in self.now.pairs.now) c
            ≤ reached_node self.now.table.now (entry_in self.now.pairs.now) d)
            others }
        ensures entry { result.entry
            ≡ least_from
            (rank_in self.now.table.now self.now.pairs.now)
            (Some first)
            (filter (has_tag self.now.table.now tag) others.entry) }
        ensures rank { result.rank
            ≡ bound_of (rank_in self.now.table.now self.now.pairs.now) result.entry }
    {
        let misses = self.passes_must(first);
        let mut best = Best::NONE.or(first, self.rank(first, misses));
        if best.rank == 0 {
            return best;
        }
        let first_must = self.table.first_must_after(self.entry);
        for candidate in others {
            let misses = self.table.misses(self.entry, first_must, candidate);
            if best.rank <= 2 && misses {
                return best;
            }
            if has_tag(self.table, tag, candidate) {
                best = best.or(candidate, self.rank(candidate, misses));
            }
        }
        best
    }

    // Whether going to a candidate passes a mandatory node. It passes no node at all where it reaches the next one at most.
    #[inline(always)]
    fn passes_must(&self, candidate: u16) -> bool
        requires { candidate < length self.now.table.now }
        ensures { result ≡ is_filled (missing_between
            self.now.table.now
            (entry_in self.now.pairs.now)
            candidate) }
    {
        self.table.reached(self.entry, candidate) > self.entry + 1
            && self.missing(candidate).next().is_some()
    }

    /// Whether going to a candidate is one too many.
    #[inline(always)]
    pub fn is_over(&self, candidate: u16) -> bool
        requires { candidate < length self.now.table.now }
        ensures { result ≡ over_in self.now.table.now self.now.pairs.now candidate }
    {
        if self.table.is_repeat(self.entry, candidate) {
            self.is_full(candidate - 1)
        } else {
            candidate == self.entry && self.is_full(candidate)
        }
    }

    /// The pairs after a candidate, if they are few. It takes no memory.
    #[inline(always)]
    pub fn few_next(&self, candidate: u16) -> Option<FewPairs>
        requires within { candidate < length self.now.table.now }
        requires few { AreCountsUpTo 4194303 self.now.pairs.now }
        ensures { IfSome result
            (λ pairs. pairs ≡ pairs_next self.now.table.now self.now.pairs.now candidate) }
    {
        let mut pairs = FewPairs::none();
        pairs.put(candidate, self.entry_next(candidate))?;
        for group in self.table.groups_round(usize::from(candidate)) {
            pairs.put(group, self.group_next(candidate, group))?;
        }
        Some(pairs)
    }

    /// The pairs after a candidate, however many they are.
    pub fn pairs_next(&self, alloc: Global, candidate: u16) -> Result<Vec<(u16, u32)>, AllocError>
        requires within { candidate < length self.now.table.now }
        requires few { AreCountsUpTo 4194303 self.now.pairs.now }
        ensures { IfOk result
            (λ pairs. pairs.items ≡ pairs_next self.now.table.now self.now.pairs.now candidate) }
    {
        let mut pairs = Vec::new(alloc);
        pairs.push((candidate, self.entry_next(candidate)))?;
        for group in self.table.groups_round(usize::from(candidate)) {
            pairs.push((group, self.group_next(candidate, group)))?;
        }
        pairs.as_mut_slice().reverse();
        Ok(pairs)
    }

    /// The mandatory nodes that going to a candidate passes, ascending.
    pub fn missing(&self, candidate: u16) -> Missing<'a>
        requires { candidate < length self.now.table.now }
        ensures { result
            ≡ missing_between self.now.table.now (entry_in self.now.pairs.now) candidate }
    {
        self.table.missing(self.entry, candidate)
    }

    /// The same, by the rank of the candidate: most have rank 0, and then nothing is looked for.
    #[inline(always)]
    #[tactic(auto, using(crate::proofs::Choosing::rank_low))]
    pub fn missing_by(
        &self,
        alloc: Global,
        candidate: u16,
        rank: u8,
    ) -> Result<SmallVec<u16, 4>, AllocError>
        requires within { candidate < length self.now.table.now }
        requires rank { rank ≡ rank_in self.now.table.now self.now.pairs.now candidate }
        ensures { IfOk result (λ missing. missing.items
            ≡ missing_between self.now.table.now (entry_in self.now.pairs.now) candidate) }
    {
        if rank < 2 {
            return Ok(SmallVec::new(alloc));
        }
        gather(alloc, self.missing(candidate))
    }

    /// The mandatory nodes that going past the table's end passes, ascending.
    pub fn missing_past(&self) -> Missing<'a>
        ensures { result ≡ missing_past self.now.table.now (entry_in self.now.pairs.now) }
    {
        self.table.missing_past(self.entry)
    }

    // The rank of a candidate, from 0 to 3, by whether going there passes a mandatory node.
    #[inline(always)]
    fn rank(&self, candidate: u16, misses: bool) -> u8
        requires within { candidate < length self.now.table.now }
        requires missing { misses
            ≡ is_filled (missing_between
            self.now.table.now
            (entry_in self.now.pairs.now)
            candidate) }
        ensures { result ≡ rank_in self.now.table.now self.now.pairs.now candidate }
    {
        match (self.is_over(candidate), misses) {
            (false, false) => 0,
            (true, false) => 1,
            (false, true) => 2,
            (true, true) => 3,
        }
    }

    // Whether the count of a node has reached its greatest count.
    fn is_full(&self, node: u16) -> bool
        requires { node < length self.now.table.now }
        ensures { result
            ≡ nat_le (max_at self.now.table.now node) (count_in self.now.pairs.now node) }
    {
        self.table.node(usize::from(node)).max <= self.pairs.count_of(node)
    }

    // The count of a group round a candidate after going there: one more where the candidate is its trigger.
    fn group_next(&self, candidate: u16, group: u16) -> u32
        requires within { group < length self.now.table.now }
        requires few { AreCountsUpTo 4194303 self.now.pairs.now }
        ensures { result ≡ group_next self.now.pairs.now candidate group }
    {
        let count = self.pairs.count_of(group);
        if candidate == group + 1 {
            count + 1
        } else {
            count
        }
    }

    // The count of a candidate after going there: one more where it is the entry itself and no trigger, else 1.
    fn entry_next(&self, candidate: u16) -> u32
        requires within { candidate < length self.now.table.now }
        requires few { AreCountsUpTo 4194303 self.now.pairs.now }
        ensures { result ≡ entry_next self.now.table.now self.now.pairs.now candidate }
    {
        if candidate == self.entry && !self.table.is_trigger(usize::from(candidate)) {
            self.pairs.count_of(candidate) + 1
        } else {
            1
        }
    }
}

/// Whether going to a candidate with this rank is one too many.
#[tactic(auto, using(crate::proofs::Choosing::rank_over))]
pub fn is_over_by(rank: u8) -> bool
    ensures { (over misses : Bool)
        → rank ≡ (if over then 1 else 0) + (if misses then 2 else 0)
        → result ≡ over }
{
    rank == 1 || rank == 3
}

/// These nodes as a list. Mostly none are asked for: this is kept out of the way of a walk.
#[inline(never)]
pub fn gather(alloc: Global, nodes: Missing<'_>) -> Result<SmallVec<u16, 4>, AllocError>
    ensures { IfOk result (λ list. list.items ≡ nodes.entry) }
{
    let mut list = SmallVec::new(alloc);
    for node in nodes {
        list.push(node)?;
    }
    Ok(list)
}

// Whether an entry has this tag; a segment without a tag fits nowhere.
pub fn has_tag(table: &Table, tag: Option<Tag>, entry: u16) -> bool
    requires { entry < length table.now }
    ensures { result ≡ has_tag table.now tag entry }
{
    match (tag, table.node(usize::from(entry)).tag) {
        (Some(tag), Some(other)) => tag.octets == other.octets,
        _ => false,
    }
}
