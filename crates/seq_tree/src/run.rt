//! Items that lie side by side in a short list, which other runs share.

ghost use Rattle.std.specs.Prelude.{◌≡◌, ◌+◌, ◌*◌, ◌^◌, ◌<◌, ◌≤◌, length, take, drop, sum_by, slice_get, slice_range, Some, IfOk, IfSome};
ghost use Rattle.seq_tree.specs.Shape.{longest_run};
ghost use Rattle.seq_tree.specs.Items.{IsMarkedPlace};

use crate::items::Items;
use crate::look::Located;
use crate::measure::Measured;
use std::alloc::{AllocError, Global};
use std::marker::Model;
use std::rc::Rc;

/// One item or more, side by side in a list that is shared, seen as these items.
///
/// The whole list has at most `LONGEST_RUN` items. So a look through a leaf is short, and a run keeps few items alive that
/// aren't its own.
#[derive(Drop)]
pub(crate) struct Run<T: Measured> {
    list: Rc<Items<T>>,
    from: u32,
    to: u32,
}

impl<T: Measured> Model for Run<T> {
    ghost use Rattle.std.specs.Prelude.{List, slice_range, length, ◌<◌, ◌≤◌};
    ghost use Rattle.seq_tree.specs.Shape.{longest_run};

    ghost Value = { List T };

    ghost view = { λ run. slice_range run.list.value run.from run.to };

    ghost invariant = { λ run. (run.from < run.to)
        × (run.to ≤ length run.list.value)
        × (length run.list.value ≤ longest_run) };
}

impl<T: Measured> Run<T> {
    /// All items of a list. After an error they are dropped.
    pub fn of_list(alloc: Global, items: Vec<T>) -> Result<Run<T>, AllocError>
        requires some { 0 < length items.items }
        requires few { length items.items ≤ longest_run }
        ensures { IfOk result (λ run. run ≡ items.items) }
    {
        let to = items.len() as u32;
        Ok(Run {
            list: Rc::new(alloc, Items::of(items))?,
            from: 0,
            to,
        })
    }

    /// The items of this list from place `from` up to place `to`. It takes no memory: the error is that of an `Rc` whose
    /// count is full.
    fn of(list: &Rc<Items<T>>, from: usize, to: usize) -> Result<Run<T>, AllocError>
        requires some { from < to }
        requires within { to ≤ length list.now.value }
        requires few { length list.now.value ≤ longest_run }
        ensures { IfOk result (λ run. run ≡ slice_range list.now.value from to) }
    {
        Ok(Run {
            list: list.clone()?,
            from: from as u32,
            to: to as u32,
        })
    }

    /// Its items.
    pub fn items(&self) -> &[T]
        ensures is { result.now ≡ self.now }
        ensures some { 0 < length self.now }
        ensures few { length self.now ≤ longest_run }
    {
        &self.list.as_slice()[self.from as usize..self.to as usize]
    }

    /// What they weigh together.
    pub fn weight(&self) -> u64
        ensures is { result ≡ sum_by T.measure self.now }
        ensures bound { result ≤ 4294967295 * length self.now }
    {
        match self.whole() {
            Some(list) => list.weight(),
            None => weigh(self.items()),
        }
    }

    /// How many of them are marked.
    pub fn marks(&self) -> u32
        ensures is { result ≡ sum_by T.marks self.now }
        ensures most { result ≤ length self.now }
    {
        match self.whole() {
            Some(list) => list.marks(),
            None => count_marks(self.items()),
        }
    }

    // The list, if these are all its items.
    fn whole(&self) -> Option<&Items<T>>
        ensures { IfSome result (λ list. list.now ≡ self.now) }
    {
        if self.from == 0 && self.to as usize == self.list.as_slice().len() {
            Some(&self.list)
        } else {
            None
        }
    }

    /// The place of the marked item before which `rank` of them are marked. No other item is looked at if the list is no
    /// longer than the run.
    pub fn marked_place(&self, rank: u32) -> usize
        requires within { rank < sum_by T.marks self.now }
        ensures { IsMarkedPlace T.marks self.now rank result }
    {
        let from = self.from as usize;
        let skipped = count_marks(&self.list.as_slice()[..from]);
        self.list.marked_place(skipped + rank) - from
    }

    /// What the items before a place weigh. None is looked at if those up to it in the list weigh less than 65,536.
    pub fn weight_before(&self, place: usize) -> u64
        requires within { place < length self.now }
        ensures is { result ≡ sum_by T.measure (take place self.now) }
        ensures bound { result ≤ 4294967295 * place }
    {
        let from = self.from as usize;
        match (
            self.list.weight_before(from),
            self.list.weight_before(from + place),
        ) {
            (Some(front), Some(both)) => u64::from(both - front),
            _ => weigh(&self.items()[..place]),
        }
    }

    /// The same items once more. It takes no memory.
    pub(crate) fn share(&self) -> Result<Run<T>, AllocError>
        ensures { IfOk result (λ run. run ≡ self.now) }
    {
        Run::of(&self.list, self.from as usize, self.to as usize)
    }

    /// The first `i` items, and the others. It takes no memory.
    pub fn cut(&self, i: usize) -> Result<(Run<T>, Run<T>), AllocError>
        requires some { 0 < i }
        requires within { i < length self.now }
        ensures { IfOk result (λ p. (p.0 ≡ take i self.now) × (p.1 ≡ drop i self.now)) }
    {
        let (from, to) = (self.from as usize, self.to as usize);
        let front = Run::of(&self.list, from, from + i)?;
        let back = Run::of(&self.list, from + i, to)?;
        Ok((front, back))
    }
}

/// What items of a leaf weigh together.
pub(crate) fn weigh<T: Measured>(items: &[T]) -> u64
    requires few { length items.now ≤ longest_run }
    ensures is { result ≡ sum_by T.measure items.now }
    ensures bound { result ≤ 4294967295 * length items.now }
{
    let mut total = 0;
    for item in items {
        total += u64::from(item.weight());
    }
    total
}

/// How many items of a leaf are marked.
pub(crate) fn count_marks<T: Measured>(items: &[T]) -> u32
    requires few { length items.now ≤ longest_run }
    ensures is { result ≡ sum_by T.marks items.now }
    ensures most { result ≤ length items.now }
{
    let mut marks = 0;
    for item in items {
        marks += item.marks();
    }
    marks
}

/// The first of a leaf's items up to which, itself included, they weigh more than `bound`.
pub(crate) fn locate_in<T: Measured>(items: &[T], bound: u64) -> Located<'_, T>
    requires few { length items.now ≤ longest_run }
    requires below { bound < sum_by T.measure items.now }
    ensures is { slice_get items.now result.place ≡ Some result.item.now }
    ensures offset { sum_by T.measure (take result.place items.now) + result.offset ≡ bound }
    ensures within { result.offset < T.measure result.item.now }
{
    let mut offset = bound;
    for (place, item) in items.iter().enumerate() {
        let weight = u64::from(item.weight());
        if offset < weight {
            return Located {
                place,
                offset,
                item,
            };
        }
        offset -= weight;
    }
    unreachable!();
}
