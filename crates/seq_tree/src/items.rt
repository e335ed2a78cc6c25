//! A short list of items with what they weigh and which of them are marked, so that no item is looked at for either.

ghost use Rattle.std.specs.Prelude.{◌≡◌, ◌+◌, ◌-◌, ◌*◌, ◌^◌, ◌<◌, ◌≤◌, length, take, drop, sum_by, IfSome, IfNone};
ghost use Rattle.seq_tree.specs.Items.{IsMarkedPlace};
ghost use Rattle.seq_tree.specs.Shape.{longest_run};

use crate::measure::Measured;
use arrayvec::ArrayVec;
use std::marker::Model;

/// The most items of a list: `longest_run` of the definitions. More make fewer nodes, and a longer way in a leaf.
pub(crate) const LONGEST_RUN: usize = 32;

/// At most `LONGEST_RUN` items, seen as their list.
#[derive(Drop)]
pub(crate) struct Items<T: Measured> {
    list: Vec<T>,
    total: u64,
    // What the items before each of the first ones weigh: of all, unless that needs more than two octets.
    weights: ArrayVec<u16, LONGEST_RUN>,
    // The places of those that are marked.
    marked: ArrayVec<u8, LONGEST_RUN>,
}

impl<T: Measured> Model for Items<T> {
    ghost use Rattle.std.specs.Prelude.{List};
    ghost use Rattle.seq_tree.specs.Items.{IsKnown};

    ghost Value = { List T };

    ghost view = { λ items. items.list.items };

    ghost invariant = { λ items.
        IsKnown T.measure T.marks items.list.items items.total items.weights.items items.marked.items };
}

impl<T: Measured> Items<T> {
    /// These items.
    pub fn of(list: Vec<T>) -> Items<T>
        requires { length list.items ≤ longest_run }
        ensures { result ≡ list.items }
    {
        let mut total: u64 = 0;
        let mut weights = ArrayVec::new();
        let mut marked = ArrayVec::new();
        for (place, item) in list.iter().enumerate() {
            if weights.len() == place && total <= u64::from(u16::MAX) {
                weights.push(total as u16);
            }
            if item.marks() == 1 {
                marked.push(place as u8);
            }
            total += u64::from(item.weight());
        }
        Items {
            list,
            total,
            weights,
            marked,
        }
    }

    /// The items as a slice.
    pub fn as_slice(&self) -> &[T]
        ensures is { result.now ≡ self.now }
        ensures few { length self.now ≤ longest_run }
        ensures most { sum_by T.marks self.now ≤ length self.now }
    {
        &self.list
    }

    /// What they weigh together.
    pub fn weight(&self) -> u64
        ensures is { result ≡ sum_by T.measure self.now }
        ensures bound { result ≤ 4294967295 * length self.now }
    {
        self.total
    }

    /// How many of them are marked.
    pub fn marks(&self) -> u32
        ensures is { result ≡ sum_by T.marks self.now }
        ensures most { result ≤ length self.now }
    {
        self.marked.len() as u32
    }

    /// What the items before a place weigh, unless that needs more than two octets.
    #[tactic(auto, using(crate::proofs::Entries::weight_past))]
    pub fn weight_before(&self, place: usize) -> Option<u16>
        requires { place < length self.now }
        ensures is { IfSome result (λ weight. weight ≡ sum_by T.measure (take place self.now)) }
        ensures none { IfNone result (65535 < sum_by T.measure (take place self.now)) }
    {
        self.weights.get(place).copied()
    }

    /// The place of the marked item before which `rank` of them are marked.
    pub fn marked_place(&self, rank: u32) -> usize
        requires { rank < sum_by T.marks self.now }
        ensures { IsMarkedPlace T.marks self.now rank result }
    {
        usize::from(self.marked[rank as usize])
    }
}
