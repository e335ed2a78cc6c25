//! The ways down a tree: to an item, to the weight before a place, and to the item at a weight. Each counts the nodes that it
//! visits, of which the last is a leaf: only there does it look at items, of which a leaf has at most 32.

ghost use Rattle.std.specs.Prelude.{◌≡◌, ◌+◌, ◌-◌, ◌*◌, ◌^◌, ◌<◌, ◌≤◌, length, take, sum_by, slice_get, Some};
ghost use Rattle.seq_tree.specs.Shape.{FillsHeight};

use crate::measure::Measured;
use crate::run::{locate_in, weigh};
use crate::tree::{Node, Tree};
use std::sync::ledger::Ledger;
use step_counter::Steps;

/// Where a weight falls: an item, its place, counted from 0, and how much of the weight is left after the items before it.
#[derive(Debug, Drop)]
pub struct Located<'a, T: Measured> {
    pub place: usize,
    pub offset: u64,
    pub item: &'a T,
}

impl<T: Measured> Tree<T> {
    /// The item at place `i`, counted from 0.
    pub fn at<L: Ledger>(&self, i: usize, visited: &mut Steps<L>) -> &T
        requires within { i < length self.now.0 }
        ensures is { slice_get self.now.0 i ≡ Some result.now }
        ensures cost { visited.new ≤ visited.old + (self.now.1 + 1) }
        ensures low { FillsHeight self.now.1 (length self.now.0) }
    {
        visited.tick();
        match &self.node {
            Node::Leaf(run) => &run.items()[i],
            Node::Fork(sides) => {
                let left_len = sides.left.len();
                if i < left_len {
                    sides.left.at(i, visited)
                } else {
                    sides.right.at(i - left_len, visited)
                }
            }
        }
    }

    /// The sum of the first `i` weights.
    #[tactic(auto, using(crate::proofs::Ranges::sum_by_take_right))]
    pub fn before<L: Ledger>(&self, i: usize, visited: &mut Steps<L>) -> u64
        requires within { i ≤ length self.now.0 }
        ensures is { result ≡ sum_by T.measure (take i self.now.0) }
        ensures bound { result ≤ sum_by T.measure self.now.0 }
        ensures cost { visited.new ≤ visited.old + (self.now.1 + 1) }
        ensures low { FillsHeight self.now.1 (length self.now.0) }
    {
        visited.tick();
        match &self.node {
            Node::Leaf(run) => weigh(&run.items()[..i]),
            Node::Fork(sides) => {
                let left_len = sides.left.len();
                if i < left_len {
                    sides.left.before(i, visited)
                } else {
                    sides.left.total() + sides.right.before(i - left_len, visited)
                }
            }
        }
    }

    /// The first item up to which, itself included, the items weigh more than `bound`.
    #[tactic(auto, using(crate::proofs::Ranges::sum_by_take_right))]
    pub fn locate<L: Ledger>(&self, bound: u64, visited: &mut Steps<L>) -> Located<'_, T>
        requires below { bound < sum_by T.measure self.now.0 }
        ensures is { slice_get self.now.0 result.place ≡ Some result.item.now }
        ensures offset { sum_by T.measure (take result.place self.now.0) + result.offset ≡ bound }
        ensures within { result.offset < T.measure result.item.now }
        ensures cost { visited.new ≤ visited.old + (self.now.1 + 1) }
        ensures low { FillsHeight self.now.1 (length self.now.0) }
    {
        visited.tick();
        match &self.node {
            Node::Leaf(run) => locate_in(run.items(), bound),
            Node::Fork(sides) => {
                let left_total = sides.left.total();
                if bound < left_total {
                    return sides.left.locate(bound, visited);
                }
                let located = sides.right.locate(bound - left_total, visited);
                Located {
                    place: sides.left.len() + located.place,
                    ..located
                }
            }
        }
    }
}
