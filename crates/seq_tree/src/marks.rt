//! The marked items of a sequence, one after the other: trees without one that is asked for are passed unseen.

ghost use Rattle.std.specs.Prelude.{◌≡◌, ℕ, ◌+◌, ◌-◌, ◌*◌, ◌^◌, ◌<◌, ◌≤◌, ◌++◌, length, take, drop, sum_by, slice_get, slice_range, Some};
ghost use Rattle.seq_tree.specs.Marks.{IsAfter, IsNextLeaf};
ghost use Rattle.seq_tree.specs.Shape.{FillsHeight};

use crate::measure::Measured;
use crate::run::Run;
use crate::sequence::Seq;
use crate::tree::{Node, Tree};
use crate::walk::Pending;
use std::marker::Model;
use std::sync::ledger::Ledger;
use step_counter::Steps;

/// A marked item: its place, counted from 0, the weight of the items before it, and the leaf that it lies in, whose first item
/// has the place `first`.
#[derive(Debug, Drop)]
pub struct Marked<'a, T: Measured> {
    pub place: usize,
    pub before: u64,
    pub item: &'a T,
    pub leaf: &'a [T],
    pub first: usize,
}

/// A way to marked items of a sequence, one after the other, seen as the items of the sequence, how many of the marked ones are
/// left behind, and how many are behind it or in the leaf that it is at. It takes no memory.
///
/// The way to all marked items of n items visits fewer than 2n nodes, and none below a tree without a marked item.
#[derive(Drop)]
pub struct MarkedItems<'a, T: Measured> {
    seq: &'a Seq<T>,
    // The leaf that the way is at, if it has come to one.
    leaf: Option<&'a Run<T>>,
    // What lies before the leaf, and that with the leaf.
    before: Front,
    after: Front,
    // What comes after the leaf.
    pending: Pending<'a, T>,
}

impl<'a, T: Measured> Model for MarkedItems<'a, T> {
    ghost use Rattle.std.specs.Prelude.{List, ℕ};

    ghost Value = { List T × ℕ × ℕ };

    ghost use Rattle.seq_tree.specs.Marks.{IsWayThrough, leaf_items};

    ghost view = { λ way. (way.seq.now, way.before.marks, way.after.marks) };

    ghost invariant = { λ way.
        IsWayThrough T.measure T.marks way.seq.now way.before (leaf_items way.leaf) way.after way.pending.0 };
}

impl<'a, T: Measured> MarkedItems<'a, T> {
    /// The way through a sequence, at its begin.
    pub(crate) fn of(seq: &'a Seq<T>) -> MarkedItems<'a, T>
        ensures { result ≡ (seq.now, 0, 0) }
    {
        MarkedItems {
            seq,
            leaf: None,
            before: Front::NONE,
            after: Front::NONE,
            pending: Pending::of(seq.root()),
        }
    }

    /// The marked item before which `rank` items are marked, with the items of its leaf. Each node that is visited counts once.
    /// No other item is looked at, unless the leaf is a part of a list or weighs 65,536 or more, and then those before it in the
    /// list, which has at most 32. The way is at that leaf then.
    #[inline(always)]
    pub fn find<L: Ledger>(&mut self, rank: u32, visited: &mut Steps<L>) -> Marked<'a, T>
        requires after { self.old.1 ≤ rank }
        requires within { rank < sum_by T.marks self.old.0 }
        ensures same { self.new.0 ≡ self.old.0 }
        ensures behind { self.new.1 ≤ rank }
        ensures is { slice_get self.old.0 result.place ≡ Some result.item.now }
        ensures marked { T.marks result.item.now ≡ 1 }
        ensures rank { sum_by T.marks (take result.place self.old.0) ≡ rank }
        ensures before { sum_by T.measure (take result.place self.old.0) ≡ result.before }
        ensures here { (result.first ≤ result.place)
            × (result.place < result.first + length result.leaf.now) }
        ensures inside { result.first + length result.leaf.now ≤ length self.old.0 }
        ensures leaf { slice_range self.old.0 result.first (result.first + length result.leaf.now)
            ≡ result.leaf.now }
        ensures cost { (b : ℕ)
            → length self.old.0 < 2 ^ b
            → visited.new ≤ visited.old + (2 * b + 2) }
    {
        self.go_to(rank, visited);
        let Some(leaf) = self.leaf else {
            unreachable!();
        };
        let place = leaf.marked_place(rank - self.before.marks);
        let items = leaf.items();
        Marked {
            place: self.before.items + place,
            before: self.before.weight + leaf.weight_before(place),
            item: &items[place],
            leaf: items,
            first: self.before.items,
        }
    }

    // Goes on to the leaf of the marked item before which `rank` items are marked, unless it is in the leaf at hand.
    #[inline(always)]
    fn go_to<L: Ledger>(&mut self, rank: u32, visited: &mut Steps<L>)
        requires after { self.old.1 ≤ rank }
        requires within { rank < sum_by T.marks self.old.0 }
        ensures same { self.new.0 ≡ self.old.0 }
        ensures behind { self.new.1 ≤ rank }
        ensures there { rank < self.new.2 }
        ensures cost { (b : ℕ)
            → length self.old.0 < 2 ^ b
            → visited.new ≤ visited.old + (2 * b + 2) }
    {
        if rank < self.after.marks {
            return;
        }
        // So no count of marked items is too large.
        let _marks = self.seq.marks();
        let mut before = self.after;
        let leaf = next_leaf(rank, &mut before, &mut self.pending, visited);
        self.leaf = Some(leaf.run);
        self.before = before;
        self.after = leaf.after;
    }
}

// What lies before a place: how many items, what they weigh, and how many of them are marked.
#[derive(Clone, Copy)]
struct Front {
    items: usize,
    weight: u64,
    marks: u32,
}

impl Front {
    // Nothing.
    const NONE: Front = Front {
        items: 0,
        weight: 0,
        marks: 0,
    };

    // This and then the items of a tree.
    fn after_tree<T: Measured>(self, tree: &Tree<T>) -> Front
        requires few { self.items + length tree.now.0 < 2 ^ 32 }
        requires light { self.weight ≤ 4294967295 * self.items }
        requires fits { self.marks + sum_by T.marks tree.now.0 < 2 ^ 32 }
        ensures further { IsAfter T.measure T.marks self result tree.now.0 }
        ensures light { result.weight ≤ 4294967295 * result.items }
    {
        Front {
            items: self.items + tree.len(),
            weight: self.weight + tree.total(),
            marks: self.marks + tree.marks(),
        }
    }
}

// A leaf, and what lies before the place after it.
#[derive(Clone, Copy)]
struct Leaf<'a, T: Measured> {
    run: &'a Run<T>,
    after: Front,
}

// The leaf of the marked item before which `rank` items are marked, among the items to come, where `before` lies before them.
// Then `before` lies before the leaf, and what comes after the leaf is still to come.
fn next_leaf<'a, T: Measured, L: Ledger>(
    rank: u32,
    before: &mut Front,
    pending: &mut Pending<'a, T>,
    visited: &mut Steps<L>,
) -> Leaf<'a, T>
    requires after { before.old.marks ≤ rank }
    requires within { rank < before.old.marks + sum_by T.marks pending.old.0 }
    requires few { before.old.items + length pending.old.0 < 2 ^ 32 }
    requires fits { before.old.marks + sum_by T.marks pending.old.0 < 2 ^ 32 }
    requires light { before.old.weight ≤ 4294967295 * before.old.items }
    ensures leaf { IsNextLeaf T.measure T.marks rank
        before.old pending.old.0 before.new result.run.now pending.new.0 }
    ensures after { IsAfter T.measure T.marks before.new result.after result.run.now }
    ensures light { result.after.weight ≤ 4294967295 * result.after.items }
    ensures cost { (b : ℕ)
        → length pending.old.0 < 2 ^ b
        → visited.new ≤ visited.old + (2 * b + 2) }
{
    while let Some(tree) = pending.pop() {
        if rank - before.marks < tree.marks() {
            return leaf_in(tree, rank, before, pending, visited);
        }
        *before = before.after_tree(tree);
    }
    unreachable!();
}

// The same, where the item is in a tree, whose items come before those to come.
#[tactic(auto, using(crate::proofs::Passing::next_after_left))]
fn leaf_in<'a, T: Measured, L: Ledger>(
    tree: &'a Tree<T>,
    rank: u32,
    before: &mut Front,
    pending: &mut Pending<'a, T>,
    visited: &mut Steps<L>,
) -> Leaf<'a, T>
    requires after { before.old.marks ≤ rank }
    requires within { rank < before.old.marks + sum_by T.marks tree.now.0 }
    requires few { before.old.items + length tree.now.0 < 2 ^ 32 }
    requires fits { before.old.marks + sum_by T.marks tree.now.0 < 2 ^ 32 }
    requires light { before.old.weight ≤ 4294967295 * before.old.items }
    requires room { tree.now.1 + pending.old.1 < 64 }
    ensures leaf { IsNextLeaf T.measure T.marks rank
        before.old (tree.now.0 ++ pending.old.0) before.new result.run.now pending.new.0 }
    ensures after { IsAfter T.measure T.marks before.new result.after result.run.now }
    ensures light { result.after.weight ≤ 4294967295 * result.after.items }
    ensures cost { visited.new ≤ visited.old + (tree.now.1 + 1) }
    ensures low { FillsHeight tree.now.1 (length tree.now.0) }
{
    visited.tick();
    match &tree.node {
        Node::Leaf(run) => Leaf {
            run,
            after: before.after_tree(tree),
        },
        Node::Fork(sides) => {
            if rank - before.marks < sides.left.marks() {
                pending.push(&sides.right);
                return leaf_in(&sides.left, rank, before, pending, visited);
            }
            *before = before.after_tree(&sides.left);
            leaf_in(&sides.right, rank, before, pending, visited)
        }
    }
}
