//! The items of a sequence in order: a walk over its tree that keeps the trees still to come.

ghost use Rattle.std.specs.Prelude.{◌≡◌, ◌+◌, ◌<◌, ◌≤◌, [], ◌++◌, length, drop, IfSome, IfNone};
ghost use Rattle.std.specs.Option.{option_copied};
ghost use Rattle.seq_tree.specs.Seq.{root_items};

use crate::measure::Measured;
use crate::tree::{Node, Tree};
use arrayvec::ArrayVec;
use std::marker::Model;

/// Every tree is lower than this.
const MOST_PENDING: usize = 64;

/// The items of a sequence from a place on, seen as their list.
///
/// It takes no memory. A walk over n items visits fewer than 2n nodes, and a place to begin at costs one way down.
#[derive(Drop)]
pub struct Iter<'a, T: Measured> {
    // What is left of the leaf that the walk is in.
    run: &'a [T],
    pending: Pending<'a, T>,
}

impl<'a, T: Measured> Model for Iter<'a, T> {
    ghost use Rattle.std.specs.Prelude.{List, ◌++◌};

    ghost Value = { List T };

    ghost view = { λ walk. walk.run.now ++ walk.pending.0 };
}

impl<'a, T: Measured> Iter<'a, T> {
    /// No items.
    pub(crate) fn empty() -> Iter<'a, T>
        ensures { result ≡ [] }
    {
        Iter {
            run: &[],
            pending: Pending::new(),
        }
    }

    /// The items of a tree from place `i` on.
    pub(crate) fn over(tree: &'a Tree<T>, i: usize) -> Iter<'a, T>
        requires within { i ≤ length tree.now.0 }
        ensures { result ≡ drop i tree.now.0 }
    {
        let _height = tree.height();
        let mut pending = Pending::new();
        let run = open_at(tree, i, &mut pending);
        Iter { run, pending }
    }
}

impl<'a, T: Measured> Iterator for Iter<'a, T> {
    ghost use Rattle.std.specs.Iterator.{YieldsFirstRef, item_count};

    type Item = &'a T;

    ghost next_gives = { YieldsFirstRef (λ left. left) };

    ghost remaining = { item_count (λ left. left) };

    fn next(&mut self) -> Option<&'a T> {
        if self.run.is_empty() {
            self.run = first_run(self.pending.pop()?, &mut self.pending);
        }
        let (first, rest) = self.run.split_first()?;
        self.run = rest;
        Some(first)
    }
}

/// The trees whose items are still to come, seen as these items and the number of trees.
#[derive(Drop)]
pub(crate) struct Pending<'a, T: Measured> {
    // The first to come is the last.
    trees: ArrayVec<Option<&'a Tree<T>>, MOST_PENDING>,
}

impl<'a, T: Measured> Model for Pending<'a, T> {
    ghost use Rattle.std.specs.Prelude.{List, ℕ, length};

    ghost Value = { List T × ℕ };

    ghost use Rattle.seq_tree.specs.Walk.{IsStack, pending_items};

    ghost view = { λ pending. (pending_items pending.trees.items, length pending.trees.items) };

    ghost invariant = { λ pending. IsStack 64 pending.trees.items };
}

impl<'a, T: Measured> Pending<'a, T> {
    /// No trees.
    fn new() -> Pending<'a, T>
        ensures { result ≡ ([], 0) }
    {
        Pending {
            trees: ArrayVec::new(),
        }
    }

    /// The items of this tree, if there is one.
    pub(crate) fn of(root: Option<&'a Tree<T>>) -> Pending<'a, T>
        ensures { result.0 ≡ root_items (option_copied root.entry) }
    {
        let mut pending = Pending::new();
        if let Some(tree) = root {
            let _height = tree.height();
            pending.push(tree);
        }
        pending
    }

    /// Puts the items of a tree before those to come.
    pub(crate) fn push(&mut self, tree: &'a Tree<T>)
        requires room { tree.now.1 + self.old.1 < 64 }
        ensures items { self.new.0 ≡ tree.now.0 ++ self.old.0 }
        ensures count { self.new.1 ≡ self.old.1 + 1 }
    {
        self.trees.push(Some(tree));
    }

    /// Takes off the tree whose items come first.
    pub(crate) fn pop(&mut self) -> Option<&'a Tree<T>>
        ensures items { IfSome result (λ tree. self.old.0 ≡ tree.now.0 ++ self.new.0) }
        ensures room { IfSome result (λ tree. tree.now.1 + self.new.1 < 64) }
        ensures fewer { IfSome result (λ tree. self.new.1 < self.old.1) }
        ensures end { IfNone result ((self.old.0 ≡ []) × (self.new.0 ≡ [])) }
    {
        self.trees.pop()?
    }
}

/// The items of a tree from place `i` on, before those to come: the first of them, and the others are put there.
#[tactic(auto, using(crate::proofs::Ranges::drop_right))]
fn open_at<'a, T: Measured>(tree: &'a Tree<T>, i: usize, pending: &mut Pending<'a, T>) -> &'a [T]
    requires within { i ≤ length tree.now.0 }
    requires room { tree.now.1 + pending.old.1 < 64 }
    ensures { result.now ++ pending.new.0 ≡ drop i tree.now.0 ++ pending.old.0 }
{
    match &tree.node {
        Node::Leaf(run) => &run.items()[i..],
        Node::Fork(sides) => {
            let left_len = sides.left.len();
            if i < left_len {
                pending.push(&sides.right);
                open_at(&sides.left, i, pending)
            } else {
                open_at(&sides.right, i - left_len, pending)
            }
        }
    }
}

/// The items of the first leaf of a tree. Its others are put before those to come.
fn first_run<'a, T: Measured>(tree: &'a Tree<T>, pending: &mut Pending<'a, T>) -> &'a [T]
    requires room { tree.now.1 + pending.old.1 < 64 }
    ensures some { 0 < length result.now }
    ensures all { result.now ++ pending.new.0 ≡ tree.now.0 ++ pending.old.0 }
{
    match &tree.node {
        Node::Leaf(run) => run.items(),
        Node::Fork(sides) => {
            pending.push(&sides.right);
            first_run(&sides.left, pending)
        }
    }
}
