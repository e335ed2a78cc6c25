//! The tree under a sequence: the items are at the leaves, and a tree says how many they are, what they weigh, and how many are marked.

ghost use Rattle.std.specs.Prelude.{◌≡◌, ◌+◌, ◌*◌, ◌^◌, ◌<◌, ◌≤◌, max, [], ◌∷◌, ◌++◌, length, sum_by, IfOk};
ghost use Rattle.seq_tree.specs.Shape.{IsBalancedPair, FillsHeight};

use crate::measure::Measured;
use crate::run::Run;
use std::alloc::{AllocError, Global};
use std::marker::Model;
use std::rc::Rc;

/// One item or more, seen as the list of the items and the tree's height.
///
/// A tree is a handle of its node: its length, its weight and how many items are marked are read without a look at
/// the node.
#[cycle(shared)]
#[derive(Drop)]
pub(crate) struct Tree<T: Measured> {
    pub node: Node<T>,
    height: u32,
    len: u32,
    total: u64,
    marks: u32,
}

/// What a tree is made of: a run of items, or two trees side by side.
///
/// No node holds an item itself, so a new way down to a leaf copies none; and a fork is as large as two handles, however
/// large the items are.
#[cycle(shared)]
#[derive(Drop)]
pub(crate) enum Node<T: Measured> {
    Leaf(Run<T>),
    Fork(Rc<Sides<T>>),
}

/// The two sides of a fork.
#[cycle(shared)]
#[derive(Drop)]
pub(crate) struct Sides<T: Measured> {
    pub left: Tree<T>,
    pub right: Tree<T>,
}

impl<T: Measured> Model for Tree<T> {
    ghost use Rattle.std.specs.Prelude.{ℕ, List};

    ghost Value = { List T × ℕ };

    ghost use Rattle.seq_tree.specs.Tree.{items, Counts, HasSides};

    ghost view = { λ t. (items t.node, t.height) };

    ghost invariant = { λ t. Counts T.measure T.marks (items t.node) t.height t.len t.total t.marks × HasSides t.node t.height };

    ghost size = { λ value. value.1 };

    ghost use Rattle.std.proofs.Common.{arith};

    ghost size_decreases = { λ t h. Prim.grind arith };
}

impl<T: Measured> Tree<T> {
    /// How many levels of forks are above the lowest leaf.
    pub fn height(&self) -> u32
        ensures is { result ≡ self.now.1 }
        ensures small { result < 64 }
        ensures enough { FillsHeight result (length self.now.0) }
    {
        self.height
    }

    /// How many items there are.
    pub fn len(&self) -> usize
        ensures is { result ≡ length self.now.0 }
        ensures fits { result < 2 ^ 32 }
    {
        self.len as usize
    }

    /// The sum of the items' weights.
    pub fn total(&self) -> u64
        ensures is { result ≡ sum_by T.measure self.now.0 }
        ensures bound { result ≤ 4294967295 * length self.now.0 }
    {
        self.total
    }

    /// How many items are marked.
    pub fn marks(&self) -> u32
        ensures { result ≡ sum_by T.marks self.now.0 }
    {
        self.marks
    }

    /// A tree of this item.
    pub fn leaf(alloc: Global, item: T) -> Result<Tree<T>, AllocError>
        ensures items { IfOk result (λ t. t.0 ≡ item ∷ []) }
    {
        let mut items = Vec::with_capacity(alloc, 1)?;
        items.push(item)?;
        let run = Run::of_list(alloc, items)?;
        Ok(Tree::of_run(run))
    }

    /// A tree of the items of a run.
    pub fn of_run(run: Run<T>) -> Tree<T>
        ensures items { result.0 ≡ run }
    {
        let len = run.items().len() as u32;
        let total = run.weight();
        let marks = run.marks();
        Tree {
            node: Node::Leaf(run),
            height: 0,
            len,
            total,
            marks,
        }
    }

    /// The two sides under one fork.
    pub fn fork(alloc: Global, left: Tree<T>, right: Tree<T>) -> Result<Tree<T>, AllocError>
        requires fits { length left.0 + length right.0 < 2 ^ 32 }
        requires balanced { IsBalancedPair left.1 right.1 }
        ensures items { IfOk result (λ t. t.0 ≡ left.0 ++ right.0) }
        ensures height { IfOk result (λ t. t.1 ≡ max left.1 right.1 + 1) }
    {
        let height = left.height().max(right.height()) + 1;
        let len = left.len() + right.len();
        let total = left.total() + right.total();
        let marks = left.marks + right.marks;
        let node = Node::Fork(Rc::new(alloc, Sides { left, right })?);
        Ok(Tree {
            node,
            height,
            len: len as u32,
            total,
            marks,
        })
    }

    /// The same tree once more. It takes no memory: the error is that of an `Rc` whose count is full.
    pub fn share(&self) -> Result<Tree<T>, AllocError>
        ensures { IfOk result (λ t. t ≡ self.now) }
    {
        let node = match &self.node {
            Node::Leaf(run) => Node::Leaf(run.share()?),
            Node::Fork(sides) => Node::Fork(sides.clone()?),
        };
        Ok(Tree {
            node,
            height: self.height,
            len: self.len,
            total: self.total,
            marks: self.marks,
        })
    }
}
