//! Items that come one after another, put into the leaves of a sequence as they come.

ghost use Rattle.std.specs.Prelude.{◌≡◌, ◌+◌, ◌-◌, ◌^◌, ◌<◌, ◌≤◌, [], ◌∷◌, ◌++◌, length, slice_get, IfOk};
ghost use Rattle.std.specs.Option.{option_copied};
ghost use Rattle.seq_tree.specs.Gathered.{items_of};
ghost use Rattle.seq_tree.specs.Shape.{longest_run};

use crate::items::LONGEST_RUN;
use crate::join::join;
use crate::measure::Measured;
use crate::run::Run;
use crate::sequence::Seq;
use crate::tree::Tree;
use std::alloc::{AllocError, Global};
use std::marker::Model;
use std::mem::replace;

/// Items in order, seen as their list, of which a sequence is made once the last has come.
///
/// Each leaf of that sequence is made as soon as it is full. So no list of all items is there, and none is moved for the
/// sequence.
#[derive(Drop)]
pub struct Gathered<T: Measured> {
    // A tree of each full leaf.
    leaves: Vec<Tree<T>>,
    // The items after them: there are some wherever there is a leaf.
    last: Vec<T>,
}

impl<T: Measured> Model for Gathered<T> {
    ghost use Rattle.std.specs.Prelude.{◌≡◌, ◌≤◌, [], ◌++◌, List, length};
    ghost use Rattle.seq_tree.specs.Gathered.{items_of};
    ghost use Rattle.seq_tree.specs.Shape.{longest_run};

    ghost Value = { List T };

    ghost view = { λ g. items_of g.leaves.items ++ g.last.items };

    ghost invariant = { λ g. (length g.last.items ≤ longest_run)
        × (g.last.items ≡ [] → g.leaves.items ≡ []) };
}

impl<T: Measured> Gathered<T> {
    /// No item yet. It takes no memory.
    pub fn none(alloc: Global) -> Gathered<T>
        ensures { result ≡ [] }
    {
        Gathered {
            leaves: Vec::new(alloc),
            last: Vec::new(alloc),
        }
    }

    /// Puts an item after the others. After an error it is dropped, and others may be.
    #[inline(always)]
    pub fn push(&mut self, alloc: Global, item: T) -> Result<(), AllocError>
        ensures { IfOk result (λ _. self.new ≡ self.old ++ item ∷ []) }
    {
        if self.last.len() < LONGEST_RUN {
            self.last.push(item)?;
            return Ok(());
        }
        let mut next = Vec::with_capacity(alloc, LONGEST_RUN)?;
        next.push(item)?;
        let leaf = leaf_of(alloc, replace(&mut self.last, next))?;
        self.leaves.push(leaf)?;
        Ok(())
    }

    /// The last item, if there is one.
    #[inline(always)]
    pub fn last(&self) -> Option<&T>
        ensures { option_copied result ≡ slice_get self.now (length self.now - 1) }
    {
        self.last.last()
    }

    /// The sequence of these items. After an error they are dropped.
    pub fn into_seq(self, alloc: Global) -> Result<Seq<T>, AllocError>
        requires { length self < 2 ^ 32 }
        ensures { IfOk result (λ s. s ≡ self) }
    {
        let Gathered {
            mut leaves,
            mut last,
        } = self;
        if last.is_empty() {
            return Ok(Seq::empty());
        }
        last.shrink_to_fit();
        leaves.push(leaf_of(alloc, last)?)?;
        let n = leaves.len();
        let root = build(alloc, &mut leaves, n)?;
        Ok(Seq::of_tree(root))
    }
}

// A tree of these items, in one leaf.
#[inline(never)]
fn leaf_of<T: Measured>(alloc: Global, items: Vec<T>) -> Result<Tree<T>, AllocError>
    requires some { 0 < length items.items }
    requires few { length items.items ≤ longest_run }
    ensures { IfOk result (λ t. t.0 ≡ items.items) }
{
    let run = Run::of_list(alloc, items)?;
    Ok(Tree::of_run(run))
}

// A tree of the last `n` trees of a list, which are taken out of it.
fn build<T: Measured>(
    alloc: Global,
    leaves: &mut Vec<Tree<T>>,
    n: usize,
) -> Result<Tree<T>, AllocError>
    requires some { 0 < n }
    requires within { n ≤ length leaves.old.items }
    requires fits { length (items_of leaves.old.items) < 2 ^ 32 }
    ensures taken { IfOk result
        (λ t. items_of leaves.new.items ++ t.0 ≡ items_of leaves.old.items) }
    ensures count { IfOk result (λ _. length leaves.new.items + n ≡ length leaves.old.items) }
{
    if n == 1 {
        return match leaves.pop() {
            Some(leaf) => Ok(leaf),
            None => unreachable!(),
        };
    }
    let right = build(alloc, leaves, n / 2)?;
    let left = build(alloc, leaves, n - n / 2)?;
    join(alloc, &left, &right)
}
