//! The sequence that callers see: a list of weighed items, of which an edit makes a new version.

ghost use Rattle.std.specs.Prelude.{◌≡◌, ℕ, ◌+◌, ◌-◌, ◌*◌, ◌^◌, ◌<◌, ◌≤◌, [], ◌++◌, length, take, drop, insert, sum_by, slice_get, slice_range, Some, IfOk, IsTrue, ◌↔◌};
ghost use Rattle.std.specs.Option.{option_copied};
ghost use Rattle.seq_tree.specs.Seq.{root_items};

use crate::gathered::Gathered;
use crate::join::join;
use crate::look::Located;
use crate::marks::MarkedItems;
use crate::measure::Measured;
use crate::run::Run;
use crate::tree::{Node, Tree};
use crate::walk::Iter;
use std::alloc::{AllocError, Global};
use std::fmt::{self, Debug, Formatter, Write};
use std::marker::Model;
use std::sync::ledger::Ledger;
use step_counter::Steps;

/// Weighed items in order, fewer than 2^32 of them, seen as their list.
///
/// A call that edits makes a new version and leaves the old one as it was: the two share their nodes, and no item is cloned.
/// So after an error each version is still what it was. Items lie in lists of at most 32, and a version keeps such a list for
/// as long as it has an item of it.
pub struct Seq<T: Measured> {
    root: Option<Tree<T>>,
}

impl<T: Measured> Model for Seq<T> {
    ghost use Rattle.std.specs.Prelude.{List};

    ghost Value = { List T };

    ghost use Rattle.seq_tree.specs.Seq.{root_items};

    ghost view = { λ s. root_items s.root };
}

// Written by hand so that a drop is one call to its caller's proof, and no case of the root.
impl<T: Measured> Drop for Seq<T> {
    fn drop(self) {
        let Seq { root } = self;
        drop(root);
    }
}

impl<T: Measured + Debug> Debug for Seq<T> {
    fn fmt<W: Write>(&self, f: &mut Formatter<W>) -> fmt::Result {
        f.debug_list().entries(self.iter()).finish()
    }
}

impl<T: Measured> Seq<T> {
    /// A sequence of these items, in their order. After an error they are dropped.
    pub fn of_items(alloc: Global, items: Vec<T>) -> Result<Seq<T>, AllocError>
        requires { length items.items < 2 ^ 32 }
        ensures { IfOk result (λ s. s ≡ items.items) }
    {
        let mut gathered = Gathered::none(alloc);
        for item in items {
            gathered.push(alloc, item)?;
        }
        gathered.into_seq(alloc)
    }

    /// The same version once more. It takes no memory: the error is that of an `Rc` whose count is full.
    pub fn share(&self) -> Result<Seq<T>, AllocError>
        ensures { IfOk result (λ s. s ≡ self.now) }
    {
        match &self.root {
            None => Ok(Seq { root: None }),
            Some(root) => Seq::sharing(root),
        }
    }

    /// Whether there is no item.
    #[tactic(auto, using(std::proofs::lemmas::List::nil_from_length))]
    pub fn is_empty(&self) -> bool
        ensures { IsTrue result ↔ (self.now ≡ []) }
    {
        self.len() == 0
    }

    /// How many items there are.
    pub fn len(&self) -> usize
        ensures { result ≡ length self.now }
    {
        match &self.root {
            None => 0,
            Some(root) => root.len(),
        }
    }

    /// The sum of all weights.
    pub fn total(&self) -> u64
        ensures { result ≡ sum_by T.measure self.now }
    {
        match &self.root {
            None => 0,
            Some(root) => root.total(),
        }
    }

    /// How many items are marked.
    pub fn marks(&self) -> u32
        ensures { result ≡ sum_by T.marks self.now }
    {
        match &self.root {
            None => 0,
            Some(root) => root.marks(),
        }
    }

    /// The way to the marked items, of which none is left behind at its begin. It takes no memory.
    pub fn marked_items(&self) -> MarkedItems<'_, T>
        ensures items { result.0 ≡ self.now }
        ensures behind { result.1 ≡ 0 }
    {
        MarkedItems::of(self)
    }

    /// Its tree, if it has an item.
    pub(crate) fn root(&self) -> Option<&Tree<T>>
        ensures is { root_items (option_copied result) ≡ self.now }
        ensures fits { length self.now < 2 ^ 32 }
    {
        let root = self.root.as_ref()?;
        // So its items fit.
        let _len = root.len();
        Some(root)
    }

    /// The item at place `i`, counted from 0. Each node that is visited counts once.
    pub fn at<L: Ledger>(&self, i: usize, visited: &mut Steps<L>) -> &T
        requires within { i < length self.now }
        ensures is { slice_get self.now i ≡ Some result.now }
        ensures cost { (b : ℕ) → length self.now < 2 ^ b → visited.new ≤ visited.old + (2 * b + 2) }
    {
        match &self.root {
            None => unreachable!(),
            Some(root) => root.at(i, visited),
        }
    }

    /// The sum of the first `i` weights. Each node that is visited counts once; the one that is a leaf has at most 32 items.
    pub fn before<L: Ledger>(&self, i: usize, visited: &mut Steps<L>) -> u64
        requires within { i ≤ length self.now }
        ensures is { result ≡ sum_by T.measure (take i self.now) }
        ensures cost { (b : ℕ) → length self.now < 2 ^ b → visited.new ≤ visited.old + (2 * b + 2) }
    {
        match &self.root {
            None => 0,
            Some(root) => root.before(i, visited),
        }
    }

    /// The first place up to which, its own item included, the items weigh more than `bound`. Each node that is visited counts
    /// once; the one that is a leaf has at most 32 items.
    #[tactic(auto, using(crate::proofs::Parts::sum_by_place))]
    pub fn find<L: Ledger>(&self, bound: u64, visited: &mut Steps<L>) -> usize
        requires below { bound < sum_by T.measure self.now }
        ensures within { result < length self.now }
        ensures not_past { sum_by T.measure (take result self.now) ≤ bound }
        ensures far_enough { bound < sum_by T.measure (take (result + 1) self.now) }
        ensures cost { (b : ℕ) → length self.now < 2 ^ b → visited.new ≤ visited.old + (2 * b + 2) }
    {
        self.locate(bound, visited).place
    }

    /// The item that `find` gives the place of, and how far into it the bound is: what is left of the bound after the items
    /// before it. Each node that is visited counts once; the one that is a leaf has at most 32 items.
    pub fn locate<L: Ledger>(&self, bound: u64, visited: &mut Steps<L>) -> Located<'_, T>
        requires below { bound < sum_by T.measure self.now }
        ensures is { slice_get self.now result.place ≡ Some result.item.now }
        ensures offset { sum_by T.measure (take result.place self.now) + result.offset ≡ bound }
        ensures within { result.offset < T.measure result.item.now }
        ensures cost { (b : ℕ) → length self.now < 2 ^ b → visited.new ≤ visited.old + (2 * b + 2) }
    {
        match &self.root {
            None => unreachable!(),
            Some(root) => root.locate(bound, visited),
        }
    }

    /// The items in order. It takes no memory.
    pub fn iter(&self) -> Iter<'_, T>
        ensures { result ≡ self.now }
    {
        self.iter_from(0)
    }

    /// The items in order, from place `i` on. It takes no memory.
    pub fn iter_from(&self, i: usize) -> Iter<'_, T>
        requires within { i ≤ length self.now }
        ensures { result ≡ drop i self.now }
    {
        let Some(root) = &self.root else {
            return Iter::empty();
        };
        Iter::over(root, i)
    }

    /// The version with this item at place `i`, and after it those from there on. After an error the item is dropped.
    pub fn insert(&self, alloc: Global, i: usize, item: T) -> Result<Seq<T>, AllocError>
        requires within { i ≤ length self.now }
        requires fits { length self.now + 1 < 2 ^ 32 }
        ensures { IfOk result (λ s. s ≡ insert self.now i item) }
    {
        let leaf = Tree::leaf(alloc, item)?;
        let (front, back) = self.cut(alloc, i)?;
        let front = front.join(alloc, &Seq { root: Some(leaf) })?;
        front.join(alloc, &back)
    }

    /// The first `i` items, and the others.
    pub fn cut(&self, alloc: Global, i: usize) -> Result<(Seq<T>, Seq<T>), AllocError>
        requires within { i ≤ length self.now }
        ensures { IfOk result (λ p. (p.0 ≡ take i self.now) × (p.1 ≡ drop i self.now)) }
    {
        match &self.root {
            None => Ok((Seq { root: None }, Seq { root: None })),
            Some(root) => cut_tree(alloc, root, i),
        }
    }

    /// These items and then those of `other`.
    pub fn join(&self, alloc: Global, other: &Seq<T>) -> Result<Seq<T>, AllocError>
        requires fits { length self.now + length other.now < 2 ^ 32 }
        ensures { IfOk result (λ s. s ≡ self.now ++ other.now) }
    {
        match (&self.root, &other.root) {
            (None, _) => other.share(),
            (_, None) => self.share(),
            (Some(left), Some(right)) => {
                let root = join(alloc, left, right)?;
                Ok(Seq { root: Some(root) })
            }
        }
    }

    /// The version in which the items of `other` are in place of those from place `from` up to place `to`.
    pub fn splice(
        &self,
        alloc: Global,
        from: usize,
        to: usize,
        other: &Seq<T>,
    ) -> Result<Seq<T>, AllocError>
        requires in_order { from ≤ to }
        requires within { to ≤ length self.now }
        requires fits { length self.now - (to - from) + length other.now < 2 ^ 32 }
        ensures { IfOk result (λ s. s ≡ take from self.now ++ other.now ++ drop to self.now) }
    {
        let (front, rest) = self.cut(alloc, from)?;
        let (_, back) = rest.cut(alloc, to - from)?;
        let front = front.join(alloc, other)?;
        front.join(alloc, &back)
    }

    /// No item.
    pub(crate) fn empty() -> Seq<T>
        ensures { result ≡ [] }
    {
        Seq { root: None }
    }

    /// The items of a tree.
    pub(crate) fn of_tree(root: Tree<T>) -> Seq<T>
        ensures { result ≡ root.0 }
    {
        Seq { root: Some(root) }
    }

    /// The items of a run.
    fn of_run(run: Run<T>) -> Seq<T>
        ensures { result ≡ run }
    {
        Seq {
            root: Some(Tree::of_run(run)),
        }
    }

    /// The items of this tree, which is shared.
    fn sharing(tree: &Tree<T>) -> Result<Seq<T>, AllocError>
        ensures { IfOk result (λ s. s ≡ tree.now.0) }
    {
        let root = tree.share()?;
        Ok(Seq { root: Some(root) })
    }
}

/// The first `i` items of a tree and the others.
#[tactic(auto, using(crate::proofs::Ranges::take_right, crate::proofs::Ranges::drop_right))]
fn cut_tree<T: Measured>(
    alloc: Global,
    tree: &Tree<T>,
    i: usize,
) -> Result<(Seq<T>, Seq<T>), AllocError>
    requires within { i ≤ length tree.now.0 }
    ensures { IfOk result (λ p. (p.0 ≡ take i tree.now.0) × (p.1 ≡ drop i tree.now.0)) }
{
    if i == 0 {
        return Ok((Seq { root: None }, Seq::sharing(tree)?));
    }
    if i == tree.len() {
        return Ok((Seq::sharing(tree)?, Seq { root: None }));
    }
    match &tree.node {
        Node::Leaf(run) => {
            let (front, back) = run.cut(i)?;
            Ok((Seq::of_run(front), Seq::of_run(back)))
        }
        Node::Fork(sides) => {
            let left_len = sides.left.len();
            if i < left_len {
                let (front, middle) = cut_tree(alloc, &sides.left, i)?;
                let back = middle.join(alloc, &Seq::sharing(&sides.right)?)?;
                Ok((front, back))
            } else {
                let (middle, back) = cut_tree(alloc, &sides.right, i - left_len)?;
                let front = Seq::sharing(&sides.left)?.join(alloc, &middle)?;
                Ok((front, back))
            }
        }
    }
}
