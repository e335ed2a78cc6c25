//! Two trees as one: down the higher side to a tree of about the other's height, and balanced again on the way up.
#![tactic(auto)]

ghost use Rattle.std.specs.Prelude.{◌≡◌, ◌+◌, ◌^◌, ◌<◌, ◌≤◌, ◌++◌, max, length, IfOk};
ghost use Rattle.seq_tree.specs.Shape.{IsBalancedPair};
ghost use Rattle.seq_tree.specs.Join.{IsJoinHeight};

use crate::measure::Measured;
use crate::tree::{Node, Tree};
use std::alloc::{AllocError, Global};

/// The items of `left` and then those of `right`, whatever the two heights are.
pub(crate) fn join<T: Measured>(
    alloc: Global,
    left: &Tree<T>,
    right: &Tree<T>,
) -> Result<Tree<T>, AllocError>
    requires fits { length left.now.0 + length right.now.0 < 2 ^ 32 }
    ensures items { IfOk result (λ t. t.0 ≡ left.now.0 ++ right.now.0) }
    ensures height { IfOk result (λ t. IsJoinHeight left.now.1 right.now.1 t.1) }
{
    if left.height() > right.height() + 1 {
        return match &left.node {
            Node::Leaf(_) => unreachable!(),
            Node::Fork(sides) => {
                let inner = join(alloc, &sides.right, right)?;
                lean_right(alloc, &sides.left, &inner)
            }
        };
    }
    if right.height() > left.height() + 1 {
        return match &right.node {
            Node::Leaf(_) => unreachable!(),
            Node::Fork(sides) => {
                let inner = join(alloc, left, &sides.left)?;
                lean_left(alloc, &inner, &sides.right)
            }
        };
    }
    fork_shared(alloc, left, right)
}

// The two sides under one fork, or turned where the right side is two levels higher.
fn lean_right<T: Measured>(
    alloc: Global,
    left: &Tree<T>,
    right: &Tree<T>,
) -> Result<Tree<T>, AllocError>
    requires fits { length left.now.0 + length right.now.0 < 2 ^ 32 }
    requires left_not_high { left.now.1 ≤ right.now.1 + 1 }
    requires right_not_high { right.now.1 ≤ left.now.1 + 2 }
    ensures items { IfOk result (λ t. t.0 ≡ left.now.0 ++ right.now.0) }
    ensures height { IfOk result (λ t. IsJoinHeight left.now.1 right.now.1 t.1) }
{
    if right.height() <= left.height() + 1 {
        return fork_shared(alloc, left, right);
    }
    let (inner, outer) = match &right.node {
        Node::Leaf(_) => unreachable!(),
        Node::Fork(sides) => (&sides.left, &sides.right),
    };
    if inner.height() <= outer.height() {
        let low = fork_shared(alloc, left, inner)?;
        return Tree::fork(alloc, low, outer.share()?);
    }
    match &inner.node {
        Node::Leaf(_) => unreachable!(),
        Node::Fork(sides) => {
            let low = fork_shared(alloc, left, &sides.left)?;
            let high = fork_shared(alloc, &sides.right, outer)?;
            Tree::fork(alloc, low, high)
        }
    }
}

// The two sides under one fork, or turned where the left side is two levels higher.
fn lean_left<T: Measured>(
    alloc: Global,
    left: &Tree<T>,
    right: &Tree<T>,
) -> Result<Tree<T>, AllocError>
    requires fits { length left.now.0 + length right.now.0 < 2 ^ 32 }
    requires left_not_high { left.now.1 ≤ right.now.1 + 2 }
    requires right_not_high { right.now.1 ≤ left.now.1 + 1 }
    ensures items { IfOk result (λ t. t.0 ≡ left.now.0 ++ right.now.0) }
    ensures height { IfOk result (λ t. IsJoinHeight left.now.1 right.now.1 t.1) }
{
    if left.height() <= right.height() + 1 {
        return fork_shared(alloc, left, right);
    }
    let (outer, inner) = match &left.node {
        Node::Leaf(_) => unreachable!(),
        Node::Fork(sides) => (&sides.left, &sides.right),
    };
    if inner.height() <= outer.height() {
        let low = fork_shared(alloc, inner, right)?;
        return Tree::fork(alloc, outer.share()?, low);
    }
    match &inner.node {
        Node::Leaf(_) => unreachable!(),
        Node::Fork(sides) => {
            let low = fork_shared(alloc, outer, &sides.left)?;
            let high = fork_shared(alloc, &sides.right, right)?;
            Tree::fork(alloc, low, high)
        }
    }
}

// The two sides, as they are, under one fork.
fn fork_shared<T: Measured>(
    alloc: Global,
    left: &Tree<T>,
    right: &Tree<T>,
) -> Result<Tree<T>, AllocError>
    requires fits { length left.now.0 + length right.now.0 < 2 ^ 32 }
    requires balanced { IsBalancedPair left.now.1 right.now.1 }
    ensures items { IfOk result (λ t. t.0 ≡ left.now.0 ++ right.now.0) }
    ensures height { IfOk result (λ t. t.1 ≡ max left.now.1 right.now.1 + 1) }
{
    Tree::fork(alloc, left.share()?, right.share()?)
}
