//! Each call that can want memory answers in each of its branches, what is found at places and weights, and what is printed
//! of a sequence.

ghost use Rattle.std.specs.Prelude.{◌≡◌, ◌<◌, ◌%◌};

use seq_tree::{Measured, Seq};
use std::alloc::{AllocError, Global};
use std::marker::Brand;
use std::process::Abort;
use std::sync::ledger::{Blank, Ledger};
use std::test::Fail;
use step_counter::Steps;

/// A weight that weighs itself. An odd one is marked.
#[derive(Debug, Drop)]
struct Gram(u32);

impl Measured for Gram {
    ghost measure = { λ gram. gram.0 };

    ghost marks = { λ gram. gram.0 % 2 };

    fn weight(&self) -> u32 {
        self.0
    }

    fn marks(&self) -> u32 {
        self.0 % 2
    }
}

/// The weights 0 and 1 by turns, so many.
fn seq_of(rt: &impl Abort, alloc: Global, count: u32) -> Result<Seq<Gram>, AllocError> {
    let mut grams = Vec::new(alloc);
    for weight in 0..count {
        grams.push(Gram(weight % 2))?;
    }
    assert!(rt; grams.len() < 1000);
    Seq::of_items(alloc, grams)
}

/// Cuts, joins, inserts and splices at place `i`.
fn edit_at(rt: &impl Abort, alloc: Global, whole: &Seq<Gram>, i: usize) -> Result<(), AllocError> {
    assert!(rt; i <= whole.len() && whole.len() < 1000);
    let (front, back) = whole.cut(alloc, i)?;
    let turned = back.join(alloc, &front)?;
    let longer = turned.insert(alloc, i, Gram(9))?;
    let _spliced = longer.splice(alloc, 0, i, &turned)?.share()?;
    Ok(())
}

#[test]
fn edits_at_each_place(rt: HostRuntime) -> Result<(), Fail> {
    for count in [0, 1, 40, 200] {
        let whole = seq_of(&rt, rt.alloc(), count)?;
        for i in 0..whole.len() + 1 {
            edit_at(&rt, rt.alloc(), &whole, i)?;
        }
    }
    Ok(())
}

/// The item at place `i`, the weight before it, and the place where a weight falls.
fn look(whole: &Seq<Gram>, i: usize, bound: u64) -> Option<(u32, u64, usize)> {
    look_counted::<Brand>(whole, i, bound, Blank::new(1))
}

fn look_counted<L: Ledger>(
    whole: &Seq<Gram>,
    i: usize,
    bound: u64,
    blank: Blank,
) -> Option<(u32, u64, usize)>
    requires name { blank.name ≡ L.name }
    requires parts { blank.parts ≡ L.parts }
    requires some { 0 < blank.parts }
{
    if i >= whole.len() || bound >= whole.total() {
        return None;
    }
    let mut visited = Steps::<L>::start(blank);
    let Gram(weight) = whole.at(i, &mut visited);
    let before = whole.before(i, &mut visited);
    Some((*weight, before, whole.find(bound, &mut visited)))
}

#[test]
fn places_and_weights(rt: HostRuntime) -> Result<(), Fail> {
    let whole = seq_of(&rt, rt.alloc(), 40)?;
    assert!(rt; 3 <= whole.len() && whole.len() < 1000);
    // The weights 0, 1, 0, 9, 1, 0, 1, 0 and so on.
    let longer = whole.insert(rt.alloc(), 3, Gram(9))?;
    assert_eq!(rt; look(&whole, 0, 0), Some((0, 0, 1)));
    assert_eq!(rt; look(&whole, 16, 19), Some((0, 8, 39)));
    assert_eq!(rt; look(&whole, 37, 18), Some((1, 18, 37)));
    assert_eq!(rt; look(&whole, 40, 0), None);
    assert_eq!(rt; look(&whole, 0, 20), None);
    assert_eq!(rt; look(&longer, 3, 9), Some((9, 1, 3)));
    assert_eq!(rt; look(&longer, 20, 18), Some((1, 18, 20)));
    Ok(())
}

/// Goes to marked items, each by how many are marked before it, on one way through the sequence: they are at these places, and
/// the items before them weigh so much.
fn expect_marked(rt: &impl Abort, whole: &Seq<Gram>, wanted: &[(u32, usize, u64)]) {
    expect_marked_counted::<Brand>(rt, whole, wanted, Blank::new(1))
}

fn expect_marked_counted<L: Ledger>(
    rt: &impl Abort,
    whole: &Seq<Gram>,
    wanted: &[(u32, usize, u64)],
    blank: Blank,
)
    requires name { blank.name ≡ L.name }
    requires parts { blank.parts ≡ L.parts }
    requires some { 0 < blank.parts }
{
    let mut visited = Steps::<L>::start(blank);
    let mut way = whole.marked_items();
    let mut last = 0;
    for &(rank, place, before) in wanted {
        assert!(rt; last <= rank && rank < whole.marks());
        let marked = way.find(rank, &mut visited);
        assert!(rt; marked.place == place && marked.before == before, "{rank}");
        last = rank;
    }
}

#[test]
fn places_of_marked_items(rt: HostRuntime) -> Result<(), Fail> {
    let whole = seq_of(&rt, rt.alloc(), 40)?;
    assert!(rt; 3 <= whole.len() && whole.len() < 1000);
    // The weights 0, 1, 0, 9, 1, 0, 1, 0 and so on.
    let longer = whole.insert(rt.alloc(), 3, Gram(9))?;
    assert_eq!(rt; whole.marks(), 20);
    assert_eq!(rt; longer.marks(), 21);
    expect_marked(
        &rt,
        &whole,
        &[(0, 1, 0), (0, 1, 0), (1, 3, 1), (19, 39, 19)],
    );
    expect_marked(&rt, &whole, &[(12, 25, 12), (13, 27, 13)]);
    expect_marked(
        &rt,
        &longer,
        &[(0, 1, 0), (1, 3, 1), (2, 4, 10), (2, 4, 10), (20, 40, 28)],
    );
    Ok(())
}

#[test]
fn printed_as_a_list(rt: HostRuntime) -> Result<(), Fail> {
    let shown = format!(in rt.alloc(); "{:?}", seq_of(&rt, rt.alloc(), 2)?)?;
    assert_eq!(rt; shown.as_str(), "[Gram(0), Gram(1)]");
    Ok(())
}
