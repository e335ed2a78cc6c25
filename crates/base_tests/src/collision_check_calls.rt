//! Tables with and without collisions.
use crate::rows::{dates, segment, test_order};
use collision_check::{Collision, list_collisions};
use edi_tables::Table;
use service_tables::contrl_rows;
use std::process::Abort;
use std::test::Fail;

/// Asserts that a collision has these tags and these two lists of entries.
fn assert_collision(
    rt: &impl Abort,
    collision: &Collision,
    tags: &[&[u8; 3]],
    first: &[u16],
    second: &[u16],
) {
    assert_eq!(rt; collision.front.items().len(), tags.len());
    for (tag, name) in collision.front.items().iter().zip(tags) {
        assert_eq!(rt; tag.octets, **name);
    }
    assert_eq!(rt; collision.first.items(), first);
    assert_eq!(rt; collision.second.items(), second);
}

#[test]
fn a_date_may_stand_before_the_reference_or_after_it(rt: HostRuntime) -> Result<(), Fail> {
    let rows = [
        segment(b"UNH", true, 1, 0),
        segment(b"BGM", true, 1, 0),
        segment(b"DTM", false, 5, 0),
        segment(b"RFF", false, 1, 0),
        segment(b"DTM", false, 1, 0),
        segment(b"UNT", true, 1, 0),
    ];
    let found = list_collisions(rt.alloc(), &Table::build(rt.alloc(), &rows)?)?;
    assert_eq!(rt; found.len(), 2);
    assert_collision(
        &rt,
        &found[0],
        &[b"UNH", b"BGM", b"DTM"],
        &[0, 1, 2],
        &[0, 1, 4],
    );
    assert_collision(
        &rt,
        &found[1],
        &[b"UNH", b"BGM", b"DTM", b"DTM"],
        &[0, 1, 2, 2],
        &[0, 1, 2, 4],
    );
    Ok(())
}

#[test]
fn the_test_order_and_contrl_have_none(rt: HostRuntime) -> Result<(), Fail> {
    for rows in [test_order().as_slice(), contrl_rows()] {
        assert_eq!(rt; rows.len(), 15);
        let found = list_collisions(rt.alloc(), &Table::build(rt.alloc(), rows)?)?;
        assert!(rt; found.is_empty());
    }
    Ok(())
}

#[test]
fn the_longest_table_of_dates_has_one_after_each_entry_that_two_follow(
    rt: HostRuntime,
) -> Result<(), Fail> {
    let found = list_collisions(
        rt.alloc(),
        &Table::build(rt.alloc(), &dates(rt.alloc(), 1998)?)?,
    )?;
    assert_eq!(rt; found.len(), 1997);
    assert_collision(&rt, &found[0], &[b"UNH", b"DTM"], &[0, 1], &[0, 2]);
    assert_collision(
        &rt,
        &found[1996],
        &[b"UNH", b"DTM", b"DTM"],
        &[0, 1996, 1997],
        &[0, 1996, 1998],
    );
    Ok(())
}
