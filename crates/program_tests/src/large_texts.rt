//! Texts that have one octet many times over.
use crate::objects::{NEVER, Outside, run_at_once};
use edicheck_core::Status;
use std::test::Fail;

const MANIFEST: &[u8] = b"directory D 96A UN\n";

const FIRST_ERRORS: &[u8] = b"errors 200002\n0 0 --- 0 0 13 no-unb\n0 0 --- 0 0 13 no-unz\n\
    1 0 --- 0 0 33 outside\n1 0 --- 0 0 12 bad-tag\n";

const LAST_ERRORS: &[u8] = b"100000 99999 --- 0 0 33 outside\n100000 99999 --- 0 0 12 bad-tag\n";

#[test]
fn each_of_many_terminators_has_two_errors(rt: HostRuntime) -> Result<(), Fail> {
    let alloc = rt.alloc();
    let text = vec![in alloc; b'\''; 100_000]?;
    let outside = Outside {
        manifest: MANIFEST,
        text: &text,
        input: b"",
        failing: [NEVER; 3],
    };
    let (status, held) = run_at_once(alloc, &[b"check", b"m", b"t"], &outside)?;
    assert_eq!(rt; status, Status::Found);
    // The numbers of the segments have 488,895 digits, and those of their places 488,890.
    assert_eq!(rt; held.len(), 7_344_535);
    let (errors, tree) = held.split_at(6_155_628);
    assert!(rt; errors.starts_with(FIRST_ERRORS));
    assert!(rt; errors.ends_with(LAST_ERRORS));
    assert!(rt; tree.starts_with(b"tree 100000\n- 1 ---\n"));
    assert!(rt; tree.ends_with(b"- 100000 ---\n"));
    Ok(())
}

#[test]
fn a_million_release_characters_are_one_segment(rt: HostRuntime) -> Result<(), Fail> {
    let alloc = rt.alloc();
    let mut text = vec![in alloc; b'?'; 1_000_000]?;
    text.push(b'\'')?;
    let outside = Outside {
        manifest: b"",
        text: b"",
        input: &text,
        failing: [NEVER; 3],
    };
    let (status, held) = run_at_once(alloc, &[b"values"], &outside)?;
    assert_eq!(rt; status, Status::Done);
    assert!(rt; held.as_slice() == b"segments 1\n1 0 1000000 ---\n".as_slice());
    Ok(())
}
