//! Runs over objects in memory that fail in mid-stream.
use crate::objects::{NEVER, Outside, run_by_octets};
use edicheck_core::Status;
use std::test::Fail;

const TEXT: &[u8] = b"UNB'UNZ'";

// A manifest without files, a text, and the input and the calls that fail, of the input, the shelf and the sink.
const fn outside(input: &'static [u8], failing: [u64; 3]) -> Outside<'static> {
    Outside {
        manifest: b"directory D 96A UN\n",
        text: TEXT,
        input,
        failing,
    }
}

#[test]
fn a_listing_ends_where_the_input_fails(rt: HostRuntime) -> Result<(), Fail> {
    let outside = outside(TEXT, [5, NEVER, NEVER]);
    let (status, held) = run_by_octets(rt.alloc(), &[b"segments"], &outside)?;
    assert_eq!(rt; status, Status::ReadFault);
    assert!(rt; held.as_slice() == b"fault read\n".as_slice());
    Ok(())
}

#[test]
fn a_listing_ends_where_the_sink_fails(rt: HostRuntime) -> Result<(), Fail> {
    let outside = outside(TEXT, [NEVER, NEVER, 12]);
    let (status, held) = run_by_octets(rt.alloc(), &[b"segments"], &outside)?;
    assert_eq!(rt; status, Status::WriteFault);
    assert!(rt; held.as_slice() == b"segments 2\n1".as_slice());
    Ok(())
}

#[test]
fn a_directory_is_read_up_to_a_fault(rt: HostRuntime) -> Result<(), Fail> {
    let outside = outside(b"", [NEVER, 2, NEVER]);
    let (status, held) = run_by_octets(rt.alloc(), &[b"tables", b"m"], &outside)?;
    assert_eq!(rt; status, Status::ReadFault);
    assert!(rt; held.as_slice() == b"fault read\n".as_slice());
    Ok(())
}

#[test]
fn a_guide_is_read_up_to_a_fault(rt: HostRuntime) -> Result<(), Fail> {
    let outside = outside(b"", [NEVER, 5, NEVER]);
    let (status, held) = run_by_octets(rt.alloc(), &[b"guide", b"m", b"t", b"t"], &outside)?;
    assert_eq!(rt; status, Status::ReadFault);
    assert!(rt; held.as_slice() == b"fault read\n".as_slice());
    Ok(())
}

#[test]
fn a_reply_is_read_up_to_a_fault(rt: HostRuntime) -> Result<(), Fail> {
    let outside = outside(b"", [NEVER, 8, NEVER]);
    let (status, held) = run_by_octets(rt.alloc(), &[b"match", b"m", b"t", b"t"], &outside)?;
    assert_eq!(rt; status, Status::ReadFault);
    assert!(rt; held.as_slice() == b"fault read\n".as_slice());
    Ok(())
}
