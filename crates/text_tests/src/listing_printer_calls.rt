//! Printed texts, worked out by hand.
use listing_printer::{Detail, print_text};
use std::test::Fail;

const TEXT: &[u8] = b"UNH::+1+A:?+\\'\r\nu+B'UNT:X+2";

const SEGMENTS: &[u8] = b"1 0 13 UNH\n2 16 19 ---\ntail 20 7\n";

const VALUES: &[u8] =
    b"1 0 13 UNH\n  1 1 1\n  2 1 A\n  2 2 +\\5c\n2 16 19 ---\n  1 1 B\ntail 20 7\n";

#[test]
fn a_text_has_its_head_and_its_lines(rt: HostRuntime) -> Result<(), Fail> {
    for (detail, lines) in [(Detail::Segments, SEGMENTS), (Detail::Values, VALUES)] {
        let printed = print_text(rt.alloc(), detail, TEXT)?;
        assert_eq!(rt; printed.head.octets(), b"segments 2\n".as_slice());
        assert_eq!(rt; printed.lines.octets(), lines);
    }
    Ok(())
}
