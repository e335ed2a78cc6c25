//! Stores of both versions, and octets that are a part of a store's first line, which no command reads as a store.
ghost use Rattle.std.specs.Prelude.{◌≤◌, length};
ghost use Rattle.edi_octets.specs.declared.octets.TheConstants.{LONGEST_TEXT};

use dir_store::{StoreStop, read_store, write_store};
use edi_tables::Chunk;
use std::alloc::Global;

// A segment with one data element, in stores of both versions; the last has a number that its version doesn't have.
const OLD: &[u8] = b"EDIDIR1\nD 96A UN\nE 1\n1001 an..3\nL 0\nC 0\nS 1\nFTX 1\n1001 C\nT 0\n";

const ONCE: &[u8] = b"EDIDIR2\nD 96A UN\nE 1\n1001 an..3\nL 0\nC 0\nS 1\nFTX 1\n1001 C 1\nT 0\n";

const TWICE: &[u8] = b"EDIDIR2\nD 96A UN\nE 1\n1001 an..3\nL 0\nC 0\nS 1\nFTX 1\n1001 C 2\nT 0\n";

const OLD_TWICE: &[u8] =
    b"EDIDIR1\nD 96A UN\nE 1\n1001 an..3\nL 0\nC 0\nS 1\nFTX 1\n1001 C 2\nT 0\n";

// The store of the directory that these octets spell, if they spell one.
fn written_again(alloc: Global, store: &[u8]) -> Option<Chunk>
    requires { length store.now ≤ LONGEST_TEXT }
{
    match read_store(alloc, store) {
        Ok(directory) => write_store(alloc, &directory).ok(),
        Err(_) => None,
    }
}

// The place of the first fault of a store, if it has one.
fn fault_in(alloc: Global, store: &[u8]) -> Option<usize>
    requires { length store.now ≤ LONGEST_TEXT }
{
    match read_store(alloc, store) {
        Err(StoreStop::Fault { at }) => Some(at),
        _ => None,
    }
}

#[test]
fn the_line_feed_of_the_first_line_is_asked_for(rt: HostRuntime) {
    assert_eq!(rt; fault_in(rt.alloc(), b"EDIDIR2"), Some(7));
}

#[test]
fn an_old_store_is_written_with_numbers(rt: HostRuntime) {
    let written = written_again(rt.alloc(), OLD).expect(&rt, "a store");
    assert_eq!(rt; written.octets(), ONCE);
}

#[test]
fn a_number_is_read_and_written(rt: HostRuntime) {
    let written = written_again(rt.alloc(), TWICE).expect(&rt, "a store");
    assert_eq!(rt; written.octets(), TWICE);
}

#[test]
fn an_old_store_has_no_number(rt: HostRuntime) {
    assert_eq!(rt; fault_in(rt.alloc(), OLD_TWICE), Some(50));
}
