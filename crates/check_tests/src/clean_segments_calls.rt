//! Segments whose octets show at a first look that nothing is wrong, and others: a look that always gives up is proved too.
ghost use Rattle.std.specs.Prelude.{◌≤◌, length};
ghost use Rattle.edi_octets.specs.declared.octets.TheConstants.{LONGEST_TEXT};

use clean_segments::{OctetKinds, clean_tag};
use dir_compile::Directory;
use dir_store::read_store;
use edi_octets::Flat;
use seg_lexer::{Context, Level, read_service};
use std::alloc::Global;
use std::test::Fail;

// A directory that defines nothing of its own.
const STORE: &[u8] = b"EDIDIR1\nD 96A UN\nE 0\nL 0\nC 0\nS 0\nT 0\n";

// The directory of a store, if it is one.
fn directory_of(alloc: Global, store: &[u8]) -> Option<Directory>
    requires { length store.now ≤ LONGEST_TEXT }
{
    match read_store(alloc, store) {
        Ok(directory) => Some(directory),
        Err(_) => None,
    }
}

// The context of a segment that is a whole text.
fn context_of(segment: &[u8]) -> Context {
    Context {
        service: read_service(&Flat { octets: segment }),
        level: Level::B,
        version: 3,
    }
}

// Whether a first look shows that a segment has no error.
fn is_seen(directory: &Directory, segment: &[u8]) -> bool
    requires { length segment.now ≤ LONGEST_TEXT }
{
    let context = context_of(segment);
    match clean_tag(&OctetKinds::of(&context), directory, &context, segment) {
        Some(_) => true,
        None => false,
    }
}

#[test]
fn a_first_look_sees_good_segments(rt: HostRuntime) -> Result<(), Fail> {
    let directory = directory_of(rt.alloc(), STORE).expect(&rt, "a store");
    assert!(rt; is_seen(&directory, b"UNS+D"));
    assert!(rt; is_seen(&directory, b"UNH+1+ORDERS:D:96A:UN"));
    assert!(rt; !is_seen(&directory, b"UNS"));
    assert!(rt; !is_seen(&directory, b"UNS+?D"));
    Ok(())
}
