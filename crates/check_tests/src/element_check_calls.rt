//! A segment with more errors than take no memory, and repetitions by a written context.
ghost use Rattle.seg_lexer.specs.Service.{IsUsable};

use dir_store::read_store;
use edi_octets::{Flat, LONGEST_TEXT};
use element_check::check_segment;
use seg_lexer::{Context, Level, Service};
use std::alloc::Global;
use std::process::Abort;
use std::test::Fail;

const DIRECTORY: &[u8] = b"EDIDIR1\nD 96A UN\nE 0\nL 0\nC 0\nS 0\nT 0\n";

// The default characters, with nothing between repetitions.
const SINGLE: Context = Context {
    service: Service {
        component: b':',
        element: b'+',
        repetition: None,
        mark: b'.',
        release: Some(b'?'),
        terminator: b'\'',
        body: 0,
        sound: true,
    },
    level: Level::B,
    version: 3,
};

// The same with a star between repetitions.
const STARRED: Context = Context {
    service: Service {
        component: b':',
        element: b'+',
        repetition: Some(b'*'),
        mark: b'.',
        release: Some(b'?'),
        terminator: b'\'',
        body: 0,
        sound: true,
    },
    level: Level::B,
    version: 3,
};

fn expect_errors(
    rt: &impl Abort,
    alloc: Global,
    context: &Context,
    segment: &[u8],
    count: usize,
) -> Result<(), Fail>
    requires { IsUsable context.now.service segment.now }
{
    assert!(rt; segment.len() <= LONGEST_TEXT);
    let directory = read_store(alloc, DIRECTORY)?;
    let text = Flat { octets: segment };
    let errors = check_segment(alloc, &directory, context, &text, 0, segment.len())?;
    assert_eq!(rt; errors.len(), count);
    Ok(())
}

#[test]
fn a_segment_may_have_more_errors_than_four(rt: HostRuntime) -> Result<(), Fail> {
    expect_errors(&rt, rt.alloc(), &SINGLE, b"UNS+D", 0)?;
    expect_errors(&rt, rt.alloc(), &SINGLE, b"UNH+1+:::::Z", 5)
}

#[test]
fn an_error_of_two_repetitions_counts_once(rt: HostRuntime) -> Result<(), Fail> {
    // One repetition too many, and in each of the two a component that is missing, another one in the first alone.
    expect_errors(
        &rt,
        rt.alloc(),
        &STARRED,
        b"UNH+1+ORDERS:D:::*ORDERS:D:96A",
        3,
    )?;
    expect_errors(&rt, rt.alloc(), &STARRED, b"UNS+D*", 0)
}
