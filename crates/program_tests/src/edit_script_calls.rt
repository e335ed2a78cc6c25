//! Scripts that are whole, cut, changed, over a limit and from a source that fails, one octet a call.
ghost use Rattle.std.specs.Prelude.{◌≤◌};

use contrl_segments::Stamp;
use edi_ports::MemSource;
use edit_script::{Command, ScriptReader, ScriptStop};
use std::alloc::{AllocError, Global};
use std::test::Fail;

const SCRIPT: &[u8] = b"errors\nreplace 101 0 3\na\nb\ntree\ncontrl 960106:0800 C1\n\
    replace 0 9999999999999999999 0\n\ntext\nend\n";

// Where the octets that it puts are.
const PUT: [usize; 3] = [23, 24, 25];

// How many of its commands end within its first `place` octets; all 7 end within 96.
fn ended_at(place: usize) -> u32
    ensures { result ≤ 6 }
{
    match place {
        0..=6 => 0,
        7..=26 => 1,
        27..=31 => 2,
        32..=53 => 3,
        54..=86 => 4,
        87..=91 => 5,
        _ => 6,
    }
}

fn source(alloc: Global, octets: &[u8], failing: &[u64]) -> Result<MemSource, AllocError> {
    Ok(MemSource::new(octets.to_vec(alloc)?, 1, failing.to_vec(alloc)?))
}

// How many commands there are, and what stops the reader before `end`.
fn read(
    alloc: Global,
    octets: &[u8],
    limit: u64,
    failing: &[u64],
) -> Result<(u32, Option<ScriptStop>), AllocError>
    requires { limit ≤ 1073741824 }
{
    read_by(
        alloc,
        ScriptReader::new(limit),
        source(alloc, octets, failing)?,
    )
}

// The same by that reader.
fn read_by(
    alloc: Global,
    mut reader: ScriptReader,
    mut input: MemSource,
) -> Result<(u32, Option<ScriptStop>), AllocError> {
    for number in 0..9 {
        match reader.next_command(alloc, &mut input) {
            Ok(Command::End) => return Ok((number + 1, None)),
            Ok(_) => {}
            Err(stop) => return Ok((number, Some(stop))),
        }
    }
    Ok((9, None))
}

#[test]
fn reads_what_a_command_tells(rt: HostRuntime) -> Result<(), Fail> {
    let alloc = rt.alloc();
    let mut input = source(
        alloc,
        b"replace 101 0 3\na\nb\ncontrl 960106:0800 C1\n",
        &[],
    )?;
    let mut reader = ScriptReader::new(100);
    match reader.next_command(alloc, &mut input) {
        Ok(Command::Replace { at, cut, put }) => {
            assert_eq!(rt; (at, cut), (101, 0));
            assert_eq!(rt; put.octets(), b"a\nb".as_slice());
        }
        other => assert!(rt; false, "{other:?}"),
    }
    match reader.next_command(alloc, &mut input) {
        Ok(Command::Contrl { stamp, reference }) => {
            assert_eq!(rt;
                stamp,
                Stamp {
                    date: *b"960106",
                    time: *b"0800"
                }
            );
            assert_eq!(rt; reference.octets(), b"C1".as_slice());
        }
        other => assert!(rt; false, "{other:?}"),
    }
    Ok(())
}

#[test]
fn stops_at_each_octet(rt: HostRuntime) -> Result<(), Fail> {
    let alloc = rt.alloc();
    assert_eq!(rt; read(alloc, SCRIPT, 96, &[])?, (7, None));
    for place in 0..SCRIPT.len() {
        let whole = ended_at(place);
        let number = whole + 1;
        let cut = read(alloc, &SCRIPT[..place], 96, &[])?;
        assert_eq!(rt;
            cut,
            (whole, Some(ScriptStop::CutShort { number })),
            "cut at {place}"
        );
        let limited = read(alloc, SCRIPT, place as u64, &[])?;
        assert_eq!(rt;
            limited,
            (whole, Some(ScriptStop::TooLong)),
            "limit {place}"
        );
        let failed = read(alloc, SCRIPT, 96, &[place as u64])?;
        assert_eq!(rt; failed, (whole, Some(ScriptStop::Fault)), "call {place}");
        let mut changed = SCRIPT.to_vec(alloc)?;
        changed[place] = b'~';
        let expected = if PUT.contains(&place) {
            (7, None)
        } else {
            (whole, Some(ScriptStop::BadLine { number }))
        };
        assert_eq!(rt;
            read(alloc, &changed, 96, &[])?,
            expected,
            "changed at {place}"
        );
    }
    Ok(())
}

#[test]
fn tells_a_bad_line_from_one_that_is_cut(rt: HostRuntime) -> Result<(), Fail> {
    let alloc = rt.alloc();
    for bad in [
        b"xyz".as_slice(),
        b"end ",
        b"end\r",
        b"replace 00",
        b"replace 10000000000000000000",
        b"replace 0 0 4194305",
        b"replace 0 0 0\nend",
        b"contrl 9601060800",
        b"contrl 960106:0800 \n",
        b"contrl 960106:0800 ABCDEFGHIJ01234",
    ] {
        let stop = read(alloc, bad, 100, &[])?;
        assert_eq!(rt;
            stop,
            (0, Some(ScriptStop::BadLine { number: 1 })),
            "{bad:?}"
        );
    }
    for cut in [
        b"err".as_slice(),
        b"replace 9999999999999999999",
        b"replace 0 0 4194304",
        b"replace 0 0 0\n",
        b"contrl 960106:0800 ABCDEFGHIJ0123",
    ] {
        let stop = read(alloc, cut, 100, &[])?;
        assert_eq!(rt;
            stop,
            (0, Some(ScriptStop::CutShort { number: 1 })),
            "{cut:?}"
        );
    }
    Ok(())
}

#[test]
fn reads_what_a_session_tells(rt: HostRuntime) -> Result<(), Fail> {
    let alloc = rt.alloc();
    let mut input = source(
        alloc,
        b"undo\nredo\nbatch 2\nreplace 125 0 2\nXX\nreplace 0 999 0\n\nend\n",
        &[],
    )?;
    let mut reader = ScriptReader::for_session(58);
    let first = reader.next_command(alloc, &mut input);
    assert!(rt; matches!(first, Ok(Command::Undo)), "{first:?}");
    let second = reader.next_command(alloc, &mut input);
    assert!(rt; matches!(second, Ok(Command::Redo)), "{second:?}");
    match reader.next_command(alloc, &mut input) {
        Ok(Command::Batch { edits }) => match edits.items() {
            [one, two] => {
                assert_eq!(rt; (one.at, one.cut), (125, 0));
                assert_eq!(rt; one.put.octets(), b"XX".as_slice());
                assert_eq!(rt; (two.at, two.cut), (0, 999));
                assert_eq!(rt; two.put.octets(), b"".as_slice());
            }
            other => assert!(rt; false, "{other:?}"),
        },
        other => assert!(rt; false, "{other:?}"),
    }
    let last = reader.next_command(alloc, &mut input);
    assert!(rt; matches!(last, Ok(Command::End)), "{last:?}");
    Ok(())
}

#[test]
fn tells_a_bad_line_in_a_batch_by_its_number(rt: HostRuntime) -> Result<(), Fail> {
    let alloc = rt.alloc();
    for (octets, whole, number) in [
        (b"undo ".as_slice(), 0, 1),
        (b"redo\r", 0, 1),
        (b"batch 0", 0, 1),
        (b"batch 17", 0, 1),
        (b"batch 1\ne", 0, 1),
        (b"batch 1\nb", 0, 1),
        (b"batch 1\nreplace 0 0 0\nx", 0, 1),
        (b"undo\nbatch 2\nreplace 0 0 0\n\ne", 1, 2),
        (b"undo\nbatch 2\nreplace 0 0 0\n\nreplace 0 0 0\n\nx", 2, 3),
    ] {
        let stop = read_by(
            alloc,
            ScriptReader::for_session(100),
            source(alloc, octets, &[])?,
        )?;
        assert_eq!(rt;
            stop,
            (whole, Some(ScriptStop::BadLine { number })),
            "{octets:?}"
        );
    }
    Ok(())
}

#[test]
fn tells_where_a_batch_is_cut_short_by_its_number(rt: HostRuntime) -> Result<(), Fail> {
    let alloc = rt.alloc();
    for (octets, whole, number) in [
        (b"u".as_slice(), 0, 1),
        (b"re", 0, 1),
        (b"batch ", 0, 1),
        (b"batch 1", 0, 1),
        (b"batch 16\n", 0, 1),
        (b"undo\nbatch 2\nreplace 0 0 0\n\n", 1, 2),
        (b"undo\nbatch 2\nreplace 0 0 0\n\nreplace 0 0 1\nx", 1, 2),
        (b"redo\nundo\nbatch 1\nreplace 0 0 0\n\n", 3, 4),
    ] {
        let stop = read_by(
            alloc,
            ScriptReader::for_session(100),
            source(alloc, octets, &[])?,
        )?;
        assert_eq!(rt;
            stop,
            (whole, Some(ScriptStop::CutShort { number })),
            "{octets:?}"
        );
    }
    Ok(())
}

#[test]
fn an_edit_has_no_command_of_a_session(rt: HostRuntime) -> Result<(), Fail> {
    let alloc = rt.alloc();
    for bad in [b"u".as_slice(), b"red", b"b"] {
        let stop = read(alloc, bad, 100, &[])?;
        assert_eq!(rt;
            stop,
            (0, Some(ScriptStop::BadLine { number: 1 })),
            "{bad:?}"
        );
    }
    Ok(())
}
