//! The script that puts a release character before a terminator and takes it away again: whole, cut after each octet,
//! with a wrong letter, and over an input and a sink that fail at each call.
use crate::objects::{NEVER, Outside, run_by_octets};
use edicheck_core::Status;
use std::alloc::{AllocError, Global};
use std::test::Fail;

// The directory of the example, as a store.
const STORE: &[u8] =
    b"EDIDIR1\nD 96A UN\nE 27\n1000 an..35\n1001 an..3\n1004 an..35\n1082 n..6\n1131 an..3\n\
    1153 an..3\n1154 an..35\n1225 an..3\n1229 an..3\n2005 an..3\n2379 an..3\n2380 an..35\n\
    3035 an..3\n3039 an..17\n3055 an..3\n3139 an..3\n3412 an..35\n3413 an..17\n5004 n..18\n\
    5025 an..3\n5118 n..15\n5125 an..3\n6060 n..15\n6063 an..3\n6411 an..3\n7140 an..35\n\
    7143 an..3\n\
    L 2\n1001 2\n220\n231\n2005 2\n137\n2\n\
    C 9\nC002 3\n1001 C\n1131 C\n1000 C\nC056 2\n3413 C\n3412 C\nC082 3\n3039 M\n1131 C\n3055 C\n\
    C186 3\n6063 M\n6060 M\n6411 C\nC212 2\n7140 C\n7143 C\nC506 2\n1153 M\n1154 C\nC507 3\n2005 M\n\
    2380 C\n2379 C\nC509 2\n5125 M\n5118 C\nC516 2\n5025 M\n5004 C\n\
    S 9\nBGM 3\nC002 C\n1004 C\n1225 C\nCTA 2\n3139 C\nC056 C\nDTM 1\nC507 M\nLIN 3\n1082 C\n\
    1229 C\nC212 C\nMOA 1\nC516 M\nNAD 2\n3035 M\nC082 C\nPRI 1\nC509 C\nQTY 1\nC186 M\nRFF 1\n\
    C506 M\n\
    T 1\nTSTORD 15\n0 UNH M 1\n0 BGM M 1\n0 DTM M 2\n0 - C 2\n1 NAD M 1\n1 CTA C 1\n0 - C 3\n\
    1 LIN M 1\n1 QTY C 1\n1 - C 2\n2 PRI M 1\n2 DTM C 1\n0 UNS M 1\n0 MOA C 1\n0 UNT M 1\n";

const TEXT: &[u8] =
    b"UNB+UNOA:3+BUYER:14+SELLER:14+960105:0930+R1'UNH+1+TSTORD:D:96A:UN'BGM+220+PO7+9'\
    DTM+137:19960105:102'UNS+S'UNT+5+1'UNZ+1+R1'";

const SCRIPT: &[u8] =
    b"replace 101 0 1\n?\nerrors\ncontrl 960106:0800 C1\nreplace 101 1 0\n\nerrors\nend\n";

// A command of the script: the place where it ends, its reply, and the last line where the script is cut in it.
struct Step {
    end: usize,
    reply: &'static [u8],
    cut: &'static [u8],
}

const FOUR_ERRORS: &[u8] =
    b"errors 4\n4 81 DTM 1 3 39 too-long\n4 81 DTM 2 0 16 too-many-elements\n\
    5 109 UNT 0 0 13 missing-segment UNS\n5 109 UNT 1 0 29 count\n";

const ANSWER: &[u8] =
    b"contrl 178\nUNB+UNOA:3+SELLER:14+BUYER:14+960106:0800+C1'UNH+1+CONTRL:D:3:UN'\
    UCI+R1+BUYER:14+SELLER:14+7'UCM+1+TSTORD:D:96A:UN+4+29+UNT+2'UCS+3'UCD+39+2:3'UCD+16+3'\
    UCS+4+13'UNT+8+1'UNZ+1+C1'\n";

#[rattlefmt::skip]
const STEPS: [Step; 6] = [
    Step { end: 18, reply: b"ok 126\n", cut: b"fault script 1 cut\n" },
    Step { end: 25, reply: FOUR_ERRORS, cut: b"fault script 2 cut\n" },
    Step { end: 47, reply: ANSWER, cut: b"fault script 3 cut\n" },
    Step { end: 64, reply: b"ok 125\n", cut: b"fault script 4 cut\n" },
    Step { end: 71, reply: b"errors 0\n", cut: b"fault script 5 cut\n" },
    Step { end: 75, reply: b"end\n", cut: b"fault script 6 cut\n" },
];

// The replies to the commands that end within so many octets of the script, and the last line where it is cut there.
fn replies(alloc: Global, place: usize) -> Result<(Vec<u8>, &'static [u8]), AllocError> {
    let mut replies = Vec::new(alloc);
    for step in &STEPS {
        if step.end > place {
            return Ok((replies, step.cut));
        }
        replies.extend_from_slice(step.reply)?;
    }
    Ok((replies, b""))
}

// The status of `edit` with this script, and the octets that the sink holds then. One call fails of the input and of
// the sink each.
fn edit(
    alloc: Global,
    input: &[u8],
    input_fails: u64,
    sink_fails: u64,
) -> Result<(Status, Vec<u8>), AllocError> {
    let outside = Outside {
        manifest: STORE,
        text: TEXT,
        input,
        failing: [input_fails, NEVER, sink_fails],
    };
    run_by_octets(alloc, &[b"edit", b"m", b"t"], &outside)
}

#[test]
fn the_script_is_answered_to_its_end(rt: HostRuntime) -> Result<(), Fail> {
    let alloc = rt.alloc();
    assert_eq!(rt; SCRIPT.len(), 75);
    let (status, held) = edit(alloc, SCRIPT, NEVER, NEVER)?;
    let (due, _) = replies(alloc, 75)?;
    assert_eq!(rt; status, Status::Done);
    assert_eq!(rt; held, due);
    Ok(())
}

#[test]
fn it_may_be_cut_after_each_octet(rt: HostRuntime) -> Result<(), Fail> {
    let alloc = rt.alloc();
    for place in 0..SCRIPT.len() {
        let (status, held) = edit(alloc, &SCRIPT[..place], NEVER, NEVER)?;
        let (mut due, last) = replies(alloc, place)?;
        due.extend_from_slice(last)?;
        assert_eq!(rt; status, Status::BadScript, "cut at {place}");
        assert_eq!(rt; held, due, "cut at {place}");
    }
    Ok(())
}

#[test]
fn the_input_may_fail_at_each_call(rt: HostRuntime) -> Result<(), Fail> {
    let alloc = rt.alloc();
    for place in 0..SCRIPT.len() {
        let (status, held) = edit(alloc, SCRIPT, place as u64, NEVER)?;
        let (mut due, _) = replies(alloc, place)?;
        due.extend_from_slice(b"fault read\n")?;
        assert_eq!(rt; status, Status::ReadFault, "call {place}");
        assert_eq!(rt; held, due, "call {place}");
    }
    Ok(())
}

#[test]
fn the_sink_may_fail_at_each_call(rt: HostRuntime) -> Result<(), Fail> {
    let alloc = rt.alloc();
    let (due, _) = replies(alloc, 75)?;
    for place in 0..due.len() {
        let (status, held) = edit(alloc, SCRIPT, NEVER, place as u64)?;
        assert_eq!(rt; status, Status::WriteFault, "call {place}");
        assert_eq!(rt; held.as_slice(), &due[..place], "call {place}");
    }
    Ok(())
}

#[test]
fn a_capital_letter_is_a_bad_line(rt: HostRuntime) -> Result<(), Fail> {
    let alloc = rt.alloc();
    let mut script = SCRIPT.to_vec(alloc)?;
    script[25] = b'C';
    let (status, held) = edit(alloc, &script, NEVER, NEVER)?;
    let (mut due, _) = replies(alloc, 25)?;
    due.extend_from_slice(b"fault script 3 line\n")?;
    assert_eq!(rt; status, Status::BadScript);
    assert_eq!(rt; held, due);
    Ok(())
}
