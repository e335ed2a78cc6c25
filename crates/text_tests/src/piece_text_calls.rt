//! Edits in each of their branches, what views and the lexer read over the seams of pieces, and that typing leaves few
//! pieces.

ghost use Rattle.std.specs.Prelude.{◌≡◌, ◌<◌, ◌≤◌, length};

use edi_octets::Octets;
use piece_text::{Text, View};
use seg_lexer::{Context, Level, Lexed, fields, next_segment, read_context, read_service};
use std::alloc::{AllocError, Global};
use std::marker::Brand;
use std::process::Abort;
use std::sync::ledger::{Blank, Ledger};
use std::test::Fail;
use step_counter::Steps;

/// The text is these octets, copied, by place and by slices; how many slices it has is answered.
fn expect(
    rt: &impl Abort,
    alloc: Global,
    text: &Text,
    parts: [&[u8]; 3],
) -> Result<usize, AllocError> {
    let mut wanted = Vec::new(alloc);
    for part in parts {
        wanted.extend_from_slice(part)?;
    }
    assert_eq!(rt; text.copy(alloc)?.octets(), wanted.as_slice());
    let view = text.view(0, text.len());
    let mut read = Vec::new(alloc);
    let mut slices = 0;
    for i in 0..view.len() {
        assert_eq!(rt; Some(&view.octet(i)), wanted.get(i));
        if read.len() == i {
            read.extend_from_slice(view.slice_at(i))?;
            slices = i;
        }
    }
    assert_eq!(rt; read.as_slice(), wanted.as_slice());
    Ok(slices)
}

fn replaced(
    rt: &impl Abort,
    alloc: Global,
    text: &Text,
    edit: (usize, usize, &[u8]),
) -> Result<Text, AllocError> {
    let (at, cut, put) = edit;
    assert!(rt; text.len() < 10_000 && put.len() < 10_000);
    assert!(rt; at <= text.len() && cut <= text.len() - at);
    text.replace(alloc, at, cut, put)
}

#[test]
fn edits_of_small_texts(rt: HostRuntime) -> Result<(), Fail> {
    #[rattlefmt::skip]
    let rows: [(&[u8], (usize, usize, &[u8]), &[u8]); 8] = [
        (b"AB'", (1, 1, b"XYZ"), b"AXYZ'"),
        (b"AB'", (0, 0, b"X"), b"XAB'"),
        (b"AB'", (3, 0, b"X"), b"AB'X"),
        (b"AB'", (2, 1, b""), b"AB"),
        (b"AB'", (0, 3, b""), b""),
        (b"AB'", (1, 0, b""), b"AB'"),
        (b"", (0, 0, b"AB"), b"AB"),
        (b"", (0, 0, b""), b""),
    ];
    for (octets, edit, wanted) in rows {
        assert!(rt; octets.len() < 10_000);
        let text = Text::of_bytes(rt.alloc(), octets)?;
        let edited = replaced(&rt, rt.alloc(), &text, edit)?;
        expect(&rt, rt.alloc(), &edited, [wanted, &[], &[]])?;
        expect(&rt, rt.alloc(), &text, [octets, &[], &[]])?;
    }
    Ok(())
}

/// After an edit the text is what was before it, what was put in, and what was after it.
fn expect_edit(
    rt: &impl Abort,
    alloc: Global,
    text: &Text,
    edit: (usize, usize, &[u8]),
) -> Result<(), AllocError> {
    let edited = replaced(rt, alloc, text, edit)?;
    let (at, cut, put) = edit;
    let copied = text.copy(alloc)?;
    let octets = copied.octets();
    assert!(rt; at <= octets.len() && cut <= octets.len() - at);
    expect(
        rt,
        alloc,
        &edited,
        [&octets[..at], put, &octets[at + cut..]],
    )?;
    Ok(())
}

/// 700 octets `A`, 600 octets `B`, and 700 octets `A`, in three pieces.
fn three_pieces(rt: &impl Abort, alloc: Global) -> Result<Text, AllocError> {
    let text = Text::of_bytes(alloc, &[b'A'; 1400])?;
    let three = replaced(rt, alloc, &text, (700, 0, &[b'B'; 600]))?;
    let parts: [&[u8]; 3] = [&[b'A'; 700], &[b'B'; 600], &[b'A'; 700]];
    assert_eq!(rt; expect(rt, alloc, &three, parts)?, 1300);
    Ok(three)
}

#[test]
fn edits_over_seams(rt: HostRuntime) -> Result<(), Fail> {
    let three = three_pieces(&rt, rt.alloc())?;
    expect_edit(&rt, rt.alloc(), &three, (699, 602, b"?"))?;
    expect_edit(&rt, rt.alloc(), &three, (0, 2000, b""))?;
    expect_edit(&rt, rt.alloc(), &three, (700, 600, b""))?;
    expect_edit(&rt, rt.alloc(), &three, (1300, 0, b"'"))?;
    Ok(())
}

#[test]
fn a_view_over_three_pieces(rt: HostRuntime) -> Result<(), Fail> {
    let three = three_pieces(&rt, rt.alloc())?;
    assert!(rt; three.len() == 2000);
    let view = three.view(699, 1301);
    assert!(rt; view.len() == 602);
    assert_eq!(rt; (view.octet(0), view.octet(1)), (b'A', b'B'));
    assert_eq!(rt; view.slice_at(0), b"A".as_slice());
    assert_eq!(rt; view.slice_at(1), [b'B'; 600].as_slice());
    assert_eq!(rt; view.slice_at(601), b"A".as_slice());
    Ok(())
}

/// What is found where the body of a text begins.
fn first_lexed<L: Ledger>(text: &View<'_>, blank: Blank) -> Lexed
    requires name { blank.name ≡ L.name }
    requires parts { blank.parts ≡ L.parts }
    requires some { 0 < blank.parts }
    requires short { length text.now ≤ 4194304 }
{
    let mut lexed = Steps::<L>::start(blank);
    let service = read_service(text);
    next_segment(text, &service, service.body, &mut lexed)
}

/// `FTX+`, 600 octets `A` and a release character in one piece; a terminator and 600 octets `B` in the next; 600 octets
/// `C` and a terminator in the last.
fn value_in_three_pieces(rt: &impl Abort, alloc: Global) -> Result<Text, AllocError> {
    let mut front = b"FTX+".to_vec(alloc)?;
    front.extend_from_slice(&[b'A'; 600])?;
    front.push(b'?')?;
    let mut middle = b"'".to_vec(alloc)?;
    middle.extend_from_slice(&[b'B'; 600])?;
    let mut back = [b'C'; 600].to_vec(alloc)?;
    back.push(b'\'')?;
    assert!(rt; front.len() == 605);
    let text = Text::of_bytes(alloc, &front)?;
    let text = replaced(rt, alloc, &text, (605, 0, &back))?;
    let text = replaced(rt, alloc, &text, (605, 0, &middle))?;
    assert_eq!(rt; expect(rt, alloc, &text, [&front, &middle, &back])?, 1206);
    Ok(text)
}

#[test]
fn a_value_in_three_pieces(rt: HostRuntime) -> Result<(), Fail> {
    let text = value_in_three_pieces(&rt, rt.alloc())?;
    let view = text.view(0, text.len());
    assert!(rt; view.len() == 1807);
    assert_eq!(rt;
        first_lexed::<Brand>(&view, Blank::new(1)),
        Lexed::Ended {
            start: 0,
            end: 1806
        }
    );
    let components = fields(&view, &read_service(&view), 0, 1806);
    let value = components.value_at(1, 1).ok_or("no value")?;
    assert_eq!(rt; value.span(), (4, 1806));
    assert!(rt; value.len() == 1801);
    assert_eq!(rt;
        (value.octet(599), value.octet(600), value.octet(601)),
        (b'A', b'\'', b'B')
    );
    assert_eq!(rt; (value.octet(1200), value.octet(1201)), (b'B', b'C'));
    Ok(())
}

/// The context of a text.
fn context_of<L: Ledger>(text: &View<'_>, blank: Blank) -> Context
    requires name { blank.name ≡ L.name }
    requires parts { blank.parts ≡ L.parts }
    requires some { 0 < blank.parts }
    requires short { length text.now ≤ 4194304 }
{
    read_context(text, &mut Steps::<L>::start(blank))
}

#[test]
fn a_context_over_a_seam(rt: HostRuntime) -> Result<(), Fail> {
    let mut front = [b'\n'; 600].to_vec(rt.alloc())?;
    front.extend_from_slice(b"UN")?;
    assert!(rt; front.len() == 602);
    let text = Text::of_bytes(rt.alloc(), &front)?;
    let text = replaced(&rt, rt.alloc(), &text, (602, 0, b"B+UNOC:1'"))?;
    let view = text.view(0, text.len());
    assert!(rt; view.len() == 611);
    assert_eq!(rt; view.slice_at(602), b"B+UNOC:1'".as_slice());
    let context = context_of::<Brand>(&view, Blank::new(1));
    assert_eq!(rt; (context.level, context.version), (Level::C, 1));
    Ok(())
}

/// The text after octets were put in and taken out again, many times at one place.
fn edited_and_back(
    rt: &impl Abort,
    alloc: Global,
    mut text: Text,
    at: usize,
) -> Result<Text, AllocError> {
    for _ in 0..40 {
        text = replaced(rt, alloc, &text, (at, 0, b"BC"))?;
        text = replaced(rt, alloc, &text, (at, 2, b""))?;
    }
    Ok(text)
}

#[test]
fn edits_at_one_place_leave_few_pieces(rt: HostRuntime) -> Result<(), Fail> {
    let mut typed = Text::of_bytes(rt.alloc(), b"")?;
    for _ in 0..600 {
        let end = typed.len();
        typed = replaced(&rt, rt.alloc(), &typed, (end, 0, b"A"))?;
    }
    assert_eq!(rt;
        expect(&rt, rt.alloc(), &typed, [&[b'A'; 600], &[], &[]])?,
        513
    );
    let typed = edited_and_back(&rt, rt.alloc(), typed, 300)?;
    assert_eq!(rt;
        expect(&rt, rt.alloc(), &typed, [&[b'A'; 600], &[], &[]])?,
        0
    );
    let long = Text::of_bytes(rt.alloc(), &[b'A'; 1400])?;
    let long = edited_and_back(&rt, rt.alloc(), long, 700)?;
    assert_eq!(rt;
        expect(&rt, rt.alloc(), &long, [&[b'A'; 1400], &[], &[]])?,
        700
    );
    Ok(())
}
