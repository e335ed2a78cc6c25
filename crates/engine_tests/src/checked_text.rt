//! A text that is checked as it is read, and the same text kept by an engine: they tell the same.
ghost use Rattle.std.specs.Prelude.{◌≤◌, length};
ghost use Rattle.edi_octets.specs.declared.octets.TheConstants.{LONGEST_TEXT};

use dir_compile::Directory;
use drill_maker::{make_interchange, reduced_directory};
use edi_engine::{Checked, Engine, check_text, list_text_errors};
use std::alloc::{AllocError, Global};
use std::test::Fail;

fn tells_the_same(alloc: Global, engine: &Engine<'_>, checked: &Checked) -> bool {
    match (engine.errors(alloc), engine.print_tree(alloc)) {
        (Ok(errors), Ok(tree)) => {
            errors.as_slice() == checked.errors.as_slice()
                && tree.lines == checked.tree.lines
                && tree.text.octets() == checked.tree.text.octets()
        }
        _ => false,
    }
}

// Whether at least so many errors and lines of a tree are told of a text by the reduced directory, and the same by an engine.
fn are_told_alike(
    alloc: Global,
    text: &[u8],
    errors: usize,
    lines: usize,
) -> Result<bool, AllocError>
    requires { length text.now ≤ LONGEST_TEXT }
{
    let directory = reduced_directory(alloc)?;
    are_told_alike_by(alloc, &directory, text, errors, lines)
}

fn are_told_alike_by(
    alloc: Global,
    directory: &Directory,
    text: &[u8],
    errors: usize,
    lines: usize,
) -> Result<bool, AllocError>
    requires { length text.now ≤ LONGEST_TEXT }
{
    let engine = Engine::read(alloc, directory, text.to_vec(alloc)?)?;
    let checked = check_text(alloc, directory, text)?;
    let alone = list_text_errors(alloc, directory, text)?;
    Ok(
        checked.errors.len() >= errors
            && checked.tree.lines >= lines
            && alone.as_slice() == checked.errors.as_slice()
            && tells_the_same(alloc, &engine, &checked),
    )
}

#[test]
fn a_long_order_is_checked_in_batches(rt: HostRuntime) -> Result<(), Fail> {
    let alloc = rt.alloc();
    let text = make_interchange(alloc, 300, 1)?;
    assert!(rt; are_told_alike(alloc, text.octets(), 0, 900)?);
    Ok(())
}

#[test]
fn errors_are_those_of_an_engine(rt: HostRuntime) -> Result<(), Fail> {
    // A segment outside, a bad code, a message that ends too early and is counted wrongly, and a tail.
    let text =
        b"UNB+UNOZ:3+BUYER:14+SELLER:14+960105:0930+R1'AAA'UNH+1+TSTORD:D:96A:UN'DTM+9'UNT+7+2'UNZ+3+R2'BBB";
    assert!(rt; are_told_alike(rt.alloc(), text, 7, 6)?);
    Ok(())
}
