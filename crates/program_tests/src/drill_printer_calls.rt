//! Drills worked out by hand.
use drill_printer::print_drill;
use std::test::Fail;

#[test]
fn a_drill_ends_as_it_began(rt: HostRuntime) -> Result<(), Fail> {
    let printed = print_drill(rt.alloc(), 1, 2, 1)?;
    let due: &[u8] = b"drill 1 2 1\nopen 155 11 0\nedits 2 2\nclose 155 11 0\n";
    assert_eq!(rt; printed.octets(), due);
    Ok(())
}
