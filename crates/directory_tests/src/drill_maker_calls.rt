//! Drills worked out by hand.
use drill_maker::{make_interchange, reduced_parts};
use std::test::Fail;

const TWO_ORDERS: &[u8] = b"UNB+UNOA:3+BUYER:14+SELLER:14+960105:0930+R1'\
UNH+1+TSTORD:D:96A:UN'BGM+220+PO1+9'DTM+137:19960105:102'LIN+1'QTY+21:1'UNS+S'UNT+7+1'\
UNH+2+TSTORD:D:96A:UN'BGM+220+PO2+9'DTM+137:19960105:102'LIN+1'QTY+21:2'LIN+2'QTY+21:3'UNS+S'UNT+9+2'\
UNZ+2+R1'";

#[test]
fn two_orders_have_one_and_two_lines(rt: HostRuntime) -> Result<(), Fail> {
    let made = make_interchange(rt.alloc(), 2, 0)?;
    assert_eq!(rt; made.octets(), TWO_ORDERS);
    Ok(())
}

#[test]
fn the_reduced_directory_has_one_message(rt: HostRuntime) -> Result<(), Fail> {
    let parts = reduced_parts(rt.alloc())?;
    assert_eq!(rt; parts.elements.items().len(), 27);
    assert_eq!(rt; parts.composites.items().len(), 9);
    assert_eq!(rt; parts.segments.items().len(), 9);
    assert_eq!(rt; parts.messages.items().len(), 1);
    Ok(())
}
