//! Errors and their order.
ghost use Rattle.std.specs.Prelude.{◌≡◌, ◌↔◌, IsTrue, IsOk, OnOk, OnErr};
ghost use Rattle.std.specs.List.Sorted.{IsPermutation};
ghost use Rattle.error_ledger.specs.Order.{key_of, in_order, IsAscending, KeepsTies};

use crate::kind::Kind;
use edi_tables::Tag;
use std::alloc::AllocError;

/// An error: the number of its segment, from 1, that segment's first octet and tag, an element and a component
/// (0 for the whole segment, or the whole element), its kind, and, where a node of a segment table is missing, the
/// number of that node and the tag of the entry or of the group's trigger.
#[derive(Clone, Copy, Debug, PartialEq, Eq)]
pub struct ErrorLine {
    pub segment: u32,
    pub start: u32,
    pub tag: Option<Tag>,
    pub element: u32,
    pub component: u32,
    pub kind: Kind,
    pub node: u16,
    pub missing: Option<Tag>,
}

impl ErrorLine {
    /// The five numbers that it is ordered by: segment, element, component, number of the kind, and node.
    #[tactic(auto, unfolding(crate::specs::Order::key_of))]
    fn key(&self) -> [u32; 5]
        ensures { result ≡ key_of self.now }
    {
        [
            self.segment,
            self.element,
            self.component,
            u32::from(self.kind.number()),
            u32::from(self.node),
        ]
    }
}

/// Puts errors in order: by segment, element, component, number of the kind, and node. Errors that agree in all of
/// these keep the order that they had. A list that is in order already is looked through once, and takes no memory;
/// where memory is refused, the list is as it was.
pub fn order_errors(list: &mut Vec<ErrorLine>) -> Result<(), AllocError>
    ensures same { IsPermutation list.old.items list.new.items }
    ensures ascending { OnOk result (IsAscending list.new.items) }
    ensures ordered { OnOk result (list.new.items ≡ in_order list.old.items) }
    ensures ties { KeepsTies list.old.items list.new.items }
    ensures err { OnErr result (list.new.items ≡ list.old.items) }
    ensures ready { IsAscending list.old.items → IsOk result }
{
    if is_in_order(list) {
        return Ok(());
    }
    list.sort_by_key(ErrorLine::key)
}

/// Whether errors are in order.
fn is_in_order(list: &[ErrorLine]) -> bool
    ensures { IsTrue result ↔ IsAscending list.now }
{
    list.is_sorted_by_key(ErrorLine::key)
}
