//! The front of an entry: the shortest way to it.
ghost use Rattle.std.specs.Prelude.{◌≡◌, ◌<◌, ◌||◌, nat_eq, length, IfOk};
ghost use Rattle.std.specs.List.{list_all, list_any};
ghost use Rattle.edi_tables.specs.Walk.{is_must_at, groups_round};
ghost use Rattle.edi_tables.specs.Collisions.{is_in_front, front_of};

use edi_tables::Table;
use std::alloc::{AllocError, Global};

/// The front of an entry in table order: it, and before it each mandatory one in groups that are mandatory or round it.
pub fn front(alloc: Global, table: &Table, entry: u16) -> Result<Vec<u16>, AllocError>
    requires { entry < length table.now }
    ensures { IfOk result (λ front. front.items ≡ front_of table.now entry) }
{
    let mut front = Vec::new(alloc);
    for place in 0..usize::from(entry) + 1 {
        let before = place as u16;
        if is_in_front(table, entry, before) {
            front.push(before)?;
        }
    }
    Ok(front)
}

/// Whether an entry is in the front of another.
fn is_in_front(table: &Table, entry: u16, before: u16) -> bool
    requires within { entry < length table.now }
    requires before { before < length table.now }
    ensures { result ≡ is_in_front table.now entry before }
{
    let node = table.node(usize::from(before));
    node.tag.is_some() && (before == entry || node.must && is_on_the_way(table, entry, before))
}

/// Whether each group round a node is mandatory or is round the entry too.
fn is_on_the_way(table: &Table, entry: u16, node: u16) -> bool
    requires within { entry < length table.now }
    requires node { node < length table.now }
    ensures { result ≡ list_all
        (λ g. is_must_at table.now g || list_any (nat_eq g) (groups_round table.now entry))
        (groups_round table.now node) }
{
    for group in table.groups_round(usize::from(node)) {
        if !table.node(usize::from(group)).must && !table.is_round(entry, group) {
            return false;
        }
    }
    true
}
