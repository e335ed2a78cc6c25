//! The tags of a table by number, so that none is looked up twice.
ghost use Rattle.std.specs.Prelude.{◌≡◌, ◌≤◌, length, IfOk};
ghost use Rattle.std.specs.List.{list_all, enumerate_from};
ghost use Rattle.std.specs.Str.{bytes_eq};
ghost use Rattle.std.specs.HashMap.{get};
ghost use Rattle.collision_check.specs.Marks.{Numbers, is_own, numbers_of};

use edi_tables::Node;
use std::alloc::{AllocError, Global};
use std::collections::HashMap;

/// The number of each node's tag: the first node with it. A group has none.
pub fn numbers(alloc: Global, nodes: &[Node]) -> Result<Vec<Option<u16>>, AllocError>
    requires { length nodes.now ≤ 2000 }
    ensures { IfOk result (λ numbers. numbers.items ≡ numbers_of nodes.now) }
{
    let mut first = HashMap::with_capacity(alloc, nodes.len())?;
    let mut numbers = Vec::with_capacity(alloc, nodes.len())?;
    for (i, node) in nodes.iter().enumerate() {
        numbers.push(number(&mut first, node, i as u16)?)?;
    }
    Ok(numbers)
}

/// Whether no two nodes have one tag, by their numbers: each is that of the node itself.
pub fn all_differ(numbers: &[Option<u16>]) -> bool
    ensures { result ≡ list_all (λ p. is_own p.0 p.1) (enumerate_from 0 numbers.now) }
{
    numbers
        .iter()
        .enumerate()
        .all(|(place, number)| is_own(place, *number))
}

/// Whether the number of the node at this place is that of the node itself; a group has none.
fn is_own(place: usize, number: Option<u16>) -> bool
    ensures { result ≡ is_own place number }
{
    match number {
        Some(number) => usize::from(number) == place,
        None => true,
    }
}

/// The number of the tag of the node at this place, and notes it.
fn number(
    first: &mut HashMap<[u8; 3], u16>,
    node: &Node,
    place: u16,
) -> Result<Option<u16>, AllocError>
    ensures { IfOk result (λ number.
        Numbers node.now.tag place (get bytes_eq first.old) (get bytes_eq first.new) number) }
{
    let Some(tag) = node.tag else {
        return Ok(None);
    };
    if let Some(number) = first.get(&tag.octets) {
        return Ok(Some(*number));
    }
    first.insert(tag.octets, place)?;
    Ok(Some(place))
}
