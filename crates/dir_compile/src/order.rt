//! Definitions in ascending octet order of their names.
ghost use Rattle.std.specs.Prelude.{◌≡◌, [], map};
ghost use Rattle.std.specs.List.{flat_map};
ghost use Rattle.dir_compile.specs.Compile.{list_name, twice_in, twice_faults, value_name};
ghost use Rattle.dir_compile.specs.InOrder.{ascending_by, ordered_list, ordered_parts};

use crate::names::Named;
use crate::parts::Parts;
use edi_tables::{CodeList, List};
use std::alloc::Global;
use std::mem;

/// The parts in ascending order, and the codes of each list too. It takes no memory.
pub(crate) fn ordered(alloc: Global, parts: Parts) -> Parts
    requires { twice_faults parts ≡ [] }
    ensures { result ≡ ordered_parts parts }
{
    let Parts {
        version,
        release,
        agency,
        elements,
        lists,
        composites,
        segments,
        messages,
    } = parts;
    Parts {
        version,
        release,
        agency,
        elements: ascending(elements),
        lists: ordered_lists(alloc, lists),
        composites: ascending(composites),
        segments: ascending(segments),
        messages: ascending(messages),
    }
}

fn ascending<T: Named>(list: List<T>) -> List<T>
    requires { twice_in T.name_of list ≡ [] }
    ensures { result ≡ ascending_by T.name_of list }
{
    let mut items = list.into_items();
    items.sort_unstable_by(|a, b| a.name().cmp(&b.name()));
    List::of(items)
}

fn ordered_lists(alloc: Global, lists: List<CodeList>) -> List<CodeList>
    requires named { twice_in list_name lists ≡ [] }
    requires coded { flat_map (λ list. twice_in value_name list.values) lists ≡ [] }
    ensures { result ≡ map ordered_list (ascending_by list_name lists) }
{
    let mut items = ascending(lists).into_items();
    order_each(alloc, &mut items);
    List::of(items)
}

/// Puts the codes of each list in order.
fn order_each(alloc: Global, lists: &mut [CodeList])
    requires { flat_map (λ list. twice_in value_name list.values) lists.old ≡ [] }
    ensures { lists.new ≡ map ordered_list lists.old }
{
    for list in lists.iter_mut() {
        let values = mem::replace(&mut list.values, List::of(Vec::new(alloc)));
        list.values = ascending(values);
    }
}
