//! The mandatory nodes that going from an entry to a candidate passes.
ghost use Rattle.std.specs.Iterator.{YieldsFirst, item_count};

use crate::{Node, levels};
use std::marker::Model;

/// The mandatory nodes that are passed and left, ascending. It takes no memory.
#[derive(Debug, Drop)]
pub struct Missing<'a> {
    pub(crate) nodes: &'a [Node],
    pub(crate) at: usize,
    // Where the siblings of the node there end.
    pub(crate) bound: usize,
    // The node that is reached: no node from there on is passed.
    pub(crate) reached: usize,
}

impl<'a> Model for Missing<'a> {
    ghost use Rattle.std.specs.Prelude.{List, ℕ};
    ghost use Rattle.edi_tables.specs.Places.{IsPlace, musts_left};

    ghost Value = { List ℕ };

    ghost view = { λ m. musts_left m.nodes.now m.reached m.at };

    ghost invariant = { λ m. IsPlace m.nodes.now m.at m.bound };
}

impl<'a> Iterator for Missing<'a> {
    type Item = u16;

    ghost next_gives = { YieldsFirst (λ left. left) };

    ghost remaining = { item_count (λ left. left) };

    #[inline]
    fn next(&mut self) -> Option<u16> {
        while self.at < self.reached {
            if let Some(sibling) = levels::next_sibling(self.nodes, self.at, self.bound) {
                self.at = usize::from(sibling);
                if levels::is_must_at(self.nodes, self.at) && self.at < self.reached {
                    return Some(sibling);
                }
            } else {
                let group = levels::parent_at(self.nodes, self.at)?;
                self.at = usize::from(group);
                self.bound = levels::level_end(self.nodes, self.at);
            }
        }
        None
    }
}
