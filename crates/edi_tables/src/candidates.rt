//! The candidates after an entry: where the next segment may be.
ghost use Rattle.std.specs.Iterator.{YieldsFirst, item_count};

use crate::{Node, levels};
use std::marker::Model;

/// The candidates after an entry that are left, in processing order. It takes no memory.
#[derive(Debug, Drop)]
pub struct Candidates<'a> {
    pub(crate) nodes: &'a [Node],
    // The entry itself, until it is given.
    pub(crate) first: Option<u16>,
    pub(crate) at: usize,
    // Where the siblings of the node there end.
    pub(crate) bound: usize,
}

impl<'a> Model for Candidates<'a> {
    ghost use Rattle.std.specs.Prelude.{List, ℕ};
    ghost use Rattle.edi_tables.specs.Places.{IsPlace, candidates_left};

    ghost Value = { List ℕ };

    ghost view = { λ c. candidates_left c.nodes.now c.first c.at };

    ghost invariant = { λ c. IsPlace c.nodes.now c.at c.bound };
}

impl<'a> Iterator for Candidates<'a> {
    type Item = u16;

    ghost next_gives = { YieldsFirst (λ left. left) };

    ghost remaining = { item_count (λ left. left) };

    #[inline]
    fn next(&mut self) -> Option<u16> {
        if let Some(entry) = self.first {
            self.first = None;
            return Some(entry);
        }
        if let Some(sibling) = levels::next_sibling(self.nodes, self.at, self.bound) {
            self.at = usize::from(sibling);
            return Some(levels::entry_for(self.nodes, sibling));
        }
        let group = levels::parent_at(self.nodes, self.at)?;
        self.at = usize::from(group);
        self.bound = levels::level_end(self.nodes, self.at);
        Some(group + 1)
    }
}
