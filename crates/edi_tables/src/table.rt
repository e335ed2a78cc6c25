//! Segment tables.
ghost use Rattle.std.specs.Prelude.{◌≡◌, ◌<◌, ◌≤◌, Some, All, AllPairs, nat_eq, length, slice_get};
ghost use Rattle.std.specs.List.{find, list_any};

use crate::{Candidates, Groups, LaterSiblings, Missing, TableRow, Tag, build, levels};
use std::alloc::{AllocError, Global};
use std::marker::Model;
use thiserror::Error;

/// A node of a segment table: a segment with its tag, or a group, which has none. Nodes are numbered from 0.
///
/// `parent` is the group that holds the node, and `end` is one past its last descendant.
#[derive(Clone, Copy, Debug, PartialEq, Eq)]
pub struct Node {
    pub tag: Option<Tag>,
    pub must: bool,
    pub max: u32,
    pub parent: Option<u16>,
    pub end: u16,
}

/// The rule that rows of a segment table break.
#[derive(Clone, Copy, Debug, PartialEq, Eq)]
pub enum TableKind {
    TooMany,
    NoUnhUnt,
    EnvelopeTag,
    BadMax,
    BadDepth,
    TooDeep,
    NoTrigger,
}

/// The first row, from 0, that breaks a rule of segment tables, and the first rule that it breaks.
///
/// Where there are more than 2,000 rows it is the one that follows 2,000 others, and where there are none, it is 0.
#[derive(Clone, Copy, Debug, PartialEq, Eq)]
pub struct RowFault {
    pub at: u16,
    pub kind: TableKind,
}

/// Why rows are no segment table: their first fault, or no memory for the nodes.
#[derive(Debug, Drop, Error)]
pub enum TableStop {
    #[error("the rows are no segment table")]
    Fault { at: u16, kind: TableKind },
    #[error("out of memory")]
    Memory,
}

impl From<AllocError> for TableStop {
    ghost use Rattle.std.specs.Prelude.{◌≡◌};
    ghost use Rattle.edi_tables.specs.declared.table.TableStop.TheVariants.{Memory};

    ghost from_gives = { λ _ e. e ≡ Memory };

    fn from(_: AllocError) -> TableStop {
        TableStop::Memory
    }
}

/// A segment table, seen as its list of nodes: those of rows that break no rule.
#[derive(Debug, Drop)]
pub struct Table {
    nodes: Vec<Node>,
}

impl Model for Table {
    ghost use Rattle.std.specs.Prelude.{List};
    ghost use Rattle.edi_tables.specs.declared.table.Node.{Node};
    ghost use Rattle.edi_tables.specs.Rows.{IsTable};

    ghost Value = { List Node };

    ghost view = { λ t. t.nodes.items };

    ghost invariant = { λ t. IsTable t.nodes.items };
}

impl Table {
    ghost use Rattle.edi_tables.specs.First.{IsVerdict};
    ghost use Rattle.edi_tables.specs.Rows.{IsTable, fault_in, nodes_of, table_faults, table_of};
    ghost use Rattle.std.specs.Prelude.{[], IfOk};

    /// The first fault of these rows, if they are no segment table. It takes no memory.
    pub fn first_fault(rows: &[TableRow]) -> Option<RowFault>
        ensures { result ≡ slice_get (table_faults rows.now) 0 }
    {
        build::first_fault(rows)
    }

    /// The table of these rows where they break no rule, else their first fault.
    pub fn build(alloc: Global, rows: &[TableRow]) -> Result<Table, TableStop>
        ensures { IsVerdict (λ table. table) fault_in result (table_of rows.now) }
    {
        if let Some(RowFault { at, kind }) = build::first_fault(rows) {
            return Err(TableStop::Fault { at, kind });
        }
        Ok(Table {
            nodes: build::nodes_of(alloc, rows)?,
        })
    }

    /// The table of rows that are known to break no rule, and so aren't judged.
    pub fn of(alloc: Global, rows: &[TableRow]) -> Result<Table, AllocError>
        requires { table_faults rows.now ≡ [] }
        ensures { IfOk result (λ table. table ≡ nodes_of rows.now) }
    {
        Ok(Table {
            nodes: build::nodes_of(alloc, rows)?,
        })
    }

    /// How many nodes it has: from 2 to 2,000.
    #[inline]
    pub fn len(&self) -> usize
        ensures value { result ≡ length self.now }
        ensures some { 2 ≤ result }
        ensures small { result ≤ 2000 }
        ensures lawful { IsTable self.now }
    {
        self.nodes.len()
    }

    /// The node with this number.
    #[inline]
    pub fn node(&self, i: usize) -> &Node
        requires { i < length self.now }
        ensures { slice_get self.now i ≡ Some result.now }
    {
        &self.nodes[i]
    }

    /// All its nodes.
    pub fn nodes(&self) -> &[Node]
        ensures value { result.now ≡ self.now }
        ensures lawful { IsTable self.now }
    {
        &self.nodes
    }

    ghost use Rattle.edi_tables.specs.Walk.{
      parent_at,
      is_group_at,
      is_must_at,
      is_trigger_at,
      is_repeat,
      reached_node,
      groups_round,
      later_siblings,
      later_nodes,
      candidates_of,
      missing_between,
      missing_past,
    };
    ghost use Rattle.edi_tables.specs.Filled.{is_filled};

    /// The group that holds a node; none where it is outside all groups.
    #[inline]
    pub fn parent(&self, i: usize) -> Option<u16>
        requires { i < length self.now }
        ensures value { result ≡ parent_at self.now i }
        ensures lawful { IsTable self.now }
    {
        levels::parent_at(&self.nodes, i)
    }

    /// Whether a node is a group.
    #[inline]
    pub fn is_group(&self, i: usize) -> bool
        requires { i < length self.now }
        ensures { result ≡ is_group_at self.now i }
    {
        levels::is_group_at(&self.nodes, i)
    }

    /// Whether a node is the trigger of the group that holds it.
    #[inline]
    pub fn is_trigger(&self, i: usize) -> bool
        requires { i < length self.now }
        ensures { result ≡ is_trigger_at self.now i }
    {
        match self.parent(i) {
            Some(group) => usize::from(group) + 1 == i,
            None => false,
        }
    }

    /// The groups round a node, innermost first.
    pub fn groups_round(&self, i: usize) -> Groups<'_>
        requires { i < length self.now }
        ensures value { result ≡ groups_round self.now i }
        ensures within { All (λ g. g < length self.now) result }
    {
        Groups {
            nodes: &self.nodes,
            at: i,
        }
    }

    /// The later siblings of a node, ascending.
    pub fn later_siblings(&self, i: usize) -> LaterSiblings<'_>
        requires { i < length self.now }
        ensures value { result ≡ later_siblings self.now i }
        ensures within { All (λ j. j < length self.now) result }
    {
        LaterSiblings {
            nodes: &self.nodes,
            at: i,
            bound: levels::level_end(&self.nodes, i),
        }
    }

    /// The candidates after an entry, in processing order: itself unless it is a trigger, then level by level outwards.
    pub fn candidates(&self, entry: u16) -> Candidates<'_>
        requires { entry < length self.now }
        ensures value { result ≡ candidates_of self.now entry }
        ensures within { All (λ c. c < length self.now) result }
        // So once a candidate misses a node, each later one does.
        ensures rising { AllPairs
            (λ c d. reached_node self.now entry c ≤ reached_node self.now entry d)
            result }
    {
        let at = usize::from(entry);
        let first = if self.is_trigger(at) {
            None
        } else {
            Some(entry)
        };
        Candidates {
            nodes: &self.nodes,
            first,
            at,
            bound: levels::level_end(&self.nodes, at),
        }
    }

    /// The first mandatory node after an entry, on its own level or on one that is left later.
    pub fn first_must_after(&self, entry: u16) -> Option<u16>
        requires { entry < length self.now }
        ensures { result ≡ find (is_must_at self.now) (later_nodes self.now entry) }
    {
        self.missing_past(entry).next()
    }

    /// Whether a group is one of those round a node.
    #[inline]
    pub fn is_round(&self, i: u16, group: u16) -> bool
        requires within { i < length self.now }
        requires group { group < length self.now }
        ensures { result ≡ list_any (nat_eq group) (groups_round self.now i) }
    {
        group < i && i < levels::end_at(&self.nodes, usize::from(group))
    }

    /// Whether going from an entry to a candidate repeats a group: the candidate is the trigger of a group round the entry.
    #[inline]
    pub fn is_repeat(&self, entry: u16, candidate: u16) -> bool
        requires within { entry < length self.now }
        requires candidate { candidate < length self.now }
        ensures { result ≡ is_repeat self.now entry candidate }
    {
        let nodes = self.nodes.as_slice();
        if candidate > entry {
            return false;
        }
        match levels::parent_at(nodes, usize::from(candidate)) {
            Some(group) => group + 1 == candidate && self.is_round(entry, group),
            None => false,
        }
    }

    /// The node that going from an entry to a candidate reaches: no node from there on is passed.
    ///
    /// A repeated group is passed to its end, and the entry itself passes none.
    #[inline]
    pub fn reached(&self, entry: u16, candidate: u16) -> u16
        requires within { entry < length self.now }
        requires candidate { candidate < length self.now }
        ensures { result ≡ reached_node self.now entry candidate }
    {
        if self.is_repeat(entry, candidate) {
            levels::end_at(&self.nodes, usize::from(candidate - 1))
        } else if candidate == entry {
            0
        } else if self.is_trigger(usize::from(candidate)) {
            candidate - 1
        } else {
            candidate
        }
    }

    /// Whether going from an entry to a candidate passes a mandatory node, by the first one after the entry.
    #[inline]
    pub fn misses(&self, entry: u16, first_must: Option<u16>, candidate: u16) -> bool
        requires within { entry < length self.now }
        requires candidate { candidate < length self.now }
        requires must { first_must ≡ find (is_must_at self.now) (later_nodes self.now entry) }
        ensures { result ≡ is_filled (missing_between self.now entry candidate) }
    {
        match first_must {
            Some(must) => must < self.reached(entry, candidate),
            None => false,
        }
    }

    /// The mandatory nodes that going from an entry to a candidate passes, ascending.
    pub fn missing(&self, entry: u16, candidate: u16) -> Missing<'_>
        requires within { entry < length self.now }
        requires candidate { candidate < length self.now }
        ensures { result ≡ missing_between self.now entry candidate }
    {
        let at = usize::from(entry);
        Missing {
            nodes: &self.nodes,
            at,
            bound: levels::level_end(&self.nodes, at),
            reached: usize::from(self.reached(entry, candidate)),
        }
    }

    /// The mandatory nodes that going from an entry past the table's end passes, ascending.
    pub fn missing_past(&self, entry: u16) -> Missing<'_>
        requires { entry < length self.now }
        ensures { result ≡ missing_past self.now entry }
    {
        let at = usize::from(entry);
        Missing {
            nodes: &self.nodes,
            at,
            bound: levels::level_end(&self.nodes, at),
            reached: self.nodes.len(),
        }
    }
}
