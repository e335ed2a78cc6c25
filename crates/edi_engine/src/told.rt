//! What the segments of a text tell, one after the other: their lines in the tree, their errors, and the heads among them.
ghost use Rattle.std.specs.Prelude.{◌≡◌, ◌+◌, ◌++◌, ◌<◌, ◌^◌, ℕ, List, [], codes, length, map, IfOk, OnOk};
ghost use Rattle.std.specs.Bool.{OnTrue};
ghost use Rattle.std.specs.List.{cons_option};
ghost use Rattle.dir_compile.specs.Directory.{IsDirectory, tables_of};
ghost use Rattle.error_ledger.specs.Printing.{ended_lines, tree_lines};
ghost use Rattle.seg_lexer.specs.declared.service.Service as service;
ghost use Rattle.segment_records.specs.Groups.{numbers_in};
ghost use Rattle.segment_records.specs.Line.{lines_seen};
ghost use Rattle.segment_records.specs.Look.{seen_of};
ghost use Rattle.segment_records.specs.Notable.{is_notable as is_notable_seen};
ghost use Rattle.segment_records.specs.Told.{KeepsValues, head_when, line_in_tree};
ghost use Rattle.segment_records.specs.WalkedSegments.{Follows};

use crate::errors::put_local;
use crate::heads::{OwnedHead, copy_head};
use crate::structure::{ends_before, put_structure};
use crate::tree::line_of;
use dir_compile::Directory;
use edi_octets::Numeral;
use edi_tables::{Chunk, List};
use error_ledger::{ErrorLine, put_tree_line};
use segment_records::WalkedSegment;
use std::alloc::{AllocError, Global};

/// The lines of a printed tree, each ended by LF, and how many these are: none, if it isn't wanted. The numeral is that of the
/// segment before.
#[derive(Drop)]
pub(crate) struct ToldTree {
    pub(crate) wanted: bool,
    pub(crate) text: Chunk,
    pub(crate) lines: usize,
    pub(crate) numeral: Numeral,
}

/// The errors of segments by themselves and by their messages, and the heads among them.
#[derive(Drop)]
pub(crate) struct ToldErrors {
    pub(crate) lines: Vec<ErrorLine>,
    pub(crate) heads: Vec<OwnedHead>,
}

impl ToldTree {
    /// Puts the lines of the next segment in the tree, if it is wanted. `numbers` are those that `number_groups` gives of the directory. Only want
    /// of memory is an error.
    #[inline(always)]
    pub(crate) fn tell(
        &mut self,
        directory: &Directory,
        numbers: &[List<u16>],
        seen: &WalkedSegment<'_>,
    ) -> Result<(), AllocError>
        requires lawful { IsDirectory directory.now }
        requires follows { Follows directory.now (seen_of seen.now) }
        requires numbers { numbers.now ≡ map numbers_in (tables_of directory.now) }
        requires few { OnTrue self.old.wanted (self.old.lines
            + length (tree_lines (line_in_tree directory.now (seen_of seen.now))) < 2 ^ 64) }
        ensures wanted { self.new.wanted ≡ self.old.wanted }
        ensures text { OnOk result (OnTrue self.old.wanted (self.new.text ≡ self.old.text
            ++ ended_lines (tree_lines (line_in_tree directory.now (seen_of seen.now))))) }
        ensures lines { OnOk result (OnTrue self.old.wanted (self.new.lines ≡ self.old.lines
            + length (tree_lines (line_in_tree directory.now (seen_of seen.now))))) }
    {
        if !self.wanted {
            return Ok(());
        }
        let line = line_of(directory, numbers, seen);
        self.lines += put_tree_line(&mut self.text, &mut self.numeral, &line)?;
        Ok(())
    }
}

impl ToldErrors {
    /// Puts the errors of the next segment, and the segment itself, if it is a head. Only want of memory is an error.
    #[inline(always)]
    pub(crate) fn tell(
        &mut self,
        alloc: Global,
        directory: &Directory,
        seen: &WalkedSegment<'_>,
    ) -> Result<(), AllocError>
        requires { Follows directory.now (seen_of seen.now) }
        ensures lines { OnOk result (self.new.lines.items
            ≡ self.old.lines.items ++ lines_seen directory.now (seen_of seen.now)) }
        ensures heads { (service : service.Service) (text : List ℕ)
            → KeepsValues service text (seen_of seen.now)
            → OnOk result (self.new.heads.items ≡ self.old.heads.items
            ++ cons_option (head_when service text (seen_of seen.now)) []) }
    {
        // Most segments aren't notable, and nothing is to be said of these.
        if !is_notable(seen) {
            return Ok(());
        }
        self.tell_notable(alloc, directory, seen)
    }

    // The same of a segment that may be notable.
    #[inline(never)]
    fn tell_notable(
        &mut self,
        alloc: Global,
        directory: &Directory,
        seen: &WalkedSegment<'_>,
    ) -> Result<(), AllocError>
        requires { Follows directory.now (seen_of seen.now) }
        ensures lines { OnOk result (self.new.lines.items
            ≡ self.old.lines.items ++ lines_seen directory.now (seen_of seen.now)) }
        ensures heads { (service : service.Service) (text : List ℕ)
            → KeepsValues service text (seen_of seen.now)
            → OnOk result (self.new.heads.items ≡ self.old.heads.items
            ++ cons_option (head_when service text (seen_of seen.now)) []) }
    {
        put_structure(alloc, directory, seen, &mut self.lines)?;
        put_local(seen, &mut self.lines)?;
        if let Some(head) = copy_head(alloc, seen)? {
            self.heads.push(head)?;
        }
        Ok(())
    }
}

// Whether a segment is notable.
#[inline(always)]
fn is_notable(seen: &WalkedSegment<'_>) -> bool
    ensures { result ≡ is_notable_seen (seen_of seen.now) }
{
    seen.record.is_marked() || ends_before(seen.next)
}
