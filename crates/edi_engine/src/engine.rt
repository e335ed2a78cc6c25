//! The engine: a kept text, and what is reported of it.
ghost use Rattle.std.specs.Prelude.{◌≡◌, ◌+◌, ◌++◌, ◌<◌, ◌≤◌, ℕ, List, All, codes, length, IfOk, IsTrue};
ghost use Rattle.std.specs.List.Sorted.{IsPermutation};
ghost use Rattle.contrl_segments.specs.Stamp.{IsStamp, is_reference_of};
ghost use Rattle.dir_compile.specs.Directory.{IsDirectory};
ghost use Rattle.error_ledger.specs.Order.{IsAscending};
ghost use Rattle.error_ledger.specs.Printing.{IsWellPlaced, tree_text};
ghost use Rattle.edi_octets.specs.Decimal.{count_line};
ghost use Rattle.segment_records.specs.Messages.{mode_after};
ghost use Rattle.segment_records.specs.Segments.{segments_of_text};
ghost use Rattle.segment_records.specs.Count.{segment_count_of};
ghost use Rattle.text_reading.specs.Clean.{IsCleanAnswer};
ghost use Rattle.text_reading.specs.Errors.{errors_found, errors_of};
ghost use Rattle.text_reading.specs.Placed.{AreMessagesPlaced};
ghost use Rattle.text_reading.specs.Summary.{contrl_to, summary_of};
ghost use Rattle.text_reading.specs.Tree.{tree_of};
ghost use Rattle.edi_octets.specs.declared.octets.TheConstants.{LONGEST_TEXT};

use crate::errors::list_errors;
use crate::summary::{make_contrl, make_summary};
use crate::tree::{PrintedTree, list_tree, print_tree};
use contrl_writer::{Contrl, Stamp, Summary};
use dir_compile::Directory;
use edi_tables::Chunk;
use error_ledger::{ErrorLine, TreeLine};
use kept_text::KeptText;
use segment_records::Mode;
use std::alloc::{AllocError, Global};
use std::marker::{Brand, Model};
use std::sync::ledger::{Blank, Ledger};
use step_counter::Steps;

/// The reading of a text by a directory, seen as these two.
#[derive(Drop)]
pub struct Engine<'d> {
    pub(crate) kept: KeptText<'d>,
}

impl<'d> Model for Engine<'d> {
    ghost use Rattle.kept_text.specs.Reading.{Reading};

    ghost Value = { Reading };

    ghost view = { λ engine. engine.kept };
}

impl<'d> Engine<'d> {
    /// Reads a text. Each call of the lexer and of the walk is counted. Only want of memory is an error.
    pub fn open<L: Ledger, M: Ledger>(
        alloc: Global,
        directory: &'d Directory,
        octets: &[u8],
        lexed: &mut Steps<L>,
        placed: &mut Steps<M>,
    ) -> Result<Engine<'d>, AllocError>
        requires { length octets.now ≤ LONGEST_TEXT }
        ensures opened { IfOk result
            (λ e. e ≡ record { directory = directory.now; text = octets.now }) }
        ensures lexed { lexed.new ≤ lexed.old + (segment_count_of octets.now + 2) }
        ensures placed { placed.new ≤ placed.old + segment_count_of octets.now }
    {
        Engine::open_vec(alloc, directory, octets.to_vec(alloc)?, lexed, placed)
    }

    /// Reads a text, which it keeps. Each call of the lexer and of the walk is counted. Only want of memory is an error.
    pub fn open_vec<L: Ledger, M: Ledger>(
        alloc: Global,
        directory: &'d Directory,
        octets: Vec<u8>,
        lexed: &mut Steps<L>,
        placed: &mut Steps<M>,
    ) -> Result<Engine<'d>, AllocError>
        requires { length octets.items ≤ LONGEST_TEXT }
        ensures opened { IfOk result
            (λ e. e ≡ record { directory = directory.now; text = octets.items }) }
        ensures lexed { lexed.new ≤ lexed.old + (segment_count_of octets.items + 2) }
        ensures placed { placed.new ≤ placed.old + segment_count_of octets.items }
    {
        let kept = KeptText::read(alloc, directory, octets, lexed, placed)?;
        Ok(Engine { kept })
    }

    /// Reads a text, which it keeps, to be asked and not edited: nothing is counted. Only want of memory is an error.
    pub fn read(
        alloc: Global,
        directory: &'d Directory,
        octets: Vec<u8>,
    ) -> Result<Engine<'d>, AllocError>
        requires { length octets.items ≤ LONGEST_TEXT }
        ensures { IfOk result
            (λ e. e ≡ record { directory = directory.now; text = octets.items }) }
    {
        read_counted::<Brand, Brand>(alloc, directory, octets, Blank::new(1), Blank::new(1))
    }

    /// An engine with the same directory and text, so with the same modes and answers. It shares what the text is kept in:
    /// nothing is read. Only want of memory is an error.
    pub fn share(&self) -> Result<Engine<'d>, AllocError>
        ensures { IfOk result (λ e. e ≡ self.now) }
    {
        let kept = self.kept.share()?;
        Ok(Engine { kept })
    }

    /// The directory that it checks by.
    pub fn directory(&self) -> &'d Directory
        ensures directory { result.now ≡ self.now.directory }
        // The tree of any text by it places the segments of each message as the reading of the message does.
        ensures lawful_trees { (text : List ℕ) → AreMessagesPlaced self.now.directory text }
    {
        self.kept.directory()
    }

    /// How many octets the text has.
    pub fn text_len(&self) -> u64
        ensures length { result ≡ length self.now.text }
        ensures short { result ≤ LONGEST_TEXT }
    {
        self.kept.text_len()
    }

    /// How many segments it has.
    pub fn segment_count(&self) -> u32
        ensures { result ≡ segment_count_of self.now.text }
    {
        self.kept.segment_count()
    }

    /// A copy of the text.
    pub fn copy_text(&self, alloc: Global) -> Result<Chunk, AllocError>
        ensures { IfOk result (λ octets. octets ≡ self.now.text) }
    {
        self.kept.copy_text(alloc)
    }

    /// The mode after the first `k` segments.
    pub fn state_after(&self, k: u32) -> &Mode
        requires { k ≤ segment_count_of self.now.text }
        ensures { result.now ≡ mode_after self.now.directory (segments_of_text self.now.text) k }
    {
        self.kept.state_after(k)
    }

    /// All errors of the text, in ascending order. Only want of memory is an error. The work grows with the notable segments:
    /// those with an error, and those that open, close or stop a message or a functional group.
    pub fn errors(&self, alloc: Global) -> Result<Vec<ErrorLine>, AllocError>
        ensures exact { IfOk result
            (λ list. list.items ≡ errors_of self.now.directory self.now.text) }
        ensures ascending { IfOk result (λ list. IsAscending list.items) }
        ensures same { IfOk result
            (λ list. IsPermutation (errors_found self.now.directory self.now.text) list.items) }
    {
        list_errors(&self.kept, alloc)
    }

    /// The tree of the text: one member for each segment. Only want of memory is an error. The work grows with the number of
    /// segments and the nodes of the directory's tables.
    pub fn tree(&self, alloc: Global) -> Result<Vec<TreeLine>, AllocError>
        ensures exact { IfOk result
            (λ tree. tree.items ≡ tree_of self.now.directory self.now.text) }
        ensures well { IfOk result (λ tree. All IsWellPlaced tree.items) }
        // A segment with no error of its own placement is at the first candidate that is free; where the table lists no
        // collision, a derivation of a message's tags is what the tree shows.
        ensures placed { AreMessagesPlaced self.now.directory self.now.text }
    {
        list_tree(&self.kept, alloc)
    }

    /// The printed tree of the text: that of `tree`, with no list of its members. Only want of memory is an error. The work
    /// grows with the number of segments, the nodes of the directory's tables and the octets that are printed.
    pub fn print_tree(&self, alloc: Global) -> Result<PrintedTree, AllocError>
        ensures printed { IfOk result (λ tree. count_line (codes "tree") tree.lines ++ tree.text
            ≡ tree_text (tree_of self.now.directory self.now.text)) }
        // What it shows of messages is what `tree` does.
        ensures placed { AreMessagesPlaced self.now.directory self.now.text }
    {
        print_tree(&self.kept, alloc)
    }

    /// How the interchange is opened, its functional groups and messages, and its errors. Only want of memory is an error. The
    /// work grows with the notable segments, as that of `errors`.
    pub fn summary(&self, alloc: Global) -> Result<Summary, AllocError>
        ensures summary { IfOk result
            (λ summary. summary ≡ summary_of self.now.directory self.now.text) }
        ensures lawful { IsDirectory self.now.directory }
    {
        make_summary(&self.kept, alloc)
    }

    /// The acknowledgement of the text, made at a time, with a reference of its own. Only want of memory is an error. The work
    /// grows with the notable segments, as that of `errors`.
    pub fn contrl(
        &self,
        alloc: Global,
        stamp: &Stamp,
        reference: &[u8],
    ) -> Result<Contrl, AllocError>
        requires stamp { IsStamp stamp.now }
        requires reference { IsTrue (is_reference_of reference.now) }
        ensures answer { IfOk result (λ answer. answer
            ≡ contrl_to self.now.directory self.now.text stamp.now reference.now) }
        // Octets that are answered have no error by the directory, where no UNG and no UNH of the text has a local error.
        ensures clean { IfOk result
            (λ answer. IsCleanAnswer self.now.directory self.now.text answer) }
    {
        make_contrl(&self.kept, alloc, stamp, reference)
    }
}

// Reads a text, with counters of its own.
fn read_counted<'d, L: Ledger, M: Ledger>(
    alloc: Global,
    directory: &'d Directory,
    octets: Vec<u8>,
    lexing: Blank,
    placing: Blank,
) -> Result<Engine<'d>, AllocError>
    requires short { length octets.items ≤ LONGEST_TEXT }
    requires lexing_name { lexing.name ≡ L.name }
    requires lexing_parts { lexing.parts ≡ L.parts }
    requires lexing_some { 0 < lexing.parts }
    requires placing_name { placing.name ≡ M.name }
    requires placing_parts { placing.parts ≡ M.parts }
    requires placing_some { 0 < placing.parts }
    ensures { IfOk result (λ e. e ≡ record { directory = directory.now; text = octets.items }) }
{
    let mut lexed = Steps::<L>::start(lexing);
    let mut placed = Steps::<M>::start(placing);
    Engine::open_vec(alloc, directory, octets, &mut lexed, &mut placed)
}
