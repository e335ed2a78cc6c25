//! The rows that the table lines of a message file draw.
ghost use Rattle.std.specs.Prelude.{◌≡◌, ◌≤◌, ◌<◌, ◌^◌, ◌∷◌, [], MatchResult, IfOk, IsSome};
ghost use Rattle.edi_octets.specs.Left.{cells_left};
ghost use Rattle.dir_messages.specs.Message as message;
ghost use Rattle.dir_messages.specs.Message.{form_faults, row_tag};

use crate::form::{LineForm, form_of};
use crate::table_line::read_table_line;
use crate::words;
use edi_octets::{Cells, DirKind, DirStop, LineText, is_greater};
use edi_tables::{Chunk, List, MessageDef, RowFault, Table, TableKind, TableRow, Tag};
use std::alloc::{AllocError, Global};

/// The greatest depth that a row holds. A row that is deeper holds this one: any depth over 16 is refused.
const MAX_DEPTH: u64 = 255;

/// What the table lines so far have drawn.
#[derive(Debug, Drop)]
pub(crate) struct Drawing {
    pub rows: Vec<TableRow>,
    /// The line of each row.
    pub row_lines: Vec<u32>,
    /// How many groups have been opened, and how many of these are open.
    pub groups: u64,
    pub open_groups: u64,
    pub last_position: Option<u64>,
    ghost open_within: { open_groups ≤ groups },
}

/// The row of a table line, and how many groups end after it; of a group line, how many `+` it has.
#[derive(Clone, Copy, Debug)]
pub(crate) struct DrawnRow {
    pub row: TableRow,
    pub ends: u64,
}

impl Drawing {
    ghost use Rattle.std.specs.Prelude.{◌≡◌, ◌≤◌, ◌<◌, ◌^◌, ◌++◌, ◌∷◌, [], List, filter, true, MatchOption, MatchResult, IfOk, OnOk, IsSome, unwrap_or, slice_get};
    ghost use Rattle.edi_octets.specs.Lines.{Line};
    ghost use Rattle.edi_octets.specs.Left.{line_shown};
    ghost use Rattle.edi_octets.specs.Profile.{position_of};
    ghost use Rattle.edi_tables.specs.First.{IsVerdict, unless_faulty};
    ghost use Rattle.edi_octets.specs.DirStop.{fault_in};
    ghost use Rattle.dir_messages.specs.Message.{is_table_line, kinds_broken, open_faults, rows_faults, rows_of};
    ghost use Rattle.dir_messages.specs.Drawing.{IsDrawn, DrawsOrStops, FirstOf, DrawsRow, Puts, BeginsWith};

    /// Nothing drawn yet. It takes no memory.
    pub(crate) fn new(alloc: Global) -> Drawing
        ensures { IsDrawn [] result }
    {
        Drawing {
            rows: Vec::new(alloc),
            row_lines: Vec::new(alloc),
            groups: 0,
            open_groups: 0,
            last_position: None,
        }
    }

    /// Judges a line after the type line, and draws it where it is a table line.
    pub(crate) fn judge(&mut self, line: &LineText<'_>) -> Result<(), DirStop>
        requires { self.old.groups < 2 ^ 63 }
        ensures { (earlier : List Line) → IsDrawn (filter is_table_line earlier) self.old
            → DrawsOrStops earlier (line_shown line.now) result self.new }
    {
        if words::type_name(line).is_some() {
            return Err(DirStop::at(line.number, DirKind::BadLine));
        }
        let Some(position) = words::position_of(line) else {
            return Ok(());
        };
        match self.row_of(line, position) {
            Ok(drawn) => {
                self.push(line.number, position, drawn)?;
                Ok(())
            }
            Err(kind) => Err(DirStop::at(line.number, kind)),
        }
    }

    /// The message that is drawn, with the name of its type line, or the first fault after the last line:
    /// groups that are still open, or what the rows break.
    pub(crate) fn finish(
        self,
        alloc: Global,
        name: &[u8],
        type_line: u32,
    ) -> Result<MessageDef, DirStop>
        ensures { (type : Line) (drawn : List Line) → type.number ≡ type_line → IsDrawn drawn self
            → IsVerdict (λ m. m) fault_in result
            (unless_faulty (open_faults drawn ++ rows_faults type drawn)
            (record { name = name.now; rows = rows_of drawn })) }
    {
        if let Some(line) = self.unclosed_line() {
            return Err(DirStop::at(line, DirKind::NotClosed));
        }
        self.judge_rows(type_line)?;
        let name = Chunk::of(alloc, name)?;
        Ok(MessageDef {
            name,
            rows: List::of(self.rows),
        })
    }

    /// The last table line, where groups are still open after it.
    fn unclosed_line(&self) -> Option<u32>
        ensures { (drawn : List Line) → IsDrawn drawn self.now
            → MatchOption result
            (open_faults drawn ≡ [])
            (λ line. open_faults drawn ≡ record { line = line; kind = DirKind.NotClosed } ∷ []) }
    {
        if self.open_groups == 0 {
            return None;
        }
        self.row_lines.last().copied()
    }

    /// Judges the rows as a segment table: the first fault is at its row's line, or at the type line.
    fn judge_rows(&self, type_line: u32) -> Result<(), DirStop>
        ensures { (type : Line) (drawn : List Line) → type.number ≡ type_line
            → IsDrawn drawn self.now → FirstOf result (rows_faults type drawn) }
    {
        match Table::first_fault(&self.rows) {
            None => Ok(()),
            Some(RowFault { at, kind }) => {
                Err(DirStop::at(self.line_of(at, type_line), kind_of(kind)))
            }
        }
    }

    /// The line of a row, or the type line where there is no such row.
    fn line_of(&self, row: u16, type_line: u32) -> u32
        ensures { result ≡ unwrap_or (slice_get self.now.row_lines.items row) type_line }
    {
        match self.row_lines.get(usize::from(row)) {
            Some(line) => *line,
            None => type_line,
        }
    }

    /// The row of a table line after those drawn so far, or the first rule that the line breaks.
    fn row_of(&self, line: &LineText<'_>, position: u64) -> Result<DrawnRow, DirKind>
        requires few { self.now.groups < 2 ^ 63 }
        requires table_line { is_table_line (line_shown line.now) ≡ true }
        requires position { position_of (line_shown line.now) ≡ position }
        ensures closes { IfOk result
            (λ drawn. IsSome drawn.row.tag → drawn.ends ≤ self.now.open_groups) }
        ensures judged { (earlier : List Line) → IsDrawn earlier self.now
            → MatchResult result
            (λ drawn. DrawsRow earlier (line_shown line.now) drawn)
            (λ kind. BeginsWith kind (kinds_broken earlier (line_shown line.now))) }
    {
        let Some(read) = read_table_line(line) else {
            return Err(DirKind::BadLine);
        };
        if !is_greater(self.last_position, position) {
            return Err(DirKind::BadPosition);
        }
        let tag = judge_form(read.middle, read.ends, self.groups, self.open_groups)?;
        Ok(DrawnRow {
            row: TableRow {
                tag,
                must: read.must,
                max: read.max,
                depth: self.open_groups.min(MAX_DEPTH) as u8,
            },
            ends: read.ends,
        })
    }

    /// Puts a row after those drawn so far. Where memory is refused, the drawing is not to be used again.
    fn push(&mut self, number: u32, position: u64, drawn: DrawnRow) -> Result<(), AllocError>
        requires few { self.old.groups < 2 ^ 63 }
        requires ends { IsSome drawn.row.tag → drawn.ends ≤ self.old.open_groups }
        ensures { OnOk result (Puts self.old number position drawn self.new) }
    {
        self.rows.push(drawn.row)?;
        self.row_lines.push(number)?;
        if drawn.row.tag.is_none() {
            self.groups += 1;
            self.open_groups += 1;
        } else {
            self.open_groups -= drawn.ends;
        }
        self.last_position = Some(position);
        Ok(())
    }
}

/// The word for a rule of segment tables.
fn kind_of(kind: TableKind) -> DirKind
    ensures { result ≡ message.kind_of kind }
{
    match kind {
        TableKind::TooMany => DirKind::TooMany,
        TableKind::NoUnhUnt => DirKind::NoUnhUnt,
        TableKind::EnvelopeTag => DirKind::EnvelopeTag,
        TableKind::BadMax => DirKind::BadMax,
        TableKind::BadDepth | TableKind::TooDeep => DirKind::TooDeep,
        TableKind::NoTrigger => DirKind::NoTrigger,
    }
}

/// The tag of the row of a table line, which a group has not; or the rule that the line breaks, with
/// so many ends, after so many groups of which some are open.
fn judge_form(
    middle: Cells<'_>,
    ends: u64,
    groups: u64,
    open_groups: u64,
) -> Result<Option<Tag>, DirKind>
    requires { groups < 2 ^ 63 }
    ensures judged { MatchResult result
        (λ tag. (form_faults (cells_left middle.entry) ends groups open_groups ≡ [])
        × (tag ≡ row_tag (cells_left middle.entry)))
        (λ kind. form_faults (cells_left middle.entry) ends groups open_groups ≡ kind ∷ []) }
    ensures closes { IfOk result (λ tag. IsSome tag → ends ≤ open_groups) }
{
    match form_of(middle) {
        None => Err(DirKind::BadLine),
        Some(LineForm::Group(number)) => {
            if ends == 1 && number == Some(groups + 1) {
                Ok(None)
            } else {
                Err(DirKind::BadGroup)
            }
        }
        Some(LineForm::Segment(tag)) => {
            if ends <= open_groups {
                Ok(Some(tag))
            } else {
                Err(DirKind::CloseWithoutOpen)
            }
        }
    }
}
