//! The lines of a guide.
ghost use Rattle.std.specs.Prelude.{◌≡◌, ◌==◌, ◌&&◌, true, not, IfSome};
ghost use Rattle.std.specs.Option.{option_map};
ghost use Rattle.edi_tables.specs.Forms.{is_code_value as is_code_value_of};
ghost use Rattle.std.specs.List.{list_all};
ghost use Rattle.edi_octets.specs.Lines.{cells_of};
ghost use Rattle.guide_overlay.specs.Fitting.{node_in};
ghost use Rattle.guide_overlay.specs.Guide.{is_named, is_same_topic, line_in, line_of_four, line_of_three, line_of_two, topic_named, topic_of};
ghost use Rattle.guide_overlay.specs.Kept.{detail_seen, is_line_named, line_seen};

use edi_octets::{
    Cells, is_composite_code, is_element_code, is_message_name, read_decimal, read_status,
};
use edi_tables::is_tag;

/// What a head is of.
#[derive(Clone, Copy, Debug, PartialEq, Eq)]
pub(crate) enum Topic {
    OfTable,
    OfSegment,
    OfComposite,
    OfCodes,
}

/// What a line says under a head: a node that is dropped, or kept with a status and a greatest count; an item with a
/// status and a greatest number of repetitions; a part with a status; or a value that is kept.
#[derive(Clone, Copy, Debug)]
pub(crate) enum DetailText<'a> {
    Dropped { node: u64 },
    Kept { node: u64, must: bool, max: u64 },
    Item { item: u64, must: bool, reps: u64 },
    Part { part: u64, must: bool },
    Value { value: &'a [u8] },
}

/// A line of a guide: a head, or a detail.
#[derive(Clone, Copy, Debug)]
pub(crate) enum LineRead<'a> {
    Head { topic: Topic, name: &'a [u8] },
    Under { detail: DetailText<'a> },
}

/// The line that the cells of these octets are, if they are one.
pub(crate) fn read_line(octets: &[u8]) -> Option<LineRead<'_>>
    ensures line { option_map line_seen result ≡ line_in (cells_of octets.now) }
    ensures named { IfSome result (λ line. is_line_named (line_seen line) ≡ true) }
{
    let mut cells = Cells::of(octets);
    let (Some(first), Some(second)) = (cells.next(), cells.next()) else {
        return None;
    };
    let Some(third) = cells.next() else {
        return read_two(first, second);
    };
    let Some(fourth) = cells.next() else {
        return read_three(first, second, third);
    };
    match cells.next() {
        None => read_four(first, second, third, fourth),
        Some(_) => None,
    }
}

// The line of two cells: a value that is kept, or a head.
fn read_two<'a>(word: &[u8], cell: &'a [u8]) -> Option<LineRead<'a>>
    ensures line { option_map line_seen result ≡ line_of_two word.now cell.now }
    ensures named { IfSome result (λ line. is_line_named (line_seen line) ≡ true) }
{
    if word == b"keep".as_slice() {
        return if is_code_value(cell) {
            Some(LineRead::Under {
                detail: DetailText::Value { value: cell },
            })
        } else {
            None
        };
    }
    let topic = read_topic(word)?;
    if topic.has_name(cell) {
        Some(LineRead::Head { topic, name: cell })
    } else {
        None
    }
}

// The line of three cells: a node that is dropped, or a part.
fn read_three<'a>(word: &[u8], number: &[u8], cell: &[u8]) -> Option<LineRead<'a>>
    ensures line { option_map line_seen result ≡ line_of_three word.now number.now cell.now }
    ensures named { IfSome result (λ line. is_line_named (line_seen line) ≡ true) }
{
    if word == b"node".as_slice() {
        if cell != b"drop".as_slice() {
            return None;
        }
        let node = read_decimal(number)?;
        return Some(LineRead::Under {
            detail: DetailText::Dropped { node },
        });
    }
    if word != b"part".as_slice() {
        return None;
    }
    let part = read_decimal(number)?;
    let must = read_status(cell)?;
    Some(LineRead::Under {
        detail: DetailText::Part { part, must },
    })
}

// The line of four cells: a node that is kept, or an item.
fn read_four<'a>(word: &[u8], number: &[u8], status: &[u8], most: &[u8]) -> Option<LineRead<'a>>
    ensures line { option_map line_seen result
        ≡ line_of_four word.now number.now status.now most.now }
    ensures named { IfSome result (λ line. is_line_named (line_seen line) ≡ true) }
{
    if word == b"node".as_slice() {
        let node = read_decimal(number)?;
        let must = read_status(status)?;
        let max = read_decimal(most)?;
        return Some(LineRead::Under {
            detail: DetailText::Kept { node, must, max },
        });
    }
    if word != b"item".as_slice() {
        return None;
    }
    let item = read_decimal(number)?;
    let must = read_status(status)?;
    let reps = read_decimal(most)?;
    Some(LineRead::Under {
        detail: DetailText::Item { item, must, reps },
    })
}

// The topic that a word names.
fn read_topic(word: &[u8]) -> Option<Topic>
    ensures { result ≡ topic_named word.now }
{
    if word == b"table".as_slice() {
        Some(Topic::OfTable)
    } else if word == b"segment".as_slice() {
        Some(Topic::OfSegment)
    } else if word == b"composite".as_slice() {
        Some(Topic::OfComposite)
    } else if word == b"codes".as_slice() {
        Some(Topic::OfCodes)
    } else {
        None
    }
}

impl DetailText<'_> {
    /// Whether it comes under a head of that topic.
    pub(crate) fn is_under(self, topic: Topic) -> bool
        ensures { result ≡ is_same_topic topic (topic_of (detail_seen self.entry)) }
    {
        match topic {
            Topic::OfTable => matches!(self, DetailText::Dropped { .. } | DetailText::Kept { .. }),
            Topic::OfSegment => matches!(self, DetailText::Item { .. }),
            Topic::OfComposite => matches!(self, DetailText::Part { .. }),
            Topic::OfCodes => matches!(self, DetailText::Value { .. }),
        }
    }

    /// The node that it is of, if it is of one.
    pub(crate) fn node(self) -> Option<u64>
        ensures { result ≡ node_in (detail_seen self.entry) }
    {
        match self {
            DetailText::Dropped { node } | DetailText::Kept { node, .. } => Some(node),
            _ => None,
        }
    }
}

impl Topic {
    // Whether a name has the form of its names.
    fn has_name(self, name: &[u8]) -> bool
        ensures { result ≡ is_named self name.now }
    {
        match self {
            Topic::OfTable => is_message_name(name),
            Topic::OfSegment => is_tag(name),
            Topic::OfComposite => is_composite_code(name),
            Topic::OfCodes => is_element_code(name),
        }
    }
}

// The most octets of a code value.
const MOST_OCTETS: usize = 35;

// Whether a cell is a code value: 1 to 35 octets, none of them a space or LF.
fn is_code_value(cell: &[u8]) -> bool
    ensures { result ≡ is_code_value_of cell.now }
{
    1 <= cell.len() && cell.len() <= MOST_OCTETS && is_plain(cell)
}

fn is_plain(cell: &[u8]) -> bool
    ensures { result ≡ list_all (λ x. not (x == 32) && not (x == 10)) cell.now }
{
    cell.iter().all(|octet| *octet != b' ' && *octet != b'\n')
}
