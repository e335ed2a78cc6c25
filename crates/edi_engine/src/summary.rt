//! What an acknowledgement tells of a text.
ghost use Rattle.std.specs.Prelude.{◌≡◌, IfOk, IsTrue, filter, slice_get};
ghost use Rattle.contrl_segments.specs.Stamp.{IsStamp, is_reference_of};
ghost use Rattle.dir_compile.specs.Directory.{IsDirectory};
ghost use Rattle.error_ledger.specs.Order.{IsAscending};
ghost use Rattle.seg_lexer.specs.Context.{context_of};
ghost use Rattle.segment_records.specs.Segments.{segments_of_text};
ghost use Rattle.text_reading.specs.Clean.{IsCleanAnswer};
ghost use Rattle.contrl_writer.specs.Needed.{groups_needed, is_touched, needed};
ghost use Rattle.text_reading.specs.Summary.{contrl_to, groups_in, messages_in, opening_in, summary_of};

use crate::errors::list_errors;
use crate::group_heads::groups_of;
use crate::message_heads::{all_messages, messages_of};
use crate::opening::read_opening;
use contrl_writer::{Contrl, GroupHead, MessageHead, Opening, Stamp, Summary, write_contrl};
use edi_tables::List;
use error_ledger::ErrorLine;
use kept_text::KeptText;
use segment_records::is_named;
use std::alloc::{AllocError, Global};

/// How the interchange is opened, its functional groups and messages, and its errors. Only want of memory is an error.
#[tactic(auto, unfolding(text_reading::specs::Summary::summary_of))]
pub(crate) fn make_summary(kept: &KeptText<'_>, alloc: Global) -> Result<Summary, AllocError>
    ensures summary { IfOk result
        (λ summary. summary ≡ summary_of kept.now.directory kept.now.text) }
    ensures lawful { IsDirectory kept.now.directory }
{
    let opening = find_opening(kept, alloc)?;
    let groups = groups_of(kept, alloc)?;
    let messages = all_messages(kept, alloc)?;
    let errors = list_errors(kept, alloc)?;
    Ok(Summary {
        opening,
        groups: List::of(groups),
        messages: List::of(messages),
        errors: List::of(errors),
    })
}

/// The acknowledgement of the text, made at a time, with a reference of its own. Only want of memory is an error.
#[tactic(auto, unfolding(text_reading::specs::Summary::contrl_to))]
pub(crate) fn make_contrl(
    kept: &KeptText<'_>,
    alloc: Global,
    stamp: &Stamp,
    reference: &[u8],
) -> Result<Contrl, AllocError>
    requires stamp { IsStamp stamp.now }
    requires reference { IsTrue (is_reference_of reference.now) }
    ensures answer { IfOk result (λ answer. answer
        ≡ contrl_to kept.now.directory kept.now.text stamp.now reference.now) }
    // Octets that are answered have no error by the directory, where no UNG and no UNH of the text has a local error.
    ensures clean { IfOk result
        (λ answer. IsCleanAnswer kept.now.directory kept.now.text answer) }
{
    let summary = make_needed(kept, alloc)?;
    write_contrl(alloc, &summary, stamp, reference)
}

// What the acknowledgement of the text is made from. A text without errors is acknowledged by its opening alone, and else only
// messages with an error are reported: the values of the others aren't read.
#[tactic(auto, unfolding(text_reading::specs::Summary::summary_of))]
fn make_needed(kept: &KeptText<'_>, alloc: Global) -> Result<Summary, AllocError>
    ensures summary { IfOk result
        (λ summary. summary ≡ needed (summary_of kept.now.directory kept.now.text)) }
    ensures lawful { IsDirectory kept.now.directory }
{
    let opening = find_opening(kept, alloc)?;
    let errors = list_errors(kept, alloc)?;
    let Heads { groups, messages } = heads_needed(kept, alloc, &errors)?;
    Ok(Summary {
        opening,
        groups: List::of(groups),
        messages: List::of(messages),
        errors: List::of(errors),
    })
}

// Functional groups and messages.
struct Heads {
    groups: Vec<GroupHead>,
    messages: Vec<MessageHead>,
}

// The groups of the text and the messages that have one of these errors; none if there is no error.
fn heads_needed(
    kept: &KeptText<'_>,
    alloc: Global,
    errors: &[ErrorLine],
) -> Result<Heads, AllocError>
    requires { IsAscending errors.now }
    ensures groups { IfOk result (λ heads. heads.groups.items
        ≡ groups_needed errors.now (groups_in (segments_of_text kept.now.text))) }
    ensures messages { IfOk result (λ heads. heads.messages.items
        ≡ filter (is_touched errors.now) (messages_in (segments_of_text kept.now.text))) }
{
    if errors.is_empty() {
        return Ok(Heads {
            groups: Vec::new(alloc),
            messages: Vec::new(alloc),
        });
    }
    let groups = groups_of(kept, alloc)?;
    let messages = messages_of(kept, alloc, Some(errors))?;
    Ok(Heads { groups, messages })
}

// What opens the interchange.
fn find_opening(kept: &KeptText<'_>, alloc: Global) -> Result<Opening, AllocError>
    ensures opening { IfOk result (λ opening. opening
        ≡ opening_in kept.now.directory (context_of kept.now.text)
        (slice_get (segments_of_text kept.now.text) 0)) }
    ensures lawful { IsDirectory kept.now.directory }
{
    match kept.segments().next() {
        Some(first) if is_named(b"UNB", first.record.tag()) => {
            read_opening(alloc, &kept.whole(), kept.context(), &first)
        }
        _ => Ok(Opening::NoUnb),
    }
}
