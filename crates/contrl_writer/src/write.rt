//! The acknowledgement of a summary.
ghost use Rattle.std.specs.Prelude.{◌≡◌, ◌++◌, IsTrue, IfOk, OnOk};
ghost use Rattle.std.specs.Option.{option_copied};
ghost use Rattle.contrl_writer.specs.Contrl.{answer_to, contrl_of, interchange_answer, lower_segments, message_of};
ghost use Rattle.contrl_segments.specs.Service.{uci};
ghost use Rattle.contrl_writer.specs.Levels.{first_error, interchange_errors, levelled};
ghost use Rattle.contrl_writer.specs.Lower.{segments_below, with_segments};
ghost use Rattle.contrl_writer.specs.ReadBack.{IsReadBack};
ghost use Rattle.contrl_segments.specs.Stamp.{IsStamp, is_reference_of};
ghost use Rattle.contrl_segments.specs.Written.{contrl_text};

use crate::answer::Contrl;
use crate::errors::{LevelledErrors, first_told};
use crate::groups::put_lower;
use crate::level::ErrorLevel;
use crate::lower::Lower;
use contrl_segments::{
    Opening, Party, Stamp, Summary, put_uci, put_unb, put_unh, put_unt, put_unz,
};
use edi_tables::Chunk;
use error_ledger::ErrorLine;
use std::alloc::{AllocError, Global};

/// The acknowledgement of an interchange with this summary, made at a time, with a reference of its own: the octets of
/// an interchange of one CONTRL message, in default service characters, without service string advice and line ends.
/// Where the interchange has no UNB, or a bad one, nobody can be answered. Only want of memory is an error.
pub fn write_contrl(
    alloc: Global,
    summary: &Summary,
    stamp: &Stamp,
    reference: &[u8],
) -> Result<Contrl, AllocError>
    requires stamp { IsStamp stamp.now }
    requires reference { IsTrue (is_reference_of reference.now) }
    ensures answer { IfOk result (λ a. a ≡ answer_to summary.now stamp.now reference.now) }
    ensures read_back { IfOk result
        (λ a. IsReadBack (contrl_of summary.now stamp.now reference.now) a) }
{
    match &summary.opening {
        Opening::NoUnb => Ok(Contrl::NoUnb),
        Opening::BadUnb => Ok(Contrl::BadUnb),
        Opening::Good {
            level,
            version,
            sender,
            recipient,
            reference: answered,
        } => {
            let mut out = Chunk::empty(alloc);
            put_unb(
                &mut out, *level, *version, sender, recipient, stamp, reference,
            )?;
            let mut out = put_message(alloc, out, summary, sender, recipient, answered.octets())?;
            put_unz(&mut out, reference)?;
            Ok(Contrl::Octets(out))
        }
    }
}

// The text with the message at its end that answers an interchange with these parties and this reference.
fn put_message(
    alloc: Global,
    text: Chunk,
    summary: &Summary,
    sender: &Party,
    recipient: &Party,
    reference: &[u8],
) -> Result<Chunk, AllocError>
    ensures { IfOk result (λ t. t ≡ text ++ contrl_text (message_of
        (interchange_answer (uci sender.now recipient.now reference.now)
        (first_error (interchange_errors (levelled summary.now)))
        (lower_segments (levelled summary.now) summary.now.messages summary.now.groups)))) }
{
    let errors = LevelledErrors::of(alloc, summary)?;
    let error = first_told(errors.items(), ErrorLevel::Interchange);
    let mut text = text;
    put_unh(&mut text)?;
    put_uci(&mut text, sender, recipient, reference, error)?;
    let mut lower = Lower::after(text);
    put_below(alloc, &mut lower, &errors, summary, error)?;
    let count = lower.count();
    let mut text = lower.into_text();
    put_unt(&mut text, count + 3)?;
    Ok(text)
}

// Puts what is reported below an interchange, which is nothing where it is rejected for an error.
fn put_below(
    alloc: Global,
    out: &mut Lower,
    errors: &LevelledErrors,
    summary: &Summary,
    error: Option<&ErrorLine>,
) -> Result<(), AllocError>
    ensures { OnOk result
        (out.new ≡ with_segments out.old
        (segments_below (option_copied error.entry)
        (lower_segments errors.now summary.now.messages summary.now.groups))) }
{
    if error.is_some() {
        return Ok(());
    }
    put_lower(
        alloc,
        out,
        errors,
        summary.groups.items(),
        summary.messages.items(),
    )
}
