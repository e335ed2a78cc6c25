//! What is reported below an interchange that is acknowledged: the answers to groups, and the reports of messages.
ghost use Rattle.std.specs.Prelude.{◌≡◌, ◌∷◌, [], OnOk, map};
ghost use Rattle.std.specs.List.{list_any};
ghost use Rattle.std.specs.Option.{option_copied};
ghost use Rattle.contrl_writer.specs.Contrl.{group_answer, lower_segments, report_where, reports_of};
ghost use Rattle.contrl_segments.specs.Service.{ucf};
ghost use Rattle.contrl_segments.specs.Lent.{action_for};
ghost use Rattle.contrl_writer.specs.Levels.{first_error, group_errors, message_errors};
ghost use Rattle.contrl_writer.specs.Lower.{has_told, with_segments};

use crate::errors::{LevelledErrors, first_told};
use crate::level::ErrorLevel;
use crate::lower::Lower;
use crate::members::{Member, Members};
use crate::report::put_report;
use contrl_segments::WrittenValue::Octets;
use contrl_segments::{GroupHead, MessageHead, group_party};
use edi_tables::Tag;
use error_ledger::ErrorLine;
use std::alloc::{AllocError, Global};

const UCF: Tag = Tag { octets: *b"UCF" };

/// Puts all that is reported below an interchange that is acknowledged, as far as it is put.
pub(crate) fn put_lower(
    alloc: Global,
    out: &mut Lower,
    errors: &LevelledErrors,
    groups: &[GroupHead],
    messages: &[MessageHead],
) -> Result<(), AllocError>
    ensures { OnOk result
        (out.new ≡ with_segments out.old (lower_segments errors.now messages.now groups.now)) }
{
    if groups.is_empty() {
        return put_reports(out, errors, messages);
    }
    let members = Members::of(alloc, messages)?;
    for (i, group) in groups.iter().enumerate() {
        put_group(out, errors, group, members.of_group(i))?;
    }
    Ok(())
}

// Puts the reports of those messages that have an error.
fn put_reports(
    out: &mut Lower,
    errors: &LevelledErrors,
    messages: &[MessageHead],
) -> Result<(), AllocError>
    ensures { OnOk result (out.new ≡ with_segments out.old (reports_of errors.now messages.now)) }
{
    for message in messages {
        put_report_where(out, errors, message)?;
    }
    Ok(())
}

// Puts the answer to a group with these messages, where it has one.
fn put_group(
    out: &mut Lower,
    errors: &LevelledErrors,
    group: &GroupHead,
    members: &[Member<'_>],
) -> Result<(), AllocError>
    ensures { OnOk result
        (out.new ≡ with_segments out.old
        (group_answer group.now (first_error (group_errors group.now errors.now))
        (reports_of errors.now (map (λ x. x.message.now) members.now)))) }
{
    let error = first_told(errors.among(group.first, group.last), ErrorLevel::Group);
    if error.is_some() {
        return put_ucf(out, group, error);
    }
    if !have_error(errors, members) {
        return Ok(());
    }
    put_ucf(out, group, None)?;
    for member in members {
        put_report_where(out, errors, member.message)?;
    }
    Ok(())
}

// UCF: a group, rejected for this error, or acknowledged where there is none.
fn put_ucf(out: &mut Lower, group: &GroupHead, error: Option<&ErrorLine>) -> Result<(), AllocError>
    ensures { OnOk result
        (out.new ≡ with_segments out.old
        (ucf group.now (action_for (option_copied error.entry)) (option_copied error.entry) ∷ [])) }
{
    let reference = [Octets(group.reference.octets())];
    let from = group_party(&group.sender);
    let to = group_party(&group.recipient);
    let action = [Octets(if error.is_some() { b"4" } else { b"7" })];
    out.put_answer(UCF, &[&reference, &from, &to, &action], error)
}

// Whether one of these messages has an error.
fn have_error(errors: &LevelledErrors, members: &[Member<'_>]) -> bool
    ensures { result ≡ list_any (λ x. has_told errors.now x.message.now) members.now }
{
    members
        .iter()
        .any(|member| has_error(errors, member.message))
}

// Whether a message has an error that is reported for it.
fn has_error(errors: &LevelledErrors, message: &MessageHead) -> bool
    ensures { result ≡ has_told errors.now message.now }
{
    errors
        .among(message.first, message.last)
        .iter()
        .any(|x| ErrorLevel::Message.is(x.level))
}

// Puts the report of a message, where it has an error.
fn put_report_where(
    out: &mut Lower,
    errors: &LevelledErrors,
    message: &MessageHead,
) -> Result<(), AllocError>
    ensures { OnOk result
        (out.new ≡ with_segments out.old
        (report_where message.now (message_errors message.now errors.now))) }
{
    if !has_error(errors, message) {
        return Ok(());
    }
    put_report(out, message, errors.among(message.first, message.last))
}
