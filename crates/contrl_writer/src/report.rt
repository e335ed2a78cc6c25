//! The report of a message.
ghost use Rattle.std.specs.Prelude.{◌≡◌, ◌-◌, ◌<◌, ◌∷◌, [], OnOk, IfOk, filter, length, map, take};
ghost use Rattle.std.specs.List.Sorted.{IsNonDecreasingBy};
ghost use Rattle.std.specs.Option.{option_copied};
ghost use Rattle.contrl_segments.specs.Lent.{value_lent};
ghost use Rattle.contrl_writer.specs.Levels.{first_error};
ghost use Rattle.contrl_writer.specs.Lower.{AreInMessage, details_at, heads_at, is_detail as is_detail_of, is_head as is_head_of, is_whole as is_whole_of, joined, told, with_segments};
ghost use Rattle.contrl_writer.specs.Raising.{segment_of};
ghost use Rattle.contrl_writer.specs.Report.{identifier_of, report, segment_blocks, ucm};

use crate::level::{ErrorLevel, Levelled};
use crate::lower::Lower;
use contrl_segments::WrittenValue::{self, Number, Octets};
use contrl_segments::{MessageHead, is_near, told_code, told_position};
use edi_tables::Tag;
use error_ledger::{ErrorLine, Kind};
use std::alloc::AllocError;

const UCM: Tag = Tag { octets: *b"UCM" };

const UCS: Tag = Tag { octets: *b"UCS" };

const UCD: Tag = Tag { octets: *b"UCD" };

/// The most blocks of a report: UCS, each with its UCD.
const MOST_BLOCKS: usize = 999;

/// The most UCD of a block.
const MOST_DETAILS: usize = 99;

/// The greatest position of a segment that is reported.
const LAST_POSITION: u32 = 999_999;

/// Puts the report of a message, of which these are the errors at its segments.
pub(crate) fn put_report(
    out: &mut Lower,
    message: &MessageHead,
    errors: &[Levelled],
) -> Result<(), AllocError>
    requires order { IsNonDecreasingBy segment_of errors.now }
    requires own { AreInMessage message.now errors.now }
    ensures { OnOk result (out.new ≡ with_segments out.old (report message.now (told errors.now))) }
{
    put_ucm(out, message, errors)?;
    let mut left = MOST_BLOCKS;
    let mut rest = errors;
    while let Some(first) = rest.first() {
        let segment = first.error.segment;
        let before = segment - message.first;
        if before >= LAST_POSITION {
            return Ok(());
        }
        let (here, later) = rest.split_at(rest.partition_point(|x| x.error.segment <= segment));
        left = put_blocks(out, before + 1, here, left)?;
        rest = later;
    }
    Ok(())
}

// UCM: the message, and its first error as a whole, if it has one.
fn put_ucm(out: &mut Lower, message: &MessageHead, errors: &[Levelled]) -> Result<(), AllocError>
    ensures { OnOk result
        (out.new ≡ with_segments out.old (ucm message.now (told errors.now) ∷ [])) }
{
    let reference = [Octets(message.reference.octets())];
    let identifier = message_identifier(message);
    let action = [Octets(b"4")];
    out.put_answer(
        UCM,
        &[&reference, &identifier, &action],
        first_whole(errors),
    )
}

// What identifies the type of a message.
fn message_identifier(message: &MessageHead) -> [WrittenValue<'_>; 5]
    ensures { map value_lent result ≡ identifier_of message.now }
{
    [
        Octets(message.kind.octets()),
        Octets(message.version.octets()),
        Octets(message.release.octets()),
        Octets(message.agency.octets()),
        Octets(message.association.octets()),
    ]
}

// The first error of a message as a whole.
fn first_whole(errors: &[Levelled]) -> Option<&ErrorLine>
    ensures { option_copied result ≡ first_error (filter is_whole_of errors.now) }
{
    for x in errors {
        if is_whole(x) {
            return Some(&x.error);
        }
    }
    None
}

// Puts the blocks of a segment, as far as more blocks are put, and answers how many more are.
fn put_blocks(
    out: &mut Lower,
    position: u32,
    errors: &[Levelled],
    blocks: usize,
) -> Result<usize, AllocError>
    ensures ok { OnOk result
        (out.new ≡ with_segments out.old
        (joined (take blocks (segment_blocks position (told errors.now))))) }
    ensures left { IfOk result
        (λ n. n ≡ blocks - length (segment_blocks position (told errors.now))) }
{
    if blocks == 0 {
        return Ok(0);
    }
    let heads = count_heads(errors);
    if heads > 0 {
        put_headed(out, position, errors, blocks)?;
        return Ok(blocks.saturating_sub(heads));
    }
    if count_details(errors) == 0 {
        return Ok(blocks);
    }
    put_plain(out, position, errors)?;
    Ok(blocks - 1)
}

// How many errors of a segment as a whole there are.
fn count_heads(errors: &[Levelled]) -> usize
    ensures { result ≡ length (filter is_head_of errors.now) }
{
    errors.iter().filter(|x| is_head(x)).count()
}

// How many errors of elements of a segment there are.
fn count_details(errors: &[Levelled]) -> usize
    ensures { result ≡ length (filter is_detail_of errors.now) }
{
    errors.iter().filter(|x| is_detail(x)).count()
}

// Puts the blocks of a segment with errors as a whole, at most so many.
fn put_headed(
    out: &mut Lower,
    position: u32,
    errors: &[Levelled],
    blocks: usize,
) -> Result<(), AllocError>
    requires { 0 < length (filter is_head_of errors.now) }
    ensures { OnOk result
        (out.new ≡ with_segments out.old
        (joined (take blocks (segment_blocks position (told errors.now))))) }
{
    put_heads(out, position, errors, blocks)?;
    if count_heads(errors) <= blocks {
        put_details(out, errors)?;
    }
    Ok(())
}

// Puts the block of a segment with errors of elements alone.
fn put_plain(out: &mut Lower, position: u32, errors: &[Levelled]) -> Result<(), AllocError>
    requires none { length (filter is_head_of errors.now) ≡ 0 }
    requires some { 0 < length (filter is_detail_of errors.now) }
    ensures { OnOk result
        (out.new ≡ with_segments out.old (joined (segment_blocks position (told errors.now)))) }
{
    let position = [Number(position)];
    let code = [Octets(b"")];
    out.put(UCS, &[&position, &code])?;
    put_details(out, errors)
}

// Puts the UCS of the errors of a segment as a whole, at most so many.
fn put_heads(
    out: &mut Lower,
    position: u32,
    errors: &[Levelled],
    most: usize,
) -> Result<(), AllocError>
    ensures { OnOk result
        (out.new ≡ with_segments out.old (take most (heads_at position errors.now))) }
{
    let mut left = most;
    for x in errors {
        left = put_head(out, position, x, left)?;
    }
    Ok(())
}

// Puts the UCS of an error, if it is one of a segment as a whole and more are put, and answers how many more are.
fn put_head(out: &mut Lower, position: u32, x: &Levelled, left: usize) -> Result<usize, AllocError>
    ensures ok { OnOk result
        (out.new ≡ with_segments out.old (take left (heads_at position (x.now ∷ [])))) }
    ensures left { IfOk result (λ n. n ≡ left - length (heads_at position (x.now ∷ []))) }
{
    if left == 0 || !is_head(x) {
        return Ok(left);
    }
    let position = [Number(position)];
    let code = [told_code(&x.error)];
    out.put(UCS, &[&position, &code])?;
    Ok(left - 1)
}

// Puts the UCD of a segment.
fn put_details(out: &mut Lower, errors: &[Levelled]) -> Result<(), AllocError>
    ensures { OnOk result
        (out.new ≡ with_segments out.old (take MOST_DETAILS (details_at errors.now))) }
{
    let mut left = MOST_DETAILS;
    for x in errors {
        left = put_detail(out, x, left)?;
    }
    Ok(())
}

// Puts the UCD of an error, if it has one and more are put, and answers how many more are.
fn put_detail(out: &mut Lower, x: &Levelled, left: usize) -> Result<usize, AllocError>
    ensures ok { OnOk result
        (out.new ≡ with_segments out.old (take left (details_at (x.now ∷ [])))) }
    ensures left { IfOk result (λ n. n ≡ left - length (details_at (x.now ∷ []))) }
{
    if left == 0 || !is_detail(x) || !is_near(&x.error) {
        return Ok(left);
    }
    let code = [told_code(&x.error)];
    let position = told_position(&x.error);
    out.put(UCD, &[&code, &position])?;
    Ok(left - 1)
}

// Whether an error is reported for a message as a whole.
fn is_whole(x: &Levelled) -> bool
    ensures { result ≡ is_whole_of x.now }
{
    ErrorLevel::Message.is(x.level)
        && matches!(x.error.kind, Kind::NoTable | Kind::Reference | Kind::Count)
}

// Whether an error is reported for a segment of a message as a whole.
fn is_head(x: &Levelled) -> bool
    ensures { result ≡ is_head_of x.now }
{
    ErrorLevel::Message.is(x.level) && x.error.kind.is_of_segment()
}

// Whether an error is reported for an element of a message.
fn is_detail(x: &Levelled) -> bool
    ensures { result ≡ is_detail_of x.now }
{
    ErrorLevel::Message.is(x.level) && x.error.kind.is_of_element()
}
