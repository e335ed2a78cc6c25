//! The segments of a text that open or close an envelope.
ghost use Rattle.std.specs.Prelude.{◌≡◌, ℕ, List, IfOk};
ghost use Rattle.seg_lexer.specs.declared.service.Service as service;
ghost use Rattle.segment_records.specs.Look.{seen_of};
ghost use Rattle.segment_records.specs.Told.{KeepsValues, head_when, tabled_seen};

use envelope_check::{Head, HeadKind, HeadValues};
use segment_records::WalkedSegment;
use std::alloc::{AllocError, Global};
use std::marker::Model;

/// A segment as a head, if it is one, with the values that are kept of it: those that its text gives by the service characters
/// of the text.
pub(crate) fn head_of<'k>(seen: &WalkedSegment<'k>) -> Option<Head<'k>>
    ensures { (service : service.Service) (text : List ℕ)
        → KeepsValues service text (seen_of seen.now)
        → result ≡ head_when service text (seen_of seen.now) }
{
    let values = seen.record.given()?;
    let kind = HeadKind::of(seen.record.tag())?;
    let tabled = is_tabled(seen, kind);
    Some(Head::of(seen.number, seen.start(), kind, tabled, values))
}

// Whether it is a UNH at an entry: it is at one where its table was found.
fn is_tabled(seen: &WalkedSegment<'_>, kind: HeadKind) -> bool
    ensures { result ≡ tabled_seen (seen_of seen.now) kind }
{
    matches!(kind, HeadKind::Unh) && seen.record.entry().is_some()
}

/// A head with values of its own, seen as the head.
#[derive(Drop)]
pub(crate) struct OwnedHead {
    segment: u32,
    start: u32,
    kind: HeadKind,
    tabled: bool,
    values: HeadValues,
}

impl Model for OwnedHead {
    ghost use Rattle.envelope_check.specs.Head.{Head, head_with};

    ghost Value = { Head };

    ghost view = { λ h. head_with h.segment h.start h.kind h.tabled h.values };
}

impl OwnedHead {
    /// The same head, with its values lent.
    pub(crate) fn lend(&self) -> Head<'_>
        ensures { result ≡ self.now }
    {
        Head::of(
            self.segment,
            self.start,
            self.kind,
            self.tabled,
            &self.values,
        )
    }
}

/// A segment as a head, if it is one, with a copy of the values that are kept of it: those that its text gives by the service
/// characters of the text. Only want of memory is an error.
pub(crate) fn copy_head(
    alloc: Global,
    seen: &WalkedSegment<'_>,
) -> Result<Option<OwnedHead>, AllocError>
    ensures { (service : service.Service) (text : List ℕ)
        → KeepsValues service text (seen_of seen.now)
        → IfOk result (λ head. head ≡ head_when service text (seen_of seen.now)) }
{
    let Some(values) = seen.record.given() else {
        return Ok(None);
    };
    let Some(kind) = HeadKind::of(seen.record.tag()) else {
        return Ok(None);
    };
    Ok(Some(OwnedHead {
        segment: seen.number,
        start: seen.start(),
        kind,
        tabled: is_tabled(seen, kind),
        values: values.copy(alloc)?,
    }))
}

/// These heads, with their values lent. Only want of memory is an error.
pub(crate) fn lend_heads(alloc: Global, heads: &[OwnedHead]) -> Result<Vec<Head<'_>>, AllocError>
    ensures { IfOk result (λ lent. lent.items ≡ heads.now) }
{
    let mut lent = Vec::with_capacity(alloc, heads.len())?;
    for head in heads {
        lent.push(head.lend())?;
    }
    Ok(lent)
}
