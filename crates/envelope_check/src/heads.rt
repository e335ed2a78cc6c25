//! Reads of the heads of a text.
ghost use Rattle.std.specs.Prelude.{◌≡◌, find};
ghost use Rattle.std.specs.Option.{option_copied};
ghost use Rattle.envelope_check.specs.Known.{
  kind_in as kind_of_head,
  is_ung,
  is_unz,
  has_kind,
  first_unb as first_unb_of,
  head_here,
  heads_after,
  group_end as group_end_of,
  next_but_unt as next_but_unt_of,
};

use crate::head::{Head, HeadKind};

/// The kind of a segment, where it is a head.
pub(crate) fn kind_in(head: Option<&Head<'_>>) -> Option<HeadKind>
    ensures { result ≡ kind_of_head (option_copied head.entry) }
{
    match head {
        None => None,
        Some(head) => Some(head.kind()),
    }
}

/// Whether a UNG is among these.
pub(crate) fn has_groups(heads: &[Head<'_>]) -> bool
    ensures { result ≡ has_kind is_ung heads.now }
{
    heads
        .iter()
        .any(|head| matches!(head.kind(), HeadKind::Ung))
}

/// Whether a UNZ is among these.
pub(crate) fn has_end(heads: &[Head<'_>]) -> bool
    ensures { result ≡ has_kind is_unz heads.now }
{
    heads
        .iter()
        .any(|head| matches!(head.kind(), HeadKind::Unz))
}

/// The first segment, where it is UNB.
pub(crate) fn first_unb<'a, 'k>(heads: &'a [Head<'k>]) -> Option<&'a Head<'k>>
    ensures { option_copied result ≡ first_unb_of heads.now }
{
    match split_here(heads, 1).0 {
        Some(head) if matches!(head.kind(), HeadKind::Unb) => Some(head),
        _ => None,
    }
}

/// The head that segment `number` is, if it is the first of those to come, and the heads after that segment.
pub(crate) fn split_here<'a, 'k>(
    rest: &'a [Head<'k>],
    number: u32,
) -> (Option<&'a Head<'k>>, &'a [Head<'k>])
    ensures head { option_copied result.0 ≡ head_here rest.now number }
    ensures after { result.1.now ≡ heads_after rest.now number }
{
    match rest {
        [head, after @ ..] if head.segment() == number => (Some(head), after),
        _ => (None, rest),
    }
}

/// The kind of the first head that ends a functional group.
pub(crate) fn group_end(after: &[Head<'_>]) -> Option<HeadKind>
    ensures { result ≡ group_end_of after.now }
{
    after
        .iter()
        .find(|head| !matches!(head.kind(), HeadKind::Unh | HeadKind::Unt))
        .map(|head| head.kind())
}

/// The kind of the first head that isn't UNT.
pub(crate) fn next_but_unt(after: &[Head<'_>]) -> Option<HeadKind>
    ensures { result ≡ next_but_unt_of after.now }
{
    after
        .iter()
        .find(|head| !matches!(head.kind(), HeadKind::Unt))
        .map(|head| head.kind())
}
