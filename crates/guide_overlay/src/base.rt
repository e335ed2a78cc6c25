//! What a directory has of what a guide names.
ghost use Rattle.std.specs.Prelude.{◌≡◌, not, option_and_then, slice_get};
ghost use Rattle.std.specs.Option.{option_copied};
ghost use Rattle.edi_tables.specs.Ascending.{IsAscendingBy};
ghost use Rattle.edi_tables.specs.Rows.{when};
ghost use Rattle.dir_compile.specs.Compile.{
  composite_name,
  message_name,
  named_in,
  segment_name,
};
ghost use Rattle.dir_compile.specs.Ordered.{IsInOrder};
ghost use Rattle.guide_overlay.specs.Guide.{base_kinds, is_item_must as is_item_must_of, is_known as is_known_of, is_no_greater as is_no_greater_of, is_no_weaker as is_no_weaker_of, member_of};
ghost use Rattle.guide_overlay.specs.Kept.{detail_seen, kinds_told};
ghost use Rattle.guide_overlay.specs.declared.stop.GuideKind.TheVariants.{NotNarrower};

use crate::line::{DetailText, Topic};
use crate::stop::GuideKind;
use dir_compile::{Named, Parts};
use edi_tables::{ItemDef, PartDef, TableRow};

/// The one of that name, if there is one. Names ascend, so it is found by halving.
pub(crate) fn find_named<'a, T: Named>(items: &'a [T], name: &[u8]) -> Option<&'a T>
    requires { IsAscendingBy T.name_of items.now }
    ensures { option_copied result ≡ named_in T.name_of items.now name.now }
{
    let place = items.binary_search_by(|item| item.name().cmp(name)).ok()?;
    items.get(place)
}

/// Whether a directory has what a head names.
pub(crate) fn is_known(parts: &Parts, topic: Topic, name: &[u8]) -> bool
    requires { IsInOrder parts.now }
    ensures { result ≡ is_known_of parts.now topic name.now }
{
    match topic {
        Topic::OfTable => find_named(parts.messages.items(), name).is_some(),
        Topic::OfSegment => find_named(parts.segments.items(), name).is_some(),
        Topic::OfComposite => find_named(parts.composites.items(), name).is_some(),
        Topic::OfCodes => find_named(parts.elements.items(), name).is_some(),
    }
}

/// The rule that a detail under that name breaks against the base, if it breaks one.
pub(crate) fn base_kind(parts: &Parts, name: &[u8], detail: DetailText<'_>) -> Option<GuideKind>
    requires { IsInOrder parts.now }
    ensures { kinds_told result ≡ base_kinds parts.now name.now (detail_seen detail.entry) }
{
    match detail {
        DetailText::Dropped { node } => match row_at(parts, name, node) {
            None => Some(GuideKind::BadIndex),
            Some(row) => unless(!row.must),
        },
        DetailText::Kept { node, must, max } => match row_at(parts, name, node) {
            None => Some(GuideKind::BadIndex),
            Some(row) => {
                unless(is_no_weaker(row.must, must) && is_no_greater(u64::from(row.max), max))
            }
        },
        DetailText::Item { item, must, reps } => match item_at(parts, name, item) {
            None => Some(GuideKind::BadIndex),
            Some(base) => unless(
                is_no_weaker(is_item_must(base), must)
                    && is_no_greater(u64::from(base.reps()), reps),
            ),
        },
        DetailText::Part { part, must } => match part_at(parts, name, part) {
            None => Some(GuideKind::BadIndex),
            Some(base) => unless(is_no_weaker(base.must, must)),
        },
        DetailText::Value { value } => match find_named(parts.lists.items(), name) {
            None => None,
            Some(list) => unless(find_named(list.values.items(), value).is_some()),
        },
    }
}

// The row of that number of a message's table.
fn row_at<'a>(parts: &'a Parts, name: &[u8], i: u64) -> Option<&'a TableRow>
    requires { IsInOrder parts.now }
    ensures { option_copied result ≡ option_and_then (λ message. slice_get message.rows i)
        (named_in message_name parts.now.messages name.now) }
{
    let message = find_named(parts.messages.items(), name)?;
    message.rows.items().get(i as usize)
}

// The item of that number of a segment.
fn item_at<'a>(parts: &'a Parts, name: &[u8], i: u64) -> Option<&'a ItemDef>
    requires { IsInOrder parts.now }
    ensures { option_copied result ≡ option_and_then (λ segment. member_of segment.items i)
        (named_in segment_name parts.now.segments name.now) }
{
    let segment = find_named(parts.segments.items(), name)?;
    member_at(segment.items.items(), i)
}

// The part of that number of a composite.
fn part_at<'a>(parts: &'a Parts, name: &[u8], i: u64) -> Option<&'a PartDef>
    requires { IsInOrder parts.now }
    ensures { option_copied result ≡ option_and_then (λ composite. member_of composite.parts i)
        (named_in composite_name parts.now.composites name.now) }
{
    let composite = find_named(parts.composites.items(), name)?;
    member_at(composite.parts.items(), i)
}

// The member of that number, from 1.
fn member_at<T>(items: &[T], i: u64) -> Option<&T>
    ensures { option_copied result ≡ member_of items.now i }
{
    if i == 0 {
        return None;
    }
    items.get((i - 1) as usize)
}

// The rule on narrowing, unless it holds.
fn unless(holds: bool) -> Option<GuideKind>
    ensures { kinds_told result ≡ when (not holds) NotNarrower }
{
    if holds {
        None
    } else {
        Some(GuideKind::NotNarrower)
    }
}

fn is_no_weaker(base: bool, must: bool) -> bool
    ensures { result ≡ is_no_weaker_of base must }
{
    !base || must
}

fn is_no_greater(base: u64, most: u64) -> bool
    ensures { result ≡ is_no_greater_of base most }
{
    0 < most && most <= base
}

fn is_item_must(item: &ItemDef) -> bool
    ensures { result ≡ is_item_must_of item.now }
{
    match item {
        ItemDef::Alone { part, .. } => part.must,
        ItemDef::Composite { must, .. } => *must,
    }
}
