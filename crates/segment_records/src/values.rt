//! Values of a segment, and the segment table that a UNH names.
ghost use Rattle.std.specs.Prelude.{◌≡◌, ◌<◌, ◌∷◌, List, IfOk, IfSome, length, unwrap_or, []};
ghost use Rattle.std.specs.Cow.{cow_slice_items};
ghost use Rattle.std.specs.Option.{option_copied, option_map, option_or};
ghost use Rattle.clean_segments.specs.Plain.{component_in, plain_left};
ghost use Rattle.dir_compile.specs.Directory.{tables_of};
ghost use Rattle.seg_lexer.specs.Fields.{octets_at, unplaced, Component as SeenComponent};
ghost use Rattle.seg_lexer.specs.Left.{components_left, placed_in};
ghost use Rattle.seg_lexer.specs.Value.{octets_of};
ghost use Rattle.segment_records.specs.Messages.{table_for};
ghost use Rattle.segment_records.specs.Segments.{value_in};

use clean_segments::{PlainComponent, PlainFields};
use dir_compile::Directory;
use edi_octets::Octets;
use edi_tables::Chunk;
use seg_lexer::{Component, Fields, Value};
use std::alloc::{AllocError, Global};
use std::borrow::CowSlice;

/// The number of the segment table that a UNH names by its message type, version, release and agency (0065, 0052, 0054 and
/// 0051), if the directory has it. `components` are those of the UNH.
pub(crate) fn find_table<O: Octets>(
    alloc: Global,
    directory: &Directory,
    components: Fields<'_, O>,
) -> Result<Option<u32>, AllocError>
    ensures table { IfOk result
        (λ table. table ≡ table_for directory.now (components_left components.entry)) }
    ensures within { IfOk result
        (λ table. IfSome table (λ i. i < length (tables_of directory.now))) }
{
    // The number of its tables fits.
    let _parts = directory.parts();
    let Names {
        message,
        version,
        release,
        agency,
    } = find_names(components);
    let message = lend_found(alloc, message)?;
    let version = lend_found(alloc, version)?;
    let release = lend_found(alloc, release)?;
    let agency = lend_found(alloc, agency)?;
    match directory.find_table(&message, &version, &release, &agency) {
        Some(table) => Ok(Some(table as u32)),
        None => Ok(None),
    }
}

/// The reference of a plain UNH, and the values that it names its segment table by, those that are written.
pub(crate) struct PlainNames<'a> {
    pub(crate) reference: Option<&'a [u8]>,
    pub(crate) message: Option<&'a [u8]>,
    pub(crate) version: Option<&'a [u8]>,
    pub(crate) release: Option<&'a [u8]>,
    pub(crate) agency: Option<&'a [u8]>,
}

/// They are found in one way through the components.
pub(crate) fn find_plain_names<'a>(components: PlainFields<'a>) -> PlainNames<'a>
    ensures reference { option_copied result.reference
        ≡ octets_at 1 1 (plain_left components.entry) }
    ensures message { option_copied result.message
        ≡ octets_at 2 1 (plain_left components.entry) }
    ensures version { option_copied result.version
        ≡ octets_at 2 2 (plain_left components.entry) }
    ensures release { option_copied result.release
        ≡ octets_at 2 3 (plain_left components.entry) }
    ensures agency { option_copied result.agency
        ≡ octets_at 2 4 (plain_left components.entry) }
{
    let mut left = components;
    let mut reference = None;
    let mut message = None;
    let mut version = None;
    let mut release = None;
    let mut agency = None;
    while let Some(found) = left.step() {
        reference = or_lent(reference, &found, 1, 1);
        message = or_lent(message, &found, 2, 1);
        version = or_lent(version, &found, 2, 2);
        release = or_lent(release, &found, 2, 3);
        agency = or_lent(agency, &found, 2, 4);
    }
    PlainNames {
        reference,
        message,
        version,
        release,
        agency,
    }
}

// The value that was found before, or else that of this component if its numbers are these.
#[inline(always)]
fn or_lent<'a>(
    before: Option<&'a [u8]>,
    found: &PlainComponent<'a>,
    element: u32,
    component: u32,
) -> Option<&'a [u8]>
    ensures { (later : List SeenComponent)
        → option_or (option_copied result) (octets_at element component later)
        ≡ option_or (option_copied before.entry)
        (octets_at element component (component_in found.now ∷ later)) }
{
    if before.is_some() {
        return before;
    }
    if found.element == element && found.component == component {
        return Some(found.octets);
    }
    None
}

/// The components of a segment, where it is plain and none was taken yet.
#[inline(always)]
pub(crate) fn plain_components<'a, O: Octets>(components: &Fields<'a, O>) -> Option<PlainFields<'a>>
    ensures { IfSome result (λ plain. plain_left plain ≡ components_left components.now) }
{
    let (octets, separators) = components.whole()?;
    PlainFields::of(octets, separators)
}

// The value of a component of a plain segment, which lends it; no octets where it isn't written.
fn lend_plain<'a>(components: PlainFields<'a>, element: u32, component: u32) -> &'a [u8]
    ensures { result.now ≡ value_in (plain_left components.entry) element component }
{
    let mut left = components;
    while let Some(found) = left.step() {
        if found.element == element && found.component == component {
            return found.octets;
        }
    }
    &[]
}

// The values that a UNH names its segment table by, those that are written.
struct Names<'a, O: Octets> {
    message: Option<Value<'a, O>>,
    version: Option<Value<'a, O>>,
    release: Option<Value<'a, O>>,
    agency: Option<Value<'a, O>>,
}

// They are found in one way through the components, up to the first that is past element 2.
fn find_names<'a, O: Octets>(components: Fields<'a, O>) -> Names<'a, O>
    ensures message { option_map octets_of result.message
        ≡ octets_at 2 1 (components_left components.entry) }
    ensures version { option_map octets_of result.version
        ≡ octets_at 2 2 (components_left components.entry) }
    ensures release { option_map octets_of result.release
        ≡ octets_at 2 3 (components_left components.entry) }
    ensures agency { option_map octets_of result.agency
        ≡ octets_at 2 4 (components_left components.entry) }
{
    let mut message = None;
    let mut version = None;
    let mut release = None;
    let mut agency = None;
    for found in components {
        if found.element > 2 {
            return Names {
                message,
                version,
                release,
                agency,
            };
        }
        message = or_found(message, &found, 2, 1);
        version = or_found(version, &found, 2, 2);
        release = or_found(release, &found, 2, 3);
        agency = or_found(agency, &found, 2, 4);
    }
    Names {
        message,
        version,
        release,
        agency,
    }
}

// The value of a component of an element's first repetition, which the text lends where it can; no octets where it isn't
// written. Only want of memory is an error.
fn lend_value<'a, O: Octets>(
    alloc: Global,
    components: Fields<'a, O>,
    element: u32,
    component: u32,
) -> Result<CowSlice<'a, u8, Global>, AllocError>
    ensures { IfOk result (λ octets. cow_slice_items octets
        ≡ value_in (components_left components.entry) element component) }
{
    match plain_components(&components) {
        Some(plain) => Ok(CowSlice::Borrowed(lend_plain(plain, element, component))),
        None => lend_found(alloc, components.value_at(element, component)),
    }
}

/// A copy of the value of a component of an element's first repetition; no octets where it isn't written. Only want of memory is an
/// error.
pub fn copy_value<O: Octets>(
    alloc: Global,
    components: Fields<'_, O>,
    element: u32,
    component: u32,
) -> Result<Chunk, AllocError>
    ensures { IfOk result
        (λ octets. octets ≡ value_in (components_left components.entry) element component) }
{
    let value = lend_value(alloc, components, element, component)?;
    Chunk::of(alloc, &value)
}

/// The values of two components of first repetitions, each by the numbers of its element and its own, in one way through the
/// components of a segment. The text lends them where it can; no octets for one that isn't written. Only want of memory is an
/// error.
pub(crate) fn lend_two<'a, O: Octets>(
    alloc: Global,
    components: Fields<'a, O>,
    first: (u32, u32),
    second: (u32, u32),
) -> Result<(CowSlice<'a, u8, Global>, CowSlice<'a, u8, Global>), AllocError>
    ensures first { IfOk result (λ two. cow_slice_items two.0
        ≡ value_in (components_left components.entry) first.0 first.1) }
    ensures second { IfOk result (λ two. cow_slice_items two.1
        ≡ value_in (components_left components.entry) second.0 second.1) }
{
    match plain_components(&components) {
        Some(plain) => Ok(lend_plain_two(plain, first, second)),
        None => lend_found_two(alloc, components, first, second),
    }
}

// Those of a plain segment, which lends them.
#[inline(always)]
fn lend_plain_two<'a>(
    components: PlainFields<'a>,
    first: (u32, u32),
    second: (u32, u32),
) -> (CowSlice<'a, u8, Global>, CowSlice<'a, u8, Global>)
    ensures first { cow_slice_items result.0
        ≡ value_in (plain_left components.entry) first.0 first.1 }
    ensures second { cow_slice_items result.1
        ≡ value_in (plain_left components.entry) second.0 second.1 }
{
    let (one, other) = find_plain_two(components, first, second);
    let one = CowSlice::Borrowed(one.unwrap_or(&[]));
    let other = CowSlice::Borrowed(other.unwrap_or(&[]));
    (one, other)
}

// Those of a segment that isn't plain. Few are so: the others don't pay for what this needs.
#[inline(never)]
fn lend_found_two<'a, O: Octets>(
    alloc: Global,
    components: Fields<'a, O>,
    first: (u32, u32),
    second: (u32, u32),
) -> Result<(CowSlice<'a, u8, Global>, CowSlice<'a, u8, Global>), AllocError>
    ensures first { IfOk result (λ two. cow_slice_items two.0
        ≡ value_in (components_left components.entry) first.0 first.1) }
    ensures second { IfOk result (λ two. cow_slice_items two.1
        ≡ value_in (components_left components.entry) second.0 second.1) }
{
    let (one, other) = find_two(components, first, second);
    let one = lend_found(alloc, one)?;
    let other = lend_found(alloc, other)?;
    Ok((one, other))
}

/// Copies of them.
pub fn copy_two<O: Octets>(
    alloc: Global,
    components: Fields<'_, O>,
    first: (u32, u32),
    second: (u32, u32),
) -> Result<(Chunk, Chunk), AllocError>
    ensures first { IfOk result
        (λ two. two.0 ≡ value_in (components_left components.entry) first.0 first.1) }
    ensures second { IfOk result
        (λ two. two.1 ≡ value_in (components_left components.entry) second.0 second.1) }
{
    let (one, other) = lend_two(alloc, components, first, second)?;
    let one = Chunk::of(alloc, &one)?;
    let other = Chunk::of(alloc, &other)?;
    Ok((one, other))
}

// The values of two components of a plain segment, which lends them, those that are written.
fn find_plain_two<'a>(
    components: PlainFields<'a>,
    first: (u32, u32),
    second: (u32, u32),
) -> (Option<&'a [u8]>, Option<&'a [u8]>)
    ensures first { option_copied result.0
        ≡ octets_at first.0 first.1 (plain_left components.entry) }
    ensures second { option_copied result.1
        ≡ octets_at second.0 second.1 (plain_left components.entry) }
{
    let mut left = components;
    let mut one = None;
    let mut other = None;
    while let Some(found) = left.step() {
        one = or_lent(one, &found, first.0, first.1);
        other = or_lent(other, &found, second.0, second.1);
        if one.is_some() && other.is_some() {
            return (one, other);
        }
    }
    (one, other)
}

// The values of two components, those that are written. They are found in one way through the components, up to the first
// that is past the elements of both.
fn find_two<'a, O: Octets>(
    components: Fields<'a, O>,
    first: (u32, u32),
    second: (u32, u32),
) -> (Option<Value<'a, O>>, Option<Value<'a, O>>)
    ensures first { option_map octets_of result.0
        ≡ octets_at first.0 first.1 (components_left components.entry) }
    ensures second { option_map octets_of result.1
        ≡ octets_at second.0 second.1 (components_left components.entry) }
{
    let mut one = None;
    let mut other = None;
    for found in components {
        if found.element > first.0 && found.element > second.0 {
            return (one, other);
        }
        one = or_found(one, &found, first.0, first.1);
        other = or_found(other, &found, second.0, second.1);
        if one.is_some() && other.is_some() {
            return (one, other);
        }
    }
    (one, other)
}

// The value that was found before, or else that of this component if its numbers are these, in a first repetition.
#[inline(always)]
fn or_found<'a, O: Octets>(
    before: Option<Value<'a, O>>,
    found: &Component<'a, O>,
    element: u32,
    component: u32,
) -> Option<Value<'a, O>>
    ensures { (later : List SeenComponent)
        → option_or (option_map octets_of result) (octets_at element component later)
        ≡ option_or (option_map octets_of before.entry)
        (octets_at element component (unplaced (placed_in found.now) ∷ later)) }
{
    if before.is_some() {
        return before;
    }
    if found.element == element && found.repetition == 1 && found.component == component {
        return Some(found.value);
    }
    None
}

/// The octets of a value, which the text lends where it can; none where there is no value. Only want of memory is an error.
pub fn lend_found<'a, O: Octets>(
    alloc: Global,
    value: Option<Value<'a, O>>,
) -> Result<CowSlice<'a, u8, Global>, AllocError>
    ensures { IfOk result
        (λ octets. cow_slice_items octets ≡ unwrap_or (option_map octets_of value.entry) []) }
{
    let Some(value) = value else {
        return Ok(CowSlice::Borrowed(&[]));
    };
    match value.slice() {
        Some(octets) => Ok(CowSlice::Borrowed(octets)),
        None => Ok(CowSlice::Owned(value.copy(alloc)?.octets().to_vec(alloc)?)),
    }
}
