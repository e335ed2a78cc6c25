//! The sections of a guide, as its lines are read.
ghost use Rattle.std.specs.Prelude.{◌≡◌, ◌++◌, ◌∷◌, [], true, not, find, map, IfOk, is_some, if◌then◌else◌};
ghost use Rattle.std.specs.Option.{option_copied, option_map};
ghost use Rattle.std.specs.List.{list_any};
ghost use Rattle.std.specs.Str.{bytes_eq};
ghost use Rattle.guide_overlay.specs.Guide.{details_for, is_named, is_same_detail, is_section_of, values_in};
ghost use Rattle.guide_overlay.specs.declared.line.Topic.{Topic};
ghost use Rattle.guide_overlay.specs.Kept.{IsGuideReading, detail_seen, sections_seen, with_detail, words_seen};

use crate::line::{DetailText, Topic};
use indexmap::IndexSet;
use std::alloc::{AllocError, Global};
use std::mem;

/// A head with the details under it.
#[derive(Drop)]
pub(crate) struct SectionText<'a> {
    pub topic: Topic,
    pub name: &'a [u8],
    pub details: Vec<DetailText<'a>>,
}

/// The sections so far: those before the last, and the head and the details of the last one. The names of heads, and
/// the values of the last section, are found again by their hash.
#[derive(Drop)]
pub(crate) struct Reading<'a> {
    pub finished: Vec<SectionText<'a>>,
    pub last: Option<(Topic, &'a [u8])>,
    pub details: Vec<DetailText<'a>>,
    names: IndexSet<&'a [u8]>,
    values: IndexSet<&'a [u8]>,
}

impl<'a> Reading<'a> {
    /// No sections yet.
    pub fn new(alloc: Global) -> Self
        ensures none { sections_seen result ≡ [] }
        ensures kept { IsGuideReading result }
    {
        Reading {
            finished: Vec::new(alloc),
            last: None,
            details: Vec::new(alloc),
            names: IndexSet::new(alloc),
            values: IndexSet::new(alloc),
        }
    }

    /// Begins a section with a head, and tells whether the head is new. One that isn't begins none.
    pub fn add_head(
        &mut self,
        alloc: Global,
        topic: Topic,
        name: &'a [u8],
    ) -> Result<bool, AllocError>
        requires kept { IsGuideReading self.old }
        requires named { is_named topic name.now ≡ true }
        ensures new { IfOk result (λ new. new
            ≡ not (list_any (is_section_of topic name.now) (sections_seen self.old))) }
        ensures joins { IfOk result (λ new. new ≡ true → sections_seen self.new
            ≡ sections_seen self.old ++ record { topic = topic; name = name.now; details = [] } ∷ []) }
        ensures kept { IfOk result (λ new. new ≡ true → IsGuideReading self.new) }
    {
        if !add_word(&mut self.names, name)? {
            return Ok(false);
        }
        let details = mem::replace(&mut self.details, Vec::new(alloc));
        if let Some((topic, name)) = self.last {
            self.finished.push(SectionText {
                topic,
                name,
                details,
            })?;
        }
        self.last = Some((topic, name));
        self.values.clear();
        Ok(true)
    }

    /// Puts a detail into the last section, and tells whether it is new. One that isn't isn't put.
    pub fn add_detail(&mut self, detail: DetailText<'a>) -> Result<bool, AllocError>
        requires kept { IsGuideReading self.old }
        requires under { is_some self.old.last ≡ true }
        ensures new { IfOk result (λ new. new ≡ not (list_any
            (is_same_detail (detail_seen detail.entry)) (map detail_seen self.old.details.items))) }
        ensures joins { IfOk result (λ new. new ≡ true → sections_seen self.new
            ≡ with_detail (sections_seen self.old) (detail_seen detail.entry)) }
        ensures kept { IfOk result (λ new. new ≡ true → IsGuideReading self.new) }
    {
        if !add_value(&mut self.values, &self.details, detail)? {
            return Ok(false);
        }
        self.details.push(detail)?;
        Ok(true)
    }

    /// The details under the head of that name, if there is one. A name tells its topic by its form.
    pub fn details_under(&self, name: &[u8]) -> Option<&[DetailText<'a>]>
        requires { IsGuideReading self.now }
        ensures { (topic : Topic) → is_named topic name.now ≡ true
            → option_map (map detail_seen) (option_copied result) ≡ option_map (λ section. section.details)
            (find (is_section_of topic name.now) (sections_seen self.now)) }
    {
        let place = self.names.get_index_of(name)?;
        match self.finished.get(place) {
            Some(section) => Some(&section.details),
            None => Some(&self.details),
        }
    }

    /// The details that a guide has for what is of that name.
    pub fn details_for(&self, name: &[u8]) -> &[DetailText<'a>]
        requires { IsGuideReading self.now }
        ensures { (topic : Topic) → is_named topic name.now ≡ true
            → map detail_seen result.now ≡ details_for (sections_seen self.now) topic name.now }
    {
        let Some(details) = self.details_under(name) else {
            return &self.details[..0];
        };
        details
    }
}

// Tells whether a detail is new among these, whose values are given, and puts its value to those.
fn add_value<'a>(
    values: &mut IndexSet<&'a [u8]>,
    details: &[DetailText<'a>],
    detail: DetailText<'a>,
) -> Result<bool, AllocError>
    requires { words_seen values.old.keys ≡ values_in (map detail_seen details.now) }
    ensures new { IfOk result (λ new. new ≡ not (list_any
        (is_same_detail (detail_seen detail.entry)) (map detail_seen details.now))) }
    ensures values { IfOk result (λ new. new ≡ true → words_seen values.new.keys
        ≡ values_in (map detail_seen details.now) ++ values_in (detail_seen detail.entry ∷ [])) }
{
    match detail {
        DetailText::Value { value } => add_word(values, value),
        _ => Ok(!is_repeated(details, detail)),
    }
}

// Puts a word at the end unless it is there, and tells whether it is new.
fn add_word<'a>(words: &mut IndexSet<&'a [u8]>, word: &'a [u8]) -> Result<bool, AllocError>
    ensures new { IfOk result (λ new. new
        ≡ not (list_any (bytes_eq word.now) (words_seen words.old.keys))) }
    ensures words { IfOk result (λ new. words_seen words.new.keys
        ≡ (if new then words_seen words.old.keys ++ word.now ∷ [] else words_seen words.old.keys)) }
{
    Ok(words.insert(word)?)
}

// Whether one of these details is of the same node, item, part or value.
fn is_repeated(details: &[DetailText<'_>], detail: DetailText<'_>) -> bool
    ensures { result
        ≡ list_any (λ other. is_same_detail (detail_seen detail.entry) (detail_seen other)) details.now }
{
    details.iter().any(|other| is_same(detail, *other))
}

// Whether two details are of one node, item or part, or of one value.
fn is_same(one: DetailText<'_>, other: DetailText<'_>) -> bool
    ensures { result ≡ is_same_detail (detail_seen one.entry) (detail_seen other.entry) }
{
    match one {
        DetailText::Dropped { node } | DetailText::Kept { node, .. } => match other {
            DetailText::Dropped { node: next } | DetailText::Kept { node: next, .. } => {
                node == next
            }
            _ => false,
        },
        DetailText::Item { item, .. } => match other {
            DetailText::Item { item: next, .. } => item == next,
            _ => false,
        },
        DetailText::Part { part, .. } => match other {
            DetailText::Part { part: next, .. } => part == next,
            _ => false,
        },
        DetailText::Value { value } => match other {
            DetailText::Value { value: next } => value == next,
            _ => false,
        },
    }
}
