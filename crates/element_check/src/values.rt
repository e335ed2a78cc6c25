//! The components of a segment that are left, each of which is read once.
ghost use Rattle.std.specs.Prelude.{[], ◌≡◌, ◌∷◌, None, IsTrue, MatchOption};
ghost use Rattle.std.specs.Iterator.{YieldsFirstBy};
ghost use Rattle.seg_lexer.specs.Left.{components_left};
ghost use Rattle.seg_lexer.specs.Value.{octets_of};
ghost use Rattle.element_check.specs.Streams.{after_left, after_run, components_ahead, is_first_filled, is_next, IsAtRepetition, seen, values_left};

use edi_octets::Octets;
use seg_lexer::{Component, Fields, Value};

/// The components that are left, in order, and the number of the repetition that is read. One that belongs to a later
/// repetition or element than was asked for is kept for later. A copy goes on by itself.
#[derive_where(Clone, Copy, Debug)]
pub(crate) struct Ahead<'a, O: Octets> {
    read: Option<Component<'a, O>>,
    rest: Fields<'a, O>,
    repetition: u32,
}

impl<'a, O: Octets> Ahead<'a, O> {
    /// These components.
    #[tactic(auto, unfolding(crate::specs::Streams::components_ahead))]
    pub(crate) fn of(rest: Fields<'a, O>) -> Ahead<'a, O>
        ensures { components_ahead result ≡ components_left rest.entry }
    {
        Ahead {
            read: None,
            rest,
            repetition: 1,
        }
    }

    /// Takes the next component.
    #[inline(always)]
    #[tactic(auto, unfolding(crate::specs::Streams::components_ahead))]
    pub(crate) fn step(&mut self) -> Option<Component<'a, O>>
        ensures next { YieldsFirstBy seen components_ahead self.old result self.new }
        ensures unread { self.new.read ≡ None }
    {
        match self.read {
            Some(found) => {
                self.read = None;
                Some(found)
            }
            None => self.rest.next(),
        }
    }

    /// The number of the repetition that is read.
    pub(crate) fn repetition(&self) -> u32
        ensures { result ≡ self.now.repetition }
    {
        self.repetition
    }

    /// Begins with the first repetition of an element. What belongs to none of them is passed: they are numbered from 1.
    #[tactic(auto, unfolding(crate::specs::Streams::components_ahead, crate::specs::Streams::after_left))]
    pub(crate) fn begin(&mut self, element: u32)
        ensures ahead { components_ahead self.new
            ≡ after_run element 0 (components_ahead self.old) }
        ensures first { self.new.repetition ≡ 1 }
    {
        self.repetition = 0;
        self.pass(element);
        self.repetition = 1;
    }

    /// Goes on to the next repetition of an element, and tells whether there is one: the next component belongs to it.
    #[tactic(auto, unfolding(crate::specs::Streams::components_ahead))]
    pub(crate) fn next_repetition(&mut self, element: u32) -> bool
        ensures ahead { components_ahead self.new ≡ components_ahead self.old }
        ensures next { result ≡ is_next element (components_ahead self.new) }
        ensures here { IsTrue result
            → IsAtRepetition element self.new.repetition (components_ahead self.new) }
    {
        match self.peek() {
            Some(found) if found.element == element => {
                self.repetition = found.repetition;
                true
            }
            _ => false,
        }
    }

    /// The next component, which is still the next one.
    #[inline(always)]
    #[tactic(auto, unfolding(crate::specs::Streams::components_ahead))]
    fn peek(&mut self) -> Option<Component<'a, O>>
        ensures ahead { components_ahead self.new ≡ components_ahead self.old }
        ensures first { MatchOption result (components_ahead self.new ≡ [])
            (λ x. components_ahead self.new ≡ seen x ∷ components_left self.new.rest) }
    {
        if self.read.is_none() {
            self.read = self.rest.next();
        }
        self.read
    }

    /// Takes the value of the next component, if it belongs to the repetition of an element that is read.
    #[tactic(auto, unfolding(crate::specs::Streams::components_ahead, crate::specs::Streams::values_left, crate::specs::Streams::after_left))]
    pub(crate) fn take(&mut self, element: u32) -> Option<Value<'a, O>>
        ensures value { YieldsFirstBy octets_of (values_left element) self.old result self.new }
        ensures after { after_left element self.new ≡ after_left element self.old }
    {
        if let Some(found) = &self.read {
            if found.element != element || found.repetition != self.repetition {
                return None;
            }
            let value = found.value;
            self.read = None;
            return Some(value);
        }
        let found = self.rest.next()?;
        if found.element != element || found.repetition != self.repetition {
            self.read = Some(found);
            return None;
        }
        Some(found.value)
    }

    /// Whether the component that is next belongs to the repetition of an element that is read and has a value. It is still
    /// the next one.
    #[tactic(auto, unfolding(crate::specs::Streams::components_ahead, crate::specs::Streams::values_left, crate::specs::Streams::after_left))]
    pub(crate) fn begins_filled(&mut self, element: u32) -> bool
        ensures values { values_left element self.new ≡ values_left element self.old }
        ensures after { after_left element self.new ≡ after_left element self.old }
        ensures ahead { components_ahead self.new ≡ components_ahead self.old }
        ensures same { self.new.repetition ≡ self.old.repetition }
        ensures filled { result ≡ is_first_filled (values_left element self.old) }
    {
        if self.read.is_none() {
            self.read = self.rest.next();
        }
        match &self.read {
            Some(found) => {
                found.element == element
                    && found.repetition == self.repetition
                    && !found.value.is_empty()
            }
            None => false,
        }
    }

    /// Takes all components that are next of the repetition of an element that is read.
    pub(crate) fn pass(&mut self, element: u32)
        ensures { components_ahead self.new ≡ after_left element self.old }
    {
        while let Some(_value) = self.take(element) {}
    }
}
