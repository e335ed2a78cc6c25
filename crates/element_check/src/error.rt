//! Local errors, and the list that they are gathered in.
ghost use Rattle.std.specs.Prelude.{[], ◌≡◌, ◌+◌, ◌∷◌, ◌++◌, ◌<◌, ◌≤◌, length, take, drop, IfOk, OnOk, OnErr};
ghost use Rattle.edi_tables.specs.Rows.{when};
ghost use Rattle.element_check.specs.Local.{error_at};
ghost use Rattle.element_check.specs.Streams.{told_errors};

use crate::value::is_any_failed;
use error_ledger::Kind;
use smallvec::SmallVec;
use std::alloc::{AllocError, Global};
use std::marker::Model;

/// What is wrong at an element or a component of a segment: component 0 is the element as a whole, and element 0 the
/// segment.
#[derive(Clone, Copy, Debug, PartialEq, Eq)]
pub struct LocalError {
    pub element: u32,
    pub component: u32,
    pub kind: Kind,
}

/// What the unused places of a list hold.
impl Default for LocalError {
    fn default() -> LocalError {
        LocalError {
            element: 0,
            component: 0,
            kind: Kind::BadTag,
        }
    }
}

/// The errors that were found so far, seen as their list. The first four take no memory.
#[derive(Drop)]
pub(crate) struct ErrorList {
    list: SmallVec<LocalError, 4>,
}

impl Model for ErrorList {
    ghost use Rattle.std.specs.Prelude.{List, ◌≤◌};
    ghost use Rattle.element_check.specs.declared.error.LocalError.{LocalError};

    ghost Value = { List LocalError };

    ghost view = { λ e. e.list.items };

    ghost invariant = { λ e. 4 ≤ e.list.capacity };
}

impl ErrorList {
    /// No error.
    pub(crate) fn new(alloc: Global) -> ErrorList
        ensures { result ≡ [] }
    {
        ErrorList {
            list: SmallVec::new(alloc),
        }
    }

    /// Puts an error at the end, if there is one.
    pub(crate) fn put_if(
        &mut self,
        broken: bool,
        element: u32,
        component: u32,
        kind: Kind,
    ) -> Result<(), AllocError>
        ensures ok { OnOk result (self.new
            ≡ self.old ++ when broken (error_at element component kind)) }
        ensures full { OnErr result
            (4 < length self.old + length (when broken (error_at element component kind))) }
    {
        if broken {
            self.list.push(LocalError {
                element,
                component,
                kind,
            })?;
        }
        Ok(())
    }

    /// Puts an error at the end.
    pub(crate) fn put(&mut self, error: LocalError) -> Result<(), AllocError>
        ensures ok { OnOk result (self.new ≡ self.old ++ error ∷ []) }
        ensures full { OnErr result (4 < length self.old + 1) }
    {
        self.list.push(error)?;
        Ok(())
    }

    /// Puts errors at the end.
    pub(crate) fn add(&mut self, more: &[LocalError]) -> Result<(), AllocError>
        ensures ok { OnOk result (self.new ≡ self.old ++ more.now) }
        ensures full { OnErr result (4 < length self.old + length more.now) }
    {
        self.list.extend_from_slice(more)
    }

    /// The errors, to be looked at.
    pub(crate) fn as_slice(&self) -> &[LocalError]
        ensures { result.now ≡ self.now }
    {
        self.list.as_slice()
    }

    /// Takes out the errors from a place on.
    pub(crate) fn cut(&mut self, at: usize) -> Result<SmallVec<LocalError, 4>, AllocError>
        requires { at ≤ length self.old }
        ensures front { OnOk result (self.new ≡ take at self.old) }
        ensures later { IfOk result (λ later. later.items ≡ drop at self.old) }
        ensures full { OnErr result (4 < length self.old) }
    {
        let later = SmallVec::from_slice(*self.list.allocator(), &self.list.as_slice()[at..])?;
        self.list.truncate(at);
        Ok(later)
    }

    /// How many they are.
    pub(crate) fn len(&self) -> usize
        ensures { result ≡ length self.now }
    {
        self.list.len()
    }

    /// A list of no error, where memory is taken as here.
    pub(crate) fn none(&self) -> ErrorList
        ensures { result ≡ [] }
    {
        ErrorList::new(*self.list.allocator())
    }

    /// Takes out the errors from a place on, as a list of its own.
    pub(crate) fn split_off(&mut self, at: usize) -> Result<ErrorList, AllocError>
        requires { at ≤ length self.old }
        ensures front { OnOk result (self.new ≡ take at self.old) }
        ensures later { IfOk result (λ later. later ≡ drop at self.old) }
        ensures full { OnErr result (4 < length self.old) }
    {
        let mut later = self.none();
        later.add(&self.list.as_slice()[at..])?;
        self.list.truncate(at);
        Ok(later)
    }

    /// The list of them.
    pub(crate) fn into_list(self) -> SmallVec<LocalError, 4>
        ensures { result.items ≡ self }
    {
        self.list
    }
}

/// Puts the kinds of the tests that were failed. Most often none was.
pub(crate) fn put_failed(
    errors: &mut ErrorList,
    element: u32,
    component: u32,
    results: &[(Kind, bool)],
) -> Result<(), AllocError>
    ensures ok { OnOk result (errors.new
        ≡ errors.old ++ told_errors element component results.now) }
    ensures full { OnErr result
        (4 < length errors.old + length (told_errors element component results.now)) }
{
    if !is_any_failed(results) {
        return Ok(());
    }
    for &(kind, failed) in results {
        errors.put_if(failed, element, component, kind)?;
    }
    Ok(())
}
