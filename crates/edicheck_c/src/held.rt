//! A box that is there or not, as a pointer.
ghost use Rattle.std.specs.Prelude.{◌≡◌, None, Some};
ghost use Rattle.std.specs.declared.option.Option.{Option};
ghost use Rattle.std.specs.Coded.{coded_option};
ghost use Rattle.edicheck_c.specs.Held.{boxed, held};

use std::alloc::Global;
use std::marker::Model;
use std::ptr::null_mut;

/// Where a box is, or null if there is none. It owns the box.
pub struct Held<T> {
    pub(crate) at: *mut T,
    pub(crate) ghost kept: { Option T } by { coded_option T.code },
}

impl<T> Model for Held<T> {
    ghost also_owns = { λ h. held T.row h.at h.kept };
}

impl<T> Held<T> {
    /// There is none.
    pub(crate) fn empty() -> Held<T>
        ensures { result.kept ≡ None }
    {
        Held { at: null_mut() }
    }

    /// The box again.
    pub(crate) fn into_box(self, alloc: Global) -> Option<Box<T>>
        ensures { boxed result ≡ self.kept }
    {
        let Held { at } = self;
        if at.is_null() {
            None
        } else {
            Some(unsafe { Box::from_raw(alloc, at) })
        }
    }
}

impl<T: Drop> Held<T> {
    /// Where this box is.
    pub(crate) fn of(kept: Box<T>) -> Held<T>
        ensures { result.kept ≡ Some kept.value }
    {
        let at = Box::into_raw(kept);
        Held { at }
    }
}
