//! A list that contracts see as its members.
ghost use Rattle.std.specs.Prelude.{◌≡◌};

use std::marker::Model;

/// Members in order, seen as their list. It is made from a `Vec` and gives it back without taking memory.
#[derive(Debug, Drop)]
pub struct List<T> {
    items: Vec<T>,
}

impl<T> Model for List<T> {
    ghost use Rattle.std.specs.Prelude as prelude;

    ghost Value = { prelude.List T };

    ghost view = { λ l. l.items.items };
}

impl<T> List<T> {
    /// The list of these members.
    pub fn of(items: Vec<T>) -> List<T>
        ensures { result ≡ items.items }
    {
        List { items }
    }

    /// All its members.
    pub fn items(&self) -> &[T]
        ensures { result.now ≡ self.now }
    {
        &self.items
    }

    /// Its members, given up by the list.
    pub fn into_items(self) -> Vec<T>
        ensures { result.items ≡ self }
    {
        self.items
    }
}
