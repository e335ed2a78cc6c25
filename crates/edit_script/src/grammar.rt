//! Which commands a script may have.
ghost use Rattle.std.specs.Prelude.{◌≡◌, ◌<◌, length};
ghost use Rattle.edit_script.specs.Texts.{names_of};

use crate::name::Name;

const NAMES_OF_AN_EDIT: [Name; 6] = [
    Name::Replace,
    Name::Errors,
    Name::Tree,
    Name::Contrl,
    Name::Text,
    Name::End,
];

const NAMES_OF_A_SESSION: [Name; 9] = [
    Name::Replace,
    Name::Errors,
    Name::Tree,
    Name::Contrl,
    Name::Text,
    Name::End,
    Name::Undo,
    Name::Redo,
    Name::Batch,
];

/// Which commands a script may have: those of an edit, or those of a session.
#[derive(Clone, Copy, Debug, PartialEq, Eq)]
pub enum Grammar {
    Edit,
    Session,
}

impl Grammar {
    /// The names of its commands.
    pub(crate) fn names(self) -> &'static [Name]
        ensures all { result.now ≡ names_of self }
        ensures some { 0 < length result.now }
    {
        match self {
            Grammar::Edit => &NAMES_OF_AN_EDIT,
            Grammar::Session => &NAMES_OF_A_SESSION,
        }
    }
}
