//! The segments below an interchange that is acknowledged, of which the first are put.
ghost use Rattle.std.specs.Prelude.{◌≡◌, ◌-◌, ◌∷◌, [], OnOk};
ghost use Rattle.contrl_segments.specs.Lent.{answer_lent, segment_lent};
ghost use Rattle.contrl_writer.specs.Lower.{with_segments};
ghost use Rattle.std.specs.Option.{option_copied};

use contrl_segments::{Element, put_answer, put_segment};
use edi_tables::{Chunk, Tag};
use error_ledger::ErrorLine;
use std::alloc::AllocError;

/// The most segments that are reported below an interchange.
const MOST_LOWER: u32 = 99_000;

/// The text so far, and how many more segments are put.
#[derive(Debug, Drop)]
pub(crate) struct Lower {
    pub(crate) text: Chunk,
    pub(crate) left: u32,
}

impl Lower {
    /// Those after a text, of which none is put yet.
    pub(crate) fn after(text: Chunk) -> Lower
        ensures { result ≡ record { text = text; left = MOST_LOWER } }
    {
        Lower {
            text,
            left: MOST_LOWER,
        }
    }

    /// How many were put.
    pub(crate) fn count(&self) -> u32
        ensures { result ≡ MOST_LOWER - self.now.left }
    {
        MOST_LOWER.saturating_sub(self.left)
    }

    /// The text with those that were put.
    pub(crate) fn into_text(self) -> Chunk
        ensures { result ≡ self.text }
    {
        self.text
    }

    /// Puts a segment, unless there are enough.
    pub(crate) fn put(&mut self, tag: Tag, elements: &[Element<'_, '_>]) -> Result<(), AllocError>
        ensures { OnOk result
            (self.new ≡ with_segments self.old (segment_lent tag elements.now ∷ [])) }
    {
        if self.left == 0 {
            return Ok(());
        }
        put_segment(&mut self.text, tag, elements)?;
        self.left -= 1;
        Ok(())
    }

    /// Puts the answer to a group or a message, with the error that it is rejected for, if one is given.
    pub(crate) fn put_answer(
        &mut self,
        tag: Tag,
        subject: &[Element<'_, '_>],
        error: Option<&ErrorLine>,
    ) -> Result<(), AllocError>
        ensures { OnOk result
            (self.new ≡ with_segments self.old
            (answer_lent tag subject.now (option_copied error.entry) ∷ [])) }
    {
        if self.left == 0 {
            return Ok(());
        }
        put_answer(&mut self.text, tag, subject, error)?;
        self.left -= 1;
        Ok(())
    }
}
