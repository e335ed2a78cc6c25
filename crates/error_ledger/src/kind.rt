//! The kinds of errors: what can be wrong in a text, with the number, the printed word and the code of each.
ghost use Rattle.std.specs.Prelude.{◌≡◌};
ghost use Rattle.error_ledger.specs.Kinds.{
  number_of,
  word_of,
  code_of as code_in_table,
  is_of_segment,
  is_of_element,
};

/// What is wrong at a place of a text. The number of a kind, from 1, orders the errors of one place.
#[derive(Clone, Copy, Debug, PartialEq, Eq)]
pub enum Kind {
    BadUna = 1,
    NoUnb,
    NoUnz,
    Syntax,
    SecondUnb,
    AfterEnd,
    Outside,
    EmptyInterchange,
    Tail,
    Mixed,
    Reference,
    Count,
    NoUne,
    EmptyGroup,
    GroupType,
    NoTable,
    MissingSegment,
    MissingGroup,
    TooManySegments,
    TooManyGroups,
    Unplaced,
    BadTag,
    UnknownSegment,
    TooManyElements,
    TooManyComponents,
    Missing,
    Repertoire,
    WrongType,
    Decimal,
    TooLong,
    TooShort,
    Code,
    TooManyRepetitions,
}

impl Kind {
    /// Its number, from 1 to 33.
    pub fn number(self) -> u8
        ensures { result ≡ number_of self }
    {
        self as u8
    }

    /// The word that is printed for it, as `bad-una`.
    #[tactic(auto, unfolding(crate::specs::Kinds::word_of))]
    pub fn word(self) -> &'static [u8]
        ensures { result.now ≡ word_of self }
    {
        match self {
            Kind::BadUna => b"bad-una",
            Kind::NoUnb => b"no-unb",
            Kind::NoUnz => b"no-unz",
            Kind::Syntax => b"syntax",
            Kind::SecondUnb => b"second-unb",
            Kind::AfterEnd => b"after-end",
            Kind::Outside => b"outside",
            Kind::EmptyInterchange => b"empty-interchange",
            Kind::Tail => b"tail",
            Kind::Mixed => b"mixed",
            Kind::Reference => b"reference",
            Kind::Count => b"count",
            Kind::NoUne => b"no-une",
            Kind::EmptyGroup => b"empty-group",
            Kind::GroupType => b"group-type",
            Kind::NoTable => b"no-table",
            Kind::MissingSegment => b"missing-segment",
            Kind::MissingGroup => b"missing-group",
            Kind::TooManySegments => b"too-many-segments",
            Kind::TooManyGroups => b"too-many-groups",
            Kind::Unplaced => b"unplaced",
            Kind::BadTag => b"bad-tag",
            Kind::UnknownSegment => b"unknown-segment",
            Kind::TooManyElements => b"too-many-elements",
            Kind::TooManyComponents => b"too-many-components",
            Kind::Missing => b"missing",
            Kind::Repertoire => b"repertoire",
            Kind::WrongType => b"type",
            Kind::Decimal => b"decimal",
            Kind::TooLong => b"too-long",
            Kind::TooShort => b"too-short",
            Kind::Code => b"code",
            Kind::TooManyRepetitions => b"too-many-repetitions",
        }
    }

    /// Whether it tells of a segment as a whole.
    pub fn is_of_segment(self) -> bool
        ensures { result ≡ is_of_segment self }
    {
        (17..=23).contains(&self.number())
    }

    /// Whether it tells of an element or a component of a segment.
    pub fn is_of_element(self) -> bool
        ensures { result ≡ is_of_element self }
    {
        (24..=33).contains(&self.number())
    }
}

/// The code of a kind, as an acknowledgement tells it: a value of data element 0085.
#[tactic(auto, unfolding(crate::specs::Kinds::code_of))]
pub fn code_of(kind: Kind) -> u8
    ensures { result ≡ code_in_table kind }
{
    match kind {
        Kind::BadUna => 22,
        Kind::NoUnb => 13,
        Kind::NoUnz => 13,
        Kind::Syntax => 2,
        Kind::SecondUnb => 15,
        Kind::AfterEnd => 33,
        Kind::Outside => 33,
        Kind::EmptyInterchange => 32,
        Kind::Tail => 13,
        Kind::Mixed => 30,
        Kind::Reference => 28,
        Kind::Count => 29,
        Kind::NoUne => 13,
        Kind::EmptyGroup => 32,
        Kind::GroupType => 31,
        Kind::NoTable => 12,
        Kind::MissingSegment => 13,
        Kind::MissingGroup => 13,
        Kind::TooManySegments => 35,
        Kind::TooManyGroups => 36,
        Kind::Unplaced => 15,
        Kind::BadTag => 12,
        Kind::UnknownSegment => 12,
        Kind::TooManyElements => 16,
        Kind::TooManyComponents => 16,
        Kind::Missing => 13,
        Kind::Repertoire => 21,
        Kind::WrongType => 37,
        Kind::Decimal => 19,
        Kind::TooLong => 39,
        Kind::TooShort => 40,
        Kind::Code => 12,
        Kind::TooManyRepetitions => 35,
    }
}
