//! Why sections spell no description.
ghost use Rattle.rbg_syntax.specs.declared.error.ReadError.TheVariants as errors;
ghost use Rattle.rbg_syntax.specs.Names.{part_name};
ghost use Rattle.rbg_syntax.specs.internal.Giving.{error_in};
ghost use Rattle.std.specs.Prelude.{◌≡◌};

use rbg_base::Memory;
use rbg_macro::SectionKind;
use std::fmt;
use thiserror::Error;

/// Why sections spell no description.
#[derive(Clone, Copy, Debug, PartialEq, Eq, Error)]
pub enum SyntaxError {
    /// The token at this offset is the first that doesn't fit, or the section whose `#` is here ends too early.
    #[error("expected {what} at byte {at}")]
    Expected { at: usize, what: Expectation },
    #[error("the section {which:?} is missing")]
    MissingSection { which: SectionKind },
    #[error("there are two sections {which:?}")]
    SectionTwice { which: SectionKind },
    /// The opening bracket at this offset would be the 129th open one.
    #[error("brackets are nested too deep at byte {at}")]
    TooDeep { at: usize },
    #[error("out of memory")]
    Memory,
}

/// What is needed at a token that doesn't fit. Its text is the name of the variant, such as `Closing`.
#[derive(Clone, Copy, Debug, PartialEq, Eq)]
pub enum Expectation {
    /// A name; also after the `{` of an on, at which `}` fits too.
    Name,
    /// The number of a bound.
    Number,
    /// One particular opening bracket.
    Opening,
    /// The next part of a list or its closing bracket.
    Closing,
    Equals,
    Comma,
    Colon,
    /// An item of rules.
    Item,
    /// A number, a name, `(` or `-`.
    Factor,
    /// A relation.
    Relation,
    /// The name of a generator of boards.
    Generator,
    /// The end of the section, or a token that continues it.
    End,
}

impl Expectation {
    /// Its name in a refusal, such as `Closing`.
    #[tactic(auto, unfolding(crate::specs::Names::part_name))]
    pub fn name(self) -> &'static str
        ensures { result.now ≡ part_name self }
    {
        match self {
            Expectation::Name => "Name",
            Expectation::Number => "Number",
            Expectation::Opening => "Opening",
            Expectation::Closing => "Closing",
            Expectation::Equals => "Equals",
            Expectation::Comma => "Comma",
            Expectation::Colon => "Colon",
            Expectation::Item => "Item",
            Expectation::Factor => "Factor",
            Expectation::Relation => "Relation",
            Expectation::Generator => "Generator",
            Expectation::End => "End",
        }
    }
}

impl fmt::Display for Expectation {
    fn fmt<W: fmt::Write>(&self, f: &mut fmt::Formatter<W>) -> fmt::Result {
        f.write_str(self.name())
    }
}

/// Why a reader stops. `parse` makes a `SyntaxError` of it.
#[derive(Clone, Copy)]
pub(crate) enum ReadError {
    /// The token at this offset doesn't fit. With no offset, the section's tokens end too early.
    Misfit {
        at: Option<usize>,
        what: Expectation,
    },
    /// The opening bracket at this offset is one too many.
    TooDeep {
        at: usize,
    },
    Memory,
}

/// What a reader returns.
pub(crate) type Reading<T> = Result<T, ReadError>;

impl ReadError {
    /// The error in a section whose `#` is at this offset.
    pub(crate) fn in_section(self, start: usize) -> SyntaxError
        ensures { result ≡ error_in start self }
    {
        match self {
            ReadError::Misfit { at, what } => SyntaxError::Expected {
                at: at.unwrap_or(start),
                what,
            },
            ReadError::TooDeep { at } => SyntaxError::TooDeep { at },
            ReadError::Memory => SyntaxError::Memory,
        }
    }
}

/// An error of a refused allocation becomes `Memory`.
impl<E: Into<Memory> + Drop> From<E> for ReadError {
    ghost from_gives = { λ _ e. e ≡ errors.Memory };

    fn from(_error: E) -> ReadError {
        ReadError::Memory
    }
}
