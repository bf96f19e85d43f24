//! The expanded sections of a description, which share its text and own what macros joined.
ghost use Rattle.std.specs.Prelude.{◌≡◌, ◌<◌, ◌==◌, IsTrue, Some, length, slice_get};
ghost use Rattle.rbg_base.specs.Names.{is_name};
ghost use Rattle.rbg_macro.specs.Names.{section_name};
ghost use Rattle.rbg_macro.specs.Spelling.{is_number};
ghost use Rattle.rbg_macro.specs.Token.{lexeme_of};

use crate::buffer::TokenBuffer;
use crate::token::{Token, TokenKind};
use std::fmt;
use std::marker::Model;

/// The kind of a section.
#[derive(Clone, Copy, Debug, PartialEq, Eq)]
pub enum SectionKind {
    Players,
    Pieces,
    Variables,
    Board,
    Rules,
}

impl SectionKind {
    /// The name of the section, as in the text.
    #[tactic(auto, unfolding(crate::specs::Names::section_name))]
    pub fn name(self) -> &'static str
        ensures { result.now ≡ section_name self }
    {
        match self {
            SectionKind::Players => "players",
            SectionKind::Pieces => "pieces",
            SectionKind::Variables => "variables",
            SectionKind::Board => "board",
            SectionKind::Rules => "rules",
        }
    }
}

impl fmt::Display for SectionKind {
    fn fmt<W: fmt::Write>(&self, f: &mut fmt::Formatter<W>) -> fmt::Result {
        f.write_str(self.name())
    }
}

/// Where the tokens of a section are in a list of tokens.
#[derive(Clone, Copy)]
pub(crate) struct SectionSpan {
    pub kind: SectionKind,
    pub at: usize,
    pub start: usize,
    pub end: usize,
}

/// The sections of a description in order of the text, with their macros expanded. They borrow the text.
pub struct Source<'t> {
    tokens: TokenBuffer<'t>,
    sections: Vec<SectionSpan>,
}

impl<'t> Model for Source<'t> {
    ghost use Rattle.std.specs.Prelude.{List, map, All, length};
    ghost use Rattle.rbg_macro.specs.Sections.{SectionTokens};

    ghost Value = { List SectionTokens };

    ghost use Rattle.rbg_macro.specs.internal.Span.{section_in, IsSectionIn};

    ghost view = { λ s. map (section_in s.tokens) s.sections.items };

    ghost invariant = { λ s. All (IsSectionIn s.tokens) s.sections.items };
}

/// Written by hand: dropping a source is then one call in the proofs of its owners, not a step for each part.
impl Drop for Source<'_> {
    fn drop(self) {
        let Source {
            tokens: _,
            sections: _,
        } = self;
    }
}

/// One section of a source.
#[derive(Drop)]
pub struct Section<'a> {
    tokens: &'a TokenBuffer<'a>,
    span: SectionSpan,
}

impl<'a> Model for Section<'a> {
    ghost use Rattle.std.specs.Prelude.{length};
    ghost use Rattle.rbg_macro.specs.Sections.{SectionTokens};

    ghost Value = { SectionTokens };

    ghost use Rattle.rbg_macro.specs.internal.Span.{section_in, IsSectionIn};

    ghost view = { λ s. section_in s.tokens.now s.span };

    ghost invariant = { λ s. IsSectionIn s.tokens.now s.span };
}

impl<'t> Source<'t> {
    ghost use Rattle.std.specs.Prelude.{◌≡◌, ◌<◌, ◌==◌, All, Some, length, map, slice_get};
    ghost use Rattle.rbg_macro.specs.internal.Span.{section_in, IsSectionIn};

    pub(crate) fn new(tokens: TokenBuffer<'t>, sections: Vec<SectionSpan>) -> Self
        requires { All (IsSectionIn tokens) sections.items }
        ensures { result ≡ map (section_in tokens.entry) sections.items }
    {
        Source { tokens, sections }
    }

    /// The number of sections.
    pub fn len(&self) -> usize
        ensures { result ≡ length self.now }
    {
        self.sections.len()
    }

    /// Whether there is no section.
    pub fn is_empty(&self) -> bool
        ensures { result ≡ (length self.now == 0) }
    {
        self.sections.is_empty()
    }

    /// The section with this index, in order of the text.
    pub fn section(&self, index: usize) -> Section<'_>
        requires { index < length self.now }
        ensures { slice_get self.now index ≡ Some result }
    {
        let sections = self.sections.as_slice();
        Section {
            tokens: &self.tokens,
            span: sections[index],
        }
    }
}

impl<'a> Section<'a> {
    /// The kind of the section.
    pub fn kind(&self) -> SectionKind
        ensures { result ≡ self.now.kind }
    {
        self.span.kind
    }

    /// The offset of its `#`.
    pub fn at(&self) -> usize
        ensures { result ≡ self.now.at }
    {
        self.span.at
    }

    /// The number of its tokens.
    pub fn len(&self) -> usize
        ensures { result ≡ length self.now.tokens }
    {
        self.span.end - self.span.start
    }

    /// Whether it has no token.
    pub fn is_empty(&self) -> bool
        ensures { result ≡ (length self.now.tokens == 0) }
    {
        self.span.start == self.span.end
    }

    /// The token with this index.
    pub fn token(&self, index: usize) -> Token<'a>
        requires { index < length self.now.tokens }
        ensures token { slice_get self.now.tokens index ≡ Some (lexeme_of result) }
        ensures name { result.kind ≡ TokenKind.Name → IsTrue (is_name result.text.now) }
        ensures number { result.kind ≡ TokenKind.Number → IsTrue (is_number result.text.now) }
    {
        let span = self.span;
        self.tokens.token(span.start + index)
    }
}
