//! What is left of a section's tokens, and the readers of single tokens.
ghost use Rattle.std.specs.Prelude.{◌≡◌, [], ◌∷◌, drop, List, IfOk, IfSome, IsTrue, MatchOption};
ghost use Rattle.rbg_base.specs.Names.{is_name as is_a_name};
ghost use Rattle.rbg_macro.specs.Token.{Lexeme, lexeme_of};
ghost use Rattle.rbg_macro.specs.Kinds.{is_name_kind, is_number_kind, is_symbol};
ghost use Rattle.rbg_syntax.specs.internal.Giving.{FailsWithin, Gives};
ghost use Rattle.rbg_syntax.specs.internal.Kinds.{is_kind};
ghost use Rattle.rbg_grammar.specs.Reading.{Takes, ended_at, front_at, next_is, next_word, name_at, number_at, place_of, symbol_at, token_at, word_at};
ghost use Rattle.rbg_syntax.specs.declared.error.ReadError.TheVariants as errors;
ghost use Rattle.rbg_grammar.specs.RuleReading.{too_deep_at};
ghost use Rattle.rbg_grammar.specs.Views.{name_of, number_of};

use crate::error::{Expectation, ReadError, Reading};
use rbg_base::number_of_digits;
use rbg_grammar::{Name, Number};
use rbg_macro::{Section, Symbol, Token, TokenKind};
use std::marker::Model;

/// What is left of a section's tokens.
#[derive(Drop)]
pub(crate) struct Parser<'a> {
    section: Section<'a>,
    position: usize,
}

impl<'a> Model for Parser<'a> {
    ghost use Rattle.std.specs.Prelude.{List, ◌≤◌, drop, length};
    ghost use Rattle.rbg_base.specs.Names.{is_name as is_a_name};
    ghost use Rattle.rbg_macro.specs.Token.{Lexeme};

    ghost Value = { List Lexeme };

    ghost view = { λ p. drop p.position p.section.tokens };

    ghost invariant = { λ p. p.position ≤ length p.section.tokens };
}

impl<'a> Parser<'a> {
    /// All of a section's tokens.
    pub(crate) fn new(section: Section<'a>) -> Parser<'a>
        ensures { result ≡ section.entry.tokens }
    {
        Parser {
            section,
            position: 0,
        }
    }

    /// The next token.
    #[tactic(auto, using(crate::proofs::Fronts::front_from_get, crate::proofs::Fronts::drop_whole))]
    pub(crate) fn peek(&self) -> Option<Token<'a>>
        ensures front { MatchOption result (self.now ≡ []) (λ t.
            self.now ≡ lexeme_of t ∷ drop 1 self.now) }
        ensures name { IfSome result (λ t. t.kind ≡ TokenKind.Name
            → IsTrue (is_a_name t.text.now)) }
    {
        if self.position < self.section.len() {
            Some(self.section.token(self.position))
        } else {
            None
        }
    }

    /// The token after the next one.
    #[tactic(auto, using(crate::proofs::Fronts::second_from_get, crate::proofs::Fronts::second_past))]
    fn peek_second(&self) -> Option<Token<'a>>
        ensures { MatchOption result (drop 1 self.now ≡ [])
            (λ t. drop 1 self.now ≡ lexeme_of t ∷ drop 1 (drop 1 self.now)) }
    {
        if self.section.len() - self.position < 2 {
            None
        } else {
            Some(self.section.token(self.position + 1))
        }
    }

    /// Passes the next token, if there is one.
    #[tactic(auto, using(crate::proofs::Fronts::drop_one_more, crate::proofs::Fronts::drop_past))]
    pub(crate) fn advance(&mut self)
        ensures { self.new ≡ drop 1 self.old }
    {
        if self.position < self.section.len() {
            self.position += 1;
        }
    }

    /// Whether the next token is this symbol.
    pub(crate) fn next_is(&self, symbol: Symbol) -> bool
        ensures { result ≡ next_is (is_symbol symbol) self.now }
    {
        match self.peek() {
            Some(token) => token.is(symbol),
            None => false,
        }
    }

    /// Whether the next token is a name.
    pub(crate) fn next_is_name(&self) -> bool
        ensures { result ≡ next_is is_name_kind self.now }
    {
        match self.peek() {
            Some(token) => token.kind == TokenKind::Name,
            None => false,
        }
    }

    /// Whether the next token is a number.
    pub(crate) fn next_is_number(&self) -> bool
        ensures { result ≡ next_is is_number_kind self.now }
    {
        match self.peek() {
            Some(token) => token.kind == TokenKind::Number,
            None => false,
        }
    }

    /// Whether the next token is this word.
    pub(crate) fn next_is_word(&self, text: &[u8]) -> bool
        ensures { result ≡ next_word text.now self.now }
    {
        match self.peek() {
            Some(token) => token.kind == TokenKind::Name && token.text == text,
            None => false,
        }
    }

    /// Whether the token after the next one is this symbol.
    pub(crate) fn second_is(&self, symbol: Symbol) -> bool
        ensures { result ≡ next_is (is_symbol symbol) (drop 1 self.now) }
    {
        match self.peek_second() {
            Some(token) => token.is(symbol),
            None => false,
        }
    }

    /// Passes the next token if it is this symbol.
    pub(crate) fn takes(&mut self, symbol: Symbol) -> bool
        ensures { Takes symbol result self.old self.new }
    {
        if !self.next_is(symbol) {
            return false;
        }
        self.advance();
        true
    }

    /// The next token, or an error if there is none.
    pub(crate) fn front(&self, what: Expectation) -> Reading<Token<'a>>
        ensures front { Gives (λ t. (lexeme_of t, drop 1 self.now)) result (front_at self.now) }
        ensures name { IfOk result (λ t. t.kind ≡ TokenKind.Name → IsTrue (is_a_name t.text.now)) }
    {
        match self.peek() {
            Some(token) => Ok(token),
            None => Err(ReadError::Misfit { at: None, what }),
        }
    }

    /// The error that the next token doesn't fit.
    pub(crate) fn misfit(&self, what: Expectation) -> ReadError
        ensures { result ≡ errors.Misfit (place_of self.now) what }
    {
        match self.peek() {
            Some(token) => ReadError::Misfit {
                at: Some(token.at),
                what,
            },
            None => ReadError::Misfit { at: None, what },
        }
    }

    /// The error that the next token is one bracket too many.
    pub(crate) fn too_deep(&self) -> ReadError
        ensures { FailsWithin {B = Unit {0} × List Lexeme} result (too_deep_at self.now) }
    {
        match self.peek() {
            Some(token) => ReadError::TooDeep { at: token.at },
            None => self.misfit(Expectation::Item),
        }
    }

    /// Returns an error if a token is left.
    pub(crate) fn end(&self, what: Expectation) -> Reading<()>
        ensures { Gives (λ x. x) result (ended_at tt self.now) }
    {
        match self.peek() {
            Some(token) => Err(ReadError::Misfit {
                at: Some(token.at),
                what,
            }),
            None => Ok(()),
        }
    }

    /// Passes a token of this kind.
    fn token(&mut self, kind: TokenKind, what: Expectation) -> Reading<Token<'a>>
        ensures token { Gives (λ t. (lexeme_of t, self.new)) result (token_at (is_kind kind)
            self.old) }
        ensures name { IfOk result (λ t. kind ≡ TokenKind.Name → IsTrue (is_a_name t.text.now)) }
    {
        let token = self.front(what)?;
        if !is_kind(kind, token.kind) {
            return Err(self.misfit(what));
        }
        self.advance();
        Ok(token)
    }

    /// Passes the symbol, and returns its offset.
    #[tactic(auto, unfolding(rbg_grammar::specs::Reading::symbol_at))]
    pub(crate) fn symbol(&mut self, symbol: Symbol, what: Expectation) -> Reading<usize>
        ensures { Gives (λ at. (at, self.new)) result (symbol_at symbol self.old) }
    {
        let token = self.token(TokenKind::Symbol(symbol), what)?;
        Ok(token.at)
    }

    /// Passes a name.
    #[tactic(auto, unfolding(rbg_grammar::specs::Reading::name_at))]
    pub(crate) fn name(&mut self) -> Reading<Name<'a>>
        ensures { Gives (λ n. (name_of n, self.new)) result (name_at self.old) }
    {
        let token = self.token(TokenKind::Name, Expectation::Name)?;
        Ok(Name {
            text: token.text,
            at: token.at,
        })
    }

    /// Passes a name that is this word, and returns its offset.
    #[tactic(auto, unfolding(rbg_grammar::specs::Reading::word_at))]
    pub(crate) fn word(&mut self, text: &[u8], what: Expectation) -> Reading<usize>
        ensures { Gives (λ at. (at, self.new)) result (word_at text.now self.old) }
    {
        let token = self.token(TokenKind::Name, what)?;
        if token.text != text {
            return Err(ReadError::Misfit {
                at: Some(token.at),
                what,
            });
        }
        Ok(token.at)
    }

    /// Passes a number.
    #[tactic(auto, unfolding(rbg_grammar::specs::Reading::number_at))]
    pub(crate) fn number(&mut self) -> Reading<Number>
        ensures { Gives (λ n. (number_of n, self.new)) result (number_at self.old) }
    {
        let token = self.token(TokenKind::Number, Expectation::Number)?;
        Ok(Number {
            value: number_of_digits(token.text),
            at: token.at,
        })
    }
}

/// Whether a kind is this one.
fn is_kind(kind: TokenKind, own: TokenKind) -> bool
    ensures { result ≡ is_kind kind own }
{
    match kind {
        TokenKind::Name => own == TokenKind::Name,
        TokenKind::Number => own == TokenKind::Number,
        TokenKind::Symbol(symbol) => own.is(symbol),
    }
}
