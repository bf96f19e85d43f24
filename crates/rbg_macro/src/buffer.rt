//! A list of tokens that shares the text which they came from, and owns the bytes that were joined.
ghost use Rattle.std.specs.Prelude.{◌≡◌, ◌<◌, [], ◌∷◌, ◌++◌, length, take, slice_get, Some, IfOk, OnOk};
ghost use Rattle.rbg_macro.specs.internal.ReadTokens.{read_lexeme};
ghost use Rattle.rbg_macro.specs.internal.Span.{lexeme_in, IsKeptAs, IsSpanWithin};
ghost use Rattle.rbg_macro.specs.Token.{lexeme_of};

use crate::read_token::{Bytes, ReadToken};
use crate::token::{Token, TokenKind};
use rbg_base::Memory;
use std::alloc::Global;
use std::marker::Model;

/// A token whose bytes are in a buffer.
#[derive(Clone, Copy)]
pub(crate) struct Span {
    pub kind: TokenKind,
    pub start: usize,
    pub end: usize,
    pub at: usize,
}

/// A token that was kept: one of the text, or one that was joined, whose bytes are in the buffer.
#[derive(Clone, Copy)]
pub(crate) enum KeptToken<'t> {
    OfText(Token<'t>),
    Joined(Span),
}

/// The tokens that were kept. Only the bytes that were joined are copied.
pub(crate) struct TokenBuffer<'t> {
    joined: Vec<u8>,
    tokens: Vec<KeptToken<'t>>,
}

impl<'t> Model for TokenBuffer<'t> {
    ghost use Rattle.std.specs.Prelude.{List, map, All};
    ghost use Rattle.rbg_macro.specs.Token.{Lexeme};

    ghost Value = { List Lexeme };

    ghost use Rattle.rbg_macro.specs.internal.Span.{kept_lexeme, IsKeptWithin};

    ghost view = { λ b. map (kept_lexeme b.joined.items) b.tokens.items };

    ghost invariant = { λ b. All (IsKeptWithin b.joined.items) b.tokens.items };
}

/// Written by hand: dropping a buffer is then one call in the proofs of its owners, not a step for each part.
impl Drop for TokenBuffer<'_> {
    fn drop(self) {
        let TokenBuffer {
            joined: _,
            tokens: _,
        } = self;
    }
}

impl<'t> TokenBuffer<'t> {
    /// No tokens yet.
    pub(crate) fn new(alloc: Global) -> Self
        ensures { result ≡ [] }
    {
        TokenBuffer {
            joined: Vec::new(alloc),
            tokens: Vec::new(alloc),
        }
    }

    pub(crate) fn len(&self) -> usize
        ensures { result ≡ length self.now }
    {
        self.tokens.len()
    }

    /// Adds a token at the end.
    pub(crate) fn push(&mut self, token: &ReadToken<'t, '_>) -> Result<(), Memory>
        ensures { OnOk result (self.new ≡ self.old ++ read_lexeme token.now ∷ []) }
    {
        let kept = keep(&mut self.joined, token)?;
        self.tokens.push(kept)?;
        Ok(())
    }

    /// The token with this index.
    pub(crate) fn token(&self, index: usize) -> Token<'_>
        requires { index < length self.now }
        ensures { slice_get self.now index ≡ Some (lexeme_of result) }
    {
        let tokens = self.tokens.as_slice();
        match tokens[index] {
            KeptToken::OfText(token) => token,
            KeptToken::Joined(span) => span.token(&self.joined),
        }
    }
}

/// The token as it is kept. If it was joined, its bytes are added at the end of the buffer.
fn keep<'t>(joined: &mut Vec<u8>, token: &ReadToken<'t, '_>) -> Result<KeptToken<'t>, Memory>
    ensures ok { IfOk result (IsKeptAs joined.new.items (read_lexeme token.now)) }
    ensures front { take (length joined.old.items) joined.new.items ≡ joined.old.items }
{
    match token.bytes {
        Bytes::OfText(text) => Ok(KeptToken::OfText(Token {
            kind: token.kind,
            text,
            at: token.at,
        })),
        Bytes::Joined(text) => {
            let start = joined.len();
            joined.extend_from_slice(text)?;
            Ok(KeptToken::Joined(Span {
                kind: token.kind,
                start,
                end: joined.len(),
                at: token.at,
            }))
        }
    }
}

impl Span {
    /// The token whose bytes are at this place of the texts.
    fn token<'s>(&self, texts: &'s [u8]) -> Token<'s>
        requires { IsSpanWithin texts.now self.now }
        ensures { lexeme_of result ≡ lexeme_in texts.now self.now }
    {
        Token {
            kind: self.kind,
            text: &texts[self.start..self.end],
            at: self.at,
        }
    }
}
