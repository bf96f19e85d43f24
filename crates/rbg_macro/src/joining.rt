//! Joining: each `~` and its two neighbours become one token, from the left.
ghost use Rattle.std.specs.Prelude.{ℕ, ◌≡◌, ◌+◌, ◌<◌, ◌≤◌, [], ◌∷◌, ◌++◌, List, length, take, drop, map, Ok, Err, IfOk};
ghost use Rattle.std.specs.Prelude.{IfErr, OnOk, IsTrue, All};
ghost use Rattle.rbg_macro.specs.internal.Gives.{Gives};
ghost use Rattle.rbg_macro.specs.Errors.{UnlessMemory};
ghost use Rattle.rbg_macro.specs.internal.Joined.{AddsChain, JoinsNext, JoinsChain, FailsChain, IsJoinedWithin};
ghost use Rattle.rbg_macro.specs.internal.Joined.{begins_with_tilde, joined_word, word_at};
ghost use Rattle.rbg_macro.specs.internal.Marks.{IsMarked, IsMarkedWord, word_of, lexeme_in_word};
ghost use Rattle.rbg_macro.specs.internal.ReadTokens.{read_lexeme};
ghost use Rattle.rbg_macro.specs.internal.Span.{lexeme_in, IsSpanWithin};
ghost use Rattle.rbg_macro.specs.Joining.{joined, joined_from, joined_kind};

use crate::buffer::Span;
use crate::error::MacroError;
use crate::limits::MAX_JOINED;
use crate::marking::MarkedMacros;
use crate::read_token::{Bytes, ReadToken};
use crate::token::{Symbol, TokenKind};
use rbg_base::Memory;
use std::alloc::Global;
use std::marker::Model;

/// A token that stayed as it was, or one that was joined, whose bytes are in a buffer.
#[derive(Clone, Copy)]
pub(crate) enum JoinedToken<'t, 'j> {
    Single(ReadToken<'t, 'j>),
    /// With the number of the macro that it names.
    Joined(Span, Option<usize>),
}

/// A joined list, with the texts of its joined tokens.
#[derive(Drop)]
pub(crate) struct JoinedList<'t, 'j> {
    texts: Vec<u8>,
    tokens: Vec<JoinedToken<'t, 'j>>,
}

impl<'t, 'j> Model for JoinedList<'t, 'j> {
    ghost use Rattle.std.specs.Prelude.{List, map, All};
    ghost use Rattle.rbg_macro.specs.internal.Marks.{Word};

    ghost Value = { List Word };

    ghost use Rattle.rbg_macro.specs.internal.Joined.{joined_word, IsJoinedWithin};

    ghost view = { λ j. map (joined_word j.texts.items) j.tokens.items };

    ghost invariant = { λ j. All (IsJoinedWithin j.texts.items) j.tokens.items };
}

/// The kind of the token that two tokens make together, if they make a name or a number.
fn joined_kind(left: TokenKind, right: TokenKind) -> Option<TokenKind>
    ensures { result ≡ joined_kind left right }
{
    match (left, right) {
        (TokenKind::Name, TokenKind::Name | TokenKind::Number) => Some(TokenKind::Name),
        (TokenKind::Number, TokenKind::Number) => Some(TokenKind::Number),
        _ => None,
    }
}

/// Whether the first token is `~`.
pub(crate) fn begins_with_tilde(tokens: &[ReadToken<'_, '_>]) -> bool
    ensures { result ≡ begins_with_tilde (map read_lexeme tokens.now) }
{
    match tokens.first() {
        Some(token) => token.kind.is(Symbol::Tilde),
        None => false,
    }
}

/// Adds the second token to the word that begins at `start`, and returns the word's kind. The first token is `~`.
fn join_next(
    texts: &mut Vec<u8>,
    start: usize,
    kind: TokenKind,
    tokens: &[ReadToken<'_, '_>],
) -> Result<TokenKind, MacroError>
    requires start { start ≤ length texts.old.items }
    requires tilde { IsTrue (begins_with_tilde (map read_lexeme tokens.now)) }
    ensures ok { IfOk result (λ k.
        JoinsNext kind k (drop start texts.old.items) (drop start texts.new.items)
        (map read_lexeme tokens.now)) }
    ensures front { take (length texts.old.items) texts.new.items ≡ texts.old.items }
    ensures err { IfErr result (UnlessMemory (λ e. (at : ℕ) →
        joined_from (word_at at kind (drop start texts.old.items)) (map read_lexeme tokens.now)
        ≡ Err e)) }
{
    let at = tokens[0].at;
    if tokens.len() == 1 {
        return Err(MacroError::BadJoin { at });
    }
    let right = tokens[1];
    let Some(joined) = joined_kind(kind, right.kind) else {
        return Err(MacroError::BadJoin { at });
    };
    let bytes = right.text();
    let len = (texts.len() - start).saturating_add(bytes.len());
    if len > MAX_JOINED {
        return Err(MacroError::BadJoin { at });
    }
    texts.extend_from_slice(bytes)?;
    Ok(joined)
}

/// Joins the first token with those that follow, each after a `~`. Adds the word's bytes to the texts, and returns its
/// kind and the number of tokens that it took.
fn join_chain(
    texts: &mut Vec<u8>,
    tokens: &[ReadToken<'_, '_>],
) -> Result<(TokenKind, usize), MacroError>
    requires { 0 < length tokens.now }
    ensures ok { IfOk result (λ x. JoinsChain (map read_lexeme tokens.now) x.0
        (drop (length texts.old.items) texts.new.items) x.1) }
    ensures front { take (length texts.old.items) texts.new.items ≡ texts.old.items }
    ensures err { IfErr result (UnlessMemory (λ e. FailsChain (map read_lexeme tokens.now) e)) }
{
    let start = texts.len();
    let first = tokens[0];
    texts.extend_from_slice(first.text())?;
    let mut kind = first.kind;
    let mut count = 1;
    while begins_with_tilde(&tokens[count..]) {
        kind = join_next(texts, start, kind, &tokens[count..])?;
        count += 2;
    }
    Ok((kind, count))
}

impl<'t, 'j> JoinedList<'t, 'j> {
    fn new(alloc: Global) -> Self
        ensures { result ≡ [] }
    {
        JoinedList {
            texts: Vec::new(alloc),
            tokens: Vec::new(alloc),
        }
    }

    /// Adds a token that stays as it is.
    fn push(&mut self, token: ReadToken<'t, 'j>) -> Result<(), Memory>
        ensures { OnOk result (self.new ≡ self.old ++ word_of token.entry ∷ []) }
    {
        self.tokens.push(JoinedToken::Single(token))?;
        Ok(())
    }

    /// Adds the token that the first tokens make together: each but the first follows a `~`. Returns the number of
    /// tokens that it took.
    fn push_chain(
        &mut self,
        macros: &MarkedMacros<'_>,
        tokens: &[ReadToken<'_, '_>],
    ) -> Result<usize, MacroError>
        requires { 0 < length tokens.now }
        ensures ok { IfOk result (AddsChain (map lexeme_in_word self.old)
            (map lexeme_in_word self.new)
            (map read_lexeme tokens.now)) }
        ensures marks { OnOk result (All (IsMarkedWord macros.now) self.old
            → All (IsMarkedWord macros.now) self.new) }
        ensures err { IfErr result (UnlessMemory (λ e. FailsChain (map read_lexeme tokens.now) e)) }
    {
        let at = tokens[0].at;
        let start = self.texts.len();
        let (kind, count) = join_chain(&mut self.texts, tokens)?;
        let end = self.texts.len();
        let word = Span {
            kind,
            start,
            end,
            at,
        };
        let token = macros.mark(&token_at(&word, &self.texts));
        self.tokens
            .push(JoinedToken::Joined(word, token.macro_number))?;
        Ok(count)
    }

    /// The tokens of the list, which borrow its texts.
    pub(crate) fn tokens<'s>(&'s self, alloc: Global) -> Result<Vec<ReadToken<'t, 's>>, Memory>
        ensures { IfOk result (λ v. map word_of v.items ≡ self.now) }
    {
        let mut tokens = Vec::with_capacity(alloc, self.tokens.len())?;
        for token in &self.tokens {
            tokens.push(resolve(token, &self.texts))?;
        }
        Ok(tokens)
    }
}

/// The token itself, or the one whose bytes are in the texts.
fn resolve<'t, 's>(token: &JoinedToken<'t, 's>, texts: &'s [u8]) -> ReadToken<'t, 's>
    requires { IsJoinedWithin texts.now token.now }
    ensures { word_of result ≡ joined_word texts.now token.now }
{
    match token {
        JoinedToken::Single(token) => *token,
        JoinedToken::Joined(span, number) => ReadToken {
            macro_number: *number,
            ..token_at(span, texts)
        },
    }
}

/// The token whose bytes are at a place of the texts.
fn token_at<'t, 's>(span: &Span, texts: &'s [u8]) -> ReadToken<'t, 's>
    requires { IsSpanWithin texts.now span.now }
    ensures { read_lexeme result ≡ lexeme_in texts.now span.now }
{
    ReadToken {
        kind: span.kind,
        bytes: Bytes::Joined(&texts[span.start..span.end]),
        at: span.at,
        macro_number: None,
    }
}

/// The list, joined over its whole length from the left.
pub(crate) fn join<'t, 'j>(
    alloc: Global,
    macros: &MarkedMacros<'_>,
    list: &[ReadToken<'t, 'j>],
) -> Result<JoinedList<'t, 'j>, MacroError>
    requires { All (IsMarked macros.now) list.now }
    ensures joined { Gives (map lexeme_in_word) result (joined (map read_lexeme list.now)) }
    ensures marked { IfOk result (All (IsMarkedWord macros.now)) }
{
    let mut joined = JoinedList::new(alloc);
    if begins_with_tilde(list) {
        return Err(MacroError::BadJoin { at: list[0].at });
    }
    let mut at = 0;
    while at < list.len() {
        if begins_with_tilde(&list[at + 1..]) {
            at += joined.push_chain(macros, &list[at..])?;
        } else {
            joined.push(list[at])?;
            at += 1;
        }
    }
    Ok(joined)
}
