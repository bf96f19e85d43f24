//! The text with another section of its board.
ghost use Rattle.std.specs.Prelude.{◌≡◌, ◌↔◌, ◌+◌, ◌<◌, ◌≤◌, ◌++◌, ℕ, IfNone, IfOk, IfSome, IsTrue, codes, drop, length, map, take, true};
ghost use Rattle.rbg_macro.specs.Kinds.{is_symbol};
ghost use Rattle.rbg_macro.specs.declared.token.Symbol.TheVariants as symbols;
ghost use Rattle.rbg_macro.specs.Text.{HasTokens};
ghost use Rattle.rbg_macro.specs.Token.{lexeme_of};
ghost use Rattle.rbg_position.specs.Boards.{BeginsBoard, IsBoardSection, IsRewritten};
ghost use Rattle.rbg_position.specs.internal.Missing.{HasNoBoard};

use rbg_base::Memory;
use rbg_macro::{Symbol, Token, TokenKind, Tokens};
use std::alloc::Global;

/// The text with this section in place of that of its board, or None if it has no such section.
pub(crate) fn rewritten(
    alloc: Global,
    text: &[u8],
    tokens: &Tokens<'_>,
    section: &[u8],
) -> Result<Option<Vec<u8>>, Memory>
    requires { HasTokens text.now tokens.now }
    ensures found { IfOk result (λ new.
        IfSome new (λ new. IsRewritten text.now section.now new.items)) }
    ensures none { IfOk result (λ new. IfNone new (HasNoBoard text.now)) }
{
    let tokens = tokens.as_slice();
    match find_board(tokens) {
        Some(start) => {
            let last = find_end(tokens, start) - 1;
            let first = tokens[start].at;
            let new = replaced(alloc, text, first, &tokens[last], section)?;
            Ok(Some(new))
        }
        None => Ok(None),
    }
}

/// The text with this section in place of the part from an offset to the end of the last token.
fn replaced(
    alloc: Global,
    text: &[u8],
    first: usize,
    last: &Token<'_>,
    section: &[u8],
) -> Result<Vec<u8>, Memory>
    ensures { IfOk result (λ new. new.items
        ≡ take first text.now ++ section.now ++ drop (last.now.at + length last.now.text.now) text.now) }
{
    let start = first.min(text.len());
    let end = last.at.saturating_add(last.text.len()).min(text.len());
    let mut new = Vec::new(alloc);
    new.extend_from_slice(&text[..start])?;
    new.extend_from_slice(section)?;
    new.extend_from_slice(&text[end..])?;
    Ok(new)
}

/// The index of the `#` before the name of the board's section.
fn find_board(tokens: &[Token<'_>]) -> Option<usize>
    ensures found { IfSome result (BeginsBoard (map lexeme_of tokens.now)) }
    ensures within { IfSome result (λ start. start + 2 ≤ length tokens.now) }
    ensures none { IfNone result ((at : ℕ) → ¬ BeginsBoard (map lexeme_of tokens.now) at) }
{
    for at in 0..tokens.len().saturating_sub(1) {
        if begins_board(tokens, at) {
            return Some(at);
        }
    }
    None
}

/// Whether `#board` is at an index.
fn begins_board(tokens: &[Token<'_>], at: usize) -> bool
    requires { at + 1 < length tokens.now }
    ensures { IsTrue result ↔ BeginsBoard (map lexeme_of tokens.now) at }
{
    is_board(tokens[at].kind, tokens[at + 1].text)
}

/// Whether the kind is that of `#`, and the name is `board`.
fn is_board(kind: TokenKind, name: &[u8]) -> bool
    ensures { IsTrue result ↔ ((is_symbol symbols.Hash kind ≡ true) × (name.now ≡ codes "board")) }
{
    kind.is(Symbol::Hash) && name == b"board".as_slice()
}

/// The index of the next `#` after `#board`, or the number of tokens if there is none.
fn find_end(tokens: &[Token<'_>], start: usize) -> usize
    requires begins { BeginsBoard (map lexeme_of tokens.now) start }
    requires within { start + 2 ≤ length tokens.now }
    ensures { IsBoardSection (map lexeme_of tokens.now) start result }
{
    for end in start + 2..tokens.len() {
        if tokens[end].kind.is(Symbol::Hash) {
            return end;
        }
    }
    tokens.len()
}
