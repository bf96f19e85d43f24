//! Searches among tokens.

use rbg_macro::{Symbol, Token};

/// The index of the first token that is this symbol.
pub fn index_of(tokens: &[Token<'_>], symbol: Symbol) -> Option<usize> {
    for (index, token) in tokens.iter().enumerate() {
        if token.is(symbol) {
            return Some(index);
        }
    }
    None
}

/// The tokens from the last one that is this symbol; none if there is no such token.
pub fn from_last<'a>(tokens: &'a [Token<'a>], symbol: Symbol) -> &'a [Token<'a>] {
    let mut start = tokens.len();
    for (index, token) in tokens.iter().enumerate() {
        if token.is(symbol) {
            start = index;
        }
    }
    tokens.get(start..).unwrap_or(&[])
}

/// The tokens before the first one that is this symbol; all of them if there is no such token.
pub fn before_first<'a, 't>(tokens: &'a [Token<'t>], symbol: Symbol) -> &'a [Token<'t>] {
    let end = index_of(tokens, symbol).unwrap_or(tokens.len());
    tokens.get(..end).unwrap_or(tokens)
}

/// Whether the token at an index is this symbol.
pub fn is_at(tokens: &[Token<'_>], index: usize, symbol: Symbol) -> bool {
    match tokens.get(index) {
        Some(token) => token.is(symbol),
        None => false,
    }
}

/// How many of the tokens are names.
pub fn count_names(tokens: &[Token<'_>]) -> usize {
    let mut count = 0usize;
    for token in tokens {
        if token.kind.is_name() {
            count = count.saturating_add(1);
        }
    }
    count
}

/// The offset of a token, if there is one.
pub fn offset_of(token: Option<Token<'_>>) -> Option<usize> {
    Some(token?.at)
}

/// The offset of the first token.
pub fn start_of(tokens: &[Token<'_>]) -> Option<usize> {
    Some(tokens.first()?.at)
}

/// Whether one of these tokens has this text.
pub fn has_text(tokens: &[Token<'_>], text: &[u8]) -> bool {
    for token in tokens {
        if token.text == text {
            return true;
        }
    }
    false
}

/// Whether one of these tokens is at this offset.
pub fn holds_offset(tokens: &[Token<'_>], at: usize) -> bool {
    for token in tokens {
        if token.at == at {
            return true;
        }
    }
    false
}

/// The name after `count` others.
pub fn nth_name<'a>(tokens: &[Token<'a>], count: usize) -> Option<Token<'a>> {
    let mut left = count;
    for token in tokens {
        if token.kind.is_name() {
            if left == 0 {
                return Some(*token);
            }
            left -= 1;
        }
    }
    None
}
