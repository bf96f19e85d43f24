//! Cuts a text into its tokens.
ghost use Rattle.std.specs.Prelude.{◌≡◌, ◌<◌, ◌≤◌, ◌↔◌, length, IfOk, IfErr, IfSome, IfNone, IsTrue};
ghost use Rattle.std.specs.Prelude.{◌≢◌, [], ◌∷◌};
ghost use Rattle.std.specs.List.{prefix_len};
ghost use Rattle.std.specs.Char.{is_ascii_digit};
ghost use Rattle.rbg_macro.specs.Text.{HasTokens, HasTextFault, is_blank, is_comment_byte};
ghost use Rattle.rbg_macro.specs.Spelling.{spelling};
ghost use Rattle.rbg_base.specs.Names.{is_name_start, is_name_part};
ghost use Rattle.rbg_macro.specs.internal.Part.{IsPart, BeginsComment, BeginsNoSymbol, IsLongestSymbol};

use crate::text_error::TextError;
use crate::text_limits::MAX_TEXT;
use crate::token::{Symbol, Token, TokenKind, Tokens};
use rbg_base::{is_name_part, is_name_start};
use std::alloc::Global;

/// What some bytes begin with, and its length.
#[derive(Clone, Copy)]
enum Part {
    /// A blank or a comment.
    Skipped(usize),
    Token(TokenKind, usize),
    /// A zero byte, at the front or in the comment that begins there.
    ZeroByte,
    BadByte,
}

/// The tokens of a text, which borrow it. A text that is too long is refused first. Otherwise the error is that of the
/// first zero byte, or of the first byte that begins no token.
pub fn tokens(alloc: Global, text: &[u8]) -> Result<Tokens<'_>, TextError>
    ensures tokens { IfOk result (HasTokens text.now) }
    ensures fault { IfErr result (HasTextFault text.now) }
{
    if text.len() > MAX_TEXT {
        return Err(TextError::TooLong);
    }
    let mut tokens = Vec::new(alloc);
    let mut at = 0;
    while at < text.len() {
        let rest = &text[at..];
        match first_part(rest) {
            Part::Skipped(len) => at += len,
            Part::Token(kind, len) => {
                let text = &rest[..len];
                tokens.push(Token { kind, text, at })?;
                at += len;
            }
            Part::ZeroByte => return Err(TextError::ZeroByte),
            Part::BadByte => return Err(TextError::BadByte { at }),
        }
    }
    Ok(Tokens::new(tokens))
}

/// What the bytes begin with.
fn first_part(bytes: &[u8]) -> Part
    requires { 0 < length bytes.now }
    ensures { IsPart bytes.now result }
{
    let first = bytes[0];
    if first == 0 {
        return Part::ZeroByte;
    }
    if is_blank(first) {
        return Part::Skipped(1);
    }
    if begins_comment(bytes) {
        return comment_part(&bytes[2..]);
    }
    if is_name_start(first) {
        return Part::Token(TokenKind::Name, name_len(bytes));
    }
    if first.is_ascii_digit() {
        return Part::Token(TokenKind::Number, number_len(bytes));
    }
    match symbol(bytes) {
        Some(symbol) => Part::Token(TokenKind::Symbol(symbol), symbol.len()),
        None => Part::BadByte,
    }
}

fn is_blank(b: u8) -> bool
    ensures { result ≡ is_blank b }
{
    matches!(b, b' ' | b'\t' | b'\r' | b'\n')
}

fn is_comment_byte(b: u8) -> bool
    ensures { result ≡ is_comment_byte b }
{
    b != b'\n' && b != 0
}

/// Whether the bytes begin with `//`.
fn begins_comment(bytes: &[u8]) -> bool
    ensures { IsTrue result ↔ BeginsComment bytes.now }
{
    matches!(bytes, [b'/', b'/', ..])
}

/// The comment that these bytes continue after its `//`.
fn comment_part(line: &[u8]) -> Part
    ensures { IsPart (47 ∷ 47 ∷ line.now) result }
{
    let len = line_len(line);
    if len < line.len() && line[len] == 0 {
        return Part::ZeroByte;
    }
    Part::Skipped(len + 2)
}

/// How many bytes at the front are those of a comment.
fn line_len(line: &[u8]) -> usize
    ensures within { result ≤ length line.now }
    ensures len { result ≡ prefix_len is_comment_byte line.now }
{
    line.iter().take_while(|b| is_comment_byte(**b)).count()
}

/// How many bytes at the front are parts of a name.
fn name_len(bytes: &[u8]) -> usize
    ensures { result ≡ prefix_len is_name_part bytes.now }
{
    bytes.iter().take_while(|b| is_name_part(**b)).count()
}

/// How many bytes at the front are digits.
fn number_len(bytes: &[u8]) -> usize
    ensures { result ≡ prefix_len is_ascii_digit bytes.now }
{
    bytes.iter().take_while(|b| b.is_ascii_digit()).count()
}

/// The longest symbol at the front.
fn symbol(bytes: &[u8]) -> Option<Symbol>
    requires { 0 < length bytes.now }
    ensures found { IfSome result (IsLongestSymbol bytes.now) }
    ensures none { IfNone result (BeginsNoSymbol bytes.now 0) }
{
    match long_symbol(bytes) {
        Some(symbol) => Some(symbol),
        None => short_symbol(bytes[0]),
    }
}

/// The longest symbol at the front that has more than one byte.
fn long_symbol(bytes: &[u8]) -> Option<Symbol>
    ensures found { IfSome result (IsLongestSymbol bytes.now) }
    ensures none { IfNone result (BeginsNoSymbol bytes.now 1) }
{
    match bytes {
        [b'-', b'>', b'>', ..] => Some(Symbol::DoubleArrow),
        [b'-', b'>', ..] => Some(Symbol::Arrow),
        [b'=', b'=', ..] => Some(Symbol::DoubleEquals),
        [b'!', b'=', ..] => Some(Symbol::NotEquals),
        [b'<', b'=', ..] => Some(Symbol::LessOrEqual),
        [b'>', b'=', ..] => Some(Symbol::GreaterOrEqual),
        _ => None,
    }
}

/// The symbol of this one byte.
fn short_symbol(b: u8) -> Option<Symbol>
    ensures found { IfSome result (λ symbol. spelling symbol ≡ b ∷ []) }
    ensures none { IfNone result ((symbol : Symbol) → spelling symbol ≢ b ∷ []) }
{
    let symbol = match b {
        b'=' => Symbol::Equals,
        b'<' => Symbol::LessThan,
        b'>' => Symbol::GreaterThan,
        b'+' => Symbol::Plus,
        b'-' => Symbol::Minus,
        b'*' => Symbol::Star,
        b'/' => Symbol::Slash,
        b'(' => Symbol::OpenParenthesis,
        b')' => Symbol::CloseParenthesis,
        b'[' => Symbol::OpenBracket,
        b']' => Symbol::CloseBracket,
        b'{' => Symbol::OpenBrace,
        b'}' => Symbol::CloseBrace,
        b',' => Symbol::Comma,
        b';' => Symbol::Semicolon,
        b':' => Symbol::Colon,
        b'~' => Symbol::Tilde,
        b'#' => Symbol::Hash,
        b'$' => Symbol::Dollar,
        b'?' => Symbol::Question,
        b'!' => Symbol::Exclamation,
        _ => return None,
    };
    Some(symbol)
}
