//! The actions that the tokens of rules spell, in order of their positions.
ghost use Rattle.std.specs.Prelude.{◌≡◌, ◌<◌, IfOk, IfSome, IfNone, OnOk, All, map, true, if◌then◌else◌, ◌++◌, ◌∷◌, []};
ghost use Rattle.rbg_macro.specs.declared.token.Token.{Token as AbstractToken};
ghost use Rattle.rbg_macro.specs.declared.token.TokenKind.TheVariants.{Symbol as OfSymbol};
ghost use Rattle.rbg_macro.specs.declared.token.Symbol.TheVariants.{OpenBrace, Arrow};
ghost use Rattle.rbg_warnings.specs.Actions.{AreCut, EndsChange, EndsOn, IsFirst, IsPart, ends_change, is_change, is_single as is_single_kind, marks_pattern};

use rbg_macro::{Symbol, Token, TokenKind};
use std::alloc::{AllocError, Global};

/// The tokens of each action, in order of the positions. The bracket that closes an assignment list or an off, and what
/// is inside a pattern, are no part of the action.
pub fn actions<'a>(
    alloc: Global,
    rules: &'a [Token<'a>],
) -> Result<Vec<&'a [Token<'a>]>, AllocError>
    ensures { IfOk result (λ found. AreCut rules.now (map (λ tokens. tokens.now) found.items)) }
{
    let mut found = Vec::new(alloc);
    let mut at = 0usize;
    while at < rules.len() {
        let part = part_of(&rules[at], &rules[at + 1..]);
        let end = at + 1 + part.further;
        push_part(&mut found, &rules[at..end], part.is_action)?;
        at = end;
    }
    Ok(found)
}

/// Adds the tokens if they are an action.
fn push_part<'a>(
    found: &mut Vec<&'a [Token<'a>]>,
    tokens: &'a [Token<'a>],
    is_action: bool,
) -> Result<(), AllocError>
    ensures { OnOk result (found.new.items ≡ if is_action then found.old.items ++ tokens.entry ∷ []
        else found.old.items) }
{
    if is_action {
        found.push(tokens)?;
    }
    Ok(())
}

/// What a token begins: an action, to which `further` more tokens belong, or none.
#[derive(Clone, Copy)]
struct Part {
    is_action: bool,
    further: usize,
}

/// An action with this many further tokens.
fn action(further: usize) -> Part
    ensures further { result.further ≡ further }
    ensures is_action { result.is_action ≡ true }
{
    Part {
        is_action: true,
        further,
    }
}

/// What a token begins, with some tokens after it.
fn part_of(token: &Token<'_>, after: &[Token<'_>]) -> Part
    ensures { IsPart token.now after.now result.is_action result.further }
{
    if is_single(token.kind) {
        return action(0);
    }
    if begins_change(token.kind) {
        return change_part(after);
    }
    if token.is(Symbol::Arrow) {
        return player_part(after);
    }
    if token.is(Symbol::OpenBrace) {
        return brace_part(after);
    }
    Part {
        is_action: false,
        further: 0,
    }
}

fn is_single(kind: TokenKind) -> bool
    ensures { result ≡ is_single_kind kind }
{
    kind.is_name() || kind.is(Symbol::DoubleArrow)
}

fn begins_change(kind: TokenKind) -> bool
    ensures { result ≡ is_change kind }
{
    kind.is(Symbol::OpenBracket) || kind.is(Symbol::Comma)
}

fn player_part(after: &[Token<'_>]) -> Part
    ensures { (t : AbstractToken) → t.kind ≡ OfSymbol Arrow
        → IsPart t after.now result.is_action result.further }
{
    match after {
        [_, ..] => action(1),
        [] => Part {
            is_action: false,
            further: 0,
        },
    }
}

fn brace_part(after: &[Token<'_>]) -> Part
    ensures { (t : AbstractToken) → t.kind ≡ OfSymbol OpenBrace
        → IsPart t after.now result.is_action result.further }
{
    if begins_pattern(after) {
        return action(1);
    }
    match on_end(after) {
        Some(index) => action(index + 1),
        None => action(0),
    }
}

fn begins_pattern(after: &[Token<'_>]) -> bool
    ensures { result ≡ marks_pattern after.now }
{
    match after {
        [mark, ..] => mark.kind.is(Symbol::Question) || mark.kind.is(Symbol::Exclamation),
        [] => false,
    }
}

fn on_end(tokens: &[Token<'_>]) -> Option<usize>
    ensures found { IfSome result (IsFirst EndsOn tokens.now) }
    ensures none { IfNone result (All (λ t. ¬ EndsOn t) tokens.now) }
{
    tokens.iter().position(|token| token.is(Symbol::CloseBrace))
}

fn change_part(after: &[Token<'_>]) -> Part
    ensures { (t : AbstractToken) → is_change t.kind ≡ true
        → IsPart t after.now result.is_action result.further }
{
    match change_end(after) {
        Some(index) => action(index),
        None => action(0),
    }
}

fn change_end(tokens: &[Token<'_>]) -> Option<usize>
    ensures found { IfSome result (IsFirst EndsChange tokens.now) }
    ensures none { IfNone result (All (λ t. ¬ EndsChange t) tokens.now) }
{
    tokens.iter().position(|token| is_change_end(token.kind))
}

fn is_change_end(kind: TokenKind) -> bool
    ensures { result ≡ ends_change kind }
{
    kind.is(Symbol::CloseBracket) || kind.is(Symbol::Comma)
}

fn is_pattern_mark(token: &Token<'_>) -> bool {
    token.is(Symbol::Question) || token.is(Symbol::Exclamation)
}

/// Adds an action as it is written, the brackets of an assignment and of an off included. Of a pattern the beginning is
/// written.
pub fn push_action(output: &mut Vec<u8>, action: &[Token<'_>]) -> Result<(), AllocError> {
    match action {
        [first, rest @ ..] if first.is(Symbol::Comma) => {
            output.extend_from_slice(b"[$ ")?;
            push_spaced(output, rest)?;
            output.push(b']')?;
            Ok(())
        }
        [first, ..] if first.is(Symbol::OpenBracket) => {
            push_spaced(output, action)?;
            output.push(b']')?;
            Ok(())
        }
        [first, mark] if first.is(Symbol::OpenBrace) && is_pattern_mark(mark) => {
            push_spaced(output, action)?;
            output.extend_from_slice(b" ..}")
        }
        _ => push_spaced(output, action),
    }
}

/// Adds the tokens, with the usual spaces: around the operators of arithmetic, and after a comma elsewhere.
fn push_spaced(output: &mut Vec<u8>, tokens: &[Token<'_>]) -> Result<(), AllocError> {
    let is_arithmetic = tokens.iter().any(|token| token.is(Symbol::Dollar)
        || token.is(Symbol::Equals));
    let mut is_first = true;
    for token in tokens {
        let is_near = is_first || closes(token);
        if is_arithmetic && !is_near {
            output.push(b' ')?;
        }
        output.extend_from_slice(token.text)?;
        if token.is(Symbol::Comma) && !is_arithmetic {
            output.push(b' ')?;
        }
        is_first = token.kind.opens();
    }
    Ok(())
}

/// Whether no space comes before the token.
fn closes(token: &Token<'_>) -> bool {
    token.kind.closes() || token.is(Symbol::Comma)
}
