//! Calls of macros: a macro's name, and the arguments in parentheses after it.
ghost use Rattle.std.specs.Prelude.{◌≡◌, ◌+◌, ◌<◌, ◌^◌, [], drop, map, None, Some, Ok};
ghost use Rattle.std.specs.Prelude.{Err, IfOk, IfErr, IfSome, MatchOption};
ghost use Rattle.rbg_macro.specs.Call.{arguments, closing, nesting};
ghost use Rattle.rbg_macro.specs.internal.Calls.{nesting_of, AreArguments, IsCall, IsMiscall, begins_with_parenthesis};
ghost use Rattle.rbg_macro.specs.Errors.{UnlessMemory};
ghost use Rattle.rbg_macro.specs.internal.Marks.{KeepsMarks};
ghost use Rattle.rbg_macro.specs.internal.ReadTokens.{read_lexeme};
ghost use Rattle.rbg_macro.specs.internal.Template.{lists_in};

use crate::error::MacroError;
use crate::macros::{BodyItem, Template};
use crate::read_token::ReadToken;
use crate::token::{Symbol, TokenKind};
use rbg_base::Memory;
use smallvec::SmallVec;

/// The arguments of a call. Most calls have few.
pub(crate) type Arguments<'t, 'j> = SmallVec<&'j [ReadToken<'t, 'j>], 4>;

/// A call of a macro: the macro's body, and the arguments.
pub(crate) struct Call<'m, 't, 'j> {
    pub body: &'m [BodyItem<'t>],
    pub arguments: Arguments<'t, 'j>,
}

/// Written by hand: dropping a call is then one call in the proofs of its owners, not a step for each part.
impl Drop for Call<'_, '_, '_> {
    fn drop(self) {
        let Call {
            body: _,
            arguments: _,
        } = self;
    }
}

/// What a token does if a number of brackets are open inside the call's own.
#[derive(Clone, Copy)]
enum Effect {
    /// It belongs to the argument, and leaves this number of inner brackets open.
    Within(usize),
    /// It separates two arguments.
    Cuts,
    /// It closes the call.
    Ends,
    /// It closes the call's bracket, but isn't `)`.
    Mismatched,
}

fn effect_of(kind: TokenKind, further: usize) -> Effect
    requires { further < 2 ^ 63 }
    ensures { nesting_of result ≡ nesting kind further }
{
    if kind.opens() {
        return Effect::Within(further + 1);
    }
    if kind.closes() {
        return closing(kind, further);
    }
    if further == 0 && kind.is(Symbol::Semicolon) {
        return Effect::Cuts;
    }
    Effect::Within(further)
}

fn closing(kind: TokenKind, further: usize) -> Effect
    ensures { nesting_of result ≡ closing kind further }
{
    if further > 0 {
        return Effect::Within(further - 1);
    }
    if kind.is(Symbol::CloseParenthesis) {
        Effect::Ends
    } else {
        Effect::Mismatched
    }
}

/// Puts the arguments in the tokens after a call's `(` into `found`, which is empty before. Returns the number of their
/// tokens together with the `)`, or `None` if the token that closes the call is missing or isn't `)`.
fn find_arguments<'t, 'j>(
    found: &mut Arguments<'t, 'j>,
    tokens: &'j [ReadToken<'t, 'j>],
) -> Result<Option<usize>, Memory>
    requires { found.old.items ≡ [] }
    ensures arguments { IfOk result (λ o.
        MatchOption o (arguments 0 (map read_lexeme tokens.now) ≡ None)
        (λ len. AreArguments (map read_lexeme tokens.now) (lists_in found.new.items) len)) }
    ensures marks { IfOk result (λ o. IfSome o (λ _. KeepsMarks tokens.now found.new.items)) }
{
    let mut further = 0;
    let mut start = 0;
    let mut at = 0;
    while at < tokens.len() {
        match effect_of(tokens[at].kind, further) {
            Effect::Within(left) => further = left,
            Effect::Cuts => {
                found.push(&tokens[start..at])?;
                start = at + 1;
            }
            Effect::Ends => {
                found.push(&tokens[start..at])?;
                return Ok(Some(at + 1));
            }
            Effect::Mismatched => return Ok(None),
        }
        at += 1;
    }
    Ok(None)
}

/// Puts the arguments of a call into `found`, which is empty before. Returns the number of tokens of the call after the
/// macro's name, which is at this offset: 0 if the macro has no parameters.
pub(crate) fn read_arguments<'t, 'j>(
    found: &mut Arguments<'t, 'j>,
    template: &Template<'t>,
    at: usize,
    beyond: &'j [ReadToken<'t, 'j>],
) -> Result<usize, MacroError>
    requires { found.old.items ≡ [] }
    ensures ok { IfOk result (IsCall template.now (map read_lexeme beyond.now)
        (lists_in found.new.items)) }
    ensures marks { IfOk result (λ _. KeepsMarks beyond.now found.new.items) }
    ensures err { IfErr result (UnlessMemory
        (IsMiscall template.now at (map read_lexeme beyond.now))) }
{
    if template.parameters == 0 {
        return Ok(0);
    }
    if !begins_with_parenthesis(beyond) {
        return Err(MacroError::ArgumentCount { at });
    }
    let Some(len) = find_arguments(found, &beyond[1..])? else {
        return Err(MacroError::ArgumentCount { at });
    };
    if found.len() != template.parameters {
        return Err(MacroError::ArgumentCount { at });
    }
    Ok(len + 1)
}

/// Whether the first token is `(`.
fn begins_with_parenthesis(tokens: &[ReadToken<'_, '_>]) -> bool
    ensures { result ≡ begins_with_parenthesis (map read_lexeme tokens.now) }
{
    match tokens.first() {
        Some(token) => token.kind.is(Symbol::OpenParenthesis),
        None => false,
    }
}
