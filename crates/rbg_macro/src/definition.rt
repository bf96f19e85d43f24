//! Reads the definitions of sections and macros.
ghost use Rattle.std.specs.Prelude.{◌≡◌, ◌+◌, ◌<◌, ◌≤◌, [], length, map, None, Some, Ok, Err, IfOk};
ghost use Rattle.std.specs.Prelude.{IfErr, OnOk};
ghost use Rattle.std.specs.List.{position_or_len};
ghost use Rattle.rbg_macro.specs.internal.Defines.{defines_of, AddsDefined};
ghost use Rattle.rbg_macro.specs.Definition.{expect, after_equals, parameter_list, beyond_name};
ghost use Rattle.rbg_macro.specs.internal.Defines.{AddsParameter, IsTemplateAfter};
ghost use Rattle.rbg_macro.specs.Definition.{section_named, first_at, defined, definitions_of};
ghost use Rattle.rbg_macro.specs.internal.Defines.{BeginsDefinition};
ghost use Rattle.rbg_macro.specs.internal.Gives.{Gives};
ghost use Rattle.rbg_macro.specs.Errors.{UnlessMemory};
ghost use Rattle.rbg_macro.specs.Kinds.{is_name_kind, is_symbol};
ghost use Rattle.rbg_macro.specs.declared.token.Symbol.TheVariants as symbols;
ghost use Rattle.rbg_macro.specs.internal.Template.{texts_in};
ghost use Rattle.rbg_macro.specs.Token.{lexeme_of};

use crate::error::MacroError;
use crate::macros::{Macros, Template};
use crate::source::SectionKind;
use crate::token::{Symbol, Token};
use indexmap::IndexSet;
use std::alloc::Global;

/// A section with its own tokens.
#[derive(Clone, Copy)]
pub(crate) struct SectionBody<'t, 's> {
    pub kind: SectionKind,
    pub at: usize,
    pub tokens: &'s [Token<'t>],
}

/// The sections in order of the text, and the macros.
#[derive(Drop)]
pub(crate) struct Definitions<'t, 's> {
    pub sections: Vec<SectionBody<'t, 's>>,
    pub macros: Macros<'t>,
}

/// The next token of a head and what follows it, if the token is a name. A head that ends before it is refused with the
/// offset `end`.
fn expect_name<'t, 's>(
    tokens: &'s [Token<'t>],
    end: usize,
) -> Result<(Token<'t>, &'s [Token<'t>]), MacroError>
    ensures { Gives (λ x. (lexeme_of x.0, map lexeme_of x.1.now)) result
        (expect (λ t. is_name_kind t.kind) end (map lexeme_of tokens.now)) }
{
    let Some((token, beyond)) = tokens.split_first() else {
        return Err(MacroError::BadDefinition { at: end });
    };
    if !token.kind.is_name() {
        return Err(MacroError::BadDefinition { at: token.at });
    }
    Ok((*token, beyond))
}

/// What follows the next token of a head, if the token is `=`.
fn expect_equals<'t, 's>(tokens: &'s [Token<'t>], end: usize) -> Result<&'s [Token<'t>], MacroError>
    ensures { Gives (λ x.
        map lexeme_of x.now) result (after_equals end (map lexeme_of tokens.now)) }
{
    let Some((token, beyond)) = tokens.split_first() else {
        return Err(MacroError::BadDefinition { at: end });
    };
    if !token.kind.is(Symbol::Equals) {
        return Err(MacroError::BadDefinition { at: token.at });
    }
    Ok(beyond)
}

/// Adds the parameter that is the first token, and returns the token after it.
fn parameter<'t>(
    names: &mut IndexSet<&'t [u8]>,
    tokens: &[Token<'t>],
    end: usize,
) -> Result<Token<'t>, MacroError>
    ensures ok { IfOk result (λ x. AddsParameter (texts_in names.old.keys) (texts_in names.new.keys)
        (map lexeme_of tokens.now) (lexeme_of x)) }
    ensures err { IfErr result (UnlessMemory (λ e. parameter_list end (texts_in names.old.keys)
        (map lexeme_of tokens.now) ≡ Err e)) }
{
    if tokens.is_empty() {
        return Err(MacroError::BadDefinition { at: end });
    }
    let name = tokens[0];
    if !name.kind.is_name() {
        return Err(MacroError::BadDefinition { at: name.at });
    }
    if names.contains(name.text) {
        return Err(MacroError::BadDefinition { at: name.at });
    }
    names.insert(name.text)?;
    if tokens.len() == 1 {
        return Err(MacroError::BadDefinition { at: end });
    }
    Ok(tokens[1])
}

/// Puts the parameters after a `(` into an empty set of names, and returns what follows the `)` after the last one.
fn parameter_list<'t, 's>(
    names: &mut IndexSet<&'t [u8]>,
    tokens: &'s [Token<'t>],
    end: usize,
) -> Result<&'s [Token<'t>], MacroError>
    requires { names.old.keys ≡ [] }
    ensures { Gives (λ x. (texts_in names.new.keys, map lexeme_of x.now)) result
        (parameter_list end [] (map lexeme_of tokens.now)) }
{
    let mut at = 0;
    loop {
        let next = parameter(names, &tokens[at..], end)?;
        at += 2;
        if next.kind.is(Symbol::CloseParenthesis) {
            return Ok(&tokens[at..]);
        }
        if !next.kind.is(Symbol::Semicolon) {
            return Err(MacroError::BadDefinition { at: next.at });
        }
    }
}

/// Puts the parameters of the macro whose name the tokens follow into an empty set of names, and returns its body.
fn beyond_name<'t, 's>(
    names: &mut IndexSet<&'t [u8]>,
    tokens: &'s [Token<'t>],
    end: usize,
) -> Result<&'s [Token<'t>], MacroError>
    requires { names.old.keys ≡ [] }
    ensures { Gives (λ x. (texts_in names.new.keys, map lexeme_of x.now)) result
        (beyond_name end (map lexeme_of tokens.now)) }
{
    let Some((token, beyond)) = tokens.split_first() else {
        return Err(MacroError::BadDefinition { at: end });
    };
    if token.kind.is(Symbol::Equals) {
        return Ok(beyond);
    }
    if !token.kind.is(Symbol::OpenParenthesis) {
        return Err(MacroError::BadDefinition { at: token.at });
    }
    let beyond = parameter_list(names, beyond, end)?;
    expect_equals(beyond, end)
}

/// The template of the macro whose name the tokens follow.
fn read_template<'t>(
    alloc: Global,
    tokens: &[Token<'t>],
    end: usize,
) -> Result<Template<'t>, MacroError>
    ensures ok { IfOk result (IsTemplateAfter end (map lexeme_of tokens.now)) }
    ensures err { IfErr result (UnlessMemory (λ e. beyond_name end (map lexeme_of tokens.now) ≡ Err e)) }
{
    let mut parameters = IndexSet::new(alloc);
    let body = beyond_name(&mut parameters, tokens, end)?;
    Ok(Template::new(alloc, &parameters, body)?)
}

/// The section of this name.
fn section_named(name: &[u8]) -> Option<SectionKind>
    ensures { result ≡ section_named name.now }
{
    if name == b"players".as_slice() {
        Some(SectionKind::Players)
    } else if name == b"pieces".as_slice() {
        Some(SectionKind::Pieces)
    } else if name == b"variables".as_slice() {
        Some(SectionKind::Variables)
    } else if name == b"board".as_slice() {
        Some(SectionKind::Board)
    } else if name == b"rules".as_slice() {
        Some(SectionKind::Rules)
    } else {
        None
    }
}

impl<'t, 's> Definitions<'t, 's> {
    fn new(alloc: Global) -> Self
        ensures { defines_of result ≡ record { sections = []; macros = [] } }
    {
        Definitions {
            sections: Vec::new(alloc),
            macros: Macros::new(alloc),
        }
    }
}

/// Adds what a part defines. Its tokens are those after the `#` at the offset `at`, up to the next `#`.
fn define<'t, 's>(
    alloc: Global,
    definitions: &mut Definitions<'t, 's>,
    at: usize,
    tokens: &'s [Token<'t>],
    end: usize,
) -> Result<(), MacroError>
    ensures ok { OnOk result (AddsDefined (defines_of definitions.old) (defines_of definitions.new)
        (record { at = at; tokens = map lexeme_of tokens.now; end = end })) }
    ensures err { IfErr result (UnlessMemory (λ e. defined (defines_of definitions.old).macros
        (record { at = at; tokens = map lexeme_of tokens.now; end = end }) ≡ Err e)) }
{
    let (name, beyond) = expect_name(tokens, end)?;
    if let Some(kind) = section_named(name.text) {
        let tokens = expect_equals(beyond, end)?;
        definitions.sections.push(SectionBody { kind, at, tokens })?;
        return Ok(());
    }
    if definitions.macros.contains(name.text) {
        return Err(MacroError::Twice { at: name.at });
    }
    let template = read_template(alloc, beyond, end)?;
    definitions.macros.insert(name.text, template)?;
    Ok(())
}

/// How many tokens there are before the next `#`.
fn part_len(tokens: &[Token<'_>]) -> usize
    ensures within { result ≤ length tokens.now }
    ensures len { result ≡ position_or_len (λ t. is_symbol symbols.Hash t.kind) tokens.now }
{
    tokens
        .iter()
        .take_while(|t| !t.kind.is(Symbol::Hash))
        .count()
}

/// Refuses a token before the first `#`.
fn check_begin(tokens: &[Token<'_>]) -> Result<(), MacroError>
    ensures ok { OnOk result (BeginsDefinition (map lexeme_of tokens.now)) }
    ensures err { IfErr result (λ e. definitions_of (map lexeme_of tokens.now) ≡ Err e) }
{
    match tokens.first() {
        Some(token) if !token.kind.is(Symbol::Hash) => Err(MacroError::BadDefinition {
            at: token.at,
        }),
        _ => Ok(()),
    }
}

/// The offset of the first token, if there is one.
fn first_at(tokens: &[Token<'_>], otherwise: usize) -> usize
    ensures { result ≡ first_at (map lexeme_of tokens.now) otherwise }
{
    match tokens.first() {
        Some(token) => token.at,
        None => otherwise,
    }
}

/// What the tokens define.
pub(crate) fn read_definitions<'t, 's>(
    alloc: Global,
    tokens: &'s [Token<'t>],
) -> Result<Definitions<'t, 's>, MacroError>
    ensures { Gives defines_of result (definitions_of (map lexeme_of tokens.now)) }
{
    check_begin(tokens)?;
    let mut definitions = Definitions::new(alloc);
    let mut at = 0;
    while at < tokens.len() {
        let hash = tokens[at];
        let beyond = &tokens[at + 1..];
        let len = part_len(beyond);
        let (part, next) = beyond.split_at(len);
        let end = first_at(next, hash.at);
        define(alloc, &mut definitions, hash.at, part, end)?;
        at += len + 1;
    }
    Ok(definitions)
}
