//! The table of macros, by name, and their bodies as templates.
ghost use Rattle.std.specs.Prelude.{◌≡◌, ◌+◌, ◌<◌, ◌≤◌, [], ◌∷◌, ◌++◌, List, length, map, None, Some, MatchOption};
ghost use Rattle.std.specs.Prelude.{OnOk, IfOk};
ghost use Rattle.std.specs.Bool.{IsFalse};
ghost use Rattle.std.specs.List.{list_any};
ghost use Rattle.std.specs.Str.{bytes_eq};
ghost use Rattle.rbg_macro.specs.Macro.{macro_named, item_of, body_of};
ghost use Rattle.rbg_macro.specs.internal.Template.{macro_of, item_in, texts_in};
ghost use Rattle.rbg_macro.specs.internal.Marks.{IsNumberOf, IsTemplateAt};
ghost use Rattle.rbg_macro.specs.internal.ReadTokens.{read_lexeme};
ghost use Rattle.rbg_macro.specs.Token.{lexeme_of};

use crate::read_token::ReadToken;
use crate::token::Token;
use indexmap::{IndexMap, IndexSet};
use rbg_base::Memory;
use std::alloc::Global;
use std::marker::Model;

/// What a macro's body is made of: its own tokens, and the places where an argument is put.
#[derive(Clone, Copy)]
pub(crate) enum BodyItem<'t> {
    Word(ReadToken<'t, 't>),
    Place(usize),
}

/// How many parameters a macro has, and its body.
#[derive(Drop)]
pub(crate) struct Template<'t> {
    pub parameters: usize,
    pub body: Vec<BodyItem<'t>>,
}

/// The macros by name, in order of the text.
pub(crate) struct Macros<'t> {
    by_name: IndexMap<&'t [u8], Template<'t>>,
}

impl<'t> Model for Macros<'t> {
    ghost use Rattle.std.specs.Prelude.{List, map};
    ghost use Rattle.rbg_macro.specs.Macro.{Macro};

    ghost Value = { List Macro };

    ghost use Rattle.rbg_macro.specs.internal.Template.{macro_in};

    ghost view = { λ m. map macro_in m.by_name.entries };
}

/// Written by hand: dropping the macros is then one call in the proofs of their owners, not a step for each part.
impl Drop for Macros<'_> {
    fn drop(self) {
        let Macros { by_name: _ } = self;
    }
}

impl<'t> Template<'t> {
    /// The template of a macro with these parameters and this body.
    pub(crate) fn new(
        alloc: Global,
        parameters: &IndexSet<&'t [u8]>,
        tokens: &[Token<'t>],
    ) -> Result<Self, Memory>
        ensures parameters { IfOk result (λ t.
            t.parameters ≡ length (texts_in parameters.now.keys)) }
        ensures body { IfOk result (λ t.
            map item_in t.body.items ≡ body_of (texts_in parameters.now.keys)
            (map lexeme_of tokens.now)) }
    {
        let mut body = Vec::with_capacity(alloc, tokens.len())?;
        for token in tokens {
            body.push(word_or_place(parameters, token))?;
        }
        Ok(Template {
            parameters: parameters.len(),
            body,
        })
    }
}

/// What the token is in the body of a macro with these parameters.
fn word_or_place<'t>(parameters: &IndexSet<&'t [u8]>, token: &Token<'t>) -> BodyItem<'t>
    ensures { item_in result ≡ item_of (texts_in parameters.now.keys) (lexeme_of token.now) }
{
    if !token.kind.is_name() {
        return BodyItem::Word(ReadToken::of_text(token));
    }
    match parameters.get_index_of(token.text) {
        Some(index) => BodyItem::Place(index),
        None => BodyItem::Word(ReadToken::of_text(token)),
    }
}

impl<'t> Macros<'t> {
    pub(crate) fn new(alloc: Global) -> Self
        ensures { result ≡ [] }
    {
        Macros {
            by_name: IndexMap::new(alloc),
        }
    }

    /// Whether there is a macro of this name.
    pub(crate) fn contains(&self, name: &[u8]) -> bool
        ensures { result ≡ list_any (λ m. bytes_eq name.now m.name) self.now }
    {
        self.by_name.contains_key(name)
    }

    /// Adds a macro of a new name.
    pub(crate) fn insert(&mut self, name: &'t [u8], template: Template<'t>) -> Result<(), Memory>
        requires { IsFalse (list_any (λ m. bytes_eq name.now m.name) self.old) }
        ensures { OnOk result (self.new ≡ self.old ++ macro_of name.now template.entry ∷ []) }
    {
        self.by_name.insert(name, template)?;
        Ok(())
    }

    /// The number of the macro that the token names. Its cost grows with the token's length.
    pub(crate) fn number_of(&self, token: &ReadToken<'_, '_>) -> Option<usize>
        ensures { MatchOption result (macro_named self.now (read_lexeme token.now) ≡ None)
            (IsNumberOf self.now (read_lexeme token.now)) }
    {
        if token.kind.is_name() {
            return self.by_name.get_index_of(token.text());
        }
        None
    }

    /// The template of the macro with this number.
    pub(crate) fn template(&self, number: usize) -> Option<&Template<'t>>
        ensures { MatchOption result (length self.now ≤ number) (λ t.
            IsTemplateAt self.now number t.now) }
    {
        match self.by_name.get_index(number) {
            Some((_, template)) => Some(template),
            None => None,
        }
    }
}
