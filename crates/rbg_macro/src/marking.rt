//! Marks tokens with the numbers of the macros that they name, so that a reader need not look at their bytes.
ghost use Rattle.std.specs.Prelude.{◌≡◌, List, map, None, Some, MatchOption, IfOk, IfSome, All};
ghost use Rattle.rbg_macro.specs.Macro.{macro_named};
ghost use Rattle.rbg_macro.specs.internal.Marks.{IsMarked, IsMarkedItem, IsMarkedTemplate};
ghost use Rattle.rbg_macro.specs.internal.ReadTokens.{read_lexeme};
ghost use Rattle.rbg_macro.specs.internal.Template.{item_in, IsNamed};
ghost use Rattle.rbg_macro.specs.Token.{lexeme_of};

use crate::macros::{BodyItem, Macros, Template};
use crate::read_token::ReadToken;
use crate::token::Token;
use rbg_base::Memory;
use std::alloc::Global;
use std::marker::Model;

/// The macros, with the tokens of their bodies marked.
#[derive(Drop)]
pub(crate) struct MarkedMacros<'t> {
    macros: Macros<'t>,
    templates: Vec<Template<'t>>,
}

impl<'t> Model for MarkedMacros<'t> {
    ghost use Rattle.std.specs.Prelude.{List};
    ghost use Rattle.rbg_macro.specs.Macro.{Macro};

    ghost Value = { List Macro };

    ghost view = { λ m. m.macros };

    ghost use Rattle.std.specs.List.{AllZip};
    ghost use Rattle.rbg_macro.specs.internal.Marks.{IsMarkedTemplate};

    ghost invariant = { λ m. AllZip (IsMarkedTemplate m.macros) m.macros m.templates.items };
}

impl<'t> Macros<'t> {
    /// The token with its mark.
    pub(crate) fn mark<'a, 'j>(&self, token: &ReadToken<'a, 'j>) -> ReadToken<'a, 'j>
        ensures token { read_lexeme result ≡ read_lexeme token.now }
        ensures marked { IsMarked self.now result }
    {
        ReadToken {
            macro_number: self.number_of(token),
            ..*token
        }
    }

    /// The item with its mark.
    fn mark_item(&self, item: &BodyItem<'t>) -> BodyItem<'t>
        ensures item { item_in result ≡ item_in item.now }
        ensures marked { IsMarkedItem self.now result }
    {
        match item {
            BodyItem::Word(token) => BodyItem::Word(self.mark(token)),
            BodyItem::Place(index) => BodyItem::Place(*index),
        }
    }

    /// The template with marks.
    fn mark_template(&self, alloc: Global, template: &Template<'t>) -> Result<Template<'t>, Memory>
        ensures parameters { IfOk result (λ t. t.parameters ≡ template.now.parameters) }
        ensures body { IfOk result (λ t.
            map item_in t.body.items ≡ map item_in template.now.body.items) }
        ensures marked { IfOk result (λ t. All (IsMarkedItem self.now) t.body.items) }
    {
        let mut body = Vec::with_capacity(alloc, template.body.len())?;
        for item in &template.body {
            body.push(self.mark_item(item))?;
        }
        Ok(Template {
            parameters: template.parameters,
            body,
        })
    }
}

impl<'t> MarkedMacros<'t> {
    /// The macros, marked.
    pub(crate) fn new(alloc: Global, macros: Macros<'t>) -> Result<Self, Memory>
        ensures { IfOk result (λ m. m ≡ macros.entry) }
    {
        let mut templates = Vec::new(alloc);
        while let Some(template) = macros.template(templates.len()) {
            let marked = macros.mark_template(alloc, template)?;
            templates.push(marked)?;
        }
        Ok(MarkedMacros { macros, templates })
    }

    /// The token with its mark.
    pub(crate) fn mark<'a, 'j>(&self, token: &ReadToken<'a, 'j>) -> ReadToken<'a, 'j>
        ensures token { read_lexeme result ≡ read_lexeme token.now }
        ensures marked { IsMarked self.now result }
    {
        self.macros.mark(token)
    }

    /// The tokens with their marks.
    pub(crate) fn mark_all<'a>(
        &self,
        alloc: Global,
        tokens: &[Token<'a>],
    ) -> Result<Vec<ReadToken<'a, 'a>>, Memory>
        ensures tokens { IfOk result (λ v. map read_lexeme v.items ≡ map lexeme_of tokens.now) }
        ensures marked { IfOk result (λ v. All (IsMarked self.now) v.items) }
    {
        let mut marked = Vec::with_capacity(alloc, tokens.len())?;
        for token in tokens {
            marked.push(self.mark(&ReadToken::of_text(token)))?;
        }
        Ok(marked)
    }

    /// The macro that the token names, whatever the length of its name.
    pub(crate) fn get(&self, token: &ReadToken<'_, '_>) -> Option<&Template<'t>>
        requires { IsMarked self.now token.now }
        ensures named { MatchOption result (macro_named self.now (read_lexeme token.now) ≡ None)
            (λ t. IsNamed self.now (read_lexeme token.now) t.now) }
        ensures marked { IfSome result (λ t. All (IsMarkedItem self.now) t.now.body.items) }
    {
        match token.macro_number {
            Some(number) => Some(&self.templates[number]),
            None => None,
        }
    }
}
