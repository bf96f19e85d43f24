//! What stands around a token of a text.

use crate::brackets::{CallForm, call_form, open_bracket, parameter_count, stays_open};
use rbg_lint::{before_first, from_last, index_of, is_at, is_section, rest_after_head};
use rbg_macro::{Symbol, Token, TokenKind};

/// A token of a text, and the text's tokens.
#[derive(Clone, Copy)]
pub struct Spot<'a> {
    pub token: Token<'a>,
    before: &'a [Token<'a>],
    tokens: &'a [Token<'a>],
}

/// What a name must be where it stands.
#[derive(Clone, Copy)]
pub enum Needed {
    Direction,
    Piece,
    Player,
    Variable,
    /// A variable or a piece, in arithmetic.
    Value,
    /// The body of a macro and an argument of a call don't show what they are used for.
    Anything,
}

impl<'a> Spot<'a> {
    /// The token at an offset.
    pub fn find(tokens: &'a [Token<'a>], at: usize) -> Option<Spot<'a>> {
        for (index, token) in tokens.iter().enumerate() {
            if token.at == at {
                return Some(Spot {
                    token: *token,
                    before: &tokens[..index],
                    tokens,
                });
            }
        }
        None
    }

    /// How many tokens are before this one.
    pub fn index(&self) -> usize {
        self.before.len()
    }

    /// Another token of the same text.
    pub fn beside(&self, at: usize) -> Option<Spot<'a>> {
        Spot::find(self.tokens, at)
    }

    /// All tokens of the text.
    pub fn tokens(&self) -> &'a [Token<'a>] {
        self.tokens
    }

    /// The last bracket that is open before this token, or at the end of the section that begins here.
    pub fn open_bracket(&self) -> Option<Token<'a>> {
        if self.token.is(Symbol::Hash) {
            open_bracket(self.after())
        } else {
            open_bracket(self.definition())
        }
    }

    /// Whether the bracket that this token opens isn't closed before another one is, or the definition ends.
    pub fn is_unclosed(&self) -> bool {
        let mut further = 0usize;
        for token in self.after() {
            if token.kind.opens() {
                further = further.saturating_add(1);
            } else if token.kind.closes() {
                if further == 0 {
                    return !is_pair(self.token.kind, token.kind);
                }
                further -= 1;
            }
        }
        true
    }

    /// The last bracket that is open at the end of the definition, of those after this token.
    pub fn bracket_after(&self) -> Option<Token<'a>> {
        open_bracket(self.after())
    }

    /// The first token before this one that has its text, in the same section or else in the whole text.
    pub fn first_of_name(&self) -> Option<Token<'a>> {
        match first_with(self.definition(), self.token.text) {
            Some(token) => Some(token),
            None => first_with(self.before, self.token.text),
        }
    }

    /// The name in the head of the definition in which the token stands, or that begins here.
    pub fn head(&self) -> Option<Token<'a>> {
        if self.token.is(Symbol::Hash) {
            self.after().first().copied()
        } else {
            self.definition().get(1).copied()
        }
    }

    /// Whether the token stands in a section with this name, or begins it.
    pub fn is_in(&self, section: &str) -> bool {
        match self.head() {
            Some(head) => head.text == section.as_bytes(),
            None => false,
        }
    }

    /// The token before this one.
    pub fn last(&self) -> Option<Token<'a>> {
        self.before.last().copied()
    }

    /// Of what kind the token before this one is.
    fn last_kind(&self) -> Option<TokenKind> {
        Some(self.last()?.kind)
    }

    /// The name of the macro in whose definition the token stands.
    pub fn macro_name(&self) -> Option<Token<'a>> {
        let name = self.definition().get(1)?;
        if is_section(name.text) {
            None
        } else {
            Some(*name)
        }
    }

    /// The tokens before this one in the same definition, from its `#`.
    pub fn definition(&self) -> &'a [Token<'a>] {
        from_last(self.before, Symbol::Hash)
    }

    /// The tokens after this one in the same definition, or those of the definition that begins here.
    pub fn after(&self) -> &'a [Token<'a>] {
        let first = self.before.len().saturating_add(1);
        let rest = self.tokens.get(first..).unwrap_or(&[]);
        before_first(rest, Symbol::Hash)
    }

    /// What the tokens after this one are to a call of the macro of its name.
    pub fn call_form(&self) -> CallForm {
        call_form(self.after())
    }

    /// Whether the arguments of the call don't end.
    pub fn is_open_call(&self) -> bool {
        matches!(self.call_form(), CallForm::Open)
    }

    /// The tokens between the name and the `=` in the head of the macro with a name.
    pub fn parameters_of(&self, name: &[u8]) -> &'a [Token<'a>] {
        match rest_after_head(self.tokens, name) {
            Some(rest) => before_first(rest, Symbol::Equals),
            None => &[],
        }
    }

    /// How many parameters the macro of the token's name has.
    pub fn parameters(&self) -> Option<usize> {
        Some(parameter_count(rest_after_head(self.tokens, self.token.text)?))
    }

    /// What is said of a comma between rows or vertices of a board.
    pub fn comma_words(&self) -> &'static str {
        if !self.token.is(Symbol::Comma) || !self.is_in_board() {
            return "";
        }
        match self.last() {
            Some(last) if last.is(Symbol::CloseBracket) => {
                ": rows follow one another without a comma"
            }
            Some(last) if last.is(Symbol::CloseBrace) => {
                ": vertices follow one another without a comma"
            }
            _ => "",
        }
    }

    /// Whether the token is the `#` of a definition: the head before it, if there is one, has its `=`.
    pub fn starts_definition(&self) -> bool {
        let before = self.definition();
        let is_whole = before.is_empty() || index_of(before, Symbol::Equals).is_some();
        self.token.is(Symbol::Hash) && is_whole
    }

    /// What a name must be here, as far as the text shows.
    pub fn needed(&self) -> Needed {
        if self.is_in_board() {
            return Needed::Piece;
        }
        match self.innermost() {
            [bracket, mark, rest @ ..] if mark.is(Symbol::Dollar) => {
                let is_first = match rest.last() {
                    Some(last) => last.is(Symbol::Comma),
                    None => true,
                };
                if is_first && bracket.is(Symbol::OpenBracket) {
                    Needed::Variable
                } else {
                    Needed::Value
                }
            }
            [_, mark, ..] if mark.is(Symbol::Question) || mark.is(Symbol::Exclamation) => {
                self.needed_in_rules()
            }
            [bracket, ..] if !bracket.is(Symbol::OpenParenthesis) => Needed::Piece,
            _ => self.needed_in_rules(),
        }
    }

    /// What a name must be outside of brackets, or in an argument of a call. One that follows a name or a closed
    /// bracket is an item of rules.
    fn needed_in_rules(&self) -> Needed {
        match self.last_kind() {
            Some(TokenKind::Symbol(Symbol::Arrow)) => Needed::Player,
            Some(
                TokenKind::Name
                | TokenKind::Symbol(
                    Symbol::DoubleArrow
                    | Symbol::CloseParenthesis
                    | Symbol::CloseBracket
                    | Symbol::CloseBrace,
                ),
            ) => Needed::Direction,
            _ if self.macro_name().is_some() || self.is_in_argument() => Needed::Anything,
            _ => Needed::Direction,
        }
    }

    /// Whether the token stands in the section of the board, which names pieces alone.
    fn is_in_board(&self) -> bool {
        match self.definition() {
            [_, name, ..] => name.text == b"board".as_slice(),
            _ => false,
        }
    }

    /// Whether the token stands in an argument of a call, and there in no bracket but parentheses.
    fn is_in_argument(&self) -> bool {
        match self.innermost() {
            [bracket, ..] => bracket.is(Symbol::OpenParenthesis),
            [] => false,
        }
    }

    /// The tokens before this one from the last `[`, `{` or `(` of a call that is not closed.
    pub fn innermost(&self) -> &'a [Token<'a>] {
        let tokens = self.definition();
        let mut closed = 0usize;
        for index in (0..tokens.len()).rev() {
            let from = tokens.get(index..).unwrap_or(&[]);
            if stays_open(from, &mut closed) && self.is_sought(tokens, index) {
                return from;
            }
        }
        &[]
    }

    /// Whether the bracket at an index is no `(`, or one after the name of a macro with parameters.
    fn is_sought(&self, tokens: &[Token<'a>], index: usize) -> bool {
        if !is_at(tokens, index, Symbol::OpenParenthesis) {
            return true;
        }
        match tokens.get(index.saturating_sub(1)) {
            Some(name) => has_parameters(self.tokens, name.text),
            None => false,
        }
    }
}

/// Whether two brackets are of one form.
fn is_pair(open: TokenKind, close: TokenKind) -> bool {
    matches!(
        (open, close),
        (
            TokenKind::Symbol(Symbol::OpenParenthesis),
            TokenKind::Symbol(Symbol::CloseParenthesis)
        ) | (
            TokenKind::Symbol(Symbol::OpenBracket),
            TokenKind::Symbol(Symbol::CloseBracket)
        ) | (
            TokenKind::Symbol(Symbol::OpenBrace),
            TokenKind::Symbol(Symbol::CloseBrace)
        )
    )
}

/// The first token with this text.
fn first_with<'a>(tokens: &'a [Token<'a>], text: &[u8]) -> Option<Token<'a>> {
    for token in tokens {
        if token.text == text {
            return Some(*token);
        }
    }
    None
}

/// Whether a macro with parameters has this name.
fn has_parameters(tokens: &[Token<'_>], name: &[u8]) -> bool {
    match rest_after_head(tokens, name) {
        Some([bracket, ..]) => bracket.is(Symbol::OpenParenthesis),
        _ => false,
    }
}

/// The name in the head of the definition with this name, counted from 0 among those of one name.
pub fn head_name<'a>(tokens: &'a [Token<'a>], name: &[u8], count: usize) -> Option<Token<'a>> {
    let mut left = count;
    for (index, token) in tokens.iter().enumerate() {
        if token.text == name && is_at(tokens, index.saturating_sub(1), Symbol::Hash) {
            if left == 0 {
                return Some(*token);
            }
            left -= 1;
        }
    }
    None
}
