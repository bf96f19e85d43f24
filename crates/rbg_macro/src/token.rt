//! Tokens of a text, and their kinds.
ghost use Rattle.std.specs.Prelude.{◌≡◌, ◌↔◌, IsTrue};

use std::marker::Model;

/// The symbols, each a token of its own.
#[derive(Clone, Copy, PartialEq, Eq)]
pub enum Symbol {
    /// `->>`
    DoubleArrow,
    /// `->`
    Arrow,
    /// `==`
    DoubleEquals,
    /// `!=`
    NotEquals,
    /// `<=`
    LessOrEqual,
    /// `>=`
    GreaterOrEqual,
    /// `=`
    Equals,
    /// `<`
    LessThan,
    /// `>`
    GreaterThan,
    /// `+`
    Plus,
    /// `-`
    Minus,
    /// `*`
    Star,
    /// `/`
    Slash,
    /// `(`
    OpenParenthesis,
    /// `)`
    CloseParenthesis,
    /// `[`
    OpenBracket,
    /// `]`
    CloseBracket,
    /// `{`
    OpenBrace,
    /// `}`
    CloseBrace,
    /// `,`
    Comma,
    /// `;`
    Semicolon,
    /// `:`
    Colon,
    /// `~`
    Tilde,
    /// `#`
    Hash,
    /// `$`
    Dollar,
    /// `?`
    Question,
    /// `!`
    Exclamation,
}

impl Symbol {
    ghost use Rattle.std.specs.Prelude.{◌≡◌, length};
    ghost use Rattle.rbg_macro.specs.Spelling.{spelling};

    /// The number of its bytes.
    pub fn len(self) -> usize
        ensures { result ≡ length (spelling self) }
    {
        match self {
            Symbol::DoubleArrow => 3,
            Symbol::Arrow
            | Symbol::DoubleEquals
            | Symbol::NotEquals
            | Symbol::LessOrEqual
            | Symbol::GreaterOrEqual => 2,
            _ => 1,
        }
    }
}

/// The kind of a token.
#[derive(Clone, Copy, PartialEq, Eq)]
pub enum TokenKind {
    /// A letter or `_`, followed by letters, digits or `_`.
    Name,
    /// One or more digits.
    Number,
    Symbol(Symbol),
}

impl TokenKind {
    ghost use Rattle.std.specs.Prelude.{◌≡◌};
    ghost use Rattle.rbg_macro.specs.Kinds.{is_name_kind, is_symbol, opens, closes};

    /// Whether it is that of a name.
    pub fn is_name(self) -> bool
        ensures { result ≡ is_name_kind self }
    {
        matches!(self, TokenKind::Name)
    }

    /// Whether it is that of this symbol.
    pub fn is(self, symbol: Symbol) -> bool
        ensures { result ≡ is_symbol symbol self }
    {
        match self {
            TokenKind::Symbol(own) => own == symbol,
            TokenKind::Name | TokenKind::Number => false,
        }
    }

    /// Whether it opens brackets: `(`, `[` or `{`.
    pub fn opens(self) -> bool
        ensures { result ≡ opens self }
    {
        matches!(
            self,
            TokenKind::Symbol(Symbol::OpenParenthesis | Symbol::OpenBracket | Symbol::OpenBrace)
        )
    }

    /// Whether it closes brackets: `)`, `]` or `}`.
    pub fn closes(self) -> bool
        ensures { result ≡ closes self }
    {
        matches!(
            self,
            TokenKind::Symbol(Symbol::CloseParenthesis | Symbol::CloseBracket | Symbol::CloseBrace)
        )
    }
}

/// A token: its kind, its bytes, and its offset in the text. The offset of a joined token is that of the first token
/// that was joined into it.
#[derive(Clone, Copy)]
pub struct Token<'a> {
    pub kind: TokenKind,
    pub text: &'a [u8],
    pub at: usize,
}

impl Token<'_> {
    /// Whether the token is this symbol.
    pub fn is(&self, symbol: Symbol) -> bool
        ensures { IsTrue result ↔ (self.now.kind ≡ TokenKind.Symbol symbol) }
    {
        self.kind == TokenKind::Symbol(symbol)
    }
}

/// The tokens of a text, which they borrow.
#[derive(Drop)]
pub struct Tokens<'a> {
    tokens: Vec<Token<'a>>,
}

impl<'a> Model for Tokens<'a> {
    ghost use Rattle.std.specs.Prelude.{List, map};
    ghost use Rattle.rbg_macro.specs.Token.{Lexeme, lexeme_of};

    ghost Value = { List Lexeme };

    ghost view = { λ t. map lexeme_of t.tokens.items };

    ghost use Rattle.std.specs.Prelude.{All};
    ghost use Rattle.rbg_macro.specs.Spelling.{IsLexeme};

    ghost invariant = { λ t. All IsLexeme (map lexeme_of t.tokens.items) };
}

impl<'a> Tokens<'a> {
    ghost use Rattle.std.specs.Prelude.{All, map};
    ghost use Rattle.rbg_macro.specs.Spelling.{IsLexeme};
    ghost use Rattle.rbg_macro.specs.Token.{lexeme_of};

    pub(crate) fn new(tokens: Vec<Token<'a>>) -> Self
        requires { All IsLexeme (map lexeme_of tokens.items) }
        ensures { result ≡ map lexeme_of tokens.entry.items }
    {
        Tokens { tokens }
    }

    /// The tokens in order of the text.
    pub fn as_slice(&self) -> &[Token<'a>]
        ensures tokens { map lexeme_of result.now ≡ self.now }
        ensures spelt { All IsLexeme self.now }
    {
        &self.tokens
    }
}
