//! Tokens as expansion reads them: their bytes are the text's, or were joined.
ghost use Rattle.std.specs.Prelude.{◌≡◌};
ghost use Rattle.rbg_macro.specs.internal.ReadTokens.{bytes_in, read_lexeme};
ghost use Rattle.rbg_macro.specs.Token.{lexeme_of};

use crate::token::{Token, TokenKind};

/// The bytes of a token. Those of the text are never copied, and those that were joined last as long as their list.
#[derive(Clone, Copy)]
pub(crate) enum Bytes<'t, 'j> {
    OfText(&'t [u8]),
    Joined(&'j [u8]),
}

/// A token that expansion reads.
#[derive(Clone, Copy)]
pub(crate) struct ReadToken<'t, 'j> {
    pub kind: TokenKind,
    pub bytes: Bytes<'t, 'j>,
    pub at: usize,
    /// The number of the macro that it names, once it is marked.
    pub macro_number: Option<usize>,
}

impl<'t, 'j> ReadToken<'t, 'j> {
    /// The token of the text, without a mark.
    pub(crate) fn of_text(token: &Token<'t>) -> Self
        ensures { read_lexeme result ≡ lexeme_of token.now }
    {
        ReadToken {
            kind: token.kind,
            bytes: Bytes::OfText(token.text),
            at: token.at,
            macro_number: None,
        }
    }

    /// Its bytes.
    pub(crate) fn text(&self) -> &[u8]
        ensures { result.now ≡ bytes_in self.now.bytes }
    {
        match self.bytes {
            Bytes::OfText(text) => text,
            Bytes::Joined(text) => text,
        }
    }
}
