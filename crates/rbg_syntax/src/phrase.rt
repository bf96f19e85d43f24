//! Phrases, and the loops that read lists of them.
ghost use Rattle.std.specs.Prelude.{◌≡◌, map};
ghost use Rattle.rbg_syntax.specs.internal.Giving.{Gives};
ghost use Rattle.rbg_grammar.specs.Reading.{TakesSome, listed_at, next_is, repeated_at, separated_at};

use crate::error::Reading;
use crate::parser::Parser;
use rbg_macro::{Symbol, TokenKind};
use std::alloc::Global;

/// A phrase of the grammar that is read from the front of the tokens.
pub(crate) trait Phrase<'a>: Sized + Drop {
    ghost use Rattle.std.specs.Prelude.{◌≡◌, List, Bool};
    ghost use Rattle.rbg_macro.specs.Token.{Lexeme};
    ghost use Rattle.rbg_macro.specs.declared.token.TokenKind.{TokenKind};
    ghost use Rattle.rbg_syntax.specs.internal.Giving.{Gives};
    ghost use Rattle.rbg_grammar.specs.Reading.{Reading};

    // What such a phrase spells.
    ghost Spelt: { Type 0 };

    ghost view: { Self → Spelt };

    // What is read of the tokens.
    ghost read: { List Lexeme → Reading Spelt };

    // The tokens that may begin such a phrase.
    ghost begins: { TokenKind → Bool };

    /// Reads one phrase.
    fn read_from(parser: &mut Parser<'a>, alloc: Global) -> Reading<Self>
        ensures { Gives (λ x. (view x, parser.new)) result (read parser.old) };

    /// Whether such a phrase may begin with a token of this kind.
    fn begins_with(kind: TokenKind) -> bool
        ensures { result ≡ begins kind };
}

impl<'a> Parser<'a> {
    /// Whether the next token may begin such a phrase.
    fn next_begins<T: Phrase<'a>>(&self) -> bool
        ensures { result ≡ next_is T.begins self.now }
    {
        match self.peek() {
            Some(token) => T::begins_with(token.kind),
            None => false,
        }
    }

    /// At least one phrase, with the symbol between each two.
    pub(crate) fn separated<T: Phrase<'a>>(
        &mut self,
        alloc: Global,
        separator: Symbol,
    ) -> Reading<Vec<T>>
        requires { TakesSome T.read }
        ensures { Gives (λ v.
            (map T.view v.items, self.new)) result (separated_at separator T.read self.old) }
    {
        let mut phrases = Vec::new(alloc);
        loop {
            phrases.push(T::read_from(self, alloc)?)?;
            if !self.takes(separator) {
                return Ok(phrases);
            }
        }
    }

    /// Any number of phrases, with commas between them.
    #[tactic(auto, unfolding(rbg_grammar::specs::Reading::listed_at))]
    pub(crate) fn listed<T: Phrase<'a>>(&mut self, alloc: Global) -> Reading<Vec<T>>
        requires { TakesSome T.read }
        ensures { Gives (λ v.
            (map T.view v.items, self.new)) result (listed_at T.begins T.read self.old) }
    {
        if self.next_begins::<T>() {
            self.separated(alloc, Symbol::Comma)
        } else {
            Ok(Vec::new(alloc))
        }
    }

    /// Any number of phrases, one after the other.
    pub(crate) fn repeated<T: Phrase<'a>>(&mut self, alloc: Global) -> Reading<Vec<T>>
        requires { TakesSome T.read }
        ensures { Gives (λ v.
            (map T.view v.items, self.new)) result (repeated_at T.begins T.read self.old) }
    {
        let mut found = Vec::new(alloc);
        while self.next_begins::<T>() {
            found.push(T::read_from(self, alloc)?)?;
        }
        Ok(found)
    }
}
