//! The words of a text, between its spaces.
ghost use Rattle.std.specs.Prelude.{◌≡◌, [], ◌∷◌, ◌++◌, IfSome, IfNone};
ghost use Rattle.std.specs.Iterator.{YieldsFirstBy, item_count};
ghost use Rattle.rbg_wire.specs.Words.{space, words_of, words_left};

use crate::bytes::cut_at;

/// The words of a text, borrowed from it. A text without a space is one word.
#[derive(Drop)]
pub struct Words<'a> {
    // The text after the words that were returned, or None after the last one.
    left: Option<&'a [u8]>,
}

impl<'a> Words<'a> {
    /// The words of this text.
    pub fn of(text: &'a [u8]) -> Words<'a>
        ensures { words_left result ≡ words_of text.now }
    {
        Words { left: Some(text) }
    }
}

impl<'a> Iterator for Words<'a> {
    type Item = &'a [u8];

    ghost next_gives = { YieldsFirstBy (λ word. word.now) words_left };

    ghost remaining = { item_count words_left };

    fn next(&mut self) -> Option<&'a [u8]> {
        let text = self.left?;
        match cut_at_space(text) {
            None => {
                self.left = None;
                Some(text)
            }
            Some((word, rest)) => {
                self.left = Some(rest);
                Some(word)
            }
        }
    }
}

// The text before the first space, and the text after it.
fn cut_at_space(text: &[u8]) -> Option<(&[u8], &[u8])>
    ensures found { IfSome result (λ parts.
        (words_of text.now ≡ parts.0.now ∷ words_of parts.1.now)
        × (text.now ≡ parts.0.now ++ space ∷ parts.1.now)) }
    ensures none { IfNone result (words_of text.now ≡ text.now ∷ []) }
{
    let (word, rest) = cut_at(b' ', text)?;
    Some((word, rest))
}
