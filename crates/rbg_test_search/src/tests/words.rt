//! Words of rules, each cut after its sixth letter. A letter is the position of an action.
ghost use Rattle.std.specs.Prelude.{◌<◌};

use crate::tests::odd::Odd;
use crate::tests::tree::Tree;
use rbg_base::Position;
use std::alloc::Global;

/// The most letters of a word that are looked at.
pub(crate) const LETTERS: usize = 6;

/// Rules with more words than that aren't looked at.
const MOST_WORDS: usize = 100;

/// A word, or the first letters of a longer word.
#[derive(Clone, Copy, PartialEq, Eq)]
pub(crate) struct Word {
    length: usize,
    letters: [Position; LETTERS],
    /// Whether these are only the first letters.
    longer: bool,
}

impl Word {
    /// The word without a letter.
    const EMPTY: Word = Word {
        length: 0,
        letters: [0; LETTERS],
        longer: false,
    };

    /// The word of one letter.
    fn of(letter: Position) -> Word {
        let mut word = Word::EMPTY;
        word.push(letter);
        word
    }

    /// A letter by its number from 0, if the word is known so far and has it.
    pub(crate) fn letter(&self, number: usize) -> Option<Position> {
        if number < self.length {
            self.letters.get(number).copied()
        } else {
            None
        }
    }

    /// Whether only the first letters are known.
    pub(crate) fn is_longer(&self) -> bool {
        self.longer
    }

    fn push(&mut self, letter: Position) {
        if self.length < LETTERS {
            self.letters[self.length] = letter;
            self.length += 1;
        } else {
            self.longer = true;
        }
    }

    /// This word and another one after it.
    fn joined(self, other: &Word) -> Word {
        if self.longer {
            return self;
        }
        let mut word = self;
        for number in 0..LETTERS {
            if let Some(letter) = other.letter(number) {
                word.push(letter);
            }
        }
        word.longer = word.longer || other.longer;
        word
    }
}

/// Adds a word to a list that doesn't have it.
fn add(words: &mut Vec<Word>, word: Word) -> Result<(), Odd> {
    if words.contains(&word) {
        return Ok(());
    }
    if words.len() >= MOST_WORDS {
        return Err(Odd::TooMany);
    }
    words.push(word)?;
    Ok(())
}

/// Adds words to a list that doesn't have them.
fn add_all(words: &mut Vec<Word>, more: &[Word]) -> Result<(), Odd> {
    for word in more {
        add(words, *word)?;
    }
    Ok(())
}

/// Each word of the first list with each word of the second after it.
fn join(alloc: Global, firsts: &[Word], seconds: &[Word]) -> Result<Vec<Word>, Odd> {
    let mut joined = Vec::new(alloc);
    for first in firsts {
        for second in seconds {
            add(&mut joined, first.joined(second))?;
        }
    }
    Ok(joined)
}

/// Puts each of the second words after each word of the list.
fn put_after(alloc: Global, before: &mut Vec<Word>, seconds: &[Word]) -> Result<(), Odd> {
    *before = join(alloc, before.as_slice(), seconds)?;
    Ok(())
}

/// The list of one word.
fn only(alloc: Global, word: Word) -> Result<Vec<Word>, Odd> {
    let mut words = Vec::new(alloc);
    words.push(word)?;
    Ok(words)
}

/// Any number of words joined: none, or one and then more. Seven of them that aren't empty are longer than six letters.
fn repeat(alloc: Global, words: &[Word]) -> Result<Vec<Word>, Odd> {
    let mut one_or_none = only(alloc, Word::EMPTY)?;
    add_all(&mut one_or_none, words)?;
    let mut repeated = only(alloc, Word::EMPTY)?;
    for _ in 0..=LETTERS {
        put_after(alloc, &mut repeated, &one_or_none)?;
    }
    Ok(repeated)
}

/// The words of the rules: an action has the word of its one position, a sequence joins a word of each part, a sum has
/// the words of its parts, and a star joins any number of words.
pub(crate) fn words(alloc: Global, tree: &Tree) -> Result<Vec<Word>, Odd> {
    match tree {
        Tree::Act { position, .. } => only(alloc, Word::of(*position)),
        Tree::Pattern { position, .. } => only(alloc, Word::of(*position)),
        Tree::Then(parts) => {
            let mut all = only(alloc, Word::EMPTY)?;
            for part in parts {
                let more = words(alloc, part)?;
                put_after(alloc, &mut all, &more)?;
            }
            Ok(all)
        }
        Tree::Or(parts) => {
            let mut all = Vec::new(alloc);
            for part in parts {
                let more = words(alloc, part)?;
                add_all(&mut all, &more)?;
            }
            Ok(all)
        }
        Tree::Star(part) => {
            let once = words(alloc, part)?;
            repeat(alloc, &once)
        }
    }
}

/// Puts the words of a part after each word of the list.
fn put_part_after(alloc: Global, before: &mut Vec<Word>, part: &Tree) -> Result<(), Odd> {
    let more = words(alloc, part)?;
    put_after(alloc, before, &more)
}

/// Puts any number of words of a part after each word of the list.
fn put_star_after(alloc: Global, before: &mut Vec<Word>, part: &Tree) -> Result<(), Odd> {
    let once = words(alloc, part)?;
    let many = repeat(alloc, &once)?;
    put_after(alloc, before, &many)
}

/// Adds what follows a position in the words of a part that have it. Where the position stands inside a pattern, the end
/// of its words is that of the pattern's inside, and they are added to the second list.
fn add_rests(
    alloc: Global,
    part: &Tree,
    after: Position,
    open: &mut Vec<Word>,
    ended: &mut Vec<Word>,
) -> Result<(), Odd> {
    match part {
        Tree::Act { position, .. } => {
            if *position == after {
                add(open, Word::EMPTY)?;
            }
            Ok(())
        }
        Tree::Pattern {
            position,
            inside,
            ..
        } => {
            if *position == after {
                return add(open, Word::EMPTY);
            }
            let mut within = Vec::new(alloc);
            add_rests(alloc, inside, after, &mut within, ended)?;
            add_all(ended, &within)
        }
        Tree::Then(parts) => {
            let mut within = Vec::new(alloc);
            for part in parts {
                put_part_after(alloc, &mut within, part)?;
                add_rests(alloc, part, after, &mut within, ended)?;
            }
            add_all(open, &within)
        }
        Tree::Or(parts) => {
            for part in parts {
                add_rests(alloc, part, after, open, ended)?;
            }
            Ok(())
        }
        Tree::Star(part) => {
            let mut within = Vec::new(alloc);
            add_rests(alloc, part, after, &mut within, ended)?;
            put_star_after(alloc, &mut within, part)?;
            add_all(open, &within)
        }
    }
}

/// What follows a position up to the end of a word of the expression that has it: the rules, or the inside of a
/// pattern. A position stands in one of them alone.
pub(crate) fn rests(alloc: Global, rules: &Tree, after: Position) -> Result<Vec<Word>, Odd> {
    let mut open = Vec::new(alloc);
    let mut ended = Vec::new(alloc);
    add_rests(alloc, rules, after, &mut open, &mut ended)?;
    add_all(&mut open, &ended)?;
    Ok(open)
}
