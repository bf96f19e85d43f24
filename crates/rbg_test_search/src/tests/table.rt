//! The actions of rules by position, and the words that go on from each.
use crate::tests::odd::Odd;
use crate::tests::tree::{Action, Tree};
use crate::tests::words::{Word, rests, words};
use rbg_base::Position;
use std::alloc::Global;

/// What stands at a position.
#[derive(Drop)]
pub(crate) enum Stands {
    Action(Action),
    /// A pattern, with the words of its inside.
    Pattern { positive: bool, words: Vec<Word> },
}

/// A position of the rules.
#[derive(Drop)]
pub(crate) struct Entry {
    pub stands: Stands,
    /// What follows the position to the end of a word, in the rules or the inside of a pattern where it stands.
    pub rests: Vec<Word>,
}

/// The words of rules.
#[derive(Drop)]
pub(crate) struct Table {
    /// From position 1 on.
    pub entries: Vec<Entry>,
    /// The words of the rules.
    pub words: Vec<Word>,
}

impl Table {
    pub(crate) fn new(alloc: Global, rules: &Tree) -> Result<Table, Odd> {
        let words = words(alloc, rules)?;
        let mut entries = Vec::new(alloc);
        lay(alloc, rules, rules, &mut entries)?;
        Ok(Table { entries, words })
    }

    /// What the rules have at a position.
    pub(crate) fn entry(&self, position: Position) -> Option<&Entry> {
        let number = (position as usize).checked_sub(1)?;
        self.entries.get(number)
    }

    /// Whether a modifier stands at a position.
    pub(crate) fn is_modifier(&self, position: Position) -> bool {
        match self.entry(position) {
            Some(entry) => match &entry.stands {
                Stands::Action(action) => action.is_modifier(),
                Stands::Pattern { .. } => false,
            },
            None => false,
        }
    }

    /// Whether a switch stands at a position.
    pub(crate) fn is_switch(&self, position: Position) -> bool {
        match self.entry(position) {
            Some(entry) => matches!(&entry.stands, Stands::Action(Action::Switch(_))),
            None => false,
        }
    }
}

/// Appends the next position, where that stands.
fn lay_one(
    alloc: Global,
    rules: &Tree,
    position: Position,
    stands: Stands,
    entries: &mut Vec<Entry>,
) -> Result<(), Odd> {
    let rests = rests(alloc, rules, position)?;
    entries.push(Entry { stands, rests })?;
    Ok(())
}

/// Appends the positions of a part of the rules in order of text.
fn lay(alloc: Global, rules: &Tree, part: &Tree, entries: &mut Vec<Entry>) -> Result<(), Odd> {
    match part {
        Tree::Act { position, action } => {
            lay_one(alloc, rules, *position, Stands::Action(*action), entries)
        }
        Tree::Pattern {
            position,
            positive,
            inside,
        } => {
            let stands = Stands::Pattern {
                positive: *positive,
                words: words(alloc, inside)?,
            };
            lay_one(alloc, rules, *position, stands, entries)?;
            lay(alloc, rules, inside, entries)
        }
        Tree::Then(parts) => {
            for part in parts {
                lay(alloc, rules, part, entries)?;
            }
            Ok(())
        }
        Tree::Or(parts) => {
            for part in parts {
                lay(alloc, rules, part, entries)?;
            }
            Ok(())
        }
        Tree::Star(part) => lay(alloc, rules, part, entries),
    }
}
