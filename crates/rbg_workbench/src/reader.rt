//! The game of a text, with what is reported to its author.

use rbg_game::LoadedGame;
use std::alloc::{AllocError, Global};

/// What a text is.
#[derive(Drop)]
pub enum Reading {
    /// A game, and what is warned of.
    Game { loaded: LoadedGame, notes: Vec<u8> },
    /// No game, and why.
    Refused { notes: Vec<u8> },
}

/// The description of a place, or why there is none.
#[derive(Drop)]
pub enum Described {
    Text(Vec<u8>),
    Nothing { reason: Vec<u8> },
}

/// What reads the text of a file for its author.
pub trait Reader {
    /// Reads a text.
    fn read(&mut self, alloc: Global, file: &str, text: &[u8]) -> Result<Reading, AllocError>;

    /// Describes the place after the moves of a record.
    fn describe(
        &mut self,
        alloc: Global,
        file: &str,
        text: &[u8],
        record: &[u8],
    ) -> Result<Described, AllocError>;

    /// What is said of a text that is longer than a description may be.
    fn refuse_long(&mut self, alloc: Global, file: &str) -> Result<Vec<u8>, AllocError>;
}
