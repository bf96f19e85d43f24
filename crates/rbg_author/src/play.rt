//! The page that `play` is to serve, as words name it, and what reads the file for it.

use crate::explain::check_text;
use crate::game_files::{Read, load_text, refuse};
use crate::position::position_texts;
use crate::program::{author_command, file_of};
use crate::report::Report;
use rbg_console::{Status, match_words};
use rbg_game::LoadError;
use rbg_macro::TextError;
use rbg_workbench::{Described, Reader, Reading};
use std::alloc::{AllocError, Global};

/// The page on which the game of a file is played.
#[derive(Clone, Copy)]
pub struct Play<'a> {
    pub file: &'a str,
    /// The port, or 0 for one that the system chooses.
    pub port: u16,
}

/// The page that the words ask for, if they are those of `play`. Other words, and wrong ones, are for `run`.
pub fn play_of(alloc: Global, words: &[String]) -> Option<Play<'_>> {
    let command = author_command(alloc).ok()?;
    let matches = match_words(alloc, command, words).ok()?;
    match matches.subcommand() {
        Some(("play", words)) => Some(Play {
            file: file_of(words),
            port: words.get_one("port").unwrap_or(0),
        }),
        _ => None,
    }
}

/// Reads a description as `explain` and `check` do.
#[derive(Clone, Copy)]
pub struct AuthorReader;

impl Reader for AuthorReader {
    fn read(&mut self, alloc: Global, file: &str, text: &[u8]) -> Result<Reading, AllocError> {
        let notes = check_text(alloc, file, text, false)?.text;
        match load_text(alloc, file, text)? {
            Read::Found(loaded) => Ok(Reading::Game { loaded, notes }),
            Read::Other(_) => Ok(Reading::Refused { notes }),
        }
    }

    fn describe(
        &mut self,
        alloc: Global,
        file: &str,
        text: &[u8],
        record: &[u8],
    ) -> Result<Described, AllocError> {
        let Report { text, status } = position_texts(alloc, file, text, Some(record))?;
        match status {
            Status::Success => Ok(Described::Text(text)),
            _ => Ok(Described::Nothing { reason: text }),
        }
    }

    fn refuse_long(&mut self, alloc: Global, file: &str) -> Result<Vec<u8>, AllocError> {
        let error = LoadError::Text(TextError::TooLong);
        Ok(refuse(alloc, file, &[], None, error)?.text)
    }
}

/// What is said where there is no network to serve the page.
pub(crate) fn no_network(alloc: Global) -> Result<Report, AllocError> {
    Ok(Report {
        text: b"no network to serve the page\n".to_vec(alloc)?,
        status: Status::Device,
    })
}
