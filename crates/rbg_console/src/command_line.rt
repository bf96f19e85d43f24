//! How the words of a command line are read, and the answer to words that name no task.
ghost use Rattle.std.specs.Prelude.{◌≡◌};
ghost use Rattle.rbg_console.specs.Files.{KeepsFiles};
ghost use Rattle.rbg_console.specs.WrongWords.{AnswersWords};

use crate::files::Files;
use crate::note::Note;
use crate::output::write_text;
use crate::status::Status;
use clap::error::ErrorKind;
use clap::{ArgMatches, Command};
use std::alloc::{AllocError, Global};
use std::io::Write;
use thiserror::Error;

/// Why words name no task.
#[derive(Debug, Drop, Error)]
pub enum WordsError {
    /// They ask for help or for the version, which is this text.
    #[error("{0}")]
    Shown(String),
    /// They are not those of a command, for the reason in this text.
    #[error("{0}")]
    Wrong(String),
    #[error("memory")]
    Memory(#[from(alloc)] AllocError),
}

/// Reads words, without the program's name, as those of the command.
pub fn match_words<'a>(
    alloc: Global,
    command: Command<'a>,
    words: &'a [String],
) -> Result<ArgMatches<'a>, WordsError> {
    let name = command.get_name();
    let command = command.no_binary_name(true).bin_name(name)?;
    match command.try_get_matches_from(words) {
        Ok(matches) => Ok(matches),
        Err(error) => Err(refusal_of(alloc, &error)?),
    }
}

fn refusal_of(alloc: Global, error: &clap::Error) -> Result<WordsError, AllocError> {
    match error.kind() {
        ErrorKind::OutOfMemory => Err(AllocError),
        ErrorKind::DisplayHelp | ErrorKind::DisplayVersion => {
            Ok(WordsError::Shown(error.to_string(alloc)?))
        }
        _ => Ok(WordsError::Wrong(error.to_string(alloc)?)),
    }
}

/// Answers words that name no task. Help, the version and the line that reports that memory ran out are written to the
/// output. A message on wrong words goes to the notes of `files`, and nothing is written.
pub fn write_words<F: Files, W: Write>(
    files: &mut F,
    output: &mut W,
    error: &WordsError,
    no_memory: &[u8],
) -> Status
    ensures answers { AnswersWords error.now no_memory.now (W.contents output.old) (W.contents output.new) result }
    ensures kept { KeepsFiles (F.told files.old) (F.told files.new) }
{
    match error {
        WordsError::Shown(text) => write_text(output, text.as_bytes(), Status::Success),
        WordsError::Wrong(text) => tell_words(files, text.as_str()),
        WordsError::Memory(_) => write_text(output, no_memory, Status::Memory),
    }
}

fn tell_words<F: Files>(files: &mut F, text: &str) -> Status
    ensures status { result ≡ Status.CommandLine }
    ensures kept { KeepsFiles (F.told files.old) (F.told files.new) }
{
    files.tell(&Note::Words { text });
    Status::CommandLine
}
