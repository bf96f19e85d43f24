//! A game and a record, with which the commands on both begin: the files are read, and the game is loaded.
ghost use Rattle.std.specs.Prelude.{◌≡◌, IfOk, None, Some};
ghost use Rattle.rbg_operations.specs.internal.Parts.{AnswersLongRecord, OpensFiles, OpensNone, OpensTexts};

use crate::lines::answer_form;
use crate::loading::{answer_unloaded, load_read};
use crate::reading::{Unread, answer_unread, read_both};
use crate::texts::Texts;
use rbg_console::Files;
use rbg_game::Game;
use rbg_moves::PlayedGame;
use rbg_referee::Answer;
use std::alloc::{AllocError, Global};

/// A game and the bytes of a record, or the answer if one of them is missing or refused.
#[derive(Drop)]
pub(crate) enum Opened {
    Both { game: Game, told: Vec<u8> },
    Answered(Answer),
}

/// The game and the record that two files have.
pub(crate) fn open_files<F: Files>(
    alloc: Global,
    file: &str,
    other: &str,
    files: &mut F,
) -> Result<Opened, AllocError>
    ensures { IfOk result (OpensFiles (F.told files.old) file.now other.now) }
{
    match read_both(alloc, files, file, other) {
        Ok(texts) => open_texts(alloc, texts),
        Err(unread) => open_none(alloc, unread),
    }
}

/// The answer if a file can't be read.
fn open_none(alloc: Global, unread: Unread) -> Result<Opened, AllocError>
    ensures { IfOk result OpensNone }
{
    let answer = answer_unread(alloc, unread)?;
    Ok(Opened::Answered(answer))
}

/// The game and the record of what was read.
fn open_texts(alloc: Global, texts: Texts) -> Result<Opened, AllocError>
    ensures { IfOk result (OpensTexts texts.description texts.told) }
{
    let Texts { description, told } = texts;
    match told {
        Some(told) => open_whole(alloc, &description, told),
        None => open_long(alloc, &description),
    }
}

/// The game, with a record that was read whole.
fn open_whole(
    alloc: Global,
    description: &Option<Vec<u8>>,
    told: Vec<u8>,
) -> Result<Opened, AllocError>
    ensures { IfOk result (OpensTexts description.now (Some told)) }
{
    match load_read(alloc, description) {
        Ok(game) => Ok(Opened::Both { game, told }),
        Err(error) => {
            let answer = answer_unloaded(alloc, error)?;
            Ok(Opened::Answered(answer))
        }
    }
}

/// The answer if a record is longer than it may be.
fn open_long(alloc: Global, description: &Option<Vec<u8>>) -> Result<Opened, AllocError>
    ensures { IfOk result (OpensTexts description.now None) }
{
    let answer = answer_long_record(alloc, description)?;
    Ok(Opened::Answered(answer))
}

/// The same as a text and a status.
fn answer_long_record(alloc: Global, description: &Option<Vec<u8>>) -> Result<Answer, AllocError>
    ensures { IfOk result (λ answer.
        AnswersLongRecord description.now answer.text.items answer.status) }
{
    match load_read(alloc, description) {
        Ok(_) => answer_form(alloc, 0),
        Err(error) => answer_unloaded(alloc, error),
    }
}

/// The game, ready for play.
pub(crate) fn played_game(alloc: Global, game: Game) -> Result<PlayedGame, AllocError>
    ensures { IfOk result (λ played. played ≡ game) }
{
    match PlayedGame::new(alloc, game) {
        Ok(played) => Ok(played),
        Err(_) => Err(AllocError),
    }
}
