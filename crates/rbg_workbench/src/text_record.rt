//! The record of the match of a text: a record, a script, or a list of moves.

use crate::move_list::Listed;
use rbg_game::{Game, LoadError, load};
use rbg_questions::{Session, Unsettled};
use rbg_record::{LineFault, Misfit, Version, write_record, write_record_1};
use rbg_referee::{RefereeingError, play_script};
use rbg_script::{ScriptError, read_script};
use std::alloc::{AllocError, Global};

/// The record, of version 2, of the match of a script; none where the text is no script of a match of the game.
pub(crate) fn record_of(
    alloc: Global,
    description: &[u8],
    script: &[u8],
) -> Result<Option<Vec<u8>>, AllocError> {
    match record_script(alloc, description, script, Version::Two) {
        Ok(record) => Ok(Some(record)),
        Err(misfit) => match misfit.fault {
            LineFault::Memory => Err(AllocError),
            _ => Ok(None),
        },
    }
}

/// The record of the match of a text, of the game that is described so. A text that begins as a record is left as
/// it is; a script, which begins with its config, is refereed; and any other text is a list of moves, as `show` of rbg_view
/// reads it, whose record has no moments. The misfit is the first line that is missing, is none that a text of its kind
/// has, is no legal move, or asks a question above the limits.
pub fn record_text(alloc: Global, description: &[u8], text: Vec<u8>) -> Result<Vec<u8>, Misfit> {
    if text.is_empty() || text.starts_with(b"rbg ") {
        return Ok(text);
    }
    if text.starts_with(b"config ") {
        return record_script(alloc, description, &text, Version::Two);
    }
    match load(alloc, description) {
        Ok(game) => record_list(alloc, description, game, &text),
        Err(error) => Err(no_game(error)),
    }
}

/// What is wrong with moves of no game.
fn no_game(error: LoadError) -> Misfit {
    if error.is_memory() {
        Misfit::from(AllocError)
    } else {
        Misfit {
            line: 1,
            fault: LineFault::Bad,
        }
    }
}

/// The record, of this version, of the match of a script. Version 1 has no moments.
fn record_script(
    alloc: Global,
    description: &[u8],
    script: &[u8],
    version: Version,
) -> Result<Vec<u8>, Misfit> {
    match read_script(alloc, script) {
        Ok(script) => match play_script(alloc, description, &script) {
            Ok((played, _)) => {
                let record = match version {
                    Version::One => write_record_1(alloc, &played)?,
                    Version::Two => write_record(alloc, &played)?,
                };
                Ok(record)
            }
            Err(error) => Err(no_match(error)),
        },
        Err(ScriptError::Line(line)) => Err(Misfit {
            line,
            fault: LineFault::Form,
        }),
        Err(ScriptError::Memory) => Err(Misfit::from(AllocError)),
    }
}

/// The record of the match of a list of moves.
fn record_list(
    alloc: Global,
    description: &[u8],
    game: Game,
    text: &[u8],
) -> Result<Vec<u8>, Misfit> {
    let script = script_of(alloc, game, text)?;
    record_script(alloc, description, &script, Version::One)
}

/// The script of a list of moves.
fn script_of(alloc: Global, game: Game, text: &[u8]) -> Result<Vec<u8>, Misfit> {
    match Session::new(alloc, game) {
        Ok(session) => Listed::new(alloc, session)?.script(text),
        Err(Unsettled::Memory) => Err(Misfit::from(AllocError)),
        Err(_) => Err(Misfit {
            line: 1,
            fault: LineFault::Over,
        }),
    }
}

/// What is wrong with a script that is no match.
fn no_match(error: RefereeingError) -> Misfit {
    match error {
        RefereeingError::Memory => Misfit::from(AllocError),
        RefereeingError::Script(line) => Misfit {
            line,
            fault: LineFault::Form,
        },
        RefereeingError::Load(_) => Misfit {
            line: 1,
            fault: LineFault::Bad,
        },
    }
}
