//! What `moves` answers to a description.
ghost use Rattle.std.specs.Prelude.{◌≡◌, IfOk};
ghost use Rattle.rbg_game.specs.Loading.{Loads};
ghost use Rattle.rbg_operations.specs.ListingAnswers.{IsMovesAnswer};
ghost use Rattle.rbg_operations.specs.Openings.{IsOpenedText, IsOpeningText};

use crate::loading::answer_unloaded;
use crate::opened::opened_lines;
use rbg_console::Status;
use rbg_game::{Game, load};
use rbg_match::{Config, Match};
use rbg_referee::Answer;
use std::alloc::{AllocError, Global};

/// The config of the match that is opened. No line shows it.
const CONFIG: Config = Config {
    turn_ms: 60_000,
    refusals: 3,
};

/// The lines of the opening of the game that a text describes, or the line of its refusal.
pub(crate) fn answer_moves(alloc: Global, text: &[u8]) -> Result<Answer, AllocError>
    ensures { IfOk result (λ answer. IsMovesAnswer text.now answer.text.items answer.status) }
{
    match load(alloc, text) {
        Ok(game) => answer_game(alloc, game, text),
        Err(error) => answer_unloaded(alloc, error),
    }
}

/// The lines of a game's opening.
fn answer_game(alloc: Global, game: Game, text: &[u8]) -> Result<Answer, AllocError>
    requires { Loads text.now game }
    ensures lines { IfOk result (λ answer. IsOpeningText text.now answer.text.items) }
    ensures status { IfOk result (λ answer. answer.status ≡ Status.Success) }
{
    match Match::new(alloc, game, text, CONFIG, 0) {
        Ok((opened, _)) => answer_opened(alloc, &opened),
        Err(_) => Err(AllocError),
    }
}

/// The lines of a match that has just been opened.
fn answer_opened(alloc: Global, opened: &Match) -> Result<Answer, AllocError>
    ensures lines { IfOk result (λ answer. IsOpenedText opened.now answer.text.items) }
    ensures status { IfOk result (λ answer. answer.status ≡ Status.Success) }
{
    Ok(Answer {
        text: opened_lines(alloc, opened)?,
        status: Status::Success,
    })
}
