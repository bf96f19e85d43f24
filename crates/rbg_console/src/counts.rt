//! The line that has how many of each thing a game has.
ghost use Rattle.std.specs.Prelude.{◌≡◌, IfOk, string_bytes};
ghost use Rattle.rbg_console.specs.Counts.{counts_of};

use rbg_game::Game;
use std::alloc::{AllocError, Global};

/// The counts of a game, such as `players 2 pieces 3 variables 2 directions 4 vertices 2 positions 10`, without a line
/// feed.
pub fn count_line(alloc: Global, game: &Game) -> Result<String, AllocError>
    ensures { IfOk result (λ line. string_bytes line ≡ counts_of game.now) }
{
    let players = game.players();
    let pieces = game.pieces();
    let variables = game.variables();
    let directions = game.directions();
    let vertices = game.board().len();
    let positions = game.positions();
    format!(in alloc;
        "players {players} pieces {pieces} variables {variables} directions {directions} vertices {vertices} positions {positions}"
    )
}
