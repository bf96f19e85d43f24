//! How the leaps of a game are made.
ghost use Rattle.std.specs.Prelude.{IfOk, IfSome, IfNone};
ghost use Rattle.rbg_shifts.specs.Limits.{IsTooLarge};
ghost use Rattle.rbg_shifts.specs.Made.{AreLeapsOf};

use crate::asking::Leaps;
use crate::ground::Ground;
use crate::laying::laid_out;
use crate::lists::lists_of;
use crate::rounds::fill;
use crate::shifts::directions;
use rbg_auto::Steps;
use rbg_base::Memory;
use rbg_rules::Game;
use std::alloc::Global;

/// The maximum number of words for one row of vertices at each position and each vertex: 32 megabytes. A game that
/// needs more has no leaps.
pub const MAX_WORDS: usize = 4_194_304;

/// The leaps of a game, by the steps of its rules. Returns None if one row of vertices for each position and each
/// vertex has more than `MAX_WORDS` words.
pub fn leaps<S: Steps>(alloc: Global, game: &Game, steps: &S) -> Result<Option<Leaps>, Memory>
    requires { S.of_rules steps.now game.now.rules }
    ensures made { IfOk result (λ made. IfSome made (AreLeapsOf game.now)) }
    ensures small { IfOk result (λ made. IfSome made (λ _. ¬ IsTooLarge game.now)) }
    ensures large { IfOk result (λ made. IfNone made (IsTooLarge game.now)) }
{
    let vertices = game.board().len();
    let columns = (vertices + 63) / 64;
    if game.positions() * vertices * columns > MAX_WORDS {
        return Ok(None);
    }
    let directions = directions(alloc, game)?;
    let ground = Ground::new(game, &directions);
    let lists = lists_of(alloc, game, steps, &ground)?;
    let table = fill(alloc, &lists, &ground)?;
    let laid = laid_out(alloc, lists, table, &ground)?;
    Ok(Some(laid))
}
