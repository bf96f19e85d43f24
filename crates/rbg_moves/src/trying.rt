//! Whether a list of pairs is a legal move.
ghost use Rattle.std.specs.Prelude.{◌≡◌, IfOk, IfSome};
ghost use Rattle.rbg_rules.specs.Meaning.{IsPlaceOf, try_move};
ghost use Rattle.rbg_moves.specs.Answers.{TriesMove};
ghost use Rattle.rbg_moves.specs.Tallying.{Tallies};
ghost use Rattle.rbg_moves.specs.internal.Stepping.{place_beyond, IsFollowed};

use crate::asking::{budget_is_kept, is_switch, rules_of, search_in};
use crate::place::Place;
use crate::stepping::take;
use crate::workspace::Workspace;
use rbg_auto::Steps;
use rbg_base::{Move, Pair, Position};
use rbg_rules::Game;
use rbg_search::{GameSteps, Over, Search};
use rbg_state::SemiState;
use std::alloc::Global;

/// The place to which the pairs lead, if they are a legal move; none if they aren't.
///
/// Only the given pairs are followed. What is reached without a modifier is found whole before each of them, whatever
/// the pair is.
pub fn try_move<S: Steps>(
    alloc: Global,
    game: &Game,
    steps: &S,
    place: &Place,
    pairs: &Move,
) -> Result<Option<Place>, Over>
    requires steps { S.of_rules steps.now game.now.rules }
    requires place { IsPlaceOf game.now place.now }
    ensures { TriesMove game.now place.now pairs.now result }
{
    let mut workspace = Workspace::new(alloc);
    try_pairs(alloc, rules_of(game, steps), place, pairs, &mut workspace)
}

/// As `try_move`, by rules that may have paths, and with the buffers of a workspace, which also counts what is taken up.
/// Where there is no answer, its buffers are lost.
pub(crate) fn try_pairs<S: Steps>(
    alloc: Global,
    rules: GameSteps<'_, S>,
    place: &Place,
    pairs: &Move,
    workspace: &mut Workspace,
) -> Result<Option<Place>, Over>
    requires { IsPlaceOf rules place.now }
    ensures tries { TriesMove rules.entry place.now pairs.now result }
    ensures tallies { Tallies rules.entry (try_move pairs.now) place.now workspace.old.tally
        workspace.new.tally result }
{
    // The game is lawful.
    let _game = rules.game();
    let mut to = workspace.copy_of(place)?;
    let mut search = search_in(alloc, rules, &mut workspace.buffers);
    let end = follow(&mut search, &mut to.state, to.after, pairs.as_slice())?;
    budget_is_kept(&search);
    search.leave(&mut workspace.tally);
    match end {
        Some(last) => {
            to.after = Some(last);
            Ok(Some(to))
        }
        None => Ok(None),
    }
}

/// Applies the pairs in turn, and returns the position of the switch that ends them; none if they aren't a legal move.
fn follow<S: Steps>(
    search: &mut Search<'_, S>,
    state: &mut SemiState,
    after: Option<Position>,
    pairs: &[Pair],
) -> Result<Option<Position>, Over>
    requires place { IsPlaceOf search.old.game (record { state = state.old.state; last = after }) }
    ensures followed { IsFollowed search.old search.new
        (record { state = state.old.state; last = after }) pairs.now state.new.state result }
    ensures in_game { IfOk result (λ end. IfSome end (λ last.
        IsPlaceOf search.old.game (place_beyond state.new.state last))) }
    ensures kept { search.new ≡ record search.old { opened = search.new.opened; taken = search.new.taken } }
{
    let game = search.game();
    let Some((pair, rest)) = pairs.split_first() else {
        return Ok(None);
    };
    let taken = take(search, state, after, *pair)?;
    if !taken {
        return Ok(None);
    }
    if !is_switch(game, pair.position) {
        return follow(search, state, Some(pair.position), rest);
    }
    if rest.is_empty() {
        Ok(Some(pair.position))
    } else {
        Ok(None)
    }
}
