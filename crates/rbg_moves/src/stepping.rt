//! One modifier of a move.
ghost use Rattle.std.specs.Prelude.{◌≡◌, ℕ, ◌≤◌, not, IsTrue, IfOk, OnOk, Err, false};
ghost use Rattle.rbg_rules.specs.Meaning.{IsStateOf, Applies, point_of, IsPlaceOf, reach, IsDeep, IsGame};
ghost use Rattle.rbg_state.specs.History.{capacity_of, IsAfter};
ghost use Rattle.rbg_search.specs.Flat.{IsNext};
ghost use Rattle.rbg_search.specs.Counting.{CountsOpenings, IsOverBudget};
ghost use Rattle.rbg_search.specs.Forced.{CountsForced};
ghost use Rattle.rbg_search.specs.Taken.{CountsPairs};
ghost use Rattle.rbg_moves.specs.internal.Stepping.{at_vertex, IsStep, IsValidAt};

use crate::asking::origin_after;
use rbg_auto::Steps;
use rbg_base::{Pair, Position};
use rbg_rules::Game;
use rbg_search::{Over, Search};
use rbg_state::SemiState;

/// Applies a modifier that is valid, at its vertex.
pub(crate) fn apply_at(game: &Game, state: &mut SemiState, pair: Pair)
    requires lawful { IsGame game.now }
    requires fits { IsStateOf game.now state.old.state }
    requires valid { IsValidAt game.now state.old.state pair.0 pair.1 }
    requires room { 2 ≤ state.old.room }
    ensures applied { Applies game.now pair.1 (at_vertex state.old.state pair.0) state.new.state }
    ensures fits { IsStateOf game.now state.new.state }
    ensures after { IsAfter state.old state.new }
    ensures capacity { capacity_of state.new ≡ capacity_of state.old }
{
    state.stand_at(pair.vertex);
    let _applied = state.apply(game, pair.position);
}

/// Applies a modifier, if it comes next, and tells whether it does. What is reached without a modifier is found whole
/// first.
pub(crate) fn take<S: Steps>(
    search: &mut Search<'_, S>,
    state: &mut SemiState,
    after: Option<Position>,
    pair: Pair,
) -> Result<bool, Over>
    requires place { IsPlaceOf search.old.game (record { state = state.old.state; last = after }) }
    ensures kept { search.new ≡ record search.old { opened = search.new.opened; taken = search.new.taken } }
    ensures taken { IfOk result (λ taken. IsTrue taken
        → IsStep search.old.game state.old.state (point_of after) pair.0 pair.1 state.new.state) }
    ensures refused { IfOk result (λ taken. IsTrue (not taken)
        → ¬ IsNext search.old.game state.old.state (point_of after) pair.0 pair.1) }
    ensures counted { CountsOpenings search.old.game reach state.old.state (point_of after)
        search.old.opened search.new.opened }
    ensures paired { OnOk result (CountsPairs search.old.game reach state.old.state (point_of after)
        search.old.opened search.new.opened search.old.taken search.new.taken (Unit {0})) }
    ensures deep { result ≡ Err Over.Deep
        → IsDeep search.old.game reach state.old.state (point_of after) search.old.modifiers }
    ensures wide { result ≡ Err Over.Wide
        → IsOverBudget search.old.game reach state.old.state (point_of after) search.old.opened
        search.old.openings }
    ensures forced { OnOk result ((left : ℕ)
        → CountsForced search.old.game false reach state.old.state (point_of after)
        search.old.opened search.new.opened left search.old.modifiers) }
{
    let game = search.game();
    let mut pairs = search.take_list();
    search.reach_into(state, origin_after(after), &mut pairs)?;
    let comes_next = pairs.contains(pair.vertex, pair.position);
    search.keep_list(pairs);
    if comes_next {
        apply_at(game, state, pair);
    }
    Ok(comes_next)
}
