//! Where a pattern is asked: the current vertex for a while.
ghost use Rattle.std.specs.Prelude.{◌≡◌, ◌<◌, length};
ghost use Rattle.rbg_rules.specs.Meaning.{AbstractGame, IsStateOf};
ghost use Rattle.rbg_state.specs.History.{capacity_of, IsAfter};

use rbg_base::Vertex;
use rbg_state::SemiState;

/// Makes a vertex the current one. Where it is already, nothing changes, and there is nothing to take back: most patterns
/// of some games are asked where one stands.
#[inline(always)]
pub(crate) fn stand(state: &mut SemiState, vertex: Vertex)
    requires room { 0 < state.old.room }
    requires there { vertex < length state.old.state.pieces }
    ensures moved { state.new.state ≡ record state.old.state { vertex = vertex } }
    ensures after { IsAfter state.old state.new }
    ensures capacity { capacity_of state.new ≡ capacity_of state.old }
    ensures fits { (game : AbstractGame) → IsStateOf game state.old.state
        → IsStateOf game state.new.state }
{
    if vertex != state.vertex() {
        state.stand_at(vertex);
    }
}
