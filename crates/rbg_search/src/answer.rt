//! What a pattern's answer is, and what becomes of the pattern by it.
ghost use Rattle.std.specs.Prelude.{◌≡◌, ℕ, IsTrue, ◌↔◌};
ghost use Rattle.rbg_rules.specs.Meaning.{AbstractGame, AbstractState, IsNumbered, IsPatternAt, inside, beginning, Applies, SomeWordRuns, IsGame};
ghost use Rattle.rbg_search.specs.Start.{IsPositionOf};
ghost use Rattle.rbg_search.specs.Closure.{at_vertex};
ghost use Rattle.rbg_search.specs.Part.{IsTrialAt};
ghost use Rattle.rbg_search.specs.internal.Shown.{shows_negative};

use rbg_base::{Position, Vertex};
use rbg_rules::{Action, Game};
use rbg_state::Trial;

/// What becomes of a pattern at a vertex where it is valid, or isn't.
pub(crate) fn trial_of(vertex: Vertex, valid: bool) -> Trial
    ensures trial { (game : AbstractGame) (s : AbstractState) (p : ℕ)
        → IsNumbered game.rules → IsPatternAt game.rules p
        → IsTrue valid ↔ Applies game p (at_vertex s vertex) (at_vertex s vertex)
        → IsTrialAt game s vertex p result }
    ensures there { (u : ℕ) → result ≡ Trial.LeadsTo u → u ≡ vertex }
{
    if valid {
        Trial::LeadsTo(vertex)
    } else {
        Trial::Invalid
    }
}

/// Whether a pattern is valid where some word of its inside runs, or none.
pub(crate) fn is_valid(game: &Game, position: Position, runs: bool) -> bool
    requires lawful { IsGame game.now }
    requires there { IsPatternAt game.now.rules position }
    requires position { IsPositionOf game.now.rules position }
    ensures { (s : AbstractState)
        → IsTrue runs ↔ SomeWordRuns game.now s (beginning (inside position))
        → IsTrue result ↔ Applies game.now position s s }
{
    if is_negative(game.action(position)) {
        !runs
    } else {
        runs
    }
}

/// Whether the action is a negative pattern.
fn is_negative(action: &Action) -> bool
    ensures { result ≡ shows_negative action.now }
{
    matches!(action, Action::Negative)
}
