//! Where one action alone may come next: a flat part that is one modifier needs no queue.
ghost use Rattle.std.specs.Prelude.{◌≡◌, [], ◌∷◌, IfSome};
ghost use Rattle.rbg_rules.specs.Meaning.{IsStateOf};
ghost use Rattle.rbg_auto.specs.Steps.{AreAllThatFollow};
ghost use Rattle.rbg_search.specs.Start.{start_of};
ghost use Rattle.rbg_search.specs.Part.{IsTrialAt};

use crate::game_steps::GameSteps;
use crate::trials::tried;
use rbg_auto::{Glance, Steps};
use rbg_base::Position;
use rbg_shifts::Origin;
use rbg_state::{SemiState, Trial};

/// The position of the one action that may come next, where there is one alone and it is a modifier that is valid here.
#[inline(always)]
pub(crate) fn only_modifier<S: Steps>(
    rules: &GameSteps<'_, S>,
    state: &SemiState,
    origin: Origin,
) -> Option<Position>
    requires { IsStateOf rules.now state.now.state }
    ensures only { IfSome result (λ p.
        AreAllThatFollow rules.now.rules (start_of origin) (p ∷ [])) }
    ensures modifies { IfSome result (λ p.
        IsTrialAt rules.now state.now.state state.now.state.vertex p Trial.Modifies) }
{
    let position = only_position(rules.following(origin))?;
    match rules.glance(position) {
        Glance::Modifies | Glance::Unknown => {}
        Glance::Shift(_) | Glance::On(_) | Glance::OnEither(_, _) | Glance::Pattern => return None,
    }
    match tried(rules, state, state.vertex(), position)? {
        Trial::Modifies => Some(position),
        Trial::Invalid | Trial::LeadsTo(_) => None,
    }
}

/// The one position of a list that has one.
pub(crate) fn only_position(positions: &[Position]) -> Option<Position>
    ensures { IfSome result (λ p. positions.now ≡ p ∷ []) }
{
    match positions {
        [position] => Some(*position),
        _ => None,
    }
}
