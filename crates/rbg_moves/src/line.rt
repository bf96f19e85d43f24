//! A straight line of modifiers after one that was taken.
ghost use Rattle.std.specs.Prelude.{◌≡◌, ◌<◌, ◌≤◌, [], ◌∷◌, ◌++◌, length, not, IfOk, IsTrue, Err};
ghost use Rattle.rbg_base.specs.Move.{most_pairs};
ghost use Rattle.rbg_rules.specs.Meaning.{Applies, IsGame, IsModifierAt, IsPlaceOf, IsStateOf};
ghost use Rattle.rbg_state.specs.History.{capacity_of, IsAfter};
ghost use Rattle.rbg_moves.specs.internal.Lines.{FollowsLine};
ghost use Rattle.rbg_moves.specs.internal.Stepping.{place_beyond};

use rbg_auto::Steps;
use rbg_base::{MAX_PAIRS, Pair, Position};
use rbg_rules::Game;
use rbg_search::{Onward, Over, Search};
use rbg_state::{Applied, SemiState};

/// Where a line ended.
#[derive(Drop)]
pub(crate) struct LineEnd {
    /// The position of the last modifier that was applied.
    pub last: Position,
    /// The switch that comes next alone, if one does. Its opening is taken up, and it isn't applied.
    pub switch: Option<Position>,
}

/// Applies the modifiers that come next after a position one alone after another, as long as they are valid, up to a
/// switch or a choice, and adds their pairs to the front. Each takes up an opening. Near a limit the line is left, so that
/// the walk finds out what is above it.
#[inline(always)]
pub(crate) fn follow_line<S: Steps>(
    search: &mut Search<'_, S>,
    state: &mut SemiState,
    front: &mut Vec<Pair>,
    after: Position,
) -> Result<LineEnd, Over>
    requires place { IsPlaceOf search.old.game (place_beyond state.old.state after) }
    requires short { length front.old.items < most_pairs }
    ensures search { search.new ≡ record search.old { opened = search.new.opened; taken = search.new.taken } }
    ensures follows { IfOk result (λ end. FollowsLine search.old search.new state.old.state
        state.new.state front.old.items front.new.items after end.last end.switch) }
    ensures place { IfOk result (λ end.
        IsPlaceOf search.old.game (place_beyond state.new.state end.last)) }
    ensures short { IfOk result (λ _. length front.new.items < most_pairs) }
    ensures after { IsAfter state.old state.new }
    ensures capacity { IfOk result (λ _. capacity_of state.old ≤ capacity_of state.new) }
    ensures memory { (over : Over) → result ≡ Err over → over ≡ Over.Memory }
{
    let game = search.game();
    let most = search.left().min((MAX_PAIRS - 1 - front.len()) as u32);
    let mut last = after;
    let mut many = 0;
    while many < most {
        match search.onward(last) {
            Onward::Modifier(position) => {
                if !take_next(game, state, front, position)? {
                    break;
                }
                last = position;
                many += 1;
            }
            Onward::Switch(position) => {
                search.take_line(many + 1);
                return Ok(LineEnd {
                    last,
                    switch: Some(position),
                });
            }
            Onward::Unknown => break,
        }
    }
    search.take_line(many);
    Ok(LineEnd { last, switch: None })
}

/// Applies the modifier at a position where one stands, and adds its pair to the front, if it is valid.
#[inline(always)]
fn take_next(
    game: &Game,
    state: &mut SemiState,
    front: &mut Vec<Pair>,
    position: Position,
) -> Result<bool, Over>
    requires lawful { IsGame game.now }
    requires fits { IsStateOf game.now state.old.state }
    requires modifies { IsModifierAt game.now.rules position }
    ensures taken { IfOk result (λ taken. IsTrue taken
        → Applies game.now position state.old.state state.new.state) }
    ensures pushed { IfOk result (λ taken. IsTrue taken
        → front.new.items ≡ front.old.items ++ (state.old.state.vertex, position) ∷ []) }
    ensures left { IfOk result (λ taken. IsTrue (not taken)
        → (state.new.state ≡ state.old.state) × (front.new.items ≡ front.old.items)) }
    ensures fits { IsStateOf game.now state.new.state }
    ensures after { IsAfter state.old state.new }
    ensures capacity { IfOk result (λ _. capacity_of state.old ≤ capacity_of state.new) }
    ensures memory { (over : Over) → result ≡ Err over → over ≡ Over.Memory }
{
    state.reserve(1)?;
    let vertex = state.vertex();
    match state.apply(game, position) {
        Applied::Valid => {
            front.push(Pair { vertex, position })?;
            Ok(true)
        }
        Applied::Invalid => Ok(false),
    }
}
