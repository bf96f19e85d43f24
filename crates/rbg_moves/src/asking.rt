//! What the questions at a place have in common.
ghost use Rattle.std.specs.Prelude.{◌≡◌, ◌≤◌, ◌↔◌, length, IsTrue};
ghost use Rattle.rbg_base.specs.Move.{IsMoveLength};
ghost use Rattle.rbg_rules.specs.Meaning.{IsGame, IsSwitchAt, point_of};
ghost use Rattle.rbg_search.specs.Start.{start_of, IsPositionOf};
ghost use Rattle.rbg_moves.specs.internal.Asking.{begun_in};
ghost use Rattle.rbg_flat.specs.internal.Shown.{shows_switch};

use rbg_auto::{Expr, Steps};
use rbg_base::{Move, Pair, Position};
use rbg_rules::limits::{MAX_MODIFIERS, MAX_OPENINGS};
use rbg_rules::{Action, Game};
use rbg_search::{Budget, Buffers, GameSteps, Origin, Search};
use std::alloc::Global;

/// The game with the steps of its rules, by which searches go. They go step by step.
pub(crate) fn rules_of<'a, S: Steps>(game: &'a Game, steps: &'a S) -> GameSteps<'a, S>
    requires { S.of_rules steps.now game.now.rules }
    ensures { result ≡ game.now }
{
    game.is_accepted();
    GameSteps::new(game, steps, None)
}

/// A search that may take up as many openings as a question may have.
#[inline(always)]
pub(crate) fn search_in<'a, S: Steps>(
    alloc: Global,
    rules: GameSteps<'a, S>,
    buffers: &'a mut Buffers,
) -> Search<'a, S>
    ensures begun { result ≡ begun_in rules.entry }
{
    let budget = Budget {
        openings: MAX_OPENINGS as u32,
        modifiers: MAX_MODIFIERS as u16,
    };
    Search::by_rules(alloc, rules, budget, buffers)
}

/// For proofs alone: what a search has taken up is within its budget. It does nothing.
#[inline(always)]
pub(crate) fn budget_is_kept<S: Steps>(search: &Search<'_, S>)
    ensures { search.now.opened ≤ search.now.openings }
{
    let _opened = search.opened();
}

/// Where one stands in the rules after the action at a position, or at their beginning.
pub(crate) fn origin_after(after: Option<Position>) -> Origin
    ensures { start_of result ≡ point_of after }
{
    match after {
        None => Origin::Begin(Expr::Rules),
        Some(position) => Origin::After(position),
    }
}

/// Whether a switch stands at a position.
pub(crate) fn is_switch(game: &Game, position: Position) -> bool
    requires lawful { IsGame game.now }
    requires position { IsPositionOf game.now.rules position }
    ensures { IsTrue result ↔ IsSwitchAt game.now.rules position }
{
    switches(game.action(position))
}

/// Whether the action is a switch.
fn switches(action: &Action) -> bool
    ensures { result ≡ shows_switch action.now }
{
    matches!(action, Action::Switch { .. })
}

/// The move of these pairs.
pub(crate) fn move_of(pairs: &[Pair]) -> Move
    requires { IsMoveLength (length pairs.now) }
    ensures { result ≡ pairs.now }
{
    match Move::try_from(pairs) {
        Ok(whole) => whole,
        Err(_) => unreachable!(),
    }
}
