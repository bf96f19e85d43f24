//! The automaton of a game, made in one walk over its rules.
ghost use Rattle.std.specs.Prelude.{ℕ, ◌<◌, ◌^◌, IfOk};
ghost use Rattle.rbg_rules.specs.Meaning.{Expression, on, HasAction, IsActionAt};
ghost use Rattle.rbg_auto.specs.OfTree.{HoldsOfTree};
ghost use Rattle.rbg_auto.specs.Steps.{IsGlance};

use crate::arrays::Compact;
use crate::prepare::prepare;
use crate::steps::{Glance, Steps};
use crate::table_builder::TableBuilder;
use rbg_base::{Memory, Piece, Position};
use rbg_rules::{Action, Game, Rule};
use std::alloc::Global;

/// The automaton of a tree with that many positions, whatever actions are at them, if the positions are numbered and no
/// sum is empty. It knows nothing of the actions, and lends no slices.
pub fn compact_tree(alloc: Global, tree: &Rule, positions: usize) -> Result<Compact, Memory>
    requires { positions < 2 ^ 32 }
    ensures { IfOk result (λ automaton.
        HoldsOfTree (⟦<Compact as Steps>⟧.of_rules automaton) tree.now positions) }
{
    let mut builder = TableBuilder::new(alloc, positions + 1)?;
    let rules = builder.lay_level(tree)?;
    Ok(Compact {
        table: builder.table,
        rules,
        prepared: None,
    })
}

/// What is known of an on: its pieces, if there are one or two.
fn glance_of_on(pieces: &[Piece]) -> Glance
    ensures { (rules : Expression) (p : ℕ) → HasAction rules p (on pieces.now)
        → IsGlance rules p result }
{
    match pieces {
        [piece] => Glance::On(*piece),
        [one, other] => Glance::OnEither(*one, *other),
        _ => Glance::Unknown,
    }
}

/// What is known of an action.
fn glance_of(action: &Action) -> Glance
    ensures { (rules : Expression) (p : ℕ) → IsActionAt rules p action.now → IsGlance rules p result }
{
    match action {
        Action::Shift { direction } => Glance::Shift(*direction),
        Action::On { pieces } => glance_of_on(pieces.as_slice()),
        Action::Off { .. } => Glance::Modifies,
        Action::Switch { .. } => Glance::Modifies,
        Action::Positive | Action::Negative => Glance::Pattern,
        Action::Assign { .. } | Action::Compare { .. } => Glance::Unknown,
    }
}

/// Records what is known of the action at each position of the game.
fn set_glances(automaton: &mut Compact, game: &Game)
    requires { ⟦<Compact as Steps>⟧.of_rules automaton.old game.now.rules }
    ensures { ⟦<Compact as Steps>⟧.of_rules automaton.new game.now.rules }
{
    for index in 0..game.positions() {
        let position = index as Position + 1;
        let glance = glance_of(game.action(position));
        automaton.table.set_glance(position, glance);
    }
}

/// The automaton of the game. It knows shifts, ons of one or two pieces, offs, switches and patterns at once, and it
/// lends its answers.
pub fn compact(alloc: Global, game: &Game) -> Result<Compact, Memory>
    ensures { IfOk result (λ automaton. ⟦<Compact as Steps>⟧.of_rules automaton game.now.rules) }
{
    let mut automaton = compact_tree(alloc, &game.rules().tree, game.positions())?;
    set_glances(&mut automaton, game);
    automaton.prepared = Some(prepare(alloc, &automaton.table)?);
    Ok(automaton)
}
