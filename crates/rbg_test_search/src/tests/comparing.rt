//! What searches reach and which patterns hold, beside the slow answers.
ghost use Rattle.std.specs.Prelude.{◌<◌, ◌≤◌, length};
ghost use Rattle.rbg_flat.specs.Paths.{ArePathsOf};
ghost use Rattle.rbg_rules.specs.Meaning.{IsStart, positions_of, IsPatternAt};
ghost use Rattle.rbg_search.specs.Start.{start_of};
ghost use Rattle.rbg_test_search.specs.Asking.{IsSearchedAt};

use crate::tests::asked::Asked;
use crate::tests::meaning::{Known, Next};
use crate::tests::odd::{Odd, Tally, add, expect};
use crate::tests::table::Stands;
use crate::tests::words::Word;
use crate::tests::world::World;
use rbg_auto::{Expr, Steps};
use rbg_base::Position;
use rbg_moves::Place;
use rbg_rules::Game;
use rbg_search::{Budget, Buffers, FlatPart, Origin, Over};

/// What searches may take up here: what goes on for ever ends soon.
const BUDGET: Budget = Budget {
    openings: 2_000,
    modifiers: 30,
};

/// Budgets within which searches by leaps and step by step are compared: the last ones are above the limits of many questions.
const BUDGETS: [Budget; 3] = [
    BUDGET,
    Budget {
        openings: 1,
        modifiers: 200,
    },
    Budget {
        openings: 2_000,
        modifiers: 1,
    },
];

/// At the beginning of the rules.
fn at_beginning(game: &Game) -> Origin
    ensures { IsStart game.now.rules (start_of result) }
{
    game.is_accepted();
    Origin::Begin(Expr::Rules)
}

/// After a position.
fn after(game: &Game, position: Position) -> Origin
    requires from_one { 0 < position }
    requires there { position ≤ length (positions_of game.now.rules) }
    ensures { IsStart game.now.rules (start_of result) }
{
    game.is_accepted();
    Origin::After(position)
}

/// At the beginning of a pattern.
fn in_pattern(game: &Game, position: Position) -> Origin
    requires there { IsPatternAt game.now.rules position }
    ensures { IsStart game.now.rules (start_of result) }
{
    game.is_accepted();
    Origin::Begin(Expr::Inside(position))
}

/// Whether what is reached is as the slow answer says, as far as that is known.
fn is_next(reached: &FlatPart, next: &Next) -> bool {
    let mut right = reached.ends || !next.ends;
    for pair in &next.pairs {
        right = right && reached.pairs.contains(pair);
    }
    if next.whole {
        right = right && reached.ends == next.ends && reached.pairs.len() == next.pairs.len();
    }
    right
}

/// Compares what is reached with the slow answer.
fn expect_reached(reached: &Result<FlatPart, Over>, next: &Next) -> Result<(), Odd> {
    match reached {
        Ok(reached) => expect(is_next(reached, next), Odd::Reach),
        Err(_) => expect(!next.whole, Odd::Limits),
    }
}

/// What is reached from somewhere in the rules.
fn reach<S: Steps>(
    asked: &Asked<'_, S>,
    place: &Place,
    origin: Origin,
    budget: Budget,
    buffers: &mut Buffers,
) -> Result<Result<FlatPart, Over>, Odd>
    requires asked { IsSearchedAt S.of_rules asked.now.steps.now asked.now.game.now
        (λ told. ArePathsOf asked.now.game.now told.now) asked.now.paths place.now }
    requires stands { IsStart asked.now.game.now.rules (start_of origin) }
{
    let mut state = place.state.try_clone()?;
    let reached = asked.search(budget, buffers).reach(&mut state, origin);
    expect(state == place.state, Odd::Reach)?;
    Ok(reached)
}

/// Compares what is reached from somewhere in the rules, where these are the words that go on from there.
fn compare_start<S: Steps>(
    asked: &Asked<'_, S>,
    place: &Place,
    world: &World,
    origin: Origin,
    words: &[Word],
    buffers: &mut Buffers,
    tally: &mut Tally,
) -> Result<(), Odd>
    requires asked { IsSearchedAt S.of_rules asked.now.steps.now asked.now.game.now
        (λ told. ArePathsOf asked.now.game.now told.now) asked.now.paths place.now }
    requires stands { IsStart asked.now.game.now.rules (start_of origin) }
{
    let next = asked.rules.next(asked.alloc, world, words)?;
    tally.count_next(&next);
    let reached = reach(asked, place, origin, BUDGET, buffers)?;
    expect_reached(&reached, &next)
}

/// Whether the pattern at a position holds at a place.
fn pattern<S: Steps>(
    asked: &Asked<'_, S>,
    place: &Place,
    position: Position,
    budget: Budget,
    buffers: &mut Buffers,
) -> Result<Result<bool, Over>, Odd>
    requires asked { IsSearchedAt S.of_rules asked.now.steps.now asked.now.game.now
        (λ told. ArePathsOf asked.now.game.now told.now) asked.now.paths place.now }
    requires there { IsPatternAt asked.now.game.now.rules position }
{
    let mut state = place.state.try_clone()?;
    let valid = asked.search(budget, buffers).pattern(&mut state, position);
    expect(state == place.state, Odd::Pattern)?;
    Ok(valid)
}

/// Compares whether a pattern holds with the slow answer.
fn expect_pattern(valid: Result<bool, Over>, known: Known, tally: &mut Tally) -> Result<(), Odd> {
    let Ok(valid) = valid else {
        return expect(matches!(known, Known::Unknown), Odd::Limits);
    };
    match known {
        Known::Yes => {
            add(&mut tally.valid, 1);
            expect(valid, Odd::Pattern)
        }
        Known::No => {
            add(&mut tally.invalid, 1);
            expect(!valid, Odd::Pattern)
        }
        Known::Unknown => Ok(()),
    }
}

/// Whether two searches reached the same, or were given up for the same cause.
fn reach_alike(one: &Result<FlatPart, Over>, other: &Result<FlatPart, Over>) -> bool {
    match (one, other) {
        (Ok(one), Ok(other)) => {
            one.ends == other.ends && one.pairs.as_slice() == other.pairs.as_slice()
        }
        (Err(one), Err(other)) => one == other,
        _ => false,
    }
}

/// Compares what is reached in a pattern and whether it holds, within a budget, by leaps and step by step.
fn compare_order<S: Steps>(
    asked: &Asked<'_, S>,
    stepwise: &Asked<'_, S>,
    place: &Place,
    position: Position,
    budget: Budget,
    buffers: &mut Buffers,
) -> Result<Result<bool, Over>, Odd>
    requires asked { IsSearchedAt S.of_rules asked.now.steps.now asked.now.game.now
        (λ told. ArePathsOf asked.now.game.now told.now) asked.now.paths place.now }
    requires stepwise { IsSearchedAt S.of_rules stepwise.now.steps.now stepwise.now.game.now
        (λ told. ArePathsOf stepwise.now.game.now told.now) stepwise.now.paths place.now }
    requires there { IsPatternAt asked.now.game.now.rules position }
    requires there_too { IsPatternAt stepwise.now.game.now.rules position }
{
    let origin = in_pattern(asked.game, position);
    let reached = reach(asked, place, origin, budget, buffers)?;
    let origin = in_pattern(stepwise.game, position);
    let again = reach(stepwise, place, origin, budget, buffers)?;
    expect(reach_alike(&reached, &again), Odd::Order)?;
    let valid = pattern(asked, place, position, budget, buffers)?;
    let again = pattern(stepwise, place, position, budget, buffers)?;
    expect(valid == again, Odd::Order)?;
    Ok(valid)
}

/// Compares searches by leaps in a pattern with those that go step by step. These meet shifts too, so both meet
/// what they ask in different orders.
fn compare_orders<S: Steps>(
    asked: &Asked<'_, S>,
    place: &Place,
    position: Position,
    buffers: &mut Buffers,
    tally: &mut Tally,
) -> Result<(), Odd>
    requires asked { IsSearchedAt S.of_rules asked.now.steps.now asked.now.game.now
        (λ told. ArePathsOf asked.now.game.now told.now) asked.now.paths place.now }
    requires there { IsPatternAt asked.now.game.now.rules position }
{
    if asked.paths.is_none() {
        return Ok(());
    }
    let stepwise = Asked {
        alloc: asked.alloc,
        game: asked.game,
        steps: asked.steps,
        paths: None,
        played: asked.played,
        rules: asked.rules,
    };
    for budget in &BUDGETS {
        let valid = compare_order(asked, &stepwise, place, position, *budget, buffers)?;
        if let Err(over) = valid {
            tally.count_over(over);
        }
    }
    Ok(())
}

/// Compares what is reached after a position, and at the beginning of the pattern there and whether it holds.
fn compare_position<S: Steps>(
    asked: &Asked<'_, S>,
    place: &Place,
    world: &World,
    position: Position,
    buffers: &mut Buffers,
    tally: &mut Tally,
) -> Result<(), Odd>
    requires asked { IsSearchedAt S.of_rules asked.now.steps.now asked.now.game.now
        (λ told. ArePathsOf asked.now.game.now told.now) asked.now.paths place.now }
    requires from_one { 0 < position }
    requires there { position ≤ length (positions_of asked.now.game.now.rules) }
{
    let Some(entry) = asked.rules.table.entry(position) else {
        return Err(Odd::Load);
    };
    let origin = after(asked.game, position);
    compare_start(asked, place, world, origin, &entry.rests, buffers, tally)?;
    let Stands::Pattern { words, .. } = &entry.stands else {
        return expect(!asked.game.is_pattern(position), Odd::Load);
    };
    if !asked.game.is_pattern(position) {
        return Err(Odd::Load);
    }
    let origin = in_pattern(asked.game, position);
    compare_start(asked, place, world, origin, words, buffers, tally)?;
    let valid = pattern(asked, place, position, BUDGET, buffers)?;
    expect_pattern(valid, asked.rules.is_valid(world, position), tally)?;
    compare_orders(asked, place, position, buffers, tally)
}

/// Compares what is reached from everywhere in the rules, and which patterns hold, at a place, with these buffers.
fn compare_everywhere<S: Steps>(
    asked: &Asked<'_, S>,
    place: &Place,
    world: &World,
    buffers: &mut Buffers,
    tally: &mut Tally,
) -> Result<(), Odd>
    requires asked { IsSearchedAt S.of_rules asked.now.steps.now asked.now.game.now
        (λ told. ArePathsOf asked.now.game.now told.now) asked.now.paths place.now }
{
    let origin = at_beginning(asked.game);
    let words = asked.rules.table.words.as_slice();
    compare_start(asked, place, world, origin, words, buffers, tally)?;
    for position in 1..=asked.game.positions() as Position {
        compare_position(asked, place, world, position, buffers, tally)?;
    }
    Ok(())
}

/// Compares what is reached from everywhere in the rules, and which patterns hold, at a place.
pub(crate) fn compare_reach<S: Steps>(
    asked: &Asked<'_, S>,
    place: &Place,
    world: &World,
    tally: &mut Tally,
) -> Result<(), Odd>
    requires asked { IsSearchedAt S.of_rules asked.now.steps.now asked.now.game.now
        (λ told. ArePathsOf asked.now.game.now told.now) asked.now.paths place.now }
{
    let mut buffers = Buffers::new(asked.alloc);
    compare_everywhere(asked, place, world, &mut buffers, tally)
}
