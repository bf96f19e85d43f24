//! All questions of small random games are answered as slowly trying all words answers them.
ghost use Rattle.std.specs.Prelude.{◌≡◌, IfOk, IfSome};
ghost use Rattle.rbg_flat.specs.Paths.{ArePathsOf};
ghost use Rattle.rbg_rules.specs.Meaning.{IsPlaceOf};
ghost use Rattle.rbg_test_search.specs.Asking.{IsAskedAt};

use crate::tests::asked::Asked;
use crate::tests::board::Board;
use crate::tests::comparing::compare_reach;
use crate::tests::generated::Generator;
use crate::tests::meaning::{Moves, Rules};
use crate::tests::odd::{Odd, Tally, add, expect};
use crate::tests::playing::{compare_moves, play};
use crate::tests::table::Table;
use crate::tests::tree::Tree;
use crate::tests::world::World;
use rbg_auto::{Steps, compact, compile};
use rbg_flat::Paths;
use rbg_game::load;
use rbg_moves::{Place, PlayedGame};
use std::alloc::{AllocError, Global};

/// How many games are made.
const GAMES: u64 = 2_000;

/// The text of a game on a board.
fn text_of(alloc: Global, board: &Board, rules: &Tree) -> Result<String, AllocError> {
    let mut text = format!(in alloc;
        "#players = white(4), black(4)\n#variables = n(2)\n#pieces = e, w\n#board = "
    )?;
    board.spell(&mut text)?;
    text.push_str("\n#rules = ")?;
    rules.spell(&mut text)?;
    Ok(text)
}

/// A place, and the same for the slow answers.
#[derive(Drop)]
struct Turn {
    place: Place,
    world: World,
}

/// Makes one of the moves at a place, which a number chooses.
fn turn_after<S: Steps>(
    asked: &Asked<'_, S>,
    place: &Place,
    moves: &Moves,
    choice: u64,
) -> Option<Turn>
    requires asked { IsAskedAt S.of_rules asked.now.steps.now asked.now.game.now asked.now.played.now place.now }
    ensures { IfSome result (λ turn. IsPlaceOf asked.now.game.now turn.place) }
{
    let number = choice.checked_rem(moves.moves.len() as u64).unwrap_or(0);
    let Some(played) = moves.moves.get(number as usize) else {
        return None;
    };
    let Some(place) = play(asked, place, played) else {
        return None;
    };
    Some(Turn {
        place,
        world: played.world,
    })
}

/// Compares everything at a place, and makes a move.
fn compare_turn<S: Steps>(
    asked: &Asked<'_, S>,
    turn: &Turn,
    choice: u64,
    tally: &mut Tally,
) -> Result<Option<Turn>, Odd>
    requires steps { S.of_rules asked.now.steps.now asked.now.game.now.rules }
    requires paths { IfSome asked.now.paths (λ told. ArePathsOf asked.now.game.now told.now) }
    requires same { asked.now.played.now ≡ asked.now.game.now }
    requires place { IsPlaceOf asked.now.game.now turn.now.place }
    ensures { IfOk result (λ next. IfSome next (λ turn. IsPlaceOf asked.now.game.now turn.place)) }
{
    compare_reach(asked, &turn.place, &turn.world, tally)?;
    let table = asked.rules.table;
    let words = match turn.place.after {
        None => &table.words,
        Some(position) => &table.entry(position).ok_or(Odd::Load)?.rests,
    };
    let moves = compare_moves(asked, &turn.place, &turn.world, words, tally)?;
    Ok(turn_after(asked, &turn.place, &moves, choice))
}

/// Compares everything at two places, one move after the other.
fn compare_two<S: Steps>(
    asked: &Asked<'_, S>,
    turn: &Turn,
    choice: u64,
    tally: &mut Tally,
) -> Result<(), Odd>
    requires steps { S.of_rules asked.now.steps.now asked.now.game.now.rules }
    requires paths { IfSome asked.now.paths (λ told. ArePathsOf asked.now.game.now told.now) }
    requires same { asked.now.played.now ≡ asked.now.game.now }
    requires place { IsPlaceOf asked.now.game.now turn.now.place }
{
    let Some(next) = compare_turn(asked, turn, choice, tally)? else {
        return Ok(());
    };
    compare_turn(asked, &next, choice / 7, tally)?;
    Ok(())
}

/// Compares everything at three places, one move after the other.
fn compare_three<S: Steps>(
    asked: &Asked<'_, S>,
    turn: &Turn,
    choice: u64,
    tally: &mut Tally,
) -> Result<(), Odd>
    requires steps { S.of_rules asked.now.steps.now asked.now.game.now.rules }
    requires paths { IfSome asked.now.paths (λ told. ArePathsOf asked.now.game.now told.now) }
    requires same { asked.now.played.now ≡ asked.now.game.now }
    requires place { IsPlaceOf asked.now.game.now turn.now.place }
{
    let Some(next) = compare_turn(asked, turn, choice, tally)? else {
        return Ok(());
    };
    compare_two(asked, &next, choice / 7, tally)
}

/// Compares the first places of a game.
fn compare_game<S: Steps>(asked: &Asked<'_, S>, choice: u64, tally: &mut Tally) -> Result<(), Odd>
    requires steps { S.of_rules asked.now.steps.now asked.now.game.now.rules }
    requires paths { IfSome asked.now.paths (λ told. ArePathsOf asked.now.game.now told.now) }
    requires same { asked.now.played.now ≡ asked.now.game.now }
{
    let first = Turn {
        place: Place::start(asked.alloc, asked.game)?,
        world: World::start(asked.rules.board),
    };
    compare_three(asked, &first, choice, tally)
}

/// Compares a game by an automaton, where seeds say so by leaps.
fn compare_by<'a, S: Steps>(
    alloc: Global,
    played: &'a PlayedGame,
    steps: &'a S,
    rules: Rules<'a>,
    seed: u64,
    tally: &mut Tally,
) -> Result<(), Odd>
    requires steps { S.of_rules steps.now played.now.rules }
{
    let game = played.as_game();
    let paths = Paths::new(alloc, game, steps)?;
    let asked = Asked {
        alloc,
        game,
        steps,
        paths: if seed % 4 < 2 { Some(&paths) } else { None },
        played,
        rules,
    };
    compare_game(&asked, seed, tally)
}

/// Compares a game, by one of the two automata.
fn compare(
    alloc: Global,
    played: &PlayedGame,
    rules: Rules<'_>,
    seed: u64,
    tally: &mut Tally,
) -> Result<(), Odd> {
    let game = played.as_game();
    expect(game.positions() == rules.table.entries.len(), Odd::Load)?;
    if seed % 2 == 0 {
        compare_by(alloc, played, &compact(alloc, game)?, rules, seed, tally)
    } else {
        compare_by(alloc, played, &compile(alloc, game)?, rules, seed, tally)
    }
}

/// The board of a seed: one of the rings for one in eight.
fn board_of(seed: u64, generator: &mut Generator) -> Board {
    let small = Board::small(generator.below(4));
    if seed % 8 < 7 {
        small
    } else {
        Board::ring(seed / 8)
    }
}

/// The game of these rules on a board.
fn load_rules(alloc: Global, board: &Board, rules: &Tree) -> Result<PlayedGame, Odd> {
    let text = text_of(alloc, board, rules)?;
    let Ok(game) = load(alloc, text.as_bytes()) else {
        return Err(Odd::Load);
    };
    Ok(PlayedGame::new(alloc, game)?)
}

/// Compares the game of these rules on a board.
fn compare_rules(
    alloc: Global,
    board: &Board,
    rules: &Tree,
    seed: u64,
    tally: &mut Tally,
) -> Result<(), Odd> {
    let table = Table::new(alloc, rules)?;
    let played = load_rules(alloc, board, rules)?;
    let rules = Rules {
        board,
        table: &table,
    };
    compare(alloc, &played, rules, seed, tally)
}

/// Makes a game and compares it.
fn compare_seed(alloc: Global, seed: u64, tally: &mut Tally) -> Result<(), Odd> {
    let mut generator = Generator::new(alloc, seed);
    let board = board_of(seed, &mut generator);
    let tree = generator.rules()?;
    compare_rules(alloc, &board, &tree, seed, tally)
}

#[test]
fn searches_agree_with_trying_all_words(rt: HostRuntime) {
    let mut tally = Tally::new();
    for seed in 0..GAMES {
        match compare_seed(rt.alloc(), seed, &mut tally) {
            Ok(()) => add(&mut tally.games, 1),
            Err(Odd::TooMany) => add(&mut tally.skipped, 1),
            Err(Odd::Limits) => add(&mut tally.limited, 1),
            Err(odd) => panic!(rt; "at {seed}: {odd:?}"),
        }
    }
    assert!(rt; tally.shows_enough());
}
