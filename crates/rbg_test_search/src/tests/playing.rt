//! Which moves are legal and where they lead, beside the slow answers.
ghost use Rattle.std.specs.Prelude.{◌<◌, IfOk, IfSome};
ghost use Rattle.rbg_rules.specs.Meaning.{IsStateOf, IsPlaceOf};
ghost use Rattle.rbg_test_search.specs.Asking.{IsAskedAt};

use crate::tests::asked::Asked;
use crate::tests::meaning::{Moves, Played};
use crate::tests::odd::{Odd, Tally, add, expect};
use crate::tests::words::Word;
use crate::tests::world::World;
use rbg_auto::Steps;
use rbg_base::{Position, Variable, Vertex};
use rbg_moves::{Listed, Move, Over, Pair, Place, PlayedGame, find_move, list_moves, try_move};
use rbg_rules::Game;
use rbg_state::SemiState;

/// On boards with more vertices than that, what goes on and on takes long, so only moves that are all known are compared.
const FEW_VERTICES: usize = 4;

/// Whether a semi-state is the one of the slow answers.
fn is_same(game: &Game, state: &SemiState, world: &World) -> bool
    requires { IsStateOf game.now state.now.state }
{
    let mut same = state.player() == world.player && state.vertex() == world.vertex;
    for vertex in 0..game.board().len() {
        let piece = state.piece(vertex as Vertex);
        same = same && world.pieces.get(vertex).copied() == Some(piece);
    }
    for variable in 0..game.variables() {
        let value = i64::from(state.value(variable as Variable));
        same = same && world.values.get(variable).copied() == Some(value);
    }
    same
}

/// What trying a move by leaps answers.
fn try_played(played: &PlayedGame, place: &Place, pairs: &Move) -> Result<Option<Place>, Over>
    requires { IsPlaceOf played.now place.now }
    ensures { IfOk result (λ after. IfSome after (IsPlaceOf played.now)) }
{
    let mut workspace = played.workspace();
    played.try_move(place, pairs, &mut workspace)
}

/// What trying pairs answers: none where they are no move, or where the search gives up.
fn try_pairs<S: Steps>(
    asked: &Asked<'_, S>,
    place: &Place,
    pairs: &[Pair],
) -> Result<Option<Place>, Over>
    requires asked { IsAskedAt S.of_rules asked.now.steps.now asked.now.game.now asked.now.played.now place.now }
    ensures { IfOk result (λ after. IfSome after (IsPlaceOf asked.now.game.now)) }
{
    let Ok(pairs) = Move::try_from(pairs) else {
        return Ok(None);
    };
    match asked.paths {
        Some(_) => try_played(asked.played, place, &pairs),
        None => try_move(asked.alloc, asked.game, asked.steps, place, &pairs),
    }
}

/// Compares a legal move with what trying it answers.
fn compare_legal<S: Steps>(
    asked: &Asked<'_, S>,
    place: &Place,
    played: &Played,
    whole: bool,
) -> Result<(), Odd>
    requires asked { IsAskedAt S.of_rules asked.now.steps.now asked.now.game.now asked.now.played.now place.now }
{
    match try_pairs(asked, place, &played.pairs) {
        Ok(Some(to)) => {
            let same = is_same(asked.game, &to.state, &played.world);
            expect(same && to.after == Some(played.last), Odd::Try)
        }
        Ok(None) => Err(Odd::Try),
        Err(_) => expect(!whole, Odd::Limits),
    }
}

/// Compares pairs that may be no move with what trying them answers, where all moves are known.
fn compare_pairs<S: Steps>(
    asked: &Asked<'_, S>,
    place: &Place,
    pairs: &[Pair],
    moves: &Moves,
    tally: &mut Tally,
) -> Result<(), Odd>
    requires asked { IsAskedAt S.of_rules asked.now.steps.now asked.now.game.now asked.now.played.now place.now }
{
    if !moves.whole || moves.has(pairs) {
        return Ok(());
    }
    add(&mut tally.illegal, 1);
    match try_pairs(asked, place, pairs) {
        Ok(None) => Ok(()),
        Ok(Some(_)) => Err(Odd::Try),
        Err(_) => Err(Odd::Limits),
    }
}

/// Tries what differs from a legal move in a little.
fn compare_near<S: Steps>(
    asked: &Asked<'_, S>,
    place: &Place,
    played: &Played,
    moves: &Moves,
    tally: &mut Tally,
) -> Result<(), Odd>
    requires asked { IsAskedAt S.of_rules asked.now.steps.now asked.now.game.now asked.now.played.now place.now }
{
    let Some((last, front)) = played.pairs.split_last() else {
        return Err(Odd::Try);
    };
    compare_pairs(asked, place, front, moves, tally)?;
    let mut pairs = Vec::from_slice(asked.alloc, front)?;
    compare_longer(asked, place, &mut pairs, &near(last), moves, tally)
}

/// What is put after the front of a move that ends with a pair, one after the other: pairs that differ in a little, the
/// pair, and the pair once more.
fn near(last: &Pair) -> [Pair; 4] {
    let elsewhere = Pair {
        vertex: last.vertex ^ 1,
        ..*last
    };
    let otherwise = Pair {
        position: last.position ^ 1,
        ..*last
    };
    [elsewhere, otherwise, *last, *last]
}

/// Tries some pairs with more pairs after them, one after the other.
fn compare_longer<S: Steps>(
    asked: &Asked<'_, S>,
    place: &Place,
    pairs: &mut Vec<Pair>,
    more: &[Pair],
    moves: &Moves,
    tally: &mut Tally,
) -> Result<(), Odd>
    requires asked { IsAskedAt S.of_rules asked.now.steps.now asked.now.game.now asked.now.played.now place.now }
{
    for pair in more {
        pairs.push(*pair)?;
        compare_pairs(asked, place, pairs, moves, tally)?;
    }
    Ok(())
}

/// Tries each position alone.
fn compare_single<S: Steps>(
    asked: &Asked<'_, S>,
    place: &Place,
    moves: &Moves,
    tally: &mut Tally,
) -> Result<(), Odd>
    requires asked { IsAskedAt S.of_rules asked.now.steps.now asked.now.game.now asked.now.played.now place.now }
{
    let vertex = place.state.vertex();
    for position in 1..=asked.game.positions() as Position {
        let pair = Pair { vertex, position };
        compare_pairs(asked, place, &[pair], moves, tally)?;
    }
    Ok(())
}

/// Whether the moves listed are in order, each once.
fn is_sorted(moves: &[Move]) -> bool {
    for pair in moves.windows(2) {
        if let [one, next] = pair
            && one >= next
        {
            return false;
        }
    }
    true
}

/// Whether the pairs are one of the moves listed.
fn is_listed(listed: &[Move], pairs: &[Pair]) -> bool {
    for one in listed {
        if one.as_slice() == pairs {
            return true;
        }
    }
    false
}

/// Whether all moves are listed.
fn has_all(listed: &[Move], moves: &Moves) -> bool {
    for played in &moves.moves {
        if !is_listed(listed, &played.pairs) {
            return false;
        }
    }
    true
}

/// Whether only moves are listed.
fn has_only(listed: &[Move], moves: &Moves) -> bool {
    for one in listed {
        if !moves.has(one.as_slice()) {
            return false;
        }
    }
    true
}

/// Whether a list of at most `max` moves is right.
fn is_list(listed: &Listed, moves: &Moves, max: usize) -> bool {
    let count = listed.moves.len();
    let mut right = is_sorted(&listed.moves) && count <= max;
    if !listed.cut {
        right = right && has_all(&listed.moves, moves);
    }
    if moves.whole {
        let all = moves.moves.len();
        right = right
            && has_only(&listed.moves, moves)
            && listed.cut == (max < all)
            && count == all.min(max);
    }
    right
}

/// The list of at most `max` moves.
fn list<S: Steps>(asked: &Asked<'_, S>, place: &Place, max: usize) -> Result<Listed, Over>
    requires asked { IsAskedAt S.of_rules asked.now.steps.now asked.now.game.now asked.now.played.now place.now }
    requires some { 0 < max }
{
    match asked.paths {
        Some(_) => asked.played.list_moves(place, max),
        None => list_moves(asked.alloc, asked.game, asked.steps, place, max),
    }
}

/// A move that is found by leaps.
fn find_played(played: &PlayedGame, place: &Place) -> Result<Option<Move>, Over>
    requires { IsPlaceOf played.now place.now }
{
    let mut lent = place.try_clone()?;
    let found = played.find_move(&mut lent, &mut played.workspace())?;
    Ok(match found {
        Some(pairs) => Move::try_from(pairs.as_slice()).ok(),
        None => None,
    })
}

/// A move that is found.
fn find<S: Steps>(asked: &Asked<'_, S>, place: &Place) -> Result<Option<Move>, Over>
    requires asked { IsAskedAt S.of_rules asked.now.steps.now asked.now.game.now asked.now.played.now place.now }
{
    match asked.paths {
        Some(_) => find_played(asked.played, place),
        None => find_move(asked.alloc, asked.game, asked.steps, place),
    }
}

/// Compares the list of at most `max` moves.
fn compare_list<S: Steps>(
    asked: &Asked<'_, S>,
    place: &Place,
    moves: &Moves,
    max: usize,
) -> Result<(), Odd>
    requires asked { IsAskedAt S.of_rules asked.now.steps.now asked.now.game.now asked.now.played.now place.now }
    requires some { 0 < max }
{
    match list(asked, place, max) {
        Ok(listed) => expect(is_list(&listed, moves, max), Odd::List),
        Err(_) => expect(!moves.whole, Odd::Limits),
    }
}

/// Compares the move that is found.
fn compare_found<S: Steps>(asked: &Asked<'_, S>, place: &Place, moves: &Moves) -> Result<(), Odd>
    requires asked { IsAskedAt S.of_rules asked.now.steps.now asked.now.game.now asked.now.played.now place.now }
{
    match find(asked, place) {
        Ok(Some(found)) => expect(!moves.whole || moves.has(found.as_slice()), Odd::Find),
        Ok(None) => expect(moves.moves.is_empty(), Odd::Find),
        Err(_) => expect(!moves.whole, Odd::Limits),
    }
}

/// Compares all that is asked of moves at a place, where these are the moves.
fn compare_all<S: Steps>(
    asked: &Asked<'_, S>,
    place: &Place,
    moves: &Moves,
    tally: &mut Tally,
) -> Result<(), Odd>
    requires asked { IsAskedAt S.of_rules asked.now.steps.now asked.now.game.now asked.now.played.now place.now }
{
    compare_found(asked, place, moves)?;
    compare_list(asked, place, moves, 200)?;
    compare_list(asked, place, moves, 2)?;
    compare_single(asked, place, moves, tally)?;
    for played in &moves.moves {
        compare_legal(asked, place, played, moves.whole)?;
        compare_near(asked, place, played, moves, tally)?;
    }
    Ok(())
}

/// Compares all that is asked of moves at a place, where these words go on from it, and returns the moves.
pub(crate) fn compare_moves<S: Steps>(
    asked: &Asked<'_, S>,
    place: &Place,
    world: &World,
    words: &[Word],
    tally: &mut Tally,
) -> Result<Moves, Odd>
    requires asked { IsAskedAt S.of_rules asked.now.steps.now asked.now.game.now asked.now.played.now place.now }
{
    let moves = asked.rules.moves(asked.alloc, world, words)?;
    tally.count_moves(&moves);
    if moves.whole || asked.rules.board.len() <= FEW_VERTICES {
        compare_all(asked, place, &moves, tally)?;
    }
    Ok(moves)
}

/// The place after a move that is legal.
pub(crate) fn play<S: Steps>(asked: &Asked<'_, S>, place: &Place, played: &Played) -> Option<Place>
    requires asked { IsAskedAt S.of_rules asked.now.steps.now asked.now.game.now asked.now.played.now place.now }
    ensures { IfSome result (IsPlaceOf asked.now.game.now) }
{
    match try_pairs(asked, place, &played.pairs) {
        Ok(after) => after,
        Err(_) => None,
    }
}
