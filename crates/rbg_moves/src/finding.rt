//! Some legal move, where there is one.
ghost use Rattle.std.specs.Prelude.{◌≡◌, ◌≤◌, length};
ghost use Rattle.rbg_rules.specs.Meaning.{find_move, IsPlaceOf};
ghost use Rattle.rbg_moves.specs.Answers.{FindsMove};
ghost use Rattle.rbg_moves.specs.Tallying.{Tallies};
ghost use Rattle.rbg_moves.specs.internal.Fronts.{FindsFront, IsWalkedFrom};

use crate::asking::{budget_is_kept, move_of, rules_of, search_in};
use crate::place::Place;
use crate::walking::{Found, walk};
use crate::workspace::Workspace;
use rbg_auto::Steps;
use rbg_base::{Move, MoveList, Pair};
use rbg_rules::Game;
use rbg_search::{GameSteps, Over};
use std::alloc::Global;
use std::mem::replace;

/// Some legal move; none where play is finished.
///
/// Where a switch comes next, the first of these, by vertex and then by position, ends the move. Elsewhere the first
/// modifier after which there is a move is taken.
pub fn find_move<S: Steps>(
    alloc: Global,
    game: &Game,
    steps: &S,
    place: &Place,
) -> Result<Option<Move>, Over>
    requires steps { S.of_rules steps.now game.now.rules }
    requires place { IsPlaceOf game.now place.now }
    ensures { FindsMove game.now place.now result (λ pairs. pairs) }
{
    let mut workspace = Workspace::new(alloc);
    let mut lent = place.try_clone()?;
    let rules = rules_of(game, steps);
    let Some(pairs) = find_pairs(alloc, rules, &mut lent, &mut workspace)? else {
        return Ok(None);
    };
    Ok(Some(move_of(pairs.as_slice())))
}

/// The pairs of some legal move, in a list that `Workspace::keep_pairs` takes back; none where play is finished. The
/// question is asked as by `find_front`.
pub(crate) fn find_pairs<S: Steps>(
    alloc: Global,
    rules: GameSteps<'_, S>,
    place: &mut Place,
    workspace: &mut Workspace,
) -> Result<Option<Vec<Pair>>, Over>
    requires { IsPlaceOf rules place.old }
    ensures finds { FindsMove rules.entry place.old result (λ pairs. pairs.items) }
    ensures kept { place.new ≡ place.old }
    ensures tallies { Tallies rules.entry find_move place.old workspace.old.tally
        workspace.new.tally result }
{
    let found = find_front(alloc, rules, place, workspace)?;
    if !found {
        return Ok(None);
    }
    let pairs = replace(&mut workspace.front, Vec::new(alloc));
    Ok(Some(pairs))
}

/// Whether there is a legal move. The pairs of one are left in the front of the workspace.
pub(crate) fn find_front<S: Steps>(
    alloc: Global,
    rules: GameSteps<'_, S>,
    place: &mut Place,
    workspace: &mut Workspace,
) -> Result<bool, Over>
    requires { IsPlaceOf rules place.old }
    ensures finds { FindsFront rules.entry place.old result workspace.new.front.items }
    ensures kept { place.new ≡ place.old }
    ensures tallies { Tallies rules.entry find_move place.old workspace.old.tally
        workspace.new.tally result }
{
    let moves = MoveList::new(alloc);
    let max = 0;
    let mut found = Found { moves, max };
    walk_from(alloc, rules, place, &mut found, workspace)
}

/// Walks from a place, and tells whether the walk ended early: then the pairs of a move are left in the front of the
/// workspace. The question is asked on the place's own semi-state, which is given back, also where there is no answer.
/// Where there is none, buffers of the workspace are lost.
pub(crate) fn walk_from<S: Steps>(
    alloc: Global,
    rules: GameSteps<'_, S>,
    place: &mut Place,
    found: &mut Found,
    workspace: &mut Workspace,
) -> Result<bool, Over>
    requires place { IsPlaceOf rules place.old }
    requires few { length found.old.moves ≤ found.old.max }
    ensures kept { place.new ≡ place.old }
    ensures walks { IsWalkedFrom rules.entry place.old found.old.max found.old.moves found.new.moves
        workspace.new.front.items workspace.old.tally workspace.new.tally result }
{
    // The game is lawful.
    let _game = rules.game();
    workspace.front.clear();
    let mark = place.state.mark();
    let mut search = search_in(alloc, rules, &mut workspace.buffers);
    let ended = walk(
        &mut search,
        &mut place.state,
        &mut workspace.front,
        found,
        place.after,
    );
    place.state.undo_to(mark);
    let ended = ended?;
    budget_is_kept(&search);
    search.leave(&mut workspace.tally);
    Ok(ended)
}
