//! The legal moves of a place.
ghost use Rattle.std.specs.Prelude.{◌≡◌, ◌≢◌, ◌<◌, AllPairs, IfOk};
ghost use Rattle.std.specs.List.Sorted.{IsPermutation};
ghost use Rattle.rbg_rules.specs.Meaning.{list_moves as listing_moves, IsPlaceOf};
ghost use Rattle.rbg_moves.specs.Answers.{ListsMoves};
ghost use Rattle.rbg_moves.specs.Listing.{IsGathered, IsListed, IsMoveBefore};
ghost use Rattle.rbg_moves.specs.Tallying.{Tallies};

use crate::asking::{move_of, rules_of};
use crate::finding::walk_from;
use crate::place::Place;
use crate::walking::Found;
use crate::workspace::Workspace;
use rbg_auto::Steps;
use rbg_base::{Memory, Move, MoveList};
use rbg_rules::Game;
use rbg_search::{GameSteps, Over};
use std::alloc::Global;

/// The legal moves that were listed.
#[derive(Drop)]
pub struct Listed {
    /// The moves in order: pair by pair, by vertex and then by position.
    pub moves: Vec<Move>,
    /// Whether there are more legal moves.
    pub cut: bool,
}

/// The legal moves that were found.
#[derive(Drop)]
pub struct Gathered {
    /// The moves in the order in which they were found.
    pub moves: MoveList,
    /// Whether there are more legal moves.
    pub cut: bool,
}

/// The legal moves of a place. Where there are more than `max`, some `max` of them are listed.
pub fn list_moves<S: Steps>(
    alloc: Global,
    game: &Game,
    steps: &S,
    place: &Place,
    max: usize,
) -> Result<Listed, Over>
    requires steps { S.of_rules steps.now game.now.rules }
    requires place { IsPlaceOf game.now place.now }
    requires some { 0 < max }
    ensures { ListsMoves game.now place.now result
        (λ listed. IsListed game.now place.now max listed.moves.items listed.cut)
        (λ listed. listed.cut) }
{
    list_sorted(alloc, rules_of(game, steps), place, max)
}

/// As `list_moves`, by rules that may have paths.
pub(crate) fn list_sorted<S: Steps>(
    alloc: Global,
    rules: GameSteps<'_, S>,
    place: &Place,
    max: usize,
) -> Result<Listed, Over>
    requires place { IsPlaceOf rules place.now }
    requires some { 0 < max }
    ensures { ListsMoves rules.entry place.now result
        (λ listed. IsListed rules.entry place.now max listed.moves.items listed.cut)
        (λ listed. listed.cut) }
{
    let mut workspace = Workspace::new(alloc);
    let mut lent = place.try_clone()?;
    let gathered = gather_moves(alloc, rules, &mut lent, max, &mut workspace)?;
    let mut moves = moves_of(alloc, &gathered.moves)?;
    sort(&mut moves);
    let cut = gathered.cut;
    Ok(Listed { moves, cut })
}

/// The legal moves, at most `max` of them, in the order in which they are found: first those of one switch, then those
/// after each other modifier, both by vertex and then by position. They stand in a list that `Workspace::keep_moves`
/// takes back. The question is asked as by `walk_from`.
pub(crate) fn gather_moves<S: Steps>(
    alloc: Global,
    rules: GameSteps<'_, S>,
    place: &mut Place,
    max: usize,
    workspace: &mut Workspace,
) -> Result<Gathered, Over>
    requires place { IsPlaceOf rules place.old }
    requires some { 0 < max }
    ensures lists { ListsMoves rules.entry place.old result
        (λ gathered. IsGathered rules.entry place.old max gathered.moves gathered.cut)
        (λ gathered. gathered.cut) }
    ensures kept { place.new ≡ place.old }
    ensures tallies { Tallies rules.entry listing_moves place.old workspace.old.tally
        workspace.new.tally result }
{
    let moves = workspace.take_moves();
    let mut found = Found { moves, max };
    let cut = walk_from(alloc, rules, place, &mut found, workspace)?;
    let moves = found.moves;
    Ok(Gathered { moves, cut })
}

/// The moves of a list, each as a value of its own.
fn moves_of(alloc: Global, list: &MoveList) -> Result<Vec<Move>, Memory>
    ensures { IfOk result (λ moves. moves.items ≡ list.now) }
{
    let mut moves = Vec::with_capacity(alloc, list.len())?;
    for index in 0..list.len() {
        moves.push(move_of(list.get(index)))?;
    }
    Ok(moves)
}

/// Sorts moves that differ.
fn sort(moves: &mut Vec<Move>)
    requires { AllPairs (λ a b. a ≢ b) moves.old.items }
    ensures permutation { IsPermutation moves.old.items moves.new.items }
    ensures order { AllPairs IsMoveBefore moves.new.items }
{
    moves.sort_unstable();
}
