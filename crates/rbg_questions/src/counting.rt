//! Sequences of moves, counted.
ghost use Rattle.std.specs.Prelude.{◌≡◌, ◌≢◌, ℕ, ◌+◌, ◌<◌, ◌⊎◌, length, suc, All, AllPairs, IfErr, IfNone, IfOk, IfSome, OnOk};
ghost use Rattle.rbg_rules.specs.Meaning.{IsLegal, Legal, IsPlaceOf};
ghost use Rattle.rbg_questions.specs.Counting.{AreCounted, AreCountedAfter, Sums};
ghost use Rattle.rbg_questions.specs.Places.{AreLegalMoves};
ghost use Rattle.rbg_questions.specs.Refusals.{IsNotCounted, IsNotCountedFrom, most_counted};
ghost use Rattle.rbg_questions.specs.declared.extent.Extent.{Extent};
ghost use Rattle.rbg_questions.specs.declared.extent.Extent.TheVariants.{Ends};

use crate::error::CountError;
use crate::extent::Extent;
use crate::stepping::is_in_memory;
use rbg_base::{Memory, Pair};
use rbg_moves::{MoveList, Place, PlayedGame, Workspace};

/// How many sequences of moves there are.
#[derive(Clone, Copy)]
pub struct Counts {
    /// The sequences.
    pub sequences: u64,
    /// Those of them after which play is finished.
    pub ended: u64,
}

/// No sequences.
const NONE: Counts = Counts {
    sequences: 0,
    ended: 0,
};

/// One sequence, after which play goes on.
const GOING: Counts = Counts {
    sequences: 1,
    ended: 0,
};

/// One sequence, after which play is finished.
const ENDED: Counts = Counts {
    sequences: 1,
    ended: 1,
};

/// What follows a first move: so many further moves, and whether the ends are asked for after the last one.
#[derive(Clone, Copy)]
struct Further {
    moves: u8,
    extent: Extent,
}

impl Counts {
    /// Both together.
    fn join(self, other: Counts) -> Option<Counts>
        ensures sequences { IfSome result (λ sum.
            sum.sequences ≡ self.sequences + other.sequences) }
        ensures ended { IfSome result (λ sum. sum.ended ≡ self.ended + other.ended) }
        ensures above { IfNone result ((most_counted < self.sequences + other.sequences)
            ⊎ (most_counted < self.ended + other.ended)) }
    {
        Some(Counts {
            sequences: self.sequences.checked_add(other.sequences)?,
            ended: self.ended.checked_add(other.ended)?,
        })
    }
}

/// Counts the sequences of so many moves of the players from a place. The keeper's moves between them are not counted.
/// Where the keeper has several, it makes the one that `find_move` finds. The workspace counts what is searched.
pub fn count_sequences(
    game: &PlayedGame,
    place: Place,
    moves: u8,
    extent: Extent,
    workspace: &mut Workspace,
) -> Result<Counts, CountError>
    requires place { IsPlaceOf game.now place }
    ensures counted { IfOk result (λ counts.
        AreCounted game.now moves extent place counts.sequences counts.ended) }
    ensures refused { IfErr result (IsNotCounted game.now moves extent place) }
{
    let mut place = place;
    let counts = count_from(game, &mut place, moves, extent, workspace)?;
    workspace.keep(place);
    Ok(counts)
}

/// Counts the sequences of so many moves of the players from a place, which is led on by the keeper's moves.
#[cycle(counting)]
fn count_from(
    game: &PlayedGame,
    place: &mut Place,
    moves: u8,
    extent: Extent,
    workspace: &mut Workspace,
) -> Result<Counts, CountError>
    requires place { IsPlaceOf game.now place.old }
    ensures counted { IfOk result (λ counts.
        AreCounted game.now moves extent place.old counts.sequences counts.ended) }
    ensures refused { IfErr result (IsNotCounted game.now moves extent place.old) }
{
    if moves == 0 {
        let none = count_none(game, place, extent, workspace)?;
        return Ok(none);
    }
    game.settle(place, workspace)?;
    let listed = list_all(game, place, workspace)?;
    let further = Further {
        moves: moves - 1,
        extent,
    };
    let counts = count_after(game, place, &listed, further, workspace)?;
    workspace.keep_moves(listed);
    Ok(counts)
}

/// Counts the sequences that begin with one of these moves.
#[cycle(counting)]
fn count_after(
    game: &PlayedGame,
    place: &Place,
    firsts: &MoveList,
    further: Further,
    workspace: &mut Workspace,
) -> Result<Counts, CountError>
    requires place { IsPlaceOf game.now place.now }
    requires legal { All (IsLegal game.now place.now) firsts.now }
    requires different { AllPairs (λ a b. a ≢ b) firsts.now }
    ensures counted { IfOk result (λ counts.
        Sums (AreCountedAfter game.now further.moves further.extent place.now) firsts.now
        counts.sequences counts.ended) }
    ensures refused { IfErr result
        (IsNotCountedFrom game.now (suc further.moves) further.extent place.now) }
{
    if further.moves == 0 && !further.extent.asks_ends() {
        return Ok(going(firsts));
    }
    let mut counts = NONE;
    let mut to = workspace.spare();
    for index in 0..firsts.len() {
        let pairs = firsts.get(index);
        lead(game, place, pairs, &mut to)?;
        let after = count_from(game, &mut to, further.moves, further.extent, workspace)?;
        counts = counts.join(after).ok_or(CountError::TooMany)?;
    }
    workspace.keep(to);
    Ok(counts)
}

/// Makes a legal move from a place, in the buffers of another one, which is then the place to which it leads.
#[inline(always)]
fn lead(game: &PlayedGame, place: &Place, pairs: &[Pair], to: &mut Place) -> Result<(), Memory>
    requires place { IsPlaceOf game.now place.now }
    requires legal { IsLegal game.now place.now pairs.now }
    ensures to { OnOk result (Legal game.now place.now pairs.now to.new) }
    ensures in_game { OnOk result (IsPlaceOf game.now to.new) }
{
    to.copy_from(place)?;
    game.make_move(to, pairs)?;
    Ok(())
}

/// One sequence for each of these moves, after which nothing is asked.
fn going(firsts: &MoveList) -> Counts
    ensures sequences { result.sequences ≡ length firsts.now }
    ensures ended { result.ended ≡ 0 }
{
    Counts {
        sequences: firsts.len() as u64,
        ended: 0,
    }
}

/// Counts the one sequence of no moves from a place.
fn count_none(
    game: &PlayedGame,
    place: &mut Place,
    extent: Extent,
    workspace: &mut Workspace,
) -> Result<Counts, CountError>
    requires place { IsPlaceOf game.now place.old }
    ensures counted { IfOk result (λ counts.
        AreCounted game.now 0 extent place.old counts.sequences counts.ended) }
    ensures refused { IfErr result (IsNotCounted game.now 0 extent place.old) }
{
    match extent {
        Extent::Moves => Ok(GOING),
        Extent::Ends => {
            game.settle(place, workspace)?;
            if game.has_move(place, workspace)? {
                Ok(GOING)
            } else {
                Ok(ENDED)
            }
        }
    }
}

/// The legal moves, each once. The place is given back.
fn list_all(
    game: &PlayedGame,
    place: &mut Place,
    workspace: &mut Workspace,
) -> Result<MoveList, CountError>
    requires place { IsPlaceOf game.now place.old }
    ensures all { IfOk result (λ moves. AreLegalMoves game.now place.old moves) }
    ensures kept { place.new ≡ place.old }
    ensures refused { IfErr result (λ error. (further : ℕ) →
        (extent : Extent) → IsNotCountedFrom game.now (suc further) extent place.old error) }
{
    let gathered = game.gather_moves(place, usize::MAX, workspace)?;
    is_in_memory(&gathered.moves);
    Ok(gathered.moves)
}
