//! How matches that were played by chance ended, counted.
ghost use Rattle.std.specs.Prelude.{◌≡◌, ◌≢◌, ◌↔◌, ◌<◌, ◌≤◌, ◌∷◌, ◌++◌, [], All, IfNone, IfSome, IsTrue, List, None, OnOk, Option, Some, length, map, ℕ};
ghost use Rattle.rbg_questions.specs.Chance.{counted_by, scores_of};
ghost use Rattle.rbg_questions.specs.Limits.{most_played};
ghost use Rattle.rbg_questions.specs.internal.Counting.{CountsIn, IsSmall, IsTallyAt};

use arrayvec::ArrayVec;
use rbg_base::Memory;
use rbg_rules::limits::MAX_PLAYERS;

/// How a match that was played by chance ended.
#[derive(Drop)]
pub enum Ending {
    /// `<scores>`: nobody has a legal move. The players have these scores, in order.
    Finished { scores: ArrayVec<u64, MAX_PLAYERS> },
    /// `-`: it was stopped after 10,000 moves.
    Stopped,
}

/// A match that was played by chance.
#[derive(Drop)]
pub struct Played {
    /// How it ended.
    pub ending: Ending,
    /// How many moves the players made.
    pub moves: u64,
}

/// How many matches ended in one way.
#[derive(Drop)]
pub struct EndingTally {
    /// How they ended.
    pub ending: Ending,
    /// How many they are.
    pub matches: u64,
    /// How many moves the players made in all of them together.
    pub moves: u64,
}

/// Whether two endings are the same.
fn is_same(one: &Ending, other: &Ending) -> bool
    ensures { IsTrue result ↔ (scores_of one.now ≡ scores_of other.now) }
{
    match one {
        Ending::Finished { scores } => is_finished_so(other, scores.as_slice()),
        Ending::Stopped => is_stopped(other),
    }
}

fn is_finished_so(ending: &Ending, wanted: &[u64]) -> bool
    ensures { IsTrue result ↔ (Some wanted.now ≡ scores_of ending.now) }
{
    match ending {
        Ending::Finished { scores } => wanted == scores.as_slice(),
        Ending::Stopped => false,
    }
}

fn is_stopped(ending: &Ending) -> bool
    ensures { IsTrue result ↔ (None ≡ scores_of ending.now) }
{
    match ending {
        Ending::Finished { .. } => false,
        Ending::Stopped => true,
    }
}

/// The index of the tally of an ending, if there is one.
fn index_of(ending: &Ending, tallies: &[EndingTally]) -> Option<usize>
    ensures found { IfSome result (IsTallyAt (scores_of ending.now) tallies.now) }
    ensures none { IfNone result (All (λ tally. scores_of tally.ending ≢ scores_of ending.now)
        tallies.now) }
{
    tallies
        .iter()
        .position(|tally| is_same(&tally.ending, ending))
}

/// Counts one more match of so many moves in the tally at an index.
fn count_one(index: usize, moves: u64, tallies: &mut [EndingTally])
    requires there { index < length tallies.old }
    requires few { moves ≤ most_played }
    requires small { All IsSmall tallies.old }
    ensures { (scores : Option (List ℕ))
        → IsTallyAt scores tallies.old index
        → CountsIn scores moves (map counted_by tallies.old) (map counted_by tallies.new) }
{
    let tally = &mut tallies[index];
    tally.matches += 1;
    tally.moves += moves;
}

/// Counts one more match.
pub(crate) fn count_in(played: Played, tallies: &mut Vec<EndingTally>) -> Result<(), Memory>
    requires few { played.moves ≤ most_played }
    requires small { All IsSmall tallies.old.items }
    ensures { OnOk result (CountsIn (scores_of played.ending) played.moves
        (map counted_by tallies.old.items) (map counted_by tallies.new.items)) }
{
    match index_of(&played.ending, tallies.as_slice()) {
        Some(index) => {
            count_one(index, played.moves, tallies.as_mut_slice());
            Ok(())
        }
        None => push_first(played, tallies),
    }
}

/// Counts the first match that ended so.
fn push_first(played: Played, tallies: &mut Vec<EndingTally>) -> Result<(), Memory>
    ensures { OnOk result (tallies.new.items
        ≡ tallies.old.items
        ++ (record { ending = played.ending; matches = 1; moves = played.moves }) ∷ []) }
{
    let Played { ending, moves } = played;
    tallies.push(EndingTally {
        ending,
        matches: 1,
        moves,
    })?;
    Ok(())
}
