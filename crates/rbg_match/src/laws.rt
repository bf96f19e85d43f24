//! Laws of a whole match. The contract of each function is a law; its body does nothing.
ghost use Rattle.std.specs.Prelude.{◌≡◌};
ghost use Rattle.rbg_base.specs.Move.{most_pairs};
ghost use Rattle.rbg_moves.specs.Limits.{most_keeper_moves};
ghost use Rattle.rbg_match.specs.Limits.{most_seats, longest_turn, most_refusals, message_limit, latest_moment};
ghost use Rattle.rbg_match.specs.Laws.{Cutting, EndedPlayStays, EndedMatchStays, OneTranscript, OneUntilHeavy, SteppedIsTranscript, TickAtStart, TickAfter, TranscriptHasHistory};

use crate::opening::MESSAGE_LIMIT;
use crate::{LATEST_MOMENT, MAX_REFUSALS, MAX_SEATS, MAX_TURN_MS};
use rbg_moves::{MAX_KEEPER_MOVES, MAX_PAIRS};
use rbg_rules::limits::MAX_PLAYERS;

/// The limits are the numbers that the definitions state. There is a seat for each player that a game may have.
pub fn limits_are_as_stated()
    ensures seats { MAX_SEATS ≡ most_seats }
    ensures players { MAX_SEATS ≡ MAX_PLAYERS }
    ensures turn { MAX_TURN_MS ≡ longest_turn }
    ensures refusals { MAX_REFUSALS ≡ most_refusals }
    ensures keeper_moves { MAX_KEEPER_MOVES ≡ most_keeper_moves }
    ensures pairs { MAX_PAIRS ≡ most_pairs }
    ensures message { MESSAGE_LIMIT ≡ message_limit }
    ensures moment { LATEST_MOMENT ≡ latest_moment }
{}

/// How a seat's stream is cut into pieces does not matter.
pub fn cutting_changes_nothing()
    ensures { Cutting }
{}

/// A tick changes nothing and sends nothing after an event that isn't earlier.
pub fn tick_after_an_event_says_nothing()
    ensures { TickAfter }
{}

/// A tick at the moment at which the match begins changes nothing and sends nothing either.
pub fn tick_at_the_start_says_nothing()
    ensures { TickAtStart }
{}

/// A match that `Match::new` makes and `step` continues is a transcript of the events.
pub fn stepped_match_is_refereed()
    ensures { SteppedIsTranscript }
{}

/// Apart from the keeper's moves, a match is a function of its text, its config and its events, until it ends because a
/// question is above the limits.
pub fn one_transcript_until_a_heavy_end()
    ensures { OneUntilHeavy }
{}

/// Apart from the keeper's moves and from questions above the limits, a match is a function of its text, its config and
/// its events.
pub fn one_transcript()
    ensures { OneTranscript }
{}

/// Every transcript has a history.
pub fn transcripts_have_a_history()
    ensures { TranscriptHasHistory }
{}

/// Once play has ended, inputs change nothing, and nothing is sent.
pub fn ended_play_stays()
    ensures { EndedPlayStays }
{}

/// Once a match has ended, events change nothing.
pub fn ended_match_stays()
    ensures { EndedMatchStays }
{}
