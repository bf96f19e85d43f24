//! Laws of a hall. The contract of each function is a law; its body does nothing.
ghost use Rattle.std.specs.Prelude.{◌≡◌};
ghost use Rattle.rbg_hall.specs.Limits.{most_tables};
ghost use Rattle.rbg_hall.specs.Laws.{BegunMatchesHoldTranscripts, LinesHaveTheSameBytes, LogsSendWhatIsTold, OthersAreUnheard, RunIsAllowed, ServedHallIsAllowed, ServedHallRunsOn, TablesAreApart};

use crate::TABLES;
use rbg_serving::Log;

/// The limits are the numbers that the definitions state.
pub fn limits_are_as_stated()
    ensures tables { TABLES ≡ most_tables }
{}

/// Whatever a hall hears, each line has what it may have.
pub fn run_is_allowed()
    ensures { RunIsAllowed }
{}

/// Events of lines that ask for another table, or for none, change nothing of what a table hears.
pub fn others_are_unheard()
    ensures { OthersAreUnheard }
{}

/// What the lines of a table may have depends on that table, on the clock and on what they send, and on nothing else.
pub fn tables_are_apart()
    ensures { TablesAreApart }
{}

/// Where a table, the clock and the lines that ask for it do the same in two halls, these lines have the same bytes in
/// both, but for the keeper's moves and questions above the limits.
pub fn lines_have_the_same_bytes()
    ensures { LinesHaveTheSameBytes }
{}

/// A match that has begun at a table is one of the rules, whatever the hall heard, and its lines are told what it says.
pub fn begun_matches_hold_transcripts()
    ensures { BegunMatchesHoldTranscripts }
{}

/// Whatever a hall hears, the match of a log's script sends what is queued for the lines on the seats of its table.
pub fn logs_send_what_is_told<W: Log>()
    ensures { LogsSendWhatIsTold W.told }
{}

/// A hall that is served runs on, unless memory runs out: what is a law of its run holds after the call too.
pub fn served_hall_runs_on<W: Log>()
    ensures { ServedHallRunsOn W.told }
{}

/// What is queued for the lines of a new hall that was served may be queued for them after what was heard.
pub fn served_hall_is_allowed<W: Log>()
    ensures { ServedHallIsAllowed W.told }
{}
