//! Laws of a table. The contract of each function is a law; its body does nothing.
ghost use Rattle.std.specs.Prelude.{◌≡◌};
ghost use Rattle.rbg_match.specs.Limits.{message_limit};
ghost use Rattle.rbg_hall.specs.TableLaws.{LinesHaveOneSeat, OneTable, RunHoldsTranscript};
ghost use Rattle.rbg_hall.specs.TableLimits.{lines_in_all};

use crate::LINES;
use rbg_match::MESSAGE_LIMIT;

/// The limits are the numbers that the definitions state.
pub fn limits_are_as_stated()
    ensures lines { LINES ≡ lines_in_all }
    ensures message { MESSAGE_LIMIT ≡ message_limit }
{}

/// No line has two seats at a table, whatever the table heard.
pub fn lines_have_one_seat()
    ensures { LinesHaveOneSeat }
{}

/// Whatever a table heard, the match that has begun at it is one of the rules, and its lines are told what it says.
pub fn begun_match_holds_transcript()
    ensures { RunHoldsTranscript }
{}

/// What a table hears decides what its lines are told, but for the keeper's moves and questions above the limits.
pub fn one_table_tells_one()
    ensures { OneTable }
{}
