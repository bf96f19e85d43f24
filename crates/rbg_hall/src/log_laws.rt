//! Laws of a table with the log of its match. The contract of each function is a law; its body does nothing.
ghost use Rattle.rbg_hall.specs.LogLaws.{LogSendsWhatIsTold};

use rbg_serving::Log;

/// Whatever a table hears, what the match of its log's script sends to a seat is what the line on it is told since the
/// match began.
pub fn log_sends_what_is_told<W: Log>()
    ensures { LogSendsWhatIsTold W.told }
{}
