//! What is written when a table hears an event, and when its match begins.
ghost use Rattle.std.specs.Prelude.{◌≡◌, IfErr, IsErrOf, OnErr, OnOk};
ghost use Rattle.rbg_hall.specs.TableHearing.{HearsFor, SaysWhole, input_of, line_in};
ghost use Rattle.rbg_serving.specs.Logs.{Appends, AppendsFront};
ghost use Rattle.rbg_match.specs.Arrivals.{arrival_of};
ghost use Rattle.rbg_hall.specs.Kept.{Changes, FailsSo, IsWritten};
ghost use Rattle.rbg_hall.specs.LogLedgers.{HasLog, IsNotedIn, WritesFor, first_for, heard_at};
ghost use Rattle.rbg_hall.specs.internal.LogParts.{IsKept, IsNotedPart, LeavesIn, WritesPart};
ghost use Rattle.rbg_hall.specs.internal.TableHearing.{IsSeatOf};

use crate::hall_table::HallTable;
use crate::input::TableInput;
use crate::queues::Queues;
use rbg_match::{Arrival, Config};
use rbg_script::Event;
use rbg_serving::{Log, WriteError, write_arrival, write_first};

/// The moment at which a table hears something.
fn moment_of(input: TableInput<'_>) -> u64
    ensures { result ≡ heard_at (input_of input.entry) }
{
    match input {
        TableInput::Clock { at } => at,
        TableInput::Joins { at, .. } => at,
        TableInput::Arrives { at, .. } => at,
        TableInput::Says { at, .. } => at,
        TableInput::Leaves { at, .. } => at,
    }
}

/// Writes what is written of an arrival at the match of a table, if that has begun.
fn write_for<W: Log>(
    table: &HallTable,
    arrival: Arrival<'_>,
    log: &mut W,
    line: &mut Vec<u8>,
) -> Result<(), WriteError>
    ensures ok { OnOk result (WritesFor W.told log.old log.new table.now.begun (arrival_of arrival.entry)) }
    ensures part { OnErr result (WritesPart W.told log.old log.new table.now.begun (arrival_of arrival.entry)) }
    ensures kept { IsErrOf result WriteError.Memory → log.new ≡ log.old }
{
    match table.begun() {
        Some(playing) => write_arrival(playing, arrival, log, line),
        None => Ok(()),
    }
}

/// Writes what the match of a table is handed when the table hears this from a line with this seat.
fn note<W: Log>(
    table: &HallTable,
    input: TableInput<'_>,
    seat: Option<usize>,
    log: &mut W,
    line: &mut Vec<u8>,
) -> Result<(), WriteError>
    requires { IsSeatOf table.now (line_in (input_of input)) seat }
    ensures ok { OnOk result (IsNotedIn W.told log.old log.new table.now (input_of input.entry)) }
    ensures part { OnErr result (IsNotedPart W.told log.old log.new table.now (input_of input.entry)) }
    ensures kept { IsErrOf result WriteError.Memory → log.new ≡ log.old }
{
    match input {
        TableInput::Clock { at } => write_for(table, Arrival::Plain(Event::Tick { at }), log, line),
        TableInput::Joins { .. } => Ok(()),
        TableInput::Arrives { at, .. } => match seat {
            Some(_) => write_for(table, Arrival::Plain(Event::Tick { at }), log, line),
            None => Ok(()),
        },
        TableInput::Says { at, took, .. } => match seat {
            Some(index) => {
                let item = Arrival::Item {
                    seat: index as u64 + 1,
                    at,
                    took,
                };
                write_for(table, item, log, line)
            }
            None => Ok(()),
        },
        TableInput::Leaves { at, .. } => match seat {
            Some(index) => {
                let end = Event::Ended {
                    source: index as u64 + 1,
                    at,
                };
                write_for(table, Arrival::Plain(end), log, line)
            }
            None => Ok(()),
        },
    }
}

/// What is known of a table before it hears something: whether its match has not begun, the config of the match, and when
/// the table hears it.
#[derive(Clone, Copy)]
struct Before {
    waited: bool,
    config: Config,
    at: u64,
}

/// Writes the first line where the match of a table has begun that waited before.
fn begin<W: Log>(
    table: &HallTable,
    before: Before,
    log: &mut W,
    line: &mut Vec<u8>,
) -> Result<(), WriteError>
    ensures ok { OnOk result (Appends W.told log.old log.new
        (first_for before.waited table.now.begun before.config before.at)) }
    ensures part { OnErr result (AppendsFront W.told log.old log.new
        (first_for before.waited table.now.begun before.config before.at)) }
    ensures kept { IsErrOf result WriteError.Memory → log.new ≡ log.old }
{
    if !before.waited {
        return Ok(());
    }
    match table.begun() {
        Some(_) => write_first(before.config, before.at, log, line),
        None => Ok(()),
    }
}

/// A table hears something, whose match has this log: each event that counts is written before the match handles it.
#[tactic(auto, using(crate::proofs::Keeping::keeps_on))]
fn hear_noted<W: Log>(
    table: &mut HallTable,
    input: TableInput<'_>,
    log: &mut W,
    line: &mut Vec<u8>,
    out: &mut Queues,
) -> Result<(), WriteError>
    requires { SaysWhole (input_of input) }
    ensures hears { OnOk result (HearsFor table.old (input_of input.entry) table.new out.old.queued out.new.queued) }
    ensures keeps { OnOk result (HasLog W.told table.old log.old → HasLog W.told table.new log.new) }
    ensures writes { OnOk result (IsWritten W.told log.old log.new table.old (input_of input.entry) table.new) }
    ensures fails { IfErr result (LeavesIn W.told log.old log.new table.old (input_of input.entry)) }
    ensures committed { out.new.committed ≡ out.old.committed }
{
    let seat = table.seat_for(input);
    let before = Before {
        waited: table.is_waiting(),
        config: table.config(),
        at: moment_of(input),
    };
    note(table, input, seat, log, line)?;
    table.hear(input, seat, out)?;
    begin(table, before, log, line)
}

/// A table hears something. If there is a log of its match, each event that counts is written before the match handles it.
pub(crate) fn hear_kept<W: Log>(
    table: &mut HallTable,
    input: TableInput<'_>,
    log: &mut Option<W>,
    line: &mut Vec<u8>,
    out: &mut Queues,
) -> Result<(), WriteError>
    requires { SaysWhole (input_of input) }
    ensures hears { OnOk result (HearsFor table.old (input_of input.entry) table.new out.old.queued out.new.queued) }
    ensures keeps { OnOk result (IsKept W.told table.old log.old → IsKept W.told table.new log.new) }
    ensures writes { OnOk result (Changes (λ first last.
        IsWritten W.told first last table.old (input_of input.entry) table.new) log.old log.new) }
    ensures fails { IfErr result (λ error. FailsSo W.told table.old (input_of input.entry) error log.old log.new) }
    ensures committed { out.new.committed ≡ out.old.committed }
{
    match log {
        Some(log) => hear_noted(table, input, log, line, out),
        None => {
            let seat = table.seat_for(input);
            Ok(table.hear(input, seat, out)?)
        }
    }
}
