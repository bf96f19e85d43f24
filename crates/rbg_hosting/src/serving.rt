//! A hall over connections: its players are waited for, its matches are played at once, and their records are given.
ghost use Rattle.std.specs.Prelude.{◌≡◌, ◌≤◌, ℕ, Bool, [], List, length, IfOk, OnOk};
ghost use Rattle.rbg_hall.specs.Halls.{AbstractTable, begun_at};
ghost use Rattle.rbg_script.specs.Events.{AbstractEvent};
ghost use Rattle.rbg_hall.specs.TableLimits.{lines_in_all};
ghost use Rattle.rbg_hall.specs.Wholes.{HasRun};
ghost use Rattle.rbg_hosting.specs.Records.{AreHallsRecords, ArePrintedMatches, HasEnded};
ghost use Rattle.rbg_hosting.specs.Served.{HasOutcome, status_for};
ghost use Rattle.rbg_hosting.specs.Tables.{texts_of};
ghost use Rattle.rbg_hosting.specs.internal.Prepared.{IsPrepared};
ghost use Rattle.rbg_hosting.specs.internal.Recorded.{AnswersRecords, AnswersServed, HasHeard, HasSince, PrintsRecords, RunEnds};
ghost use Rattle.rbg_hosting.specs.internal.Resuming.{pasts_in};
ghost use Rattle.rbg_hosting.specs.internal.Writing.{AppendsMatch, AppendsRecord};
ghost use Rattle.rbg_match.specs.Matches.{HasHistory};
ghost use Rattle.rbg_match.specs.declared.config.Config.{Config};

use crate::fault::ServingFault;
use crate::going_on::{Going, go_on};
use crate::in_play::since_of;
use crate::preparing::{Prepared, prepare};
use crate::recorded_hall::RecordedHall;
use crate::recorder::Recorder;
use crate::seats::{seat_all, tell_stalled};
use crate::task::{Keeping, Serving};
use rbg_console::Status;
use rbg_hall::{Hall, HallOut};
use rbg_match::Match;
use rbg_network::{Archive, MatchNews, Network, News, StreamLine};
use rbg_record::write_record;
use rbg_referee::Answer;
use rbg_serving::{Clock, Log, serve_engine};
use rbg_wire::Outcome;
use std::alloc::{AllocError, Global};
use std::io::{Read, Write};

/// Plays a match of each description's game between the players that connect to a port and join it, and hands each record to
/// the archive as soon as its match has ended. Returns the archive with the line `match <k>` and the record of each match, and
/// a status that says whether each record that is wanted is kept. The logs are made before players are waited for.
pub fn serve_hall<N: Network, A: Archive>(
    alloc: Global,
    descriptions: &[Vec<u8>],
    network: &mut N,
    serving: &Serving<'_>,
    archive: A,
) -> (Result<Answer, ServingFault>, A)
    ensures printed { IfOk result.0 (λ answer.
        AreHallsRecords serving.now.config (texts_of descriptions.now) answer.text.items) }
    ensures archived { A.handed archive [] → HasOutcome A.handed N.Clock.told serving.now.config
        (texts_of descriptions.now) [] (A.wants archive) result.1 result.0 }
{
    let mut archive = archive;
    match prepare(alloc, descriptions, network, serving, &mut archive) {
        Ok(prepared) => play(alloc, network, prepared, archive, serving),
        Err(fault) => (Err(fault), archive),
    }
}

/// Plays the matches of a hall, and returns what is answered, with the archive.
pub(crate) fn play<N: Network, A: Archive>(
    alloc: Global,
    network: &mut N,
    prepared: Prepared<N::Log>,
    archive: A,
    serving: &Serving<'_>,
) -> (Result<Answer, ServingFault>, A)
    requires { length prepared.pasts.items ≤ length prepared.players.items }
    ensures printed { prepared.pasts.items ≡ [] → (config : Config) (descriptions : List (List ℕ)) (wants : Bool) →
        IsPrepared config descriptions wants prepared.hall prepared.out prepared.players.items prepared.noted.items →
        IfOk result.0 (λ answer. AreHallsRecords config descriptions answer.text.items) }
    ensures archived { (config : Config) (descriptions : List (List ℕ)) (wants : Bool) →
        IsPrepared config descriptions wants prepared.hall prepared.out prepared.players.items prepared.noted.items →
        A.handed archive [] →
        HasOutcome A.handed N.Clock.told config descriptions (pasts_in prepared.pasts.items) wants result.1 result.0 }
{
    let Prepared {
        hall,
        mut out,
        pasts,
        players,
        noted,
    } = prepared;
    let matches = players.len();
    let recorder = Recorder::new(archive, noted);
    let mut recorded = RecordedHall::new(hall, recorder, end_of(&serving.keeping));
    let going = Going {
        pasts: pasts.as_slice(),
        players: players.as_slice(),
        serving: &*serving,
    };
    let served = go_on(alloc, network, &mut recorded, &mut out, going);
    tell_ends(network, recorded.hall(), matches, &served, serving);
    let answer = answer_of(alloc, &recorded, matches, served);
    (answer, recorded.into_archive())
}

/// Waits for the players of a hall, and plays its matches.
pub(crate) fn play_seated<N: Network, A: Archive>(
    alloc: Global,
    network: &mut N,
    recorded: &mut RecordedHall<N::Log, A>,
    out: &mut HallOut,
    going: Going<'_>,
) -> Result<(), ServingFault>
    ensures ended { OnOk result ((starts : List AbstractTable) (past : List AbstractEvent) →
        HasRun starts past recorded.old.hall.state out.old →
        HasEnded starts recorded.new.hall.state) }
    ensures archived { (starts : List AbstractTable) (matches : ℕ) (past : List AbstractEvent) →
        length starts ≡ length going.entry.players.now →
        HasHeard A.handed starts matches recorded.old.recorder past recorded.old.hall.state out.old →
        RunEnds A.handed N.Clock.told starts matches past recorded.new result }
{
    let since = since_of(recorded.hall(), going.players.len());
    recorded.go_on_from(since);
    match seat_all(alloc, network, recorded.hall(), going) {
        Ok((mut lines, mut clock)) => {
            let rounds = rounds_of(going.serving);
            let served = run_hall(recorded, lines.as_mut_slice(), out, &mut clock, rounds);
            let hosting = going.serving.hosting;
            tell_stalled(network, hosting, lines.as_slice(), going.players);
            served
        }
        Err(fault) => Err(recorded.fault_after(fault)),
    }
}

/// The moment of the clock at which the time for the matches is over, if it is bounded.
fn end_of(keeping: &Keeping<'_>) -> Option<u64> {
    match keeping.minutes {
        Some(minutes) => Some(minutes.saturating_mul(60_000)),
        None => None,
    }
}

/// The most rounds. With a bound on the time they aren't counted.
fn rounds_of(serving: &Serving<'_>) -> u64 {
    match serving.keeping.minutes {
        Some(_) => u64::MAX,
        None => serving.rounds,
    }
}

/// Serves the matches over the lines until all have ended.
fn run_hall<S: Read + Write + Drop, C: Clock, W: Log, A: Archive>(
    recorded: &mut RecordedHall<W, A>,
    lines: &mut [StreamLine<S>],
    out: &mut HallOut,
    clock: &mut C,
    rounds: u64,
) -> Result<(), ServingFault>
    requires lines { length lines.old ≤ lines_in_all }
    requires clock { C.told clock.old [] }
    ensures ended { OnOk result ((starts : List AbstractTable) (past : List AbstractEvent) →
        HasRun starts past recorded.old.hall.state out.old →
        HasEnded starts recorded.new.hall.state) }
    ensures archived { (starts : List AbstractTable) (matches : ℕ) (past : List AbstractEvent) →
        HasSince recorded.old starts →
        HasHeard A.handed starts matches recorded.old.recorder past recorded.old.hall.state out.old →
        RunEnds A.handed C.told starts matches past recorded.new result }
{
    // The outbox has a queue for each of a hall's lines.
    let _lines = out.lines();
    match serve_engine(lines, recorded, out, clock, rounds) {
        Ok(_served) => Ok(()),
        Err(error) => Err(recorded.fault_of(error)),
    }
}

/// What is answered where a hall with so many matches was served with this result.
fn answer_of<W: Log, A: Archive>(
    alloc: Global,
    recorded: &RecordedHall<W, A>,
    matches: usize,
    served: Result<(), ServingFault>,
) -> Result<Answer, ServingFault>
    ensures { AnswersServed (AnswersRecords matches recorded.now) recorded.now.recorder.lost served result }
{
    match served {
        Ok(()) => print_records(alloc, recorded, matches),
        Err(fault) => Err(fault),
    }
}

/// The records of a hall with so many matches, all of which have ended.
fn print_records<W: Log, A: Archive>(
    alloc: Global,
    recorded: &RecordedHall<W, A>,
    matches: usize,
) -> Result<Answer, ServingFault>
    ensures { PrintsRecords (AnswersRecords matches recorded.now) recorded.now.recorder.lost result }
{
    match records_of(alloc, recorded.hall(), matches) {
        Ok(text) => Ok(Answer {
            text,
            status: status_of(recorded.has_lost()),
        }),
        Err(_) => Err(recorded.fault_of_memory()),
    }
}

/// The status of a hall whose matches have ended, by whether a record is lost.
fn status_of(lost: bool) -> Status
    ensures { result ≡ status_for lost }
{
    if lost {
        Status::Device
    } else {
        Status::Success
    }
}

/// Tells how each of so many matches ended, or that it did not end within its bound where this is the result.
fn tell_ends<N: Network, W: Log>(
    network: &mut N,
    hall: &Hall<W>,
    matches: usize,
    served: &Result<(), ServingFault>,
    serving: &Serving<'_>,
) {
    for index in 0..matches {
        let number = index as u64 + 1;
        if let Some(news) = end_news(hall, number, served, serving) {
            serving
                .hosting
                .tell(network, &News::OfMatch { number, news });
        }
    }
}

/// The news of how the match of a number ended, or that it did not within its bound.
fn end_news<W: Log>(
    hall: &Hall<W>,
    number: u64,
    served: &Result<(), ServingFault>,
    serving: &Serving<'_>,
) -> Option<MatchNews<'static>> {
    if let Some(outcome) = outcome_of(hall, number) {
        return Some(MatchNews::Ended { outcome });
    }
    if !matches!(served, Err(ServingFault::Rounds)) {
        return None;
    }
    match serving.keeping.minutes {
        Some(minutes) => Some(MatchNews::OutOfTime { minutes }),
        None => Some(MatchNews::Unfinished {
            rounds: serving.rounds,
        }),
    }
}

/// The outcome of the match of a number, if it has ended.
fn outcome_of<W: Log>(hall: &Hall<W>, number: u64) -> Option<Outcome> {
    hall.begun(number)?.outcome()
}

/// `match <k>` and the record of each match that has begun.
fn records_of<W: Log>(alloc: Global, hall: &Hall<W>, tables: usize) -> Result<Vec<u8>, AllocError>
    ensures { IfOk result (λ records. (starts : List AbstractTable) →
        length starts ≡ tables →
        HasEnded starts hall.now.state →
        ArePrintedMatches starts hall.now.state.tables records.items) }
{
    let mut records = Vec::new(alloc);
    for index in 0..tables {
        push_match(alloc, hall, index as u64 + 1, &mut records)?;
    }
    Ok(records)
}

/// Appends `match <k>` and the record of the match of a table, if it has begun.
fn push_match<W: Log>(
    alloc: Global,
    hall: &Hall<W>,
    table: u64,
    records: &mut Vec<u8>,
) -> Result<(), AllocError>
    ensures { OnOk result (AppendsMatch table (begun_at hall.now.state.tables table)
        records.old.items records.new.items) }
{
    match hall.begun(table) {
        Some(played) => push_record(alloc, table, played, records),
        None => Ok(()),
    }
}

/// Appends `match <k>` and the record of a match.
fn push_record(
    alloc: Global,
    table: u64,
    played: &Match,
    records: &mut Vec<u8>,
) -> Result<(), AllocError>
    ensures { HasHistory played.now →
        OnOk result (AppendsRecord table played.now records.old.items records.new.items) }
{
    let line = format!(in alloc; "match {table}\n")?;
    records.extend_from_slice(line.as_bytes())?;
    let record = write_record(alloc, played)?;
    records.extend_from_slice(record.as_slice())
}
