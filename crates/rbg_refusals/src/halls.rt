//! Runs of a hall.
ghost use Rattle.std.specs.Prelude.{IfOk};
ghost use Rattle.rbg_hall.specs.Openings.{AreLoaded};
ghost use Rattle.rbg_game.specs.Loading.{Loads};

use crate::copies::{add_copy, is_copy};
use crate::games::{BLACK, CONFIG, GAME, WHITE};
use crate::lines::{Plan, ROOM as LINE_ROOM, tell_served, two_lines};
use crate::printing::Facts;
use crate::stop::Stop;
use crate::two_tables;
use rbg_game::load;
use rbg_hall::{Hall, HallError, HallOut, Table};
use rbg_script::Event;
use rbg_serving::{BoundedLog, ListClock};
use std::alloc::Global;
use std::io::Write;

/// The events of the hall. A line asks for a table that doesn't exist, two lines take the seats, so that the match
/// begins, and white moves.
const EVENTS: [Event<&'static [u8]>; 4] = [
    Event::Piece {
        source: 2,
        at: 0,
        bytes: b"H2\0",
    },
    Event::Piece {
        source: 0,
        at: 0,
        bytes: b"H1\0",
    },
    Event::Piece {
        source: 1,
        at: 5,
        bytes: b"H1\0",
    },
    Event::Piece {
        source: 0,
        at: 10,
        bytes: b"M0 3 0 4 0 5\0",
    },
];

/// Lines to two players, which ask for seats at the first poll and move at the second one.
const PLAYERS: [Plan; 2] = [
    Plan {
        gives: &[b"H1\0", WHITE],
        takes: &[],
        room: LINE_ROOM,
    },
    Plan {
        gives: &[b"H1\0", BLACK],
        takes: &[],
        room: LINE_ROOM,
    },
];

/// The maximum number of rounds in which a hall is served.
const ROUNDS: u64 = 100;

/// How many lines send something.
const LINES: u64 = 3;

/// How many bytes a log can hold.
const ROOM: usize = 1000;

/// Makes the run of a name, if it is one of these; else the next module does.
pub fn run<W: Write>(alloc: Global, name: &str, facts: &mut Facts<W>) -> Result<(), Stop> {
    match name {
        "hall" => make(alloc, &[], facts),
        "hall-begin" => make(alloc, &EVENTS[..3], facts),
        "hall-step" => make(alloc, &EVENTS, facts),
        "hall-run" => make_and_run(alloc, facts),
        _ => two_tables::run(alloc, name, facts),
    }
}

/// A table for a match of the small game.
pub fn table(alloc: Global) -> Result<Table, Stop>
    ensures { IfOk result (λ table. Loads table.text.items table.game) }
{
    let game = load(alloc, GAME)?;
    let text = Vec::from_slice(alloc, GAME)?;
    Ok(Table {
        game,
        text,
        config: CONFIG,
    })
}

/// The one table of a hall.
fn tables(alloc: Global) -> Result<Vec<Table>, Stop>
    ensures { IfOk result (λ tables. AreLoaded tables.items) }
{
    let mut tables = Vec::with_capacity(alloc, 1)?;
    tables.push(table(alloc)?)?;
    Ok(tables)
}

/// Makes a hall of one table. If there are events, the run is about the last of them.
fn make<W: Write>(
    alloc: Global,
    events: &[Event<&[u8]>],
    facts: &mut Facts<W>,
) -> Result<(), Stop> {
    let tables = tables(alloc)?;
    match Hall::new(alloc, tables) {
        Ok((mut hall, mut out)) => hear(alloc, &mut hall, &mut out, events, facts),
        Err(error) => tell_error(error, events.is_empty(), facts),
    }
}

/// Prints why there is no hall, if the run is about that.
fn tell_error<W: Write>(
    error: HallError,
    is_asked: bool,
    facts: &mut Facts<W>,
) -> Result<(), Stop> {
    if !is_asked {
        return Err(Stop::from(error));
    }
    facts.refusal(matches!(error, HallError::Memory), &error);
    Ok(())
}

/// Prints how many bytes are queued for each line that sends something, and which ones.
fn tell_queues<W: Write>(out: &HallOut, facts: &mut Facts<W>) {
    for line in 0..LINES {
        let bytes = out.bytes(line);
        facts.queue("line", line, bytes);
    }
}

/// Copies the bytes that are queued for each line.
fn copy_queues(alloc: Global, out: &HallOut, copies: &mut Vec<Vec<u8>>) -> Result<(), Stop> {
    for line in 0..out.lines() {
        add_copy(alloc, out.bytes(line as u64), copies)?;
    }
    Ok(())
}

/// Whether these bytes are queued for the lines.
fn are_queued(copies: &[Vec<u8>], out: &HallOut) -> bool {
    let mut are_same = out.lines() == copies.len();
    for line in 0..out.lines() {
        are_same = are_same && is_copy(copies, line, out.bytes(line as u64));
    }
    are_same
}

/// Handles events in a hall whose match has a log. Without events the queues are printed as they are.
fn hear<W: Write>(
    alloc: Global,
    hall: &mut Hall<BoundedLog>,
    out: &mut HallOut,
    events: &[Event<&[u8]>],
    facts: &mut Facts<W>,
) -> Result<(), Stop> {
    let Some((last, before)) = events.split_last() else {
        tell_queues(out, facts);
        return Ok(());
    };
    hall.keep(1, BoundedLog::new(alloc, ROOM));
    step_all(hall, out, before)?;
    step_last(alloc, hall, out, *last, facts)
}

/// Handles the events before the one that the run is about.
fn step_all(
    hall: &mut Hall<BoundedLog>,
    out: &mut HallOut,
    events: &[Event<&[u8]>],
) -> Result<(), Stop> {
    for event in events {
        hall.step(*event, out)?;
    }
    Ok(())
}

fn step_last<W: Write>(
    alloc: Global,
    hall: &mut Hall<BoundedLog>,
    out: &mut HallOut,
    event: Event<&[u8]>,
    facts: &mut Facts<W>,
) -> Result<(), Stop> {
    let mut queued = Vec::new(alloc);
    copy_queues(alloc, out, &mut queued)?;
    tell_step(hall, out, queued.as_slice(), event, facts);
    Ok(())
}

/// Handles the event. If memory is refused, it is handled once more.
fn tell_step<W: Write>(
    hall: &mut Hall<BoundedLog>,
    out: &mut HallOut,
    queued: &[Vec<u8>],
    event: Event<&[u8]>,
    facts: &mut Facts<W>,
) {
    if hall.step(event, out).is_ok() {
        tell_queues(out, facts);
        tell_log(hall.log_of(1), facts);
    } else {
        facts.memory();
        facts.kept("queues are", are_queued(queued, out));
        let again = hall.step(event, out).is_err();
        facts.again(again && are_queued(queued, out));
    }
}

/// Prints what a log holds.
fn tell_log<W: Write>(log: Option<&BoundedLog>, facts: &mut Facts<W>) {
    match log {
        Some(log) => facts.bytes(log.bytes()),
        None => facts.line("no log"),
    }
}

/// Makes a hall of one table, and serves it over two lines.
fn make_and_run<W: Write>(alloc: Global, facts: &mut Facts<W>) -> Result<(), Stop> {
    let tables = tables(alloc)?;
    let (mut hall, mut out) = Hall::new(alloc, tables)?;
    run_hall(alloc, &mut hall, &mut out, facts)
}

fn run_hall<W: Write>(
    alloc: Global,
    hall: &mut Hall<BoundedLog>,
    out: &mut HallOut,
    facts: &mut Facts<W>,
) -> Result<(), Stop> {
    let mut lines = two_lines(alloc, &PLAYERS)?;
    let mut clock = ListClock::new(Vec::new(alloc));
    let served = hall.run(&mut lines, out, &mut clock, ROUNDS);
    tell_served(served, &lines, [out.bytes(0), out.bytes(1)], facts);
    Ok(())
}
