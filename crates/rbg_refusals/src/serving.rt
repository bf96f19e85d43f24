//! Runs of matches that are served over lines in memory.
ghost use Rattle.std.specs.Prelude.{◌≡◌, length};
ghost use Rattle.rbg_match.specs.PlayingOn.{seats_of};

use crate::games::{CONFIG, FINISHED, GAME, WHITE};
use crate::halls;
use crate::lines::{Plan, ROOM, tell_served, two_lines};
use crate::opening::new_match;
use crate::printing::Facts;
use crate::stop::Stop;
use rbg_match::{Match, Outbox};
use rbg_serving::{ListClock, MemoryLine, Take, serve};
use std::alloc::Global;
use std::io::Write;

/// A match that is served: the text of its game, the lines of its two seats, and the maximum number of rounds.
#[derive(Clone, Copy)]
struct Service {
    text: &'static [u8],
    lines: [Plan; 2],
    rounds: u64,
}

/// The lines of two seats, and the maximum number of rounds in which they are served.
#[derive(Drop)]
struct ServedLines {
    lines: [MemoryLine; 2],
    rounds: u64,
}

/// Nothing comes over the line, and it takes everything.
const SILENT: Plan = Plan {
    gives: &[],
    takes: &[],
    room: ROOM,
};

/// Nothing comes over the line, and it takes nothing.
const STUCK: Plan = Plan { room: 0, ..SILENT };

/// The line of seat 2 fails at its second put, after white's move.
const FAILING: Service = Service {
    text: GAME,
    lines: [
        Plan {
            gives: &[WHITE],
            ..SILENT
        },
        Plan {
            takes: &[Take::UpTo(ROOM), Take::Fail],
            ..SILENT
        },
    ],
    rounds: 100,
};

/// Each line gives its seat's move byte by byte, and takes one byte at each put. Nothing comes at the first four polls of
/// the line of seat 2.
const SLOW: Service = Service {
    text: GAME,
    lines: [
        Plan {
            gives: &[
                b"M", b"0", b" ", b"3", b" ", b"0", b" ", b"4", b" ", b"0", b" ", b"5", b"\0",
            ],
            takes: &[Take::UpTo(1); 217],
            room: ROOM,
        },
        Plan {
            gives: &[
                b"", b"", b"", b"", b"M", b"1", b" ", b"8", b" ", b"1", b" ", b"9", b"\0",
            ],
            takes: &[Take::UpTo(1); 217],
            room: ROOM,
        },
    ],
    rounds: 100,
};

/// Play is finished at the start, and the line of seat 1 takes nothing.
const NEVER_WHOLE: Service = Service {
    text: FINISHED,
    lines: [STUCK, SILENT],
    rounds: 3,
};

/// The line of seat 2 fails at its first put, so that the match ends, and that of seat 1 takes nothing.
const FAILING_AND_STUCK: Service = Service {
    text: GAME,
    lines: [
        STUCK,
        Plan {
            takes: &[Take::Fail],
            ..SILENT
        },
    ],
    rounds: 3,
};

/// Makes the run of a name, if it is one of these; else the next module does.
pub fn run<W: Write>(alloc: Global, name: &str, facts: &mut Facts<W>) -> Result<(), Stop> {
    match name {
        "serve" => serve_match(alloc, &FAILING, facts),
        "serve-byte-by-byte" => serve_match(alloc, &SLOW, facts),
        "serve-taking-nothing" => serve_match(alloc, &NEVER_WHOLE, facts),
        "serve-failing-and-taking-nothing" => serve_match(alloc, &FAILING_AND_STUCK, facts),
        _ => halls::run(alloc, name, facts),
    }
}

/// Serves a match over lines in memory.
fn serve_match<W: Write>(
    alloc: Global,
    service: &Service,
    facts: &mut Facts<W>,
) -> Result<(), Stop> {
    let (mut opened, mut outbox) = new_match(alloc, service.text, CONFIG, 0)?;
    serve_in(alloc, service, &mut opened, &mut outbox, facts)
}

fn serve_in<W: Write>(
    alloc: Global,
    service: &Service,
    opened: &mut Match,
    outbox: &mut Outbox,
    facts: &mut Facts<W>,
) -> Result<(), Stop>
    requires { length outbox.old ≡ seats_of opened.old.game }
{
    let mut over = ServedLines {
        lines: two_lines(alloc, &service.lines)?,
        rounds: service.rounds,
    };
    serve_over(alloc, &mut over, opened, outbox, facts)
}

fn serve_over<W: Write>(
    alloc: Global,
    over: &mut ServedLines,
    opened: &mut Match,
    outbox: &mut Outbox,
    facts: &mut Facts<W>,
) -> Result<(), Stop>
    requires { length outbox.old ≡ seats_of opened.old.game }
{
    if opened.players() != over.lines.len() {
        return Err(Stop::Wrong);
    }
    let mut clock = ListClock::new(Vec::new(alloc));
    let served = serve(&mut over.lines, opened, outbox, &mut clock, over.rounds);
    if outbox.seats() != 2 {
        return Err(Stop::Wrong);
    }
    tell_served(
        served,
        &over.lines,
        [outbox.bytes(1), outbox.bytes(2)],
        facts,
    );
    Ok(())
}
