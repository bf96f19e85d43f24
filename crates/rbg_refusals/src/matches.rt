//! Runs of matches, and of their records.
ghost use Rattle.std.specs.Prelude.{◌≡◌, length};
ghost use Rattle.rbg_match.specs.PlayingOn.{seats_of};

use crate::copies::{add_copy, is_copy};
use crate::games::{BLACK, CONFIG, GAME, WHITE};
use crate::opening::new_match;
use crate::printing::Facts;
use crate::serving;
use crate::stop::Stop;
use rbg_base::Memory;
use rbg_game::load;
use rbg_match::{Config, Match, MatchError, Outbox};
use rbg_record::{write_record, write_record_1};
use rbg_referee::{RefereeError, referee};
use rbg_script::Event;
use std::alloc::Global;
use std::io::Write;

/// What the seats send in the small game.
const EVENTS: [Event<&'static [u8]>; 2] = [
    Event::Piece {
        source: 1,
        at: 10,
        bytes: WHITE,
    },
    Event::Piece {
        source: 2,
        at: 20,
        bytes: BLACK,
    },
];

/// The longest turn that there may be.
const LONGEST: Config = Config {
    turn_ms: 3_600_000,
    refusals: 3,
};

/// White's move at the latest moment that a seat's bytes can have.
const LATEST: Event<&'static [u8]> = Event::Piece {
    source: 1,
    at: u64::MAX,
    bytes: WHITE,
};

/// What a run does with a match of the small game.
#[derive(Clone, Copy)]
enum Task {
    Step,
    WriteRecord,
    WritePlainRecord,
    TellDue,
}

/// Makes the run of a name, if it is one of these; else the next module does.
pub fn run<W: Write>(alloc: Global, name: &str, facts: &mut Facts<W>) -> Result<(), Stop> {
    match name {
        "open" => open(alloc, facts),
        "step" => do_task(alloc, CONFIG, 0, Task::Step, facts),
        "referee" => referee_all(alloc, facts),
        "write-record" => do_task(alloc, CONFIG, 0, Task::WriteRecord, facts),
        "write-record-1" => do_task(alloc, CONFIG, 0, Task::WritePlainRecord, facts),
        "due-latest" => do_task(alloc, LONGEST, u64::MAX, Task::TellDue, facts),
        _ => serving::run(alloc, name, facts),
    }
}

/// Prints how many bytes are queued for each seat.
fn tell_sizes<W: Write>(outbox: &Outbox, facts: &mut Facts<W>) {
    for seat in 1..=outbox.seats() {
        facts.size("seat", seat as u64, outbox.bytes(seat).len());
    }
}

/// Prints what is queued for each seat.
fn tell_outbox<W: Write>(outbox: &Outbox, facts: &mut Facts<W>) {
    tell_sizes(outbox, facts);
    for seat in 1..=outbox.seats() {
        facts.messages(outbox.bytes(seat));
    }
}

/// Makes a match of the small game.
fn open<W: Write>(alloc: Global, facts: &mut Facts<W>) -> Result<(), Stop> {
    let game = load(alloc, GAME)?;
    tell_opened(&Match::new(alloc, game, GAME, CONFIG, 0), facts);
    Ok(())
}

fn tell_opened<W: Write>(opened: &Result<(Match, Outbox), MatchError>, facts: &mut Facts<W>) {
    match opened {
        Ok((_, outbox)) => tell_outbox(outbox, facts),
        Err(error) => facts.refusal(matches!(error, MatchError::Memory), error),
    }
}

/// Makes a match of the small game that begins at a moment, and does something with it.
fn do_task<W: Write>(
    alloc: Global,
    config: Config,
    now: u64,
    task: Task,
    facts: &mut Facts<W>,
) -> Result<(), Stop> {
    let (mut opened, mut outbox) = new_match(alloc, GAME, config, now)?;
    do_in(alloc, task, &mut opened, &mut outbox, facts)
}

fn do_in<W: Write>(
    alloc: Global,
    task: Task,
    opened: &mut Match,
    outbox: &mut Outbox,
    facts: &mut Facts<W>,
) -> Result<(), Stop>
    requires { length outbox.old ≡ seats_of opened.old.game }
{
    match task {
        Task::Step => step(alloc, opened, outbox, facts),
        Task::WriteRecord => write_played(alloc, false, opened, outbox, facts),
        Task::WritePlainRecord => write_played(alloc, true, opened, outbox, facts),
        Task::TellDue => tell_due(opened, outbox, facts),
    }
}

/// Copies the bytes that are queued for each seat.
fn copy_queues(alloc: Global, outbox: &Outbox, copies: &mut Vec<Vec<u8>>) -> Result<(), Stop> {
    for seat in 1..=outbox.seats() {
        add_copy(alloc, outbox.bytes(seat), copies)?;
    }
    Ok(())
}

/// Whether these bytes are queued for the seats.
fn are_queued(copies: &[Vec<u8>], outbox: &Outbox) -> bool {
    let mut are_same = outbox.seats() == copies.len();
    for seat in 1..=outbox.seats() {
        are_same = are_same && is_copy(copies, seat - 1, outbox.bytes(seat));
    }
    are_same
}

/// Lets white move in a match of the small game.
fn step<W: Write>(
    alloc: Global,
    opened: &mut Match,
    outbox: &mut Outbox,
    facts: &mut Facts<W>,
) -> Result<(), Stop>
    requires { length outbox.old ≡ seats_of opened.old.game }
{
    let mut before = Vec::new(alloc);
    copy_queues(alloc, outbox, &mut before)?;
    tell_step(opened, outbox, before.as_slice(), facts);
    Ok(())
}

/// Handles white's move. If memory is refused, it is handled once more.
fn tell_step<W: Write>(
    opened: &mut Match,
    outbox: &mut Outbox,
    before: &[Vec<u8>],
    facts: &mut Facts<W>,
)
    requires { length outbox.old ≡ seats_of opened.old.game }
{
    if opened.step(EVENTS[0], outbox).is_ok() {
        tell_outbox(outbox, facts);
    } else {
        facts.memory();
        facts.kept("outbox is", are_queued(before, outbox));
        let again = opened.step(EVENTS[0], outbox).is_err();
        facts.again(again && are_queued(before, outbox));
    }
}

/// Plays a match of the small game to its end, and writes its record, in version 1 if it is to be plain.
fn write_played<W: Write>(
    alloc: Global,
    is_plain: bool,
    played: &mut Match,
    outbox: &mut Outbox,
    facts: &mut Facts<W>,
) -> Result<(), Stop>
    requires { length outbox.old ≡ seats_of played.old.game }
{
    play_both(played, outbox)?;
    let written = if is_plain {
        write_record_1(alloc, played)
    } else {
        write_record(alloc, played)
    };
    tell_written(&written, facts);
    Ok(())
}

/// Lets white move, and then black.
fn play_both(played: &mut Match, outbox: &mut Outbox) -> Result<(), Memory>
    requires { length outbox.old ≡ seats_of played.old.game }
{
    played.step(EVENTS[0], outbox)?;
    played.step(EVENTS[1], outbox)
}

/// Prints a record that was written.
fn tell_written<W: Write>(written: &Result<Vec<u8>, Memory>, facts: &mut Facts<W>) {
    match written {
        Ok(record) => facts.bytes(record.as_slice()),
        Err(_) => facts.memory(),
    }
}

/// Referees the small game.
fn referee_all<W: Write>(alloc: Global, facts: &mut Facts<W>) -> Result<(), Stop> {
    tell_refereed(&referee(alloc, GAME, CONFIG, 0, &EVENTS), facts);
    Ok(())
}

fn tell_refereed<W: Write>(refereed: &Result<Outbox, RefereeError>, facts: &mut Facts<W>) {
    match refereed {
        Ok(outbox) => tell_outbox(outbox, facts),
        Err(RefereeError::Memory { done, outgoing }) => {
            facts.memory();
            facts.count("done", *done as u64);
            tell_sizes(outgoing, facts);
        }
        Err(error) => facts.refusal(false, error),
    }
}

/// Handles white's move at the latest moment. Prints when the time of the turn was over before it, and when it is over
/// after it.
fn tell_due<W: Write>(
    opened: &mut Match,
    outbox: &mut Outbox,
    facts: &mut Facts<W>,
) -> Result<(), Stop>
    requires { length outbox.old ≡ seats_of opened.old.game }
{
    let before = opened.due();
    opened.step(LATEST, outbox)?;
    tell_moment(before, facts);
    tell_moment(opened.due(), facts);
    tell_outbox(outbox, facts);
    Ok(())
}

/// Prints when a mover's time is over.
fn tell_moment<W: Write>(due: Option<u64>, facts: &mut Facts<W>) {
    match due {
        Some(at) => facts.count("due", at),
        None => facts.line("ended"),
    }
}
