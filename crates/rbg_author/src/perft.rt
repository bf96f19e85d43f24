//! What `perft` prints of a game: how many sequences of moves it has.

use crate::report::Report;
use rbg_console::{Status, write_text};
use rbg_game::Game;
use rbg_moves::Unsettled;
use rbg_questions::{CountError, Counts, Extent, PlayedGame, Workspace, count_from_start};
use std::alloc::{AllocError, Global};
use std::io::Write;

/// What is counted: the sequences of up to so many moves, and whether the ends of play too.
#[derive(Clone, Copy)]
pub(crate) struct Counted {
    pub depth: u8,
    pub extent: Extent,
}

/// A line `DEPTH SEQUENCES ENDED` for each depth from 1 on: how many sequences of that many moves of the players there
/// are from the beginning of play, and after how many of them play is finished. Where the ends aren't asked for, it is
/// `DEPTH SEQUENCES`. Each line is written as soon as it is known.
/// What is returned is still to be written, the last line: where a number isn't found, the word that says why, and else
/// `searched OPENINGS PAIRS`: how many openings the searches took up, and how many pairs of a position and a vertex they
/// took.
pub(crate) fn perft<W: Write>(
    alloc: Global,
    game: Game,
    counted: Counted,
    output: &mut W,
) -> Result<Report, AllocError> {
    let game = PlayedGame::new(alloc, game)?;
    let mut workspace = Workspace::new(alloc);
    count_all(alloc, &game, counted, &mut workspace, output)
}

/// Counts the sequences of each number of moves up to a depth.
fn count_all<W: Write>(
    alloc: Global,
    game: &PlayedGame,
    counted: Counted,
    workspace: &mut Workspace,
    output: &mut W,
) -> Result<Report, AllocError> {
    let Counted { depth, extent } = counted;
    for moves in 1..=depth {
        match count_from_start(game, moves, extent, workspace) {
            Ok(counts) => {
                if !write_counts(alloc, output, moves, extent, counts)? {
                    return Ok(last_line(Vec::new(alloc), Status::Device));
                }
            }
            Err(error) => {
                let reason = reason_of(error)?;
                return Ok(last_line(reason.to_vec(alloc)?, Status::Refused));
            }
        }
    }
    let openings = workspace.openings();
    let pairs = workspace.pairs();
    let line = format!(in alloc; "searched {openings} {pairs}\n")?;
    Ok(last_line(line.into_bytes(), Status::Success))
}

fn last_line(text: Vec<u8>, status: Status) -> Report {
    Report { text, status }
}

/// Writes the line of one depth, and says whether the output took it.
fn write_counts<W: Write>(
    alloc: Global,
    output: &mut W,
    moves: u8,
    extent: Extent,
    counts: Counts,
) -> Result<bool, AllocError> {
    let sequences = counts.sequences;
    let ended = counts.ended;
    let line = match extent {
        Extent::Ends => format!(in alloc; "{moves} {sequences} {ended}\n")?,
        Extent::Moves => format!(in alloc; "{moves} {sequences}\n")?,
    };
    let status = write_text(output, line.as_bytes(), Status::Success);
    Ok(status == Status::Success)
}

/// The line that says why there is no number.
fn reason_of(error: CountError) -> Result<&'static [u8], AllocError> {
    match error {
        CountError::Unsettled(Unsettled::Heavy) => Ok(b"over\n"),
        CountError::Unsettled(Unsettled::Endless) => Ok(b"keeper\n"),
        CountError::Unsettled(Unsettled::Memory) => Err(AllocError),
        CountError::TooMany => Ok(b"large\n"),
    }
}
