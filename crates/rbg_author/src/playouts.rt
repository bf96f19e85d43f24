//! What `playouts` prints of a game: how matches that are played by chance end; and the records of some of them.
ghost use Rattle.rbg_questions.specs.Limits.{IsCount};

use crate::game_files::{Read, load_text, read_text};
use crate::report::Report;
use rbg_console::{Files, Note, Status, fill_file};
use rbg_game::Game;
use rbg_questions::{Matches, PlayedGame, QuestionError, moves_of, playouts, put_details};
use rbg_record::LineFault;
use rbg_workbench::record_text;
use std::alloc::{AllocError, Global};

/// From so many matches on it is told that they take their time.
const LONG: u64 = 1_000;

/// What is told then.
const WAIT: &str = "the lines are printed when all matches have ended";

/// The matches that are wanted.
#[derive(Clone, Copy)]
pub(crate) struct Wanted<'a> {
    pub seed: u64,
    pub count: u64,
    /// The folder for a record of each way of ending.
    pub records: Option<&'a str>,
}

/// A game, and the text that describes it.
#[derive(Clone, Copy)]
struct DescribedGame<'a> {
    text: &'a [u8],
    game: &'a PlayedGame,
}

/// What is printed of so many matches by chance of the game that the file describes.
pub(crate) fn playouts_file<F: Files>(
    alloc: Global,
    files: &mut F,
    file: &str,
    wanted: Wanted<'_>,
) -> Result<Report, AllocError>
    requires { IsCount wanted.count }
{
    match read_text(alloc, files, file)? {
        Read::Found(text) => playouts_text(alloc, files, file, &text, wanted),
        Read::Other(report) => Ok(report),
    }
}

fn playouts_text<F: Files>(
    alloc: Global,
    files: &mut F,
    file: &str,
    text: &[u8],
    wanted: Wanted<'_>,
) -> Result<Report, AllocError>
    requires { IsCount wanted.count }
{
    match load_text(alloc, file, text)? {
        Read::Found(loaded) => playouts_game(alloc, files, text, loaded.game, wanted),
        Read::Other(report) => Ok(report),
    }
}

fn playouts_game<F: Files>(
    alloc: Global,
    files: &mut F,
    text: &[u8],
    game: Game,
    wanted: Wanted<'_>,
) -> Result<Report, AllocError>
    requires { IsCount wanted.count }
{
    let game = PlayedGame::new(alloc, game)?;
    if wanted.count >= LONG {
        files.tell(&Note::Words { text: WAIT });
    }
    match playouts(alloc, &game, wanted.seed, wanted.count) {
        Ok(made) => {
            let described = DescribedGame { text, game: &game };
            matches_report(alloc, files, described, wanted, made)
        }
        Err(refusal) => no_playouts(alloc, refusal),
    }
}

/// The lines of matches, once their records are kept.
fn matches_report<F: Files>(
    alloc: Global,
    files: &mut F,
    described: DescribedGame<'_>,
    wanted: Wanted<'_>,
    made: Matches,
) -> Result<Report, AllocError> {
    let Matches {
        text,
        tallies,
        survey,
    } = made;
    let mut lines = text;
    put_details(
        described.game.as_game(),
        wanted.count,
        &tallies,
        &survey,
        &mut lines,
    )?;
    let mut status = Status::Success;
    if let Some(folder) = wanted.records {
        for seed in &survey.seeds {
            if !keep_record(alloc, files, described, folder, *seed)? {
                status = Status::Device;
            }
        }
        if matches!(status, Status::Device) {
            tell_folder(alloc, files, folder)?;
        }
    }
    Ok(Report {
        text: lines,
        status,
    })
}

/// Tells what a folder must be in which records can't be made.
fn tell_folder<F: Files>(alloc: Global, files: &mut F, folder: &str) -> Result<(), AllocError> {
    let text = format!(in alloc;
        "not all records are written: make the folder {folder} first, and take none that has files of these names"
    )?;
    files.tell(&Note::Words { text: &text });
    Ok(())
}

/// Keeps the record of the match of a seed in a folder. Returns whether it could.
fn keep_record<F: Files>(
    alloc: Global,
    files: &mut F,
    described: DescribedGame<'_>,
    folder: &str,
    seed: u64,
) -> Result<bool, AllocError> {
    let name = format!(in alloc; "{folder}/seed-{seed}.record")?;
    let Ok(moves) = moves_of(alloc, described.game, seed) else {
        return Err(AllocError);
    };
    match record_text(alloc, described.text, moves) {
        Ok(record) => Ok(fill(alloc, files, name.as_str(), &record)),
        Err(misfit) => match misfit.fault {
            LineFault::Memory => Err(AllocError),
            _ => Ok(false),
        },
    }
}

/// Creates a file of these bytes. Returns whether it could.
fn fill<F: Files>(alloc: Global, files: &mut F, name: &str, bytes: &[u8]) -> bool {
    match files.create_file(alloc, name) {
        Ok(file) => fill_file(alloc, files, name, file, bytes).is_ok(),
        Err(_) => false,
    }
}

fn no_playouts(alloc: Global, refusal: QuestionError) -> Result<Report, AllocError> {
    let reason = reason_of(refusal)?;
    Ok(Report {
        text: reason.to_vec(alloc)?,
        status: Status::Refused,
    })
}

/// The line that says why no matches were played. The other reasons concern other questions than a match.
fn reason_of(refusal: QuestionError) -> Result<&'static [u8], AllocError> {
    match refusal {
        QuestionError::Over => Ok(b"over\n"),
        QuestionError::Keeper => Ok(b"keeper\n"),
        _ => Err(AllocError),
    }
}
