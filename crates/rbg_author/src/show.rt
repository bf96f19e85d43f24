//! What `show` prints of a game and a list of moves.

use crate::game_files::{Read, load_text, read_moves, read_text, source_name, unreadable};
use crate::moves::{is_listing, readable_listing};
use crate::report::Report;
use rbg_console::{Files, Input, Status};
use rbg_game::LoadedGame;
use rbg_view::show;
use std::alloc::{AllocError, Global};
use std::io;

/// What is shown.
#[derive(Clone, Copy)]
pub(crate) struct Shown<'a> {
    /// The file of the moves, if it isn't standard input.
    pub record: Option<&'a str>,
    /// Whether only the last move is shown.
    pub only_last: bool,
}

/// The moves that a record's file or the input lists, each with the board after it, of the game that the file describes.
/// What `rbg moves` prints of an opening is no list of moves that follow one another: each of them is shown by what it
/// changes.
pub(crate) fn show_file<F: Files, R: io::Read>(
    alloc: Global,
    files: &mut F,
    file: &str,
    shown: Shown<'_>,
    input: &mut R,
) -> Result<Report, AllocError> {
    match read_text(alloc, files, file)? {
        Read::Found(text) => match read_moves(alloc, files, shown.record, input)? {
            Input::Whole(moves) => show_moves(alloc, file, &text, &moves, shown.only_last),
            Input::TooLong | Input::Device => unreadable(alloc, source_name(shown.record)),
        },
        Read::Other(report) => Ok(report),
    }
}

fn show_moves(
    alloc: Global,
    file: &str,
    text: &[u8],
    moves: &[u8],
    only_last: bool,
) -> Result<Report, AllocError> {
    match load_text(alloc, file, text)? {
        Read::Found(loaded) if is_listing(moves) => readable_listing(alloc, loaded, moves),
        Read::Found(loaded) => show_loaded(alloc, loaded, text, moves, only_last),
        Read::Other(report) => Ok(report),
    }
}

fn show_loaded(
    alloc: Global,
    loaded: LoadedGame,
    text: &[u8],
    moves: &[u8],
    only_last: bool,
) -> Result<Report, AllocError> {
    let shown = show(alloc, loaded, text, moves, only_last)?;
    Ok(Report {
        text: shown.text,
        status: if shown.is_whole {
            Status::Success
        } else {
            Status::Refused
        },
    })
}
