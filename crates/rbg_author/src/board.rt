//! What `board` prints of a game: a picture of its empty board.

use crate::game_files::{Read, load_text, read_source};
use crate::report::Report;
use rbg_console::{Files, Status};
use rbg_drawing::push_picture;
use std::alloc::{AllocError, Global};
use std::io;

/// An SVG of the empty board of the game that the file describes, or why its text is refused.
pub(crate) fn board_file<F: Files, R: io::Read>(
    alloc: Global,
    files: &mut F,
    input: &mut R,
    file: &str,
) -> Result<Report, AllocError> {
    match read_source(alloc, files, input, file)? {
        Read::Found(text) => board_text(alloc, file, &text),
        Read::Other(report) => Ok(report),
    }
}

fn board_text(alloc: Global, file: &str, text: &[u8]) -> Result<Report, AllocError> {
    match load_text(alloc, file, text)? {
        Read::Found(loaded) => {
            let mut picture = Vec::new(alloc);
            push_picture(alloc, &loaded, text, &mut picture)?;
            Ok(Report {
                text: picture,
                status: Status::Success,
            })
        }
        Read::Other(report) => Ok(report),
    }
}
