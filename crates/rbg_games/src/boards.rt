//! Games that begin on another board. A file with the ending `.board` has the section of a board, and no other.

ghost use Rattle.std.specs.Prelude.{IfOk, None};
ghost use Rattle.rbg_console.specs.Files.{IsFileReading};

use rbg_console::{Files, Input, Note, SystemFiles};
use std::alloc::{AllocError, Global};
use std::fs::File;
use std::io;

/// The files of the system. The name `GAME.PLACE.board` means the description of `GAME.rbg` with that file's board.
#[derive(Drop)]
pub struct GameFiles<'a> {
    files: SystemFiles<'a>,
}

impl<'a> GameFiles<'a> {
    /// The files that this runtime can open.
    pub fn new(rt: &'a HostRuntime) -> GameFiles<'a> {
        GameFiles {
            files: SystemFiles::new(rt),
        }
    }

    /// Reads the game of a name without its ending, with the board of a file.
    fn read_with_board(
        &mut self,
        alloc: Global,
        game: &str,
        board: &str,
        limit: usize,
    ) -> Result<Input, AllocError>
        ensures { IfOk result (IsFileReading limit None) }
    {
        let game = format!(in alloc; "{game}.rbg")?;
        let Input::Whole(description) = self.files.read_file(alloc, game.as_str(), limit)? else {
            return Ok(Input::Device);
        };
        let Input::Whole(board) = self.files.read_file(alloc, board, limit)? else {
            return Ok(Input::Device);
        };
        let text = with_board(alloc, description.as_slice(), board.as_slice())?;
        if text.len() > limit {
            return Ok(Input::TooLong);
        }
        Ok(Input::Whole(text))
    }
}

impl Files for GameFiles<'_> {
    type NewFile = File;

    fn read_file(&mut self, alloc: Global, name: &str, limit: usize) -> Result<Input, AllocError> {
        let stem = name.strip_suffix(".board").unwrap_or("");
        match stem.split_once('.') {
            Some((game, _)) => self.read_with_board(alloc, game, name, limit),
            None => self.files.read_file(alloc, name, limit),
        }
    }

    fn create_file(&mut self, alloc: Global, name: &str) -> io::Result<File> {
        self.files.create_file(alloc, name)
    }

    fn close_file(&mut self, alloc: Global, name: &str, file: File) -> io::Result<()> {
        self.files.close_file(alloc, name, file)
    }

    fn tell(&mut self, note: &Note<'_>) {
        self.files.tell(note);
    }
}

/// The description with this text in place of its section `#board`. A section begins at each line that begins with `#`.
fn with_board(alloc: Global, description: &[u8], board: &[u8]) -> Result<Vec<u8>, AllocError> {
    let mut text = Vec::new(alloc);
    let mut replaced = false;
    for line in description.split_inclusive(|byte| *byte == b'\n') {
        if line.starts_with(b"#") {
            replaced = line.starts_with(b"#board");
            if replaced {
                text.extend_from_slice(board)?;
            }
        }
        if !replaced {
            text.extend_from_slice(line)?;
        }
    }
    Ok(text)
}
