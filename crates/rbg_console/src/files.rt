//! Files that a program reads and creates by their names.
ghost use Rattle.std.specs.Prelude.{◌≡◌, ℕ, List, [], IfOk, OnErr, OnOk, None, Some};
ghost use Rattle.std.specs.declared.option.Option.{Option};
ghost use Rattle.rbg_console.specs.Files.{IsFileReading, IsMemoryReading, KeepsFiles, KeepsOthers};

use crate::input::Input;
use crate::note::Note;
use crate::output::write_and_flush;
use std::alloc::{AllocError, Global};
use std::io::{self, Write};

/// The files of a program: it reads them by name, creates new ones, and sends its notes here.
pub trait Files {
    /// A file that was created. What is written to it is appended.
    type NewFile: Write + Drop;

    /// The bytes of each file by its name, if they are known. Those of the system's files aren't.
    ghost told: { Self → (name : List ℕ) → Option (List ℕ) } = { λ _ _. None };

    /// Whether the bytes of created files are known. What is written to the system's files isn't.
    ghost knows_new: { Type 0 } = { ⊥ };

    /// Reads a file to its end, or until more than `limit` bytes have come.
    fn read_file(&mut self, alloc: Global, name: &str, limit: usize) -> Result<Input, AllocError>
        ensures read { IfOk result (IsFileReading limit (told self.old name.now)) }
        ensures kept { KeepsFiles (told self.old) (told self.new) };

    /// Creates an empty file. Returns an error if there is a file of this name, which stays as it is.
    fn create_file(&mut self, alloc: Global, name: &str) -> io::Result<Self::NewFile>
        ensures absent { OnOk result (told self.old name.now ≡ None) }
        ensures empty { IfOk result (λ file. knows_new → Self.NewFile.contents file ≡ Some []) }
        ensures kept { KeepsFiles (told self.old) (told self.new) };

    /// Finishes a file that was created by this name. On an error each file has the bytes that it had.
    fn close_file(&mut self, alloc: Global, name: &str, file: Self::NewFile) -> io::Result<()>
        ensures closed { OnOk result (knows_new → told self.new name.now ≡ Self.NewFile.contents file) }
        ensures failed { OnErr result (KeepsFiles (told self.old) (told self.new)) }
        ensures others { KeepsOthers name.now (told self.old) (told self.new) };

    /// Sends a note to whoever runs the program. A failure to write it is ignored.
    fn tell(&mut self, note: &Note<'_>)
        ensures kept { KeepsFiles (told self.old) (told self.new) };
}

/// Reads bytes in memory as those of a file.
pub fn read_bytes(alloc: Global, bytes: &[u8], limit: usize) -> Result<Input, AllocError>
    ensures whole { IfOk result (IsMemoryReading limit bytes.now) }
    ensures known { IfOk result (IsFileReading limit (Some bytes.now)) }
    ensures unknown { IfOk result (IsFileReading limit None) }
{
    if bytes.len() > limit {
        return Ok(Input::TooLong);
    }
    Ok(Input::Whole(Vec::from_slice(alloc, bytes)?))
}

/// Writes bytes to a file that was created by this name, and closes it. On an error each file has the bytes that it
/// had.
pub fn fill_file<F: Files>(
    alloc: Global,
    files: &mut F,
    name: &str,
    file: F::NewFile,
    bytes: &[u8],
) -> io::Result<()>
    requires { F.knows_new → F.NewFile.contents file ≡ Some [] }
    ensures filled { OnOk result (F.knows_new → F.told files.new name.now ≡ Some bytes.now) }
    ensures failed { OnErr result (KeepsFiles (F.told files.old) (F.told files.new)) }
    ensures others { KeepsOthers name.now (F.told files.old) (F.told files.new) }
{
    let mut file = file;
    write_and_flush(&mut file, bytes)?;
    files.close_file(alloc, name, file)
}
