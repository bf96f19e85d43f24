//! Archives in directories of the system. What fails is said on standard error.

use crate::archive::Archive;
use crate::system_file::write_whole;
use std::alloc::AllocError;
use std::fs;
use std::io::{self, ErrorKind};

/// The records in a directory of the system, each in a file with the number of its match.
#[derive(Drop)]
pub struct SystemArchive<'a> {
    rt: &'a HostRuntime,
    directory: String,
}

impl<'a> SystemArchive<'a> {
    /// The archive in this directory, which may not be there yet.
    pub(crate) fn new(rt: &'a HostRuntime, directory: String) -> SystemArchive<'a> {
        SystemArchive { rt, directory }
    }

    /// The name of the record of a match.
    fn path_of(&self, number: u64) -> Result<String, AllocError> {
        let directory = self.directory.as_str();
        format!(in self.rt.alloc(); "{directory}/{number}.record")
    }

    /// Makes the directory, where no record of this number may be that isn't to be written over.
    fn make_ready(&self, number: u64, goes_on: bool) -> io::Result<()> {
        fs::create_dir_all(self.rt, self.directory.as_str())?;
        let path = self.path_of(number)?;
        if !goes_on && fs::exists(self.rt, path.as_str())? {
            return Err(io::Error::from(ErrorKind::AlreadyExists));
        }
        Ok(())
    }

    /// Writes a record, unless it is there.
    fn write(&self, number: u64, bytes: &[u8]) -> io::Result<()> {
        let path = self.path_of(number)?;
        match fs::read(self.rt, path.as_str()) {
            Ok(there) if there.as_slice() == bytes => Ok(()),
            Ok(_) => Err(io::Error::from(ErrorKind::AlreadyExists)),
            Err(error) if error.kind() == ErrorKind::NotFound => {
                write_whole(self.rt, path.as_str(), bytes)
            }
            Err(error) => Err(error),
        }
    }

    /// Says that the record of a match can't be written, and why.
    fn say(&self, number: u64, error: &io::Error) {
        let directory = self.directory.as_str();
        let _said = eprintln!(self.rt; "can't write {directory}/{number}.record: {error}");
    }
}

impl Archive for SystemArchive<'_> {
    ghost use Rattle.std.specs.Prelude.{true};

    ghost handed = { λ _ _. Unit {0} };

    ghost wants = { λ _. true };

    fn wants_records(&self) -> bool {
        true
    }

    fn begin(&mut self, number: u64, goes_on: bool) -> io::Result<()> {
        let begun = self.make_ready(number, goes_on);
        if let Err(error) = &begun {
            self.say(number, error);
        }
        begun
    }

    fn keep(&mut self, number: u64, bytes: &[u8]) -> bool {
        match self.write(number, bytes) {
            Ok(()) => true,
            Err(error) => {
                self.say(number, &error);
                false
            }
        }
    }

    fn lose(&mut self, number: u64) {
        self.say(number, &io::Error::from(ErrorKind::OutOfMemory));
    }
}
