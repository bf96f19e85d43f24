//! Logs in files of the system. What fails is said on standard error.

use crate::system_file::most_bytes;
use rbg_serving::{Log, LogFailure};
use std::fs::File;
use std::io::{self, ErrorKind, Write};

/// A log in a file of the system.
#[derive(Drop)]
pub struct SystemLog<'a> {
    rt: &'a HostRuntime,
    name: String,
    file: File,
    /// Whether each write waits until the bytes are on the disk.
    sync: bool,
    /// How many bytes it has.
    length: u64,
    /// How many it may have.
    most: u64,
}

impl<'a> SystemLog<'a> {
    /// A log in an empty file that was opened to write. By this name it is told of.
    pub(crate) fn new(rt: &'a HostRuntime, name: String, file: File, sync: bool) -> SystemLog<'a> {
        SystemLog {
            rt,
            name,
            file,
            sync,
            length: 0,
            most: most_bytes(rt),
        }
    }

    fn write(&mut self, bytes: &[u8]) -> io::Result<()> {
        let length = self.length.saturating_add(bytes.len() as u64);
        if length > self.most {
            return Err(io::Error::from(ErrorKind::FileTooLarge));
        }
        self.file.write_all(bytes)?;
        if self.sync {
            self.file.sync_data()?;
        }
        self.length = length;
        Ok(())
    }
}

impl Log for SystemLog<'_> {
    ghost told = { λ _ _. Unit {0} };

    fn append(&mut self, bytes: &[u8]) -> Result<(), LogFailure> {
        match self.write(bytes) {
            Ok(()) => Ok(()),
            Err(error) => {
                say_log_failure(self.rt, "write", self.name.as_str(), &error);
                Err(LogFailure)
            }
        }
    }
}

/// Says that something can't be done with a log, and why.
pub(crate) fn say_log_failure(rt: &HostRuntime, deed: &str, name: &str, error: &io::Error) {
    let _said = eprintln!(rt; "can't {deed} the log {name}: {error}");
}
