//! The files and the words of the system. Failures are reported on standard error.
ghost use Rattle.std.specs.Prelude.{IfOk, None};
ghost use Rattle.rbg_console.specs.Files.{IsFileReading};

use crate::command_line::WordsError;
use crate::files::Files;
use crate::input::{Input, read_input};
use crate::note::Note;
use std::alloc::{AllocError, Global};
use std::env;
use std::fs::File;
use std::io::{self, ErrorKind, Read};

/// The files of the system.
#[derive(Drop)]
pub struct SystemFiles<'a> {
    rt: &'a HostRuntime,
}

impl<'a> SystemFiles<'a> {
    /// The files that this runtime can open.
    pub fn new(rt: &'a HostRuntime) -> SystemFiles<'a> {
        SystemFiles { rt }
    }

    /// Prints on standard error what can't be done with a file, and why. A failure to print is ignored.
    fn say_failure(&self, deed: &str, name: &str, error: &io::Error) {
        let _said = eprintln!(self.rt; "can't {deed} {name}: {error}");
    }

    /// Reads an open file. If that fails, one more read gets the reason.
    fn read_open(
        &self,
        alloc: Global,
        name: &str,
        file: &mut File,
        limit: usize,
    ) -> Result<Input, AllocError>
        ensures { IfOk result (IsFileReading limit None) }
    {
        let read = read_input(alloc, file, limit)?;
        if matches!(&read, Input::Device) {
            if let Err(error) = file.read(&mut [0u8; 1]) {
                self.say_failure("read", name, &error);
            }
        }
        Ok(read)
    }
}

impl Files for SystemFiles<'_> {
    type NewFile = File;

    fn read_file(&mut self, alloc: Global, name: &str, limit: usize) -> Result<Input, AllocError> {
        match File::open(self.rt, name) {
            Ok(mut file) => self.read_open(alloc, name, &mut file, limit),
            Err(error) => {
                self.say_failure("read", name, &error);
                Ok(Input::Device)
            }
        }
    }

    fn create_file(&mut self, _alloc: Global, name: &str) -> io::Result<File> {
        let created = File::create_new(self.rt, name);
        if let Err(error) = &created {
            self.say_failure("create", name, error);
        }
        created
    }

    fn close_file(&mut self, _alloc: Global, _name: &str, _file: File) -> io::Result<()> {
        Ok(())
    }

    fn tell(&mut self, note: &Note<'_>) {
        let _told = eprintln!(self.rt; "{note}");
    }
}

/// The words of the command line, without the program's name.
pub fn words(rt: &HostRuntime) -> Result<Vec<String>, WordsError> {
    let alloc = rt.alloc();
    match env::args(rt) {
        Ok(args) => {
            let mut words = Vec::new(alloc);
            for word in args.skip(1) {
                words.push(word)?;
            }
            Ok(words)
        }
        Err(error) if error.kind() == ErrorKind::OutOfMemory => Err(WordsError::Memory(AllocError)),
        Err(_) => {
            let text = String::from_str(alloc, "error: a word is not UTF-8\n")?;
            Err(WordsError::Wrong(text))
        }
    }
}
