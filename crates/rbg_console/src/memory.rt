//! Files in memory.
ghost use Rattle.std.specs.Prelude.{◌≡◌, ◌≢◌, ℕ, List, [], None, Some, IfOk, OnErr, OnOk, option_map, string_bytes};
ghost use Rattle.rbg_console.specs.Files.{IsFileReading, IsMemoryFileReading, KeepsFiles, KeepsOthers};
ghost use Rattle.rbg_console.specs.MemoryFiles.{bytes_in};

use crate::files::{Files, read_bytes};
use crate::input::Input;
use crate::note::Note;
use std::alloc::{AllocError, Global};
use std::collections::BTreeMap;
use std::io::{self, ErrorKind};

/// Files in memory, by their names. A file that was created is among them once it is closed.
#[derive(Drop)]
pub struct MemoryFiles {
    files: BTreeMap<String, Vec<u8>>,
}

impl MemoryFiles {
    /// No file.
    pub fn new(alloc: Global) -> MemoryFiles
        ensures { (name : List ℕ) → bytes_in result name ≡ None }
    {
        MemoryFiles {
            files: BTreeMap::new(alloc),
        }
    }

    /// Puts a file in place of the one with this name, if there is one. On an error the files are unchanged.
    pub fn put(&mut self, name: String, bytes: Vec<u8>) -> Result<(), AllocError>
        ensures put { OnOk result (bytes_in self.new (string_bytes name) ≡ Some bytes.items) }
        ensures refused { OnErr result (KeepsFiles (bytes_in self.old) (bytes_in self.new)) }
        ensures others { KeepsOthers (string_bytes name) (bytes_in self.old) (bytes_in self.new) }
    {
        self.files.insert(name, bytes)?;
        Ok(())
    }

    /// The bytes of a file.
    pub fn bytes_of(&self, name: &str) -> Option<&[u8]>
        ensures { option_map (λ bytes. bytes.now) result ≡ bytes_in self.now name.now }
    {
        match self.files.get(name) {
            Some(bytes) => Some(bytes.as_slice()),
            None => None,
        }
    }
}

impl Files for MemoryFiles {
    type NewFile = Vec<u8>;

    ghost told = { bytes_in };

    ghost knows_new = { Unit {0} };

    /// Reads a file. Returns `Input::Device` only if there is none of this name.
    fn read_file(&mut self, alloc: Global, name: &str, limit: usize) -> Result<Input, AllocError>
        ensures whole { IfOk result (IsMemoryFileReading limit (bytes_in self.old name.now)) }
        ensures read { IfOk result (IsFileReading limit (bytes_in self.old name.now)) }
        ensures kept { KeepsFiles (bytes_in self.old) (bytes_in self.new) }
    {
        match self.bytes_of(name) {
            Some(bytes) => read_bytes(alloc, bytes, limit),
            None => Ok(Input::Device),
        }
    }

    /// Creates an empty file. Returns an error only if there is a file of this name.
    fn create_file(&mut self, alloc: Global, name: &str) -> io::Result<Vec<u8>>
        ensures there { OnErr result (bytes_in self.old name.now ≢ None) }
        ensures absent { OnOk result (bytes_in self.old name.now ≡ None) }
        ensures empty { IfOk result (λ file. file.items ≡ []) }
        ensures kept { KeepsFiles (bytes_in self.old) (bytes_in self.new) }
    {
        match self.bytes_of(name) {
            Some(_) => Err(io::Error::from(ErrorKind::AlreadyExists)),
            None => Ok(Vec::new(alloc)),
        }
    }

    fn close_file(&mut self, alloc: Global, name: &str, file: Vec<u8>) -> io::Result<()> {
        self.put(String::from_str(alloc, name)?, file)?;
        Ok(())
    }

    /// Drops the note.
    fn tell(&mut self, _note: &Note<'_>) {}
}
