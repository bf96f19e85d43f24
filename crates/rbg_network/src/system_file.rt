//! Files of the system: those that are written whole or not at all, and those that one process holds.

use crate::system_log::say_log_failure;
use std::alloc::AllocError;
use std::fs::{self, File, TryLockError};
use std::io::{self, ErrorKind, Write};
use std::os::fd::AsRawFd;
use std::os::unix::fs::MetadataExt;
use std::path::Path;

/// The name under which a file is written that is to replace another one, or to be there whole.
pub(crate) fn name_beside(rt: &HostRuntime, name: &str) -> Result<String, AllocError> {
    format!(in rt.alloc(); "{name}.new")
}

/// Writes a file under a name beside its own, and renames it once its bytes are on the disk. So it is there whole, or the
/// one that was there before is.
pub(crate) fn write_whole(rt: &HostRuntime, path: &str, bytes: &[u8]) -> io::Result<()> {
    if bytes.len() as u64 > most_bytes(rt) {
        return Err(io::Error::from(ErrorKind::FileTooLarge));
    }
    let beside = name_beside(rt, path)?;
    let mut file = File::create(rt, beside.as_str())?;
    file.write_all(bytes)?;
    file.sync_all()?;
    fs::rename(rt, beside.as_str(), path)?;
    sync_directory(rt, path);
    Ok(())
}

/// Waits until the name of a file is on the disk, as far as the system can do that.
fn sync_directory(rt: &HostRuntime, path: &str) {
    let directory = match Path::new(path).parent() {
        Some(parent) if !parent.as_str().is_empty() => parent,
        _ => Path::new("."),
    };
    if let Ok(opened) = File::open(rt, directory) {
        let _synced = opened.sync_all();
    }
}

/// The most bytes that the system lets a file of this process have, as far as it says that. A write that begins after them
/// would end the process by a signal.
pub(crate) fn most_bytes(rt: &HostRuntime) -> u64 {
    match fs::read_to_string(rt, "/proc/self/limits") {
        Ok(limits) => limit_in(limits.as_str()),
        Err(_) => u64::MAX,
    }
}

/// The size of a file in a list of a process's limits. A word that is no number is no limit.
fn limit_in(limits: &str) -> u64 {
    for line in limits.lines() {
        if let Some(numbers) = line.strip_prefix("Max file size") {
            let word = numbers.split_ascii_whitespace().next().unwrap_or("");
            return word.parse().unwrap_or(u64::MAX);
        }
    }
    u64::MAX
}

/// Takes the lock of a log in this file. The system gives it back when this process has ended, however that was. Where the
/// file system has no locks, this is said, and the log isn't locked.
pub(crate) fn lock(rt: &HostRuntime, name: &str, file: &File) -> io::Result<()> {
    match file.try_lock() {
        Ok(()) => Ok(()),
        Err(TryLockError::WouldBlock) => Err(held_elsewhere()),
        Err(TryLockError::Error(error)) => {
            say_log_failure(rt, "lock", name, &error);
            Ok(())
        }
    }
}

/// The error of a file whose lock another process has.
fn held_elsewhere() -> io::Error {
    io::Error::new(ErrorKind::ResourceBusy, "another process has it")
}

/// Opens a log and takes its lock. Where another file has its name by then, the process that has replaced it holds that
/// one.
pub(crate) fn open_locked(rt: &HostRuntime, name: &str) -> io::Result<File> {
    let file = open_to_lock(rt, name)?;
    lock(rt, name, &file)?;
    let opened = file.metadata()?;
    let named = fs::metadata(rt, name)?;
    if opened.ino() != named.ino() || opened.dev() != named.dev() {
        return Err(held_elsewhere());
    }
    Ok(file)
}

/// Opens a file to be locked. Some systems lock only a file that can be written.
fn open_to_lock(rt: &HostRuntime, name: &str) -> io::Result<File> {
    match File::options().read(true).write(true).open(rt, name) {
        Ok(file) => Ok(file),
        Err(_) => File::open(rt, name),
    }
}

/// Takes the numbers of those of the three streams that are closed, so that no log gets what is meant for one of them.
/// Writing there fails.
pub(crate) fn guard_streams(rt: &HostRuntime) -> [Option<File>; 3] {
    [guard(rt), guard(rt), guard(rt)]
}

/// The file with the lowest free number, if that is the number of a stream.
fn guard(rt: &HostRuntime) -> Option<File> {
    match File::open(rt, "/dev/null") {
        Ok(file) if file.as_raw_fd() <= 2 => Some(file),
        _ => None,
    }
}
