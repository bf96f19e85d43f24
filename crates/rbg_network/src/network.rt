//! The network as the program sees it: connections on this machine, each to a port, and the logs and records of the matches
//! that are played over them.
ghost use Rattle.std.specs.Prelude.{[], IfOk};

use crate::{Archive, News};
use rbg_serving::{Clock, Log};
use std::io::{self, ErrorKind, Read, Write};

/// Connections on this machine, the clock by which matches over them are played, the files in which these are logged and
/// their records are kept, and the ear of whoever runs the program.
///
/// Only a clock waits. A stream and an `accept` don't: where nothing has come, or nothing can be sent, they answer with an
/// error of one of the kinds that `is_nothing_yet` names.
pub trait Network {
    type Stream: Read + Write + Drop;

    type Listener: Drop;

    type Clock: Clock + Drop;

    type Log: Log;

    type Archive: Archive;

    /// Listens on a port; where it is 0, on one that the system chooses.
    fn listen(&mut self, port: u16) -> io::Result<Self::Listener>;

    /// The port of a listener.
    fn port_of(&mut self, listener: &Self::Listener) -> io::Result<u16>;

    /// The next connection to a listener.
    fn accept(&mut self, listener: &mut Self::Listener) -> io::Result<Self::Stream>;

    /// Whether the other end of a stream that was accepted has closed it, as far as that is known.
    fn is_closed(&mut self, stream: &Self::Stream) -> bool;

    /// Connects to a port.
    fn connect(&mut self, port: u16) -> io::Result<Self::Stream>;

    /// A clock that begins with 0 now, and waits for all connections and listeners.
    fn start_clock(&mut self) -> io::Result<Self::Clock>
        ensures unasked { IfOk result (λ clock. Self.Clock.told clock []) };

    /// A new file for the log of a match, which this process holds. A file of that name that is there already is an error.
    /// With `sync` what is written to the log is on the disk before the match goes on.
    fn create_log(&mut self, name: &str, sync: bool) -> io::Result<Self::Log>
        ensures empty { IfOk result (λ log. Self.Log.told log []) };

    /// From now on this process holds the log of this name, until this network is gone: no other one can hold it. One that
    /// isn't there, or that another process holds, is an error.
    fn hold_log(&mut self, name: &str) -> io::Result<()>;

    /// A file for a log that is to replace the one of this name, which this process holds. It lies beside it; one that is
    /// left there is written over.
    fn rewrite_log(&mut self, name: &str, sync: bool) -> io::Result<Self::Log>
        ensures rewritten { IfOk result (λ log. Self.Log.told log []) };

    /// Replaces the log of this name by the one that was written beside it.
    fn replace_log(&mut self, name: &str) -> io::Result<()>;

    /// The bytes of the game file beside a log, if there is one.
    fn read_game(&mut self, log: &str) -> io::Result<Option<Vec<u8>>>;

    /// Writes the game file beside a log, in place of one that is left there. It is on the disk then.
    fn write_game(&mut self, log: &str, text: &[u8]) -> io::Result<()>;

    /// The archive in a directory, which is made when the first record of it is begun. What can't be done there is reported.
    fn open_archive(&mut self, directory: &str) -> io::Result<Self::Archive>
        ensures unused { IfOk result (λ archive. Self.Archive.handed archive []) };

    /// Tells news, apart from the program's answer. Where that can't be told, nothing is.
    fn tell(&mut self, news: &News<'_>);
}

/// Whether a stream or a listener only says that it has nothing now, or takes nothing now.
pub fn is_nothing_yet(error: &io::Error) -> bool {
    matches!(error.kind(), ErrorKind::WouldBlock | ErrorKind::Interrupted)
}
