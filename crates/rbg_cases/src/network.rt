//! A network in memory. A stream never waits.

use crate::cases::{Stream, Text, bytes_named};
use rbg_cli::{Archive, Clock, Log, LogFailure, Network, News, Pause};
use std::alloc::{AllocError, Global};
use std::cell::RefCell;
use std::io::{self, ErrorKind, Read, Write};
use std::rc::Rc;

/// Bytes on their way from one end of a connection to the other.
type Channel = Rc<RefCell<Vec<u8>>>;

/// One end of a connection.
#[derive(Drop)]
pub struct MemoryStream {
    incoming: Channel,
    outgoing: Channel,
    /// Whether the other end stays open, though nobody holds it.
    stays_open: bool,
    /// Whether nobody sees its end who doesn't read it.
    is_unseen: bool,
}

/// Connections in memory. Where a program has no other end in the same process, it gets a stream of the case.
#[derive(Drop)]
pub struct MemoryNetwork<'a> {
    alloc: Global,
    /// The streams of the case that no connection has yet.
    streams: &'a [Stream],
    listens: bool,
    /// The other ends of the connections that are to be accepted.
    waiting: Vec<MemoryStream>,
    /// What was told, each in a line.
    told: Vec<u8>,
    /// The files of the case. None of them becomes a log.
    files: &'a [Text<'a>],
    /// The logs, in the order in which they were begun.
    logs: Vec<Channel>,
    /// The game files that were written, one after the other.
    games: Vec<u8>,
    /// What was kept in each archive, in the order in which they were opened: each line of a record after the name of its
    /// file.
    archives: Vec<Channel>,
    /// What the streams of the case were sent, in the order in which they were connected.
    sent: Vec<Channel>,
    /// What each clock tells, one after the other.
    moments: &'a [u64],
}

impl<'a> MemoryNetwork<'a> {
    /// The network of a case: where nothing listens, each connection gives the next of these streams, and each clock tells
    /// these moments.
    pub fn new(
        alloc: Global,
        streams: &'a [Stream],
        files: &'a [Text<'a>],
        moments: &'a [u64],
    ) -> MemoryNetwork<'a> {
        MemoryNetwork {
            alloc,
            streams,
            listens: false,
            waiting: Vec::new(alloc),
            told: Vec::new(alloc),
            files,
            logs: Vec::new(alloc),
            games: Vec::new(alloc),
            archives: Vec::new(alloc),
            sent: Vec::new(alloc),
            moments,
        }
    }

    /// What was told, each in a line.
    pub fn told(&self) -> &[u8] {
        self.told.as_slice()
    }

    /// Appends what the game files, the logs and the records hold, each line after `game: `, `log: ` or the record's name.
    pub fn add_logs(&self, output: &mut Vec<u8>) -> Result<(), AllocError> {
        push_lines(b"game: ", self.games.as_slice(), output)?;
        for log in &self.logs {
            if let Ok(bytes) = log.try_borrow() {
                push_lines(b"log: ", bytes.as_slice(), output)?;
            }
        }
        for archive in &self.archives {
            if let Ok(bytes) = archive.try_borrow() {
                output.extend_from_slice(bytes.as_slice())?;
            }
        }
        Ok(())
    }

    /// The bytes of a file of the case that lies beside another one.
    fn beside(&self, name: &str, ending: &str) -> io::Result<Option<&[u8]>> {
        let name = format!(in self.alloc; "{name}.{ending}")?;
        Ok(bytes_named(self.files, name.as_bytes()))
    }

    /// Appends what each connection was sent, each line after `sent` and its number.
    pub fn add_sent(&self, output: &mut Vec<u8>) -> Result<(), AllocError> {
        for (index, channel) in self.sent.iter().enumerate() {
            if let Ok(bytes) = channel.try_borrow() {
                let number = index.saturating_add(1);
                let head = format!(in self.alloc; "sent {number}: ")?;
                for line in bytes
                    .as_slice()
                    .split_inclusive(|byte| matches!(byte, 0 | b'\n'))
                {
                    push_sent(head.as_bytes(), line, output)?;
                }
            }
        }
        Ok(())
    }

    fn new_channel(&self) -> io::Result<Channel> {
        Ok(Rc::new(self.alloc, RefCell::new(Vec::new(self.alloc)))?)
    }

    /// A log that can hold so many bytes.
    fn begin_log(&mut self, room: usize) -> io::Result<MemoryLog> {
        let bytes = self.new_channel()?;
        self.logs.push(bytes.clone()?)?;
        Ok(MemoryLog { bytes, room })
    }

    /// The next stream of the case.
    fn next_stream(&mut self) -> io::Result<MemoryStream> {
        let Some((stream, others)) = self.streams.split_first() else {
            return Err(io::Error::from(ErrorKind::ConnectionRefused));
        };
        self.streams = others;
        let incoming = RefCell::new(stream.bytes.clone()?);
        let outgoing = self.new_channel()?;
        self.sent.push(outgoing.clone()?)?;
        Ok(MemoryStream {
            incoming: Rc::new(self.alloc, incoming)?,
            outgoing,
            stays_open: !stream.ends,
            is_unseen: stream.is_unseen,
        })
    }
}

/// Appends each line after this head.
pub fn push_lines(head: &[u8], lines: &[u8], output: &mut Vec<u8>) -> Result<(), AllocError> {
    for line in lines.split_inclusive(|byte| *byte == b'\n') {
        output.extend_from_slice(head)?;
        output.extend_from_slice(line)?;
    }
    Ok(())
}

/// Appends a line after its head. A zero byte is spelt `\0`, and ends a line too.
fn push_sent(head: &[u8], line: &[u8], output: &mut Vec<u8>) -> Result<(), AllocError> {
    output.extend_from_slice(head)?;
    match line.strip_suffix(b"\0".as_slice()) {
        Some(text) => {
            output.extend_from_slice(text)?;
            output.extend_from_slice(b"\\0\n")
        }
        None => output.extend_from_slice(line),
    }
}

impl<'a> Network for MemoryNetwork<'a> {
    type Stream = MemoryStream;

    type Listener = u16;

    type Clock = CaseClock<'a>;

    type Log = MemoryLog;

    type Archive = MemoryArchive<'a>;

    fn listen(&mut self, port: u16) -> io::Result<u16> {
        self.listens = true;
        Ok(port)
    }

    fn port_of(&mut self, listener: &u16) -> io::Result<u16> {
        Ok(*listener)
    }

    fn accept(&mut self, _listener: &mut u16) -> io::Result<MemoryStream> {
        match self.waiting.pop() {
            Some(stream) => Ok(stream),
            None => self.next_stream(),
        }
    }

    fn is_closed(&mut self, stream: &MemoryStream) -> bool {
        !stream.is_unseen && stream.has_ended()
    }

    fn connect(&mut self, _port: u16) -> io::Result<MemoryStream> {
        if !self.listens {
            return self.next_stream();
        }
        let there = self.new_channel()?;
        let back = self.new_channel()?;
        self.waiting.push(MemoryStream {
            incoming: there.clone()?,
            outgoing: back.clone()?,
            stays_open: false,
            is_unseen: false,
        })?;
        Ok(MemoryStream {
            incoming: back,
            outgoing: there,
            stays_open: false,
            is_unseen: false,
        })
    }

    fn start_clock(&mut self) -> io::Result<CaseClock<'a>> {
        Ok(CaseClock {
            moments: self.moments,
            last: 0,
        })
    }

    fn create_log(&mut self, name: &str, _sync: bool) -> io::Result<MemoryLog> {
        if bytes_named(self.files, name.as_bytes()).is_some() {
            return Err(io::Error::from(ErrorKind::AlreadyExists));
        }
        self.begin_log(NEW_ROOM)
    }

    fn hold_log(&mut self, name: &str) -> io::Result<()> {
        match self.beside(name, "held")? {
            Some(_) => Err(io::Error::from(ErrorKind::ResourceBusy)),
            None => Ok(()),
        }
    }

    fn rewrite_log(&mut self, _name: &str, _sync: bool) -> io::Result<MemoryLog> {
        self.begin_log(REPLACING_ROOM)
    }

    fn replace_log(&mut self, _name: &str) -> io::Result<()> {
        Ok(())
    }

    fn read_game(&mut self, log: &str) -> io::Result<Option<Vec<u8>>> {
        match self.beside(log, "game")? {
            Some(bytes) => Ok(Some(bytes.to_vec(self.alloc)?)),
            None => Ok(None),
        }
    }

    fn write_game(&mut self, _log: &str, text: &[u8]) -> io::Result<()> {
        self.games.extend_from_slice(text)?;
        Ok(())
    }

    fn open_archive(&mut self, directory: &str) -> io::Result<MemoryArchive<'a>> {
        let kept = self.new_channel()?;
        self.archives.push(kept.clone()?)?;
        Ok(MemoryArchive {
            alloc: self.alloc,
            directory: String::from_str(self.alloc, directory)?,
            files: self.files,
            kept,
        })
    }

    fn tell(&mut self, news: &News<'_>) {
        let _told = writeln!(&mut self.told, "news: {news}");
    }
}

impl Read for MemoryStream {
    fn read(&mut self, buffer: &mut [u8]) -> io::Result<usize> {
        let Ok(mut bytes) = self.incoming.try_borrow_mut() else {
            return Err(io::Error::from(ErrorKind::WouldBlock));
        };
        let bytes = &mut *bytes;
        if !bytes.is_empty() {
            let count = bytes.len().min(buffer.len());
            buffer[..count].copy_from_slice(&bytes[..count]);
            bytes.drain(..count);
            return Ok(count);
        }
        if self.may_go_on() {
            Err(io::Error::from(ErrorKind::WouldBlock))
        } else {
            Ok(0)
        }
    }
}

impl MemoryStream {
    /// Whether more may come than is there.
    fn may_go_on(&self) -> bool {
        self.stays_open || Rc::strong_count(&self.incoming) > 1
    }

    /// Whether nothing is there any more, and nothing more comes.
    fn has_ended(&self) -> bool {
        let is_empty = match self.incoming.try_borrow() {
            Ok(bytes) => bytes.is_empty(),
            Err(_) => false,
        };
        is_empty && !self.may_go_on()
    }
}

impl Write for MemoryStream {
    fn write(&mut self, buffer: &[u8]) -> io::Result<usize> {
        let Ok(mut bytes) = self.outgoing.try_borrow_mut() else {
            return Err(io::Error::from(ErrorKind::WouldBlock));
        };
        bytes.extend_from_slice(buffer)?;
        Ok(buffer.len())
    }

    fn flush(&mut self) -> io::Result<()> {
        Ok(())
    }
}

/// A log in memory, which is full at some size.
#[derive(Drop)]
pub struct MemoryLog {
    bytes: Channel,
    /// How many bytes it can hold.
    room: usize,
}

/// How many bytes a new log can hold.
const NEW_ROOM: usize = 1_000;

/// How many bytes a log can hold that replaces another one.
const REPLACING_ROOM: usize = 100_000;

impl Log for MemoryLog {
    ghost told = { λ _ _. Unit {0} };

    fn append(&mut self, added: &[u8]) -> Result<(), LogFailure> {
        let Ok(mut bytes) = self.bytes.try_borrow_mut() else {
            return Err(LogFailure);
        };
        if self.room.saturating_sub(bytes.len()) < added.len() {
            return Err(LogFailure);
        }
        match bytes.extend_from_slice(added) {
            Ok(()) => Ok(()),
            Err(_) => Err(LogFailure),
        }
    }
}

/// An archive in memory, in which the files of the case may lie.
#[derive(Drop)]
pub struct MemoryArchive<'a> {
    alloc: Global,
    directory: String,
    files: &'a [Text<'a>],
    /// The records that were kept, each line after the name of its file.
    kept: Channel,
}

impl MemoryArchive<'_> {
    /// The name of a record.
    fn name_of(&self, number: u64) -> Result<String, AllocError> {
        let directory = self.directory.as_str();
        format!(in self.alloc; "{directory}/{number}.record")
    }

    /// Whether there is no room for a record: the case has a file of its name and `.full`.
    fn is_full(&self, name: &str) -> io::Result<bool> {
        let full = format!(in self.alloc; "{name}.full")?;
        Ok(bytes_named(self.files, full.as_bytes()).is_some())
    }

    /// Keeps a record, unless another one lies there, or there is no room.
    fn write(&self, number: u64, bytes: &[u8]) -> io::Result<()> {
        let name = self.name_of(number)?;
        if self.is_full(name.as_str())? {
            return Err(io::Error::from(ErrorKind::StorageFull));
        }
        match bytes_named(self.files, name.as_bytes()) {
            Some(there) if there == bytes => Ok(()),
            Some(_) => Err(io::Error::from(ErrorKind::AlreadyExists)),
            None => {
                let head = format!(in self.alloc; "{name}: ")?;
                self.add(head.as_bytes(), bytes)
            }
        }
    }

    /// Appends lines to what was kept, each after this head.
    fn add(&self, head: &[u8], lines: &[u8]) -> io::Result<()> {
        let Ok(mut kept) = self.kept.try_borrow_mut() else {
            return Err(io::Error::from(ErrorKind::WouldBlock));
        };
        push_lines(head, lines, &mut kept)?;
        Ok(())
    }
}

impl Archive for MemoryArchive<'_> {
    ghost use Rattle.std.specs.Prelude.{true};

    ghost handed = { λ _ _. Unit {0} };

    ghost wants = { λ _. true };

    fn wants_records(&self) -> bool {
        true
    }

    fn begin(&mut self, number: u64, goes_on: bool) -> io::Result<()> {
        let name = self.name_of(number)?;
        if !goes_on && bytes_named(self.files, name.as_bytes()).is_some() {
            return Err(io::Error::from(ErrorKind::AlreadyExists));
        }
        Ok(())
    }

    fn keep(&mut self, number: u64, bytes: &[u8]) -> bool {
        match self.write(number, bytes) {
            Ok(()) => true,
            Err(_) => {
                self.lose(number);
                false
            }
        }
    }

    fn lose(&mut self, number: u64) {
        if let Ok(name) = self.name_of(number) {
            let _said = self.add(b"lost: ", name.as_bytes());
            let _ended = self.add(b"", b"\n");
        }
    }
}

/// A clock that tells the moments of a case, and then the last of them again and again, or 0 if there is none.
#[derive(Clone, Copy)]
pub struct CaseClock<'a> {
    /// What it has not told yet.
    moments: &'a [u64],
    last: u64,
}

impl Clock for CaseClock<'_> {
    ghost told = { λ _ _. Unit {0} };

    fn now(&mut self) -> u64 {
        if let Some((moment, others)) = self.moments.split_first() {
            self.moments = others;
            self.last = *moment;
        }
        self.last
    }

    fn wait(&mut self, _pause: Pause) {}
}
