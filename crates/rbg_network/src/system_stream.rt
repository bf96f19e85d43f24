//! Connections of the system. None of them waits.

use crate::readiness::Readiness;
use crate::watch::{Mark, Watch};
use mio::net::TcpStream;
use std::io::{self, ErrorKind, Read, Write};

/// A connection of the system. Where it has nothing to give, or takes nothing now, it says so without asking the system.
#[derive(Drop)]
pub struct SystemStream {
    stream: TcpStream,
    mark: Mark,
}

impl SystemStream {
    /// A connection that this watch waits for. It sends small messages at once.
    pub(crate) fn new(
        watch: &Watch<'_>,
        stream: TcpStream,
        readiness: Readiness,
    ) -> io::Result<SystemStream> {
        let mut stream = stream;
        stream.set_nodelay(true)?;
        let mark = watch.register(&mut stream, readiness)?;
        Ok(SystemStream { stream, mark })
    }

    /// Whether the other end has closed it.
    pub(crate) fn is_closed(&self) -> bool {
        self.mark.get().is_closed()
    }

    /// Marks what a read of this buffer gave.
    fn mark_read(&self, read: &io::Result<usize>, room: usize) {
        let readiness = self.mark.get();
        match read {
            Ok(count) => self.mark.set(readiness.gave(*count >= room)),
            Err(error) if error.kind() == ErrorKind::WouldBlock => {
                self.mark.set(readiness.gave_nothing());
            }
            // (it may have been interrupted: so it is asked again)
            Err(_) => self.mark.set(readiness.gave(true)),
        }
    }

    /// Marks what a write of these bytes did.
    fn mark_write(&self, written: &io::Result<usize>, bytes: &[u8]) {
        let readiness = self.mark.get();
        match written {
            Ok(_) => self.mark.set(readiness.took(bytes)),
            Err(error) if error.kind() == ErrorKind::WouldBlock => {
                self.mark.set(readiness.took_nothing());
            }
            Err(_) => {}
        }
    }
}

impl Read for SystemStream {
    fn read(&mut self, buffer: &mut [u8]) -> io::Result<usize> {
        if !self.mark.get().may_give() {
            return Err(io::Error::from(ErrorKind::WouldBlock));
        }
        let read = self.stream.read(buffer);
        self.mark_read(&read, buffer.len());
        read
    }
}

impl Write for SystemStream {
    fn write(&mut self, bytes: &[u8]) -> io::Result<usize> {
        let readiness = self.mark.get();
        if readiness.has_stalled() {
            return Err(io::Error::from(ErrorKind::TimedOut));
        }
        if !readiness.may_take() {
            return Err(io::Error::from(ErrorKind::WouldBlock));
        }
        let written = self.stream.write(bytes);
        self.mark_write(&written, bytes);
        written
    }

    fn flush(&mut self) -> io::Result<()> {
        Ok(())
    }
}
