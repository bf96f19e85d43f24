//! Standard input and standard output of a case.

use crate::cases::After;
use std::io::{self, ErrorKind, Read, Write};

/// Standard input: bytes, and what it gives after them.
#[derive(Drop)]
pub struct CaseInput<'a> {
    pub bytes: &'a [u8],
    pub after: After,
}

impl Read for CaseInput<'_> {
    fn read(&mut self, buf: &mut [u8]) -> io::Result<usize> {
        if !self.bytes.is_empty() {
            return self.bytes.read(buf);
        }
        match self.after {
            After::End => Ok(0),
            After::Zeros => {
                buf.fill(0);
                Ok(buf.len())
            }
            After::Failure => Err(io::Error::from(ErrorKind::ConnectionReset)),
        }
    }
}

/// Standard output: what was printed, unless writing fails.
#[derive(Drop)]
pub struct CaseOutput {
    pub printed: Vec<u8>,
    pub fails: bool,
}

impl Write for CaseOutput {
    fn write(&mut self, buf: &[u8]) -> io::Result<usize> {
        if self.fails {
            return Err(io::Error::from(ErrorKind::BrokenPipe));
        }
        self.printed.write(buf)
    }

    fn flush(&mut self) -> io::Result<()> {
        Ok(())
    }
}
