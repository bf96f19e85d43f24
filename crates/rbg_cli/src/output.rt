//! What a command's answer is written to, which keeps the reason where that fails.

use std::io::{self, ErrorKind, Write};

/// An output, and the last error of a write or a flush.
pub struct KeptOutput<'a, W: Write> {
    output: &'a mut W,
    error: Option<io::Error>,
}

impl<'a, W: Write> KeptOutput<'a, W> {
    /// This output, which hasn't failed.
    pub fn new(output: &'a mut W) -> KeptOutput<'a, W> {
        KeptOutput {
            output,
            error: None,
        }
    }

    /// Why it failed, if it did.
    pub fn error(&self) -> Option<&io::Error> {
        self.error.as_ref()
    }

    /// Keeps an error, and returns another one of its kind that stands for it.
    fn kept(&mut self, error: io::Error) -> io::Error {
        let kind = error.kind();
        if kind != ErrorKind::Interrupted {
            self.error = Some(error);
        }
        io::Error::from(kind)
    }
}

impl<W: Write> Drop for KeptOutput<'_, W> {
    fn drop(self) {
        let KeptOutput {
            output: _,
            error: _,
        } = self;
    }
}

impl<W: Write> Write for KeptOutput<'_, W> {
    fn write(&mut self, bytes: &[u8]) -> io::Result<usize> {
        match self.output.write(bytes) {
            Ok(0) if !bytes.is_empty() => { Err(self.kept(io::Error::from(ErrorKind::WriteZero))) }
            Ok(count) => Ok(count),
            Err(error) => Err(self.kept(error)),
        }
    }

    fn flush(&mut self) -> io::Result<()> {
        match self.output.flush() {
            Ok(()) => Ok(()),
            Err(error) => Err(self.kept(error)),
        }
    }
}
