//! A line over a stream.
ghost use Rattle.std.specs.Prelude.{◌≡◌, ◌≢◌, ◌≤◌, ◌+◌, ℕ, length, take, true, false, IfOk, IfSome};
ghost use Rattle.rbg_serving.specs.Answers.{FitsPoll, FitsPut};
ghost use Rattle.rbg_network.specs.Passing.{Gives, passed, begun_after};

use crate::network::is_nothing_yet;
use crate::passing::Passing;
use rbg_serving::{Line, Polled, Put};
use std::io::{self, ErrorKind, Read, Write};

/// A line over a stream, or one of nobody. Of a message that is too long it gives the first bytes and the zero byte alone.
#[derive(Drop)]
pub struct StreamLine<S: Read + Write + Drop> {
    /// The stream. A line of nobody has none.
    stream: Option<S>,
    passing: Passing,
    /// What it gives before what comes from the stream.
    said: Option<Vec<u8>>,
    failures: u64,
    /// Whether it failed since it took nothing for too long.
    stalled: bool,
}

impl<S: Read + Write + Drop> StreamLine<S> {
    /// A line over this stream, which hasn't failed.
    pub fn new(stream: S) -> StreamLine<S> {
        StreamLine::over(Some(stream))
    }

    /// A line of nobody. It ends at once, and takes all that is put to it.
    pub(crate) fn of_nobody() -> StreamLine<S> {
        StreamLine::over(None)
    }

    /// A line over this stream, if there is one.
    fn over(stream: Option<S>) -> StreamLine<S> {
        StreamLine {
            stream,
            passing: Passing::new(),
            said: None,
            failures: 0,
            stalled: false,
        }
    }

    /// The stream, if it isn't a line of nobody.
    pub(crate) fn stream(&self) -> Option<&S> {
        self.stream.as_ref()
    }

    /// From now on it first gives these bytes, which came from the stream before.
    pub(crate) fn give_first(&mut self, said: Vec<u8>) {
        self.said = if said.is_empty() { None } else { Some(said) };
    }

    /// Gives bytes that came before, if there are any. Returns how many.
    fn give_said(&mut self, buffer: &mut [u8]) -> Option<usize>
        ensures fits { IfSome result (λ count. count ≤ length buffer.new) }
        ensures failures { self.new.failures ≡ self.old.failures }
    {
        let mut said = self.said.take()?;
        let count = said.len().min(buffer.len());
        buffer[..count].copy_from_slice(&said[..count]);
        if count < said.len() {
            said.drain(..count);
            self.said = Some(said);
        }
        Some(count)
    }

    /// Reads from the stream. A line of nobody has ended.
    fn read(&mut self, buffer: &mut [u8]) -> io::Result<usize>
        ensures fits { IfOk result (λ count. count ≤ length buffer.new) }
        ensures failures { self.new.failures ≡ self.old.failures }
    {
        match &mut self.stream {
            Some(stream) => stream.read(buffer),
            None => Ok(0),
        }
    }

    /// Writes to the stream. A line of nobody takes all.
    fn write(&mut self, bytes: &[u8]) -> io::Result<usize>
        ensures fits { IfOk result (λ count. count ≤ length bytes.now) }
        ensures failures { self.new.failures ≡ self.old.failures }
    {
        match &mut self.stream {
            Some(stream) => stream.write(bytes),
            None => Ok(bytes.len()),
        }
    }

    /// Whether the stream failed since it took nothing for too long.
    pub fn has_stalled(&self) -> bool {
        self.stalled
    }

    /// Takes the first bytes of the buffer, so many of them, as the next ones of the stream, and gives those that are
    /// passed on.
    fn pass(&mut self, buffer: &mut [u8], count: usize) -> Polled
        requires { count ≤ length buffer.old }
        ensures gives { Gives result buffer.new (passed self.old.passing.begun (take count buffer.old)) }
        ensures begun { self.new.passing.begun
            ≡ begun_after self.old.passing.begun (take count buffer.old) }
        ensures fits { FitsPoll result (length buffer.new) }
        ensures failures { self.new.failures ≡ self.old.failures }
    {
        match self.passing.pass(buffer, count) {
            0 => Polled::Nothing,
            kept => Polled::Got(kept),
        }
    }

    /// The answer to a put that failed.
    fn fail_to_put(&mut self, error: &io::Error) -> Put
        ensures fits { (offered : ℕ) → FitsPut result offered }
        ensures counted { result ≡ Put.Failed → self.new.failures ≡ self.old.failures + 1 }
        ensures full { result ≢ Put.Failed → (result ≡ Put.Took 0) × (self.new.failures ≡ self.old.failures) }
    {
        self.stalled = error.kind() == ErrorKind::TimedOut;
        if self.count_failure() {
            Put::Failed
        } else {
            Put::Took(0)
        }
    }

    /// Counts one more failure, if there is a number for it.
    fn count_failure(&mut self) -> bool
        ensures counted { result ≡ true → self.new.failures ≡ self.old.failures + 1 }
        ensures full { result ≡ false → self.new.failures ≡ self.old.failures }
    {
        match self.failures.checked_add(1) {
            Some(failures) => {
                self.failures = failures;
                true
            }
            None => false,
        }
    }
}

impl<S: Read + Write + Drop> Line for StreamLine<S> {
    ghost told = { λ _ _. Unit {0} };

    ghost failure_count = { λ line. line.failures };

    fn poll(&mut self, buffer: &mut [u8]) -> Polled {
        if let Some(count) = self.give_said(buffer) {
            return Polled::Got(count);
        }
        match self.read(buffer) {
            Ok(0) => Polled::Ended,
            Ok(count) => self.pass(buffer, count),
            Err(error) if is_nothing_yet(&error) => Polled::Nothing,
            Err(_) if self.count_failure() => Polled::Failed,
            Err(_) => Polled::Ended,
        }
    }

    fn put(&mut self, bytes: &[u8]) -> Put {
        match self.write(bytes) {
            Ok(count) => Put::Took(count),
            Err(error) if is_nothing_yet(&error) => Put::Took(0),
            Err(error) => self.fail_to_put(&error),
        }
    }

    fn failures(&self) -> u64 {
        self.failures
    }
}
