//! A connection: a request is heard, answered and let go.

use crate::answer::{HttpStatus, Reply, push_answer};
use crate::request::{Incoming, read_request};
use crate::server::Site;
use std::alloc::Global;
use std::io::{ErrorKind, Read, Write};

/// The milliseconds in which a request has to come, and those in which its answer has to be taken.
const PATIENCE: u64 = 5_000;

/// How many bytes are read at once, and how many reads are made in a row.
const CHUNK: usize = 16_384;

const MAX_READS: u32 = 128;

/// A connection. At first it is heard; then its answer is sent; then it is done.
#[derive(Drop)]
pub(crate) struct Connection<S: Read + Write + Drop> {
    alloc: Global,
    stream: S,
    heard: Vec<u8>,
    /// The answer, once the request is judged.
    answer: Vec<u8>,
    sent: usize,
    /// The moment at which it began, or at which its request was judged.
    since: u64,
    is_done: bool,
}

/// What a read gave.
enum Came {
    Bytes,
    NothingYet,
    End,
}

impl<S: Read + Write + Drop> Connection<S> {
    pub(crate) fn new(alloc: Global, stream: S, now: u64) -> Connection<S> {
        Connection {
            alloc,
            stream,
            heard: Vec::new(alloc),
            answer: Vec::new(alloc),
            sent: 0,
            since: now,
            is_done: false,
        }
    }

    pub(crate) fn is_done(&self) -> bool {
        self.is_done
    }

    /// Does what can be done now.
    pub(crate) fn advance<T: Site>(&mut self, port: u16, site: &mut T, now: u64) {
        if self.answer.is_empty() {
            self.listen(port, site, now);
        }
        if !self.answer.is_empty() {
            self.send(now);
        }
    }

    /// Reads what has come, until it is a request.
    fn listen<T: Site>(&mut self, port: u16, site: &mut T, now: u64) {
        for _ in 0..MAX_READS {
            match self.read() {
                Came::Bytes => {
                    if self.judge(port, site, now) {
                        return;
                    }
                }
                Came::NothingYet => break,
                Came::End => {
                    self.is_done = true;
                    return;
                }
            }
        }
        if now.saturating_sub(self.since) > PATIENCE {
            self.reply(Reply::plain(HttpStatus::Late), &[], now);
        }
    }

    /// Reads once.
    fn read(&mut self) -> Came {
        let mut chunk = [0u8; CHUNK];
        match self.stream.read(&mut chunk) {
            Ok(0) => Came::End,
            Ok(count) => {
                let bytes = chunk.get(..count).unwrap_or(&[]);
                match self.heard.extend_from_slice(bytes) {
                    Ok(()) => Came::Bytes,
                    Err(_) => Came::End,
                }
            }
            Err(error) => match error.kind() {
                ErrorKind::WouldBlock | ErrorKind::Interrupted => Came::NothingYet,
                _ => Came::End,
            },
        }
    }

    /// Answers the request, if it is whole or wrong.
    fn judge<T: Site>(&mut self, port: u16, site: &mut T, now: u64) -> bool {
        let mut text = Vec::new(self.alloc);
        let reply = match read_request(port, &self.heard) {
            Incoming::Part => return false,
            Incoming::Whole(request) => site.answer(&request, &mut text),
            Incoming::Refused(status) => Ok(Reply::plain(status)),
        };
        match reply {
            Ok(reply) => self.reply(reply, &text, now),
            Err(_) => self.reply(Reply::plain(HttpStatus::NoMemory), &[], now),
        }
        true
    }

    /// Makes the answer. Where there is no memory for it, the connection ends.
    fn reply(&mut self, reply: Reply, text: &[u8], now: u64) {
        self.since = now;
        self.sent = 0;
        if push_answer(reply, text, &mut self.answer).is_err() {
            self.is_done = true;
        }
    }

    /// Sends what the connection takes of the answer.
    fn send(&mut self, now: u64) {
        for _ in 0..MAX_READS {
            if self.sent >= self.answer.len() {
                self.is_done = true;
                return;
            }
            match write_from(&mut self.stream, &self.answer, self.sent) {
                Some(count) => self.sent = self.sent.saturating_add(count),
                None => break,
            }
        }
        if now.saturating_sub(self.since) > PATIENCE {
            self.is_done = true;
        }
    }
}

/// Writes the bytes from an index on, as many as the stream takes. None where it takes nothing now.
fn write_from<S: Write>(stream: &mut S, bytes: &[u8], from: usize) -> Option<usize> {
    match stream.write(bytes.get(from..).unwrap_or(&[])) {
        Ok(count) => Some(count),
        Err(error) if error.kind() == ErrorKind::WouldBlock => None,
        // (nobody takes the rest)
        Err(_) => Some(bytes.len()),
    }
}
