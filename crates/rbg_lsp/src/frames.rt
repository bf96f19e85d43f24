//! Messages in a stream of bytes: each has a header with its length, an empty line, and its body.

use std::alloc::{AllocError, Global};
use thiserror::Error;

/// The maximum number of bytes of a header.
const MAX_HEADER: usize = 4_096;

/// The maximum number of bytes of a body.
const MAX_BODY: usize = 16_777_216;

/// Why a stream holds no further message.
#[derive(Clone, Copy, Debug, PartialEq, Eq, Error)]
pub enum FramingError {
    /// There is no empty line among the first bytes.
    #[error("a header has no end")]
    NoEnd,
    #[error("a header has no Content-Length")]
    NoLength,
    /// The text after `Content-Length:` is no number.
    #[error("a Content-Length is no number")]
    BadLength,
    #[error("a message is longer than 16 MB")]
    TooLong,
}

/// Bytes that have come, and of which no message was taken yet.
#[derive(Drop)]
pub(crate) struct Inbox {
    alloc: Global,
    bytes: Vec<u8>,
}

/// What is known of the bytes that have come.
#[derive(Clone, Copy)]
enum Front {
    /// They hold no whole message yet.
    Part,
    /// They begin with a message, whose body begins and ends at these offsets.
    Body(usize, usize),
    Broken(FramingError),
}

/// What is taken from the bytes that have come.
#[derive(Drop)]
pub(crate) enum Taken {
    Nothing,
    Body(Vec<u8>),
    Broken(FramingError),
}

impl Inbox {
    /// Nothing has come.
    pub fn new(alloc: Global) -> Inbox {
        Inbox {
            alloc,
            bytes: Vec::new(alloc),
        }
    }

    /// Adds bytes that have come.
    pub fn add(&mut self, bytes: &[u8]) -> Result<(), AllocError> {
        self.bytes.extend_from_slice(bytes)
    }

    /// Takes the first message, if it has come whole.
    pub fn take(&mut self) -> Result<Taken, AllocError> {
        match front_of(&self.bytes) {
            Front::Part => Ok(Taken::Nothing),
            Front::Broken(error) => Ok(Taken::Broken(error)),
            Front::Body(start, end) => {
                let body = part(self.alloc, &self.bytes, start, end)?;
                self.bytes = part(self.alloc, &self.bytes, end, self.bytes.len())?;
                Ok(Taken::Body(body))
            }
        }
    }
}

/// The bytes from one offset to another one.
fn part(alloc: Global, bytes: &[u8], start: usize, end: usize) -> Result<Vec<u8>, AllocError> {
    Vec::from_slice(alloc, bytes.get(start..end).unwrap_or(&[]))
}

/// What bytes begin with.
fn front_of(bytes: &[u8]) -> Front {
    let Some(header) = header_len(bytes) else {
        return if bytes.len() > MAX_HEADER {
            Front::Broken(FramingError::NoEnd)
        } else {
            Front::Part
        };
    };
    match body_len(bytes.get(..header).unwrap_or(&[])) {
        Ok(len) => {
            let start = header.saturating_add(4);
            let end = start.saturating_add(len);
            if end <= bytes.len() {
                Front::Body(start, end)
            } else {
                Front::Part
            }
        }
        Err(error) => Front::Broken(error),
    }
}

/// How many bytes are before the empty line after a header.
fn header_len(bytes: &[u8]) -> Option<usize> {
    for index in 0..MAX_HEADER {
        let end = index.saturating_add(4);
        match bytes.get(index..end) {
            Some([b'\r', b'\n', b'\r', b'\n']) => return Some(index),
            Some(_) => {}
            None => return None,
        }
    }
    None
}

/// The length of the body that a header gives.
fn body_len(header: &[u8]) -> Result<usize, FramingError> {
    let mut start = 0usize;
    for index in 0..header.len() {
        if header.get(index).copied() == Some(b'\n') {
            if let Some(value) = length_field(header.get(start..index).unwrap_or(&[])) {
                return read_length(value);
            }
            start = index.saturating_add(1);
        }
    }
    match length_field(header.get(start..).unwrap_or(&[])) {
        Some(value) => read_length(value),
        None => Err(FramingError::NoLength),
    }
}

/// The text after `Content-Length:` in a line of a header.
fn length_field(line: &[u8]) -> Option<&[u8]> {
    let name = b"content-length:".as_slice();
    let front = line.get(..name.len())?;
    if front.eq_ignore_ascii_case(name) {
        Some(line.get(name.len()..)?.trim_ascii())
    } else {
        None
    }
}

fn read_length(digits: &[u8]) -> Result<usize, FramingError> {
    if digits.is_empty() {
        return Err(FramingError::BadLength);
    }
    let mut length = 0usize;
    for digit in digits {
        if !digit.is_ascii_digit() {
            return Err(FramingError::BadLength);
        }
        length = length
            .saturating_mul(10)
            .saturating_add(usize::from(digit.saturating_sub(b'0')));
    }
    if length > MAX_BODY {
        Err(FramingError::TooLong)
    } else {
        Ok(length)
    }
}
