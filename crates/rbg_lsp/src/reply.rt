//! JSON that is written part by part, and messages of it.

use crate::lines::{Lines, Position};
use crate::words::Span;
use serde_json::Value;
use std::alloc::{AllocError, Global};
use std::io::Write;

/// The digits of numbers in base 16.
const HEX: &[u8; 16] = b"0123456789abcdef";

/// A message that is written part by part. After a refused allocation nothing is added.
pub(crate) struct Reply {
    alloc: Global,
    bytes: Vec<u8>,
    /// Whether there was memory for all so far.
    is_whole: bool,
}

/// Written by hand: dropping a reply is then one call in the proofs of its owners, not a step for each part.
impl Drop for Reply {
    fn drop(self) {
        let Reply {
            alloc: _,
            bytes: _,
            is_whole: _,
        } = self;
    }
}

impl Reply {
    /// Nothing was written yet.
    pub fn new(alloc: Global) -> Reply {
        Reply {
            alloc,
            bytes: Vec::new(alloc),
            is_whole: true,
        }
    }

    /// Adds the message with its header to an output.
    pub fn push_to(&self, output: &mut Vec<u8>) -> Result<(), AllocError> {
        if !self.is_whole {
            return Err(AllocError);
        }
        let len = self.bytes.len();
        if write!(output, "Content-Length: {len}\r\n\r\n").is_err() {
            return Err(AllocError);
        }
        output.extend_from_slice(&self.bytes)
    }

    /// Records that memory was refused.
    pub fn fail(&mut self) {
        self.is_whole = false;
    }

    /// Adds a text as it is.
    pub fn text(&mut self, text: &str) {
        self.raw(text.as_bytes());
    }

    fn raw(&mut self, bytes: &[u8]) {
        if self.is_whole {
            self.is_whole = self.bytes.extend_from_slice(bytes).is_ok();
        }
    }

    /// Adds a number.
    pub fn number(&mut self, number: usize) {
        if self.is_whole {
            self.is_whole = write!(self.bytes, "{number}").is_ok();
        }
    }

    /// Adds a number that may be negative.
    pub fn integer(&mut self, number: i64) {
        if self.is_whole {
            self.is_whole = write!(self.bytes, "{number}").is_ok();
        }
    }

    /// Adds a string. Bytes of it that aren't UTF-8 are replaced.
    pub fn string(&mut self, bytes: &[u8]) {
        match String::from_utf8_lossy(self.alloc, bytes) {
            Ok(text) => self.quoted(text.as_bytes()),
            Err(_) => self.fail(),
        }
    }

    fn quoted(&mut self, bytes: &[u8]) {
        self.text("\"");
        for byte in bytes {
            self.character(*byte);
        }
        self.text("\"");
    }

    /// Adds a byte of a string.
    fn character(&mut self, byte: u8) {
        match byte {
            b'"' => self.text("\\\""),
            b'\\' => self.text("\\\\"),
            b'\n' => self.text("\\n"),
            0..=31 => {
                self.text("\\u00");
                self.digit(byte / 16);
                self.digit(byte % 16);
            }
            _ => self.raw(&[byte]),
        }
    }

    /// Adds a digit in base 16.
    fn digit(&mut self, value: u8) {
        let digit = HEX.get(usize::from(value)).copied().unwrap_or(b'0');
        self.raw(&[digit]);
    }

    /// Adds the id of a request: a number or a string, and else null.
    pub fn id(&mut self, id: Option<&Value>) {
        let Some(id) = id else {
            return self.text("null");
        };
        if let Some(number) = id.as_i64() {
            self.integer(number);
        } else if let Some(text) = id.as_str() {
            self.string(text.as_bytes());
        } else {
            self.text("null");
        }
    }

    fn position(&mut self, position: Position) {
        self.text("{\"line\":");
        self.number(position.line);
        self.text(",\"character\":");
        self.number(position.column);
        self.text("}");
    }

    /// Adds the range of a part of a text with these lines.
    pub fn range(&mut self, text: &[u8], lines: &Lines, span: Span) {
        self.text("{\"start\":");
        self.position(lines.position_of(text, span.start));
        self.text(",\"end\":");
        self.position(lines.position_of(text, span.end));
        self.text("}");
    }

    /// Begins the answer to a request.
    pub fn begin_result(&mut self, id: Option<&Value>) {
        self.text("{\"jsonrpc\":\"2.0\",\"id\":");
        self.id(id);
        self.text(",\"result\":");
    }

    /// Answers a request with an error.
    pub fn error(&mut self, id: Option<&Value>, code: i64, message: &str) {
        self.text("{\"jsonrpc\":\"2.0\",\"id\":");
        self.id(id);
        self.text(",\"error\":{\"code\":");
        self.integer(code);
        self.text(",\"message\":");
        self.string(message.as_bytes());
        self.text("}}");
    }
}
