//! The writer of messages for an author, as bytes that are added to an output, and the line and the column of a place.

use rbg_macro::{TextLine, Token};
use rbg_warnings::{Excerpt, push_action};
use std::alloc::{AllocError, Global};
use std::fmt::Display;
use std::io::Write;
use std::str;

/// Writes to an output. After a refused allocation nothing is added.
#[derive(Drop)]
pub struct MessageWriter<'a> {
    alloc: Global,
    output: &'a mut Vec<u8>,
    /// Whether there was memory for all so far.
    is_whole: bool,
}

impl<'a> MessageWriter<'a> {
    /// Nothing was written yet.
    pub fn new(alloc: Global, output: &'a mut Vec<u8>) -> MessageWriter<'a> {
        MessageWriter {
            alloc,
            output,
            is_whole: true,
        }
    }

    /// Whether there was memory for all that was written.
    pub fn end(&self) -> Result<(), AllocError> {
        if self.is_whole {
            Ok(())
        } else {
            Err(AllocError)
        }
    }

    /// Bytes as they are.
    pub fn bytes(&mut self, bytes: &[u8]) {
        if self.is_whole {
            self.is_whole = self.output.extend_from_slice(bytes).is_ok();
        }
    }

    /// A text.
    pub fn text(&mut self, text: &str) {
        self.bytes(text.as_bytes());
    }

    /// A value as it is shown.
    pub fn shown<T: Display>(&mut self, value: &T) {
        if self.is_whole {
            self.is_whole = write!(self.output, "{value}").is_ok();
        }
    }

    /// A number between words.
    pub fn number(&mut self, before: &str, number: usize, after: &str) {
        self.text(before);
        self.shown(&number);
        self.text(after);
    }

    /// The line and the column of a place, between words.
    pub fn place(&mut self, before: &str, place: (usize, usize), after: &str) {
        let (line, column) = place;
        self.number(before, line, ":");
        self.number("", column, after);
    }

    /// A number in hexadecimal digits, at least four.
    pub fn hexadecimal(&mut self, number: u32) {
        if self.is_whole {
            self.is_whole = write!(self.output, "{number:04X}").is_ok();
        }
    }

    /// A name between back quotes; of a long one the beginning.
    pub fn name(&mut self, name: &[u8]) {
        let start = name.get(..MOST_SHOWN).unwrap_or(name);
        self.text("`");
        self.text(str::from_utf8(start).unwrap_or(""));
        self.text(if start.len() < name.len() { "..`" } else { "`" });
    }

    /// A name between back quotes, however long it is.
    pub fn whole_name(&mut self, name: &[u8]) {
        self.text("`");
        self.bytes(name);
        self.text("`");
    }

    /// A name between back quotes, between words.
    pub fn named(&mut self, before: &str, name: &[u8], after: &str) {
        self.text(before);
        self.name(name);
        self.text(after);
    }

    /// A part of a line, with carets below the place.
    pub fn excerpt(&mut self, excerpt: &Excerpt<'_>) {
        if self.is_whole {
            self.is_whole = excerpt.write(self.alloc, self.output).is_ok();
        }
    }

    /// An action.
    pub fn action(&mut self, action: &[Token<'_>]) {
        if self.is_whole {
            self.is_whole = push_action(self.output, action).is_ok();
        }
    }
}

/// How many bytes of a name are written.
const MOST_SHOWN: usize = 40;

/// The line and the column of an offset of a text, both counted from 1. For an offset past the end, those of the end.
pub fn line_and_column(text: &[u8], at: usize) -> (usize, usize) {
    let at = at.min(text.len());
    let line = TextLine::of(text, at);
    (line.number, (at - line.start).saturating_add(1))
}
