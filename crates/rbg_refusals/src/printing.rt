//! Facts as they are printed.

use std::fmt::{Debug, Display};
use std::io::Write;

/// The bytes in a list before a run appends to it.
pub const KEPT: &[u8] = b"kept\0";

/// Prints facts, and doesn't allocate. After a failure to print, nothing more is printed.
#[derive(Drop)]
pub struct Facts<W: Write> {
    output: W,
    /// Whether all was printed so far.
    is_whole: bool,
}

impl<W: Write> Facts<W> {
    /// Nothing was printed yet.
    pub fn new(output: W) -> Facts<W> {
        Facts {
            output,
            is_whole: true,
        }
    }

    /// Whether all was printed so far.
    pub fn is_whole(&self) -> bool {
        self.is_whole
    }

    /// Bytes as they are.
    pub fn bytes(&mut self, bytes: &[u8]) {
        if self.is_whole {
            self.is_whole = self.output.write_all(bytes).is_ok();
        }
    }

    /// A value as it is shown.
    fn shown<T: Display>(&mut self, value: &T) {
        if self.is_whole {
            self.is_whole = write!(self.output, "{value}").is_ok();
        }
    }

    /// A value as it is shown to programmers, in a line.
    pub fn inner<T: Debug>(&mut self, value: &T) {
        if self.is_whole {
            self.is_whole = writeln!(self.output, "{value:?}").is_ok();
        }
    }

    /// A text.
    pub fn text(&mut self, text: &str) {
        self.bytes(text.as_bytes());
    }

    /// A text, and the end of its line.
    pub fn line(&mut self, text: &str) {
        self.text(text);
        self.bytes(b"\n");
    }

    /// A number after a word.
    pub fn number(&mut self, word: &str, number: u64) {
        self.text(word);
        self.bytes(b" ");
        self.shown(&number);
    }

    /// A number after a word, in a line.
    pub fn count(&mut self, word: &str, number: u64) {
        self.number(word, number);
        self.bytes(b"\n");
    }

    /// Numbers after a word, in a line.
    pub fn numbers(&mut self, word: &str, numbers: &[u32]) {
        self.text(word);
        for number in numbers {
            self.number("", *number as u64);
        }
        self.bytes(b"\n");
    }

    /// How many bytes a numbered queue has.
    pub fn size(&mut self, word: &str, number: u64, bytes: usize) {
        self.number(word, number);
        self.number("", bytes as u64);
        self.line(" bytes");
    }

    /// Whether something is so, after words.
    pub fn truth(&mut self, words: &str, is_so: bool) {
        self.text(words);
        self.line(if is_so { " true" } else { " false" });
    }

    /// Memory was refused.
    pub fn memory(&mut self) {
        self.line("memory");
    }

    /// An error, in a line.
    pub fn error<E: Display>(&mut self, error: &E) {
        self.shown(error);
        self.bytes(b"\n");
    }

    /// Memory was refused, or a call refuses something for another reason.
    pub fn refusal<E: Display>(&mut self, is_memory: bool, error: &E) {
        if is_memory {
            self.memory();
        } else {
            self.text("refused ");
            self.error(error);
        }
    }

    /// Whether something is as it was before the call.
    pub fn kept(&mut self, what: &str, is_kept: bool) {
        self.text("the ");
        self.text(what);
        self.line(if is_kept {
            " as before"
        } else {
            " not as before"
        });
    }

    /// Whether a second call answers that memory was refused too.
    pub fn again(&mut self, is_memory: bool) {
        self.line(if is_memory {
            "again memory"
        } else {
            "another answer"
        });
    }

    /// The messages of a stream, each in a line.
    pub fn messages(&mut self, stream: &[u8]) {
        for byte in stream {
            let printed = if *byte == 0 { b'\n' } else { *byte };
            self.bytes(&[printed]);
        }
        if !stream.ends_with(b"\0") {
            self.bytes(b"\n");
        }
    }

    /// How many bytes a numbered queue has, and the messages of those that there are.
    pub fn queue(&mut self, word: &str, number: u64, bytes: &[u8]) {
        self.size(word, number, bytes.len());
        if !bytes.is_empty() {
            self.messages(bytes);
        }
    }

    /// The messages of a list of bytes, or that memory was refused and whether the list is `KEPT` still.
    pub fn appended(&mut self, went_well: bool, bytes: &[u8]) {
        if went_well {
            self.messages(bytes);
        } else {
            self.memory();
            self.kept("bytes are", bytes == KEPT);
        }
    }
}
