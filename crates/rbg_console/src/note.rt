//! Notes: what a program prints apart from its answer.

use std::fmt::{self, Formatter};

/// A note for whoever runs a program, apart from the answer: one or more lines, without the last line feed.
#[derive(Clone, Copy)]
pub enum Note<'a> {
    /// Lines of what was read by this name end in CR LF.
    LineEnds { name: &'a str },
    /// The words of the command line are wrong, for the reason in this text.
    Words { text: &'a str },
}

impl fmt::Display for Note<'_> {
    fn fmt<W: fmt::Write>(&self, f: &mut Formatter<W>) -> fmt::Result {
        match self {
            Note::LineEnds { name } => {
                write!(f, "lines of {name} end in CR LF, and not in LF alone")
            }
            Note::Words { text } => f.write_str(text.strip_suffix('\n').unwrap_or(text)),
        }
    }
}
