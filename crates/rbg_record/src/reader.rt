//! Reading a record line by line.
ghost use Rattle.std.specs.Prelude.{◌≡◌, [], IfErr, IfNone, IfOk, IfSome};
ghost use Rattle.rbg_record.specs.NextLine.{Left};
ghost use Rattle.rbg_record.specs.Reading.{HasForm, Misreads, HasContent, TakesLine};

use crate::cutting::next_line;
use crate::entry_reader::read_in;
use crate::heading_reader::names_in;
use crate::{Content, FormError, Next, RecordLine, read_start, read_version};
use std::marker::Model;

/// What is left of a record that is read line by line, by its form alone. The caller passes what comes next for each
/// line.
#[derive(Drop)]
pub struct RecordReader<'a> {
    /// The bytes that are left.
    rest: &'a [u8],
    /// The number of the line with which they begin.
    number: usize,
}

impl<'a> Model for RecordReader<'a> {
    ghost use Rattle.std.specs.Prelude.{◌+◌, ◌<◌, ◌^◌, length};
    ghost use Rattle.rbg_record.specs.NextLine.{Left};

    ghost Value = { Left };

    ghost view = { λ r. record { rest = r.rest.now; number = r.number } };

    ghost invariant = { λ r. r.number + length r.rest.now < 2 ^ 64 };
}

impl<'a> RecordReader<'a> {
    /// A reader of these bytes.
    pub fn new(bytes: &'a [u8]) -> RecordReader<'a>
        ensures { result ≡ record { rest = bytes.now; number = 1 } }
    {
        RecordReader {
            rest: bytes,
            number: 1,
        }
    }

    /// The next line, or None if nothing comes next and nothing is left.
    ///
    /// Returns an error if what is left has no line of this form.
    pub fn read(&mut self, next: Next) -> Result<Option<RecordLine<'a>>, FormError>
        ensures line { IfOk result (λ found. IfSome found (TakesLine next self.old self.new)) }
        ensures over { IfOk result (λ found. IfNone found ((next ≡ Next.Nothing) × (self.old.rest ≡ []))) }
        ensures fault { IfErr result (Misreads next self.old) }
    {
        let number = self.number;
        let Some((text, later)) = next_line(self.rest) else {
            if next.is_nothing() && self.rest.is_empty() {
                return Ok(None);
            }
            return Err(FormError { line: number });
        };
        let Some(content) = content_of(next, text) else {
            return Err(FormError { line: number });
        };
        self.rest = later;
        self.number += 1;
        Ok(Some(RecordLine {
            number,
            text,
            content,
        }))
    }
}

/// The contents of a line with this text. Returns None if it isn't of the form.
fn content_of(next: Next, text: &[u8]) -> Option<Content<'_>>
    ensures says { IfSome result (HasContent next text.now) }
    ensures none { IfNone result (¬ HasForm next text.now) }
{
    match next {
        Next::Version => Some(Content::Version(read_version(text)?)),
        Next::Players => Some(Content::Players(names_in(text)?)),
        Next::Start => Some(Content::Start(read_start(text)?)),
        Next::Entry(version) => Some(Content::Entry(read_in(version, text)?)),
        Next::Nothing => None,
    }
}
