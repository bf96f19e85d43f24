//! Cases, and how they are read from lines.

use std::alloc::{AllocError, Global};
use std::{mem, str};
use thiserror::Error;

/// Why a list of cases is not read.
#[derive(Clone, Copy, Debug, PartialEq, Eq, Error)]
pub enum CasesError {
    /// The first line that is not of its form, numbered from 1; 0 if the input can't be read.
    #[error("cases {0}")]
    Line(usize),
    #[error("memory")]
    Memory(#[from(alloc)] AllocError),
}

/// Bytes with a name.
#[derive(Drop)]
pub struct Text<'a> {
    pub name: &'a [u8],
    pub bytes: Vec<u8>,
}

/// The bytes of this name, if there are any.
pub fn bytes_named<'t>(texts: &'t [Text<'_>], name: &[u8]) -> Option<&'t [u8]> {
    for text in texts {
        if text.name == name {
            return Some(text.bytes.as_slice());
        }
    }
    None
}

/// What comes from the other end of a connection.
#[derive(Drop)]
pub struct Stream {
    pub bytes: Vec<u8>,
    /// Whether the stream ends after its bytes. Else nothing more comes.
    pub ends: bool,
    /// Whether nobody sees its end who doesn't read it.
    pub is_unseen: bool,
}

/// What standard input gives after its bytes.
#[derive(Clone, Copy)]
pub enum After {
    End,
    /// Zero bytes without end.
    Zeros,
    /// Reading fails.
    Failure,
}

/// A program that a case runs.
#[derive(Clone, Copy)]
pub enum Program {
    Rbg,
    RbgAuthor,
}

/// One run of a program: its words, its files, its connections and its standard input.
#[derive(Drop)]
pub struct Case<'a> {
    pub name: &'a [u8],
    pub program: Program,
    /// How many of the lines are shown, from the end.
    pub shown: usize,
    /// Whether the lines that it prints on standard error are shown too.
    pub news: bool,
    /// The file that the case makes, if it is to be shown.
    pub made: Option<String>,
    /// Whether what its logs hold is shown too.
    pub logs: bool,
    /// Whether what its connections were sent is shown too.
    pub sent: bool,
    pub words: Vec<String>,
    pub files: Vec<Text<'a>>,
    /// The files for which there is no memory.
    pub lacking: Vec<&'a [u8]>,
    pub streams: Vec<Stream>,
    /// The moments that each of its clocks shows, one after the other.
    pub moments: Vec<u64>,
    pub input: Vec<u8>,
    pub after: After,
    /// Whether what is printed can't be written.
    pub output_fails: bool,
}

/// How a case is run or shown.
#[derive(Clone, Copy)]
enum Setting {
    /// It is one of the author's program.
    Author,
    /// The lines that it prints on standard error are shown.
    News,
    /// What its logs hold is shown.
    Logs,
    /// What its connections were sent is shown.
    Sent,
    /// What it prints can't be written.
    OutputFails,
    /// What its standard input gives after its bytes.
    After(After),
    /// How many of its lines are shown, from the end.
    Last(usize),
}

/// The part to which the bytes of lines belong.
#[derive(Clone, Copy)]
enum Target<'a> {
    Nothing,
    Text { name: &'a [u8] },
    Input,
    File { name: &'a [u8] },
    Stream { ends: bool, is_unseen: bool },
}

/// What was read so far: texts and cases, and the bytes of the part that is being read.
#[derive(Drop)]
struct Reader<'a> {
    texts: Vec<Text<'a>>,
    cases: Vec<Case<'a>>,
    target: Target<'a>,
    bytes: Vec<u8>,
}

/// Reads the cases of a list.
pub fn read_cases(alloc: Global, bytes: &[u8]) -> Result<Vec<Case<'_>>, CasesError> {
    let mut reader = Reader {
        texts: Vec::new(alloc),
        cases: Vec::new(alloc),
        target: Target::Nothing,
        bytes: Vec::new(alloc),
    };
    for (index, line) in bytes.split(|byte| *byte == b'\n').enumerate() {
        if !reader.read_line(alloc, line)? {
            return Err(CasesError::Line(index.saturating_add(1)));
        }
    }
    reader.end_part(alloc)?;
    Ok(reader.cases)
}

impl<'a> Reader<'a> {
    /// Reads a line. Returns false if it is not of its form.
    fn read_line(&mut self, alloc: Global, line: &'a [u8]) -> Result<bool, AllocError> {
        match line.split_first() {
            None | Some((b';', _)) => {}
            Some((b'|', text)) => {
                self.bytes.extend_from_slice(text)?;
                self.bytes.push(b'\n')?;
            }
            Some((b'+', text)) => self.bytes.extend_from_slice(text)?,
            Some((b'*', text)) => return self.add_repeated(text),
            Some((b'=', name)) => return self.add_text(name),
            Some((b'%', digits)) => return self.add_hex(alloc, digits),
            Some(_) => return self.read_head(alloc, line),
        }
        Ok(true)
    }

    /// Reads a line that begins a text, a case or a part of a case, or that sets how a case is run or shown.
    fn read_head(&mut self, alloc: Global, line: &'a [u8]) -> Result<bool, AllocError> {
        if let Some(words) = line.strip_prefix(b"words ") {
            return self.add_words(alloc, words);
        }
        if let Some(name) = line.strip_prefix(b"made ") {
            return self.show_made(alloc, name);
        }
        if let Some(name) = line.strip_prefix(b"no memory for ") {
            return self.refuse_file(name);
        }
        if let Some(moments) = line.strip_prefix(b"clock ") {
            return self.add_moments(moments);
        }
        if let Some(setting) = setting_of(line) {
            return Ok(self.set(setting));
        }
        self.end_part(alloc)?;
        if let Some(name) = line.strip_prefix(b"case ") {
            self.begin_case(alloc, name)?;
        } else if let Some(name) = line.strip_prefix(b"text ") {
            self.target = Target::Text { name };
        } else if let Some(name) = line.strip_prefix(b"file ") {
            self.target = Target::File { name };
        } else if line == b"stream".as_slice() {
            self.target = Target::Stream {
                ends: false,
                is_unseen: false,
            };
        } else if line == b"stream that ends".as_slice() {
            self.target = Target::Stream {
                ends: true,
                is_unseen: false,
            };
        } else if line == b"stream that ends unseen".as_slice() {
            self.target = Target::Stream {
                ends: true,
                is_unseen: true,
            };
        } else {
            return Ok(false);
        }
        Ok(true)
    }

    /// Begins a case, and its standard input.
    fn begin_case(&mut self, alloc: Global, name: &'a [u8]) -> Result<(), AllocError> {
        self.cases.push(Case {
            name,
            program: Program::Rbg,
            shown: usize::MAX,
            news: false,
            made: None,
            logs: false,
            sent: false,
            words: Vec::new(alloc),
            files: Vec::new(alloc),
            lacking: Vec::new(alloc),
            streams: Vec::new(alloc),
            moments: Vec::new(alloc),
            input: Vec::new(alloc),
            after: After::End,
            output_fails: false,
        })?;
        self.target = Target::Input;
        Ok(())
    }

    /// Adds the bytes of the part that was read to its text or its case.
    fn end_part(&mut self, alloc: Global) -> Result<(), AllocError> {
        let bytes = mem::replace(&mut self.bytes, Vec::new(alloc));
        match (self.target, self.cases.last_mut()) {
            (Target::Text { name }, _) => self.texts.push(Text { name, bytes })?,
            (Target::Input, Some(case)) => case.input = bytes,
            (Target::File { name }, Some(case)) => case.files.push(Text { name, bytes })?,
            (Target::Stream { ends, is_unseen }, Some(case)) => case.streams.push(Stream {
                bytes,
                ends,
                is_unseen,
            })?,
            _ => {}
        }
        Ok(())
    }

    /// Applies a setting to the case. Returns false if there is no case.
    fn set(&mut self, setting: Setting) -> bool {
        let Some(case) = self.cases.last_mut() else {
            return false;
        };
        match setting {
            Setting::Author => case.program = Program::RbgAuthor,
            Setting::News => case.news = true,
            Setting::Logs => case.logs = true,
            Setting::Sent => case.sent = true,
            Setting::OutputFails => case.output_fails = true,
            Setting::After(after) => case.after = after,
            Setting::Last(count) => case.shown = count,
        }
        true
    }

    /// Sets that the file which the case makes by this name is shown.
    fn show_made(&mut self, alloc: Global, name: &[u8]) -> Result<bool, AllocError> {
        match (self.cases.last_mut(), str::from_utf8(name)) {
            (Some(case), Ok(name)) => {
                case.made = Some(name.to_string(alloc)?);
                Ok(true)
            }
            _ => Ok(false),
        }
    }

    /// Sets that there is no memory for the file of this name.
    fn refuse_file(&mut self, name: &'a [u8]) -> Result<bool, AllocError> {
        match self.cases.last_mut() {
            Some(case) => {
                case.lacking.push(name)?;
                Ok(true)
            }
            None => Ok(false),
        }
    }

    /// Sets the moments that the clocks of the case show. They have single spaces between them.
    fn add_moments(&mut self, moments: &[u8]) -> Result<bool, AllocError> {
        let Some(case) = self.cases.last_mut() else {
            return Ok(false);
        };
        for moment in moments.split(|byte| *byte == b' ') {
            match read_moment(moment) {
                Some(moment) => case.moments.push(moment)?,
                None => return Ok(false),
            }
        }
        Ok(true)
    }

    fn add_words(&mut self, alloc: Global, words: &[u8]) -> Result<bool, AllocError> {
        let Some(case) = self.cases.last_mut() else {
            return Ok(false);
        };
        let Ok(words) = str::from_utf8(words) else {
            return Ok(false);
        };
        for word in words.split(' ') {
            case.words.push(word.to_string(alloc)?)?;
        }
        Ok(true)
    }

    /// `<count> <text>`: adds the text that many times.
    fn add_repeated(&mut self, fields: &[u8]) -> Result<bool, AllocError> {
        let Some((count, text)) = cut_at_space(fields) else {
            return Ok(false);
        };
        let Some(count) = read_count(count) else {
            return Ok(false);
        };
        for _ in 0..count {
            self.bytes.extend_from_slice(text)?;
        }
        Ok(true)
    }

    /// Adds the bytes of a text.
    fn add_text(&mut self, name: &[u8]) -> Result<bool, AllocError> {
        match bytes_named(&self.texts, name) {
            Some(bytes) => {
                self.bytes.extend_from_slice(bytes)?;
                Ok(true)
            }
            None => Ok(false),
        }
    }

    /// Adds the bytes that hexadecimal digits spell.
    fn add_hex(&mut self, alloc: Global, digits: &[u8]) -> Result<bool, AllocError> {
        match hex::decode(alloc, digits) {
            Ok(bytes) => {
                self.bytes.extend_from_slice(bytes.as_slice())?;
                Ok(true)
            }
            Err(hex::FromHexError::OutOfMemory) => Err(AllocError),
            Err(_) => Ok(false),
        }
    }
}

/// The setting of a line, if it has one.
fn setting_of(line: &[u8]) -> Option<Setting> {
    if let Some(count) = line.strip_prefix(b"last ") {
        return Some(Setting::Last(read_count(count)?));
    }
    match str::from_utf8(line).unwrap_or("") {
        "author" => Some(Setting::Author),
        "news" => Some(Setting::News),
        "logs" => Some(Setting::Logs),
        "sent" => Some(Setting::Sent),
        "output fails" => Some(Setting::OutputFails),
        "input endless" => Some(Setting::After(After::Zeros)),
        "input fails" => Some(Setting::After(After::Failure)),
        _ => None,
    }
}

/// The parts before and after the first space.
fn cut_at_space(fields: &[u8]) -> Option<(&[u8], &[u8])> {
    for (index, byte) in fields.iter().enumerate() {
        if *byte == b' ' {
            return Some((fields.get(..index)?, fields.get(index.saturating_add(1)..)?));
        }
    }
    None
}

fn read_count(digits: &[u8]) -> Option<usize> {
    str::from_utf8(digits).ok()?.parse().ok()
}

fn read_moment(digits: &[u8]) -> Option<u64> {
    str::from_utf8(digits).ok()?.parse().ok()
}
