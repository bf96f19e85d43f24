//! The bench: a game's file, the game that it held last, and a session of questions about it.

use crate::answer::{HttpStatus, Reply};
use crate::page::{BODY, END, HEAD};
use crate::page_moves::MOVES_SCRIPT;
use crate::page_script::PLAY_SCRIPT;
use crate::reader::{Described, Reader, Reading};
use crate::request::{Method, Request};
use crate::server::Site;
use crate::text_record::record_of;
use rbg_base::number_of_decimal;
use rbg_console::{Files, Input};
use rbg_game::LoadedGame;
use rbg_macro::MAX_TEXT;
use rbg_questions::{Session, Unsettled};
use rbg_view::{BOARD_SCRIPT, BOARD_STYLE, push_game};
use rbg_wire::{after_text, cut_at, write_number};
use std::alloc::{AllocError, Global};

/// The most bytes of an answer.
const MAX_ANSWER: usize = 16_777_216;

/// A game's file, and what is played of it.
#[derive(Drop)]
pub(crate) struct Bench<'a, F: Files + Drop, R: Reader + Drop> {
    alloc: Global,
    files: F,
    reader: R,
    file: &'a str,
    /// The text of the file that was taken last, and whether the file held it when it was read last.
    text: Vec<u8>,
    is_taken: bool,
    /// Whether the file couldn't be read the last time.
    is_missing: bool,
    /// Whether this text was refused, and what is said of it.
    is_refused: bool,
    notes: Vec<u8>,
    /// The last game that the file held, as it is sent to the page; its text; and how many there were.
    shown: Vec<u8>,
    good: Vec<u8>,
    version: u64,
    session: Option<Session>,
    /// How many times a question was asked or a game was read.
    stamp: u64,
}

impl<'a, F: Files + Drop, R: Reader + Drop> Bench<'a, F, R> {
    /// The bench of a file, which is read. None where it can't be.
    pub fn new(
        alloc: Global,
        files: F,
        reader: R,
        file: &'a str,
    ) -> Result<Option<Bench<'a, F, R>>, AllocError> {
        let mut bench = Bench {
            alloc,
            files,
            reader,
            file,
            text: Vec::new(alloc),
            is_taken: false,
            is_missing: false,
            is_refused: true,
            notes: Vec::new(alloc),
            shown: Vec::new(alloc),
            good: Vec::new(alloc),
            version: 0,
            session: None,
            stamp: 0,
        };
        if bench.read_file()? {
            Ok(Some(bench))
        } else {
            Ok(None)
        }
    }

    /// Reads the file again. Returns whether it could be read.
    fn read_file(&mut self) -> Result<bool, AllocError> {
        let input = self.files.read_file(self.alloc, self.file, MAX_TEXT)?;
        self.is_missing = matches!(input, Input::Device);
        match input {
            Input::Whole(text) => self.take_text(text)?,
            Input::TooLong => self.refuse_long()?,
            Input::Device => {}
        }
        Ok(!self.is_missing)
    }

    /// Refuses what the file holds, since it is too long.
    fn refuse_long(&mut self) -> Result<(), AllocError> {
        self.notes = self.reader.refuse_long(self.alloc, self.file)?;
        self.is_refused = true;
        self.is_taken = false;
        Ok(())
    }

    /// Takes a text of the file, if it is another one.
    fn take_text(&mut self, text: Vec<u8>) -> Result<(), AllocError> {
        if self.is_taken && text.as_slice() == self.text.as_slice() {
            return Ok(());
        }
        self.stamp = self.stamp.saturating_add(1);
        let reading = self.reader.read(self.alloc, self.file, &text)?;
        self.text = text;
        self.is_taken = true;
        self.take_reading(reading)
    }

    fn take_reading(&mut self, reading: Reading) -> Result<(), AllocError> {
        match reading {
            Reading::Game { loaded, notes } => self.take_game(loaded, notes),
            Reading::Refused { notes } => {
                self.is_refused = true;
                self.notes = notes;
                Ok(())
            }
        }
    }

    /// Takes a game in place of the last one, if play of it begins.
    fn take_game(&mut self, loaded: LoadedGame, notes: Vec<u8>) -> Result<(), AllocError> {
        let version = self.version.saturating_add(1);
        let mut shown = Vec::new(self.alloc);
        push_game(&loaded, version, self.file, &self.text, &mut shown)?;
        match begin(self.alloc, loaded)? {
            Ok(session) => {
                self.good = self.text.clone()?;
                self.session = Some(session);
                self.shown = shown;
                self.version = version;
                self.is_refused = false;
                self.notes = notes;
            }
            Err(reason) => {
                self.is_refused = true;
                self.notes = reason.to_vec(self.alloc)?;
            }
        }
        Ok(())
    }

    /// Answers a request of this method for a path.
    fn answer_path(
        &mut self,
        request: &Request<'_>,
        text: &mut Vec<u8>,
    ) -> Result<Reply, AllocError> {
        match (request.method, path_of(request.path)) {
            (Method::Get, "/") => push_page(text),
            (Method::Get, "/state") => self.push_state(text),
            (Method::Get, "/game") => {
                text.extend_from_slice(&self.shown)?;
                Ok(Reply::plain(HttpStatus::Done))
            }
            (Method::Post, "/ask") => self.answer_questions(request, text),
            (Method::Post, "/record") => self.push_record(request.body, text),
            (Method::Post, "/position") => self.push_position(request.body, text),
            (_, "/" | "/state" | "/game" | "/ask" | "/record" | "/position") => {
                Ok(Reply::plain(HttpStatus::NoMethod))
            }
            _ => Ok(Reply::plain(HttpStatus::NotFound)),
        }
    }

    /// Appends the lines of how things stand, and what is said of the file.
    fn push_state(&self, text: &mut Vec<u8>) -> Result<Reply, AllocError> {
        push_count(b"version ", self.version, text)?;
        push_count(b"refused ", u64::from(self.is_refused), text)?;
        push_count(b"missing ", u64::from(self.is_missing), text)?;
        push_count(b"stamp ", self.stamp, text)?;
        push_count(b"made ", self.moves_made(), text)?;
        text.extend_from_slice(b"notes\n")?;
        text.extend_from_slice(&self.notes)?;
        Ok(Reply::plain(HttpStatus::Done))
    }

    fn moves_made(&self) -> u64 {
        match &self.session {
            Some(session) => session.moves_made() as u64,
            None => 0,
        }
    }

    /// Answers the lines of a request. Where it names the number of questions that it knows of, it is answered only if
    /// nothing was asked since.
    fn answer_questions(
        &mut self,
        request: &Request<'_>,
        text: &mut Vec<u8>,
    ) -> Result<Reply, AllocError> {
        if !is_after(request.path, self.stamp) {
            return Ok(Reply::plain(HttpStatus::Changed));
        }
        self.stamp = self.stamp.saturating_add(1);
        match &mut self.session {
            Some(session) => hear_lines(session, request.body, text),
            None => Ok(Reply::plain(HttpStatus::NotFound)),
        }
    }

    /// Appends the record of the match of a script.
    fn push_record(&self, script: &[u8], text: &mut Vec<u8>) -> Result<Reply, AllocError> {
        match record_of(self.alloc, &self.good, script)? {
            Some(record) => {
                text.extend_from_slice(&record)?;
                Ok(Reply::plain(HttpStatus::Done))
            }
            None => Ok(Reply::plain(HttpStatus::Malformed)),
        }
    }

    /// Appends the description of the place to which a script leads, or why there is none.
    fn push_position(&mut self, script: &[u8], text: &mut Vec<u8>) -> Result<Reply, AllocError> {
        match record_of(self.alloc, &self.good, script)? {
            Some(record) => self.push_described(&record, text),
            None => Ok(Reply::plain(HttpStatus::Malformed)),
        }
    }

    /// Appends the description of the place after the moves of a record, or why there is none.
    fn push_described(&mut self, record: &[u8], text: &mut Vec<u8>) -> Result<Reply, AllocError> {
        match self
            .reader
            .describe(self.alloc, self.file, &self.good, record)?
        {
            Described::Text(described) => {
                text.extend_from_slice(&described)?;
                Ok(Reply::plain(HttpStatus::Done))
            }
            Described::Nothing { reason } => {
                text.extend_from_slice(&reason)?;
                Ok(Reply::plain(HttpStatus::NotFound))
            }
        }
    }
}

impl<F: Files + Drop, R: Reader + Drop> Site for Bench<'_, F, R> {
    fn answer(&mut self, request: &Request<'_>, text: &mut Vec<u8>) -> Result<Reply, AllocError> {
        self.answer_path(request, text)
    }

    fn look_around(&mut self) {
        // (where the file can't be read now, or there is no memory, it is read again)
        let _read = self.read_file();
    }
}

/// A session at the beginning of play, or why there is none.
fn begin(alloc: Global, loaded: LoadedGame) -> Result<Result<Session, &'static [u8]>, AllocError> {
    match Session::new(alloc, loaded.game) {
        Ok(session) => Ok(Ok(session)),
        Err(Unsettled::Memory) => Err(AllocError),
        Err(Unsettled::Heavy) => Ok(Err(b"play can't begin: a question is above the limits\n")),
        Err(Unsettled::Endless) => Ok(Err(b"play can't begin: the keeper makes 1,000 moves\n")),
    }
}

/// The path without what stands after a `?`.
fn path_of(path: &str) -> &str {
    match path.split_once('?') {
        Some((front, _)) => front,
        None => path,
    }
}

/// Whether a path names this stamp, or none.
fn is_after(path: &str, stamp: u64) -> bool {
    match after_text(b"/ask?after=", path.as_bytes()) {
        Some(digits) => number_of_decimal(digits) == Some(stamp),
        None => true,
    }
}

/// Appends the page.
fn push_page(text: &mut Vec<u8>) -> Result<Reply, AllocError> {
    for part in [
        HEAD,
        BOARD_STYLE,
        BODY,
        BOARD_SCRIPT,
        MOVES_SCRIPT,
        PLAY_SCRIPT,
        END,
    ] {
        text.extend_from_slice(part)?;
    }
    Ok(Reply::page())
}

/// Hears each line, and appends the answers.
fn hear_lines(
    session: &mut Session,
    lines: &[u8],
    text: &mut Vec<u8>,
) -> Result<Reply, AllocError> {
    let mut rest = lines;
    for _ in 0..u64::MAX {
        let Some((line, later)) = cut_at(b'\n', rest) else {
            break;
        };
        if text.len() > MAX_ANSWER {
            return Ok(Reply::plain(HttpStatus::TooLong));
        }
        session.hear(line, text)?;
        rest = later;
    }
    if !rest.is_empty() {
        session.hear(rest, text)?;
    }
    Ok(Reply::plain(HttpStatus::Done))
}

/// Appends a word and a number as a line.
fn push_count(word: &[u8], number: u64, out: &mut Vec<u8>) -> Result<(), AllocError> {
    out.extend_from_slice(word)?;
    write_number(number, out)?;
    out.extend_from_slice(b"\n")
}
