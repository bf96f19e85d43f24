//! A list of moves, and the script of the match that they are.

use rbg_base::number_of_decimal;
use rbg_questions::Session;
use rbg_record::{LineFault, Misfit};
use rbg_script::{ScriptConfig, write_config, write_message};
use rbg_wire::{after_text, cut_at, cut_number, read_pairs};
use std::alloc::{AllocError, Global};

/// The config of a match that takes no time.
const CONFIG: ScriptConfig = ScriptConfig {
    turn_ms: 3_600_000,
    refusals: 0,
    now: 0,
};

/// What comes of a line, or of one way to read it.
#[derive(Clone, Copy, PartialEq, Eq)]
enum Taken {
    /// The move is made, or the line has none.
    Whole,
    /// It is no move.
    Form,
    /// It is no legal move.
    Bad,
    /// A question is above the limits.
    Over,
}

/// A list of moves that are made one after the other.
#[derive(Drop)]
pub(crate) struct Listed {
    session: Session,
    /// The player who is to move, or 0.
    mover: u64,
    script: Vec<u8>,
    /// What is asked, what is said, and what is answered.
    question: Vec<u8>,
    said: Vec<u8>,
    answer: Vec<u8>,
}

impl Listed {
    /// A list before its first line.
    pub(crate) fn new(alloc: Global, session: Session) -> Result<Listed, AllocError> {
        let mut listed = Listed {
            session,
            mover: 0,
            script: Vec::new(alloc),
            question: Vec::new(alloc),
            said: Vec::new(alloc),
            answer: Vec::new(alloc),
        };
        write_config(CONFIG, &mut listed.script)?;
        listed.session.hear(b"place", &mut listed.answer)?;
        listed.mover = mover_of(&listed.answer);
        Ok(listed)
    }

    /// The script of the list, or the line that stops it.
    pub(crate) fn script(self, text: &[u8]) -> Result<Vec<u8>, Misfit> {
        let mut listed = self;
        let mut line = 1;
        let taken = listed.take_lines(text, &mut line)?;
        match fault_of(taken) {
            None => Ok(listed.script),
            Some(fault) => Err(Misfit { line, fault }),
        }
    }

    /// Makes the moves of the lines, up to one that can't be taken, whose number is given.
    fn take_lines(&mut self, text: &[u8], line: &mut usize) -> Result<Taken, AllocError> {
        let mut rest = text;
        for _ in 0..u64::MAX {
            let Some((front, later)) = cut_at(b'\n', rest) else {
                break;
            };
            let taken = self.take_line(front)?;
            if taken != Taken::Whole {
                return Ok(taken);
            }
            rest = later;
            *line = line.saturating_add(1);
        }
        self.take_line(rest)
    }

    /// Makes the move of a line: its pairs, perhaps after a player, or after a moment and a player. The first of the
    /// three that is legal is made. The keeper's moves come by themselves, so its lines are passed over; no other line can
    /// be meant by them, since no position is numbered 0.
    fn take_line(&mut self, line: &[u8]) -> Result<Taken, AllocError> {
        let line = line.strip_suffix(b"\r").unwrap_or(line);
        if line.is_empty() || line.starts_with(b"//") {
            return Ok(Taken::Whole);
        }
        let bare = self.take(None, line)?;
        if is_settled(bare) {
            return Ok(bare);
        }
        let after = self.take_after(line)?;
        if after == Taken::Form {
            Ok(bare)
        } else {
            Ok(after)
        }
    }

    /// Makes the move of a line that begins with a player, or with a moment and a player.
    fn take_after(&mut self, line: &[u8]) -> Result<Taken, AllocError> {
        let Some((first, after)) = cut_number(line) else {
            return Ok(Taken::Form);
        };
        let near = self.take(Some(first), after)?;
        if is_settled(near) {
            return Ok(near);
        }
        let Some((second, far)) = cut_number(after) else {
            return Ok(near);
        };
        let far = self.take(Some(second), far)?;
        if far == Taken::Form {
            Ok(near)
        } else {
            Ok(far)
        }
    }

    /// Makes the move of a text, if it is one of the player to move.
    fn take(&mut self, player: Option<u64>, text: &[u8]) -> Result<Taken, AllocError> {
        let pairs = after_text(b"M", text).unwrap_or(text);
        if read_pairs(pairs).is_err() {
            return Ok(Taken::Form);
        }
        match player {
            Some(0) => Ok(Taken::Whole),
            Some(player) if player != self.mover => Ok(Taken::Bad),
            _ => self.make(pairs),
        }
    }

    /// Makes the move of these pairs, and writes its line.
    fn make(&mut self, pairs: &[u8]) -> Result<Taken, AllocError> {
        put_words(b"make ", pairs, &mut self.question)?;
        self.answer.clear();
        self.session.hear(&self.question, &mut self.answer)?;
        if let Some(fault) = after_text(b"error ", &self.answer) {
            return taken_of(fault);
        }
        put_words(b"M", pairs, &mut self.said)?;
        write_message(self.mover, 0, &self.said, &mut self.script)?;
        self.mover = mover_of(&self.answer);
        Ok(Taken::Whole)
    }
}

/// What is wrong with a line of which this came.
fn fault_of(taken: Taken) -> Option<LineFault> {
    match taken {
        Taken::Whole => None,
        Taken::Form => Some(LineFault::Form),
        Taken::Bad => Some(LineFault::Bad),
        Taken::Over => Some(LineFault::Over),
    }
}

/// Whether no other way to read a line is looked at.
fn is_settled(taken: Taken) -> bool {
    match taken {
        Taken::Whole | Taken::Over => true,
        Taken::Form | Taken::Bad => false,
    }
}

/// What a refusal of the session is to a line.
fn taken_of(fault: &[u8]) -> Result<Taken, AllocError> {
    if fault.starts_with(b"memory") {
        Err(AllocError)
    } else if fault.starts_with(b"over") || fault.starts_with(b"keeper") {
        Ok(Taken::Over)
    } else {
        Ok(Taken::Bad)
    }
}

/// Puts a head and a text in place of what is there.
fn put_words(head: &[u8], text: &[u8], out: &mut Vec<u8>) -> Result<(), AllocError> {
    out.clear();
    out.extend_from_slice(head)?;
    out.extend_from_slice(text)
}

/// The player who is to move, as an answer names them, or 0.
fn mover_of(answer: &[u8]) -> u64 {
    match after_text(b"player ", answer) {
        Some(text) => match cut_at(b'\n', text) {
            Some((digits, _)) => number_of_decimal(digits).unwrap_or(0),
            None => 0,
        },
        None => 0,
    }
}
