//! The command `ask`: questions on standard input, each of which is answered before more is read.

use crate::devices::Devices;
use crate::fault::Fault;
use crate::inputs::read_description;
use rbg_console::{Files, Status};
use rbg_game::load;
use rbg_network::Network;
use rbg_questions::{MAX_LINE, Session, Unsettled};
use std::alloc::{AllocError, Global};
use std::io::{ErrorKind, Read, Write};

/// How many bytes are asked for at once.
const CHUNK: usize = 16384;

/// Answers of more bytes than this are written before more questions are answered.
const MANY: usize = 65536;

/// What a part of the input leaves to do.
#[derive(Clone, Copy, PartialEq, Eq)]
enum Next {
    /// To read on.
    Read,
    /// To end the session.
    End,
}

/// Answers the questions about the game that the file describes.
pub fn run_ask<F: Files, N: Network, R: Read, W: Write>(
    alloc: Global,
    file: &str,
    devices: &mut Devices<F, N, R, W>,
) -> Status {
    let rest = ask_file(alloc, file, devices);
    devices.report_lines("the answer", rest)
}

/// Answers the questions about the game that the file describes. The answers are written as they are known. What is
/// returned is to be written after them.
fn ask_file<F: Files, N, R: Read, W: Write>(
    alloc: Global,
    file: &str,
    devices: &mut Devices<F, N, R, W>,
) -> Result<Vec<u8>, Fault> {
    let text = read_description(alloc, &mut devices.files, file)?;
    let game = load(alloc, text.as_slice())?;
    match Session::new(alloc, game) {
        Ok(mut session) => {
            answer_all(alloc, &mut session, &mut devices.input, &mut devices.output)
        }
        Err(Unsettled::Memory) => Err(Fault::Memory(AllocError)),
        Err(_) => Ok(over(alloc)?),
    }
}

/// The line where no player is to move at the beginning, since a question is above the limits or the keeper's moves
/// don't end.
fn over(alloc: Global) -> Result<Vec<u8>, AllocError> {
    let mut line = Vec::new(alloc);
    line.extend_from_slice(b"over\n")?;
    Ok(line)
}

/// Answers the questions of the whole input. The answers to questions that came together are written together.
fn answer_all<R: Read, W: Write>(
    alloc: Global,
    session: &mut Session,
    input: &mut R,
    output: &mut W,
) -> Result<Vec<u8>, Fault> {
    let mut chunk = vec![in alloc; 0u8; CHUNK]?;
    let mut line = Vec::with_capacity(alloc, MAX_LINE + 1)?;
    let mut answers = Vec::new(alloc);
    for _ in 0..u64::MAX {
        let count = match input.read(chunk.as_mut_slice()) {
            Ok(count) => count,
            Err(fault) => {
                if fault.kind() == ErrorKind::Interrupted {
                    continue;
                }
                return Err(Fault::Device);
            }
        };
        if count == 0 {
            break;
        }
        let next = hear_piece(session, &mut line, &chunk[..count], &mut answers, output)?;
        write_answers(&mut answers, output)?;
        if next == Next::End {
            return Ok(Vec::new(alloc));
        }
    }
    // the last line may lack its line feed
    if !line.is_empty() {
        hear_line(session, line.as_slice(), &mut answers, output)?;
        write_answers(&mut answers, output)?;
    }
    Ok(Vec::new(alloc))
}

/// Hears a piece of the input: the end of a line, whole lines, and the beginning of a line, which is kept. Of a line that
/// is too long only so much is kept that it is still too long.
fn hear_piece<W: Write>(
    session: &mut Session,
    line: &mut Vec<u8>,
    piece: &[u8],
    answers: &mut Vec<u8>,
    output: &mut W,
) -> Result<Next, Fault> {
    for byte in piece {
        if *byte == b'\n' {
            let next = hear_line(session, line.as_slice(), answers, output)?;
            if next == Next::End {
                return Ok(next);
            }
            line.clear();
        } else if line.len() <= MAX_LINE {
            line.push(*byte)?;
        }
    }
    Ok(Next::Read)
}

/// Hears a line, and adds its answer to those that are to be written. These are written at once if they are many, or if
/// there is no memory for one more.
fn hear_line<W: Write>(
    session: &mut Session,
    line: &[u8],
    answers: &mut Vec<u8>,
    output: &mut W,
) -> Result<Next, Fault> {
    if line == b"quit".as_slice() {
        return Ok(Next::End);
    }
    if let Err(AllocError) = session.hear(line, answers) {
        write_answers(answers, output)?;
        output.write_all(b"error memory\n")?;
    }
    if answers.len() > MANY {
        write_answers(answers, output)?;
    }
    Ok(Next::Read)
}

/// Writes the answers, of which none is left then.
fn write_answers<W: Write>(answers: &mut Vec<u8>, output: &mut W) -> Result<(), Fault> {
    output.write_all(answers.as_slice())?;
    answers.clear();
    output.flush()?;
    Ok(())
}
