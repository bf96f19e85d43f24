//! A session with an editor, over a reader and a writer.

use crate::frames::{FramingError, Inbox, Taken};
use crate::judge::Judge;
use crate::server::{Phase, Server};
use std::alloc::{AllocError, Global};
use std::io::{ErrorKind, Read, Write};

/// How many bytes one read asks for.
const CHUNK: usize = 65_536;

/// How a session with an editor ended.
#[derive(Clone, Copy, Debug, PartialEq, Eq)]
pub enum End {
    /// The editor asked for it, after a shutdown or without one.
    Asked { was_shut_down: bool },
    /// The input ended before that.
    Closed,
    /// The input isn't made of messages.
    Broken(FramingError),
    /// The input or the output failed.
    Device,
}

/// Answers the messages of an editor until it asks for the end.
pub fn serve<R: Read, W: Write, J: Judge>(
    alloc: Global,
    judge: &J,
    input: &mut R,
    output: &mut W,
) -> Result<End, AllocError> {
    let mut room = vec![in alloc; 0u8; CHUNK]?;
    let mut inbox = Inbox::new(alloc);
    let mut server = Server::new(alloc);
    for _ in 0..u64::MAX {
        match input.read(room.as_mut_slice()) {
            Ok(0) => return Ok(End::Closed),
            Ok(count) => {
                inbox.add(room.as_slice().get(..count).unwrap_or(&[]))?;
                if let Some(end) = hear_all(alloc, judge, &mut inbox, &mut server, output)? {
                    return Ok(end);
                }
            }
            Err(error) => {
                if error.kind() != ErrorKind::Interrupted {
                    return Ok(End::Device);
                }
            }
        }
    }
    Ok(End::Closed)
}

/// Answers the messages that have come whole. Returns how the session ended, or None if it hasn't ended.
fn hear_all<W: Write, J: Judge>(
    alloc: Global,
    judge: &J,
    inbox: &mut Inbox,
    server: &mut Server,
    output: &mut W,
) -> Result<Option<End>, AllocError> {
    for _ in 0..u64::MAX {
        match inbox.take()? {
            Taken::Nothing => return Ok(None),
            Taken::Broken(error) => return Ok(Some(End::Broken(error))),
            Taken::Body(body) => {
                if let Some(end) = hear_one(alloc, judge, &body, server, output)? {
                    return Ok(Some(end));
                }
            }
        }
    }
    Ok(None)
}

/// Answers a message. Returns how the session ended, or None if it hasn't ended.
fn hear_one<W: Write, J: Judge>(
    alloc: Global,
    judge: &J,
    body: &[u8],
    server: &mut Server,
    output: &mut W,
) -> Result<Option<End>, AllocError> {
    let mut answers = Vec::new(alloc);
    server.hear(judge, body, &mut answers)?;
    if output.write_all(&answers).is_err() || output.flush().is_err() {
        return Ok(Some(End::Device));
    }
    match server.phase() {
        Phase::Ended { was_shut_down } => Ok(Some(End::Asked { was_shut_down })),
        _ => Ok(None),
    }
}
