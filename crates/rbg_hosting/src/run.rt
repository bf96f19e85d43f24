//! Runs of a hall's commands, from the names of files.

use crate::Serving;
use crate::answer::answer_hall;
use crate::archive::open_archive;
use crate::fault::ServingFault;
use crate::going_on::{ResumedHall, resume_hall};
use crate::reading::{read_all, whole_texts};
use crate::serving::serve_hall;
use rbg_console::{Files, Input, MAX_INPUT, Status, read_input, write_text};
use rbg_network::Network;
use rbg_referee::{Answer, RefereeingError, answer_device, answer_fault, answer_script};
use std::alloc::{AllocError, Global};
use std::io::{Read, Write};

/// Lets a hall, whose tables have the games of the files, hear the script on standard input, and writes what its lines are
/// sent, or what is wrong.
pub fn run_hall_script<F: Files, R: Read, W: Write>(
    alloc: Global,
    names: &[&str],
    files: &mut F,
    input: &mut R,
    output: &mut W,
) -> Status {
    match answer_files(alloc, names, files, input) {
        Ok(answer) => write_text(output, answer.text.as_slice(), answer.status),
        Err(_) => write_text(output, b"memory\n", Status::Memory),
    }
}

/// The answer to what the files and standard input have.
fn answer_files<F: Files, R: Read>(
    alloc: Global,
    names: &[&str],
    files: &mut F,
    input: &mut R,
) -> Result<Answer, AllocError> {
    let Some(descriptions) = read_all(alloc, names, files)? else {
        return answer_device(alloc);
    };
    match read_input(alloc, input, MAX_INPUT)? {
        Input::Whole(script) => answer_read(alloc, descriptions, script.as_slice()),
        Input::TooLong => answer_script(alloc, 0),
        Input::Device => answer_device(alloc),
    }
}

/// The answer to descriptions, each None where it is too long, and a script.
fn answer_read(
    alloc: Global,
    descriptions: Vec<Option<Vec<u8>>>,
    script: &[u8],
) -> Result<Answer, AllocError> {
    match whole_texts(alloc, descriptions)? {
        Ok(texts) => answer_hall(alloc, texts.as_slice(), script),
        Err(error) => answer_fault(alloc, RefereeingError::from(error)),
    }
}

/// Plays a match of each file's game at once, between the players that connect to the port and join it, and gives the
/// records. Where one of them is to be kept in a file too, and can't be, the status says so.
pub fn serve_files<F: Files, N: Network>(
    alloc: Global,
    names: &[&str],
    files: &mut F,
    network: &mut N,
    serving: &Serving<'_>,
) -> Result<Answer, ServingFault> {
    let Some(descriptions) = read_all(alloc, names, files)? else {
        return Err(ServingFault::Device);
    };
    match whole_texts(alloc, descriptions)? {
        Ok(texts) => serve_texts(alloc, texts.as_slice(), files, network, serving),
        Err(error) => Err(ServingFault::from(error)),
    }
}

/// Plays a match of each description's game at once, with an archive if records are to be kept. Where the logs of a hall are
/// to go on, it is that one.
fn serve_texts<F: Files, N: Network>(
    alloc: Global,
    descriptions: &[Vec<u8>],
    files: &mut F,
    network: &mut N,
    serving: &Serving<'_>,
) -> Result<Answer, ServingFault> {
    let archive = open_archive(network, &serving.keeping)?;
    let (answer, _archive) = match serving.keeping.resume {
        Some(log) => {
            let resumed = ResumedHall {
                descriptions,
                log,
                serving: &*serving,
            };
            resume_hall(alloc, resumed, files, network, archive)
        }
        None => serve_hall(alloc, descriptions, network, serving, archive),
    };
    answer
}
