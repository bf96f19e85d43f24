//! What a run of the program works on.

use crate::fault::{Fault, write_fault};
use crate::output::KeptOutput;
use rbg_console::{Files, Note, Status, meaning_of, write_text};
use rbg_network::{Network, News};
use rbg_referee::Answer;
use std::io::Write;

/// The named files of a run, its connections, its standard input and its standard output.
#[derive(Drop)]
pub struct Devices<F, N, R, W> {
    pub files: F,
    pub network: N,
    pub input: R,
    pub output: W,
}

impl<F: Files, N: Network, R, W: Write> Devices<F, N, R, W> {
    /// Writes the answer or the fault's line and returns the status, or `Status::Device` if the output fails. Then it is
    /// told that this could not be written, and why; or else what the fault's line means, if it doesn't say it itself.
    pub(crate) fn report(&mut self, what: &str, outcome: &Result<Answer, Fault>) -> Status {
        let mut kept = KeptOutput::new(&mut self.output);
        let status = match outcome {
            Ok(answer) => write_text(&mut kept, answer.text.as_slice(), answer.status),
            Err(fault) => match write_fault(&mut kept, fault) {
                Ok(()) => fault.status(),
                Err(_) => Status::Device,
            },
        };
        if let Some(error) = kept.error() {
            self.network.tell(&News::Unwritten { what, error });
        } else if let Err(fault) = outcome {
            tell_fault(&mut self.files, fault);
        }
        status
    }

    /// The same of lines that are the answer of a command that is done when they are printed.
    pub(crate) fn report_lines(&mut self, what: &str, lines: Result<Vec<u8>, Fault>) -> Status {
        self.report(what, &done(lines))
    }
}

/// The answer of a command that is done when this is printed.
fn done(lines: Result<Vec<u8>, Fault>) -> Result<Answer, Fault> {
    Ok(Answer {
        text: lines?,
        status: Status::Success,
    })
}

/// Tells what the line of a fault means, if it doesn't say it itself.
fn tell_fault<F: Files>(files: &mut F, fault: &Fault) {
    let line: &[u8] = match fault {
        Fault::Refused(_) => b"refused ",
        Fault::Script(_) => b"script ",
        _ => return,
    };
    if let Some(text) = meaning_of(line) {
        files.tell(&Note::Words { text });
    }
}
