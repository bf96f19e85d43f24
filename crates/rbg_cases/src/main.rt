//! Runs the programs `rbg` and `rbg_author` on many cases and prints what each of them prints, and its status.
//!
//! Standard input is a list of cases, read line by line:
//!
//! | Line | Meaning |
//! |---|---|
//! | `case NAME` | a case begins; what follows is its standard input |
//! | `words WORD ..` | the words of the case's command line, with single spaces between them |
//! | `author` | the case runs `rbg_author`, else it runs `rbg` |
//! | `news` | what the case tells on standard error is shown too, each line after `news: ` |
//! | `logs` | what the logs of the case hold is shown too, each line after `log: `, with their game files and the records that are kept, after `game: ` and the record's name, and the names of those that are lost, after `lost: `; a new log is full at 1,000 bytes, and a record where there is a file of its name and `.full` |
//! | `sent` | what each connection of the case was sent is shown too, each line after `sent NUMBER: `; a zero byte, which ends a line too, is shown as `\0` |
//! | `clock MOMENT ..` | each clock of the case tells these moments, with single spaces between them, and then the last one again and again; without this line it tells 0 |
//! | `last COUNT` | of what the case prints only this many lines are shown, the last ones |
//! | `input endless` | after its bytes the case's standard input gives zero bytes without end |
//! | `input fails` | after its bytes the case's standard input fails |
//! | `output fails` | what the case prints can't be written |
//! | `made NAME` | the bytes of a file that the case has made are shown too, after a line `made NAME` |
//! | `file NAME` | a file of the case begins; what follows is its bytes. Where there is one NAME.held, another process holds the log NAME |
//! | `no memory for NAME` | where the case reads this file, memory is refused |
//! | `stream` | what comes over a connection of the case begins; what follows is its bytes, and then nothing comes |
//! | `stream that ends` | the same, but after its bytes the stream ends |
//! | `stream that ends unseen` | the same, but only who reads it sees that |
//! | `text NAME` | a text begins, which later lines can use; what follows is its bytes |
//! | `\|TEXT` | adds the text and a line feed |
//! | `+TEXT` | adds the text |
//! | `*COUNT TEXT` | adds the text that many times |
//! | `=NAME` | adds the bytes of a text that stands before |
//! | `%HEX` | adds these bytes |
//! | `;TEXT`, or nothing | nothing |
//!
//! A file that a case has made is there for the cases after it.
//!
//! For each case a line `case NAME` is printed, then what the program prints, what it tells, the file that it has made, and
//! `status STATUS`. Where a line is not of this form, `cases LINE` is printed, and no case is run.
#![tactic(auto)]

mod cases;
mod network;
mod streams;

use crate::cases::{Case, CasesError, Program, Text, bytes_named, read_cases};
use crate::network::{MemoryNetwork, push_lines};
use crate::streams::{CaseInput, CaseOutput};
use rbg_cli::Devices;
use rbg_console::{Files, Input, MAX_INPUT, MemoryFiles, Note, Status, read_bytes, read_input};
use std::alloc::{AllocError, Global};
use std::io::{self, ErrorKind, Write};
use std::process::ExitCode;

/// The files of a case, and those that it and the cases before it have made.
#[derive(Drop)]
struct CaseFiles<'a> {
    alloc: Global,
    files: &'a [Text<'a>],
    /// The files for which there is no memory.
    lacking: &'a [&'a [u8]],
    made: &'a mut MemoryFiles,
    /// What was told, each line after `news: `.
    told: Vec<u8>,
}

impl CaseFiles<'_> {
    /// The bytes of a file.
    fn bytes_of(&self, name: &str) -> Option<&[u8]> {
        match bytes_named(self.files, name.as_bytes()) {
            Some(bytes) => Some(bytes),
            None => self.made.bytes_of(name),
        }
    }

    /// Whether there is no memory for a file.
    fn lacks_memory(&self, name: &str) -> bool {
        for lacking in self.lacking {
            if *lacking == name.as_bytes() {
                return true;
            }
        }
        false
    }
}

impl Files for CaseFiles<'_> {
    type NewFile = Vec<u8>;

    fn read_file(&mut self, alloc: Global, name: &str, limit: usize) -> Result<Input, AllocError> {
        if self.lacks_memory(name) {
            return Err(AllocError);
        }
        match self.bytes_of(name) {
            Some(bytes) => read_bytes(alloc, bytes, limit),
            None => Ok(Input::Device),
        }
    }

    fn create_file(&mut self, alloc: Global, name: &str) -> io::Result<Vec<u8>> {
        match self.bytes_of(name) {
            Some(_) => Err(io::Error::from(ErrorKind::AlreadyExists)),
            None => Ok(Vec::new(alloc)),
        }
    }

    fn close_file(&mut self, alloc: Global, name: &str, file: Vec<u8>) -> io::Result<()> {
        self.made.close_file(alloc, name, file)
    }

    fn tell(&mut self, note: &Note<'_>) {
        let mut text = Vec::new(self.alloc);
        let _written = writeln!(&mut text, "{note}");
        let _lines = push_lines(b"news: ", &text, &mut self.told);
    }
}

/// The last lines of a text, at most `count` of them.
fn last_lines(text: &[u8], count: usize) -> &[u8] {
    let mut left = count;
    for (index, byte) in text.iter().enumerate().rev() {
        if *byte == b'\n' {
            if left == 0 {
                return text.get(index.saturating_add(1)..).unwrap_or(&[]);
            }
            left -= 1;
        }
    }
    text
}

/// What comes over a case's standard input.
fn input_of<'a>(case: &'a Case<'_>) -> CaseInput<'a> {
    CaseInput {
        bytes: case.input.as_slice(),
        after: case.after,
    }
}

/// What takes a case's standard output.
fn output_of(alloc: Global, case: &Case<'_>) -> CaseOutput {
    CaseOutput {
        printed: Vec::new(alloc),
        fails: case.output_fails,
    }
}

/// Adds what is to be shown of a case's network.
fn add_told(
    case: &Case<'_>,
    network: &MemoryNetwork<'_>,
    told: &mut Vec<u8>,
) -> Result<(), AllocError> {
    if case.news {
        told.extend_from_slice(network.told())?;
    }
    if case.logs {
        network.add_logs(told)?;
    }
    if case.sent {
        network.add_sent(told)?;
    }
    Ok(())
}

/// Runs the case's program, and adds what is shown of it. Returns its status.
fn run_program(
    alloc: Global,
    case: &Case<'_>,
    made: &mut MemoryFiles,
    shown: &mut Vec<u8>,
) -> Result<Status, AllocError> {
    let files = CaseFiles {
        alloc,
        files: case.files.as_slice(),
        lacking: case.lacking.as_slice(),
        made,
        told: Vec::new(alloc),
    };
    match case.program {
        Program::Rbg => run_rbg(alloc, case, files, shown),
        Program::RbgAuthor => run_author(alloc, case, files, shown),
    }
}

/// Runs `rbg` on a network in memory. Returns its status.
fn run_rbg(
    alloc: Global,
    case: &Case<'_>,
    files: CaseFiles<'_>,
    shown: &mut Vec<u8>,
) -> Result<Status, AllocError> {
    let network = MemoryNetwork::new(
        alloc,
        case.streams.as_slice(),
        case.files.as_slice(),
        case.moments.as_slice(),
    );
    let mut devices = Devices {
        files,
        network,
        input: input_of(case),
        output: output_of(alloc, case),
    };
    run_on(alloc, case, &mut devices, shown)
}

/// Runs `rbg` on these devices. Returns its status.
fn run_on(
    alloc: Global,
    case: &Case<'_>,
    devices: &mut Devices<CaseFiles<'_>, MemoryNetwork<'_>, CaseInput<'_>, CaseOutput>,
    shown: &mut Vec<u8>,
) -> Result<Status, AllocError> {
    let status = rbg_cli::run(alloc, case.words.as_slice(), devices);
    shown.extend_from_slice(last_lines(devices.output.printed.as_slice(), case.shown))?;
    add_told(case, &devices.network, shown)?;
    add_news(case, &devices.files, shown)?;
    Ok(status)
}

/// Runs `rbg_author`. Returns its status.
fn run_author(
    alloc: Global,
    case: &Case<'_>,
    files: CaseFiles<'_>,
    shown: &mut Vec<u8>,
) -> Result<Status, AllocError> {
    let mut files = files;
    let mut input = input_of(case);
    let mut output = output_of(alloc, case);
    let words = case.words.as_slice();
    let status = rbg_author::run(alloc, words, &mut files, &mut input, &mut output);
    shown.extend_from_slice(last_lines(output.printed.as_slice(), case.shown))?;
    add_news(case, &files, shown)?;
    Ok(status)
}

/// Adds what the files of a case were told, if it is to be shown.
fn add_news(case: &Case<'_>, files: &CaseFiles<'_>, told: &mut Vec<u8>) -> Result<(), AllocError> {
    if case.news {
        told.extend_from_slice(files.told.as_slice())?;
    }
    Ok(())
}

/// Adds the bytes of a file that was made, if there is one of this name.
fn push_made(name: &str, made: &MemoryFiles, output: &mut Vec<u8>) -> Result<(), AllocError> {
    if let Some(bytes) = made.bytes_of(name) {
        output.extend_from_slice(b"made ")?;
        output.extend_from_slice(name.as_bytes())?;
        output.push(b'\n')?;
        output.extend_from_slice(bytes)?;
    }
    Ok(())
}

/// Runs a case and adds its lines to the output.
fn run_case(
    alloc: Global,
    case: &Case<'_>,
    made: &mut MemoryFiles,
    output: &mut Vec<u8>,
) -> Result<(), AllocError> {
    output.extend_from_slice(b"case ")?;
    output.extend_from_slice(case.name)?;
    output.push(b'\n')?;
    let status = run_program(alloc, case, made, output)?;
    if let Some(name) = &case.made {
        push_made(name.as_str(), made, output)?;
    }
    let status = status.code();
    let line = format!(in alloc; "status {status}\n")?;
    output.extend_from_slice(line.as_bytes())
}

/// Runs the cases that standard input lists, and gives their lines.
fn run_cases(alloc: Global, bytes: &[u8]) -> Result<Vec<u8>, CasesError> {
    let cases = read_cases(alloc, bytes)?;
    let mut made = MemoryFiles::new(alloc);
    let mut output = Vec::new(alloc);
    for case in &cases {
        run_case(alloc, case, &mut made, &mut output)?;
    }
    Ok(output)
}

/// Writes the lines of the cases, or why there are none, and says whether all went well.
fn write_cases<W: Write>(output: &mut W, lines: &Result<Vec<u8>, CasesError>) -> io::Result<bool> {
    match lines {
        Ok(lines) => output.write_all(lines.as_slice())?,
        Err(error) => writeln!(output, "{error}")?,
    }
    output.flush()?;
    Ok(lines.is_ok())
}

fn main(rt: HostRuntime) -> ExitCode {
    let lines = match read_input(rt.alloc(), &mut rt.stdin(), MAX_INPUT) {
        Ok(Input::Whole(bytes)) => run_cases(rt.alloc(), bytes.as_slice()),
        Ok(_) => Err(CasesError::Line(0)),
        Err(error) => Err(CasesError::Memory(error)),
    };
    match write_cases(&mut io::writer(&rt), &lines) {
        Ok(true) => ExitCode::SUCCESS,
        _ => ExitCode::FAILURE,
    }
}
