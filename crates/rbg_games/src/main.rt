//! Checks the games that come with the program, counts their moves, follows a whole match of each and referees it.
//!
//! Standard input has two words a line: the file of a game, and a depth, the file of a match, or `forms`. For a depth the
//! file's name is printed, then what `rbg check` prints of it, and then what `rbg_author perft` prints up to that depth.
//! For a match the name of its file is printed, and then what `rbg_author show --last` prints of a list of moves, or what
//! `rbg referee` prints of a script. For `forms` the file's name is printed, and then at how many positions both forms of
//! the automaton of its rules give the same answers, or `the forms differ`. A game's file may also be that of another
//! board for it (`GameFiles`).
#![tactic(auto)]

mod boards;
mod forms;

use boards::GameFiles;
use forms::forms_agree;
use rbg_cli::{Devices, SystemNetwork};
use rbg_console::{Files, Input, MAX_INPUT, Status, SystemFiles, read_input};
use rbg_game::load;
use std::alloc::{AllocError, Global};
use std::io::{self, Write};
use std::process::ExitCode;

/// The texts as words.
fn words_of(alloc: Global, texts: &[&str]) -> Result<Vec<String>, AllocError> {
    let mut words = Vec::new(alloc);
    for text in texts {
        words.push(String::from_str(alloc, text)?)?;
    }
    Ok(words)
}

/// A program.
#[derive(Clone, Copy)]
enum Program {
    Rbg,
    RbgAuthor,
}

/// Runs a program with these words and this input. Returns whether all went well.
fn run(
    rt: &HostRuntime,
    program: Program,
    texts: &[&str],
    input: &[u8],
    output: &mut Vec<u8>,
) -> Result<bool, AllocError> {
    let words = words_of(rt.alloc(), texts)?;
    let mut files = GameFiles::new(rt);
    let mut input = input;
    let status = match program {
        Program::Rbg => {
            let mut devices = Devices {
                files,
                network: SystemNetwork::new(rt),
                input,
                output,
            };
            rbg_cli::run(rt.alloc(), words.as_slice(), &mut devices)
        }
        Program::RbgAuthor => {
            rbg_author::run(rt.alloc(), words.as_slice(), &mut files, &mut input, output)
        }
    };
    Ok(status == Status::Success)
}

/// Checks the game, and counts its moves up to the depth. Returns whether all went well.
fn check_and_count(
    rt: &HostRuntime,
    name: &str,
    depth: &str,
    output: &mut Vec<u8>,
) -> Result<bool, AllocError> {
    let is_game = run(rt, Program::Rbg, &["check", name], &[], output)?;
    Ok(is_game && run(rt, Program::RbgAuthor, &["perft", name, depth], &[], output)?)
}

/// Follows the match that a file has. Returns whether all went well.
fn follow_match(
    rt: &HostRuntime,
    name: &str,
    file: &str,
    output: &mut Vec<u8>,
) -> Result<bool, AllocError> {
    let Input::Whole(lines) = SystemFiles::new(rt).read_file(rt.alloc(), file, MAX_INPUT)? else {
        return Ok(false);
    };
    let lines = lines.as_slice();
    if file.ends_with(".script") {
        run(rt, Program::Rbg, &["referee", name], lines, output)
    } else {
        run(
            rt,
            Program::RbgAuthor,
            &["show", "--last", name],
            lines,
            output,
        )
    }
}

/// Compares both forms of the automaton of the game. Returns whether they give the same answers.
fn compare_forms(rt: &HostRuntime, name: &str, output: &mut Vec<u8>) -> Result<bool, AllocError> {
    let Input::Whole(text) = GameFiles::new(rt).read_file(rt.alloc(), name, MAX_INPUT)? else {
        return Ok(false);
    };
    let Ok(game) = load(rt.alloc(), text.as_slice()) else {
        return Ok(false);
    };
    let agree = forms_agree(rt.alloc(), &game)?;
    if agree {
        let positions = game.positions();
        let line = format!(in rt.alloc(); "the forms agree at {positions} positions\n")?;
        output.extend_from_slice(line.as_bytes())?;
    } else {
        output.extend_from_slice(b"the forms differ\n")?;
    }
    Ok(agree)
}

/// Does the task of a line. Returns whether all went well.
fn do_line(rt: &HostRuntime, line: &[u8], output: &mut Vec<u8>) -> Result<bool, AllocError> {
    let Ok(line) = str::from_utf8(line) else {
        return Ok(false);
    };
    let Some((name, task)) = line.split_once(' ') else {
        return Ok(false);
    };
    let is_match = task.ends_with(".moves") || task.ends_with(".script");
    let printed = if is_match { task } else { name };
    output.extend_from_slice(printed.as_bytes())?;
    output.push(b'\n')?;
    if is_match {
        follow_match(rt, name, task, output)
    } else if task == "forms" {
        compare_forms(rt, name, output)
    } else {
        check_and_count(rt, name, task, output)
    }
}

/// Does the tasks of the lines. Returns whether all went well.
fn do_lines(rt: &HostRuntime, lines: &[u8], output: &mut Vec<u8>) -> Result<bool, AllocError> {
    let mut went_well = true;
    for line in lines.split(|byte| *byte == b'\n') {
        if !line.is_empty() && !do_line(rt, line, output)? {
            went_well = false;
        }
    }
    Ok(went_well)
}

/// Writes what was found. Returns whether all went well.
fn write_all<W: Write>(output: &mut W, lines: &[u8], went_well: bool) -> bool {
    let written = output.write_all(lines).is_ok() && output.flush().is_ok();
    written && went_well
}

fn main(rt: HostRuntime) -> ExitCode {
    let mut output = Vec::new(rt.alloc());
    let went_well = match read_input(rt.alloc(), &mut rt.stdin(), MAX_INPUT) {
        Ok(Input::Whole(lines)) => do_lines(&rt, lines.as_slice(), &mut output).unwrap_or(false),
        _ => false,
    };
    if write_all(&mut io::writer(&rt), output.as_slice(), went_well) {
        ExitCode::SUCCESS
    } else {
        ExitCode::FAILURE
    }
}
