//! Commands.

use crate::argument::{Argument, argument_of};
use clap::Command;
use std::alloc::{AllocError, Global};

/// A command: its name, what it does, an example, and its arguments.
#[derive(Clone, Copy)]
pub struct CommandWords {
    pub name: &'static str,
    pub about: &'static str,
    pub example: &'static str,
    pub arguments: &'static [Argument],
}

/// A program with these commands, in the order in which help lists them.
pub fn add_commands<'a>(
    alloc: Global,
    program: Command<'a>,
    commands: &[CommandWords],
) -> Result<Command<'a>, AllocError> {
    let mut command = program;
    for words in commands {
        let added = command_of(alloc, words)?;
        command = command.subcommand(added)?;
    }
    Ok(command)
}

/// The command of these words.
fn command_of<'a>(alloc: Global, words: &CommandWords) -> Result<Command<'a>, AllocError> {
    let mut command = Command::new(alloc, words.name)
        .about(words.about)
        .after_help(words.example);
    for argument in words.arguments {
        let argument = argument_of(alloc, *argument)?;
        command = command.arg(argument)?;
    }
    Ok(command)
}
