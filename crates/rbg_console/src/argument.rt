//! Arguments of a command.

use clap::{Arg, ArgAction};
use std::alloc::{AllocError, Global};

/// An argument of a command.
#[derive(Clone, Copy)]
pub struct Argument {
    pub name: &'static str,
    pub kind: Kind,
    pub value: Value,
    pub help: &'static str,
}

/// What an argument is.
#[derive(Clone, Copy)]
pub enum Kind {
    /// A word that is required.
    Needed,
    /// A word that may be left out.
    Free,
    /// From 1 to 16 words.
    Several,
    /// An option without a value, and the option with which it may not be combined.
    Flag(Option<&'static str>),
    /// An option with a value of this name, and the option with which it may not be combined.
    Named(&'static str, Option<&'static str>),
    /// An option that is required, with a value of this name.
    NeededNamed(&'static str),
}

/// What the value of an argument may be.
#[derive(Clone, Copy)]
pub enum Value {
    /// Any text. A flag, which has no value, also has this.
    Text,
    /// A port, which is read as a `u16`.
    Port,
    /// A number within these bounds, which is read as a `u8`.
    Byte(u8, u8),
    /// A number within these bounds, which is read as a `u32`.
    Small(u32, u32),
    /// A number within these bounds, which is read as a `u64`.
    Number(u32, u32),
    /// A number that is read as a `u64`.
    AnyNumber,
}

/// The file of a game.
pub const GAME: Argument = Argument {
    name: "FILE",
    kind: Kind::Needed,
    value: Value::Text,
    help: "The description of a game",
};

/// The file of a record.
pub const RECORD: Argument = Argument {
    name: "RECORD",
    kind: Kind::Needed,
    value: Value::Text,
    help: "The record of a match",
};

/// The argument for clap.
pub(crate) fn argument_of<'a>(alloc: Global, told: Argument) -> Result<Arg<'a>, AllocError> {
    let argument = with_value(Arg::new(alloc, told.name).help(told.help), told.value);
    match told.kind {
        Kind::Needed => Ok(argument.required(true)),
        Kind::Free => Ok(argument),
        Kind::Several => Ok(argument.required(true).num_args(1..=16)),
        Kind::Flag(other) => apart(argument.long(told.name).action(ArgAction::SetTrue), other),
        Kind::Named(value, other) => apart(argument.long(told.name).value_name(value), other),
        Kind::NeededNamed(value) => Ok(argument.long(told.name).value_name(value).required(true)),
    }
}

/// An option that may not be combined with the other one.
fn apart<'a>(option: Arg<'a>, other: Option<&'static str>) -> Result<Arg<'a>, AllocError> {
    match other {
        Some(other) => option.conflicts_with(other),
        None => Ok(option),
    }
}

/// An argument with a value.
fn with_value<'a>(argument: Arg<'a>, value: Value) -> Arg<'a> {
    match value {
        Value::Text => argument,
        Value::Port => argument.value_parser(clap::value_parser!(u16).range(1..)),
        Value::Byte(least, most) => argument.value_parser(clap::value_parser!(u8).range(
            i64::from(least)..=i64::from(most),
        )),
        Value::Small(least, most) => argument.value_parser(clap::value_parser!(u32).range(
            i64::from(least)..=i64::from(most),
        )),
        Value::Number(least, most) => argument.value_parser(clap::value_parser!(u64).range(
            i64::from(least)..=i64::from(most),
        )),
        Value::AnyNumber => argument.value_parser(clap::value_parser!(u64)),
    }
}
