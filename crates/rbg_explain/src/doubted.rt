//! What is doubtful in the rules of a game, in words.

use crate::warned::{push_new, warning_at};
use rbg_base::{Position, Variable};
use rbg_game::Game;
use rbg_lint::{Diagnostic, Doubt, MessageWriter, doubts, index_of, line_and_column, nth_name};
use rbg_macro::{Symbol, Token};
use std::alloc::{AllocError, Global};

/// A text, the game that it describes, and the actions of its rules.
#[derive(Clone, Copy)]
struct Described<'a> {
    text: &'a [u8],
    game: &'a Game,
    actions: &'a [&'a [Token<'a>]],
}

impl<'a> Described<'a> {
    /// The tokens of the action at a position.
    fn action(&self, position: Position) -> &'a [Token<'a>] {
        self.actions.get(index_at(position)).copied().unwrap_or(&[])
    }

    fn name(&self, variable: Variable) -> &'a str {
        if (variable as usize) < self.game.variables() {
            self.game.variable_name(variable)
        } else {
            ""
        }
    }

    /// The greatest number that a variable holds.
    fn bound(&self, variable: Variable) -> u32 {
        if (variable as usize) < self.game.variables() {
            self.game.bound(variable)
        } else {
            0
        }
    }
}

/// Adds the doubts of a game whose rules have these actions.
pub(crate) fn push_doubts(
    alloc: Global,
    text: &[u8],
    actions: &[&[Token<'_>]],
    game: &Game,
    found: &mut Vec<Diagnostic>,
) -> Result<(), AllocError> {
    let described = Described {
        text,
        game,
        actions,
    };
    for doubt in &doubts(alloc, game)? {
        push_doubt(alloc, described, *doubt, found)?;
    }
    Ok(())
}

/// Adds a doubt.
fn push_doubt(
    alloc: Global,
    described: Described<'_>,
    doubt: Doubt,
    found: &mut Vec<Diagnostic>,
) -> Result<(), AllocError> {
    match doubt {
        Doubt::Never {
            position,
            variable,
            value,
        } => {
            let bound = described.bound(variable);
            push_never(alloc, described.action(position), bound, value, found)
        }
        Doubt::NoValue { position } => push_no_value(alloc, described.action(position), found),
        Doubt::Decided {
            position,
            variable,
            value,
            holds,
        } => {
            let held = Held {
                name: described.name(variable),
                bound: described.bound(variable),
                value,
            };
            push_decided(alloc, described.action(position), held, holds, found)
        }
        Doubt::KeeperBegins { off } => push_beginning(alloc, described.action(off), found),
        Doubt::GoesOn { position, off } => {
            let put = described.action(off);
            push_going_on(
                alloc,
                described.text,
                described.action(position),
                put,
                found,
            )
        }
    }
}

/// The index of the action at a position.
fn index_at(position: Position) -> usize {
    (position as usize).saturating_sub(1)
}

/// What is said of arithmetic without a value.
const NO_VALUE: &str = "there is no value: a divisor is zero, or a number on the way is too great";

/// The first token of the value that an action assigns.
pub(crate) fn value_start<'t>(action: &[Token<'t>]) -> Option<Token<'t>> {
    let index = index_of(action, Symbol::Equals)?;
    action.get(index.saturating_add(1)).copied()
}

/// Adds that an assignment is never valid, since its arithmetic is constant.
fn push_never(
    alloc: Global,
    action: &[Token<'_>],
    bound: u32,
    value: Option<i64>,
    found: &mut Vec<Diagnostic>,
) -> Result<(), AllocError> {
    let (Some(variable), Some(shown)) = (nth_name(action, 0), value_start(action)) else {
        return Ok(());
    };
    let mut warning = warning_at(alloc, "NeverValid", shown);
    let mut writer = MessageWriter::new(alloc, &mut warning.message);
    match value {
        Some(value) => {
            writer.text("the value is ");
            writer.shown(&value);
            writer.named(", but ", variable.text, " holds numbers from 0 to ");
            writer.shown(&bound);
        }
        None => writer.text(NO_VALUE),
    }
    writer.text(", so this assignment is never valid");
    writer.end()?;
    push_new(found, warning)
}

/// Adds that a comparison is never valid, since its arithmetic has no value.
fn push_no_value(
    alloc: Global,
    action: &[Token<'_>],
    found: &mut Vec<Diagnostic>,
) -> Result<(), AllocError> {
    let Some(token) = action.first() else {
        return Ok(());
    };
    let mut warning = warning_at(alloc, "NeverValid", *token);
    let mut writer = MessageWriter::new(alloc, &mut warning.message);
    writer.text(NO_VALUE);
    writer.text(", so this comparison is never valid");
    writer.end()?;
    push_new(found, warning)
}

/// A variable, the greatest number that it holds, and a number that it never holds.
#[derive(Clone, Copy)]
struct Held<'a> {
    name: &'a str,
    bound: u32,
    value: i64,
}

/// Adds that a comparison with a number that a variable never holds is always valid, or never.
fn push_decided(
    alloc: Global,
    action: &[Token<'_>],
    held: Held<'_>,
    holds: bool,
    found: &mut Vec<Diagnostic>,
) -> Result<(), AllocError> {
    let Some(token) = action.first() else {
        return Ok(());
    };
    let (code, end) = if holds {
        ("AlwaysValid", " is always valid")
    } else {
        ("NeverValid", " is never valid")
    };
    let mut warning = warning_at(alloc, code, *token);
    let mut writer = MessageWriter::new(alloc, &mut warning.message);
    writer.named("", held.name.as_bytes(), " holds numbers from 0 to ");
    writer.shown(&held.bound);
    writer.text(", so this comparison with ");
    writer.shown(&held.value);
    writer.text(end);
    writer.end()?;
    push_new(found, warning)
}

/// Adds that the keeper puts a piece before any player is to move.
fn push_beginning(
    alloc: Global,
    action: &[Token<'_>],
    found: &mut Vec<Diagnostic>,
) -> Result<(), AllocError> {
    let Some(token) = action.first() else {
        return Ok(());
    };
    let mut warning = warning_at(alloc, "KeeperBegins", *token);
    let mut writer = MessageWriter::new(alloc, &mut warning.message);
    writer.text(
        "the keeper puts this piece, since no switch comes before it: if a player is to move here, begin the rules with a `->` and its name",
    );
    writer.end()?;
    push_new(found, warning)
}

/// Adds that the keeper goes on after a `->>`, and puts a piece as a player does.
fn push_going_on(
    alloc: Global,
    text: &[u8],
    switch: &[Token<'_>],
    off: &[Token<'_>],
    found: &mut Vec<Diagnostic>,
) -> Result<(), AllocError> {
    let ([token, ..], [put, ..]) = (switch, off) else {
        return Ok(());
    };
    let mut warning = warning_at(alloc, "KeeperGoesOn", *token);
    let mut writer = MessageWriter::new(alloc, &mut warning.message);
    writer.text("after this `->>` the keeper goes on in the rules without another switch,");
    writer.place(" and puts a piece at ", line_and_column(text, put.at), "");
    writer.text(", as a player does: to end play, write `->> {}`");
    writer.end()?;
    push_new(found, warning)
}
