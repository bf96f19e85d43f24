//! A refused description as it is printed: the layer, the number and the name of the refusal, and its place or thing.

ghost use Rattle.std.specs.Fmt.{DisplaysOnOk};
ghost use Rattle.std.specs.Prelude.{Some};
ghost use Rattle.rbg_console.specs.Refusals.{
  board_refusal,
  game_refusal,
  macro_refusal,
  refusal_text,
  syntax_refusal,
  text_refusal,
};

use rbg_board::BoardError;
use rbg_game::{GameError, LoadError};
use rbg_macro::{MacroError, TextError};
use rbg_syntax::SyntaxError;
use std::fmt::{self, Formatter};

/// A refusal. Its text is `<layer> <number> <name>`, and then the place or thing if there is one.
#[derive(Clone, Copy, Debug)]
pub struct Refusal(pub LoadError);

impl fmt::Display for Refusal {
    ghost output = { λ refusal. Some (refusal_text refusal.0) };

    #[tactic(auto, unfolding(crate::specs::Refusals::refusal_text))]
    fn fmt<W: fmt::Write>(&self, f: &mut Formatter<W>) -> fmt::Result {
        match &self.0 {
            LoadError::Text(error) => write_text(f, error),
            LoadError::Macro(error) => write_macro(f, error),
            LoadError::Syntax(error) => write_syntax(f, error),
            LoadError::Game(error) => write_game(f, error),
        }
    }
}

#[tactic(auto, unfolding(crate::specs::Refusals::text_refusal))]
fn write_text<W: fmt::Write>(f: &mut Formatter<W>, error: &TextError) -> fmt::Result
    ensures { DisplaysOnOk W.write_str_gives f.old result (Some (text_refusal error.now)) f.new }
{
    match error {
        TextError::TooLong => write!(f, "text 1 TooLong"),
        TextError::ZeroByte => write!(f, "text 2 ZeroByte"),
        TextError::BadByte { at } => write!(f, "text 3 BadByte {at}"),
        TextError::Memory => write!(f, "text Memory"),
    }
}

#[tactic(auto, unfolding(crate::specs::Refusals::macro_refusal))]
fn write_macro<W: fmt::Write>(f: &mut Formatter<W>, error: &MacroError) -> fmt::Result
    ensures { DisplaysOnOk W.write_str_gives f.old result (Some (macro_refusal error.now)) f.new }
{
    match error {
        MacroError::BadDefinition { at } => write!(f, "macro 1 BadDefinition {at}"),
        MacroError::Twice { at } => write!(f, "macro 2 Twice {at}"),
        MacroError::ArgumentCount { at } => write!(f, "macro 3 ArgumentCount {at}"),
        MacroError::Depth { at } => write!(f, "macro 4 Depth {at}"),
        MacroError::TooManyTokens => write!(f, "macro 5 TooManyTokens"),
        MacroError::BadJoin { at } => write!(f, "macro 6 BadJoin {at}"),
        MacroError::Memory => write!(f, "macro Memory"),
    }
}

#[tactic(auto, unfolding(crate::specs::Refusals::syntax_refusal))]
fn write_syntax<W: fmt::Write>(f: &mut Formatter<W>, error: &SyntaxError) -> fmt::Result
    ensures { DisplaysOnOk W.write_str_gives f.old result (Some (syntax_refusal error.now)) f.new }
{
    match error {
        SyntaxError::Expected { at, what } => {
            let part = what.name();
            write!(f, "syntax 1 Expected {at} {part}")
        }
        SyntaxError::MissingSection { which } => {
            let name = which.name();
            write!(f, "syntax 2 MissingSection {name}")
        }
        SyntaxError::SectionTwice { which } => {
            let name = which.name();
            write!(f, "syntax 3 SectionTwice {name}")
        }
        SyntaxError::TooDeep { at } => write!(f, "syntax 4 TooDeep {at}"),
        SyntaxError::Memory => write!(f, "syntax Memory"),
    }
}

#[tactic(auto, unfolding(crate::specs::Refusals::game_refusal))]
fn write_game<W: fmt::Write>(f: &mut Formatter<W>, error: &GameError) -> fmt::Result
    ensures { DisplaysOnOk W.write_str_gives f.old result (Some (game_refusal error.now)) f.new }
{
    match error {
        GameError::UnknownName { at } => write!(f, "game 1 UnknownName {at}"),
        GameError::SameName { at } => write!(f, "game 2 SameName {at}"),
        GameError::Bound { at } => write!(f, "game 3 Bound {at}"),
        GameError::SwitchInPattern { at } => write!(f, "game 4 SwitchInPattern {at}"),
        GameError::PatternTooDeep { at } => write!(f, "game 5 PatternTooDeep {at}"),
        GameError::TooMany { what } => {
            let thing = what.name();
            write!(f, "game 6 TooMany {thing}")
        }
        GameError::Memory => write!(f, "game Memory"),
        GameError::Board { error } => write_board(f, error),
    }
}

#[tactic(auto, unfolding(crate::specs::Refusals::board_refusal))]
fn write_board<W: fmt::Write>(f: &mut Formatter<W>, error: &BoardError) -> fmt::Result
    ensures { DisplaysOnOk W.write_str_gives f.old result (Some (board_refusal error.now)) f.new }
{
    match error {
        BoardError::NoCell => write!(f, "board 1 NoCell"),
        BoardError::RowLength { row } => write!(f, "board 2 RowLength {row}"),
        BoardError::TooManyVertices => write!(f, "board 3 TooManyVertices"),
        BoardError::SameDirection => write!(f, "board 4 SameDirection"),
        BoardError::UnknownVertex => write!(f, "board 5 UnknownVertex"),
        BoardError::SameVertex => write!(f, "board 6 SameVertex"),
        BoardError::Memory => write!(f, "board Memory"),
    }
}
