//! Words for the kinds of refusals, as the refusals spell them.

use rbg_board::BoardError;
use rbg_game::{GameError, LoadError};
use rbg_macro::{MacroError, TextError};
use rbg_syntax::SyntaxError;

/// The word for the kind of a refusal.
pub(crate) fn code_of(error: &LoadError) -> &'static str {
    match error {
        LoadError::Text(error) => text_code(error),
        LoadError::Macro(error) => macro_code(error),
        LoadError::Syntax(error) => syntax_code(error),
        LoadError::Game(error) => game_code(error),
    }
}

fn text_code(error: &TextError) -> &'static str {
    match error {
        TextError::TooLong => "TooLong",
        TextError::ZeroByte => "ZeroByte",
        TextError::BadByte { .. } => "BadByte",
        TextError::Memory => "Memory",
    }
}

fn macro_code(error: &MacroError) -> &'static str {
    match error {
        MacroError::BadDefinition { .. } => "BadDefinition",
        MacroError::Twice { .. } => "Twice",
        MacroError::ArgumentCount { .. } => "ArgumentCount",
        MacroError::Depth { .. } => "Depth",
        MacroError::TooManyTokens => "TooManyTokens",
        MacroError::BadJoin { .. } => "BadJoin",
        MacroError::Memory => "Memory",
    }
}

fn syntax_code(error: &SyntaxError) -> &'static str {
    match error {
        SyntaxError::Expected { .. } => "Expected",
        SyntaxError::MissingSection { .. } => "MissingSection",
        SyntaxError::SectionTwice { .. } => "SectionTwice",
        SyntaxError::TooDeep { .. } => "TooDeep",
        SyntaxError::Memory => "Memory",
    }
}

fn game_code(error: &GameError) -> &'static str {
    match error {
        GameError::UnknownName { .. } => "UnknownName",
        GameError::SameName { .. } => "SameName",
        GameError::Bound { .. } => "Bound",
        GameError::SwitchInPattern { .. } => "SwitchInPattern",
        GameError::PatternTooDeep { .. } => "PatternTooDeep",
        GameError::TooMany { .. } => "TooMany",
        GameError::Board { error } => board_code(error),
        GameError::Memory => "Memory",
    }
}

fn board_code(error: &BoardError) -> &'static str {
    match error {
        BoardError::NoCell => "NoCell",
        BoardError::RowLength { .. } => "RowLength",
        BoardError::TooManyVertices => "TooManyVertices",
        BoardError::SameDirection => "SameDirection",
        BoardError::UnknownVertex => "UnknownVertex",
        BoardError::SameVertex => "SameVertex",
        BoardError::Memory => "Memory",
    }
}
