//! The place of a refusal in the text.

use crate::spot::head_name;
use rbg_game::{GameError, LoadError, Thing};
use rbg_macro::{MacroError, SectionKind, TextError, Token};
use rbg_syntax::SyntaxError;

/// The offset at which a refused text is shown: the place that the refusal names, or the name of the section that it
/// is about.
pub fn place_of(error: &LoadError, text: &[u8], tokens: &[Token<'_>]) -> Option<usize> {
    match error {
        LoadError::Text(error) => place_in_text(error, text),
        LoadError::Macro(error) => place_in_macros(error),
        LoadError::Syntax(error) => place_in_sections(error, tokens),
        LoadError::Game(error) => place_in_game(error, tokens),
    }
}

fn place_in_text(error: &TextError, text: &[u8]) -> Option<usize> {
    match error {
        TextError::ZeroByte => zero_byte(text),
        TextError::BadByte { at } => Some(*at),
        TextError::TooLong | TextError::Memory => None,
    }
}

/// The offset of the first zero byte.
fn zero_byte(text: &[u8]) -> Option<usize> {
    for (index, byte) in text.iter().enumerate() {
        if *byte == 0 {
            return Some(index);
        }
    }
    None
}

fn place_in_macros(error: &MacroError) -> Option<usize> {
    match error {
        MacroError::BadDefinition { at }
        | MacroError::Twice { at }
        | MacroError::ArgumentCount { at }
        | MacroError::Depth { at }
        | MacroError::BadJoin { at } => Some(*at),
        MacroError::TooManyTokens | MacroError::Memory => None,
    }
}

fn place_in_sections(error: &SyntaxError, tokens: &[Token<'_>]) -> Option<usize> {
    match error {
        SyntaxError::Expected { at, .. } | SyntaxError::TooDeep { at } => Some(*at),
        SyntaxError::SectionTwice { which } => {
            let second = head_name(tokens, which.name().as_bytes(), 1)?;
            Some(second.at)
        }
        SyntaxError::MissingSection { .. } | SyntaxError::Memory => None,
    }
}

fn place_in_game(error: &GameError, tokens: &[Token<'_>]) -> Option<usize> {
    let section = match error {
        GameError::UnknownName { at }
        | GameError::SameName { at }
        | GameError::Bound { at }
        | GameError::SwitchInPattern { at }
        | GameError::PatternTooDeep { at } => return Some(*at),
        GameError::TooMany { what } => section_of(*what),
        GameError::Board { .. } => SectionKind::Board,
        GameError::Memory => return None,
    };
    let head = head_name(tokens, section.name().as_bytes(), 0)?;
    Some(head.at)
}

/// The section that lists the things.
fn section_of(thing: Thing) -> SectionKind {
    match thing {
        Thing::Players => SectionKind::Players,
        Thing::Pieces => SectionKind::Pieces,
        Thing::Variables => SectionKind::Variables,
        Thing::Directions => SectionKind::Board,
        Thing::Positions => SectionKind::Rules,
    }
}
