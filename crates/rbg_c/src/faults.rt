//! The call that tells why a text is no description, in numbers.
ghost use Rattle.std.specs.Prelude.{◌≡◌};
ghost use Rattle.rbg_c.specs.Faults.{Faults, board_number, game_number, game_offset, macro_number, macro_offset, number_in_layer, offset_of, syntax_number, syntax_offset, text_number, text_offset};

use crate::results::{MEMORY, OK, layer};
use rbg_board::BoardError;
use rbg_game::{GameError, LoadError, load};
use rbg_macro::{MacroError, TextError};
use rbg_syntax::SyntaxError;
use std::alloc::Global;

/// `RBG_NO_OFFSET` in the header: the offset of what is at no byte.
const NO_OFFSET: u64 = u64::MAX;

/// `rbg_fault`: which layer refuses a text, by which number, and at which byte.
#[unsafe(no_mangle)]
pub extern "C" fn rbg_fault(alloc: Global, text: &[u8], number: &mut u64, offset: &mut u64) -> u32
    ensures { Faults text.now number.new offset.new result }
{
    match load(alloc, text) {
        Ok(_game) => OK,
        Err(error) => {
            if error.is_memory() {
                return MEMORY;
            }
            *number = number_in(&error);
            *offset = offset_in(&error);
            layer(&error)
        }
    }
}

/// The number of an error in its layer.
fn number_in(error: &LoadError) -> u64
    ensures { result ≡ number_in_layer error.now }
{
    match error {
        LoadError::Text(cause) => number_of_text(cause),
        LoadError::Macro(cause) => number_of_macro(cause),
        LoadError::Syntax(cause) => number_of_syntax(cause),
        LoadError::Game(cause) => number_of_game(cause),
    }
}

/// The offset of the byte at which an error is.
fn offset_in(error: &LoadError) -> u64
    ensures { result ≡ offset_of error.now }
{
    match error {
        LoadError::Text(cause) => offset_of_text(cause),
        LoadError::Macro(cause) => offset_of_macro(cause),
        LoadError::Syntax(cause) => offset_of_syntax(cause),
        LoadError::Game(cause) => offset_of_game(cause),
    }
}

fn number_of_text(error: &TextError) -> u64
    ensures { result ≡ text_number error.now }
{
    match error {
        TextError::TooLong => 1,
        TextError::ZeroByte => 2,
        TextError::BadByte { at: _ } => 3,
        TextError::Memory => 0,
    }
}

fn offset_of_text(error: &TextError) -> u64
    ensures { result ≡ text_offset error.now }
{
    match error {
        TextError::TooLong => NO_OFFSET,
        TextError::ZeroByte => NO_OFFSET,
        TextError::BadByte { at } => *at as u64,
        TextError::Memory => NO_OFFSET,
    }
}

fn number_of_macro(error: &MacroError) -> u64
    ensures { result ≡ macro_number error.now }
{
    match error {
        MacroError::BadDefinition { at: _ } => 1,
        MacroError::Twice { at: _ } => 2,
        MacroError::ArgumentCount { at: _ } => 3,
        MacroError::Depth { at: _ } => 4,
        MacroError::TooManyTokens => 5,
        MacroError::BadJoin { at: _ } => 6,
        MacroError::Memory => 0,
    }
}

fn offset_of_macro(error: &MacroError) -> u64
    ensures { result ≡ macro_offset error.now }
{
    match error {
        MacroError::BadDefinition { at } => *at as u64,
        MacroError::Twice { at } => *at as u64,
        MacroError::ArgumentCount { at } => *at as u64,
        MacroError::Depth { at } => *at as u64,
        MacroError::TooManyTokens => NO_OFFSET,
        MacroError::BadJoin { at } => *at as u64,
        MacroError::Memory => NO_OFFSET,
    }
}

fn number_of_syntax(error: &SyntaxError) -> u64
    ensures { result ≡ syntax_number error.now }
{
    match error {
        SyntaxError::Expected { at: _, what: _ } => 1,
        SyntaxError::MissingSection { which: _ } => 2,
        SyntaxError::SectionTwice { which: _ } => 3,
        SyntaxError::TooDeep { at: _ } => 4,
        SyntaxError::Memory => 0,
    }
}

fn offset_of_syntax(error: &SyntaxError) -> u64
    ensures { result ≡ syntax_offset error.now }
{
    match error {
        SyntaxError::Expected { at, what: _ } => *at as u64,
        SyntaxError::MissingSection { which: _ } => NO_OFFSET,
        SyntaxError::SectionTwice { which: _ } => NO_OFFSET,
        SyntaxError::TooDeep { at } => *at as u64,
        SyntaxError::Memory => NO_OFFSET,
    }
}

fn number_of_game(error: &GameError) -> u64
    ensures { result ≡ game_number error.now }
{
    match error {
        GameError::UnknownName { at: _ } => 1,
        GameError::SameName { at: _ } => 2,
        GameError::Bound { at: _ } => 3,
        GameError::SwitchInPattern { at: _ } => 4,
        GameError::PatternTooDeep { at: _ } => 5,
        GameError::TooMany { what: _ } => 6,
        GameError::Memory => 0,
        GameError::Board { error } => number_of_board(error),
    }
}

fn offset_of_game(error: &GameError) -> u64
    ensures { result ≡ game_offset error.now }
{
    match error {
        GameError::UnknownName { at } => *at as u64,
        GameError::SameName { at } => *at as u64,
        GameError::Bound { at } => *at as u64,
        GameError::SwitchInPattern { at } => *at as u64,
        GameError::PatternTooDeep { at } => *at as u64,
        GameError::TooMany { what: _ } => NO_OFFSET,
        GameError::Memory => NO_OFFSET,
        GameError::Board { error: _ } => NO_OFFSET,
    }
}

fn number_of_board(error: &BoardError) -> u64
    ensures { result ≡ board_number error.now }
{
    match error {
        BoardError::NoCell => 11,
        BoardError::RowLength { row: _ } => 12,
        BoardError::TooManyVertices => 13,
        BoardError::SameDirection => 14,
        BoardError::UnknownVertex => 15,
        BoardError::SameVertex => 16,
        BoardError::Memory => 0,
    }
}
