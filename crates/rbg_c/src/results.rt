//! The numbers of results, as the header has them.
ghost use Rattle.std.specs.Prelude.{◌≡◌, ◌≢◌};
ghost use Rattle.rbg_c.specs.Results.{layer_of, number_of};

use rbg_game::LoadError;
use rbg_questions::QuestionError;

pub(crate) const OK: u32 = 0;

pub(crate) const EMPTY: u32 = 1;

pub(crate) const MEMORY: u32 = 2;

const OVER: u32 = 3;

const KEEPER: u32 = 4;

pub(crate) const ILLEGAL: u32 = 5;

pub(crate) const START: u32 = 6;

pub(crate) const SMALL: u32 = 7;

pub(crate) const RANGE: u32 = 8;

pub(crate) const NO_PLACE: u32 = 9;

const TEXT: u32 = 16;

const MACRO: u32 = 17;

const SYNTAX: u32 = 18;

const GAME: u32 = 19;

/// The number of a refusal.
pub(crate) fn number(refusal: QuestionError) -> u32
    ensures number { result ≡ number_of refusal }
    ensures some { result ≢ 0 }
{
    match refusal {
        QuestionError::Long => RANGE,
        QuestionError::Empty => RANGE,
        QuestionError::Return => RANGE,
        QuestionError::Word => RANGE,
        QuestionError::Form => RANGE,
        QuestionError::Illegal => ILLEGAL,
        QuestionError::Start => START,
        QuestionError::NoPlace => NO_PLACE,
        QuestionError::Over => OVER,
        QuestionError::Keeper => KEEPER,
        QuestionError::Memory => MEMORY,
    }
}

/// The number of the layer that refuses a description.
pub(crate) fn layer(error: &LoadError) -> u32
    ensures number { result ≡ layer_of error.now }
    ensures some { result ≢ 0 }
{
    match error {
        LoadError::Text(_) => TEXT,
        LoadError::Macro(_) => MACRO,
        LoadError::Syntax(_) => SYNTAX,
        LoadError::Game(_) => GAME,
    }
}
