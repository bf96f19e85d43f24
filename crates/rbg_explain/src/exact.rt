//! The places of refusals, also of those that name none: of a board, and of too many things.

use crate::boards::{board_place, nth_direction};
use crate::place::place_of;
use rbg_board::BoardError;
use rbg_game::limits::{MAX_DIRECTIONS, MAX_PIECES, MAX_PLAYERS, MAX_POSITIONS, MAX_VARIABLES};
use rbg_game::{GameError, LoadError, Thing};
use rbg_lint::{count_names, expanded, nth_name, offset_of, section_tokens, start_of};
use rbg_macro::{SectionKind, Source, Token, Tokens};
use rbg_warnings::actions;
use std::alloc::{AllocError, Global};

/// The place of a refusal: the exact one, or else that of the section.
pub(crate) fn find_place(
    alloc: Global,
    error: &LoadError,
    text: &[u8],
    tokens: Option<&Tokens<'_>>,
) -> Result<Option<usize>, AllocError> {
    let Some(tokens) = tokens else {
        return Ok(place_of(error, text, &[]));
    };
    match exact_place(alloc, error, tokens)? {
        Some(at) => Ok(Some(at)),
        None => Ok(place_of(error, text, tokens.as_slice())),
    }
}

/// The offset of what a refusal without an offset is about, where there is one: a row, a vertex or an edge of the board,
/// or the first thing above a limit.
fn exact_place(
    alloc: Global,
    error: &LoadError,
    tokens: &Tokens<'_>,
) -> Result<Option<usize>, AllocError> {
    let is_exact = matches!(
        error,
        LoadError::Game(GameError::Board { .. } | GameError::TooMany { .. })
    );
    if !is_exact {
        return Ok(None);
    }
    match expanded(alloc, tokens)? {
        Some(source) => place_in_source(alloc, error, &source),
        None => Ok(None),
    }
}

fn place_in_source(
    alloc: Global,
    error: &LoadError,
    source: &Source<'_>,
) -> Result<Option<usize>, AllocError> {
    match error {
        LoadError::Game(GameError::Board { error }) => place_in_board(alloc, source, error),
        LoadError::Game(GameError::TooMany { what }) => further_thing(alloc, *what, source),
        _ => Ok(None),
    }
}

/// What a refusal of the board is about.
fn place_in_board(
    alloc: Global,
    source: &Source<'_>,
    error: &BoardError,
) -> Result<Option<usize>, AllocError> {
    let board = section_tokens(alloc, source, SectionKind::Board)?;
    Ok(offset_of(board_place(error, &board)))
}

/// The first thing above its limit.
fn further_thing(
    alloc: Global,
    what: Thing,
    source: &Source<'_>,
) -> Result<Option<usize>, AllocError> {
    match what {
        Thing::Players => further_name(alloc, source, SectionKind::Players, MAX_PLAYERS),
        Thing::Pieces => further_name(alloc, source, SectionKind::Pieces, MAX_PIECES),
        Thing::Variables => further_variable(alloc, source),
        Thing::Directions => further_direction(alloc, source),
        Thing::Positions => further_action(alloc, source),
    }
}

/// The first direction above the limit.
fn further_direction(alloc: Global, source: &Source<'_>) -> Result<Option<usize>, AllocError> {
    let board = section_tokens(alloc, source, SectionKind::Board)?;
    Ok(offset_of(nth_direction(&board, MAX_DIRECTIONS)))
}

/// The first action above the limit of positions.
fn further_action(alloc: Global, source: &Source<'_>) -> Result<Option<usize>, AllocError> {
    let rules = section_tokens(alloc, source, SectionKind::Rules)?;
    further_action_of(alloc, &rules)
}

/// The first action of these rules above the limit of positions.
fn further_action_of(alloc: Global, rules: &[Token<'_>]) -> Result<Option<usize>, AllocError> {
    let actions = actions(alloc, rules)?;
    match actions.get(MAX_POSITIONS) {
        Some(action) => Ok(start_of(action)),
        None => Ok(None),
    }
}

/// The name after so many names of a section.
fn further_name(
    alloc: Global,
    source: &Source<'_>,
    kind: SectionKind,
    count: usize,
) -> Result<Option<usize>, AllocError> {
    let tokens = section_tokens(alloc, source, kind)?;
    Ok(offset_of(nth_name(&tokens, count)))
}

/// The first variable above the limit. The players are counted too.
fn further_variable(alloc: Global, source: &Source<'_>) -> Result<Option<usize>, AllocError> {
    let players = section_tokens(alloc, source, SectionKind::Players)?;
    let left = MAX_VARIABLES.saturating_sub(count_names(&players));
    further_name(alloc, source, SectionKind::Variables, left)
}
