//! Which name is probably meant by an unknown one.

use crate::message::Message;
use crate::spot::Needed;
use crate::traced::Trace;
use rbg_game::{GameError, LoadError};
use rbg_lint::{NameKind, kind_of, nearest_macro, nearest_name};
use rbg_macro::Token;
use rbg_syntax::SyntaxError;
use std::alloc::{AllocError, Global};

/// The name that is probably meant in place of an unknown one.
pub(crate) fn meant_name(
    alloc: Global,
    message: &Message<'_, '_>,
) -> Result<Option<Vec<u8>>, AllocError> {
    let (Some(trace), Some(spot)) = (message.trace(), message.spot) else {
        return Ok(None);
    };
    match message.error {
        LoadError::Game(GameError::UnknownName { .. }) => {
            meant_by(alloc, trace, spot.tokens(), message.needed())
        }
        LoadError::Syntax(SyntaxError::Expected { .. }) => match trace.spot.called_name() {
            Some(name) => owned(alloc, nearest_macro(alloc, spot.tokens(), name.text)?),
            None => Ok(None),
        },
        _ => Ok(None),
    }
}

/// The bytes of a name that was found.
fn owned(alloc: Global, name: Option<&[u8]>) -> Result<Option<Vec<u8>>, AllocError> {
    match name {
        Some(name) => name.to_vec(alloc).map(Some),
        None => Ok(None),
    }
}

/// What is probably meant where a name of such a kind is needed: one of that kind, or else a macro.
fn meant_by(
    alloc: Global,
    trace: Trace<'_>,
    tokens: &[Token<'_>],
    needed: Needed,
) -> Result<Option<Vec<u8>>, AllocError> {
    let name = trace.text();
    if kind_of(trace.flat.tokens, name).is_some() {
        return Ok(None);
    }
    for kind in kinds_of(needed) {
        let found = nearest_name(alloc, trace.flat.tokens, name, *kind)?;
        if found.is_some() {
            return owned(alloc, found);
        }
    }
    owned(alloc, nearest_macro(alloc, tokens, name)?)
}

/// The kinds of names that are needed.
fn kinds_of(needed: Needed) -> &'static [NameKind] {
    match needed {
        Needed::Direction => &[NameKind::Direction],
        Needed::Piece => &[NameKind::Piece],
        Needed::Player => &[NameKind::Player],
        Needed::Variable => &[NameKind::Variable, NameKind::Player],
        Needed::Value => &[NameKind::Variable, NameKind::Player, NameKind::Piece],
        Needed::Anything => &NameKind::ALL,
    }
}
