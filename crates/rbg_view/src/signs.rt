//! The signs by which pieces are shown.

use crate::move_text::{EMPTY_SIGN, empty_of};
use rbg_base::Piece;
use rbg_drawing::Wishes;
use rbg_game::Game;
use std::alloc::{AllocError, Global};

/// The signs of a game's pieces: those that comment lines give them, a point for the empty one, and the names of the
/// others, cut at the least width at which all names differ. A sign that would be that of two pieces is given to neither.
#[derive(Drop)]
pub(crate) struct Signs<'a> {
    /// The name of each piece, and its sign.
    names: Vec<&'a [u8]>,
    signs: Vec<Vec<u8>>,
    width: usize,
}

impl<'a> Signs<'a> {
    pub(crate) fn of(
        alloc: Global,
        game: &'a Game,
        wishes: &Wishes<'_>,
    ) -> Result<Signs<'a>, AllocError> {
        let names = names_of(alloc, game)?;
        let signs = signs_of(alloc, names.as_slice(), empty_of(game), wishes)?;
        let width = widest_of(signs.as_slice());
        Ok(Signs {
            names,
            signs,
            width,
        })
    }

    /// The greatest width of a sign.
    pub(crate) fn width(&self) -> usize {
        self.width
    }

    /// The sign of a piece.
    pub(crate) fn sign(&self, piece: Piece) -> &[u8] {
        self.sign_at(piece as usize)
    }

    fn sign_at(&self, index: usize) -> &[u8] {
        match self.signs.get(index) {
            Some(sign) => sign.as_slice(),
            None => b"?",
        }
    }

    /// The line that says which piece each sign is that is no whole name.
    pub(crate) fn push_legend(&self, output: &mut Vec<u8>) -> Result<(), AllocError> {
        output.extend_from_slice(b"pieces")?;
        for (piece, name) in self.names.iter().enumerate() {
            let sign = self.sign_at(piece);
            output.push(b' ')?;
            output.extend_from_slice(sign)?;
            if sign != *name {
                output.push(b'=')?;
                output.extend_from_slice(name)?;
            }
        }
        output.push(b'\n')?;
        Ok(())
    }
}

/// How many columns a sign takes: as many as it has characters.
pub(crate) fn width_of(sign: &[u8]) -> usize {
    // (the later bytes of a character of UTF-8 begin with the bits 10)
    sign.iter().filter(|byte| **byte & 0xC0 != 0x80).count()
}

/// The item of an index, or nothing.
fn item_of<'a>(items: &[&'a [u8]], index: usize) -> &'a [u8] {
    items.get(index).copied().unwrap_or(&[])
}

/// The name of each piece.
fn names_of(alloc: Global, game: &Game) -> Result<Vec<&[u8]>, AllocError> {
    let mut names = Vec::new(alloc);
    for piece in 0..game.pieces() {
        names.push(game.piece_name(piece as Piece).as_bytes())?;
    }
    Ok(names)
}

/// The sign of each piece: the wanted one, if no other piece might have it, or else the plain one.
fn signs_of(
    alloc: Global,
    names: &[&[u8]],
    empty: Option<Piece>,
    wishes: &Wishes<'_>,
) -> Result<Vec<Vec<u8>>, AllocError> {
    let plain = plain_signs(alloc, names, empty)?;
    let wanted = wanted_signs(alloc, names, wishes)?;
    let mut signs = Vec::new(alloc);
    for piece in 0..names.len() {
        let sign = item_of(wanted.as_slice(), piece);
        let is_free = !sign.is_empty()
            && !is_of_other(wanted.as_slice(), sign, piece)
            && !is_of_other(plain.as_slice(), sign, piece);
        signs.push(if is_free {
            sign.to_vec(alloc)?
        } else {
            item_of(plain.as_slice(), piece).to_vec(alloc)?
        })?;
    }
    Ok(signs)
}

/// The sign of each piece if no comment line gives it one.
fn plain_signs<'a>(
    alloc: Global,
    names: &[&'a [u8]],
    empty: Option<Piece>,
) -> Result<Vec<&'a [u8]>, AllocError> {
    let width = least_width(names);
    let mut signs = Vec::new(alloc);
    for (index, name) in names.iter().enumerate() {
        signs.push(if is_at(empty, index) {
            EMPTY_SIGN
        } else {
            name.get(..width).unwrap_or(*name)
        })?;
    }
    Ok(signs)
}

/// Whether a piece is the one of this index.
fn is_at(piece: Option<Piece>, index: usize) -> bool {
    match piece {
        Some(piece) => piece as usize == index,
        None => false,
    }
}

/// The sign that a comment line gives each piece, or nothing.
fn wanted_signs<'t>(
    alloc: Global,
    names: &[&[u8]],
    wishes: &Wishes<'t>,
) -> Result<Vec<&'t [u8]>, AllocError> {
    let mut wanted = Vec::new(alloc);
    for name in names {
        wanted.push(wishes.sign_of(name).unwrap_or(&[]))?;
    }
    Ok(wanted)
}

/// Whether a sign is that of another piece than this one.
fn is_of_other(signs: &[&[u8]], sign: &[u8], piece: usize) -> bool {
    for (index, other) in signs.iter().enumerate() {
        if index != piece && *other == sign {
            return true;
        }
    }
    false
}

/// The greatest width of a sign.
fn widest_of(signs: &[Vec<u8>]) -> usize {
    let mut width = 1usize;
    for sign in signs {
        width = width.max(width_of(sign));
    }
    width
}

/// The least length of at least 1 at which names that are cut there differ.
fn least_width(names: &[&[u8]]) -> usize {
    let mut shared = 0usize;
    for (index, name) in names.iter().enumerate() {
        for other in &names[..index] {
            shared = shared.max(shared_start(name, other));
        }
    }
    shared.saturating_add(1)
}

/// How many bytes two texts share from their beginning on.
fn shared_start(left: &[u8], right: &[u8]) -> usize {
    let shorter = left.len().min(right.len());
    for index in 0..shorter {
        if left[index] != right[index] {
            return index;
        }
    }
    shorter
}
