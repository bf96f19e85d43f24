//! What the comment lines of a description say of how its board is drawn.

use crate::point::Point;
use rbg_wire::{Words, after_text};
use std::alloc::{AllocError, Global};

/// A vertex and its place.
#[derive(Clone, Copy)]
struct Placed<'t> {
    name: &'t [u8],
    at: Point,
}

/// A piece and its sign.
#[derive(Clone, Copy)]
struct Signed<'t> {
    name: &'t [u8],
    sign: &'t [u8],
}

/// What the comment lines of a description say of how its board is drawn.
#[derive(Drop)]
pub struct Wishes<'t> {
    /// Whether the squares of a rectangle are hexagons.
    pub(crate) is_slanted: bool,
    /// Whether the squares of a rectangle are crossings of lines.
    pub(crate) is_on_points: bool,
    places: Vec<Placed<'t>>,
    signs: Vec<Signed<'t>>,
}

impl<'t> Wishes<'t> {
    /// Reads the lines `// layout ..` and `// piece ..` of a text.
    pub fn read(alloc: Global, text: &'t [u8]) -> Result<Wishes<'t>, AllocError> {
        let mut wishes = Wishes {
            is_slanted: false,
            is_on_points: false,
            places: Vec::new(alloc),
            signs: Vec::new(alloc),
        };
        for line in text.split(|byte| *byte == b'\n') {
            if let Some(comment) = after_text(b"//", line.trim_ascii()) {
                let words = words_of(alloc, comment)?;
                wishes.take_words(words.as_slice())?;
            }
        }
        Ok(wishes)
    }

    /// Takes the words of a comment.
    fn take_words(&mut self, words: &[&'t [u8]]) -> Result<(), AllocError> {
        match words {
            [b"layout", b"slanted"] => self.is_slanted = true,
            [b"layout", b"points"] => self.is_on_points = true,
            [b"layout", places @ ..] => self.take_places(places)?,
            [b"piece", name] => self.take_sign(*name, b"")?,
            [b"piece", name, sign] if is_sign(*sign) => self.take_sign(*name, *sign)?,
            _ => {}
        }
        Ok(())
    }

    /// Takes names of vertices, each with two numbers after it.
    fn take_places(&mut self, words: &[&'t [u8]]) -> Result<(), AllocError> {
        for three in words.chunks(3) {
            if let [name, x, y] = three
                && let Some(x) = thousandths_in(*x)
                && let Some(y) = thousandths_in(without_comma(*y))
            {
                self.places.push(Placed {
                    name: *name,
                    at: Point { x, y },
                })?;
            }
        }
        Ok(())
    }

    fn take_sign(&mut self, name: &'t [u8], sign: &'t [u8]) -> Result<(), AllocError> {
        self.signs.push(Signed { name, sign })?;
        Ok(())
    }

    /// The sign of a piece, if a line says it; it is empty where the piece is to be hidden. The last line counts.
    pub fn sign_of(&self, name: &[u8]) -> Option<&'t [u8]> {
        let mut found = None;
        for signed in &self.signs {
            if signed.name == name {
                found = Some(signed.sign);
            }
        }
        found
    }

    /// The place of a vertex, if a line says it. The last line counts.
    pub(crate) fn place_of(&self, name: &[u8]) -> Option<Point> {
        let mut found = None;
        for placed in &self.places {
            if placed.name == name {
                found = Some(placed.at);
            }
        }
        found
    }
}

/// Whether a word can be printed: it is text without control characters.
fn is_sign(word: &[u8]) -> bool {
    match str::from_utf8(word) {
        Ok(text) => !text.chars().any(|letter| letter.is_control()),
        Err(_) => false,
    }
}

/// The words of a text.
fn words_of(alloc: Global, text: &[u8]) -> Result<Vec<&[u8]>, AllocError> {
    let mut words = Vec::new(alloc);
    for word in Words::of(text) {
        if !word.is_empty() {
            words.push(word)?;
        }
    }
    Ok(words)
}

/// A text without the comma or the semicolon that may end it.
fn without_comma(text: &[u8]) -> &[u8] {
    match text.split_last() {
        Some((b',' | b';', rest)) => rest,
        _ => text,
    }
}

/// The thousandths of the number that a text spells: digits, perhaps with a minus before them and a point between them.
fn thousandths_in(text: &[u8]) -> Option<i64> {
    match after_text(b"-", text) {
        Some(digits) => Some(0i64.saturating_sub(positive_in(digits)?)),
        None => positive_in(text),
    }
}

fn positive_in(digits: &[u8]) -> Option<i64> {
    let mut value = 0i64;
    // what the next digit after the point is worth
    let mut worth = 100i64;
    let mut has_point = false;
    for byte in digits {
        let digit = i64::from(byte.wrapping_sub(b'0'));
        if *byte == b'.' && !has_point {
            has_point = true;
        } else if digit > 9 {
            return None;
        } else if has_point {
            value = value.saturating_add(digit.saturating_mul(worth));
            worth /= 10;
        } else {
            value = value
                .saturating_mul(10)
                .saturating_add(digit.saturating_mul(1000));
        }
    }
    if digits.is_empty() { None } else { Some(value) }
}
