//! Bytes and characters that begin no token, and what is usually meant by them.

use std::str;

/// A character that begins no token.
#[derive(Clone, Copy)]
pub struct StrayCharacter<'a> {
    /// Its bytes, or one byte if they aren't UTF-8.
    pub bytes: &'a [u8],
    /// Its number in Unicode, if it has one.
    pub number: Option<u32>,
    /// What to write in its place, or what is known of it; empty if neither.
    pub meant: &'static str,
}

/// The character at an offset of a text.
pub fn stray_character_at(text: &[u8], at: usize) -> StrayCharacter<'_> {
    let rest = text.get(at..).unwrap_or(&[]);
    let len = match rest.first() {
        Some(first) => len_of(*first),
        None => 0,
    };
    match rest.get(..len) {
        Some(bytes) => character(bytes, rest),
        None => single(rest),
    }
}

/// How many bytes of UTF-8 begin with this one.
fn len_of(first: u8) -> usize {
    if first < 0xc0 {
        1
    } else if first < 0xe0 {
        2
    } else if first < 0xf0 {
        3
    } else {
        4
    }
}

/// The character of these bytes, or the first byte of the rest if they are no character.
fn character<'a>(bytes: &'a [u8], rest: &'a [u8]) -> StrayCharacter<'a> {
    let read = match str::from_utf8(bytes) {
        Ok(text) => text.chars().next(),
        Err(_) => None,
    };
    match read {
        Some(character) => StrayCharacter {
            bytes,
            number: Some(u32::from(character)),
            meant: meant_by(u32::from(character)),
        },
        None => single(rest),
    }
}

/// The first byte, which is no character.
fn single(rest: &[u8]) -> StrayCharacter<'_> {
    StrayCharacter {
        bytes: rest.get(..1).unwrap_or(rest),
        number: None,
        meant: if begins_wide(rest) {
            ": the file is in UTF-16, but a description is in ASCII"
        } else {
            ": outside of comments a description is in ASCII"
        },
    }
}

/// Whether a text begins with a byte order mark of UTF-16.
fn begins_wide(text: &[u8]) -> bool {
    text.starts_with(b"\xff\xfe") || text.starts_with(b"\xfe\xff")
}

/// What is meant by a character.
fn meant_by(number: u32) -> &'static str {
    match number {
        0x7c => ": a choice is written `+`",
        0x26 | 0x2e => ": parts follow one another with nothing between them",
        0x22 | 0x27 | 0x60 | 0x2018 | 0x2019 | 0x201c | 0x201d => {
            ": names stand without quotes, and comments begin with `//`"
        }
        0x5e => ": there is no power",
        0x25 => ": there is no remainder, `a - a / b * b` is one",
        0x40 | 0x5c => "",
        0x2190..=0x21ff => ": an arrow is written `->`",
        0x2010..=0x2015 | 0x2212 => ": a minus is written `-`",
        0xd7 | 0x22c5 => ": a product is written `*`",
        0xf7 => ": a quotient is written `/`",
        0x2264 => ": it is written `<=`",
        0x2265 => ": it is written `>=`",
        0x2260 => ": it is written `!=`",
        0xa0 | 0x2000..=0x200b | 0x3000 => ": it looks like a space",
        _ => "",
    }
}
