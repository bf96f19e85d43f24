//! The file beside a log that names its match: the digest of the description, and who plays.
ghost use Rattle.std.specs.Prelude.{◌≡◌, ◌≢◌, ◌++◌, ◌∷◌, [], ℕ, List, IfNone, IfOk, IfSome, OnOk, Some, option_map};
ghost use Rattle.sha2.specs.Sha256.{sha256};
ghost use Rattle.rbg_network.specs.GameFiles.{IsNaming, IsTail, digest_line, game_text, names_line};

use rbg_wire::after_text;
use sha2::{Digest, Sha256};
use std::alloc::{AllocError, Global};

/// What a game file says of a description.
#[derive(Clone, Copy)]
pub enum Naming<'a> {
    /// It names this description, and the players, if it has their names.
    This(Option<&'a [u8]>),
    /// It names another description, or isn't of its form.
    Other,
}

/// The text of the game file of a match: a line with the digest of the description, and one with the players' names, if
/// they are known.
pub fn spell_game(
    alloc: Global,
    description: &[u8],
    names: Option<&str>,
) -> Result<Vec<u8>, AllocError>
    ensures { IfOk result (λ text. text.items
        ≡ game_text (sha256 description.now) (option_map (λ one. one.now) names.entry)) }
{
    let mut text = first_line(alloc, description)?;
    if let Some(names) = names {
        push_names(names, &mut text)?;
    }
    Ok(text)
}

/// Reads the text of a game file, for a match of this description.
pub fn read_game<'a>(
    alloc: Global,
    text: &'a [u8],
    description: &[u8],
) -> Result<Naming<'a>, AllocError>
    ensures { IfOk result (IsNaming text.now (sha256 description.now)) }
{
    let line = first_line(alloc, description)?;
    match after_text(line.as_slice(), text) {
        Some(tail) => Ok(naming_of(tail)),
        None => Ok(Naming::Other),
    }
}

/// The line with the digest of a description.
fn first_line(alloc: Global, description: &[u8]) -> Result<Vec<u8>, AllocError>
    ensures { IfOk result (λ line. line.items ≡ digest_line (sha256 description.now)) }
{
    let digest = Sha256::digest(description);
    let digits = hex::encode(alloc, digest)?;
    let mut line = Vec::new(alloc);
    line.extend_from_slice(b"sha256 ")?;
    line.extend_from_slice(digits.as_bytes())?;
    line.push(b'\n')?;
    Ok(line)
}

/// Appends the line with the players' names.
fn push_names(names: &str, text: &mut Vec<u8>) -> Result<(), AllocError>
    ensures { OnOk result (text.new.items ≡ text.old.items ++ names_line (Some names.now)) }
{
    text.extend_from_slice(b"names ")?;
    text.extend_from_slice(names.as_bytes())?;
    text.push(b'\n')?;
    Ok(())
}

/// What the text after the digest's line says.
fn naming_of(tail: &[u8]) -> Naming<'_>
    ensures { IsTail tail.now result }
{
    if tail.is_empty() {
        return Naming::This(None);
    }
    match after_text(b"names ", tail) {
        Some(line) => match before_line_feed(line) {
            Some(names) => Naming::This(Some(names)),
            None => Naming::Other,
        },
        None => Naming::Other,
    }
}

/// What stands before the line feed at the end, if there is one.
fn before_line_feed(text: &[u8]) -> Option<&[u8]>
    ensures found { IfSome result (λ before. text.now ≡ before.now ++ 10 ∷ []) }
    ensures none { IfNone result ((before : List ℕ) → text.now ≢ before ++ 10 ∷ []) }
{
    let (last, before) = text.split_last()?;
    if *last == b'\n' { Some(before) } else { None }
}
