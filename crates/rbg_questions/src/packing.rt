//! Places that are packed and unpacked.
ghost use Rattle.std.specs.Prelude.{◌≡◌, ◌≢◌, ◌≤◌, ◌+◌, ◌*◌, ◌<◌, ◌^◌, ◌∷◌, [], ℕ, List, All, IfErr, IfNone, IfOk, IfSome, Ok, length, slice_index};
ghost use Rattle.std.specs.Bool.{OnFalse};
ghost use Rattle.std.specs.List.{flat_map};
ghost use Rattle.hex.specs.Hex.{IsBytes, decode_of, encode_lower};
ghost use Rattle.hex.specs.declared.error.FromHexError.TheVariants.{OutOfMemory};
ghost use Rattle.rbg_rules.specs.Meaning.{AbstractPlace, IsPlaceOf};
ghost use Rattle.rbg_questions.specs.internal.Places.{IsNotUnpacked};
ghost use Rattle.rbg_questions.specs.Packing.{in_two, in_four, numbers_of, packed_of, packed_text, position_of};

use crate::packing_writer::{FORM, put_packed};
use crate::question_error::QuestionError;
use hex::FromHexError;
use rbg_base::{Memory, Position};
use rbg_moves::{GamePlace, Place, PlayedGame};
use rbg_rules::Game;
use rbg_state::LentState;
use std::alloc::Global;

/// The bytes of a place.
pub fn pack(alloc: Global, at: &GamePlace<'_>) -> Result<Vec<u8>, Memory>
    ensures { IfOk result (λ bytes. bytes.items ≡ packed_of at.now.place) }
{
    let mut bytes = Vec::new(alloc);
    put_packed(at, &mut bytes)?;
    Ok(bytes)
}

/// The place of this text, if a place of the game is packed so.
pub(crate) fn place_in(
    alloc: Global,
    game: &PlayedGame,
    text: &[u8],
) -> Result<Place, QuestionError>
    ensures fits { IfOk result (IsPlaceOf game.now) }
    ensures text { IfOk result (λ place. text.now ≡ packed_text place) }
    ensures refused { IfErr result (IsNotUnpacked game.now text.now) }
{
    match unpack_text(alloc, game.as_game(), text)? {
        Some(place) => Ok(place),
        None => Err(QuestionError::NoPlace),
    }
}

/// The place of this text. None if no place of the game is packed so.
fn unpack_text(alloc: Global, game: &Game, text: &[u8]) -> Result<Option<Place>, Memory>
    ensures fits { IfOk result (λ found. IfSome found (IsPlaceOf game.now)) }
    ensures text { IfOk result (λ found. IfSome found (λ place. text.now ≡ packed_text place)) }
    ensures none { IfOk result (λ found. IfNone found ((place : AbstractPlace)
        → IsPlaceOf game.now place → text.now ≢ packed_text place)) }
{
    match bytes_of(alloc, text)? {
        Some(bytes) => unpack(alloc, game, &bytes),
        None => Ok(None),
    }
}

/// The bytes that hexadecimal digits with small letters spell.
fn bytes_of(alloc: Global, text: &[u8]) -> Result<Option<Vec<u8>>, Memory>
    ensures found { IfOk result (λ found. IfSome found (λ bytes. text.now ≡ encode_lower bytes.items)) }
    ensures decoded { IfOk result (λ found. IfSome found (λ bytes. decode_of text.now ≡ Ok bytes.items)) }
    ensures none { IfOk result (λ found. IfNone found ((bytes : List ℕ)
        → IsBytes bytes → text.now ≢ encode_lower bytes)) }
{
    match hex::decode(alloc, text) {
        Ok(bytes) => {
            let small = hex::encode(alloc, bytes.as_slice())?;
            if small.as_bytes() == text {
                Ok(Some(bytes))
            } else {
                Ok(None)
            }
        }
        Err(error) => {
            if is_memory(error) {
                Err(Memory)
            } else {
                Ok(None)
            }
        }
    }
}

fn is_memory(error: FromHexError) -> bool
    ensures { OnFalse result (error ≡ OutOfMemory → ⊥) }
{
    matches!(error, FromHexError::OutOfMemory)
}

/// The place of these bytes. None if no place of the game is packed so.
pub fn unpack(alloc: Global, game: &Game, bytes: &[u8]) -> Result<Option<Place>, Memory>
    ensures fits { IfOk result (λ found. IfSome found (IsPlaceOf game.now)) }
    ensures bytes { IfOk result (λ found. IfSome found (λ place. bytes.now ≡ packed_of place)) }
    ensures none { IfOk result (λ found. IfNone found ((place : AbstractPlace)
        → IsPlaceOf game.now place → bytes.now ≢ packed_of place)) }
{
    let Some((form, rest)) = bytes.split_first() else {
        return Ok(None);
    };
    let count = 3 + game.board().len();
    if *form != FORM || rest.len() != 2 * count + 4 * game.variables() {
        return Ok(None);
    }
    let (first, last) = rest.split_at(2 * count);
    let numbers = read_twos(alloc, count, first)?;
    let values = read_fours(alloc, game.variables(), last)?;
    place_of(alloc, game, &numbers, &values)
}

/// The place that has these numbers and values, if the game has it.
fn place_of(
    alloc: Global,
    game: &Game,
    numbers: &[u16],
    values: &[u32],
) -> Result<Option<Place>, Memory>
    requires { 3 ≤ length numbers.now }
    ensures fits { IfOk result (λ found. IfSome found (IsPlaceOf game.now)) }
    ensures numbers { IfOk result (λ found. IfSome found (λ place. numbers_of place ≡ numbers.now)) }
    ensures values { IfOk result (λ found. IfSome found (λ place. place.state.values ≡ values.now)) }
    ensures none { IfOk result (λ found. IfNone found ((place : AbstractPlace)
        → IsPlaceOf game.now place → numbers_of place ≡ numbers.now
        → place.state.values ≢ values.now)) }
{
    let parts = LentState {
        player: numbers[0],
        vertex: u32::from(numbers[1]),
        pieces: &numbers[3..],
        values,
    };
    let place = Place::of(alloc, game, &parts, last_of(numbers[2]));
    let LentState {
        player: _,
        vertex: _,
        pieces: _,
        values: _,
    } = parts;
    place
}

/// The position of the last action that this number stands for.
fn last_of(number: u16) -> Option<Position>
    ensures is { position_of result ≡ number }
    ensures some { IfSome result (λ position. 0 < position) }
{
    if number == 0 {
        None
    } else {
        Some(u32::from(number))
    }
}

/// So many numbers of two bytes each.
fn read_twos(alloc: Global, count: usize, bytes: &[u8]) -> Result<Vec<u16>, Memory>
    requires { length bytes.now ≡ 2 * count }
    ensures bytes { IfOk result (λ numbers. flat_map in_two numbers.items ≡ bytes.now) }
    ensures many { IfOk result (λ numbers. length numbers.items ≡ count) }
    ensures small { IfOk result (λ numbers. All (λ number. number < 2 ^ 16) numbers.items) }
{
    let mut numbers = Vec::with_capacity(alloc, count)?;
    for index in 0..count {
        numbers.push(two_at(bytes, 2 * index))?;
    }
    Ok(numbers)
}

/// The number of the two bytes at a place.
fn two_at(bytes: &[u8], at: usize) -> u16
    requires { at + 2 ≤ length bytes.now }
    ensures bytes { in_two result
        ≡ slice_index bytes.now at ∷ slice_index bytes.now (at + 1) ∷ [] }
    ensures small { result < 2 ^ 16 }
{
    u16::from_be_bytes([bytes[at], bytes[at + 1]])
}

/// So many numbers of four bytes each.
fn read_fours(alloc: Global, count: usize, bytes: &[u8]) -> Result<Vec<u32>, Memory>
    requires { length bytes.now ≡ 4 * count }
    ensures bytes { IfOk result (λ numbers. flat_map in_four numbers.items ≡ bytes.now) }
    ensures many { IfOk result (λ numbers. length numbers.items ≡ count) }
    ensures small { IfOk result (λ numbers. All (λ number. number < 2 ^ 32) numbers.items) }
{
    let mut numbers = Vec::with_capacity(alloc, count)?;
    for index in 0..count {
        numbers.push(four_at(bytes, 4 * index))?;
    }
    Ok(numbers)
}

/// The number of the four bytes at a place.
fn four_at(bytes: &[u8], at: usize) -> u32
    requires { at + 4 ≤ length bytes.now }
    ensures bytes { in_four result
        ≡ slice_index bytes.now at ∷ slice_index bytes.now (at + 1) ∷ slice_index bytes.now (at + 2)
        ∷ slice_index bytes.now (at + 3) ∷ [] }
    ensures small { result < 2 ^ 32 }
{
    u32::from_be_bytes([bytes[at], bytes[at + 1], bytes[at + 2], bytes[at + 3]])
}
