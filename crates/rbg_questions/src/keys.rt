//! The keys of places.
ghost use Rattle.std.specs.Prelude.{◌≡◌};
ghost use Rattle.rbg_questions.specs.Keys.{key_of, mixed, mixed_all, number_of_last};

use crate::stepping::values_at;
use rbg_base::{Piece, Position};
use rbg_moves::Place;

/// The number by which a key is multiplied.
const FACTOR: u64 = 6_364_136_223_846_793_005;

/// The greatest prime below 2^64.
const MODULUS: u64 = 18_446_744_073_709_551_557;

/// The key of a place.
pub fn key_of(place: &Place) -> u64
    ensures { result ≡ key_of place.now }
{
    let key = mix(0, u64::from(place.state.player()));
    let key = mix(key, u64::from(place.state.vertex()));
    let key = mix(key, number_of(place.after));
    mix_pieces(mix_values(key, values_at(place)), place.state.pieces())
}

/// The key after one more number.
#[inline(always)]
fn mix(key: u64, number: u64) -> u64
    ensures { result ≡ mixed key number }
{
    let mixed = u128::from(key) * u128::from(FACTOR) + u128::from(number) + 1;
    (mixed % u128::from(MODULUS)) as u64
}

fn mix_values(first: u64, values: &[u32]) -> u64
    ensures { result ≡ mixed_all first values.now }
{
    let mut key = first;
    for value in values {
        key = mix(key, u64::from(*value));
    }
    key
}

fn mix_pieces(first: u64, pieces: &[Piece]) -> u64
    ensures { result ≡ mixed_all first pieces.now }
{
    let mut key = first;
    for piece in pieces {
        key = mix(key, u64::from(*piece));
    }
    key
}

/// The number of the last action; 0 where there is none.
fn number_of(last: Option<Position>) -> u64
    ensures { result ≡ number_of_last last }
{
    match last {
        None => 0,
        Some(position) => u64::from(position) + 1,
    }
}
