//! The calls that read the pairs of a move. They allocate nothing.
ghost use Rattle.std.specs.Prelude.{◌≡◌, ℕ, List, [], ◌∷◌, decimal, IfOk, IfErr, IfSome, IfNone};
ghost use Rattle.rbg_wire.specs.Messages.{IsShortPair};
ghost use Rattle.rbg_wire.specs.Reading.{SpellsPairs, SpellsMove, ReadsPairs, TellsPairs, ArePairWords};
ghost use Rattle.rbg_wire.specs.Words.{words_left};

use crate::WireError;
use crate::number_reader::short_number;
use crate::words::Words;
use rbg_base::{Move, Pair};

/// The move whose message is the whole text: `M<pairs>`.
///
/// Returns `TooManyPairs` if the text is the message of more than 200 pairs, and `Malformed` if it is no message of a
/// move.
pub fn read_move(text: &[u8]) -> Result<Move, WireError>
    ensures { TellsPairs (SpellsMove text.now) result }
{
    move_of(text)
}

/// The pairs that the whole text spells, as in a message of a move.
///
/// Returns `TooManyPairs` if the text spells more than 200 pairs, and `Malformed` if it spells no pairs.
pub fn read_pairs(text: &[u8]) -> Result<Move, WireError>
    ensures { TellsPairs (SpellsPairs text.now) result }
{
    pairs_of(text)
}

fn move_of(text: &[u8]) -> Result<Move, WireError>
    ensures { ReadsPairs (SpellsMove text.now) result }
{
    let Some((letter, pairs)) = text.split_first() else {
        return Err(WireError::Malformed);
    };
    if *letter != b'M' {
        return Err(WireError::Malformed);
    }
    pairs_of(pairs)
}

// A text may be malformed after the 200th pair, so all pairs are read.
pub(crate) fn pairs_of(text: &[u8]) -> Result<Move, WireError>
    ensures { ReadsPairs (SpellsPairs text.now) result }
{
    let mut words = Words::of(text);
    let Some(first) = next_pair(&mut words)? else {
        return Err(WireError::Malformed);
    };
    let mut pairs = Move::new(first);
    let mut too_many = false;
    while let Some(pair) = next_pair(&mut words)? {
        if pairs.is_full() {
            too_many = true;
            continue;
        }
        pairs.push(pair);
    }
    if too_many {
        return Err(WireError::TooManyPairs);
    }
    Ok(pairs)
}

// The pair of the next two words, or None if no word is left.
#[tactic(auto, using(crate::proofs::PairLemmas::second_no_number))]
fn next_pair(words: &mut Words<'_>) -> Result<Option<Pair>, WireError>
    ensures found { IfOk result (λ found. IfSome found (λ p.
        IsShortPair p × (words_left words.old
        ≡ decimal p.0 ∷ decimal p.1 ∷ words_left words.new))) }
    ensures end { IfOk result (λ found. IfNone found (words_left words.old ≡ [])) }
    ensures none { IfErr result (λ e.
        (e ≡ WireError.Malformed)
        × ((pairs : List (ℕ × ℕ)) → ArePairWords (words_left words.old) pairs → ⊥)) }
{
    let Some(vertex) = words.next() else {
        return Ok(None);
    };
    let Some(vertex) = short_number(vertex) else {
        return Err(WireError::Malformed);
    };
    let Some(position) = words.next() else {
        return Err(WireError::Malformed);
    };
    let Some(position) = short_number(position) else {
        return Err(WireError::Malformed);
    };
    Ok(Some(Pair { vertex, position }))
}
