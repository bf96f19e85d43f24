//! Numbers and moves, digit by digit: most of an answer's numbers are short, and an answer has many.
ghost use Rattle.std.specs.Prelude.{◌+◌, ◌<◌, ◌%◌, ◌++◌, ◌∷◌, [], codes, decimal};
ghost use Rattle.std.specs.List.{flat_map};
ghost use Rattle.rbg_wire.specs.Messages.{pair_text, pairs_text};
ghost use Rattle.rbg_wire.specs.Writing.{Appends};

use rbg_base::{Memory, Pair};
use rbg_wire::put_number;

/// Appends the pairs of a move, as in messages.
#[tactic(auto, unfolding(rbg_wire::specs::Messages::pairs_text))]
pub(crate) fn put_pairs(pairs: &[Pair], out: &mut Vec<u8>) -> Result<(), Memory>
    ensures { Appends out.old.items out.new.items (pairs_text pairs.now) result }
{
    let Some((first, others)) = pairs.split_first() else {
        return Ok(());
    };
    put_pair(*first, out)?;
    put_more_pairs(others, out)
}

fn put_more_pairs(pairs: &[Pair], out: &mut Vec<u8>) -> Result<(), Memory>
    ensures { Appends out.old.items out.new.items (flat_map (λ p.
        codes " " ++ pair_text p) pairs.now) result }
{
    for pair in pairs {
        put_next_pair(*pair, out)?;
    }
    Ok(())
}

fn put_pair(pair: Pair, out: &mut Vec<u8>) -> Result<(), Memory>
    ensures { Appends out.old.items out.new.items (pair_text pair) result }
{
    put_digits(pair.vertex, out)?;
    put_spaced(pair.position, out)
}

/// Appends a space, and a pair.
fn put_next_pair(pair: Pair, out: &mut Vec<u8>) -> Result<(), Memory>
    ensures { Appends out.old.items out.new.items (codes " " ++ pair_text pair) result }
{
    out.push(b' ')?;
    put_pair(pair, out)
}

/// Appends a space, and the digits of a number.
pub(crate) fn put_spaced(number: u32, out: &mut Vec<u8>) -> Result<(), Memory>
    ensures { Appends out.old.items out.new.items (codes " " ++ decimal number) result }
{
    out.push(b' ')?;
    put_digits(number, out)
}

/// Appends the digits of a number.
fn put_digits(number: u32, out: &mut Vec<u8>) -> Result<(), Memory>
    ensures { Appends out.old.items out.new.items (decimal number) result }
{
    if number < 1_000 {
        return put_three_digits(number, out);
    }
    if number < 10_000 {
        put_three_digits(number / 10, out)?;
        return put_last_digit(number, out);
    }
    put_number(b"", u64::from(number), out)
}

/// Appends the digits of a number that has three or fewer.
#[inline(always)]
fn put_three_digits(number: u32, out: &mut Vec<u8>) -> Result<(), Memory>
    requires { number < 1000 }
    ensures { Appends out.old.items out.new.items (decimal number) result }
{
    if number < 100 {
        return put_two_digits(number, out);
    }
    put_two_digits(number / 10, out)?;
    put_last_digit(number, out)
}

/// Appends the digits of a number that has one or two.
#[inline(always)]
fn put_two_digits(number: u32, out: &mut Vec<u8>) -> Result<(), Memory>
    requires { number < 100 }
    ensures { Appends out.old.items out.new.items (decimal number) result }
{
    if number < 10 {
        return put_last_digit(number, out);
    }
    put_last_digit(number / 10, out)?;
    put_last_digit(number, out)
}

/// Appends the last digit of a number.
#[inline(always)]
fn put_last_digit(number: u32, out: &mut Vec<u8>) -> Result<(), Memory>
    ensures { Appends out.old.items out.new.items ((48 + number % 10) ∷ []) result }
{
    out.push(b'0' + (number % 10) as u8)?;
    Ok(())
}
