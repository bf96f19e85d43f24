//! Words of bits.
ghost use Rattle.std.specs.Prelude.{◌≡◌, ◌≢◌, ℕ, ◌<◌, ◌≤◌, ◌⊎◌};
ghost use Rattle.std.specs.Int.{bit_at, trailing_zeros, w64};

use rbg_base::Position;

/// Vertices of one column, as bits of a word of the row of a position.
#[derive(Clone, Copy, Drop)]
pub(crate) struct RowWord {
    pub position: Position,
    pub column: usize,
    pub bits: u64,
}

/// The place of the lowest bit of a word.
#[inline(always)]
pub fn lowest(word: u64) -> u32
    requires { 0 < word }
    ensures is { result ≡ trailing_zeros w64 word }
    ensures set { bit_at word result ≡ 1 }
    ensures small { result < 64 }
    ensures below { (b : ℕ) → b < result → bit_at word b ≡ 0 }
{
    word.trailing_zeros()
}

/// The word with one bit.
#[inline(always)]
pub(crate) fn unit_word(bit: u32) -> u64
    requires { bit < 64 }
    ensures only { (b : ℕ) → bit_at result b ≡ 1 → b ≡ bit }
    ensures set { bit_at result bit ≡ 1 }
{
    let mut word = 0;
    word |= 1 << bit;
    word
}

/// A word without one of its bits.
#[inline(always)]
pub fn without(word: u64, bit: u32) -> u64
    requires { bit < 64 }
    ensures gone { bit_at result bit ≡ 0 }
    ensures only { (b : ℕ) → bit_at result b ≡ 1 → bit_at word b ≡ 1 }
    ensures others { (b : ℕ) → b ≢ bit → bit_at result b ≡ bit_at word b }
    ensures less { bit_at word bit ≡ 1 → result < word }
{
    let mut rest = word;
    rest &= !(1 << bit);
    rest
}

/// A word with one more bit.
#[inline(always)]
pub fn with(word: u64, bit: u32) -> u64
    requires { bit < 64 }
    ensures set { bit_at result bit ≡ 1 }
    ensures kept { (b : ℕ) → bit_at word b ≡ 1 → bit_at result b ≡ 1 }
    ensures only { (b : ℕ) → bit_at result b ≡ 1 → (bit_at word b ≡ 1) ⊎ (b ≡ bit) }
{
    word | unit_word(bit)
}

/// The word with all bits.
#[inline(always)]
pub(crate) fn full_word() -> u64
    ensures { (b : ℕ) → b < 64 → bit_at result b ≡ 1 }
{
    !0
}

/// The bits that two words share.
#[inline(always)]
pub(crate) fn shared(word: u64, other: u64) -> u64
    ensures only { (b : ℕ) → bit_at result b ≡ 1 → bit_at word b ≡ 1 }
    ensures both { (b : ℕ) → bit_at result b ≡ 1 → bit_at other b ≡ 1 }
    ensures all { (b : ℕ) → bit_at word b ≡ 1 → bit_at other b ≡ 1 → bit_at result b ≡ 1 }
    ensures few { result ≤ word }
{
    word & other
}
