//! Words of bits, with a list of those that have bits.
ghost use Rattle.std.specs.Prelude.{◌≡◌, ◌≢◌, ℕ, ◌<◌, length, slice_index, slice_set, bit_or, bit_and, IfOk, IfSome, IfNone};
ghost use Rattle.std.specs.Int.{bit_not, w64};
ghost use Rattle.rbg_flat.specs.internal.Sets.{IsLastOf};

use rbg_base::Memory;
use std::alloc::Global;
use std::marker::Model;

/// Words of bits, one for each place. The places whose words have bits are listed, each once, the latest last. To add
/// bits takes no memory.
#[derive(Drop)]
pub(crate) struct BitTable {
    words: Vec<u64>,
    /// The places that are listed, and after them room for all others.
    room: Vec<usize>,
    listed: usize,
}

impl Model for BitTable {
    ghost use Rattle.std.specs.Prelude.{take};
    ghost use Rattle.rbg_flat.specs.internal.Table.{Bits};

    ghost Value = { Bits };

    ghost view = { λ t. record { words = t.words.items; listed = take t.listed t.room.items } };

    ghost use Rattle.rbg_flat.specs.internal.Table.{AreListed};

    ghost invariant = { λ t. AreListed t.words.items t.room.items t.listed };
}

impl BitTable {
    /// No bits, in so many words.
    pub(crate) fn new(alloc: Global, size: usize) -> Result<BitTable, Memory>
        ensures size { IfOk result (λ table. length table.words ≡ size) }
        ensures none { IfOk result (λ table. (p : ℕ) → slice_index table.words p ≡ 0) }
    {
        Ok(BitTable {
            words: vec![in alloc; 0; size]?,
            room: vec![in alloc; 0; size]?,
            listed: 0,
        })
    }

    /// The word at a place.
    #[inline(always)]
    pub(crate) fn word(&self, place: usize) -> u64
        requires { place < length self.now.words }
        ensures { result ≡ slice_index self.now.words place }
    {
        self.words[place]
    }

    /// Adds bits to the word at a place.
    #[inline(always)]
    pub(crate) fn add(&mut self, place: usize, bits: u64)
        requires place { place < length self.old.words }
        requires some { bits ≢ 0 }
        ensures { self.new.words
            ≡ slice_set self.old.words place (bit_or (slice_index self.old.words place) bits) }
    {
        let known = self.words[place];
        self.words[place] = known | bits;
        if known == 0 {
            self.room[self.listed] = place;
            self.listed += 1;
        }
    }

    /// The latest place whose word has bits.
    #[inline(always)]
    pub(crate) fn last(&self) -> Option<usize>
        ensures last { IfSome result (IsLastOf self.now.listed) }
        ensures below { IfSome result (λ p. p < length self.now.words) }
        ensures some { IfSome result (λ p. slice_index self.now.words p ≢ 0) }
        ensures none { IfNone result ((p : ℕ) → slice_index self.now.words p ≡ 0) }
    {
        if self.listed == 0 {
            None
        } else {
            Some(self.room[self.listed - 1])
        }
    }

    /// Takes bits off the word at the latest place.
    #[inline(always)]
    pub(crate) fn take_bits(&mut self, place: usize, bits: u64)
        requires place { place < length self.old.words }
        requires last { IsLastOf self.old.listed place }
        ensures { self.new.words ≡ slice_set self.old.words place
            (bit_and (slice_index self.old.words place) (bit_not w64 bits)) }
    {
        let left = self.words[place] & !bits;
        self.words[place] = left;
        if left == 0 {
            self.listed -= 1;
        }
    }

    /// Clears the word at the latest place.
    #[inline(always)]
    pub(crate) fn clear_last(&mut self, place: usize)
        requires place { place < length self.old.words }
        requires last { IsLastOf self.old.listed place }
        ensures words { self.new.words ≡ slice_set self.old.words place 0 }
        ensures fewer { length self.new.listed < length self.old.listed }
    {
        self.words[place] = 0;
        self.listed -= 1;
    }

    /// Clears all words.
    pub(crate) fn clear(&mut self)
        ensures size { length self.new.words ≡ length self.old.words }
        ensures none { (p : ℕ) → slice_index self.new.words p ≡ 0 }
    {
        while let Some(place) = self.last() {
            self.clear_last(place);
        }
    }
}
