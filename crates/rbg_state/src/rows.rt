//! The vertices on which each piece of the game is, as rows of bits.
ghost use Rattle.std.specs.Prelude.{◌≡◌, ℕ, List, ◌≤◌, ◌<◌, ◌^◌, ◌*◌, ◌/◌, ◌==◌, [], count_by, count_ones, length, IfOk, IfSome, IfNone, OnErr, IsTrue, if◌then◌else◌};
ghost use Rattle.rbg_state.specs.Rows.{IsWordOf, word_of, HasBit, AreRows, ChangesBit, ChangesWord};

use crate::occupancy::refill;
use rbg_base::{Memory, Piece, Vertex};
use std::alloc::Global;

/// For each of the first pieces a row of bits: the vertices on which it is, 64 in a word.
#[derive(Drop)]
pub(crate) struct Rows {
    /// How many words a row has.
    columns: usize,
    words: Vec<u64>,
    ghost narrow: { columns < 2 ^ 32 },
}

impl Rows {
    /// The rows of the first `kinds` pieces, for these pieces on the vertices.
    pub(crate) fn of(alloc: Global, pieces: &[Piece], kinds: usize) -> Result<Rows, Memory>
        requires few { length pieces.now < 2 ^ 16 }
        ensures rows { IfOk result (λ rows. AreRows pieces.now (length pieces.now) rows.columns rows.words.items) }
        ensures wide { IfOk result (λ rows. length pieces.now ≤ rows.columns * 64) }
    {
        let columns = (pieces.len() + 63) / 64;
        let mut rows = Rows {
            columns,
            words: vec![in alloc; 0; kinds.saturating_mul(columns)]?,
        };
        rows.place_all(pieces);
        Ok(rows)
    }

    /// Sets the bit of each piece and its vertex, in rows without any bit.
    fn place_all(&mut self, pieces: &[Piece])
        requires few { length pieces.now < 2 ^ 16 }
        requires wide { length pieces.now ≤ self.old.columns * 64 }
        requires none { AreRows pieces.now 0 self.old.columns self.old.words.items }
        ensures columns { self.new.columns ≡ self.old.columns }
        ensures rows { AreRows pieces.now (length pieces.now) self.new.columns self.new.words.items }
    {
        for index in 0..pieces.len() {
            self.change(pieces[index], index as Vertex, true);
        }
    }

    /// No rows.
    pub(crate) fn empty(alloc: Global) -> Rows
        ensures { result.words.items ≡ [] }
    {
        Rows {
            columns: 0,
            words: Vec::new(alloc),
        }
    }

    pub(crate) fn try_clone(&self) -> Result<Rows, Memory>
        ensures columns { IfOk result (λ copy. copy.columns ≡ self.now.columns) }
        ensures words { IfOk result (λ copy. copy.words.items ≡ self.now.words.items) }
    {
        Ok(Rows {
            columns: self.columns,
            words: self.words.clone()?,
        })
    }

    /// Whether there are as many words as in the other rows.
    #[inline(always)]
    pub(crate) fn are_as_many(&self, other: &Rows) -> bool
        ensures { IsTrue result → length self.now.words.items ≡ length other.now.words.items }
    {
        self.words.len() == other.words.len()
    }

    /// Becomes a copy of other rows, which have as many words.
    #[inline(always)]
    pub(crate) fn copy_over(&mut self, other: &Rows)
        requires { length self.old.words.items ≡ length other.now.words.items }
        ensures columns { self.new.columns ≡ other.now.columns }
        ensures words { self.new.words.items ≡ other.now.words.items }
    {
        self.columns = other.columns;
        self.words.copy_from_slice(&other.words);
    }

    /// Drops all rows. After that `fill` makes a copy of these.
    pub(crate) fn clear_for(&mut self, other: &Rows)
        ensures columns { self.new.columns ≡ other.now.columns }
        ensures words { self.new.words.items ≡ [] }
    {
        self.columns = other.columns;
        self.words.clear();
    }

    /// Becomes a copy of others. Allocates only if its buffer has no room.
    pub(crate) fn fill(&mut self, other: &Rows) -> Result<(), Memory>
        ensures columns { self.new.columns ≡ other.now.columns }
        ensures words { IfOk result (λ _. self.new.words.items ≡ other.now.words.items) }
        ensures refused { OnErr result (self.new.words.items ≡ []) }
    {
        self.columns = other.columns;
        refill(&mut self.words, &other.words)
    }

    /// A word of the row of a piece, if it has a row.
    #[inline(always)]
    pub(crate) fn row_word(&self, piece: Piece, column: usize) -> Option<u64>
        requires { column < self.now.columns }
        ensures { (pieces : List ℕ) → AreRows pieces (length pieces) self.now.columns self.now.words.items
            → length pieces ≤ self.now.columns * 64
            → IfSome result (IsWordOf pieces piece column) }
    {
        let place = piece as usize * self.columns + column;
        if place < self.words.len() {
            Some(self.words[place])
        } else {
            None
        }
    }

    /// The number of vertices on which a piece is. Returns None if the piece has no row.
    pub(crate) fn count(&self, piece: Piece) -> Option<usize>
        ensures { (pieces : List ℕ) → AreRows pieces (length pieces) self.now.columns self.now.words.items
            → length pieces ≤ self.now.columns * 64
            → IfSome result (λ many. many ≡ count_by (λ x. x == piece) pieces) }
    {
        let start = piece as usize * self.columns;
        if start + self.columns > self.words.len() {
            return None;
        }
        let mut many = 0;
        for column in 0..self.columns {
            many += count_bits(self.words[start + column]);
        }
        Some(many)
    }

    /// The word that has the bit of a piece and a vertex, if there is one.
    #[inline(always)]
    fn word(&self, piece: Piece, vertex: Vertex) -> Option<usize>
        requires { vertex / 64 < self.now.columns }
        ensures some { IfSome result (λ word. word ≡ word_of self.now.columns piece vertex) }
        ensures there { IfSome result (λ _. HasBit self.now.columns (length self.now.words.items) piece vertex) }
        ensures within { IfSome result (λ word. word < length self.now.words.items) }
        ensures none { IfNone result (¬ HasBit self.now.columns (length self.now.words.items) piece vertex) }
    {
        let column = vertex as usize / 64;
        let word = piece as usize * self.columns + column;
        if word < self.words.len() {
            Some(word)
        } else {
            None
        }
    }

    /// Sets the bit of a piece and a vertex, or clears it.
    #[inline(always)]
    pub(crate) fn change(&mut self, piece: Piece, vertex: Vertex, stands: bool)
        requires { vertex / 64 < self.old.columns }
        ensures columns { self.new.columns ≡ self.old.columns }
        ensures changed { ChangesBit self.old.columns self.old.words.items self.new.words.items
            piece vertex (if stands then 1 else 0) }
    {
        let Some(word) = self.word(piece, vertex) else {
            return;
        };
        if stands {
            set_bit(&mut self.words, word, vertex % 64);
        } else {
            clear_bit(&mut self.words, word, vertex % 64);
        }
    }
}

/// How many bits of a word are set.
#[inline(always)]
fn count_bits(word: u64) -> usize
    ensures ones { result ≡ count_ones word }
    ensures few { result ≤ 64 }
    ensures fits { word < 2 ^ 64 }
{
    word.count_ones() as usize
}

/// Sets a bit of a word.
#[inline(always)]
fn set_bit(words: &mut Vec<u64>, word: usize, bit: u32)
    requires word { word < length words.old.items }
    requires bit { bit < 64 }
    ensures { ChangesWord words.old.items words.new.items word bit 1 }
{
    words[word] |= 1 << bit;
}

/// Clears a bit of a word.
#[inline(always)]
fn clear_bit(words: &mut Vec<u64>, word: usize, bit: u32)
    requires word { word < length words.old.items }
    requires bit { bit < 64 }
    ensures { ChangesWord words.old.items words.new.items word bit 0 }
{
    words[word] &= !(1 << bit);
}
