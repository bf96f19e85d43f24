//! Sets of vertices for each position: what was met, and what of it is still to be looked at.
ghost use Rattle.std.specs.Prelude.{◌≡◌, ◌≢◌, ℕ, ◌<◌, ◌≤◌, ◌+◌, ◌/◌, ◌%◌, ◌*◌, ◌^◌, ◌⊎◌, length, slice_index, bit_or, IfOk, IfSome, IfNone, IsTrue};
ghost use Rattle.std.specs.Int.{bit_at};
ghost use Rattle.rbg_flat.specs.internal.Sets.{MeetsWord, IsInWord, ClosesWord, IsMarked, IsOpen, IsLastOf};
ghost use Rattle.rbg_flat.specs.internal.Places.{ForgetsPlace};

use crate::table::BitTable;
use crate::words::{RowWord, lowest, shared};
use rbg_base::{Memory, Position, Vertex};
use std::alloc::Global;
use std::marker::Model;

/// A row of vertices for each position, a bit for each, 64 in a word.
#[derive(Drop)]
pub(crate) struct Sets {
    size: usize,
    /// How many words a row has: 2 to the power of `shift`, so that a place is split into its position and its column
    /// without a division.
    columns: usize,
    shift: u32,
    /// What was met.
    marks: BitTable,
    /// What of it is still to be looked at.
    pending: BitTable,
    ghost doubled: { columns ≡ 2 ^ shift },
    ghost few: { shift ≤ 6 },
}

impl Model for Sets {
    ghost use Rattle.rbg_flat.specs.internal.Sets.{SetsOfVertices};

    ghost Value = { SetsOfVertices };

    ghost view = { λ s. record {
      size = s.size;
      columns = s.columns;
      marks = s.marks.words;
      pending = s.pending.words;
      waiting = s.pending.listed;
      touched = s.marks.listed;
    } };

    ghost use Rattle.rbg_flat.specs.internal.Sets.{sets_of};
    ghost use Rattle.rbg_flat.specs.internal.Places.{AreSetsByPlace};

    ghost invariant = { λ s. AreSetsByPlace
        (sets_of s.size s.columns s.marks.words s.pending.words s.pending.listed s.marks.listed) };
}

impl Sets {
    /// Nothing was met yet, for the positions below a size and rows of 2 to the power of `shift` words.
    pub(crate) fn new(alloc: Global, size: usize, shift: u32) -> Result<Sets, Memory>
        requires size { size < 2 ^ 32 }
        requires few { shift ≤ 6 }
        ensures size { IfOk result (λ sets. sets.size ≡ size) }
        ensures columns { IfOk result (λ sets. sets.columns ≡ 2 ^ shift) }
    {
        let columns = 1 << shift;
        Ok(Sets {
            size,
            columns,
            shift,
            marks: BitTable::new(alloc, size * columns)?,
            pending: BitTable::new(alloc, size * columns)?,
        })
    }

    /// Forgets what was met.
    pub(crate) fn clear(&mut self)
        ensures size { self.new.size ≡ self.old.size }
        ensures columns { self.new.columns ≡ self.old.columns }
        ensures none { (v p : ℕ) → ¬ IsMarked self.new v p }
        ensures closed { (v p : ℕ) → ¬ IsOpen self.new v p }
    {
        self.pending.clear();
        self.marks.clear();
    }

    /// Nothing is to be looked at any more. What was met stays.
    pub(crate) fn close_all(&mut self)
        ensures size { self.new.size ≡ self.old.size }
        ensures columns { self.new.columns ≡ self.old.columns }
        ensures marks { self.new.marks ≡ self.old.marks }
        ensures closed { (v p : ℕ) → ¬ IsOpen self.new v p }
    {
        self.pending.clear();
    }

    /// Forgets what was met at the place that was touched last. It is asked once nothing is open any more.
    #[inline(always)]
    pub(crate) fn forget(&mut self, place: usize)
        requires place { place < length self.old.marks }
        requires last { IsLastOf self.old.touched place }
        requires closed { (v p : ℕ) → ¬ IsOpen self.old v p }
        ensures size { self.new.size ≡ self.old.size }
        ensures columns { self.new.columns ≡ self.old.columns }
        ensures pending { self.new.pending ≡ self.old.pending }
        ensures forgets { ForgetsPlace self.old self.new place }
        ensures fewer { length self.new.touched < length self.old.touched }
    {
        self.marks.clear_last(place);
    }

    /// How many words a row has.
    pub(crate) fn columns(&self) -> usize
        ensures is { result ≡ self.now.columns }
        ensures few { result ≤ 64 }
    {
        self.columns
    }

    /// The position of a place.
    #[inline(always)]
    pub(crate) fn position_at(&self, place: usize) -> Position
        requires place { place < length self.now.marks }
        requires small { self.now.size ≤ 2 ^ 32 }
        ensures is { result ≡ place / self.now.columns }
        ensures below { result < self.now.size }
    {
        (place >> self.shift) as Position
    }

    /// The column of a place.
    #[inline(always)]
    pub(crate) fn column_at(&self, place: usize) -> usize
        requires place { place < length self.now.marks }
        ensures is { result ≡ place % self.now.columns }
        ensures below { result < self.now.columns }
    {
        place & (self.columns - 1)
    }

    /// What was met in the word at a place.
    #[inline(always)]
    pub(crate) fn met_at(&self, place: usize) -> u64
        requires place { place < length self.now.marks }
        ensures is { result ≡ slice_index self.now.marks place }
        ensures column { place % self.now.columns < self.now.columns }
    {
        self.marks.word(place)
    }

    /// The place that was touched last; none where nothing is met.
    #[inline(always)]
    pub(crate) fn last_touched(&self) -> Option<usize>
        ensures below { IfSome result (λ p. p < length self.now.marks) }
        ensures last { IfSome result (λ p. IsLastOf self.now.touched p) }
        ensures none { IfNone result ((v p : ℕ) → ¬ IsMarked self.now v p) }
    {
        self.marks.last()
    }

    /// Where a word of the row of a position is.
    #[inline(always)]
    pub(crate) fn place(&self, position: Position, column: usize) -> usize
        requires position { position < self.now.size }
        requires column { column < self.now.columns }
        ensures place { result ≡ position * self.now.columns + column }
        ensures marks { result < length self.now.marks }
        ensures pending { result < length self.now.pending }
    {
        ((position as usize) << self.shift) + column
    }

    /// Where the row of a position is, where each row has one word.
    #[inline(always)]
    pub(crate) fn narrow_place(&self, position: Position) -> usize
        requires position { position < self.now.size }
        requires one { self.now.columns ≡ 1 }
        ensures place { result ≡ position * self.now.columns + 0 }
        ensures marks { result < length self.now.marks }
    {
        // there are as many words as positions
        let _columns = self.columns;
        position as usize
    }

    /// Whether all bits of a word of the row of a position, which is at a place, were met before.
    #[inline(always)]
    pub(crate) fn knows(&self, place: usize, position: Position, column: usize, word: u64) -> bool
        requires place { place < length self.now.marks }
        requires at { place ≡ position * self.now.columns + column }
        requires column { column < self.now.columns }
        ensures { IsTrue result → (v p : ℕ) → IsInWord position column word v p
            → IsMarked self.now v p }
    {
        new_of(word, self.marks.word(place)) == 0
    }

    /// Meets the bits of a word of the row of a position, which is at a place. What is new of them is to be looked at
    /// where `opens` has a bit too.
    #[inline(always)]
    pub(crate) fn meet_word(&mut self, place: usize, word: RowWord, opens: u64)
        requires place { place < length self.old.marks }
        requires at { place ≡ word.position * self.old.columns + word.column }
        requires column { word.column < self.old.columns }
        ensures { MeetsWord self.old self.new word.position word.column word.bits opens }
    {
        let new = new_of(word.bits, self.marks.word(place));
        if new == 0 {
            return;
        }
        self.marks.add(place, new);
        let open = shared(new, opens);
        if open != 0 {
            self.pending.add(place, open);
        }
    }

    /// These bits of the word at the latest waiting place are no longer open.
    #[inline(always)]
    pub(crate) fn close_word(&mut self, place: usize, position: Position, column: usize, word: u64)
        requires place { place < length self.old.marks }
        requires last { IsLastOf self.old.waiting place }
        requires at { place ≡ position * self.old.columns + column }
        requires column { column < self.old.columns }
        ensures { ClosesWord self.old self.new position column word }
    {
        self.pending.take_bits(place, word);
    }

    /// What is open in the word of the row of a position, which is at a place.
    #[inline(always)]
    pub(crate) fn open_at(&self, place: usize, position: Position, column: usize) -> u64
        requires place { place < length self.now.marks }
        requires at { place ≡ position * self.now.columns + column }
        requires column { column < self.now.columns }
        ensures is { result ≡ slice_index self.now.pending place }
        ensures open { (b : ℕ) → bit_at result b ≡ 1 → IsOpen self.now (column * 64 + b) position }
        ensures there { (b : ℕ) → bit_at result b ≡ 1
            → (b < 64) × IsMarked self.now (column * 64 + b) position }
    {
        self.pending.word(place)
    }

    /// The first vertex that is open at a place.
    #[inline(always)]
    pub(crate) fn first_open(&self, place: usize) -> Vertex
        requires place { place < length self.now.marks }
        requires some { slice_index self.now.pending place ≢ 0 }
        requires narrow { self.now.columns < 2 ^ 16 }
        ensures open { IsOpen self.now result (place / self.now.columns) }
        ensures marked { IsMarked self.now result (place / self.now.columns) }
        ensures column { result / 64 ≡ place % self.now.columns }
        ensures at { place ≡ place / self.now.columns * self.now.columns + result / 64 }
    {
        self.column_at(place) as Vertex * 64 + lowest(self.pending.word(place))
    }

    /// The latest place at which something is open.
    #[inline(always)]
    pub(crate) fn waiting(&self) -> Option<usize>
        ensures below { IfSome result (λ p. p < length self.now.marks) }
        ensures last { IfSome result (λ p. IsLastOf self.now.waiting p) }
        ensures some { IfSome result (λ p. slice_index self.now.pending p ≢ 0) }
        ensures none { IfNone result ((v p : ℕ) → ¬ IsOpen self.now v p) }
    {
        self.pending.last()
    }
}

/// The bits of a word that aren't known yet.
#[inline(always)]
fn new_of(word: u64, known: u64) -> u64
    ensures only { (b : ℕ) → bit_at result b ≡ 1 → bit_at word b ≡ 1 }
    ensures fresh { (b : ℕ) → bit_at result b ≡ 1 → bit_at known b ≡ 0 }
    ensures all { (b : ℕ) → b < 64 → bit_at word b ≡ 1
        → (bit_at known b ≡ 1) ⊎ (bit_at result b ≡ 1) }
    ensures sum { bit_or known result ≡ known + result }
    ensures fits { known + result < 2 ^ 64 }
{
    word & !known
}
