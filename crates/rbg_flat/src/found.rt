//! The modifiers that a flat part finds, by words of 64 vertices.
ghost use Rattle.std.specs.Prelude.{◌≡◌, ℕ, ◌<◌, ◌≤◌, ◌^◌, ◌↔◌, ◌⊎◌, [], ◌∷◌, ◌++◌, length, slice_get, Some, All, Contains, IfSome, IfNone, OnOk, IsTrue, Decides};
ghost use Rattle.std.specs.Int.{bit_at};
ghost use Rattle.std.specs.List.Sorted.{IsPermutation};
ghost use Rattle.rbg_rules.specs.Meaning.{IsGame, IsSwitchAt, positions_of};
ghost use Rattle.rbg_flat.specs.Order.{IsBefore, IsLeast};
ghost use Rattle.rbg_flat.specs.internal.Shown.{shows_switch};
ghost use Rattle.rbg_flat.specs.internal.Bits.{pairs_of, pairs_in, first_of, first_at, IsFilled};
ghost use Rattle.rbg_flat.specs.internal.Gathering.{PushesWord};
ghost use Rattle.rbg_flat.specs.declared.found.Word.{Word};

use crate::words::{lowest, without};
use rbg_base::{Memory, Pair, Position, Vertex};
use rbg_rules::{Action, Game};
use std::alloc::Global;
use std::marker::Model;

/// Vertices with one position.
#[derive(Clone, Copy)]
struct Word {
    /// The vertex of the lowest bit.
    base: Vertex,
    position: Position,
    /// A bit for each vertex.
    bits: u64,
}

/// The modifiers that come next in a flat part and are valid, each with its vertex. They are kept by words of 64 vertices.
/// Contracts see the list of all pairs.
#[derive(Drop)]
pub struct Modifiers {
    words: Vec<Word>,
}

impl Model for Modifiers {
    ghost use Rattle.std.specs.Prelude.{ℕ, List, All};
    ghost use Rattle.rbg_flat.specs.internal.Bits.{pairs_in, IsFilled};

    ghost Value = { List (ℕ × ℕ) };

    ghost view = { λ m. pairs_in m.words.items };

    ghost invariant = { λ m. All IsFilled m.words.items };
}

impl Modifiers {
    /// No modifiers.
    pub fn new(alloc: Global) -> Modifiers
        ensures { result ≡ [] }
    {
        Modifiers {
            words: Vec::new(alloc),
        }
    }

    /// Takes all away, and keeps the room.
    pub fn clear(&mut self)
        ensures { self.new ≡ [] }
    {
        self.words.clear();
    }

    /// Puts the position with each vertex of a word after what was there.
    #[inline(always)]
    pub(crate) fn push_word(
        &mut self,
        position: Position,
        column: usize,
        word: u64,
    ) -> Result<(), Memory>
        requires { column < 2 ^ 25 }
        ensures { OnOk result (PushesWord self.old self.new position column word) }
    {
        if word != 0 {
            let base = column as Vertex * 64;
            self.words.push(Word {
                base,
                position,
                bits: word,
            })?;
        }
        Ok(())
    }

    /// Puts one more after what was there.
    pub fn push(&mut self, vertex: Vertex, position: Position) -> Result<(), Memory>
        ensures { OnOk result (self.new ≡ self.old ++ (vertex, position) ∷ []) }
    {
        self.words.push(Word {
            base: vertex,
            position,
            bits: 1,
        })?;
        Ok(())
    }

    /// Puts these in place of what was there.
    pub fn refill(&mut self, pairs: &[Pair]) -> Result<(), Memory>
        ensures { OnOk result (self.new ≡ pairs.now) }
    {
        self.clear();
        for pair in pairs {
            self.push(pair.vertex, pair.position)?;
        }
        Ok(())
    }

    /// Takes the least of them, by vertex and then by position; none where there are none.
    #[inline(always)]
    pub fn take_least(&mut self) -> Option<Pair>
        ensures permutation { IfSome result (λ pair. IsPermutation self.old (pair ∷ self.new)) }
        ensures least { IfSome result (IsLeast self.old) }
        ensures none { IfNone result (self.old ≡ []) }
    {
        match least_word(&self.words) {
            None => None,
            Some(index) => Some(take_first(&mut self.words, index)),
        }
    }

    /// Takes the least of those that are switches, by vertex and then by position; none where there are none.
    pub fn take_switch(&mut self, game: &Game) -> Option<Pair>
        requires lawful { IsGame game.now }
        requires within { All (λ pair. (0 < pair.1) × (pair.1 ≤ length (positions_of game.now.rules)))
            self.old }
        ensures permutation { IfSome result (λ pair. IsPermutation self.old (pair ∷ self.new)) }
        ensures switches { IfSome result (λ pair. IsSwitchAt game.now.rules pair.1) }
        ensures least { IfSome result (λ pair. (x : ℕ × ℕ) → Contains self.old x
            → IsSwitchAt game.now.rules x.1 → ¬ IsBefore x pair) }
        ensures kept { IfNone result (self.new ≡ self.old) }
        ensures none { IfNone result (All (λ pair. ¬ IsSwitchAt game.now.rules pair.1) self.old) }
    {
        match switch_word(&self.words, game) {
            None => None,
            Some(index) => Some(take_first(&mut self.words, index)),
        }
    }

    /// Whether a pair is one of them.
    pub fn contains(&self, vertex: Vertex, position: Position) -> bool
        ensures { Decides result (Contains self.now (vertex, position)) }
    {
        has_pair(&self.words, vertex, position)
    }

    /// Writes them out one by one, in place of what the list held.
    pub fn write_to(&self, pairs: &mut Vec<Pair>) -> Result<(), Memory>
        ensures { OnOk result (pairs.new.items ≡ self.now) }
    {
        pairs.clear();
        spell(&self.words, pairs)
    }
}

/// The vertex of the lowest bit of a word that has one.
#[inline(always)]
fn first_vertex(word: Word) -> Vertex
    requires { IsFilled word }
    ensures { result ≡ (first_of word).0 }
{
    word.base + lowest(word.bits)
}

/// Whether one vertex with its position stands before another one.
#[inline(always)]
fn is_before(vertex: Vertex, position: Position, other: Vertex, beyond: Position) -> bool
    ensures { IsTrue result ↔ IsBefore (vertex, position) (other, beyond) }
{
    vertex < other || (vertex == other && position < beyond)
}

/// Which word has the least pair; none where there are no words.
#[inline(always)]
fn least_word(words: &[Word]) -> Option<usize>
    requires { All IsFilled words.now }
    ensures least { IfSome result (λ k. IsLeast (pairs_in words.now) (first_at words.now k)) }
    ensures below { IfSome result (λ k. k < length words.now) }
    ensures none { IfNone result (words.now ≡ []) }
{
    if words.len() == 0 {
        return None;
    }
    let mut least = 0;
    let mut vertex = first_vertex(words[0]);
    let mut position = words[0].position;
    for index in 1..words.len() {
        let word = words[index];
        let first = first_vertex(word);
        if is_before(first, word.position, vertex, position) {
            least = index;
            vertex = first;
            position = word.position;
        }
    }
    Some(least)
}

/// Takes the first pair off a word.
#[inline(always)]
fn take_first(words: &mut Vec<Word>, index: usize) -> Pair
    requires filled { All IsFilled words.old.items }
    requires index { index < length words.old.items }
    ensures first { result ≡ first_at words.old.items index }
    ensures permutation { IsPermutation (pairs_in words.old.items)
        (result ∷ pairs_in words.new.items) }
    ensures filled { All IsFilled words.new.items }
{
    let word = words[index];
    let bit = lowest(word.bits);
    let bits = without(word.bits, bit);
    if bits == 0 {
        drop_word(words, index);
    } else {
        words[index] = Word {
            base: word.base,
            position: word.position,
            bits,
        };
    }
    Pair {
        vertex: word.base + bit,
        position: word.position,
    }
}

/// Takes a word away. The last one takes its place.
#[inline(always)]
fn drop_word(words: &mut Vec<Word>, index: usize)
    requires { index < length words.old.items }
    ensures rest { (w : Word) → slice_get words.old.items index ≡ Some w
        → IsPermutation (pairs_in words.old.items) (pairs_of w ++ pairs_in words.new.items) }
    ensures filled { All IsFilled words.old.items → All IsFilled words.new.items }
{
    let Some(last) = words.pop() else {
        return;
    };
    if index < words.len() {
        words[index] = last;
    }
}

/// Which word has the least pair that is a switch; none where no word has one.
fn switch_word(words: &[Word], game: &Game) -> Option<usize>
    requires lawful { IsGame game.now }
    requires filled { All IsFilled words.now }
    requires within { All (λ pair. (0 < pair.1) × (pair.1 ≤ length (positions_of game.now.rules)))
        (pairs_in words.now) }
    ensures below { IfSome result (λ k. k < length words.now) }
    ensures switches { IfSome result (λ k. IsSwitchAt game.now.rules (first_at words.now k).1) }
    ensures least { IfSome result (λ k. (x : ℕ × ℕ) → Contains (pairs_in words.now) x
        → IsSwitchAt game.now.rules x.1 → ¬ IsBefore x (first_at words.now k)) }
    ensures none { IfNone result
        (All (λ pair. ¬ IsSwitchAt game.now.rules pair.1) (pairs_in words.now)) }
{
    let mut least = None;
    for index in 0..words.len() {
        if is_switch(game, words[index].position) {
            least = Some(sooner(words, least, index));
        }
    }
    least
}

/// Which of two words has the lesser pair, where there are two.
#[inline(always)]
fn sooner(words: &[Word], known: Option<usize>, index: usize) -> usize
    requires filled { All IsFilled words.now }
    requires known { IfSome known (λ k. k < length words.now) }
    requires index { index < length words.now }
    ensures either { (result ≡ index) ⊎ (known ≡ Some result) }
    ensures new { ¬ IsBefore (first_at words.now index) (first_at words.now result) }
    ensures known { IfSome known (λ k.
        ¬ IsBefore (first_at words.now k) (first_at words.now result)) }
{
    match known {
        Some(other) if !goes_before(words[index], words[other]) => other,
        _ => index,
    }
}

/// Whether the least pair of a word stands before that of another one.
#[inline(always)]
fn goes_before(word: Word, other: Word) -> bool
    requires word { IsFilled word }
    requires other { IsFilled other }
    ensures { IsTrue result ↔ IsBefore (first_of word) (first_of other) }
{
    is_before(
        first_vertex(word),
        word.position,
        first_vertex(other),
        other.position,
    )
}

/// Whether a switch stands at a position.
#[inline(always)]
fn is_switch(game: &Game, position: Position) -> bool
    requires lawful { IsGame game.now }
    requires from_one { 0 < position }
    requires there { position ≤ length (positions_of game.now.rules) }
    ensures { IsTrue result ↔ IsSwitchAt game.now.rules position }
{
    switches(game.action(position))
}

/// Whether the action is a switch.
fn switches(action: &Action) -> bool
    ensures { result ≡ shows_switch action.now }
{
    matches!(action, Action::Switch { .. })
}

/// Whether a pair is one of those of the words.
fn has_pair(words: &[Word], vertex: Vertex, position: Position) -> bool
    ensures { Decides result (Contains (pairs_in words.now) (vertex, position)) }
{
    for word in words {
        if word_has(*word, vertex, position) {
            return true;
        }
    }
    false
}

/// Whether a pair is one of those of a word.
#[inline(always)]
fn word_has(word: Word, vertex: Vertex, position: Position) -> bool
    ensures { Decides result (Contains (pairs_of word) (vertex, position)) }
{
    if word.position != position || vertex < word.base {
        return false;
    }
    has_bit(word.bits, vertex - word.base)
}

/// Whether a word has a bit at a place, and it is set.
#[inline(always)]
fn has_bit(word: u64, bit: u32) -> bool
    ensures { Decides result ((bit < 64) × (bit_at word bit ≡ 1)) }
{
    bit < 64 && word >> bit & 1 == 1
}

/// Writes the pairs of words after what the list held.
fn spell(words: &[Word], pairs: &mut Vec<Pair>) -> Result<(), Memory>
    requires { All IsFilled words.now }
    ensures { OnOk result (pairs.new.items ≡ pairs.old.items ++ pairs_in words.now) }
{
    for word in words {
        spell_word(*word, pairs)?;
    }
    Ok(())
}

/// Writes the pairs of a word after what the list held.
fn spell_word(word: Word, pairs: &mut Vec<Pair>) -> Result<(), Memory>
    requires { IsFilled word }
    ensures { OnOk result (pairs.new.items ≡ pairs.old.items ++ pairs_of word) }
{
    let mut rest = word.bits;
    while rest != 0 {
        let bit = lowest(rest);
        pairs.push(Pair {
            vertex: word.base + bit,
            position: word.position,
        })?;
        rest = without(rest, bit);
    }
    Ok(())
}
