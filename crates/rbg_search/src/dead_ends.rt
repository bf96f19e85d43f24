//! Patterns that are dead ends, whether they are valid or not, asked at all vertices of a word of a flat part.
ghost use Rattle.std.specs.Prelude.{◌≡◌, ℕ, ◌*◌, ◌+◌, ◌/◌, ◌<◌, ◌≤◌, ◌↔◌, ◌⊎◌, length, Bool, false, IfNone, IfSome, IsTrue, Ok};
ghost use Rattle.std.specs.Int.{bit_at};
ghost use Rattle.rbg_rules.specs.Meaning.{Applies, IsPatternAt, IsStateOf, Start, beginning, inside, pattern};
ghost use Rattle.rbg_state.specs.History.{History};
ghost use Rattle.rbg_flat.specs.Paths.{ArePathsOf, way_of};
ghost use Rattle.rbg_flat.specs.internal.Leading.{IsOnBoard};
ghost use Rattle.rbg_flat.specs.internal.Sets.{weight};
ghost use Rattle.rbg_search.specs.Closure.{at_vertex};
ghost use Rattle.rbg_search.specs.Forced.{CountsForced};
ghost use Rattle.rbg_search.specs.Searching.{Searching};
ghost use Rattle.rbg_search.specs.internal.Asked.{IsAsked};
ghost use Rattle.rbg_search.specs.internal.BySets.{FindsBySets, HasSetsFor, IsToBeAsked};
ghost use Rattle.rbg_search.specs.internal.DeadWords.{AreWaiting, AsksDead, TakesWord};
ghost use Rattle.rbg_search.specs.internal.Straight.{IsTold};

use crate::scan::PatternScan;
use crate::search::Search;
use rbg_auto::Steps;
use rbg_base::{Position, Vertex};
use rbg_flat::{AskedWord, Flat as SetFlat, Paths, lowest, with, without};
use rbg_state::SemiState;

impl<'a, S: Steps> Search<'a, S> {
    /// Asks the pattern that `advance_by_sets` returned, at all vertices of its column that wait, as far as it is a dead end
    /// there and the budget allows, and takes the answers at once. Returns whether any was asked. Where one vertex waits
    /// alone, it is left to be asked in the general way.
    #[inline(always)]
    pub(crate) fn take_dead(
        &mut self,
        paths: &Paths,
        flat: &mut Box<SetFlat>,
        state: &SemiState,
        vertex: Vertex,
        position: Position,
    ) -> bool
        requires paths { ArePathsOf self.old.game paths.now }
        requires fits { IsStateOf self.old.game state.now.state }
        requires sets { HasSetsFor self.old.game flat.old.value }
        requires next { IsToBeAsked self.old.game flat.old.value vertex position }
        ensures kept { self.new ≡ record self.old { opened = self.new.opened; taken = self.new.taken } }
        ensures finds { (first : Searching) (s : History) (f : Start)
            → FindsBySets (way_of paths.now) first self.old s state.now f flat.old.value
            → FindsBySets (way_of paths.now) first self.new s state.now f flat.new.value }
        ensures lighter { weight flat.new.value.sets ≤ weight flat.old.value.sets }
        ensures less { IsTrue result → weight flat.new.value.sets < weight flat.old.value.sets }
        ensures next { result ≡ false → IsToBeAsked self.new.game flat.new.value vertex position }
    {
        if !paths.is_narrow(position) {
            return false;
        }
        let word = self.open_by_sets(flat, vertex, position);
        if word.is_power_of_two() {
            return false;
        }
        self.take_dead_word(paths, flat, state, vertex, position, word)
    }

    /// The same at the vertices of a word, which wait.
    #[inline(never)]
    fn take_dead_word(
        &mut self,
        paths: &Paths,
        flat: &mut Box<SetFlat>,
        state: &SemiState,
        vertex: Vertex,
        position: Position,
        word: u64,
    ) -> bool
        requires paths { ArePathsOf self.old.game paths.now }
        requires fits { IsStateOf self.old.game state.now.state }
        requires sets { HasSetsFor self.old.game flat.old.value }
        requires next { IsToBeAsked self.old.game flat.old.value vertex position }
        requires waits { AreWaiting self.old.game flat.old.value position (vertex / 64) word }
        ensures kept { self.new ≡ record self.old { opened = self.new.opened; taken = self.new.taken } }
        ensures finds { (first : Searching) (s : History) (f : Start)
            → FindsBySets (way_of paths.now) first self.old s state.now f flat.old.value
            → FindsBySets (way_of paths.now) first self.new s state.now f flat.new.value }
        ensures lighter { weight flat.new.value.sets ≤ weight flat.old.value.sets }
        ensures less { IsTrue result → weight flat.new.value.sets < weight flat.old.value.sets }
        ensures next { result ≡ false → IsToBeAsked self.new.game flat.new.value vertex position }
    {
        let answers = self.ask_dead(paths, state, vertex, position, word);
        if answers.asked == 0 {
            return false;
        }
        // some vertex was asked
        let _first = lowest(answers.asked);
        self.take_all_by_sets(paths, flat, state, vertex, position, answers);
        true
    }

    /// The vertices that wait to be asked about the pattern at a position, in the column of a vertex.
    #[inline(always)]
    fn open_by_sets(&self, flat: &Box<SetFlat>, vertex: Vertex, position: Position) -> u64
        requires sets { HasSetsFor self.now.game flat.now.value }
        requires next { IsToBeAsked self.now.game flat.now.value vertex position }
        ensures { AreWaiting self.now.game flat.now.value position (vertex / 64) result }
    {
        flat.open_word(self.rules.game(), vertex, position)
    }

    /// Takes the vertices that were asked about the pattern at a position, in the column of a vertex.
    #[inline(always)]
    fn take_all_by_sets(
        &self,
        paths: &Paths,
        flat: &mut Box<SetFlat>,
        state: &SemiState,
        vertex: Vertex,
        position: Position,
        answers: AskedWord,
    )
        requires paths { ArePathsOf self.now.game paths.now }
        requires fits { IsStateOf self.now.game state.now.state }
        requires sets { HasSetsFor self.now.game flat.old.value }
        requires next { IsToBeAsked self.now.game flat.old.value vertex position }
        requires waits { AreWaiting self.now.game flat.old.value position (vertex / 64) answers.asked }
        requires within { (b : ℕ) → bit_at answers.held b ≡ 1 → bit_at answers.asked b ≡ 1 }
        ensures { TakesWord (way_of paths.now) self.now.game state.now.state flat.old.value
            flat.new.value position (vertex / 64) answers.asked answers.held }
    {
        flat.take_all(self.rules.game(), paths, state, vertex, position, answers);
    }

    /// Asks a pattern at the vertices of a word, in the column of a vertex, up to the first one at which it is no dead end.
    #[inline(always)]
    fn ask_dead(
        &mut self,
        paths: &Paths,
        state: &SemiState,
        vertex: Vertex,
        position: Position,
        word: u64,
    ) -> AskedWord
        requires paths { ArePathsOf self.old.game paths.now }
        requires fits { IsStateOf self.old.game state.now.state }
        requires there { IsPatternAt self.old.game.rules position }
        requires vertex { vertex < length self.old.game.board.first }
        requires board { IsOnBoard self.old.game (vertex / 64) word }
        ensures kept { self.new ≡ record self.old { opened = self.new.opened; taken = self.new.taken } }
        ensures within { (b : ℕ) → bit_at result.asked b ≡ 1 → bit_at word b ≡ 1 }
        ensures held { (b : ℕ) → bit_at result.held b ≡ 1 → bit_at result.asked b ≡ 1 }
        ensures asks { AsksDead self.old self.new state.now position (vertex / 64) result.asked result.held }
    {
        let column = vertex / 64;
        let mut rest = word;
        let mut asked = 0;
        let mut held = 0;
        while rest != 0 {
            let bit = lowest(rest);
            let at = column * 64 + bit;
            let Some(valid) = self.answer_dead(paths, state, at, position) else {
                return AskedWord { asked, held };
            };
            rest = without(rest, bit);
            asked = with(asked, bit);
            held = with_if(held, bit, valid);
        }
        AskedWord { asked, held }
    }

    /// Whether the pattern at a position is valid at a vertex, if it is a dead end there, and if one more opening may be
    /// taken up.
    #[inline(always)]
    fn answer_dead(
        &mut self,
        paths: &Paths,
        state: &SemiState,
        vertex: Vertex,
        position: Position,
    ) -> Option<bool>
        requires paths { ArePathsOf self.old.game paths.now }
        requires fits { IsStateOf self.old.game state.now.state }
        requires vertex { vertex < length state.now.state.pieces }
        requires there { IsPatternAt self.old.game.rules position }
        ensures kept { self.new ≡ record self.old { opened = self.new.opened; taken = self.new.taken } }
        ensures none { IfNone result
            ((self.new.opened ≡ self.old.opened) × (self.new.taken ≡ self.old.taken)) }
        ensures asked { IfSome result (λ valid. IsAsked self.old self.new state.now state.now pattern
            (at_vertex state.now.state vertex) (beginning (inside position)) self.old.modifiers
            (Ok valid)) }
        ensures valid { IfSome result (λ valid. IsTrue valid ↔ Applies self.old.game position
            (at_vertex state.now.state vertex) (at_vertex state.now.state vertex)) }
        ensures forced { IfSome result (λ _. (cut : Bool) → CountsForced self.old.game cut pattern
            (at_vertex state.now.state vertex) (beginning (inside position))
            self.old.opened self.new.opened self.old.modifiers self.old.modifiers) }
    {
        let Some(scan) = self.scan_dead(paths, state, vertex, position) else {
            return None;
        };
        match self.answer(position, scan) {
            Ok(valid) => Some(valid),
            Err(_over) => None,
        }
    }

    /// Looks at a pattern at a vertex where nothing goes on from its beginning, or where a walk tells what is met.
    #[inline(always)]
    pub(crate) fn scan_dead(
        &self,
        paths: &Paths,
        state: &SemiState,
        vertex: Vertex,
        position: Position,
    ) -> Option<PatternScan>
        requires paths { ArePathsOf self.now.game paths.now }
        requires fits { IsStateOf self.now.game state.now.state }
        requires vertex { vertex < length state.now.state.pieces }
        requires there { IsPatternAt self.now.game.rules position }
        ensures { IfSome result (λ scan. IsTold self.now.game (at_vertex state.now.state vertex)
            (beginning (inside position)) scan.ends scan.pairs) }
    {
        if let Some(dead) = paths.dead_end(self.rules.game(), state, position, vertex) {
            return Some(PatternScan {
                ends: dead.ends,
                pairs: dead.many,
            });
        }
        None
    }
}

/// A word, with one more bit if that is said.
#[inline(always)]
fn with_if(word: u64, bit: u32, is: bool) -> u64
    requires { bit < 64 }
    ensures set { IsTrue is → bit_at result bit ≡ 1 }
    ensures kept { (b : ℕ) → bit_at word b ≡ 1 → bit_at result b ≡ 1 }
    ensures only { (b : ℕ) → bit_at result b ≡ 1
        → (bit_at word b ≡ 1) ⊎ ((b ≡ bit) × IsTrue is) }
{
    if is { with(word, bit) } else { word }
}
