//! A flat part that is being found, by sets of vertices.
ghost use Rattle.std.specs.Prelude.{◌≡◌, ◌≢◌, ℕ, ◌+◌, ◌*◌, ◌/◌, ◌<◌, ◌≤◌, ◌↔◌, ◌⊎◌, ◌^◌, length, IfOk, IfErr, IfSome, IfNone, OnOk, IsTrue, false};
ghost use Rattle.rbg_board.specs.Graph.{next};
ghost use Rattle.rbg_rules.specs.Meaning.{shift, HasAction, IsGame, IsStart, IsNumbered, IsPatternAt, positions_of, AbstractGame, AbstractState, IsStateOf, Start};
ghost use Rattle.rbg_shifts.specs.Leaps.{IsShiftAt};
ghost use Rattle.rbg_shifts.specs.Made.{AreLeapsOf};
ghost use Rattle.rbg_shifts.specs.Origin.{start_of};
ghost use Rattle.rbg_flat.specs.Candidates.{MayEnd};
ghost use Rattle.rbg_flat.specs.Chains.{Holds};
ghost use Rattle.rbg_flat.specs.Paths.{ArePathsOf, Stays, way_of};
ghost use Rattle.rbg_flat.specs.Ways.{Way, leaping, stepping, IsFirstLead, EndsFirst, IsLead, EndsLead};
ghost use Rattle.rbg_flat.specs.Found.{AreFound, HasPairs, most_candidates};
ghost use Rattle.rbg_flat.specs.Met.{CountsMet};
ghost use Rattle.rbg_flat.specs.internal.Begun.{IsBegun};
ghost use Rattle.rbg_flat.specs.internal.Sets.{IsInWord, IsMarked, IsOpen, IsDone, KeepsDone, WaitsLast, weight};
ghost use Rattle.rbg_flat.specs.internal.Places.{IsLatest, IsSomeOpen};
ghost use Rattle.std.specs.Int.{bit_at};
ghost use Rattle.rbg_flat.specs.internal.Leading.{AreSizedFor, AreOn, IsOnBoard, IsPositionIn, LeadsFrom, EndsFrom};
ghost use Rattle.rbg_flat.specs.internal.Shown.{direction_in};
ghost use Rattle.rbg_flat.specs.internal.Setting.{AreReady, HasBegun, LeadsOn, way_in};

use crate::found::Modifiers;
use crate::gathering::{count_place, gather_place, keeps};
use crate::leading::{meet_bits, meet_targets};
use crate::passing::held;
use crate::paths::{Kind, Paths};
use crate::sets::Sets;
use crate::setting::Setting;
use crate::words::{RowWord, lowest, unit_word, without};
use rbg_base::{Direction, Memory, Pair, Position, Vertex};
use rbg_rules::{Action, Game};
use rbg_shifts::{Leaps, Origin};
use rbg_state::SemiState;
use std::alloc::Global;

/// A flat part that is being found: what may come next from one place with no modifier before it.
#[derive(Drop)]
pub struct Flat {
    sets: Sets,
    /// Whether a word may end with no modifier more.
    ends: bool,
}

/// There was no memory for what was found.
#[derive(Drop)]
pub struct NotGathered {
    /// How many candidates there were all the same.
    pub many: usize,
}

/// The vertices of one column that were asked about a pattern, as bits of a word.
#[derive(Clone, Copy, Drop)]
pub struct AskedWord {
    /// Those that were asked.
    pub asked: u64,
    /// Those of them at which the pattern is valid.
    pub held: u64,
}

impl Flat {
    /// A flat part of a game, not begun.
    #[inline(never)]
    pub fn new(alloc: Global, game: &Game) -> Result<Flat, Memory>
        ensures { IfOk result (λ flat. AreSizedFor game.now flat.sets) }
    {
        let shift = doublings((game.board().len() + 63) / 64);
        Ok(Flat {
            sets: Sets::new(alloc, game.positions() + 1, shift)?,
            ends: false,
        })
    }

    /// Begins anew in a semi-state, at a place in the rules.
    pub fn begin(&mut self, game: &Game, paths: &Paths, state: &SemiState, origin: Origin)
        requires lawful { IsGame game.now }
        requires paths { ArePathsOf game.now paths.now }
        requires fits { IsStateOf game.now state.now.state }
        requires sized { AreSizedFor game.now self.old.sets }
        requires stands { IsStart game.now.rules (start_of origin) }
        ensures sized { AreSizedFor game.now self.new.sets }
        ensures begun { IsBegun (way_of paths.now) game.now state.now.state (start_of origin) (IsMarked self.new.sets)
            (IsOpen self.new.sets) self.new.ends }
        ensures on { AreOn game.now self.new.sets }
        ensures fresh { (v p : ℕ) → IsPatternAt game.now.rules p → ¬ IsDone self.new.sets v p }
    {
        self.sets.clear();
        self.ends = false;
        let setting = Setting { game, paths, state };
        self.lead(&setting, origin, state.vertex());
    }

    /// Goes on up to the next vertex that is to be asked about a pattern, and returns it with the pattern's position;
    /// none where nothing is left to be looked at. Each turn takes one word.
    pub fn advance(&mut self, game: &Game, paths: &Paths, state: &SemiState) -> Option<Pair>
        requires lawful { IsGame game.now }
        requires paths { ArePathsOf game.now paths.now }
        requires fits { IsStateOf game.now state.now.state }
        requires sized { AreSizedFor game.now self.old.sets }
        requires on { AreOn game.now self.old.sets }
        ensures sized { AreSizedFor game.now self.new.sets }
        ensures on { AreOn game.now self.new.sets }
        ensures begun { (f : Start)
            → IsBegun (way_of paths.now) game.now state.now.state f (IsMarked self.old.sets) (IsOpen self.old.sets)
            self.old.ends
            → IsBegun (way_of paths.now) game.now state.now.state f (IsMarked self.new.sets) (IsOpen self.new.sets)
            self.new.ends }
        ensures asked { IfSome result (λ pair. IsOpen self.new.sets pair.0 pair.1
            × IsMarked self.new.sets pair.0 pair.1 × IsPatternAt game.now.rules pair.1) }
        ensures last { IfSome result (λ pair. WaitsLast self.new.sets pair.0 pair.1) }
        ensures still_done { KeepsDone self.old.sets self.new.sets }
        ensures quiet { (v p : ℕ) → IsPatternAt game.now.rules p → IsDone self.new.sets v p
            → IsDone self.old.sets v p }
        ensures done { IfNone result ((v p : ℕ) → ¬ IsOpen self.new.sets v p) }
        ensures lighter { weight self.new.sets ≤ weight self.old.sets }
    {
        let setting = Setting { game, paths, state };
        while let Some(place) = self.sets.waiting() {
            let position = self.sets.position_at(place);
            let vertex = self.sets.first_open(place);
            if is_pattern(game, paths, &self.sets, vertex, position) {
                return Some(Pair { vertex, position });
            }
            let column = self.sets.column_at(place);
            self.try_word(&setting, place, position, column);
        }
        None
    }

    /// Takes the vertex that `advance` returned, at which the pattern at the position is valid or isn't.
    pub fn take(
        &mut self,
        game: &Game,
        paths: &Paths,
        state: &SemiState,
        vertex: Vertex,
        position: Position,
        valid: bool,
    )
        requires lawful { IsGame game.now }
        requires paths { ArePathsOf game.now paths.now }
        requires fits { IsStateOf game.now state.now.state }
        requires sized { AreSizedFor game.now self.old.sets }
        requires vertex { vertex < length game.now.board.first }
        requires from_one { 0 < position }
        requires there { position ≤ length (positions_of game.now.rules) }
        requires marked { IsMarked self.old.sets vertex position }
        requires last { WaitsLast self.old.sets vertex position }
        ensures sized { AreSizedFor game.now self.new.sets }
        ensures on { AreOn game.now self.old.sets → AreOn game.now self.new.sets }
        ensures begun { (f : Start)
            → IsTrue valid ↔ Holds game.now state.now.state vertex position
            → IsBegun (way_of paths.now) game.now state.now.state f (IsMarked self.old.sets) (IsOpen self.old.sets)
            self.old.ends
            → IsBegun (way_of paths.now) game.now state.now.state f (IsMarked self.new.sets) (IsOpen self.new.sets)
            self.new.ends }
        ensures still_done { KeepsDone self.old.sets self.new.sets }
        ensures done { IsDone self.new.sets vertex position }
        ensures quiet { (v p : ℕ) → IsPatternAt game.now.rules p → IsDone self.new.sets v p
            → ((v ≡ vertex) × (p ≡ position)) ⊎ IsDone self.old.sets v p }
        ensures less { IsOpen self.old.sets vertex position
            → weight self.new.sets < weight self.old.sets }
    {
        let setting = Setting { game, paths, state };
        let column = vertex as usize / 64;
        let bits = unit_word(vertex % 64);
        let held = if valid { bits } else { 0 };
        let place = self.sets.place(position, column);
        let word = RowWord {
            position,
            column,
            bits,
        };
        self.take_word(&setting, place, word, held);
    }

    /// The vertices that are open at a position, in the column of a vertex.
    #[inline(always)]
    pub fn open_word(&self, game: &Game, vertex: Vertex, position: Position) -> u64
        requires lawful { IsGame game.now }
        requires sized { AreSizedFor game.now self.now.sets }
        requires vertex { vertex < length game.now.board.first }
        requires there { position ≤ length (positions_of game.now.rules) }
        ensures open { (b : ℕ) → bit_at result b ≡ 1
            → IsOpen self.now.sets (vertex / 64 * 64 + b) position }
        ensures marked { (b : ℕ) → bit_at result b ≡ 1
            → (b < 64) × IsMarked self.now.sets (vertex / 64 * 64 + b) position }
    {
        // The game is lawful.
        game.is_accepted();
        let column = vertex as usize / 64;
        let place = self.sets.place(position, column);
        self.sets.open_at(place, position, column)
    }

    /// As `take`, with all vertices that were asked in the column of the one that `advance` returned.
    #[inline(always)]
    pub fn take_all(
        &mut self,
        game: &Game,
        paths: &Paths,
        state: &SemiState,
        vertex: Vertex,
        position: Position,
        word: AskedWord,
    )
        requires lawful { IsGame game.now }
        requires paths { ArePathsOf game.now paths.now }
        requires fits { IsStateOf game.now state.now.state }
        requires sized { AreSizedFor game.now self.old.sets }
        requires vertex { vertex < length game.now.board.first }
        requires from_one { 0 < position }
        requires there { position ≤ length (positions_of game.now.rules) }
        requires board { IsOnBoard game.now (vertex / 64) word.asked }
        requires marked { (b : ℕ) → bit_at word.asked b ≡ 1
            → (b < 64) × IsMarked self.old.sets (vertex / 64 * 64 + b) position }
        requires within { (b : ℕ) → bit_at word.held b ≡ 1 → bit_at word.asked b ≡ 1 }
        requires last { WaitsLast self.old.sets vertex position }
        ensures sized { AreSizedFor game.now self.new.sets }
        ensures on { AreOn game.now self.old.sets → AreOn game.now self.new.sets }
        ensures begun { (f : Start)
            → ((b : ℕ) → b < 64 → bit_at word.asked b ≡ 1 → (bit_at word.held b ≡ 1)
            ↔ Holds game.now state.now.state (vertex / 64 * 64 + b) position)
            → IsBegun (way_of paths.now) game.now state.now.state f (IsMarked self.old.sets) (IsOpen self.old.sets)
            self.old.ends
            → IsBegun (way_of paths.now) game.now state.now.state f (IsMarked self.new.sets) (IsOpen self.new.sets)
            self.new.ends }
        ensures still_done { KeepsDone self.old.sets self.new.sets }
        ensures done { (v : ℕ) → IsInWord position (vertex / 64) word.asked v position
            → IsDone self.new.sets v position }
        ensures quiet { (v p : ℕ) → IsPatternAt game.now.rules p
            → ¬ IsInWord position (vertex / 64) word.asked v p → IsDone self.new.sets v p
            → IsDone self.old.sets v p }
        ensures less { (v : ℕ) → IsOpen self.old.sets v position
            → IsInWord position (vertex / 64) word.asked v position
            → weight self.new.sets < weight self.old.sets }
    {
        let setting = Setting { game, paths, state };
        let column = vertex as usize / 64;
        let place = self.sets.place(position, column);
        let asked = RowWord {
            position,
            column,
            bits: word.asked,
        };
        self.take_word(&setting, place, asked, word.held);
    }

    /// Whether a word may end with no modifier more, once nothing is left to be looked at.
    pub fn ends(&self) -> bool
        ensures { (way : Way) (game : AbstractGame) (s : AbstractState) (f : Start)
            → IsNumbered game.rules
            → IsBegun way game s f (IsMarked self.now.sets) (IsOpen self.now.sets) self.now.ends
            → ((v p : ℕ) → ¬ IsOpen self.now.sets v p) → IsTrue result ↔ MayEnd game s f }
    {
        self.ends
    }

    /// Gathers what was found, once nothing is left to be looked at, in place of what the list held: the modifiers that
    /// come next and are valid, each with its vertex. Returns how many candidates there were, also where there is no memory for
    /// what was found.
    pub fn finish(
        &mut self,
        game: &Game,
        paths: &Paths,
        state: &SemiState,
        found: &mut Modifiers,
    ) -> Result<usize, NotGathered>
        requires lawful { IsGame game.now }
        requires paths { ArePathsOf game.now paths.now }
        requires fits { IsStateOf game.now state.now.state }
        requires sized { AreSizedFor game.now self.old.sets }
        requires on { AreOn game.now self.old.sets }
        requires done { (v p : ℕ) → ¬ IsOpen self.old.sets v p }
        ensures sized { AreSizedFor game.now self.new.sets }
        ensures ends { self.new.ends ≡ self.old.ends }
        ensures found { OnOk result ((f : Start)
            → IsBegun (way_of paths.now) game.now state.now.state f (IsMarked self.old.sets) (IsOpen self.old.sets)
            self.old.ends
            → AreFound game.now state.now.state f found.new) }
        ensures count { IfOk result (λ many. (f : Start)
            → IsBegun (way_of paths.now) game.now state.now.state f (IsMarked self.old.sets) (IsOpen self.old.sets)
            self.old.ends
            → HasPairs (way_of paths.now) game.now state.now.state f many) }
        ensures few { IfOk result (λ many. many ≤ most_candidates game.now) }
        ensures count_lost { IfErr result (λ lost. (f : Start)
            → IsBegun (way_of paths.now) game.now state.now.state f (IsMarked self.old.sets) (IsOpen self.old.sets)
            self.old.ends
            → HasPairs (way_of paths.now) game.now state.now.state f lost.many) }
        ensures few_lost { IfErr result (λ lost. lost.many ≤ most_candidates game.now) }
    {
        found.clear();
        let mut many = 0;
        while let Some(place) = self.sets.last_touched() {
            let position = self.sets.position_at(place);
            let keeps = keeps(game, paths, state, position);
            let Ok(here) = gather_place(found, &self.sets, place, position, keeps) else {
                let rest = self.count_met(game);
                return Err(NotGathered { many: many + rest });
            };
            many += here;
            self.sets.forget(place);
        }
        Ok(many)
    }

    /// How many pairs of a vertex and a position were met so far, whatever is left to be looked at. They are forgotten. It
    /// is asked where a flat part isn't found whole, or isn't handed out.
    #[cold]
    #[inline(never)]
    pub fn count_met(&mut self, game: &Game) -> usize
        requires lawful { IsGame game.now }
        requires sized { AreSizedFor game.now self.old.sets }
        requires on { AreOn game.now self.old.sets }
        ensures sized { AreSizedFor game.now self.new.sets }
        ensures ends { self.new.ends ≡ self.old.ends }
        ensures count { CountsMet (IsMarked self.old.sets) result }
        ensures few { result ≤ most_candidates game.now }
    {
        self.sets.close_all();
        let mut many = 0;
        while let Some(place) = self.sets.last_touched() {
            let position = self.sets.position_at(place);
            many += count_place(&self.sets, place, position);
            self.sets.forget(place);
        }
        many
    }

    /// Leads on from a place in the rules and a vertex.
    #[inline(always)]
    fn lead(&mut self, setting: &Setting, origin: Origin, vertex: Vertex)
        requires ready { AreReady setting.now self.old.sets }
        requires vertex { vertex < length setting.now.game.now.board.first }
        requires stands { IsStart setting.now.game.now.rules (start_of origin) }
        ensures { LeadsOn setting.now self.old self.new
            (λ v p. IsFirstLead (way_in setting.now) setting.now.game.now (start_of origin) vertex p v)
            (EndsFirst (way_in setting.now) setting.now.game.now (start_of origin) vertex) }
    {
        match setting.paths.leaps() {
            Some(leaps) => self.leap(setting, leaps, origin, vertex),
            None => self.step(setting, origin, vertex),
        }
    }

    /// Leads on by leaps from a place in the rules and a vertex. What is learned of the end is written down first, so that
    /// no register holds it while targets are met.
    #[inline(always)]
    fn leap(&mut self, setting: &Setting, leaps: &Leaps, origin: Origin, vertex: Vertex)
        requires ready { AreReady setting.now self.old.sets }
        requires leaps { AreLeapsOf setting.now.game.now leaps.now }
        requires vertex { vertex < length setting.now.game.now.board.first }
        requires stands { IsStart setting.now.game.now.rules (start_of origin) }
        ensures { LeadsOn setting.now self.old self.new
            (λ v p. IsFirstLead leaping setting.now.game.now (start_of origin) vertex p v)
            (EndsFirst leaping setting.now.game.now (start_of origin) vertex) }
    {
        let (targets, ends) = leaps.leads(origin, vertex);
        self.ends |= ends;
        meet_targets(&mut self.sets, setting, targets);
    }

    /// Leads on by one step from a place in the rules: to what comes next there, at the same vertex.
    #[inline(never)]
    fn step(&mut self, setting: &Setting, origin: Origin, vertex: Vertex)
        requires ready { AreReady setting.now self.old.sets }
        requires vertex { vertex < length setting.now.game.now.board.first }
        requires stands { IsStart setting.now.game.now.rules (start_of origin) }
        ensures { LeadsOn setting.now self.old self.new
            (λ v p. IsFirstLead stepping setting.now.game.now (start_of origin) vertex p v)
            (EndsFirst stepping setting.now.game.now (start_of origin) vertex) }
    {
        let followers = setting.paths.followers(setting.game, origin);
        let column = vertex as usize / 64;
        let word = unit_word(vertex % 64);
        self.ends |= followers.ends;
        meet_bits(&mut self.sets, setting, &followers.positions, column, word);
    }

    /// Tries a position at all vertices that are open at the latest waiting place, and leads on from those at which it
    /// holds. No pattern stands at the position.
    #[inline(always)]
    fn try_word(&mut self, setting: &Setting, place: usize, position: Position, column: usize)
        requires ready { AreReady setting.now self.old.sets }
        requires on { AreOn setting.now.game.now self.old.sets }
        requires latest { IsLatest self.old.sets place position column }
        requires open { IsSomeOpen self.old.sets position column }
        requires plain { ¬ IsPatternAt setting.now.game.now.rules position }
        ensures sized { AreSizedFor setting.now.game.now self.new.sets }
        ensures begun { (f : Start) → HasBegun setting.now f self.old
            → HasBegun setting.now f self.new }
        ensures on { AreOn setting.now.game.now self.new.sets }
        ensures done { KeepsDone self.old.sets self.new.sets }
        ensures quiet { (v p : ℕ) → IsPatternAt setting.now.game.now.rules p
            → IsDone self.new.sets v p → IsDone self.old.sets v p }
        ensures less { weight self.new.sets < weight self.old.sets }
    {
        let bits = self.sets.open_at(place, position, column);
        let held = held(setting, position, column, bits);
        let word = RowWord {
            position,
            column,
            bits,
        };
        self.take_word(setting, place, word, held);
    }

    /// Takes the bits of a word off what is open at the latest waiting place, and leads on from those at which the
    /// position holds.
    #[inline(always)]
    fn take_word(&mut self, setting: &Setting, place: usize, word: RowWord, held: u64)
        requires ready { AreReady setting.now self.old.sets }
        requires latest { IsLatest self.old.sets place word.position word.column }
        requires position { IsPositionIn setting.now.game.now word.position }
        requires board { IsOnBoard setting.now.game.now word.column word.bits }
        requires marked { (b : ℕ) → bit_at word.bits b ≡ 1
            → (b < 64) × IsMarked self.old.sets (word.column * 64 + b) word.position }
        requires within { (b : ℕ) → bit_at held b ≡ 1 → bit_at word.bits b ≡ 1 }
        ensures sized { AreSizedFor setting.now.game.now self.new.sets }
        ensures begun { (f : Start)
            → ((b : ℕ) → b < 64 → bit_at word.bits b ≡ 1 → (bit_at held b ≡ 1)
            ↔ Holds setting.now.game.now setting.now.state.now.state (word.column * 64 + b) word.position)
            → HasBegun setting.now f self.old → HasBegun setting.now f self.new }
        ensures on { AreOn setting.now.game.now self.old.sets
            → AreOn setting.now.game.now self.new.sets }
        ensures still_done { KeepsDone self.old.sets self.new.sets }
        ensures done { (v : ℕ) → IsInWord word.position word.column word.bits v word.position
            → IsDone self.new.sets v word.position }
        ensures quiet { (v p : ℕ) → IsPatternAt setting.now.game.now.rules p
            → ¬ IsInWord word.position word.column word.bits v p → IsDone self.new.sets v p
            → IsDone self.old.sets v p }
        ensures less { (v : ℕ) → IsOpen self.old.sets v word.position
            → IsInWord word.position word.column word.bits v word.position
            → weight self.new.sets < weight self.old.sets }
    {
        self.sets
            .close_word(place, word.position, word.column, word.bits);
        if held != 0 {
            self.lead_word(setting, word.position, word.column, held);
        }
    }

    /// Leads on from a position at each vertex of a word: at all of them at once where one is led on from the same vertex,
    /// else one after another.
    #[inline(always)]
    fn lead_word(&mut self, setting: &Setting, position: Position, column: usize, word: u64)
        requires ready { AreReady setting.now self.old.sets }
        requires board { IsOnBoard setting.now.game.now column word }
        requires position { IsPositionIn setting.now.game.now position }
        requires some { word ≢ 0 }
        ensures { LeadsOn setting.now self.old self.new
            (LeadsFrom (way_in setting.now) setting.now.game.now position column word)
            (EndsFrom (way_in setting.now) setting.now.game.now position column word) }
    {
        if setting.paths.facts(setting.game, position).still {
            self.lead_still(setting, position, column, word);
            return;
        }
        match setting.paths.leaps() {
            Some(leaps) => {
                let word = RowWord {
                    position,
                    column,
                    bits: word,
                };
                self.leap_word(setting, leaps, word);
            }
            None => self.step_word(setting, position, column, word),
        }
    }

    /// Leads on by leaps from a position at each vertex of a word, one after another.
    #[inline(always)]
    fn leap_word(&mut self, setting: &Setting, leaps: &Leaps, word: RowWord)
        requires ready { AreReady setting.now self.old.sets }
        requires leaps { AreLeapsOf setting.now.game.now leaps.now }
        requires board { IsOnBoard setting.now.game.now word.column word.bits }
        requires position { IsPositionIn setting.now.game.now word.position }
        ensures { LeadsOn setting.now self.old self.new
            (LeadsFrom leaping setting.now.game.now word.position word.column word.bits)
            (EndsFrom leaping setting.now.game.now word.position word.column word.bits) }
    {
        // an action stands there
        let _action = setting.game.action(word.position);
        let mut rest = word.bits;
        while rest != 0 {
            let bit = lowest(rest);
            let vertex = word.column as Vertex * 64 + bit;
            rest = without(rest, bit);
            self.leap(setting, leaps, Origin::After(word.position), vertex);
        }
    }

    /// Leads on by one step from a position at each vertex of a word.
    #[inline(never)]
    fn step_word(&mut self, setting: &Setting, position: Position, column: usize, word: u64)
        requires ready { AreReady setting.now self.old.sets }
        requires board { IsOnBoard setting.now.game.now column word }
        requires position { IsPositionIn setting.now.game.now position }
        requires some { word ≢ 0 }
        requires way { way_in setting.now ≡ stepping }
        ensures { LeadsOn setting.now self.old self.new
            (LeadsFrom (way_in setting.now) setting.now.game.now position column word)
            (EndsFrom (way_in setting.now) setting.now.game.now position column word) }
    {
        match direction_of(setting.game, position) {
            Some(direction) => {
                let word = RowWord {
                    position,
                    column,
                    bits: word,
                };
                self.step_across(setting, direction, word);
            }
            None => self.lead_still(setting, position, column, word),
        }
    }

    /// Leads on from a shift at each vertex of a word, along its edge.
    #[inline(always)]
    fn step_across(&mut self, setting: &Setting, direction: Direction, word: RowWord)
        requires ready { AreReady setting.now self.old.sets }
        requires board { IsOnBoard setting.now.game.now word.column word.bits }
        requires shift { HasAction setting.now.game.now.rules word.position (shift direction) }
        ensures { LeadsOn setting.now self.old self.new
            (LeadsFrom stepping setting.now.game.now word.position word.column word.bits)
            (EndsFrom stepping setting.now.game.now word.position word.column word.bits) }
    {
        let mut rest = word.bits;
        while rest != 0 {
            let bit = lowest(rest);
            let vertex = word.column as Vertex * 64 + bit;
            rest = without(rest, bit);
            self.step_from(setting, word.position, direction, vertex);
        }
    }

    /// Leads on from a shift at a vertex, along its edge, if there is one.
    #[inline(always)]
    fn step_from(
        &mut self,
        setting: &Setting,
        position: Position,
        direction: Direction,
        vertex: Vertex,
    )
        requires ready { AreReady setting.now self.old.sets }
        requires vertex { vertex < length setting.now.game.now.board.first }
        requires shift { HasAction setting.now.game.now.rules position (shift direction) }
        ensures { LeadsOn setting.now self.old self.new
            (λ v p. IsLead stepping setting.now.game.now position vertex p v)
            (EndsLead stepping setting.now.game.now position vertex) }
    {
        match edge(setting.game, vertex, direction) {
            Some(to) => self.step(setting, Origin::After(position), to),
            None => {}
        }
    }

    /// Leads on from a position at all vertices of a word at once: one is led on from the same vertex.
    #[inline(always)]
    fn lead_still(&mut self, setting: &Setting, position: Position, column: usize, word: u64)
        requires ready { AreReady setting.now self.old.sets }
        requires board { IsOnBoard setting.now.game.now column word }
        requires position { IsPositionIn setting.now.game.now position }
        requires still { Stays (way_in setting.now) setting.now.game.now.rules position }
        requires some { word ≢ 0 }
        ensures { LeadsOn setting.now self.old self.new
            (LeadsFrom (way_in setting.now) setting.now.game.now position column word)
            (EndsFrom (way_in setting.now) setting.now.game.now position column word) }
    {
        // an action stands there, and a bit is set
        let _action = setting.game.action(position);
        let _bit = lowest(word);
        let followers = setting
            .paths
            .followers(setting.game, Origin::After(position));
        self.ends |= followers.ends;
        meet_bits(&mut self.sets, setting, &followers.positions, column, word);
    }
}

/// The vertex to which a direction leads; none if it leads nowhere.
pub(crate) fn edge(game: &Game, vertex: Vertex, direction: Direction) -> Option<Vertex>
    requires { vertex < length game.now.board.first }
    ensures is { result ≡ next game.now.board vertex direction }
    ensures there { IfSome result (λ to. to < length game.now.board.first) }
{
    game.board().step(vertex, direction)
}

/// The direction of the shift at a position; none where something else stands.
pub(crate) fn direction_of(game: &Game, position: Position) -> Option<Direction>
    requires lawful { IsGame game.now }
    requires position { IsPositionIn game.now position }
    ensures some { IfSome result (λ direction. HasAction game.now.rules position (shift direction)) }
    ensures none { IfNone result (¬ IsShiftAt game.now.rules position) }
{
    shown_direction(game.action(position))
}

/// The direction of a shift; none of another action.
fn shown_direction(action: &Action) -> Option<Direction>
    ensures { result ≡ direction_in action.now }
{
    match action {
        Action::Shift { direction } => Some(*direction),
        Action::On { .. }
        | Action::Off { .. }
        | Action::Assign { .. }
        | Action::Compare { .. }
        | Action::Switch { .. }
        | Action::Positive
        | Action::Negative => None,
    }
}

/// How often 1 is doubled until it isn't less than a number of words of a row.
fn doublings(words: usize) -> u32
    requires { words ≤ 64 }
    ensures enough { words ≤ 2 ^ result }
    ensures few { result ≤ 6 }
{
    let mut shift = 0;
    while shift < 6 && 1 << shift < words {
        shift += 1;
    }
    shift
}

/// Whether a pattern stands at a position that is open at a vertex.
#[inline(always)]
fn is_pattern(game: &Game, paths: &Paths, sets: &Sets, vertex: Vertex, position: Position) -> bool
    requires lawful { IsGame game.now }
    requires paths { ArePathsOf game.now paths.now }
    requires on { AreOn game.now sets.now }
    requires marked { IsMarked sets.now vertex position }
    ensures { IsTrue result ↔ IsPatternAt game.now.rules position }
{
    matches!(paths.facts(game, position).kind, Kind::Pattern)
}
