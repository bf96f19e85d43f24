//! A search in a game: what is reached without a modifier, and whether patterns hold, on one budget.
ghost use Rattle.std.specs.Prelude.{◌≡◌, ℕ, ◌+◌, ◌-◌, ◌*◌, ◌^◌, ◌<◌, ◌≤◌, ◌↔◌, suc, length, Some, All, AllPairs, IfOk, IsOk, OnOk, IfSome, IsTrue, [], ◌∷◌, take, OnErr, IfErr, Err, Bool, max, min};
ghost use Rattle.rbg_rules.specs.Meaning.{AbstractState, IsStateOf, IsModifierAt, IsPatternAt, inside, Start, beginning, after, Applies, SomeWordRuns, reach, pattern, IsGame, IsStart};
ghost use Rattle.rbg_search.specs.Forced.{CountsForced};
ghost use Rattle.rbg_flat.specs.Onward.{IsOnward};
ghost use Rattle.rbg_flat.specs.Paths.{ArePathsOf};
ghost use Rattle.rbg_search.specs.Taken.{CountsTaken, most_candidates};
ghost use Rattle.rbg_search.specs.internal.Taking.{RanAfter};
ghost use Rattle.rbg_search.specs.Answered.{IsAnswered, HasReached};
ghost use Rattle.rbg_search.specs.internal.Asked.{StandsInPattern, IsCounted, IsAsked};
ghost use Rattle.rbg_search.specs.internal.Finding.{HasFound};
ghost use Rattle.rbg_search.specs.internal.Held.{HoldsPathsOf};
ghost use Rattle.rbg_search.specs.internal.Trying.{IsAskedAfter};
ghost use Rattle.rbg_search.specs.Flat.{IsBefore};
ghost use Rattle.rbg_search.specs.Start.{start_of, IsPositionOf};
ghost use Rattle.rbg_state.specs.History.{capacity_of, IsAfter};
ghost use Rattle.rbg_search.specs.internal.Beyond.{IsReady, RunsAfterPair, SomeRunsAfter};
ghost use Rattle.rbg_search.specs.Closure.{at_vertex};
ghost use Rattle.rbg_search.specs.Nesting.{NestsFrom};
ghost use Rattle.rbg_auto.specs.Steps.{AreAllThatFollow};
ghost use Rattle.rbg_search.specs.Part.{IsTrialAt};
ghost use Rattle.rbg_search.specs.internal.Spent.{IsSpent, IsSpentButOne};
ghost use Rattle.rbg_search.specs.internal.Straight.{IsTold};

use crate::answer::is_valid;
use crate::buffers::Buffers;
use crate::game_steps::GameSteps;
use crate::held_paths::HeldPaths;
use crate::order::sort;
use crate::over::Over;
use crate::scan::{PatternScan, scan_inside};
use crate::single::only_modifier;
use crate::standing::stand;
use crate::tally::Tally;
use rbg_auto::{Expr, Steps};
use rbg_base::{Pair, Position, Vertex};
use rbg_flat::{Modifiers, Onward, Paths};
use rbg_rules::Game;
use rbg_shifts::Origin;
use rbg_state::{SemiState, Trial};
use std::alloc::Global;
use std::marker::Model;

/// How much a search may do.
#[derive(Clone, Copy, PartialEq, Eq, Drop)]
pub struct Budget {
    /// The most openings that are taken up.
    pub openings: u32,
    /// An opening with this many modifiers in a row is too deep. 0 is taken as 1.
    pub modifiers: u16,
}

/// What is reached without a modifier.
#[derive(Drop)]
pub struct FlatPart {
    /// The valid modifiers that come next, each with the vertex where it is valid.
    pub pairs: Vec<Pair>,
    /// Whether a word may end with no modifier more.
    pub ends: bool,
}

/// A search in a game: it counts the openings that it takes up, and has buffers that are lent to it.
#[derive(Drop)]
pub struct Search<'a, S: Steps> {
    pub(crate) alloc: Global,
    pub(crate) rules: GameSteps<'a, S>,
    /// The paths that this search made for itself, since none were lent to it; none while it answers a question.
    own: Option<Box<Paths>>,
    budget: Budget,
    opened: u32,
    taken: u64,
    pub(crate) buffers: &'a mut Buffers,
}

impl<'a, S: Steps> Model for Search<'a, S> {
    ghost use Rattle.rbg_search.specs.Searching.{Searching, coded_searching};

    ghost Value = { Searching };

    ghost coded = { coded_searching };

    ghost view = { λ s. record {
      game = s.rules;
      openings = s.budget.openings;
      modifiers = s.budget.modifiers;
      opened = s.opened;
      taken = s.taken;
    } };

    ghost use Rattle.std.specs.Prelude.{◌<◌, ◌≤◌, IfSome};
    ghost use Rattle.rbg_flat.specs.Paths.{ArePathsOf};
    ghost use Rattle.rbg_search.specs.internal.Fitting.{IsOfSize};
    ghost use Rattle.rbg_search.specs.internal.Spent.{IsSpent};

    ghost invariant = { λ s.
        IsOfSize s.rules s.buffers.now.flats.positions s.buffers.now.flats.vertices
        × (s.opened ≤ s.budget.openings)
        × IsSpent s.rules s.opened s.taken × (0 < s.budget.modifiers)
        × IfSome s.own (λ paths. ArePathsOf s.rules paths.value) };
}

impl<'a, S: Steps> Search<'a, S> {
    /// A search that has taken up no opening, with buffers that are lent to it.
    pub fn new(
        alloc: Global,
        game: &'a Game,
        steps: &'a S,
        budget: Budget,
        buffers: &'a mut Buffers,
    ) -> Search<'a, S>
        requires { S.of_rules steps.now game.now.rules }
        ensures game { result.game ≡ game.now }
        ensures openings { result.openings ≡ budget.openings }
        ensures modifiers { result.modifiers ≡ max budget.modifiers 1 }
        ensures opened { result.opened ≡ 0 }
        ensures taken { result.taken ≡ 0 }
    {
        game.is_accepted();
        let rules = GameSteps::new(game, steps, None);
        Search::by_rules(alloc, rules, budget, buffers)
    }

    /// As `new`, by rules that may have the paths of the game. If they have none, the search makes paths of its own at its
    /// first question.
    #[inline(always)]
    pub fn by_rules(
        alloc: Global,
        rules: GameSteps<'a, S>,
        budget: Budget,
        buffers: &'a mut Buffers,
    ) -> Search<'a, S>
        ensures game { result.game ≡ rules.entry }
        ensures openings { result.openings ≡ budget.openings }
        ensures modifiers { result.modifiers ≡ max budget.modifiers 1 }
        ensures opened { result.opened ≡ 0 }
        ensures taken { result.taken ≡ 0 }
    {
        buffers.flats.fit(rules.game());
        Search {
            alloc,
            rules,
            own: None,
            budget: Budget {
                openings: budget.openings,
                modifiers: budget.modifiers.max(1),
            },
            opened: 0,
            taken: 0,
            buffers,
        }
    }

    /// Ends the search: what it took up is counted. At the greatest number a count stays.
    #[inline(always)]
    pub fn leave(self, tally: &mut Tally)
        ensures openings { tally.new.openings
            ≡ min (tally.old.openings + self.entry.opened) (2 ^ 64 - 1) }
        ensures pairs { tally.new.pairs ≡ min (tally.old.pairs + self.entry.taken) (2 ^ 64 - 1) }
    {
        tally.openings = tally.openings.saturating_add(u64::from(self.opened));
        tally.pairs = tally.pairs.saturating_add(self.taken);
    }

    /// The game that is searched.
    pub fn game(&self) -> &'a Game
        ensures game { result.now ≡ self.now.game }
        ensures lawful { IsGame self.now.game }
    {
        self.rules.game()
    }

    /// How many openings were taken up.
    pub fn opened(&self) -> u32
        ensures opened { result ≡ self.now.opened }
        ensures within { self.now.opened ≤ self.now.openings }
    {
        self.opened
    }

    /// How many pairs of a vertex and a position the flat parts have met that were opened, those of patterns among them,
    /// and those that were given up: each pair once in each part. Modifiers count too. Shifts count where they are followed
    /// one by one; where the game has leaps, none is met.
    pub fn taken(&self) -> u64
        ensures taken { result ≡ self.now.taken }
        ensures few { self.now.taken ≤ self.now.opened * most_candidates self.now.game }
    {
        self.taken
    }

    /// What is reached from a semi-state and a place in the rules with no modifier before it, in order of vertices and
    /// then of positions. The semi-state is given back.
    pub fn reach(&mut self, state: &mut SemiState, origin: Origin) -> Result<FlatPart, Over>
        requires fits { IsStateOf self.old.game state.old.state }
        requires stands { IsStart self.old.game.rules (start_of origin) }
        ensures answered { IsAnswered self.old self.new state.old state.new reach (start_of origin)
            result }
        ensures found { IfOk result (λ reached. HasReached self.old self.new state.old state.new
            (start_of origin) reached.pairs.items reached.ends) }
        ensures order { IfOk result (λ reached. AllPairs IsBefore reached.pairs.items) }
    {
        let mut found = self.take_list();
        let ends = self.reach_into(state, origin, &mut found)?;
        let mut pairs = Vec::new(self.alloc);
        found.write_to(&mut pairs)?;
        self.keep_list(found);
        sort(&mut pairs);
        Ok(FlatPart { pairs, ends })
    }

    /// As `reach`, with the modifiers by words, in a list that is lent. Returns whether a word may end with no modifier more.
    #[inline(always)]
    pub fn reach_into(
        &mut self,
        state: &mut SemiState,
        origin: Origin,
        pairs: &mut Modifiers,
    ) -> Result<bool, Over>
        requires fits { IsStateOf self.old.game state.old.state }
        requires stands { IsStart self.old.game.rules (start_of origin) }
        ensures answered { IsAnswered self.old self.new state.old state.new reach (start_of origin)
            result }
        ensures found { IfOk result (λ ends. HasReached self.old self.new state.old state.new
            (start_of origin) pairs.new ends) }
    {
        if let Some(position) = self.only_modifier(state, origin) {
            let ends = self.reach_only(state, origin, position)?;
            pairs.clear();
            pairs.push(state.vertex(), position)?;
            return Ok(ends);
        }
        self.reach_flat(state, origin, pairs)
    }

    /// As `reach_into`, in the general way, by a flat part.
    #[inline(always)]
    pub fn reach_flat(
        &mut self,
        state: &mut SemiState,
        origin: Origin,
        pairs: &mut Modifiers,
    ) -> Result<bool, Over>
        requires fits { IsStateOf self.old.game state.old.state }
        requires stands { IsStart self.old.game.rules (start_of origin) }
        ensures answered { IsAnswered self.old self.new state.old state.new reach (start_of origin)
            result }
        ensures found { IfOk result (λ ends. HasReached self.old self.new state.old state.new
            (start_of origin) pairs.new ends) }
    {
        let nested = self.rules.nesting();
        let ends = self.own_flat_part(state, origin, nested, pairs)?;
        Ok(ends)
    }

    /// The one modifier that comes next, if there is one alone and it is valid, as far as that is told without a try: then
    /// `reach_only` does what `reach_into` does, and needs no list.
    #[inline(always)]
    pub fn only_modifier(&self, state: &SemiState, origin: Origin) -> Option<Position>
        requires { IsStateOf self.now.game state.now.state }
        ensures only { IfSome result (λ p.
            AreAllThatFollow self.now.game.rules (start_of origin) (p ∷ [])) }
        ensures modifies { IfSome result (λ p.
            IsTrialAt self.now.game state.now.state state.now.state.vertex p Trial.Modifies) }
    {
        only_modifier(&self.rules, state, origin)
    }

    /// What is reached where one modifier alone comes next, and is valid: that one. Returns whether a word may end with no
    /// modifier more.
    #[inline(always)]
    pub fn reach_only(
        &mut self,
        state: &mut SemiState,
        origin: Origin,
        position: Position,
    ) -> Result<bool, Over>
        requires fits { IsStateOf self.old.game state.old.state }
        requires stands { IsStart self.old.game.rules (start_of origin) }
        requires only { AreAllThatFollow self.old.game.rules (start_of origin) (position ∷ []) }
        requires modifies { IsTrialAt self.old.game state.old.state state.old.state.vertex position
            Trial.Modifies }
        ensures answered { IsAnswered self.old self.new state.old state.new reach (start_of origin)
            result }
        ensures found { IfOk result (λ ends. HasReached self.old self.new state.old state.new
            (start_of origin) ((state.old.state.vertex, position) ∷ []) ends) }
    {
        // The budget's modifiers are a number of 16 bits.
        let _modifiers = self.budget.modifiers;
        self.enter(state)?;
        let ends = self.rules.may_end(origin);
        self.count_pairs(1);
        Ok(ends)
    }

    /// What comes next after a position, where that is one modifier alone, as it was learned when the game was made ready.
    #[inline(always)]
    pub fn onward(&self, position: Position) -> Onward
        ensures { IsOnward self.now.game.rules position result }
    {
        match self.rules.paths() {
            Some(paths) => paths.onward(position),
            None => Onward::Unknown,
        }
    }

    /// How many openings more the budget allows.
    #[inline(always)]
    pub fn left(&self) -> u32
        ensures { self.now.opened + result ≡ self.now.openings }
    {
        self.budget.openings - self.opened
    }

    /// Takes up so many openings of one modifier each, as they stand one after another in a straight line.
    #[inline(always)]
    pub fn take_line(&mut self, modifiers: u32)
        requires left { self.old.opened + modifiers ≤ self.old.openings }
        requires pairs { 1 ≤ most_candidates self.old.game }
        ensures search { self.new ≡ record self.old { opened = self.old.opened + modifiers; taken = self.old.taken + modifiers } }
        ensures some { 0 < self.old.modifiers }
        ensures few { self.old.taken ≤ self.old.opened * most_candidates self.old.game }
    {
        // The game is lawful, and the budget's openings are a number of 32 bits, so the sum of pairs is one of 64 bits.
        let _game = self.rules.game();
        let _openings = self.budget.openings;
        self.opened += modifiers;
        self.taken += u64::from(modifiers);
    }

    /// Whether the pattern at a position is valid in the semi-state, which is given back.
    pub fn pattern(&mut self, state: &mut SemiState, position: Position) -> Result<bool, Over>
        requires fits { IsStateOf self.old.game state.old.state }
        requires there { IsPatternAt self.old.game.rules position }
        ensures answered { IsAnswered self.old self.new state.old state.new pattern
            (beginning (inside position)) result }
        ensures valid { IfOk result (λ valid.
            IsTrue valid ↔ Applies self.old.game position state.old.state state.old.state) }
    {
        state.reserve(1)?;
        let nested = self.rules.nesting() + 1;
        let vertex = state.vertex();
        let valid = self.ask_first(state, vertex, position, nested)?;
        Ok(valid)
    }

    /// As `flat_part`, along the paths of this search.
    #[inline(always)]
    fn own_flat_part(
        &mut self,
        state: &mut SemiState,
        origin: Origin,
        nested: u8,
        pairs: &mut Modifiers,
    ) -> Result<bool, Over>
        requires fits { IsStateOf self.old.game state.old.state }
        requires nested { NestsFrom self.old.game.rules nested (start_of origin) }
        requires start { IsStart self.old.game.rules (start_of origin) }
        ensures asked { IsAsked self.old self.new state.old state.new reach state.old.state
            (start_of origin) self.old.modifiers result }
        ensures found { IfOk result (λ ends. HasFound self.old self.new state.old state.new
            (start_of origin) nested pairs.new ends) }
    {
        let held = self.take_paths()?;
        let answer = self.flat_part(held.get(), state, origin, nested, pairs);
        self.keep_paths(held);
        answer
    }

    /// As `ask`, along the paths of this search.
    fn ask_first(
        &mut self,
        state: &mut SemiState,
        vertex: Vertex,
        position: Position,
        nested: u8,
    ) -> Result<bool, Over>
        requires fits { IsStateOf self.old.game state.old.state }
        requires room { 1 ≤ state.old.room }
        requires vertex { vertex < length state.old.state.pieces }
        requires there { IsPatternAt self.old.game.rules position }
        requires some { 0 < nested }
        requires nested { (k : ℕ) → nested ≡ suc k
            → NestsFrom self.old.game.rules k (beginning (inside position)) }
        ensures asked { IsAsked self.old self.new state.old state.new pattern
            (at_vertex state.old.state vertex) (beginning (inside position))
            self.old.modifiers result }
        ensures valid { IfOk result (λ valid. IsTrue valid ↔ Applies self.old.game position
            (at_vertex state.old.state vertex) (at_vertex state.old.state vertex)) }
        ensures forced { OnOk result ((cut : Bool) → CountsForced self.old.game cut pattern
            (at_vertex state.old.state vertex) (beginning (inside position))
            self.old.opened self.new.opened self.old.modifiers self.old.modifiers) }
    {
        let held = self.take_paths()?;
        let answer = self.ask(held.get(), state, vertex, position, nested);
        self.keep_paths(held);
        answer
    }

    /// The paths by which a question is answered. A search to which none were lent makes some for itself, with no leaps, at
    /// its first question.
    #[inline(always)]
    fn take_paths(&mut self) -> Result<HeldPaths<'a>, Over>
        ensures kept { self.new ≡ self.old }
        ensures paths { IfOk result (HoldsPathsOf self.old.game) }
        ensures memory { IfErr result (λ over. over ≡ Over.Memory) }
    {
        match self.rules.paths() {
            Some(paths) => Ok(HeldPaths::Lent(paths)),
            None => self.take_own(),
        }
    }

    /// The paths that a search makes for itself.
    #[cold]
    #[inline(never)]
    fn take_own(&mut self) -> Result<HeldPaths<'a>, Over>
        ensures kept { self.new ≡ self.old }
        ensures paths { IfOk result (HoldsPathsOf self.old.game) }
        ensures memory { IfErr result (λ over. over ≡ Over.Memory) }
    {
        match self.own.take() {
            Some(own) => Ok(HeldPaths::Own(own)),
            None => {
                let made = self.rules.stepwise_paths(self.alloc)?;
                Ok(HeldPaths::Own(Box::new(self.alloc, made)?))
            }
        }
    }

    /// Keeps the paths that a search made for itself.
    #[inline(always)]
    fn keep_paths(&mut self, held: HeldPaths<'a>)
        requires { HoldsPathsOf self.old.game held }
        ensures { self.new ≡ self.old }
    {
        match held {
            HeldPaths::Lent(_) => {}
            HeldPaths::Own(own) => self.own = Some(own),
        }
    }

    /// Takes one more opening up.
    pub(crate) fn open(&mut self) -> Result<(), Over>
        ensures kept { self.new ≡ record self.old { opened = self.new.opened; taken = self.new.taken } }
        ensures lawful { IsGame self.old.game }
        ensures opened { OnOk result (self.new.opened ≡ self.old.opened + 1) }
        ensures unopened { OnErr result (self.new.opened ≡ self.old.opened) }
        ensures wide { IfErr result (λ over. over ≡ Over.Wide) }
        ensures full { OnErr result (self.old.openings ≤ self.old.opened) }
        ensures none_taken { self.new.taken ≡ self.old.taken }
        ensures spent { IsSpent self.old.game self.old.opened self.old.taken }
    {
        // The game is lawful.
        let _lawful = self.rules.game();
        if self.opened >= self.budget.openings {
            return Err(Over::Wide);
        }
        self.opened += 1;
        Ok(())
    }

    /// Counts the pairs of a flat part. It was opened, and isn't counted yet.
    pub(crate) fn count_pairs(&mut self, pairs: usize)
        requires few { pairs ≤ most_candidates self.old.game }
        requires one { IsSpentButOne self.old.game self.old.opened self.old.taken }
        ensures kept { self.new ≡ record self.old { opened = self.new.opened; taken = self.new.taken } }
        ensures opened { self.new.opened ≡ self.old.opened }
        ensures taken { self.new.taken ≡ self.old.taken + pairs }
    {
        // The game is lawful, and the openings are a number of 32 bits, so the sum is one of 64 bits.
        let _game = self.rules.game();
        let _opened = self.opened;
        self.taken += pairs as u64;
    }

    /// Takes one more opening up, and makes room for the changes of two actions.
    fn enter(&mut self, state: &mut SemiState) -> Result<(), Over>
        ensures kept { self.new ≡ record self.old { opened = self.new.opened; taken = self.new.taken } }
        ensures given_back { state.new ≡ record state.old { room = state.new.room } }
        ensures room { state.old.room ≤ state.new.room }
        ensures enough { OnOk result (2 ≤ state.new.room) }
        ensures lawful { IsGame self.old.game }
        ensures opened { OnOk result (self.new.opened ≡ self.old.opened + 1) }
        ensures counts { (s : AbstractState) (f : Start) → IsStart self.old.game.rules f
            → IsCounted self.old.game reach s f self.old.opened self.new.opened
            self.old.modifiers self.old.openings self.old.modifiers
            (result ≡ Err Over.Deep) (result ≡ Err Over.Wide) }
        ensures none_taken { self.new.taken ≡ self.old.taken }
        ensures spent { IsSpent self.old.game self.old.opened self.old.taken }
        ensures lost { OnErr result ((s : AbstractState) (f : Start)
            → CountsTaken self.old.game reach s f self.old.opened self.new.opened self.old.taken
            self.new.taken (IsOk result) (¬ (result ≡ Err Over.Memory))) }
    {
        self.open()?;
        state.reserve(2)?;
        Ok(())
    }

    /// Applies a modifier at a vertex.
    fn apply_at(&self, state: &mut SemiState, vertex: Vertex, position: Position)
        requires fits { IsStateOf self.now.game state.old.state }
        requires room { 2 ≤ state.old.room }
        requires vertex { vertex < length state.old.state.pieces }
        requires position { IsPositionOf self.now.game.rules position }
        requires modifies { IsModifierAt self.now.game.rules position }
        ensures fits { IsStateOf self.now.game state.new.state }
        ensures only { (t : AbstractState)
            → Applies self.now.game position (at_vertex state.old.state vertex) t
            → t ≡ state.new.state }
        ensures after { IsAfter state.old state.new }
        ensures capacity { capacity_of state.new ≡ capacity_of state.old }
    {
        state.stand_at(vertex);
        state.apply(self.rules.game(), position);
    }

    /// Whether a pattern is valid where some word of its inside runs, or none.
    pub(crate) fn is_valid(&self, position: Position, runs: bool) -> bool
        requires there { IsPatternAt self.now.game.rules position }
        ensures { (s : AbstractState)
            → IsTrue runs ↔ SomeWordRuns self.now.game s (beginning (inside position))
            → IsTrue result ↔ Applies self.now.game position s s }
    {
        is_valid(self.rules.game(), position, runs)
    }

    /// Looks at a pattern at a vertex without a flat part: where nothing goes on from its beginning, its leaps tell what is
    /// met, and where its inside is a straight line, a scan does.
    fn scan(
        &self,
        paths: &Paths,
        state: &SemiState,
        vertex: Vertex,
        position: Position,
    ) -> Option<PatternScan>
        requires paths { ArePathsOf self.now.game paths.now }
        requires fits { IsStateOf self.now.game state.now.state }
        requires vertex { vertex < length state.now.state.pieces }
        requires there { IsPatternAt self.now.game.rules position }
        ensures { IfSome result (λ scan. IsTold self.now.game (at_vertex state.now.state vertex)
            (beginning (inside position)) scan.ends scan.pairs) }
    {
        if let Some(scan) = self.scan_dead(paths, state, vertex, position) {
            return Some(scan);
        }
        scan_inside(&self.rules, state, vertex, position, !paths.has_leaps())
    }

    /// What is reached, in a list that is lent, and whether a word may end with no modifier more, along the paths of the
    /// game. Patterns nest at most `nested` deep there.
    #[cycle(search)]
    fn flat_part(
        &mut self,
        paths: &Paths,
        state: &mut SemiState,
        origin: Origin,
        nested: u8,
        pairs: &mut Modifiers,
    ) -> Result<bool, Over>
        requires paths { ArePathsOf self.old.game paths.now }
        requires fits { IsStateOf self.old.game state.old.state }
        requires nested { NestsFrom self.old.game.rules nested (start_of origin) }
        requires start { IsStart self.old.game.rules (start_of origin) }
        ensures asked { IsAsked self.old self.new state.old state.new reach state.old.state
            (start_of origin) self.old.modifiers result }
        ensures found { IfOk result (λ ends. HasFound self.old self.new state.old state.new
            (start_of origin) nested pairs.new ends) }
    {
        self.enter(state)?;
        let mut flat = self.begun_by_sets(paths, state, origin)?;
        while let Some(Pair { vertex, position }) = self.advance_by_sets(paths, &mut flat, state) {
            if !self.take_dead(paths, &mut flat, state, vertex, position) {
                let valid = match self.ask(paths, state, vertex, position, nested) {
                    Ok(answer) => answer,
                    Err(over) => return Err(self.lose_sets(flat, over)),
                };
                self.take_by_sets(paths, &mut flat, state, vertex, position, valid);
            }
        }
        let ends = self.finish_by_sets(paths, flat, state, pairs)?;
        Ok(ends)
    }

    /// Whether the pattern at a position is valid at a vertex. Patterns nest at most `nested` deep, this one included.
    #[cycle(search)]
    fn ask(
        &mut self,
        paths: &Paths,
        state: &mut SemiState,
        vertex: Vertex,
        position: Position,
        nested: u8,
    ) -> Result<bool, Over>
        requires paths { ArePathsOf self.old.game paths.now }
        requires fits { IsStateOf self.old.game state.old.state }
        requires room { 1 ≤ state.old.room }
        requires vertex { vertex < length state.old.state.pieces }
        requires there { IsPatternAt self.old.game.rules position }
        requires some { 0 < nested }
        requires nested { (k : ℕ) → nested ≡ suc k
            → NestsFrom self.old.game.rules k (beginning (inside position)) }
        ensures asked { IsAsked self.old self.new state.old state.new pattern
            (at_vertex state.old.state vertex) (beginning (inside position))
            self.old.modifiers result }
        ensures valid { IfOk result (λ valid. IsTrue valid ↔ Applies self.old.game position
            (at_vertex state.old.state vertex) (at_vertex state.old.state vertex)) }
        ensures forced { OnOk result ((cut : Bool) → CountsForced self.old.game cut pattern
            (at_vertex state.old.state vertex) (beginning (inside position))
            self.old.opened self.new.opened self.old.modifiers self.old.modifiers) }
    {
        if let Some(scan) = self.scan(paths, state, vertex, position) {
            return self.answer(position, scan);
        }
        let modifiers = self.budget.modifiers;
        let mark = state.mark();
        stand(state, vertex);
        let inside = Origin::Begin(Expr::Inside(position));
        let runs = self.word_runs(paths, state, inside, nested - 1, modifiers);
        state.undo_to(mark);
        Ok(self.is_valid(position, runs?))
    }

    /// Whether some word runs: one that ends with no modifier more, or else one after a modifier, of which each is tried in
    /// order of vertices and then of positions. An opening with `modifiers` more is too deep.
    #[cycle(search)]
    #[inline(always)]
    fn word_runs(
        &mut self,
        paths: &Paths,
        state: &mut SemiState,
        origin: Origin,
        nested: u8,
        modifiers: u16,
    ) -> Result<bool, Over>
        requires paths { ArePathsOf self.old.game paths.now }
        requires fits { IsStateOf self.old.game state.old.state }
        requires nested { NestsFrom self.old.game.rules nested (start_of origin) }
        requires inside { StandsInPattern self.old.game.rules (start_of origin) }
        ensures asked { IsAsked self.old self.new state.old state.new pattern state.old.state
            (start_of origin) modifiers result }
        ensures answer { IfOk result (λ runs.
            IsTrue runs ↔ SomeWordRuns self.old.game state.old.state (start_of origin)) }
        ensures forced { OnOk result ((cut : Bool)
            → CountsForced self.old.game cut pattern state.old.state (start_of origin)
            self.old.opened self.new.opened modifiers self.old.modifiers) }
    {
        let mut pairs = self.take_list();
        let ends = self.flat_part(paths, state, origin, nested, &mut pairs)?;
        if ends {
            self.keep_list(pairs);
            return Ok(true);
        }
        let runs = self.runs_after(paths, state, &mut pairs, nested, modifiers)?;
        self.keep_list(pairs);
        Ok(runs)
    }

    /// Whether some word runs after one of these modifiers, tried in turn. An opening with `modifiers` more is too deep.
    #[cycle(search)]
    #[inline(always)]
    fn runs_after(
        &mut self,
        paths: &Paths,
        state: &mut SemiState,
        pairs: &mut Modifiers,
        nested: u8,
        modifiers: u16,
    ) -> Result<bool, Over>
        requires paths { ArePathsOf self.old.game paths.now }
        requires fits { IsStateOf self.old.game state.old.state }
        requires room { 2 ≤ state.old.room }
        requires ready { All (IsReady self.old.game state.old.state nested) pairs.old }
        requires inside { All (λ q. StandsInPattern self.old.game.rules (after q.1)) pairs.old }
        ensures asked { IsAskedAfter self.old self.new state.old state.new pairs.old modifiers result }
        ensures answer { IfOk result (λ runs.
            IsTrue runs ↔ SomeRunsAfter self.old.game state.old.state pairs.old) }
        ensures forced { IfOk result (λ runs. RanAfter self.old.game state.old.state pairs.old runs
            self.old.opened self.new.opened modifiers self.old.modifiers) }
    {
        // which questions are above the limits doesn't depend on how the modifiers were met
        while let Some(pair) = pairs.take_least() {
            if modifiers <= 1 {
                return Err(Over::Deep);
            }
            if self.runs_after_one(paths, state, pair, nested, modifiers)? {
                return Ok(true);
            }
        }
        Ok(false)
    }

    /// Whether some word runs after a modifier at a vertex. An opening with `modifiers` more is too deep.
    #[cycle(search)]
    fn runs_after_one(
        &mut self,
        paths: &Paths,
        state: &mut SemiState,
        pair: Pair,
        nested: u8,
        modifiers: u16,
    ) -> Result<bool, Over>
        requires paths { ArePathsOf self.old.game paths.now }
        requires fits { IsStateOf self.old.game state.old.state }
        requires room { 2 ≤ state.old.room }
        requires ready { IsReady self.old.game state.old.state nested pair }
        requires inside { StandsInPattern self.old.game.rules (after pair.1) }
        requires some { 0 < modifiers }
        ensures asked { (later : AbstractState)
            → Applies self.old.game pair.1 (at_vertex state.old.state pair.0) later
            → IsAsked self.old self.new state.old state.new pattern later (after pair.1)
            (modifiers - 1) result }
        ensures answer { IfOk result (λ runs.
            IsTrue runs ↔ RunsAfterPair self.old.game state.old.state pair.0 pair.1) }
        ensures forced { OnOk result ((cut : Bool) (later : AbstractState)
            → Applies self.old.game pair.1 (at_vertex state.old.state pair.0) later
            → CountsForced self.old.game cut pattern later (after pair.1)
            self.old.opened self.new.opened (modifiers - 1) self.old.modifiers) }
    {
        let mark = state.mark();
        self.apply_at(state, pair.vertex, pair.position);
        let origin = Origin::After(pair.position);
        let runs = self.word_runs(paths, state, origin, nested, modifiers - 1);
        state.undo_to(mark);
        Ok(runs?)
    }
}
