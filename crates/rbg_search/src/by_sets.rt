//! Flat parts that are found by sets of vertices: what a search does with one.
ghost use Rattle.std.specs.Prelude.{◌≡◌, ◌<◌, IfOk, IfErr, IfSome, IfNone};
ghost use Rattle.rbg_rules.specs.Meaning.{IsStart, IsStateOf, Start};
ghost use Rattle.rbg_flat.specs.Found.{HasPairs};
ghost use Rattle.rbg_flat.specs.Met.{CountsMet};
ghost use Rattle.rbg_flat.specs.Paths.{ArePathsOf, way_of};
ghost use Rattle.rbg_flat.specs.internal.Leading.{AreSizedFor};
ghost use Rattle.rbg_flat.specs.internal.Sets.{IsMarked};
ghost use Rattle.rbg_search.specs.Flat.{IsFlatPart};
ghost use Rattle.rbg_search.specs.Start.{start_of};
ghost use Rattle.rbg_search.specs.internal.BySets.{IsBegunBySets, HasSetsFor, IsWhole, BeginsBySets, AdvancesBySets, IsToBeAsked, TakesBySets};
ghost use Rattle.rbg_search.specs.internal.Spent.{CountsPart, IsSpentButOne};

use crate::over::Over;
use crate::search::Search;
use rbg_auto::Steps;
use rbg_base::{Pair, Position, Vertex};
use rbg_flat::{Flat as SetFlat, Modifiers, Paths};
use rbg_shifts::Origin;
use rbg_state::SemiState;

impl<'a, S: Steps> Search<'a, S> {
    /// A flat part by sets that is not in use.
    fn unused_sets(&mut self) -> Result<Box<SetFlat>, Over>
        ensures kept { self.new ≡ self.old }
        ensures sized { IfOk result (λ flat. AreSizedFor self.old.game flat.value.sets) }
        ensures memory { IfErr result (λ over. over ≡ Over.Memory) }
    {
        match self.buffers.flats.take_sets() {
            Some(flat) => Ok(flat),
            None => self.new_sets(),
        }
    }

    /// A new flat part by sets. It isn't inlined, since it is rare and needs much of the stack.
    #[inline(never)]
    fn new_sets(&self) -> Result<Box<SetFlat>, Over>
        ensures sized { IfOk result (λ flat. AreSizedFor self.now.game flat.value.sets) }
        ensures memory { IfErr result (λ over. over ≡ Over.Memory) }
    {
        Ok(Box::new(self.alloc, SetFlat::new(self.alloc, self.rules.game())?)?)
    }

    /// A flat part by sets that is begun.
    pub(crate) fn begun_by_sets(
        &mut self,
        paths: &Paths,
        state: &SemiState,
        origin: Origin,
    ) -> Result<Box<SetFlat>, Over>
        requires paths { ArePathsOf self.old.game paths.now }
        requires fits { IsStateOf self.old.game state.now.state }
        requires stands { IsStart self.old.game.rules (start_of origin) }
        ensures kept { self.new ≡ self.old }
        ensures begins { IfOk result (λ flat.
            BeginsBySets (way_of paths.now) self.old.game state.now.state (start_of origin) flat.value) }
        ensures memory { IfErr result (λ over. over ≡ Over.Memory) }
    {
        let mut flat = self.unused_sets()?;
        flat.begin(self.rules.game(), paths, state, origin);
        Ok(flat)
    }

    /// Goes on up to the next vertex that is to be asked about a pattern; none where nothing is left.
    pub(crate) fn advance_by_sets(
        &self,
        paths: &Paths,
        flat: &mut Box<SetFlat>,
        state: &SemiState,
    ) -> Option<Pair>
        requires paths { ArePathsOf self.now.game paths.now }
        requires fits { IsStateOf self.now.game state.now.state }
        requires sets { HasSetsFor self.now.game flat.old.value }
        ensures advances { AdvancesBySets (way_of paths.now) self.now.game state.now.state flat.old.value
            flat.new.value }
        ensures next { IfSome result (λ pair.
            IsToBeAsked self.now.game flat.new.value pair.0 pair.1) }
        ensures whole { IfNone result (IsWhole flat.new.value) }
    {
        flat.advance(self.rules.game(), paths, state)
    }

    /// Takes a vertex that was asked about the pattern at a position, which is valid there or isn't.
    pub(crate) fn take_by_sets(
        &self,
        paths: &Paths,
        flat: &mut Box<SetFlat>,
        state: &SemiState,
        vertex: Vertex,
        position: Position,
        valid: bool,
    )
        requires paths { ArePathsOf self.now.game paths.now }
        requires fits { IsStateOf self.now.game state.now.state }
        requires sets { HasSetsFor self.now.game flat.old.value }
        requires next { IsToBeAsked self.now.game flat.old.value vertex position }
        ensures takes { TakesBySets (way_of paths.now) self.now.game state.now.state flat.old.value flat.new.value
            vertex position valid }
    {
        flat.take(self.rules.game(), paths, state, vertex, position, valid);
    }

    /// Hands out what a flat part found, in the list that is lent, and keeps the rest for further use. Returns whether a
    /// word may end with no modifier more.
    pub(crate) fn finish_by_sets(
        &mut self,
        paths: &Paths,
        flat: Box<SetFlat>,
        state: &SemiState,
        pairs: &mut Modifiers,
    ) -> Result<bool, Over>
        requires paths { ArePathsOf self.old.game paths.now }
        requires fits { IsStateOf self.old.game state.now.state }
        requires sets { HasSetsFor self.old.game flat.value }
        requires whole { IsWhole flat.value }
        requires one { IsSpentButOne self.old.game self.old.opened self.old.taken }
        ensures kept { self.new ≡ record self.old { opened = self.new.opened; taken = self.new.taken } }
        ensures opened { self.new.opened ≡ self.old.opened }
        ensures part { IfOk result (λ ends. (f : Start)
            → IsBegunBySets (way_of paths.now) self.old.game state.now.state f flat.value
            → IsFlatPart self.old.game state.now.state f pairs.new ends) }
        ensures taken { CountsPart self.old.game (λ many. (f : Start)
            → IsBegunBySets (way_of paths.now) self.old.game state.now.state f flat.value
            → HasPairs (way_of paths.now) self.old.game state.now.state f many) self.old.taken self.new.taken }
        ensures memory { IfErr result (λ over. over ≡ Over.Memory) }
    {
        let mut flat = flat;
        let ends = flat.ends();
        match flat.finish(self.rules.game(), paths, state, pairs) {
            Ok(many) => {
                self.count_pairs(many);
                self.buffers.flats.keep_sets(flat);
                Ok(ends)
            }
            Err(lost) => {
                self.count_pairs(lost.many);
                Err(Over::Memory)
            }
        }
    }

    /// Counts what a flat part has met that is given up. Returns why it is.
    #[cold]
    #[inline(never)]
    pub(crate) fn lose_sets(&mut self, flat: Box<SetFlat>, over: Over) -> Over
        requires sets { HasSetsFor self.old.game flat.value }
        requires one { IsSpentButOne self.old.game self.old.opened self.old.taken }
        ensures kept { self.new ≡ record self.old { opened = self.new.opened; taken = self.new.taken } }
        ensures opened { self.new.opened ≡ self.old.opened }
        ensures taken { CountsPart self.old.game (CountsMet (IsMarked flat.value.sets))
            self.old.taken self.new.taken }
        ensures over { result ≡ over }
    {
        let mut flat = flat;
        let many = flat.count_met(self.rules.game());
        self.count_pairs(many);
        over
    }
}
