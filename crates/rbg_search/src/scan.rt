//! Patterns that need no flat part: those whose inside is a straight line of actions, and those in which nothing goes on
//! from the beginning. They are answered by a scan.
ghost use Rattle.std.specs.Prelude.{◌≡◌, ◌<◌, ◌≤◌, ◌↔◌, length, Bool, Err, IfOk, IfSome, IsOk, IsTrue, OnErr, OnOk};
ghost use Rattle.rbg_rules.specs.Meaning.{Applies, IsPatternAt, inside, pattern, AbstractState, IsStateOf, beginning};
ghost use Rattle.rbg_search.specs.Closure.{at_vertex};
ghost use Rattle.rbg_search.specs.Forced.{CountsForced};
ghost use Rattle.rbg_search.specs.Taken.{CountsTaken, HasMet, most_candidates};
ghost use Rattle.rbg_search.specs.internal.Asked.{IsCounted};
ghost use Rattle.rbg_search.specs.internal.Straight.{IsScanned, IsTold};

use crate::game_steps::GameSteps;
use crate::over::Over;
use crate::search::Search;
use crate::single::only_position;
use crate::trials::{one_more, tried};
use rbg_auto::{Expr, Steps};
use rbg_base::{Position, Vertex};
use rbg_shifts::Origin;
use rbg_state::{SemiState, Trial};

/// What is told of a pattern that needs no flat part, by a scan along a straight line or by its first leaps.
#[derive(Drop)]
pub(crate) struct PatternScan {
    /// Whether a word ends on the way.
    pub ends: bool,
    /// How many pairs were met, without shifts where the game has leaps.
    pub pairs: usize,
}

/// Scans along the inside of a pattern, from a vertex up to the first action that isn't valid, or to the last one. None
/// where there isn't exactly one first action, where more than one may come next, or where a pattern, a valid modifier
/// or an action that stands no later comes next. Shifts count where they are said to.
pub(crate) fn scan_inside<S: Steps>(
    rules: &GameSteps<'_, S>,
    state: &SemiState,
    vertex: Vertex,
    pattern: Position,
    shifts: bool,
) -> Option<PatternScan>
    requires fits { IsStateOf rules.now state.now.state }
    requires there { vertex < length rules.now.board.first }
    ensures { IfSome result (λ scan. IsTold rules.now (at_vertex state.now.state vertex)
        (beginning (inside pattern)) scan.ends scan.pairs) }
{
    let begin = Origin::Begin(Expr::Inside(pattern));
    let mut position = only_position(rules.following(begin))?;
    let mut vertex = vertex;
    let mut ends = rules.may_end(begin);
    let mut pairs = 0;
    loop {
        pairs = one_more(rules, position, pairs, shifts);
        match tried(rules, state, vertex, position)? {
            Trial::Invalid => return Some(PatternScan { ends, pairs }),
            Trial::Modifies => return None,
            Trial::LeadsTo(to) => {
                let here = Origin::After(position);
                ends |= rules.may_end(here);
                let following = rules.following(here);
                if following.is_empty() {
                    return Some(PatternScan { ends, pairs });
                }
                let next = only_position(following)?;
                if next <= position {
                    return None;
                }
                position = next;
                vertex = to;
            }
        }
    }
}

impl<'a, S: Steps> Search<'a, S> {
    /// Whether a pattern is valid by the scan along its inside, for which one more opening is taken up.
    pub(crate) fn answer(&mut self, position: Position, scan: PatternScan) -> Result<bool, Over>
        requires there { IsPatternAt self.old.game.rules position }
        requires few { scan.pairs ≤ most_candidates self.old.game }
        ensures kept { self.new ≡ record self.old { opened = self.new.opened; taken = self.new.taken } }
        ensures valid { IfOk result (λ valid. (s : AbstractState)
            → IsScanned self.old.game s (beginning (inside position)) scan.ends
            → IsTrue valid ↔ Applies self.old.game position s s) }
        ensures counts { (s : AbstractState)
            → IsCounted self.old.game pattern s (beginning (inside position))
            self.old.opened self.new.opened self.old.modifiers self.old.openings self.old.modifiers
            (result ≡ Err Over.Deep) (result ≡ Err Over.Wide) }
        ensures forced { OnOk result ((s : AbstractState) (cut : Bool)
            → IsScanned self.old.game s (beginning (inside position)) scan.ends
            → CountsForced self.old.game cut pattern s (beginning (inside position))
            self.old.opened self.new.opened self.old.modifiers self.old.modifiers) }
        ensures taken { (s : AbstractState)
            → HasMet self.old.game s (beginning (inside position)) (Unit {0}) (Unit {0}) scan.pairs
            → CountsTaken self.old.game pattern s (beginning (inside position))
            self.old.opened self.new.opened self.old.taken self.new.taken (IsOk result)
            (¬ (result ≡ Err Over.Memory)) }
        ensures unopened { OnErr result (self.new.opened ≡ self.old.opened) }
        ensures none_taken { OnErr result (self.new.taken ≡ self.old.taken) }
    {
        self.open()?;
        self.count_pairs(scan.pairs);
        Ok(self.is_valid(position, scan.ends))
    }
}
