//! Patterns that are walked through: all that is met in them are ons and comparisons, at one vertex each, and none twice.
ghost use Rattle.std.specs.Prelude.{◌≡◌, ◌↔◌, ◌<◌, ◌≤◌, ℕ, length, All, IfSome, IfNone, IsTrue};
ghost use Rattle.rbg_rules.specs.Meaning.{IsGame, IsStart, inside, IsStateOf, beginning};
ghost use Rattle.rbg_shifts.specs.Leaps.{IsLeap, EndsAcross};
ghost use Rattle.rbg_shifts.specs.Origin.{start_of};
ghost use Rattle.rbg_flat.specs.Chains.{at_vertex};
ghost use Rattle.rbg_flat.specs.Ending.{IsDeadEnd};
ghost use Rattle.rbg_flat.specs.Paths.{ArePathsOf};
ghost use Rattle.rbg_flat.specs.internal.Ending.{IsFilledTarget};
ghost use Rattle.rbg_flat.specs.internal.Leading.{IsAmong};
ghost use Rattle.rbg_flat.specs.internal.Sets.{IsInWord};
ghost use Rattle.rbg_flat.specs.internal.Setting.{IsLawfulSetting};
ghost use Rattle.rbg_flat.specs.internal.Walking.{IsPassable, IsWalk, GoesOn, TakesLast};

use crate::ending::DeadEnd;
use crate::passing::to_try;
use crate::paths::{Kind, Paths};
use crate::setting::Setting;
use crate::words::{lowest, shared, without};
use rbg_auto::Expr;
use rbg_base::{Pair, Position, Vertex};
use rbg_rules::Game;
use rbg_shifts::{Origin, Target};
use rbg_state::SemiState;

/// How many words of marks a walk has. Positions whose numbers are so far apart share one.
const PLACES: usize = 16;

/// The most pairs that wait at once.
const MOST_WAITING: usize = 8;

/// The most pairs from which a walk leads on.
const MOST_STEPS: u32 = 64;

/// A walk of a few steps. It has no list of what was met: a mark that is there already may be that of another position,
/// and all the same the walk is given up.
#[derive(Drop)]
pub(crate) struct Walk {
    /// The vertices that were met, as bits.
    marks: [u64; PLACES],
    /// The pairs from which nothing was led on yet are the first so many.
    todo: [Pair; MOST_WAITING],
    waiting: usize,
    /// How many pairs were met.
    many: usize,
}

/// What `Paths::dead_end` tells of the inside of a pattern at a vertex, by a walk through all that holds there. None where
/// something else than an on or a comparison is met, or a target of several vertices, or where the walk is too long.
#[inline(never)]
pub(crate) fn walked_end(
    game: &Game,
    paths: &Paths,
    state: &SemiState,
    pattern: Position,
    vertex: Vertex,
) -> Option<DeadEnd>
    requires lawful { IsGame game.now }
    requires paths { ArePathsOf game.now paths.now }
    requires fits { IsStateOf game.now state.now.state }
    requires vertex { vertex < length game.now.board.first }
    requires stands { IsStart game.now.rules (beginning (inside pattern)) }
    ensures { IfSome result (λ dead. IsDeadEnd game.now (at_vertex state.now.state vertex)
        (beginning (inside pattern)) dead.many dead.ends) }
{
    let setting = Setting { game, paths, state };
    let mut walk = Walk::new();
    let begin = Origin::Begin(Expr::Inside(pattern));
    let mut ends = walk.lead(&setting, begin, vertex)?;
    for _ in 0..MOST_STEPS {
        let Some(next) = walk.take_last() else {
            return Some(DeadEnd {
                many: walk.many,
                ends,
            });
        };
        ends |= walk.lead(&setting, Origin::After(next.position), next.vertex)?;
    }
    None
}

impl Walk {
    /// Nothing was met yet.
    #[inline(always)]
    fn new() -> Walk
        ensures marks { length result.marks ≡ 16 }
        ensures todo { length result.todo ≡ 8 }
        ensures many { result.many ≡ 0 }
        ensures waiting { result.waiting ≡ 0 }
    {
        let none = Pair {
            vertex: 0,
            position: 0,
        };
        Walk {
            marks: [0; PLACES],
            todo: [none; MOST_WAITING],
            waiting: 0,
            many: 0,
        }
    }

    /// The last pair that waits, which waits no longer.
    #[inline(always)]
    fn take_last(&mut self) -> Option<Pair>
        requires todo { length self.old.todo ≡ 8 }
        requires room { self.old.waiting ≤ 8 }
        ensures takes { IfSome result (λ pair. TakesLast self.old self.new pair.0 pair.1) }
        ensures none { IfNone result (self.old.waiting ≡ 0) }
        ensures kept { IfNone result (self.new ≡ self.old) }
    {
        if self.waiting == 0 {
            return None;
        }
        self.waiting -= 1;
        Some(self.todo[self.waiting])
    }

    /// Meets where leaps lead from a place in the rules and a vertex. Returns whether a word may end there with shifts
    /// alone; none where the walk is given up.
    #[inline(always)]
    fn lead(&mut self, setting: &Setting, origin: Origin, vertex: Vertex) -> Option<bool>
        requires set { IsLawfulSetting setting.now }
        requires walk { IsWalk setting.now.game.now setting.now.state.now.state self.old }
        requires vertex { vertex < length setting.now.game.now.board.first }
        requires stands { IsStart setting.now.game.now.rules (start_of origin) }
        ensures goes { IfSome result (λ ends.
            (was : IsWalk setting.now.game.now setting.now.state.now.state self.old)
            → GoesOn setting.now.game.now setting.now.state.now.state self.old was self.new
            (λ v p. IsLeap setting.now.game.now (start_of origin) vertex p v)) }
        ensures ends { IfSome result (λ ends.
            IsTrue ends ↔ EndsAcross setting.now.game.now (start_of origin) vertex) }
    {
        let Some(leaps) = setting.paths.leaps() else {
            return None;
        };
        let (targets, ends) = leaps.leads(origin, vertex);
        if self.meet_all(setting, targets) {
            Some(ends)
        } else {
            None
        }
    }

    /// Meets targets. Returns whether the walk isn't given up.
    #[inline(always)]
    fn meet_all(&mut self, setting: &Setting, targets: &[Target]) -> bool
        requires set { IsLawfulSetting setting.now }
        requires walk { IsWalk setting.now.game.now setting.now.state.now.state self.old }
        requires targets { All (IsFilledTarget setting.now.game.now) targets.now }
        requires board { (v p : ℕ) → IsAmong targets.now v p
            → v < length setting.now.game.now.board.first }
        ensures { IsTrue result
            → (was : IsWalk setting.now.game.now setting.now.state.now.state self.old)
            → GoesOn setting.now.game.now setting.now.state.now.state self.old was self.new
            (IsAmong targets.now) }
    {
        for target in targets {
            if !self.meet(setting, target) {
                return false;
            }
        }
        true
    }

    /// Meets a target. Returns whether the walk isn't given up.
    #[inline(always)]
    fn meet(&mut self, setting: &Setting, target: &Target) -> bool
        requires set { IsLawfulSetting setting.now }
        requires walk { IsWalk setting.now.game.now setting.now.state.now.state self.old }
        requires target { IsFilledTarget setting.now.game.now target.now }
        requires board { (v p : ℕ)
            → IsInWord target.now.position target.now.column target.now.word v p
            → v < length setting.now.game.now.board.first }
        ensures { IsTrue result
            → (was : IsWalk setting.now.game.now setting.now.state.now.state self.old)
            → GoesOn setting.now.game.now setting.now.state.now.state self.old was self.new
            (IsInWord target.now.position target.now.column target.now.word) }
    {
        let Some(opens) = opens_at(setting, target) else {
            return false;
        };
        let place = target.position as usize % PLACES;
        if shared(self.marks[place], target.word) != 0 {
            return false;
        }
        self.marks[place] |= target.word;
        self.many += 1;
        if !opens {
            return true;
        }
        if self.waiting >= MOST_WAITING {
            return false;
        }
        self.todo[self.waiting] = Pair {
            vertex: target.column * 64 + lowest(target.word),
            position: target.position,
        };
        self.waiting += 1;
        true
    }
}

/// Whether the on or the comparison at a target is to be looked at, and so passes. None where something else stands there,
/// or where there are several vertices.
#[inline(always)]
fn opens_at(setting: &Setting, target: &Target) -> Option<bool>
    requires set { IsLawfulSetting setting.now }
    requires target { IsFilledTarget setting.now.game.now target.now }
    ensures { IfSome result (λ opens.
        IsPassable setting.now.game.now setting.now.state.now.state target.now opens) }
{
    if without(target.word, lowest(target.word)) != 0 {
        return None;
    }
    match setting.paths.facts(setting.game, target.position).kind {
        Kind::On | Kind::OnEither | Kind::Comparison => {
            let opens = to_try(setting, target.position, target.column as usize);
            Some(shared(target.word, opens) != 0)
        }
        Kind::Modifier | Kind::Pattern | Kind::Plain => None,
    }
}
