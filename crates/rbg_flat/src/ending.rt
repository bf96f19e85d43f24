//! Dead ends: patterns in which no modifier and no pattern comes next, as is seen at once or by a walk. A dead end may be
//! valid, since a word may end with shifts, ons and comparisons alone.
ghost use Rattle.std.specs.Prelude.{ℕ, ◌<◌, length, All, IfSome, IsTrue};
ghost use Rattle.rbg_rules.specs.Meaning.{IsGame, IsStart, inside, IsStateOf, beginning};
ghost use Rattle.rbg_flat.specs.Chains.{at_vertex};
ghost use Rattle.rbg_flat.specs.Ending.{IsDeadEnd};
ghost use Rattle.rbg_flat.specs.Paths.{ArePathsOf};
ghost use Rattle.rbg_flat.specs.internal.Ending.{AreDead, IsDeadTarget, IsFilledTarget};
ghost use Rattle.rbg_flat.specs.internal.Setting.{IsLawfulSetting};

use crate::gathering::is_modifier;
use crate::passing::to_try;
use crate::paths::Paths;
use crate::setting::Setting;
use crate::walk::walked_end;
use crate::words::{lowest, shared, without};
use rbg_auto::Expr;
use rbg_base::{Position, Vertex};
use rbg_rules::Game;
use rbg_shifts::{Origin, Target};
use rbg_state::SemiState;

/// What is told of the inside of a pattern at a vertex where no modifier and no pattern comes next.
#[derive(Clone, Copy, Drop)]
pub struct DeadEnd {
    /// How many candidates there are.
    pub many: usize,
    /// Whether a word may end.
    pub ends: bool,
}

impl Paths {
    /// How many candidates the inside of a pattern has at a vertex, and whether a word may end, where ons and comparisons
    /// alone come next. This needs no sets. It is looked for only where the first leaps lead to one vertex at each position:
    /// mostly they lead nowhere, or to what doesn't hold, and else a walk may tell. Where neither does, it is None.
    #[inline(always)]
    pub fn dead_end(
        &self,
        game: &Game,
        state: &SemiState,
        pattern: Position,
        vertex: Vertex,
    ) -> Option<DeadEnd>
        requires lawful { IsGame game.now }
        requires paths { ArePathsOf game.now self.now }
        requires fits { IsStateOf game.now state.now.state }
        requires vertex { vertex < length game.now.board.first }
        requires stands { IsStart game.now.rules (beginning (inside pattern)) }
        ensures { IfSome result (λ dead. IsDeadEnd game.now (at_vertex state.now.state vertex)
            (beginning (inside pattern)) dead.many dead.ends) }
    {
        if !self.is_narrow(pattern) {
            return None;
        }
        let origin = Origin::Begin(Expr::Inside(pattern));
        let Some(leaps) = self.leaps() else {
            return None;
        };
        let (targets, ends) = leaps.leads(origin, vertex);
        let setting = Setting {
            game,
            paths: self,
            state,
        };
        if are_dead(&setting, targets) {
            let many = targets.len();
            Some(DeadEnd { many, ends })
        } else if !self.is_plain(pattern) {
            None
        } else {
            walked_end(game, self, state, pattern, vertex)
        }
    }
}

/// Whether nothing goes on from the targets, each of which has one vertex and a greater position than the one before it.
#[inline(always)]
fn are_dead(setting: &Setting, targets: &[Target]) -> bool
    requires set { IsLawfulSetting setting.now }
    requires targets { All (IsFilledTarget setting.now.game.now) targets.now }
    ensures { IsTrue result → (last : ℕ)
        × AreDead setting.now.game.now setting.now.state.now.state targets.now last }
{
    let mut before = 0;
    for target in targets {
        if target.position <= before || !is_dead(setting, target) {
            return false;
        }
        before = target.position;
    }
    true
}

/// Whether a target has one vertex, and nothing goes on there.
#[inline(always)]
fn is_dead(setting: &Setting, target: &Target) -> bool
    requires set { IsLawfulSetting setting.now }
    requires target { IsFilledTarget setting.now.game.now target.now }
    ensures { IsTrue result
        → IsDeadTarget setting.now.game.now setting.now.state.now.state target.now }
{
    let rest = without(target.word, lowest(target.word));
    if rest != 0 || is_modifier(setting.game, setting.paths, target.position) {
        return false;
    }
    let opens = to_try(setting, target.position, target.column as usize);
    shared(target.word, opens) == 0
}
