//! The answers of an automaton by position, lent as slices.
ghost use Rattle.std.specs.Prelude.{[], ◌≢◌};
ghost use Rattle.rbg_rules.specs.Meaning.{Expression, after, Ends};
ghost use Rattle.rbg_auto.specs.declared.steps.Glance.TheVariants.{Unknown};
ghost use Rattle.rbg_auto.specs.Steps.{AreNext, IsGlance};
ghost use Rattle.rbg_auto.specs.LentSteps.{HasAnswer, IsLentOf};

use crate::steps::Glance;
use rbg_base::Position;

/// What comes after a position, and what is known at once of its action. A search reads many of them, so a step is
/// small.
#[derive(Clone, Copy, Drop)]
pub(crate) struct Step {
    /// Where the list of what may come next starts among the entries.
    pub start: usize,
    /// How many positions it has.
    pub len: usize,
    /// What is known of the action: `Unknown` if words may end.
    pub glance: Glance,
}

/// What an automaton answers of its positions, lent as slices. A loop that asks for many positions keeps it as a local,
/// so that the slices need not be looked up at each step.
#[derive(Clone, Copy, Drop)]
pub struct LentSteps<'a> {
    pub(crate) steps: &'a [Step],
    pub(crate) entries: &'a [Position],
}

impl<'a> LentSteps<'a> {
    /// What is known at once of the action at a position. It is `Unknown` if words may end there, so a search that
    /// learns something need not ask for that.
    #[inline(always)]
    pub fn glance(&self, position: Position) -> Glance
        requires { HasAnswer self.now position }
        ensures told { (rules : Expression) → IsLentOf rules self.now
            → IsGlance rules position result }
        ensures quiet { (rules : Expression) → IsLentOf rules self.now →
            result ≢ Unknown → ¬ Ends rules (after position) [] }
    {
        self.steps[position as usize].glance
    }

    /// The positions that come directly after a position.
    #[inline(always)]
    pub fn next(&self, position: Position) -> &'a [Position]
        requires { HasAnswer self.now position }
        ensures { (rules : Expression) → IsLentOf rules self.now
            → AreNext rules position result.now }
    {
        let step = self.steps[position as usize];
        &self.entries[step.start..step.start + step.len]
    }
}
