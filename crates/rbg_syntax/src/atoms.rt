//! The readers of the actions that need no arithmetic and hold no rules.
ghost use Rattle.rbg_syntax.specs.internal.Giving.{Gives};
ghost use Rattle.rbg_grammar.specs.Reading.{off_at, on_at, open_atom_at};
ghost use Rattle.rbg_grammar.specs.Views.{rule_of};

use crate::error::{Expectation, Reading};
use crate::parser::Parser;
use rbg_grammar::{ParsedAction, ParsedRule};
use rbg_macro::Symbol;
use std::alloc::Global;

impl<'a> Parser<'a> {
    /// A shift or a switch.
    #[tactic(auto, using(rbg_grammar::proofs::Trees::atoms), unfolding(rbg_grammar::specs::Reading::open_atom_at))]
    pub(crate) fn open_atom(&mut self) -> Reading<ParsedRule<'a>>
        ensures { Gives (λ r. (rule_of r, self.new)) result (open_atom_at self.old) }
    {
        if self.next_is_name() {
            let direction = self.name()?;
            return Ok(ParsedRule::Act(ParsedAction::Shift(direction)));
        }
        if self.next_is(Symbol::Arrow) {
            let at = self.symbol(Symbol::Arrow, Expectation::Item)?;
            let player = Some(self.name()?);
            return Ok(ParsedRule::Act(ParsedAction::Switch { at, player }));
        }
        let at = self.symbol(Symbol::DoubleArrow, Expectation::Item)?;
        Ok(ParsedRule::Act(ParsedAction::Switch { at, player: None }))
    }

    /// An on.
    #[tactic(auto, using(rbg_grammar::proofs::Trees::atoms, rbg_grammar::proofs::PhraseLaws::name_takes_some), unfolding(rbg_grammar::specs::Reading::on_at, rbg_grammar::specs::Reading::within_at))]
    pub(crate) fn on(&mut self, alloc: Global) -> Reading<ParsedRule<'a>>
        ensures { Gives (λ r. (rule_of r, self.new)) result (on_at self.old) }
    {
        self.symbol(Symbol::OpenBrace, Expectation::Opening)?;
        let pieces = self.listed(alloc)?;
        let what = if pieces.is_empty() {
            Expectation::Name
        } else {
            Expectation::Closing
        };
        self.symbol(Symbol::CloseBrace, what)?;
        Ok(ParsedRule::Act(ParsedAction::On(pieces)))
    }

    /// An off.
    #[tactic(auto, using(rbg_grammar::proofs::Trees::atoms), unfolding(rbg_grammar::specs::Reading::off_at, rbg_grammar::specs::Reading::within_at))]
    pub(crate) fn off(&mut self) -> Reading<ParsedRule<'a>>
        ensures { Gives (λ r. (rule_of r, self.new)) result (off_at self.old) }
    {
        self.symbol(Symbol::OpenBracket, Expectation::Opening)?;
        let piece = self.name()?;
        self.symbol(Symbol::CloseBracket, Expectation::Closing)?;
        Ok(ParsedRule::Act(ParsedAction::Off(piece)))
    }
}
