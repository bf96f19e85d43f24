//! The readers of the actions with arithmetic: comparisons and assignment lists.
ghost use Rattle.std.specs.Prelude.{◌≡◌, map};
ghost use Rattle.rbg_macro.specs.declared.token.Symbol.TheVariants as symbols;
ghost use Rattle.rbg_syntax.specs.internal.Giving.{Gives, GivesWithin};
ghost use Rattle.rbg_grammar.specs.Reading.{after_at, one_of_at, separated_at, within_at};
ghost use Rattle.rbg_grammar.specs.Grammar.{relation_of};
ghost use Rattle.rbg_grammar.specs.RuleReading.{assignment_at, comparison_at, in_brackets_at, sum_at};
ghost use Rattle.rbg_grammar.specs.Views.{rule_of};

use crate::error::{Expectation, Reading};
use crate::parser::Parser;
use crate::sequences::in_sequence;
use rbg_base::Relation;
use rbg_grammar::{ParsedAction, ParsedRule};
use rbg_macro::{Symbol, TokenKind};
use std::alloc::Global;

impl<'a> Parser<'a> {
    /// A comparison.
    #[tactic(auto, using(rbg_grammar::proofs::Trees::inner_atoms), unfolding(rbg_grammar::specs::RuleReading::comparison_at, rbg_grammar::specs::Reading::after_at, rbg_grammar::specs::Reading::within_at))]
    pub(crate) fn comparison(&mut self, alloc: Global, brackets: u8) -> Reading<ParsedRule<'a>>
        ensures { GivesWithin (λ r. (rule_of r, self.new)) result
            (within_at symbols.OpenBrace symbols.CloseBrace
            (after_at symbols.Dollar (comparison_at (sum_at brackets)))
            self.old) }
    {
        self.symbol(Symbol::OpenBrace, Expectation::Item)?;
        self.symbol(Symbol::Dollar, Expectation::Name)?;
        let left = self.sum(alloc, brackets)?;
        let relation = self.relation()?;
        let right = self.sum(alloc, brackets)?;
        self.symbol(Symbol::CloseBrace, Expectation::Closing)?;
        Ok(ParsedRule::Act(ParsedAction::Compare {
            left,
            relation,
            right,
        }))
    }

    #[tactic(auto, unfolding(rbg_grammar::specs::Reading::one_of_at))]
    fn relation(&mut self) -> Reading<Relation>
        ensures { Gives (λ r. (r, self.new)) result (one_of_at relation_of self.old) }
    {
        let token = self.front(Expectation::Relation)?;
        match relation_of(token.kind) {
            Some(relation) => {
                self.advance();
                Ok(relation)
            }
            None => Err(self.misfit(Expectation::Relation)),
        }
    }

    /// An off, or an assignment list: the sequence of its assignments.
    #[tactic(auto, unfolding(rbg_grammar::specs::RuleReading::in_brackets_at, rbg_grammar::specs::RuleReading::assignments_at, rbg_grammar::specs::Reading::within_at, rbg_grammar::specs::Reading::after_at))]
    pub(crate) fn in_brackets(&mut self, alloc: Global, brackets: u8) -> Reading<ParsedRule<'a>>
        ensures { GivesWithin (λ r.
            (rule_of r, self.new)) result (in_brackets_at (sum_at brackets) self.old) }
    {
        if !self.second_is(Symbol::Dollar) {
            return self.off();
        }
        self.symbol(Symbol::OpenBracket, Expectation::Item)?;
        self.symbol(Symbol::Dollar, Expectation::Name)?;
        let parts = self.assignments(alloc, brackets)?;
        self.symbol(Symbol::CloseBracket, Expectation::Closing)?;
        Ok(in_sequence(parts))
    }

    fn assignments(&mut self, alloc: Global, brackets: u8) -> Reading<Vec<ParsedRule<'a>>>
        ensures { GivesWithin (λ v. (map rule_of v.items, self.new)) result
            (separated_at symbols.Comma (assignment_at (sum_at brackets)) self.old) }
    {
        let mut parts = Vec::new(alloc);
        loop {
            parts.push(self.assignment(alloc, brackets)?)?;
            if !self.takes(Symbol::Comma) {
                return Ok(parts);
            }
        }
    }

    /// An assignment.
    #[tactic(auto, using(rbg_grammar::proofs::Trees::inner_atoms), unfolding(rbg_grammar::specs::RuleReading::assignment_at, rbg_grammar::specs::Reading::after_at))]
    fn assignment(&mut self, alloc: Global, brackets: u8) -> Reading<ParsedRule<'a>>
        ensures { GivesWithin (λ r.
            (rule_of r, self.new)) result (assignment_at (sum_at brackets) self.old) }
    {
        let variable = self.name()?;
        self.symbol(Symbol::Equals, Expectation::Equals)?;
        let value = self.sum(alloc, brackets)?;
        Ok(ParsedRule::Act(ParsedAction::Assign { variable, value }))
    }
}

/// The relation that a token of this kind is.
fn relation_of(kind: TokenKind) -> Option<Relation>
    ensures { result ≡ relation_of kind }
{
    match kind {
        TokenKind::Symbol(Symbol::DoubleEquals) => Some(Relation::Equal),
        TokenKind::Symbol(Symbol::NotEquals) => Some(Relation::NotEqual),
        TokenKind::Symbol(Symbol::LessThan) => Some(Relation::Less),
        TokenKind::Symbol(Symbol::LessOrEqual) => Some(Relation::LessOrEqual),
        TokenKind::Symbol(Symbol::GreaterThan) => Some(Relation::Greater),
        TokenKind::Symbol(Symbol::GreaterOrEqual) => Some(Relation::GreaterOrEqual),
        _ => None,
    }
}
