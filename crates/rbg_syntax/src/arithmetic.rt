//! The readers of arithmetic. Each takes how many further brackets may be open at once, so a call is never nested
//! deeper than that.
ghost use Rattle.std.specs.Prelude.{◌≡◌, map};
ghost use Rattle.rbg_syntax.specs.internal.Giving.{Gives, GivesWithin};
ghost use Rattle.rbg_grammar.specs.Grammar.{operator_of};
ghost use Rattle.rbg_grammar.specs.Reading.{further_at, next_is, one_of_at};
ghost use Rattle.rbg_grammar.specs.RuleReading.{chain_at, factor_at, further_operand_at, is_operator, number_or_name_at, operand_at, primary_at, sum_at};
ghost use Rattle.rbg_grammar.specs.Tree.{first_of, in_chain};
ghost use Rattle.rbg_grammar.specs.Views.{expression_of, operand_of};

use crate::error::{Expectation, Reading};
use crate::parser::Parser;
use crate::sequences::only_part;
use rbg_grammar::{Expression, Operand, Operator, Rank};
use rbg_macro::{Symbol, TokenKind};
use std::alloc::Global;

impl<'a> Parser<'a> {
    /// A sum.
    #[cycle(sum)]
    #[tactic(auto, unfolding(rbg_grammar::specs::RuleReading::sum_at))]
    pub(crate) fn sum(&mut self, alloc: Global, brackets: u8) -> Reading<Expression<'a>>
        ensures { GivesWithin (λ e. (expression_of e, self.new)) result (sum_at brackets self.old) }
    {
        self.chain(alloc, Rank::Sum, brackets)
    }

    /// A sum or a product.
    #[cycle(sum)]
    fn chain(&mut self, alloc: Global, rank: Rank, brackets: u8) -> Reading<Expression<'a>>
        ensures { GivesWithin (λ e. (expression_of e, self.new)) result
            (chain_at rank (operand_at rank (primary_at brackets)) self.old) }
    {
        let first = self.operand(alloc, rank, brackets)?;
        if !self.next_is_operator(rank) {
            return Ok(first);
        }
        let operands = self.further_operands(alloc, rank, first, brackets)?;
        Ok(in_chain(operands))
    }

    /// The operands after a first one, and the first one before them.
    #[cycle(sum)]
    fn further_operands(
        &mut self,
        alloc: Global,
        rank: Rank,
        first: Expression<'a>,
        brackets: u8,
    ) -> Reading<Vec<Operand<'a>>>
        ensures { GivesWithin (λ v. (map operand_of v.items, self.new)) result
            (further_at (first_of rank, expression_of first.entry) (is_operator rank)
            (further_operand_at rank (operand_at rank (primary_at brackets))) self.old) }
    {
        let mut operands = Vec::new(alloc);
        operands.push(Operand {
            operator: first_of(rank),
            value: first,
        })?;
        while self.next_is_operator(rank) {
            operands.push(self.further_operand(alloc, rank, brackets)?)?;
        }
        Ok(operands)
    }

    /// An operator, and the operand after it.
    #[cycle(sum)]
    #[tactic(auto, unfolding(rbg_grammar::specs::RuleReading::further_operand_at))]
    fn further_operand(&mut self, alloc: Global, rank: Rank, brackets: u8) -> Reading<Operand<'a>>
        ensures { GivesWithin (λ o. (operand_of o, self.new)) result
            (further_operand_at rank (operand_at rank (primary_at brackets)) self.old) }
    {
        let operator = self.operator(rank)?;
        let value = self.operand(alloc, rank, brackets)?;
        Ok(Operand { operator, value })
    }

    /// An operand: a product in a sum, and a factor in a product.
    #[cycle(sum)]
    fn operand(&mut self, alloc: Global, rank: Rank, brackets: u8) -> Reading<Expression<'a>>
        ensures { GivesWithin (λ e. (expression_of e, self.new)) result
            (operand_at rank (primary_at brackets) self.old) }
    {
        match rank {
            Rank::Sum => self.chain(alloc, Rank::Product, brackets),
            Rank::Product => self.factor(alloc, brackets),
        }
    }

    /// A factor.
    #[cycle(sum)]
    #[tactic(auto, using(rbg_grammar::proofs::Trees::leaves), unfolding(rbg_grammar::specs::RuleReading::factor_at, rbg_grammar::specs::Reading::after_at))]
    fn factor(&mut self, alloc: Global, brackets: u8) -> Reading<Expression<'a>>
        ensures { GivesWithin (λ e.
            (expression_of e, self.new)) result (factor_at (primary_at brackets) self.old) }
    {
        if !self.next_is(Symbol::Minus) {
            return self.primary(alloc, brackets);
        }
        self.symbol(Symbol::Minus, Expectation::Factor)?;
        let value = self.primary(alloc, brackets)?;
        Ok(Expression::Negated(Box::new(alloc, value)?))
    }

    /// A number, a name, or a sum in parentheses.
    #[cycle(sum)]
    #[tactic(auto, unfolding(rbg_grammar::specs::Reading::within_at))]
    fn primary(&mut self, alloc: Global, brackets: u8) -> Reading<Expression<'a>>
        ensures { GivesWithin (λ e.
            (expression_of e, self.new)) result (primary_at brackets self.old) }
    {
        if !self.next_is(Symbol::OpenParenthesis) {
            return self.number_or_name();
        }
        if brackets == 0 {
            return Err(self.too_deep());
        }
        self.symbol(Symbol::OpenParenthesis, Expectation::Factor)?;
        let sum = self.sum(alloc, brackets - 1)?;
        self.symbol(Symbol::CloseParenthesis, Expectation::Closing)?;
        Ok(sum)
    }

    /// A number or a name.
    #[tactic(auto, using(rbg_grammar::proofs::Trees::leaves), unfolding(rbg_grammar::specs::RuleReading::number_or_name_at))]
    fn number_or_name(&mut self) -> Reading<Expression<'a>>
        ensures { GivesWithin (λ e.
            (expression_of e, self.new)) result (number_or_name_at self.old) }
    {
        if self.next_is_number() {
            let number = self.number()?;
            return Ok(Expression::Number(number));
        }
        if !self.next_is_name() {
            return Err(self.misfit(Expectation::Factor));
        }
        let name = self.name()?;
        Ok(Expression::Name(name))
    }

    /// An operator of this rank. Its callers have checked that one is next, so the misfit is never reported.
    #[tactic(auto, unfolding(rbg_grammar::specs::Reading::one_of_at))]
    fn operator(&mut self, rank: Rank) -> Reading<Operator>
        ensures { Gives (λ o. (o, self.new)) result (one_of_at (operator_of rank) self.old) }
    {
        let token = self.front(Expectation::End)?;
        match operator_of(rank, token.kind) {
            Some(operator) => {
                self.advance();
                Ok(operator)
            }
            None => Err(self.misfit(Expectation::End)),
        }
    }

    /// Whether the next token is an operator of this rank.
    fn next_is_operator(&self, rank: Rank) -> bool
        ensures { result ≡ next_is (is_operator rank) self.now }
    {
        match self.peek() {
            Some(token) => operator_of(rank, token.kind).is_some(),
            None => false,
        }
    }
}

/// The operator of this rank that a token of this kind is.
fn operator_of(rank: Rank, kind: TokenKind) -> Option<Operator>
    ensures { result ≡ operator_of rank kind }
{
    match (rank, kind) {
        (Rank::Sum, TokenKind::Symbol(Symbol::Plus)) => Some(Operator::Plus),
        (Rank::Sum, TokenKind::Symbol(Symbol::Minus)) => Some(Operator::Minus),
        (Rank::Product, TokenKind::Symbol(Symbol::Star)) => Some(Operator::Times),
        (Rank::Product, TokenKind::Symbol(Symbol::Slash)) => Some(Operator::Over),
        _ => None,
    }
}

/// The operator of a first operand.
fn first_of(rank: Rank) -> Operator
    ensures { result ≡ first_of rank }
{
    match rank {
        Rank::Sum => Operator::Plus,
        Rank::Product => Operator::Times,
    }
}

/// The operands of a sum or a product as one expression. One operand is that operand.
#[tactic(auto, using(rbg_grammar::proofs::Trees::chains))]
fn in_chain(operands: Vec<Operand<'_>>) -> Expression<'_>
    ensures { expression_of result ≡ in_chain (map operand_of operands.entry.items) }
{
    match only_part(operands) {
        Ok(operand) => operand.value,
        Err(operands) => Expression::Chain(operands),
    }
}
