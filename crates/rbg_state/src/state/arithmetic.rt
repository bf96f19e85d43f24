//! The arithmetic of a game: whole numbers of 64 bits with a sign, and no value if one does not fit.
ghost use Rattle.std.specs.Prelude.{◌≡◌, Some, length, All, IfSome};
ghost use Rattle.rbg_rules.specs.Meaning.{value_of, arithmetic_of};
ghost use Rattle.rbg_state.specs.Reads.{ReadsBelow};
ghost use Rattle.rbg_state.specs.Evaluation.{result_of, value_after};

use super::SemiState;
use rbg_rules::{Arithmetic, Operation, Operator};

impl SemiState {
    /// The value of an expression. Returns None if a part of it does not fit 64 bits or a divisor is 0.
    #[cycle(evaluate)]
    #[tactic(auto, using(rbg_rules::proofs::Bridge::translation, crate::proofs::Fits::by_conversion))]
    pub(super) fn evaluate(&self, expression: &Arithmetic) -> Option<i64>
        requires { ReadsBelow (length self.now.state.values) (arithmetic_of expression.now) }
        ensures { result ≡ value_of (arithmetic_of expression.now) self.now.state }
    {
        match expression {
            Arithmetic::Number(number) => i64::try_from(*number).ok(),
            Arithmetic::Variable(variable) => Some(i64::from(self.value(*variable))),
            Arithmetic::PieceCount(piece) => i64::try_from(self.count(*piece)).ok(),
            Arithmetic::Negated(operand) => operate(Operator::Minus, 0, self.evaluate(operand)?),
            Arithmetic::Chain { first, rest } => self.continued(self.evaluated(first)?, rest),
        }
    }

    /// As `evaluate`. A number or a variable alone, as most operands are, needs no call.
    #[cycle(evaluate)]
    #[inline(always)]
    pub(super) fn evaluated(&self, expression: &Arithmetic) -> Option<i64>
        requires { ReadsBelow (length self.now.state.values) (arithmetic_of expression.now) }
        ensures { result ≡ value_of (arithmetic_of expression.now) self.now.state }
    {
        match self.plain_value(expression) {
            Some(value) => Some(value),
            None => self.evaluate(expression),
        }
    }

    /// As `evaluated`. One operation on numbers or variables alone, as `most + 1`, needs no call either.
    #[inline(always)]
    pub(super) fn joined(&self, expression: &Arithmetic) -> Option<i64>
        requires { ReadsBelow (length self.now.state.values) (arithmetic_of expression.now) }
        ensures { result ≡ value_of (arithmetic_of expression.now) self.now.state }
    {
        match self.plain_chain(expression) {
            Some(value) => Some(value),
            None => self.evaluated(expression),
        }
    }

    /// The value of an expression of one operation on numbers or variables. Returns None for any other expression, and
    /// if there is no value.
    #[inline(always)]
    fn plain_chain(&self, expression: &Arithmetic) -> Option<i64>
        requires { ReadsBelow (length self.now.state.values) (arithmetic_of expression.now) }
        ensures { IfSome result (λ value.
            value_of (arithmetic_of expression.now) self.now.state ≡ Some value) }
    {
        match expression {
            Arithmetic::Chain { first, rest } => self.plain_step(self.plain_value(first)?, rest),
            _ => None,
        }
    }

    /// What one operation makes of a value, if its operand is a number or a variable. Returns None for any other
    /// operations, and if there is no value.
    #[inline(always)]
    fn plain_step(&self, first: i64, operations: &[Operation]) -> Option<i64>
        requires { All (λ o.
            ReadsBelow (length self.now.state.values) (arithmetic_of o.operand)) operations.now }
        ensures { IfSome result (λ value.
            value_after self.now.state (Some first) operations.now ≡ Some value) }
    {
        match operations {
            [operation] => {
                let operand = self.plain_value(&operation.operand)?;
                operate(operation.operator, first, operand)
            }
            _ => None,
        }
    }

    /// The value of a number or a variable. Returns None for any other expression.
    #[inline(always)]
    #[tactic(auto, using(rbg_rules::proofs::Bridge::translation, crate::proofs::Fits::by_conversion))]
    fn plain_value(&self, expression: &Arithmetic) -> Option<i64>
        requires { ReadsBelow (length self.now.state.values) (arithmetic_of expression.now) }
        ensures { IfSome result (λ value.
            value_of (arithmetic_of expression.now) self.now.state ≡ Some value) }
    {
        match expression {
            Arithmetic::Number(number) => i64::try_from(*number).ok(),
            Arithmetic::Variable(variable) => Some(i64::from(self.value(*variable))),
            _ => None,
        }
    }

    /// What operations make of a value, from the left.
    #[cycle(evaluate)]
    fn continued(&self, first: i64, operations: &[Operation]) -> Option<i64>
        requires { All (λ o.
            ReadsBelow (length self.now.state.values) (arithmetic_of o.operand)) operations.now }
        ensures { result ≡ value_after self.now.state (Some first) operations.now }
    {
        let mut value = first;
        for operation in operations {
            let operand = self.evaluated(&operation.operand)?;
            value = operate(operation.operator, value, operand)?;
        }
        Some(value)
    }
}

/// The result of one operation. Division drops the fraction, toward zero.
#[tactic(auto, using(crate::proofs::Fits::by_fits, crate::proofs::Fits::by_can_divide))]
fn operate(operator: Operator, x: i64, y: i64) -> Option<i64>
    ensures { result ≡ result_of operator x y }
{
    match operator {
        Operator::Plus => x.checked_add(y),
        Operator::Minus => x.checked_sub(y),
        Operator::Times => x.checked_mul(y),
        Operator::Over => x.checked_div(y),
    }
}
