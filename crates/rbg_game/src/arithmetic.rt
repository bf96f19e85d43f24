//! Arithmetic by numbers: a name is that of a variable or of a piece, and a sum or a product is a chain from the left.
ghost use Rattle.std.specs.Prelude.{◌≡◌, ◌<◌, IfOk, IfErr, All, map, length, true, Some};
ghost use Rattle.rbg_grammar.specs.Formed.{is_formed_expression};
ghost use Rattle.rbg_grammar.specs.Tree.{SpeltExpression, no_operands, operands_after, chain};
ghost use Rattle.rbg_grammar.specs.Views.{name_of, number_of, expression_of, operand_of};
ghost use Rattle.rbg_rules.specs.Meaning.{arithmetic_of};
ghost use Rattle.rbg_game.specs.Rules.{ArithmeticIs, ChainIs};
ghost use Rattle.rbg_game.specs.NameNumbers.{Names};
ghost use Rattle.rbg_game.specs.RuleFaults.{HasArithmeticFault};
ghost use Rattle.rbg_game.specs.Numbered.{names_of, IsWithinLimits};
ghost use Rattle.rbg_game.specs.internal.Arithmetic.{Combines};

use crate::game_error::GameError;
use crate::tables::NameTables;
use rbg_grammar::{Expression, Name, Number, Operand};
use rbg_rules::{Arithmetic, Operation};
use std::alloc::Global;

/// An expression by numbers.
#[cycle(arithmetic)]
pub(crate) fn number_expression(
    alloc: Global,
    names: &NameTables<'_>,
    expression: &Expression<'_>,
) -> Result<Arithmetic, GameError>
    requires formed { is_formed_expression (expression_of expression.now) ≡ true }
    requires limits { IsWithinLimits (names_of names.now) }
    ensures value { IfOk result (λ a.
        ArithmeticIs (names_of names.now) (expression_of expression.now) (arithmetic_of a)) }
    ensures fault { IfErr result (HasArithmeticFault (names_of names.now)
        (expression_of expression.now)) }
{
    match expression {
        Expression::Number(number) => number_number(*number),
        Expression::Name(name) => number_name(names, name),
        Expression::Negated(operand) => {
            let operand = number_expression(alloc, names, operand)?;
            Ok(Arithmetic::Negated(Box::new(alloc, operand)?))
        }
        Expression::Chain(operands) => number_operands(alloc, names, operands),
    }
}

/// The operands of a sum or a product, as a chain.
#[cycle(arithmetic)]
fn number_operands(
    alloc: Global,
    names: &NameTables<'_>,
    operands: &[Operand<'_>],
) -> Result<Arithmetic, GameError>
    requires some { 0 < length operands.now }
    requires formed { All (λ o. is_formed_expression (expression_of o.value) ≡ true) operands.now }
    requires limits { IsWithinLimits (names_of names.now) }
    ensures value { IfOk result
        (λ a. ChainIs (names_of names.now) (operands_after no_operands (map operand_of operands.now))
        (arithmetic_of a)) }
    ensures fault { IfErr result (HasArithmeticFault (names_of names.now)
        (chain (operands_after no_operands (map operand_of operands.now)))) }
{
    let first = number_expression(alloc, names, &operands[0].value)?;
    let mut rest = Vec::with_capacity(alloc, operands.len() - 1)?;
    for operand in &operands[1..] {
        rest.push(number_operand(alloc, names, operand)?)?;
    }
    Ok(Arithmetic::Chain {
        first: Box::new(alloc, first)?,
        rest,
    })
}

/// What an operand does with the value of the operands before it.
#[cycle(arithmetic)]
fn number_operand(
    alloc: Global,
    names: &NameTables<'_>,
    operand: &Operand<'_>,
) -> Result<Operation, GameError>
    requires formed { is_formed_expression (expression_of operand.now.value) ≡ true }
    requires limits { IsWithinLimits (names_of names.now) }
    ensures value { IfOk result (Combines (names_of names.now) (operand_of operand.now)) }
    ensures fault { IfErr result (HasArithmeticFault (names_of names.now)
        (expression_of operand.now.value)) }
{
    Ok(Operation {
        operator: operand.operator,
        operand: number_expression(alloc, names, &operand.value)?,
    })
}

/// The number that is spelt, if it fits signed 64 bits.
fn number_number(number: Number) -> Result<Arithmetic, GameError>
    ensures value { (names : Names)
        → IfOk result (λ a.
        ArithmeticIs names (SpeltExpression.number (number_of number)) (arithmetic_of a)) }
    ensures fault { (names : Names)
        → IfErr result (HasArithmeticFault names (SpeltExpression.number (number_of number))) }
{
    match number.value {
        Some(value) if value <= i64::MAX as u64 => Ok(Arithmetic::Number(value)),
        _ => Err(GameError::Bound { at: number.at }),
    }
}

/// The variable with a name, or else the piece with it.
fn number_name(names: &NameTables<'_>, name: &Name<'_>) -> Result<Arithmetic, GameError>
    requires { IsWithinLimits (names_of names.now) }
    ensures value { IfOk result (λ a.
        ArithmeticIs (names_of names.now) (SpeltExpression.name (name_of name.now))
        (arithmetic_of a)) }
    ensures fault { IfErr result (HasArithmeticFault (names_of names.now)
        (SpeltExpression.name (name_of name.now))) }
{
    if let Some(variable) = names.variables.number_of(name.text) {
        return Ok(Arithmetic::Variable(variable as u16));
    }
    Ok(Arithmetic::PieceCount(names.pieces.find(name)?))
}
