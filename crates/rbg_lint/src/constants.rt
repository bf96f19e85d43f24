//! Constant arithmetic.

use rbg_base::{Operator, Relation, Variable};
use rbg_rules::{Arithmetic, Operation};

/// What is known of the value of arithmetic.
#[derive(Clone, Copy)]
pub(crate) enum Constant {
    /// It depends on variables or pieces.
    Unknown,
    /// It is this one in every state.
    Value(i64),
    /// There is none in any state.
    NoValue,
}

/// What is known of the value of arithmetic.
#[cycle(constant)]
pub(crate) fn constant_of(arithmetic: &Arithmetic) -> Constant {
    match arithmetic {
        Arithmetic::Number(number) => known(i64::try_from(*number).ok()),
        Arithmetic::Variable(_) | Arithmetic::PieceCount(_) => Constant::Unknown,
        Arithmetic::Negated(inside) => apply(
            Operator::Minus,
            Constant::Value(0),
            constant_of(inside),
        ),
        Arithmetic::Chain { first, rest } => chain_of(constant_of(first), rest),
    }
}

/// What is known of the value of a chain whose first operand has this one.
#[cycle(constant)]
fn chain_of(first: Constant, rest: &[Operation]) -> Constant {
    let mut value = first;
    for operation in rest {
        value = apply(operation.operator, value, constant_of(&operation.operand));
    }
    value
}

fn known(value: Option<i64>) -> Constant {
    match value {
        Some(value) => Constant::Value(value),
        None => Constant::NoValue,
    }
}

/// What is known of the value of an operation.
fn apply(operator: Operator, left: Constant, right: Constant) -> Constant {
    match (left, right) {
        (Constant::NoValue, _) | (_, Constant::NoValue) => Constant::NoValue,
        (Constant::Value(left), Constant::Value(right)) => known(compute(operator, left, right)),
        (Constant::Unknown, Constant::Value(0)) if operator == Operator::Over => {
            Constant::NoValue
        }
        _ => Constant::Unknown,
    }
}

fn compute(operator: Operator, left: i64, right: i64) -> Option<i64> {
    match operator {
        Operator::Plus => left.checked_add(right),
        Operator::Minus => left.checked_sub(right),
        Operator::Times => left.checked_mul(right),
        Operator::Over => left.checked_div(right),
    }
}

/// A comparison of a variable with a constant value.
#[derive(Clone, Copy)]
pub(crate) struct Compared {
    pub variable: Variable,
    pub relation: Relation,
    pub value: i64,
}

/// A comparison as one of a variable with a constant value, if it is one, on either side.
pub(crate) fn comparison_of(
    left: &Arithmetic,
    relation: Relation,
    right: &Arithmetic,
) -> Option<Compared> {
    match (variable_of(left), variable_of(right)) {
        (Some(variable), None) => compared_with(variable, relation, right),
        (None, Some(variable)) => compared_with(variable, turned(relation), left),
        _ => None,
    }
}

fn compared_with(variable: Variable, relation: Relation, other: &Arithmetic) -> Option<Compared> {
    match constant_of(other) {
        Constant::Value(value) => Some(Compared {
            variable,
            relation,
            value,
        }),
        Constant::Unknown | Constant::NoValue => None,
    }
}

/// The variable that arithmetic is.
fn variable_of(arithmetic: &Arithmetic) -> Option<Variable> {
    match arithmetic {
        Arithmetic::Variable(variable) => Some(*variable),
        Arithmetic::Chain { first, rest } if rest.is_empty() => variable_of(first),
        _ => None,
    }
}

/// The relation that holds for the sides exchanged.
fn turned(relation: Relation) -> Relation {
    match relation {
        Relation::Equal => Relation::Equal,
        Relation::NotEqual => Relation::NotEqual,
        Relation::Less => Relation::Greater,
        Relation::LessOrEqual => Relation::GreaterOrEqual,
        Relation::Greater => Relation::Less,
        Relation::GreaterOrEqual => Relation::LessOrEqual,
    }
}
