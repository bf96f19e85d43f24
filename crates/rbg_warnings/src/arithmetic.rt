//! The names in arithmetic.
ghost use Rattle.std.specs.Prelude.{◌≡◌};
ghost use Rattle.rbg_rules.specs.Meaning.{arithmetic_of};
ghost use Rattle.rbg_warnings.specs.Warnings.{names_variable as names};
ghost use Rattle.rbg_warnings.specs.internal.Walking.{number_in, operands_name};

use rbg_base::Variable;
use rbg_rules::{Arithmetic, Operation};

/// Whether arithmetic names a variable.
#[cycle(naming)]
#[tactic(auto, using(rbg_rules::proofs::Bridge::translation))]
pub(crate) fn names_variable(arithmetic: &Arithmetic, variable: Variable) -> bool
    ensures { result ≡ names variable (arithmetic_of arithmetic.now) }
{
    match arithmetic {
        Arithmetic::Number(_) => false,
        Arithmetic::Variable(named) => *named == variable,
        Arithmetic::PieceCount(_) => false,
        Arithmetic::Negated(inner) => names_variable(inner, variable),
        Arithmetic::Chain { first, rest } => {
            names_variable(first, variable) || some_operand_names(rest, variable)
        }
    }
}

/// Whether an operand names a variable.
#[cycle(naming)]
fn some_operand_names(operations: &[Operation], variable: Variable) -> bool
    ensures { result ≡ operands_name variable operations.now }
{
    for operation in operations {
        if names_variable(&operation.operand, variable) {
            return true;
        }
    }
    false
}

/// The number of arithmetic that is a number alone.
#[tactic(auto, using(rbg_rules::proofs::Bridge::translation))]
pub(crate) fn number_of(arithmetic: &Arithmetic) -> Option<u64>
    ensures { result ≡ number_in (arithmetic_of arithmetic.now) }
{
    match arithmetic {
        Arithmetic::Number(number) => Some(*number),
        Arithmetic::Variable(_) => None,
        Arithmetic::PieceCount(_) => None,
        Arithmetic::Negated(_) => None,
        Arithmetic::Chain { first, rest } => {
            if rest.as_slice().is_empty() {
                number_of(first)
            } else {
                None
            }
        }
    }
}
