//! The marks of which the key of rules is made.
ghost use Rattle.std.specs.Prelude.{◌≡◌, ◌++◌, ◌∷◌, [], OnOk};

use rbg_base::{Direction, Memory, Piece, Player, Position, Relation, Variable};

/// A mark of a key. The marks of arithmetic and of rules come after the marks of their parts.
#[derive(Clone, Copy, PartialEq, Eq)]
pub enum KeyMark {
    Number(u64),
    Variable(Variable),
    PieceCount(Piece),
    Negated,
    Sum,
    Difference,
    Product,
    Quotient,
    Shift(Direction),
    On,
    OnPiece(Piece),
    Off(Piece),
    Assign(Variable),
    Compare(Relation),
    Switch(Player),
    Positive,
    Negative,
    Act(Position),
    Skip,
    Then,
    Fail,
    Or,
    Star,
}

/// Appends a mark.
pub(crate) fn put(mark: KeyMark, key: &mut Vec<KeyMark>) -> Result<(), Memory>
    ensures { OnOk result (key.new.items ≡ key.old.items ++ mark ∷ []) }
{
    key.push(mark)?;
    Ok(())
}
