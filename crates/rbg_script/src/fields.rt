//! The fields of a line: a word, numbers, and the spaces between them.
ghost use Rattle.std.specs.Prelude.{ℕ, List, IfSome, IfNone};
ghost use Rattle.rbg_script.specs.Events.{HasFields};

use rbg_wire::{after_text, cut_number};

/// The seat, the moment and the rest of a line.
#[derive(Clone, Copy)]
pub(crate) struct Fields<'a> {
    pub seat: u64,
    pub at: u64,
    pub rest: &'a [u8],
}

/// The seat, the moment and the rest of a line that begins with a word.
pub(crate) fn fields_in<'a>(word: &[u8], line: &'a [u8]) -> Option<Fields<'a>>
    ensures found { IfSome result (λ fields.
        HasFields line.now word.now fields.seat fields.at fields.rest.now) }
    ensures none { IfNone result ((seat at : ℕ) (rest : List ℕ)
        → HasFields line.now word.now seat at rest
        → ⊥) }
{
    let fields = after_text(word, line)?;
    let (seat, after) = cut_number(fields)?;
    let (at, rest) = cut_number(after)?;
    Some(Fields { seat, at, rest })
}
