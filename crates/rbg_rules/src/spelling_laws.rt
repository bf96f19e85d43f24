//! The law that moves can be sent. The contract of the function is the law; its body does nothing.
ghost use Rattle.rbg_rules.specs.SpellingLaws.{LegalMovesAreSpelled};

/// A legal move that is no longer than a move may be has a spelling.
pub fn legal_moves_are_spelled()
    ensures { LegalMovesAreSpelled }
{}
