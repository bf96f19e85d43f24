//! Laws of the steps of the rules. Each function does nothing: its contract is the law.
ghost use Rattle.rbg_auto.specs.Laws.{NeighbourLaw, ChainLaw};

/// A non-empty list is a word exactly if its first position begins words, each position comes directly after the one
/// before, and words may end at its last.
pub fn neighbours_make_words()
    ensures { NeighbourLaw }
{}

/// A list follows from a place exactly if its first position follows there and each further one comes directly after
/// the one before.
pub fn neighbours_make_lists()
    ensures { ChainLaw }
{}
