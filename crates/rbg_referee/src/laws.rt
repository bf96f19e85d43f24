//! Laws of a match that is refereed. The contract of each function is a law; its body does nothing.
ghost use Rattle.rbg_referee.specs.Laws.{OneOutbox};

/// Apart from the keeper's moves and from questions above the limits, the bytes of a match's seats are a function of its
/// text, its config and its events.
pub fn one_outbox()
    ensures { OneOutbox }
{}
