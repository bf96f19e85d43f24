//! Laws of what is written of a match. The contract of each function is a law; its body does nothing.
ghost use Rattle.rbg_serving.specs.Laws.{WrittenIsEnough};

/// The events that are written lead a match to where all events do.
pub fn written_is_enough()
    ensures { WrittenIsEnough }
{}
