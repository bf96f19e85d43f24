//! Laws of what is passed on. The contract of each function is a law; its body does nothing.
ghost use Rattle.rbg_network.specs.Laws.{OthersChangeNothing};

/// What is passed on completes the same messages as all that came. So the bytes that aren't passed on change nothing.
pub fn others_change_nothing()
    ensures { OthersChangeNothing }
{}
