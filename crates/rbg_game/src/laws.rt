//! Laws of descriptions and texts. Each function does nothing: its contract is the law.
ghost use Rattle.rbg_game.specs.OneGame.{OneGameOfDescriptionLaw, OneGameLaw, NoGameWithFaultLaw};

/// A description is at most one game.
pub fn descriptions_are_one_game()
    ensures { OneGameOfDescriptionLaw }
{}

/// A text is at most one game.
pub fn texts_are_one_game()
    ensures { OneGameLaw }
{}

/// A description with a fault is no game.
pub fn faults_leave_no_game()
    ensures { NoGameWithFaultLaw }
{}
