//! Laws of the definitions of rules by numbers. Each function does nothing: its contract is the law.
ghost use Rattle.rbg_game.specs.Laws.{OneNumberingLaw, NoNumbersWithFaultLaw};

/// If names differ, a rule is at most one expression by numbers.
pub fn rules_are_numbered_one_way()
    ensures { OneNumberingLaw }
{}

/// A rule with a fault has no numbers.
pub fn faults_leave_no_numbers()
    ensures { NoNumbersWithFaultLaw }
{}
