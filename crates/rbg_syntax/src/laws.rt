//! A law of the parser's errors. The function's contract is the law over the definitions; its body does nothing.
ghost use Rattle.rbg_syntax.specs.Laws.{FaultLaw};

/// Sections in which a token doesn't fit, a bracket is opened too deep, one section is missing, or one occurs twice,
/// spell no description.
pub fn a_fault_spells_no_description()
    ensures { FaultLaw }
{}
