//! Laws of what sections spell. Each function's contract is a law over the definitions; its body does nothing.
ghost use Rattle.rbg_grammar.specs.Laws.{OneDescriptionLaw, OnePlaceLaw, OneTooDeepLaw, WholeLaw};

/// Sections spell at most one description.
pub fn sections_spell_one_description()
    ensures { OneDescriptionLaw }
{}

/// What sections spell has a player and a piece, and no part that should have two parts has fewer.
pub fn spelt_descriptions_are_whole()
    ensures { WholeLaw }
{}

/// The tokens of a section stop fitting at most at one place: the first token that doesn't fit, or the section's `#` if
/// all of them fit.
pub fn sections_stop_fitting_at_one_place()
    ensures { OnePlaceLaw }
{}

/// At most one bracket of the rules is too deep.
pub fn one_bracket_is_too_deep()
    ensures { OneTooDeepLaw }
{}
