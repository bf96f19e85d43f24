//! Laws of tokens and their expansion. Each function does nothing: its contract is the law.
ghost use Rattle.rbg_macro.specs.Laws.{LimitsLaw, OneExpansionLaw, OneListLaw, OneMacroErrorLaw, SectionsOrFaultLaw};
ghost use Rattle.rbg_macro.specs.Laws.{SpeltTokensLaw};

/// A list expands to at most one list, and the number of tokens read is the same each time.
pub fn lists_expand_one_way()
    ensures { OneListLaw }
{}

/// Tokens expand to at most one list of sections.
pub fn tokens_expand_one_way()
    ensures { OneExpansionLaw }
{}

/// Tokens with sections are refused only because memory runs out.
pub fn tokens_with_sections_have_no_fault()
    ensures { SectionsOrFaultLaw }
{}

/// Tokens have at most one error other than out of memory.
pub fn tokens_have_one_error()
    ensures { OneMacroErrorLaw }
{}

/// Every token of a text's sections spells a token of its kind. In particular, the text of a name token is a name.
pub fn tokens_of_sections_are_spelt()
    ensures { SpeltTokensLaw }
{}

/// The limits of the code are those of the definitions.
pub fn limits_are_as_defined()
    ensures { LimitsLaw }
{}
