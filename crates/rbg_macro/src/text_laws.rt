//! Laws of texts and their tokens. Each function does nothing: its contract is the law.
ghost use Rattle.rbg_macro.specs.TextLaws.{LimitLaw, NoZeroByteLaw, OneReadingLaw, OneTextErrorLaw, TokensOrFaultLaw};

/// A text with tokens has no zero byte.
pub fn texts_have_no_zero_byte()
    ensures { NoZeroByteLaw }
{}

/// A text has at most one list of tokens.
pub fn texts_have_one_reading()
    ensures { OneReadingLaw }
{}

/// A text with tokens is refused only because memory runs out.
pub fn texts_with_tokens_have_no_fault()
    ensures { TokensOrFaultLaw }
{}

/// A text has at most one error other than out of memory.
pub fn texts_have_one_error()
    ensures { OneTextErrorLaw }
{}

/// The limit of the code is that of the definitions.
pub fn limit_is_as_defined()
    ensures { LimitLaw }
{}
