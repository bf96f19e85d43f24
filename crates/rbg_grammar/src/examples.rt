//! Examples of the grammar. Each function's contract is an example; its body does nothing.
ghost use Rattle.rbg_grammar.specs.Examples.{DeepestBrackets, MisspeltAlone, NegatedFactor, StarredAssignments, SumInParentheses, TooDeepAlone, TooManyBrackets, TwoMinuses, TwoStars};

/// `(a+b)*c` is a product whose first factor is a sum.
pub fn a_sum_in_parentheses_is_a_factor()
    ensures { SumInParentheses }
{}

/// `-a*b` is a product whose first factor is negated.
pub fn a_minus_binds_to_its_factor()
    ensures { NegatedFactor }
{}

/// `[$ a = b, c = d]*` is the star of the sequence of its assignments.
pub fn a_star_binds_to_the_whole_assignment_list()
    ensures { StarredAssignments }
{}

/// 128 brackets may be open at once.
pub fn brackets_nest_128_deep()
    ensures { DeepestBrackets }
{}

/// 129 brackets may not.
pub fn brackets_do_not_nest_129_deep()
    ensures { TooManyBrackets }
{}

/// `a**` is no rule.
pub fn two_stars_are_no_rule()
    ensures { TwoStars }
{}

/// `--a` is no sum.
pub fn two_minuses_are_no_sum()
    ensures { TwoMinuses }
{}

/// 129 pairs of brackets are too deep and nothing else.
pub fn a_shift_in_129_brackets_is_too_deep()
    ensures { TooDeepAlone }
{}

/// A closing bracket before 129 opening ones is misspelt and nothing else.
pub fn a_closing_bracket_before_129_opening_ones_is_misspelt()
    ensures { MisspeltAlone }
{}
