//! Lists of parts as one phrase: one part alone is that part.
ghost use Rattle.std.specs.Prelude.{◌≡◌, [], ◌∷◌, IfErr, IfOk, map, vec_len};
ghost use Rattle.rbg_grammar.specs.Reading.{in_sequence};
ghost use Rattle.rbg_grammar.specs.Views.{rule_of};

use rbg_grammar::ParsedRule;

/// The only part, or all parts as an error if there isn't exactly one.
pub(crate) fn only_part<T: Drop>(mut parts: Vec<T>) -> Result<T, Vec<T>>
    ensures one { IfOk result (λ part. parts.items ≡ part ∷ []) }
    ensures several { IfErr result (λ all. vec_len all ≡ 1 → ⊥) }
    ensures all { IfErr result (λ all. all ≡ parts) }
{
    if parts.len() != 1 {
        return Err(parts);
    }
    match parts.pop() {
        Some(part) => Ok(part),
        None => unreachable!(),
    }
}

/// The parts of a sequence as one rule. One part is that part.
#[tactic(auto, using(rbg_grammar::proofs::Trees::sequences))]
pub(crate) fn in_sequence(parts: Vec<ParsedRule<'_>>) -> ParsedRule<'_>
    ensures { rule_of result ≡ in_sequence (map rule_of parts.entry.items) }
{
    match only_part(parts) {
        Ok(part) => part,
        Err(parts) => ParsedRule::Then(parts),
    }
}
