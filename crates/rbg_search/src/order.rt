//! The order in which modifiers are tried.
ghost use Rattle.std.specs.List.Sorted.{IsPermutation};
ghost use Rattle.std.specs.Prelude.{◌≢◌, AllPairs};
ghost use Rattle.rbg_search.specs.Flat.{IsBefore};

use rbg_base::Pair;

/// Puts pairs in order: by vertex, then by position.
#[inline(always)]
pub(crate) fn sort(pairs: &mut Vec<Pair>)
    requires { AllPairs (λ a b. a ≢ b) pairs.old.items }
    ensures permutation { IsPermutation pairs.old.items pairs.new.items }
    ensures order { AllPairs IsBefore pairs.new.items }
{
    if pairs.len() > 1 {
        pairs.sort_unstable();
    }
}
