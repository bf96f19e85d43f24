//! Tests of searches: small random games, whose questions are also answered by trying all words of their rules, and
//! what questions take up of a budget.
#![tactic(auto)]

#[cfg(test)]
mod tests;
