//! The readers of rules. Each takes how many further brackets may be open at once, so a call is never nested deeper
//! than that.
ghost use Rattle.std.specs.Prelude.{◌≡◌, map};
ghost use Rattle.rbg_syntax.specs.internal.Giving.{GivesWithin};
ghost use Rattle.rbg_syntax.specs.internal.Levels.{further_part_at, goes_on, joined, list_at, part_at};
ghost use Rattle.rbg_grammar.specs.Reading.{further_at, next_is};
ghost use Rattle.rbg_macro.specs.Kinds.{opens};
ghost use Rattle.rbg_grammar.specs.RuleReading.{atom_at, begins_atom, bracket_atom_at, in_braces_at, in_choice, item_at, pattern_at, rules_at, sum_at};
ghost use Rattle.rbg_grammar.specs.Views.{rule_of};

use crate::error::{Expectation, Reading};
use crate::parser::Parser;
use crate::sequences::{in_sequence, only_part};
use rbg_grammar::{ParsedAction, ParsedRule};
use rbg_macro::{Symbol, TokenKind};
use std::alloc::Global;

/// What rules are made of: sums of sequences, and sequences of items.
#[derive(Clone, Copy)]
pub(crate) enum Level {
    Sum,
    Sequence,
}

impl<'a> Parser<'a> {
    /// Rules.
    #[cycle(rules)]
    pub(crate) fn rules(&mut self, alloc: Global, brackets: u8) -> Reading<ParsedRule<'a>>
        ensures { GivesWithin (λ r. (rule_of r, self.new)) result (rules_at brackets self.old) }
    {
        self.list(alloc, Level::Sum, brackets)
    }

    /// Rules, or a sequence.
    #[cycle(rules)]
    fn list(&mut self, alloc: Global, level: Level, brackets: u8) -> Reading<ParsedRule<'a>>
        ensures { GivesWithin (λ r. (rule_of r, self.new)) result (list_at level brackets self.old) }
    {
        let first = self.part(alloc, level, brackets)?;
        if !self.goes_on(level) {
            return Ok(first);
        }
        let parts = self.further(alloc, first, level, brackets)?;
        Ok(joined(level, parts))
    }

    /// The parts after a first one, and the first one before them.
    #[cycle(rules)]
    fn further(
        &mut self,
        alloc: Global,
        first: ParsedRule<'a>,
        level: Level,
        brackets: u8,
    ) -> Reading<Vec<ParsedRule<'a>>>
        ensures { GivesWithin (λ v. (map rule_of v.items, self.new)) result
            (further_at (rule_of first.entry) (goes_on level) (further_part_at level brackets)
            self.old) }
    {
        let mut parts = Vec::new(alloc);
        parts.push(first)?;
        while self.goes_on(level) {
            parts.push(self.further_part(alloc, level, brackets)?)?;
        }
        Ok(parts)
    }

    /// Whether a further part follows.
    fn goes_on(&self, level: Level) -> bool
        ensures { result ≡ next_is (goes_on level) self.now }
    {
        match level {
            Level::Sum => self.next_is(Symbol::Plus),
            Level::Sequence => self.next_begins_atom(),
        }
    }

    /// A part after a first one: in a sum with its `+`.
    #[cycle(rules)]
    #[tactic(auto, unfolding(rbg_grammar::specs::Reading::after_at))]
    fn further_part(&mut self, alloc: Global, level: Level, brackets: u8) -> Reading<ParsedRule<'a>>
        ensures { GivesWithin (λ r. (rule_of r, self.new)) result
            (further_part_at level brackets self.old) }
    {
        match level {
            Level::Sum => {
                self.symbol(Symbol::Plus, Expectation::End)?;
                self.part(alloc, Level::Sum, brackets)
            }
            Level::Sequence => self.part(alloc, Level::Sequence, brackets),
        }
    }

    /// A part: a sequence in a sum, and an item in a sequence.
    #[cycle(rules)]
    fn part(&mut self, alloc: Global, level: Level, brackets: u8) -> Reading<ParsedRule<'a>>
        ensures { GivesWithin (λ r. (rule_of r, self.new)) result (part_at level brackets self.old) }
    {
        match level {
            Level::Sum => self.list(alloc, Level::Sequence, brackets),
            Level::Sequence => self.item(alloc, brackets),
        }
    }

    /// An atom, and the `*` after it if there is one.
    #[cycle(rules)]
    #[tactic(auto, using(rbg_grammar::proofs::Trees::stars), unfolding(rbg_grammar::specs::RuleReading::item_at))]
    fn item(&mut self, alloc: Global, brackets: u8) -> Reading<ParsedRule<'a>>
        ensures { GivesWithin (λ r.
            (rule_of r, self.new)) result (item_at (atom_at brackets) self.old) }
    {
        let rule = self.atom(alloc, brackets)?;
        if !self.next_is(Symbol::Star) {
            return Ok(rule);
        }
        self.symbol(Symbol::Star, Expectation::End)?;
        Ok(ParsedRule::Star(Box::new(alloc, rule)?))
    }

    /// An atom.
    #[cycle(rules)]
    fn atom(&mut self, alloc: Global, brackets: u8) -> Reading<ParsedRule<'a>>
        ensures { GivesWithin (λ r. (rule_of r, self.new)) result (atom_at brackets self.old) }
    {
        if !self.next_is_opening() {
            return self.open_atom();
        }
        if brackets == 0 {
            return Err(self.too_deep());
        }
        self.bracket_atom(alloc, brackets - 1)
    }

    /// An atom in brackets, in which at most this many further ones may be open.
    #[cycle(rules)]
    #[tactic(auto, unfolding(rbg_grammar::specs::RuleReading::bracket_atom_at, rbg_grammar::specs::Reading::within_at))]
    fn bracket_atom(&mut self, alloc: Global, brackets: u8) -> Reading<ParsedRule<'a>>
        ensures { GivesWithin (λ r. (rule_of r, self.new)) result
            (bracket_atom_at (rules_at brackets) (sum_at brackets) self.old) }
    {
        if self.next_is(Symbol::OpenBrace) {
            return self.in_braces(alloc, brackets);
        }
        if !self.next_is(Symbol::OpenParenthesis) {
            return self.in_brackets(alloc, brackets);
        }
        self.symbol(Symbol::OpenParenthesis, Expectation::Item)?;
        let rules = self.rules(alloc, brackets)?;
        self.symbol(Symbol::CloseParenthesis, Expectation::Closing)?;
        Ok(rules)
    }

    /// A pattern, a comparison or an on.
    #[cycle(rules)]
    #[tactic(auto, using(rbg_grammar::proofs::Trees::inner_atoms, crate::proofs::Parts::patterns), unfolding(rbg_grammar::specs::RuleReading::in_braces_at))]
    fn in_braces(&mut self, alloc: Global, brackets: u8) -> Reading<ParsedRule<'a>>
        ensures { GivesWithin (λ r. (rule_of r, self.new)) result
            (in_braces_at (rules_at brackets) (sum_at brackets) self.old) }
    {
        if self.second_is(Symbol::Dollar) {
            return self.comparison(alloc, brackets);
        }
        if self.second_is(Symbol::Question) {
            let (at, rule) = self.pattern(alloc, Symbol::Question, brackets)?;
            let rule = Box::new(alloc, rule)?;
            return Ok(ParsedRule::Act(ParsedAction::PositivePattern { at, rule }));
        }
        if self.second_is(Symbol::Exclamation) {
            let (at, rule) = self.pattern(alloc, Symbol::Exclamation, brackets)?;
            let rule = Box::new(alloc, rule)?;
            return Ok(ParsedRule::Act(ParsedAction::NegativePattern { at, rule }));
        }
        self.on(alloc)
    }

    /// The rules in a pattern that has this sign after its `{`, and the offset of that `{`.
    #[cycle(rules)]
    #[tactic(auto, unfolding(rbg_grammar::specs::RuleReading::pattern_at, rbg_grammar::specs::Reading::after_at))]
    fn pattern(
        &mut self,
        alloc: Global,
        sign: Symbol,
        brackets: u8,
    ) -> Reading<(usize, ParsedRule<'a>)>
        ensures { GivesWithin (λ p. ((p.0, rule_of p.1), self.new)) result
            (pattern_at sign (rules_at brackets) self.old) }
    {
        let at = self.symbol(Symbol::OpenBrace, Expectation::Item)?;
        self.symbol(sign, Expectation::Name)?;
        let rules = self.rules(alloc, brackets)?;
        self.symbol(Symbol::CloseBrace, Expectation::Closing)?;
        Ok((at, rules))
    }

    /// Whether the next token begins an atom.
    fn next_begins_atom(&self) -> bool
        ensures { result ≡ next_is begins_atom self.now }
    {
        match self.peek() {
            Some(token) => begins_atom(token.kind),
            None => false,
        }
    }

    /// Whether the next token is an opening bracket.
    fn next_is_opening(&self) -> bool
        ensures { result ≡ next_is opens self.now }
    {
        match self.peek() {
            Some(token) => token.kind.opens(),
            None => false,
        }
    }
}

/// Whether an atom begins with a token of this kind.
fn begins_atom(kind: TokenKind) -> bool
    ensures { result ≡ begins_atom kind }
{
    matches!(
        kind,
        TokenKind::Name
            | TokenKind::Symbol(
                Symbol::OpenParenthesis
                    | Symbol::OpenBracket
                    | Symbol::OpenBrace
                    | Symbol::Arrow
                    | Symbol::DoubleArrow
            )
    )
}

/// The parts as one rule.
fn joined(level: Level, parts: Vec<ParsedRule<'_>>) -> ParsedRule<'_>
    ensures { rule_of result ≡ joined level (map rule_of parts.entry.items) }
{
    match level {
        Level::Sum => in_choice(parts),
        Level::Sequence => in_sequence(parts),
    }
}

/// The parts of a sum of rules as one rule. One part is that part.
#[tactic(auto, using(rbg_grammar::proofs::Trees::choices))]
fn in_choice(parts: Vec<ParsedRule<'_>>) -> ParsedRule<'_>
    ensures { rule_of result ≡ in_choice (map rule_of parts.entry.items) }
{
    match only_part(parts) {
        Ok(part) => part,
        Err(parts) => ParsedRule::Or(parts),
    }
}
