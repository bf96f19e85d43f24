//! Tests of what no contract states about the automaton of a game: equal lists are in it once, it lends its answers,
//! and common actions are known at a glance. Its two forms give the same answers.
use rbg_auto::{Expr, Glance, Steps, compact, compile};
use rbg_base::Position;
use rbg_game::load;
use rbg_rules::Game;
use std::alloc::Global;
use std::test::Fail;

/// The first sections of each game, up to its rules.
const HEAD: &str = "#players = white(100), black(100)
#pieces = e, w, b
#variables = n(3)
#board = rectangle(up,down,left,right,[w,e])
#rules = ";

/// Macros for long rules: three repeat their argument, and the others make choices, and sums of 271 and of 368 parts.
const MACROS: &str = "
#six(x) = x x x x x x
#nine(x) = x x x x x x x x x
#ten(x) = x x x x x x x x x x
#choice = ([w] + [e])
#fifteen = ten(choice) choice choice choice choice choice
#more = + [w]
#hundred = ten(ten(more))
#short = [w] hundred hundred six(ten(more)) ten(more)
#long = [w] hundred hundred hundred six(ten(more)) six(more) more
";

/// Rules, and how many entries the different lists of their positions have in all.
const RULES: [(&str, usize); 22] = [
    ("->white {w} right [w] ->black", 5),
    ("->white ([w])* ->black", 3),
    ("->white (([w])* ([e])*)* ->black", 4),
    ("->white ([w] + ([e])* right)* [$ n = n + 1] ->>", 8),
    ("->white {? right [w]} right {e} [w] ->black", 8),
    (
        "->white (right + left)* {! {? right} {! left}} [w] ->black",
        10,
    ),
    ("->white {e}[w] ->black right {e}[b] ->> {}", 9),
    ("(->>)*", 1),
    ("([w] ->white + ->white)", 3),
    ("->white ([w] ->black + ([w])* {})", 7),
    ("->white {! ([w])*} [w] ->black", 5),
    ("->white ten(ten([w] [w])) ->black", 202),
    (
        "nine(ten(ten(->>))) nine(ten(->>)) nine(->>) ->white [w] ->black",
        1002,
    ),
    ("ten(ten(ten(ten(up up))))", 20000),
    (
        "->white ([w] nine(ten(ten(+ [w]))) nine(ten(+ [w])) nine(+ [w])) ->black",
        1002,
    ),
    (
        "->white ([w] nine(ten(ten(+ [w]))) nine(ten(+ [w])) nine(+ [w]))* ->black",
        1002,
    ),
    (
        "->white ([w] ->black ten(+ ->black + ->black + ->black + ->black + ->black + ->black) nine(+ ->black)) {}",
        73,
    ),
    (
        "->white ten(([w] + [e])) ([w] + [e]) ([w] + [e]) ([w] + [e]) ([w] + [e]) ([w] + [e]) {}",
        32,
    ),
    (
        "->white {! ten(([w] + [e])) {}} {! ten(([w] + [e])) {}} [w] ->black",
        47,
    ),
    (
        "->white {? {e} nine(([$ n = 1] + [$ n = 2]) ([$ n = 1] + [$ n = 2])) {b} + [$ n = 0]} [w] ->black",
        43,
    ),
    (
        "->white ({e} ten(([e] + [w])) ->black + ([$ n = 1])* {})",
        27,
    ),
    (
        "->white right (([$ n = 1])* {} + left ten(([e] + [w])) ->black)",
        28,
    ),
];

/// More rules, whose lists aren't counted.
const MORE_RULES: [&str; 24] = [
    "right",
    "->white {e}[w][$ white=100] ->black right {e}[b] ->> {}",
    "->white ([e])* ->black",
    "->white ([w])* {}",
    "->white ([$ n=n+1])* ->black",
    "->white {! right [w] {w}} [w] ->black",
    "->white {$ 7/2*2 == 6} {$ (0-7)/2 == -3} [$ white = e*3] ->black",
    "->white {$ 7/2*2 == 6} {$ 1/0 != 1} {$ (0-7)/2 == -3} [$ white = e*3] ->black",
    "->white [$ white = 5, black = white + 1] ->black",
    "->white {$ -9223372036854775807 - 1 < 0} [$ white = 7] ->black",
    "->white {$ (-9223372036854775807 - 1) / -1 > 0} [$ white = 7] ->black",
    "->white ([w] + [e] ->white) ->black",
    "->white (right + left)* [w] ->black",
    "->white (right + left)* {! left [w] {w}} {? right {e}} [w] ->black",
    "->white {! [w] right [w] {$ w == 2} {}} {$ w == 0} [w] {$ w == 1} ->black",
    "->white fifteen {}",
    "->white fifteen choice {}",
    "->white (short) (long) {}",
    "->white (short) (long more) {}",
    "->white {! fifteen {}} [w] ->black",
    "->white {! fifteen {}} {! fifteen {}} [w] ->black",
    "->white {! ([w])* {}} [w] ->black",
    "->white {! choice {}} ->black",
    "->white {! ([w])* {! ([w])* {! ([w])* {! ([w])* {! ([w])* {! ([w])* {! ([w])* {! ([w])*}}}}}}}} ->black",
];

/// The game of these rules.
fn game_of(alloc: Global, rules: &str) -> Result<Game, Fail> {
    let text = format!(in alloc; "{HEAD}{rules}{MACROS}")?;
    Ok(load(alloc, text.as_bytes())?)
}

/// Whether the automaton of a game has this many entries, and lends its answers.
fn has_entries(alloc: Global, game: &Game, entries: usize) -> Result<bool, Fail> {
    let automaton = compact(alloc, game)?;
    Ok(automaton.entries() == entries && automaton.lend().is_some())
}

/// Whether the automaton of the game of these rules has this many entries, and lends its answers.
fn shares_lists(alloc: Global, rules: &str, entries: usize) -> Result<bool, Fail> {
    has_entries(alloc, &game_of(alloc, rules)?, entries)
}

/// Whether two automata give the same answers for an expression.
fn same_first(one: &impl Steps, other: &impl Steps, expr: Expr) -> bool {
    one.first(expr) == other.first(expr) && one.may_be_empty(expr) == other.may_be_empty(expr)
}

/// Whether two automata give the same answers for the position, and for a pattern at it.
fn same_at(one: &impl Steps, other: &impl Steps, position: Position) -> bool {
    one.next(position) == other.next(position)
        && one.may_end(position) == other.may_end(position)
        && same_first(one, other, Expr::Inside(position))
}

/// Whether two automata give the same answers for the rules, and for each position from 0 to the one after the last.
fn agree(one: &impl Steps, other: &impl Steps, last: Position) -> bool {
    let mut same = same_first(one, other, Expr::Rules);
    for position in 0..=last.saturating_add(1) {
        same = same && same_at(one, other, position);
    }
    same
}

/// Whether both forms of the automaton of the game of these rules give the same answers.
fn forms_agree(alloc: Global, rules: &str) -> Result<bool, Fail> {
    let game = game_of(alloc, rules)?;
    let plain = compile(alloc, &game)?;
    let compact = compact(alloc, &game)?;
    Ok(agree(&plain, &compact, game.positions() as Position))
}

#[test]
fn both_forms_give_the_same_answers(rt: HostRuntime) -> Result<(), Fail> {
    for example in &RULES {
        let (rules, _) = *example;
        assert!(rt; forms_agree(rt.alloc(), rules)?, "at {rules}");
    }
    for rules in MORE_RULES {
        assert!(rt; forms_agree(rt.alloc(), rules)?, "at {rules}");
    }
    Ok(())
}

#[test]
fn equal_lists_are_kept_once(rt: HostRuntime) -> Result<(), Fail> {
    for example in &RULES {
        let (rules, entries) = *example;
        assert!(rt; shares_lists(rt.alloc(), rules, entries)?, "at {rules}");
    }
    Ok(())
}

/// Rules with actions of each kind.
const ACTIONS: &str =
    "->white {w} {w,e} {? right} right [w] {w,e,b} {$ n < 2} [$ n = n + 1] ->black";

/// The glances at the positions of these rules, from 0 on to the one after the last.
const TOLD: [Glance; 13] = [
    Glance::Unknown,
    Glance::Modifies,
    Glance::On(1),
    Glance::OnEither(1, 0),
    Glance::Pattern,
    Glance::Shift(3),
    Glance::Shift(3),
    Glance::Modifies,
    Glance::Unknown,
    Glance::Unknown,
    Glance::Unknown,
    Glance::Modifies,
    Glance::Unknown,
];

/// Whether an automaton has these glances.
fn tells(automaton: &impl Steps) -> bool {
    let mut same = true;
    for position in 0..13 {
        let told = automaton.glance(position);
        same = same && TOLD.get(position as usize).copied() == Some(told);
    }
    same
}

/// Whether the automaton of a game has these glances.
fn tells_of(alloc: Global, game: &Game) -> Result<bool, Fail> {
    Ok(tells(&compact(alloc, game)?))
}

#[test]
fn common_actions_are_told_at_a_glance(rt: HostRuntime) -> Result<(), Fail> {
    let game = game_of(rt.alloc(), ACTIONS)?;
    assert!(rt; tells_of(rt.alloc(), &game)?);
    Ok(())
}
