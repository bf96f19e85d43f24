//! Runs of the searches for moves, and of the counts of their sequences.
ghost use Rattle.rbg_rules.specs.Meaning.{IsStateOf};

use crate::games::{SQUARES, WALK, played};
use crate::messages;
use crate::printing::Facts;
use crate::stop::Stop;
use rbg_auto::{Compact, Expr, Steps, compact};
use rbg_base::{Pair, Position};
use rbg_game::{Game, load};
use rbg_moves::{Over, Place, PlayedGame, Unsettled, Workspace};
use rbg_questions::{CountError, Extent, count_from_start};
use rbg_search::{Budget, Buffers, FlatPart, Origin, Search};
use rbg_state::SemiState;
use std::alloc::Global;
use std::io::Write;

/// The number of moves of the sequences that are counted.
const COUNTED: u8 = 3;

/// The budget of a search.
const BUDGET: Budget = Budget {
    openings: 100_000,
    modifiers: 200,
};

/// The position of the pattern that is asked alone.
const ASKED: Position = 3;

/// A question at the start of the walk.
#[derive(Clone, Copy)]
enum Question {
    /// Which modifiers are reached.
    Reach,
    /// Whether the pattern is valid.
    Pattern,
}

/// A game, and the automaton of its rules, by which it is searched.
#[derive(Drop)]
struct SearchedGame<'a> {
    game: &'a Game,
    steps: &'a Compact,
}

/// Makes the run of a name, if it is one of these; else the next module does.
pub fn run<W: Write>(alloc: Global, name: &str, facts: &mut Facts<W>) -> Result<(), Stop> {
    match name {
        "reach" => ask(alloc, Question::Reach, facts),
        "pattern" => ask(alloc, Question::Pattern, facts),
        "count" => count(alloc, facts),
        _ => messages::run(alloc, name, facts),
    }
}

/// Prints why there is no answer.
pub fn tell_over<W: Write>(over: Over, facts: &mut Facts<W>) {
    facts.line(match over {
        Over::Memory => "memory",
        Over::Deep => "too deep",
        Over::Wide => "too wide",
    });
}

/// The numbers of a pair after a word.
pub fn tell_pair<W: Write>(word: &str, pair: Pair, facts: &mut Facts<W>) {
    facts.number(word, pair.vertex as u64);
    facts.number("", pair.position as u64);
}

/// Asks a question at the start of the walk.
fn ask<W: Write>(alloc: Global, question: Question, facts: &mut Facts<W>) -> Result<(), Stop> {
    let game = load(alloc, WALK)?;
    ask_game(alloc, &game, question, facts)
}

fn ask_game<W: Write>(
    alloc: Global,
    game: &Game,
    question: Question,
    facts: &mut Facts<W>,
) -> Result<(), Stop> {
    let steps = compact(alloc, game)?;
    let searched = SearchedGame {
        game,
        steps: &steps,
    };
    ask_by(alloc, &searched, question, facts)
}

fn ask_by<W: Write>(
    alloc: Global,
    searched: &SearchedGame<'_>,
    question: Question,
    facts: &mut Facts<W>,
) -> Result<(), Stop>
    requires { ⟦<Compact as Steps>⟧.of_rules searched.now.steps.now searched.now.game.now.rules }
{
    let mut place = Place::start(alloc, searched.game)?;
    ask_from(alloc, searched, question, &mut place.state, facts)
}

/// Asks the question, and compares the semi-state that is lent with a copy taken before.
fn ask_from<W: Write>(
    alloc: Global,
    searched: &SearchedGame<'_>,
    question: Question,
    state: &mut SemiState,
    facts: &mut Facts<W>,
) -> Result<(), Stop>
    requires steps { ⟦<Compact as Steps>⟧.of_rules searched.now.steps.now searched.now.game.now.rules }
    requires state { IsStateOf searched.now.game.now state.old.state }
{
    let copy = state.try_clone()?;
    ask_lent(alloc, searched, question, state, facts)?;
    facts.kept("semi-state is", *state == copy);
    Ok(())
}

fn ask_lent<W: Write>(
    alloc: Global,
    searched: &SearchedGame<'_>,
    question: Question,
    state: &mut SemiState,
    facts: &mut Facts<W>,
) -> Result<(), Stop>
    requires steps { ⟦<Compact as Steps>⟧.of_rules searched.now.steps.now searched.now.game.now.rules }
    requires state { IsStateOf searched.now.game.now state.old.state }
{
    let game = searched.game;
    if game.positions() < ASKED as usize || !game.is_pattern(ASKED) {
        return Err(Stop::Wrong);
    }
    let mut buffers = Buffers::new(alloc);
    let mut search = Search::new(alloc, game, searched.steps, BUDGET, &mut buffers);
    match question {
        Question::Reach => tell_reached(&search.reach(state, Origin::Begin(Expr::Rules)), facts),
        Question::Pattern => tell_valid(search.pattern(state, ASKED), facts),
    }
    Ok(())
}

fn tell_reached<W: Write>(answer: &Result<FlatPart, Over>, facts: &mut Facts<W>) {
    match answer {
        Ok(reached) => tell_part(reached, facts),
        Err(over) => tell_over(*over, facts),
    }
}

fn tell_part<W: Write>(reached: &FlatPart, facts: &mut Facts<W>) {
    for pair in &reached.pairs {
        tell_pair("reached", *pair, facts);
        facts.bytes(b"\n");
    }
    facts.truth("ends", reached.ends);
}

fn tell_valid<W: Write>(answer: Result<bool, Over>, facts: &mut Facts<W>) {
    match answer {
        Ok(valid) => facts.truth("valid", valid),
        Err(over) => tell_over(over, facts),
    }
}

/// Counts the sequences of three moves from the beginning of play.
fn count<W: Write>(alloc: Global, facts: &mut Facts<W>) -> Result<(), Stop> {
    tell_count(alloc, &played(alloc, SQUARES)?, facts);
    Ok(())
}

fn tell_count<W: Write>(alloc: Global, game: &PlayedGame, facts: &mut Facts<W>) {
    let counted = count_from_start(game, COUNTED, Extent::Ends, &mut Workspace::new(alloc));
    match counted {
        Ok(counts) => {
            facts.number("sequences", counts.sequences);
            facts.count(", ended", counts.ended);
        }
        Err(CountError::Unsettled(Unsettled::Memory)) => facts.memory(),
        Err(error) => facts.inner(&error),
    }
}
