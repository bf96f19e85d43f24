//! What questions take up, and where a budget ends them.
ghost use Rattle.std.specs.Prelude.{IfOk};
ghost use Rattle.rbg_rules.specs.Meaning.{IsPlaceOf};

use rbg_auto::{Steps, compact};
use rbg_game::load;
use rbg_moves::{Move, Over, Pair, Place, try_move};
use rbg_rules::Game;
use rbg_search::{Budget, Buffers, Search};
use std::alloc::Global;
use std::test::Fail;

/// A board of one row, rules with a pattern at position 2, and the openings and modifiers of a budget; and what the pattern
/// answers when white is to move, how many openings it takes up, and how many pairs it meets.
type Example = (
    &'static str,
    &'static str,
    u32,
    u16,
    Result<bool, Over>,
    u32,
    u64,
);

const ONE: &str = "[e]";

const TWO: &str = "[e,e]";

const CHOICE: &str = "->white {! ([w] + [e]) {}} ->black";

// A heavy pattern and a light one, and a heavy one beside words that end. What was met last is asked first, and all patterns
// before an end answers yes; an end does so before modifiers.
const HEAVY_FIRST: &str = "->white {! ({! [w] {}} + {! {e}}) {}} ->black";

const LIGHT_FIRST: &str = "->white {! ({! {e}} + {! [w] {}}) {}} ->black";

const AFTER_A_SHIFT: &str = "->white {! (right {! {e}} + {! [w] {}}) {}} ->black";

const BESIDE_AN_END: &str = "->white {? ({e} + {! [w] {}})} ->black";

const MAY_END: &str = "->white {? ([w])*} ->black";

const EXAMPLES: [Example; 13] = [
    (ONE, CHOICE, 3, 200, Ok(true), 3, 4),
    (ONE, CHOICE, 3, 2, Ok(true), 3, 4),
    (ONE, CHOICE, 2, 200, Err(Over::Wide), 2, 3),
    (ONE, CHOICE, 1, 200, Err(Over::Wide), 1, 2),
    (ONE, CHOICE, 0, 200, Err(Over::Wide), 0, 0),
    (ONE, CHOICE, 3, 1, Err(Over::Deep), 1, 2),
    (ONE, CHOICE, 3, 0, Err(Over::Deep), 1, 2),
    (ONE, CHOICE, 1, 1, Err(Over::Deep), 1, 2),
    (TWO, HEAVY_FIRST, 2, 1, Err(Over::Wide), 2, 3),
    (TWO, LIGHT_FIRST, 2, 1, Err(Over::Deep), 2, 3),
    (TWO, AFTER_A_SHIFT, 2, 1, Err(Over::Deep), 2, 3),
    (TWO, BESIDE_AN_END, 2, 1, Err(Over::Deep), 2, 3),
    (ONE, MAY_END, 1, 1, Ok(true), 1, 1),
];

/// The game of these rules on this row.
fn game_of(alloc: Global, row: &str, rules: &str) -> Result<Game, Fail> {
    let text = format!(in alloc;
        "#players = white(100), black(100)\n#pieces = e, w\n#board = rectangle(up,down,left,right,{row})\n#rules = {rules}"
    )?;
    Ok(load(alloc, text.as_bytes())?)
}

/// The place after the switch at position 1.
fn white_to_move<S: Steps>(alloc: Global, game: &Game, steps: &S) -> Result<Place, Fail>
    requires { S.of_rules steps.now game.now.rules }
    ensures { IfOk result (IsPlaceOf game.now) }
{
    let start = Place::start(alloc, game)?;
    let switch = Move::new(Pair {
        vertex: 0,
        position: 1,
    });
    let to = try_move(alloc, game, steps, &start, &switch)?;
    let place = to.ok_or("the rules begin with a switch")?;
    Ok(place)
}

/// Whether the pattern answers at a place as the example says.
fn answers_at<S: Steps>(
    alloc: Global,
    game: &Game,
    steps: &S,
    place: &Place,
    example: &Example,
) -> Result<bool, Fail>
    requires steps { S.of_rules steps.now game.now.rules }
    requires place { IsPlaceOf game.now place.now }
{
    if game.positions() < 2 || !game.is_pattern(2) {
        return Ok(false);
    }
    let (_, _, openings, modifiers, valid, opened, taken) = *example;
    let budget = Budget {
        openings,
        modifiers,
    };
    let mut state = place.state.try_clone()?;
    let mut buffers = Buffers::new(alloc);
    let mut search = Search::new(alloc, game, steps, budget, &mut buffers);
    let answer = search.pattern(&mut state, 2);
    Ok(answer == valid && search.opened() == opened && search.taken() == taken)
}

/// Whether the pattern of a game answers as the example says, when white is to move.
fn answers(alloc: Global, game: &Game, example: &Example) -> Result<bool, Fail> {
    let steps = compact(alloc, game)?;
    let place = white_to_move(alloc, game, &steps)?;
    answers_at(alloc, game, &steps, &place, example)
}

/// Whether the pattern of the example answers as it says.
fn is_right(alloc: Global, example: &Example) -> Result<bool, Fail> {
    let (row, rules, ..) = *example;
    answers(alloc, &game_of(alloc, row, rules)?, example)
}

#[test]
fn a_pattern_takes_up_its_openings_and_no_more_than_allowed(rt: HostRuntime) -> Result<(), Fail> {
    for example in &EXAMPLES {
        let (_, rules, ..) = *example;
        assert!(rt; is_right(rt.alloc(), example)?, "at {rules}");
    }
    Ok(())
}
