//! Where one modifier alone comes next, a search knows it beforehand. No clause says that it must.
use rbg_auto::{Steps, compact};
use rbg_base::Position;
use rbg_flat::Paths;
use rbg_game::load;
use rbg_rules::Game;
use rbg_search::{Budget, Buffers, GameSteps, Onward, Search};
use std::alloc::Global;
use std::test::Fail;

/// Straight lines of modifiers: one that ends at a choice, one after it, one in a pattern, and one after that.
const TEXT: &[u8] = b"#players = white(100), black(100)
#pieces = e, w
#board = rectangle(up,down,left,right,[e,e])
#rules = ->white [e][w][$ white=100] ->black ([e] + [w]) right [e] {? [e][w]} {! [e]} ->> {}
";

/// Positions, each with the modifier that alone comes next after it.
const ALONE: [(Position, Position); 7] = [
    (1, 2),
    (2, 3),
    (3, 4),
    (4, 5),
    (8, 9),
    (11, 12),
    (13, 15),
];

/// Whether a search knows that this modifier alone comes next after a position.
fn knows<S: Steps>(search: &Search<'_, S>, position: Position, alone: Position) -> bool {
    match search.onward(position) {
        Onward::Unknown => false,
        Onward::Modifier(next) | Onward::Switch(next) => next == alone,
    }
}

/// Whether a search with paths knows it after each of the positions.
fn knows_lines(alloc: Global, game: &Game) -> Result<bool, Fail> {
    let steps = compact(alloc, game)?;
    let paths = Paths::new(alloc, game, &steps)?;
    game.is_accepted();
    let rules = GameSteps::new(game, &steps, Some(&paths));
    let budget = Budget {
        openings: 1,
        modifiers: 1,
    };
    let mut buffers = Buffers::new(alloc);
    let search = Search::by_rules(alloc, rules, budget, &mut buffers);
    let mut right = true;
    for (position, alone) in &ALONE {
        right = right && knows(&search, *position, *alone);
    }
    Ok(right)
}

#[test]
fn one_modifier_that_comes_next_alone_is_known(rt: HostRuntime) -> Result<(), Fail> {
    let game = load(rt.alloc(), TEXT)?;
    assert!(rt; knows_lines(rt.alloc(), &game)?);
    Ok(())
}
