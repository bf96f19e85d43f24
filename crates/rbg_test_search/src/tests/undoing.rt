//! Changes of a semi-state are taken back, to marks that were taken before each of them.
ghost use Rattle.std.specs.Prelude.{OnOk};
ghost use Rattle.rbg_rules.specs.Meaning.{IsStateOf};

use rbg_base::{Piece, Position};
use rbg_game::load;
use rbg_rules::Game;
use rbg_state::{Mark, SemiState};
use std::alloc::Global;
use std::test::Fail;

/// A game with an action of each kind but comparisons and patterns.
const TEXT: &[u8] = b"#players = white(100), black(100)
#pieces = e, w, b
#board = rectangle(up,down,left,right,[e,e])
#rules = ->white {e}[w][$ white=100] ->black right {e}[b] ->> {}
";

/// How many actions the game has.
const ACTIONS: Position = 10;

/// How many pieces it has.
const PIECES: Piece = 3;

/// How many actions are applied.
const APPLIED: usize = 4;

/// A mark, and a copy that was taken there.
#[derive(Drop)]
struct Marked {
    mark: Mark,
    copy: SemiState,
}

/// Marks the present state, and then applies an action.
fn apply(
    game: &Game,
    state: &mut SemiState,
    position: Position,
    passed: &mut Vec<Marked>,
) -> Result<(), Fail>
    requires { IsStateOf game.now state.old.state }
    ensures { OnOk result (IsStateOf game.now state.new.state) }
{
    let mark = state.mark();
    let copy = state.try_clone()?;
    passed.push(Marked { mark, copy })?;
    state.reserve(1)?;
    if 0 < position && position as usize <= game.positions() && !game.is_pattern(position) {
        state.apply(game, position);
    }
    Ok(())
}

/// Whether as many vertices hold each piece.
fn has_same_counts(state: &SemiState, copy: &SemiState) -> bool {
    let mut same = true;
    for piece in 0..PIECES {
        same = same && state.count(piece) == copy.count(piece);
    }
    same
}

/// Whether the copy is what is there after all changes since the mark are taken back.
fn gives_back(state: &mut SemiState, marked: &Marked) -> bool {
    if state.mark() < marked.mark {
        return false;
    }
    state.undo_to(marked.mark);
    *state == marked.copy && has_same_counts(state, &marked.copy)
}

/// Whether that is so at each mark, the last one first.
fn give_back(state: &mut SemiState, marks: &[Marked]) -> bool {
    let mut right = true;
    for marked in marks.iter().rev() {
        right = right && gives_back(state, marked);
    }
    right
}

/// Applies four actions to the start, and takes back what was done since the last of some first marks, and then what was
/// done between these. Whether the copies are what is there then.
fn is_undone(
    alloc: Global,
    game: &Game,
    positions: [Position; APPLIED],
    marks: usize,
) -> Result<bool, Fail> {
    let mut state = SemiState::start(alloc, game)?;
    let mut passed = Vec::new(alloc);
    apply(game, &mut state, positions[0], &mut passed)?;
    apply(game, &mut state, positions[1], &mut passed)?;
    apply(game, &mut state, positions[2], &mut passed)?;
    apply(game, &mut state, positions[3], &mut passed)?;
    let first = passed.as_slice().get(..marks).unwrap_or(&[]);
    Ok(first.len() == marks && give_back(&mut state, first))
}

/// Whether that is so for all lists of four actions that begin with these two.
fn are_undone(alloc: Global, game: &Game, first: Position, second: Position) -> Result<bool, Fail> {
    let mut right = true;
    for third in 1..=ACTIONS {
        for fourth in 1..=ACTIONS {
            for marks in 1..=APPLIED {
                let positions = [first, second, third, fourth];
                right = right && is_undone(alloc, game, positions, marks)?;
            }
        }
    }
    Ok(right)
}

#[test]
fn lists_of_four_actions_are_taken_back(rt: HostRuntime) -> Result<(), Fail> {
    let game = load(rt.alloc(), TEXT)?;
    assert_eq!(rt; game.positions(), ACTIONS as usize);
    for first in 1..=ACTIONS {
        for second in 1..=ACTIONS {
            assert!(rt;
                are_undone(rt.alloc(), &game, first, second)?,
                "behind {first} {second}"
            );
        }
    }
    Ok(())
}
