//! How moves are spelt for people.

use rbg_base::{Pair, Piece, Variable, Vertex};
use rbg_drawing::push_square;
use rbg_game::Layout;
use rbg_rules::{Action, Game};
use std::alloc::AllocError;

/// How the piece of an empty square is spelt.
pub(crate) const EMPTY_SIGN: &[u8] = b".";

/// The name of the piece of an empty square, and the one that counts if no piece has it.
const EMPTY_NAME: &str = "e";

const LONG_EMPTY_NAME: &str = "empty";

/// Spells the moves of a game for people.
#[derive(Clone, Copy)]
pub struct MoveSpeller<'a> {
    game: &'a Game,
    layout: &'a Layout,
    empty: Option<Piece>,
}

impl<'a> MoveSpeller<'a> {
    pub fn new(game: &'a Game, layout: &'a Layout) -> MoveSpeller<'a> {
        MoveSpeller {
            game,
            layout,
            empty: empty_of(game),
        }
    }

    /// Appends each square whose piece the pairs of a move change, in the order in which they do so first, with the piece
    /// before and after the move: `e2 p > ., e4 . > p`. If they change none, it is the variables that they set, if any, and
    /// the first square: `sets passes at e2`, or `at e2`.
    pub fn push_move(
        &self,
        before: &[Piece],
        pairs: &[Pair],
        out: &mut Vec<u8>,
    ) -> Result<(), AllocError> {
        let start = out.len();
        for (index, pair) in pairs.iter().enumerate() {
            let earlier = pairs.get(..index).unwrap_or(&[]);
            if let Some(new) = self.put_first(earlier, pair, pairs)
                && let Some(old) = before.get(pair.vertex as usize)
                && *old != new
            {
                if out.len() > start {
                    out.extend_from_slice(b", ")?;
                }
                self.push_change(pair.vertex, *old, new, out)?;
            }
        }
        match pairs.first() {
            Some(pair) if out.len() == start => {
                self.push_settings(pairs, out)?;
                out.extend_from_slice(b"at ")?;
                push_square(self.layout, pair.vertex as usize, out)
            }
            _ => Ok(()),
        }
    }

    /// Appends the names of the variables that pairs set, if any, in the order in which they do so first.
    fn push_settings(&self, pairs: &[Pair], out: &mut Vec<u8>) -> Result<(), AllocError> {
        let start = out.len();
        for (index, pair) in pairs.iter().enumerate() {
            let earlier = pairs.get(..index).unwrap_or(&[]);
            if let Some(variable) = set_by(self.game, pair)
                && !is_set(self.game, earlier, variable)
                && (variable as usize) < self.game.variables()
            {
                out.extend_from_slice(if out.len() == start {
                    b"sets ".as_slice()
                } else {
                    b", "
                })?;
                out.extend_from_slice(self.game.variable_name(variable).as_bytes())?;
            }
        }
        if out.len() > start {
            out.push(b' ')?;
        }
        Ok(())
    }

    /// The piece that is on the vertex of a pair after all pairs, if this pair is the first that puts one there.
    fn put_first(&self, earlier: &[Pair], pair: &Pair, all: &[Pair]) -> Option<Piece> {
        put_by(self.game, pair)?;
        match put_last(self.game, earlier, pair.vertex) {
            Some(_) => None,
            None => put_last(self.game, all, pair.vertex),
        }
    }

    fn push_change(
        &self,
        vertex: Vertex,
        old: Piece,
        new: Piece,
        out: &mut Vec<u8>,
    ) -> Result<(), AllocError> {
        push_square(self.layout, vertex as usize, out)?;
        out.push(b' ')?;
        self.push_piece(old, out)?;
        out.extend_from_slice(b" > ")?;
        self.push_piece(new, out)
    }

    /// Appends the name of a piece, or the sign of an empty square.
    fn push_piece(&self, piece: Piece, out: &mut Vec<u8>) -> Result<(), AllocError> {
        if self.empty == Some(piece) {
            return out.extend_from_slice(EMPTY_SIGN);
        }
        if (piece as usize) < self.game.pieces() {
            out.extend_from_slice(self.game.piece_name(piece).as_bytes())
        } else {
            Ok(())
        }
    }
}

/// The piece of empty squares, if the game has one.
pub(crate) fn empty_of(game: &Game) -> Option<Piece> {
    match piece_of(game, EMPTY_NAME) {
        Some(piece) => Some(piece),
        None => piece_of(game, LONG_EMPTY_NAME),
    }
}

/// The piece of a name.
fn piece_of(game: &Game, name: &str) -> Option<Piece> {
    for index in 0..game.pieces() {
        if game.piece_name(index as Piece) == name {
            return Some(index as Piece);
        }
    }
    None
}

/// The action of a pair, if the game has it.
fn action_of<'a>(game: &'a Game, pair: &Pair) -> Option<&'a Action> {
    if pair.position > 0 && pair.position as usize <= game.positions() {
        Some(game.action(pair.position))
    } else {
        None
    }
}

/// The piece that a pair puts, if it puts one.
fn put_by(game: &Game, pair: &Pair) -> Option<Piece> {
    match action_of(game, pair) {
        Some(Action::Off { piece }) => Some(*piece),
        _ => None,
    }
}

/// The variable that a pair sets, if it sets one.
fn set_by(game: &Game, pair: &Pair) -> Option<Variable> {
    match action_of(game, pair) {
        Some(Action::Assign { variable, .. }) => Some(*variable),
        _ => None,
    }
}

/// Whether one of these pairs sets a variable.
fn is_set(game: &Game, pairs: &[Pair], variable: Variable) -> bool {
    for pair in pairs {
        if set_by(game, pair) == Some(variable) {
            return true;
        }
    }
    false
}

/// The piece that pairs put last on a vertex, if they put one.
fn put_last(game: &Game, pairs: &[Pair], vertex: Vertex) -> Option<Piece> {
    let mut last = None;
    for pair in pairs {
        if pair.vertex == vertex
            && let Some(piece) = put_by(game, pair)
        {
            last = Some(piece);
        }
    }
    last
}
