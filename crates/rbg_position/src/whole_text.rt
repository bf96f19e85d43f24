//! The text of a game that begins at a place.
ghost use Rattle.std.specs.Prelude.{◌≡◌, ◌≤◌, length};

use crate::numbering::{Run, runs};
use crate::place_values::value_of;
use crate::spelling::Speller;
use rbg_base::{Direction, Memory, Piece, Player, Position, Variable};
use rbg_moves::Place;
use rbg_rules::Rule;

/// What the keeper does first, so that play is at a place: it sets the values that aren't 0, goes to the vertex, and
/// gives the turn to the player.
#[derive(Drop)]
pub(crate) struct Opening<'a> {
    pub values: &'a [(Variable, u32)],
    pub way: &'a [Direction],
    pub player: Player,
}

impl Opening<'_> {
    /// How many actions these are.
    pub(crate) fn len(&self) -> usize {
        self.values
            .len()
            .saturating_add(self.way.len())
            .saturating_add(1)
    }
}

impl Speller<'_> {
    /// Appends the sections before that of the board.
    pub(crate) fn names(&self, out: &mut Vec<u8>) -> Result<(), Memory> {
        out.extend_from_slice(b"#players = ")?;
        self.bounded(0, self.game.players(), out)?;
        out.extend_from_slice(b"\n#pieces = ")?;
        for piece in 0..self.game.pieces().min(Piece::MAX as usize) {
            if piece > 0 {
                out.extend_from_slice(b", ")?;
            }
            out.extend_from_slice(self.piece(piece as Piece))?;
        }
        out.extend_from_slice(b"\n#variables = ")?;
        self.bounded(self.game.players(), self.game.variables(), out)?;
        out.extend_from_slice(b"\n")
    }

    /// Appends variables with their bounds.
    fn bounded(&self, first: usize, end: usize, out: &mut Vec<u8>) -> Result<(), Memory> {
        for index in first..end.min(Variable::MAX as usize) {
            if index > first {
                out.extend_from_slice(b", ")?;
            }
            let variable = index as Variable;
            out.extend_from_slice(self.variable(variable))?;
            out.push(b'(')?;
            self.number(self.bound(variable), out)?;
            out.push(b')')?;
        }
        Ok(())
    }

    fn bound(&self, variable: Variable) -> u64 {
        if (variable as usize) < self.game.variables() {
            u64::from(self.game.bound(variable))
        } else {
            0
        }
    }

    /// Appends the section of the rules: what the keeper does first, and the rest, with a line for each part.
    pub(crate) fn rules(
        &self,
        opening: &Opening<'_>,
        parts: &[&Rule],
        out: &mut Vec<u8>,
    ) -> Result<(), Memory> {
        out.extend_from_slice(b"#rules = ")?;
        for pair in opening.values {
            let (variable, value) = *pair;
            out.extend_from_slice(b"[$ ")?;
            out.extend_from_slice(self.variable(variable))?;
            out.extend_from_slice(b" = ")?;
            self.number(u64::from(value), out)?;
            out.extend_from_slice(b"] ")?;
        }
        for direction in opening.way {
            out.extend_from_slice(self.direction(*direction))?;
            out.push(b' ')?;
        }
        self.switch(opening.player, out)?;
        for part in parts {
            let part: &Rule = part;
            out.extend_from_slice(b"\n    ")?;
            self.part(part, out)?;
        }
        out.extend_from_slice(b"\n")
    }

    /// Appends comment lines that say which number each action has in the old description.
    pub(crate) fn numbers(&self, numbers: &[Position], out: &mut Vec<u8>) -> Result<(), Memory> {
        out.extend_from_slice(
            b"// Play goes on at this position, which the keeper makes first.\n",
        )?;
        let runs = runs(self.alloc, numbers)?;
        for run in runs.as_slice() {
            self.run(*run, out)?;
        }
        Ok(())
    }

    fn run(&self, run: Run, out: &mut Vec<u8>) -> Result<(), Memory> {
        out.extend_from_slice(b"// Actions ")?;
        self.number(run.first as u64, out)?;
        out.extend_from_slice(b" to ")?;
        self.number(run.last as u64, out)?;
        out.extend_from_slice(b" were ")?;
        self.number(u64::from(run.old), out)?;
        out.extend_from_slice(b" to ")?;
        let count = run.last.saturating_sub(run.first) as u64;
        self.number(u64::from(run.old).saturating_add(count), out)?;
        out.extend_from_slice(b".\n")
    }
}

/// Appends the values of a place that aren't 0, with their variables.
pub(crate) fn push_values(
    count: usize,
    place: &Place,
    values: &mut Vec<(Variable, u32)>,
) -> Result<(), Memory>
    requires few { count ≤ 65536 }
    requires there { length place.now.state.values ≡ count }
{
    for index in 0..count {
        let variable = index as Variable;
        let value = value_of(place, variable);
        if value != 0 {
            values.push((variable, value))?;
        }
    }
    Ok(())
}
