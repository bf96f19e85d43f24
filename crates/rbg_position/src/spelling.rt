//! Rules written as text.

use rbg_base::{Memory, Operator, Piece, Player, Position, Relation, Variable};
use rbg_rules::{Action, Arithmetic, Game, Operation, Rule};
use std::alloc::Global;

/// What is around a rule that is written.
#[derive(Clone, Copy)]
enum Around {
    /// Brackets of its own.
    Brackets,
    Sequence,
    Sum,
    Star,
}

/// Text that is written, and the game whose names it uses.
#[derive(Drop)]
pub(crate) struct Speller<'a> {
    pub alloc: Global,
    pub game: &'a Game,
}

impl Speller<'_> {
    /// Appends a part of a sequence.
    pub(crate) fn part(&self, rule: &Rule, out: &mut Vec<u8>) -> Result<(), Memory> {
        self.rule(rule, Around::Sequence, out)
    }

    /// Appends a rule, in brackets where it needs some.
    #[cycle(spelling)]
    fn rule(&self, rule: &Rule, around: Around, out: &mut Vec<u8>) -> Result<(), Memory> {
        let needs_brackets = needs_brackets(rule, around);
        if needs_brackets {
            out.push(b'(')?;
        }
        match rule {
            Rule::Act(position) => self.action(*position, out)?,
            Rule::Pattern { position, inside } => {
                out.extend_from_slice(self.opening(*position))?;
                self.rule(inside, Around::Brackets, out)?;
                out.push(b'}')?;
            }
            Rule::Then(parts) => self.parts(parts, b" ", Around::Sequence, out)?,
            Rule::Or(parts) => self.parts(parts, b" + ", Around::Sum, out)?,
            Rule::Star(part) => {
                self.rule(part, Around::Star, out)?;
                out.push(b'*')?;
            }
        }
        if needs_brackets {
            out.push(b')')?;
        }
        Ok(())
    }

    #[cycle(spelling)]
    fn parts(
        &self,
        parts: &[Rule],
        between: &[u8],
        around: Around,
        out: &mut Vec<u8>,
    ) -> Result<(), Memory> {
        for index in 0..parts.len() {
            if index > 0 {
                out.extend_from_slice(between)?;
            }
            self.rule(&parts[index], around, out)?;
        }
        Ok(())
    }

    /// How the pattern at a position begins.
    fn opening(&self, position: Position) -> &'static [u8] {
        match self.action_at(position) {
            Some(Action::Positive) => b"{? ",
            _ => b"{! ",
        }
    }

    fn action_at(&self, position: Position) -> Option<&Action> {
        let index = (position as usize).checked_sub(1)?;
        self.game.rules().actions.get(index)
    }

    /// Appends the action at a position, which is no pattern.
    fn action(&self, position: Position, out: &mut Vec<u8>) -> Result<(), Memory> {
        match self.action_at(position) {
            Some(action) => self.known_action(action, out),
            None => Ok(()),
        }
    }

    fn known_action(&self, action: &Action, out: &mut Vec<u8>) -> Result<(), Memory> {
        match action {
            Action::Shift { direction } => out.extend_from_slice(self.direction(*direction)),
            Action::On { pieces } => self.on(pieces, out),
            Action::Off { piece } => {
                out.push(b'[')?;
                out.extend_from_slice(self.piece(*piece))?;
                out.extend_from_slice(b"]")
            }
            Action::Assign { variable, value } => {
                out.extend_from_slice(b"[$ ")?;
                out.extend_from_slice(self.variable(*variable))?;
                out.extend_from_slice(b" = ")?;
                self.arithmetic(value, out)?;
                out.extend_from_slice(b"]")
            }
            Action::Compare {
                left,
                relation,
                right,
            } => {
                out.extend_from_slice(b"{$ ")?;
                self.arithmetic(left, out)?;
                out.extend_from_slice(sign_of_relation(*relation))?;
                self.arithmetic(right, out)?;
                out.extend_from_slice(b"}")
            }
            Action::Switch { player } => self.switch(*player, out),
            Action::Positive | Action::Negative => Ok(()),
        }
    }

    fn on(&self, pieces: &[Piece], out: &mut Vec<u8>) -> Result<(), Memory> {
        out.push(b'{')?;
        for index in 0..pieces.len() {
            if index > 0 {
                out.extend_from_slice(b", ")?;
            }
            out.extend_from_slice(self.piece(pieces[index]))?;
        }
        out.extend_from_slice(b"}")
    }

    /// Appends the switch to a player, or to the keeper.
    pub(crate) fn switch(&self, player: Player, out: &mut Vec<u8>) -> Result<(), Memory> {
        if player == 0 || player as usize > self.game.players() {
            return out.extend_from_slice(b"->>");
        }
        out.extend_from_slice(b"->")?;
        out.extend_from_slice(self.game.player_name(player).as_bytes())
    }

    /// Appends arithmetic.
    #[cycle(arithmetic)]
    fn arithmetic(&self, arithmetic: &Arithmetic, out: &mut Vec<u8>) -> Result<(), Memory> {
        match arithmetic {
            Arithmetic::Number(number) => self.number(*number, out),
            Arithmetic::Variable(variable) => out.extend_from_slice(self.variable(*variable)),
            Arithmetic::PieceCount(piece) => out.extend_from_slice(self.piece(*piece)),
            Arithmetic::Negated(inner) => {
                out.push(b'-')?;
                self.operand(inner, is_negated(inner), out)
            }
            Arithmetic::Chain { first, rest } => {
                self.operand(first, false, out)?;
                self.operations(rest, out)
            }
        }
    }

    #[cycle(arithmetic)]
    fn operations(&self, operations: &[Operation], out: &mut Vec<u8>) -> Result<(), Memory> {
        for operation in operations {
            out.extend_from_slice(sign_of_operator(operation.operator))?;
            self.operand(&operation.operand, false, out)?;
        }
        Ok(())
    }

    /// Appends an operand: a chain is in brackets, and so is one that needs them.
    #[cycle(arithmetic)]
    fn operand(
        &self,
        operand: &Arithmetic,
        needs_brackets: bool,
        out: &mut Vec<u8>,
    ) -> Result<(), Memory> {
        if !needs_brackets && !is_chain(operand) {
            return self.arithmetic(operand, out);
        }
        out.push(b'(')?;
        self.arithmetic(operand, out)?;
        out.extend_from_slice(b")")
    }

    /// Appends a number.
    pub(crate) fn number(&self, number: u64, out: &mut Vec<u8>) -> Result<(), Memory> {
        let digits = number.to_string(self.alloc)?;
        out.extend_from_slice(digits.as_bytes())
    }

    /// The name of a piece.
    pub(crate) fn piece(&self, piece: Piece) -> &[u8] {
        if (piece as usize) < self.game.pieces() {
            self.game.piece_name(piece).as_bytes()
        } else {
            b""
        }
    }

    /// The name of a variable.
    pub(crate) fn variable(&self, variable: Variable) -> &[u8] {
        if (variable as usize) < self.game.variables() {
            self.game.variable_name(variable).as_bytes()
        } else {
            b""
        }
    }

    /// The name of a direction.
    pub(crate) fn direction(&self, direction: u16) -> &[u8] {
        if (direction as usize) < self.game.directions() {
            self.game.direction_name(direction).as_bytes()
        } else {
            b""
        }
    }
}

/// Whether a rule needs brackets, so that it is read as one part.
fn needs_brackets(rule: &Rule, around: Around) -> bool {
    match rule {
        Rule::Act(_) => false,
        Rule::Pattern {
            position: _,
            inside: _,
        } => false,
        Rule::Then(_) => matches!(around, Around::Sequence | Around::Star),
        Rule::Or(_) => !matches!(around, Around::Brackets),
        Rule::Star(_) => matches!(around, Around::Star),
    }
}

fn is_chain(arithmetic: &Arithmetic) -> bool {
    match arithmetic {
        Arithmetic::Chain { first: _, rest: _ } => true,
        _ => false,
    }
}

fn is_negated(arithmetic: &Arithmetic) -> bool {
    match arithmetic {
        Arithmetic::Negated(_) => true,
        _ => false,
    }
}

fn sign_of_relation(relation: Relation) -> &'static [u8] {
    match relation {
        Relation::Equal => b" == ",
        Relation::NotEqual => b" != ",
        Relation::Less => b" < ",
        Relation::LessOrEqual => b" <= ",
        Relation::Greater => b" > ",
        Relation::GreaterOrEqual => b" >= ",
    }
}

fn sign_of_operator(operator: Operator) -> &'static [u8] {
    match operator {
        Operator::Plus => b" + ",
        Operator::Minus => b" - ",
        Operator::Times => b" * ",
        Operator::Over => b" / ",
    }
}
