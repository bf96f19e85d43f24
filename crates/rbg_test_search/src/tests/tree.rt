//! Rules as a tree of the tests' own, and how they are spelt.
use rbg_base::{Direction, Piece, Player, Position, Relation, Variable};
use std::alloc::AllocError;

/// What stands in arithmetic.
#[derive(Clone, Copy)]
pub(crate) enum Operand {
    Number(u8),
    Variable(Variable),
    Count(Piece),
}

#[derive(Clone, Copy)]
pub(crate) enum Operator {
    Plus,
    Minus,
    Times,
    Over,
}

/// An operation on two operands.
#[derive(Clone, Copy)]
pub(crate) struct Sum {
    pub first: Operand,
    pub operator: Operator,
    pub second: Operand,
}

/// An action that is no pattern.
#[derive(Clone, Copy)]
pub(crate) enum Action {
    Shift(Direction),
    /// The piece on the vertex is this one.
    On(Piece),
    /// There is one of the two pieces.
    OnAny,
    /// Never valid.
    OnNone,
    Off(Piece),
    Assign(Variable, Sum),
    Compare(Sum, Relation, Operand),
    Switch(Player),
}

/// Rules. Each action has its position.
#[cycle(tree)]
#[derive(Drop)]
pub(crate) enum Tree {
    Act {
        position: Position,
        action: Action,
    },
    Pattern {
        position: Position,
        positive: bool,
        inside: Box<Tree>,
    },
    Then(Vec<Tree>),
    Or(Vec<Tree>),
    Star(Box<Tree>),
}

fn piece_name(piece: Piece) -> &'static str {
    if piece == 0 { "e" } else { "w" }
}

fn direction_name(direction: Direction) -> &'static str {
    match direction {
        0 => "up",
        1 => "down",
        2 => "left",
        _ => "right",
    }
}

fn variable_name(variable: Variable) -> &'static str {
    match variable {
        0 => "white",
        1 => "black",
        _ => "n",
    }
}

fn switch_name(player: Player) -> &'static str {
    match player {
        0 => "->>",
        1 => "->white",
        _ => "->black",
    }
}

fn relation_sign(relation: Relation) -> &'static str {
    match relation {
        Relation::Equal => "==",
        Relation::NotEqual => "!=",
        Relation::Less => "<",
        Relation::LessOrEqual => "<=",
        Relation::Greater => ">",
        Relation::GreaterOrEqual => ">=",
    }
}

fn operator_sign(operator: Operator) -> &'static str {
    match operator {
        Operator::Plus => "+",
        Operator::Minus => "-",
        Operator::Times => "*",
        Operator::Over => "/",
    }
}

impl Operand {
    fn spell(self, text: &mut String) -> Result<(), AllocError> {
        match self {
            Operand::Number(number) => write!(text, "{number}"),
            Operand::Variable(variable) => text.push_str(variable_name(variable)),
            Operand::Count(piece) => text.push_str(piece_name(piece)),
        }
    }
}

impl Sum {
    fn spell(self, text: &mut String) -> Result<(), AllocError> {
        self.first.spell(text)?;
        text.push_str(operator_sign(self.operator))?;
        self.second.spell(text)
    }
}

impl Action {
    fn spell(self, text: &mut String) -> Result<(), AllocError> {
        match self {
            Action::Shift(direction) => text.push_str(direction_name(direction)),
            Action::On(piece) => {
                let name = piece_name(piece);
                write!(text, "{{{name}}}")
            }
            Action::OnAny => text.push_str("{e,w}"),
            Action::OnNone => text.push_str("{}"),
            Action::Off(piece) => {
                let name = piece_name(piece);
                write!(text, "[{name}]")
            }
            Action::Assign(variable, value) => {
                let name = variable_name(variable);
                write!(text, "[$ {name}=")?;
                value.spell(text)?;
                text.push_str("]")
            }
            Action::Compare(left, relation, right) => {
                text.push_str("{$ ")?;
                left.spell(text)?;
                text.push_str(relation_sign(relation))?;
                right.spell(text)?;
                text.push_str("}")
            }
            Action::Switch(player) => text.push_str(switch_name(player)),
        }
    }

    /// Whether the action changes more than the vertex, so that it stands in a move.
    pub(crate) fn is_modifier(self) -> bool {
        match self {
            Action::Off(_) | Action::Assign(_, _) | Action::Switch(_) => true,
            Action::Shift(_)
            | Action::On(_)
            | Action::OnAny
            | Action::OnNone
            | Action::Compare(_, _, _) => false,
        }
    }
}

impl Tree {
    /// Appends the text of the rules.
    pub(crate) fn spell(&self, text: &mut String) -> Result<(), AllocError> {
        match self {
            Tree::Act { action, .. } => action.spell(text),
            Tree::Pattern {
                positive,
                inside,
                ..
            } => {
                text.push_str(if *positive { "{? " } else { "{! " })?;
                inside.spell(text)?;
                text.push_str("}")
            }
            Tree::Then(parts) => {
                text.push_str("(")?;
                for part in parts {
                    text.push_str(" ")?;
                    part.spell(text)?;
                }
                text.push_str(")")
            }
            Tree::Or(parts) => {
                text.push_str("(")?;
                let mut more = false;
                for part in parts {
                    if more {
                        text.push_str(" + ")?;
                    }
                    part.spell(text)?;
                    more = true;
                }
                text.push_str(")")
            }
            Tree::Star(part) => {
                text.push_str("(")?;
                part.spell(text)?;
                text.push_str(")*")
            }
        }
    }
}
