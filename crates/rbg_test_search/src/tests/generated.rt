//! Rules by a generator: the same ones at each run.
ghost use Rattle.std.specs.Prelude.{◌<◌};

use crate::tests::tree::{Action, Operand, Operator, Sum, Tree};
use rand_core::{Rng, SeedableRng};
use rand_pcg::Pcg32;
use rbg_base::{Player, Position, Relation};
use std::alloc::{AllocError, Global};

/// With so many actions no further parts are begun.
const MANY_ACTIONS: Position = 9;

/// Where a part of the rules stands.
#[derive(Clone, Copy)]
struct Setting {
    /// Whether it stands in a pattern, where no switch may stand.
    in_pattern: bool,
    /// Whether it may be repeated. There modifiers are such that they can't be repeated for ever.
    repeated: bool,
}

/// Numbers that look random, fixed by a seed, and the positions that were handed out.
#[derive(Drop)]
pub(crate) struct Generator {
    chance: Pcg32,
    alloc: Global,
    /// The last position that was handed out.
    last: Position,
    /// Whether there is an off that can be repeated for ever. A second one would make questions heavy.
    endless: bool,
}

impl Generator {
    pub(crate) fn new(alloc: Global, seed: u64) -> Generator {
        Generator {
            chance: Pcg32::seed_from_u64(seed),
            alloc,
            last: 0,
            endless: false,
        }
    }

    /// The next number, below a given one.
    pub(crate) fn below(&mut self, count: u16) -> u16
        requires { 0 < count }
        ensures { result < count }
    {
        (self.chance.next_u64() % u64::from(count)) as u16
    }

    /// An action at the next position in order of text.
    fn act(&mut self, action: Action) -> Tree {
        self.last = self.last.saturating_add(1);
        Tree::Act {
            position: self.last,
            action,
        }
    }

    fn operand(&mut self) -> Operand {
        match self.below(5) {
            0 | 1 => Operand::Variable(self.below(3)),
            2 => Operand::Count(self.below(2)),
            _ => Operand::Number(self.below(4) as u8),
        }
    }

    fn operator(&mut self) -> Operator {
        match self.below(6) {
            0 | 1 | 2 => Operator::Plus,
            3 => Operator::Minus,
            4 => Operator::Times,
            _ => Operator::Over,
        }
    }

    fn sum(&mut self) -> Sum {
        Sum {
            first: self.operand(),
            operator: self.operator(),
            second: self.operand(),
        }
    }

    fn relation(&mut self) -> Relation {
        match self.below(6) {
            0 => Relation::Equal,
            1 => Relation::NotEqual,
            2 => Relation::Less,
            3 => Relation::LessOrEqual,
            4 => Relation::Greater,
            _ => Relation::GreaterOrEqual,
        }
    }

    /// An on.
    fn on(&mut self) -> Tree {
        let action = match self.below(12) {
            0 => Action::OnNone,
            1 => Action::OnAny,
            _ => Action::On(self.below(2)),
        };
        self.act(action)
    }

    /// A modifier that is no switch.
    fn change(&mut self, setting: Setting) -> Result<Tree, AllocError> {
        let assigns = self.below(3) == 0;
        if setting.repeated {
            return self.step_on(assigns);
        }
        let action = if assigns {
            Action::Assign(self.below(3), self.sum())
        } else {
            Action::Off(self.below(2))
        };
        Ok(self.act(action))
    }

    /// A modifier that can't be repeated for ever: a variable grows, or a vertex is taken.
    fn step_on(&mut self, assigns: bool) -> Result<Tree, AllocError> {
        if assigns {
            let grown = Sum {
                first: Operand::Variable(2),
                operator: Operator::Plus,
                second: Operand::Number(1),
            };
            return Ok(self.act(Action::Assign(2, grown)));
        }
        let mut parts = Vec::new(self.alloc);
        parts.push(self.act(Action::On(0)))?;
        parts.push(self.act(Action::Off(1)))?;
        Ok(Tree::Then(parts))
    }

    /// A part without parts.
    fn leaf(&mut self, setting: Setting) -> Result<Tree, AllocError> {
        match self.below(10) {
            0 | 1 | 2 => {
                let direction = self.below(4);
                Ok(self.act(Action::Shift(direction)))
            }
            3 | 4 => Ok(self.on()),
            5 => {
                let action = Action::Compare(self.sum(), self.relation(), self.operand());
                Ok(self.act(action))
            }
            6 if !setting.in_pattern => {
                let player = self.below(3);
                Ok(self.act(Action::Switch(player)))
            }
            _ => self.change(setting),
        }
    }

    /// A star, in some games of an off that can be repeated for ever.
    #[cycle(making)]
    fn star(&mut self, setting: Setting, depth: u8) -> Result<Tree, AllocError> {
        let part = if !setting.repeated && !self.endless && self.below(4) == 0 {
            self.endless = true;
            let piece = self.below(2);
            self.act(Action::Off(piece))
        } else {
            let repeated = Setting {
                repeated: true,
                ..setting
            };
            self.part(repeated, depth)?
        };
        Ok(Tree::Star(Box::new(self.alloc, part)?))
    }

    /// A pattern.
    #[cycle(making)]
    fn pattern(&mut self, depth: u8) -> Result<Tree, AllocError> {
        self.last = self.last.saturating_add(1);
        let position = self.last;
        let positive = self.below(2) == 0;
        let setting = Setting {
            in_pattern: true,
            repeated: false,
        };
        let inside = self.part(setting, depth)?;
        Ok(Tree::Pattern {
            position,
            positive,
            inside: Box::new(self.alloc, inside)?,
        })
    }

    /// A part that is at most that deep.
    #[cycle(making)]
    fn part(&mut self, setting: Setting, depth: u8) -> Result<Tree, AllocError> {
        let Some(less) = depth.checked_sub(1) else {
            return self.leaf(setting);
        };
        if self.last >= MANY_ACTIONS {
            return self.leaf(setting);
        }
        match self.below(9) {
            0 | 1 => self.star(setting, less),
            2 | 3 => Ok(Tree::Or(self.parts(setting, less)?)),
            4 | 5 | 6 => Ok(Tree::Then(self.parts(setting, less)?)),
            7 => self.pattern(less),
            _ => self.leaf(setting),
        }
    }

    /// Two or three parts.
    #[cycle(making)]
    fn parts(&mut self, setting: Setting, depth: u8) -> Result<Vec<Tree>, AllocError> {
        let mut parts = Vec::new(self.alloc);
        for _ in 0..2 + self.below(2) {
            parts.push(self.part(setting, depth)?)?;
        }
        Ok(parts)
    }

    /// Appends a switch.
    fn push_switch(&mut self, player: Player, turns: &mut Vec<Tree>) -> Result<(), AllocError> {
        turns.push(self.act(Action::Switch(player)))?;
        Ok(())
    }

    /// Appends a switch and a part.
    fn push_turn(
        &mut self,
        player: Player,
        depth: u8,
        turns: &mut Vec<Tree>,
    ) -> Result<(), AllocError> {
        let setting = Setting {
            in_pattern: false,
            repeated: false,
        };
        self.push_switch(player, turns)?;
        turns.push(self.part(setting, depth)?)?;
        Ok(())
    }

    /// Appends a switch to white, a part, a switch to black, a part and a switch.
    fn push_turns(&mut self, depth: u8, turns: &mut Vec<Tree>) -> Result<(), AllocError> {
        self.push_turn(1, depth, turns)?;
        self.push_turn(2, depth, turns)?;
        let player = self.below(3);
        self.push_switch(player, turns)
    }

    /// Rules of a game.
    pub(crate) fn rules(&mut self) -> Result<Tree, AllocError> {
        let mut turns = Vec::new(self.alloc);
        self.push_turns(3, &mut turns)?;
        let turns = Tree::Then(turns);
        if self.below(2) == 0 {
            return Ok(turns);
        }
        Ok(Tree::Star(Box::new(self.alloc, turns)?))
    }
}
