//! Where play stands in a game.
ghost use Rattle.std.specs.Prelude.{◌≡◌, ◌↔◌, IfOk, IfSome, IfNone, IsTrue, OnOk};
ghost use Rattle.rbg_rules.specs.Meaning.{IsLastOf, IsPlaceOf, IsStateOf};
ghost use Rattle.rbg_moves.specs.Starting.{start_place};

use rbg_base::{Memory, Position};
use rbg_rules::Game;
use rbg_state::{LentState, SemiState};
use std::alloc::Global;
use std::marker::Model;

/// A semi-state, and the position of the last action; none at the beginning of the rules.
#[derive(Drop)]
pub struct Place {
    pub state: SemiState,
    pub after: Option<Position>,
}

impl Model for Place {
    ghost use Rattle.rbg_rules.specs.Meaning.{AbstractPlace};

    ghost Value = { AbstractPlace };

    ghost view = { λ p. record { state = p.state.state; last = p.after } };
}

impl Place {
    /// The place where play begins.
    pub fn start(alloc: Global, game: &Game) -> Result<Place, Memory>
        ensures start { IfOk result (λ place.
            place ≡ start_place game.now) }
        ensures fits { IfOk result (λ place. IsStateOf game.now place.state) }
    {
        Ok(Place {
            state: SemiState::start(alloc, game)?,
            after: None,
        })
    }

    /// The place of these parts and this last position. None if there is no such place in the game.
    pub fn of(
        alloc: Global,
        game: &Game,
        parts: &LentState<'_>,
        after: Option<Position>,
    ) -> Result<Option<Place>, Memory>
        ensures made { IfOk result (λ found. IfSome found (λ place.
            place ≡ record { state = parts.now; last = after })) }
        ensures fits { IfOk result (λ found. IfSome found (IsPlaceOf game.now)) }
        ensures none { IfOk result (λ found. IfNone found
            (¬ IsPlaceOf game.now (record { state = parts.now; last = after }))) }
    {
        if !is_last_of(game, after) {
            return Ok(None);
        }
        match SemiState::of(alloc, game, parts)? {
            Some(state) => Ok(Some(Place { state, after })),
            None => Ok(None),
        }
    }

    /// A copy of the place, with no change to take back.
    pub fn try_clone(&self) -> Result<Place, Memory>
        ensures { IfOk result (λ copy. copy ≡ self.now) }
    {
        Ok(Place {
            state: self.state.try_clone()?,
            after: self.after,
        })
    }

    /// Becomes a copy of another place, in its own buffers. Where memory is refused, what is left of it is of no use.
    pub fn copy_from(&mut self, other: &Place) -> Result<(), Memory>
        ensures { OnOk result (self.new ≡ other.now) }
    {
        self.state.copy_from(&other.state)?;
        self.after = other.after;
        Ok(())
    }
}

/// Whether the position, if there is one, is one of the rules.
fn is_last_of(game: &Game, after: Option<Position>) -> bool
    ensures { IsTrue result ↔ IsLastOf game.now.rules after }
{
    match after {
        Some(position) => 0 < position && position as usize <= game.positions(),
        None => true,
    }
}

impl PartialEq for Place {
    ghost use Rattle.rbg_moves.specs.Equality.{is_same_place, same_place_laws};

    ghost eq = { is_same_place };

    ghost laws = { same_place_laws };

    fn eq(&self, other: &Place) -> bool {
        self.state == other.state && self.after == other.after
    }
}

impl Eq for Place {
    ghost use Rattle.rbg_moves.specs.Equality.{same_place_equiv};

    ghost laws = { same_place_equiv };
}
