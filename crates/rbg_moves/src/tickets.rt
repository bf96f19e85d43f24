//! Whose a ticket is that was drawn by chance.
ghost use Rattle.std.specs.Prelude.{◌<◌, length, IfSome};

use crate::weights::Weights;
use rbg_base::{Memory, Pair};

/// A ticket that has an owner.
#[derive(Clone, Copy, Drop)]
pub(crate) struct Owned {
    /// Which of the modifiers it belongs to.
    pub index: usize,
    /// How many of this one's tickets come before it.
    pub rest: u64,
}

/// How many tickets some modifiers have, and whose the drawn one is, if it is somebody's.
#[derive(Clone, Copy, Drop)]
pub(crate) struct Picked {
    pub moves: u64,
    pub owned: Option<Owned>,
}

/// The tickets of each of these modifiers, in place of what the list held. Returns how many there are; none where a weight
/// isn't known.
pub(crate) fn deal(
    weights: &Weights,
    pairs: &[Pair],
    tickets: &mut Vec<u64>,
) -> Result<Option<u64>, Memory> {
    tickets.clear();
    let mut total = 0_u64;
    for pair in pairs {
        let Some(weight) = weights.of(*pair) else {
            return Ok(None);
        };
        tickets.push(u64::from(weight))?;
        total = total.saturating_add(u64::from(weight));
    }
    Ok(Some(total))
}

/// Whose a ticket is, of modifiers that have so many each.
pub(crate) fn owner(tickets: &[u64], ticket: u64) -> Option<Owned>
    ensures { IfSome result (λ owned. owned.index < length tickets.now) }
{
    let mut rest = ticket;
    for index in 0..tickets.len() {
        if rest < tickets[index] {
            return Some(Owned { index, rest });
        }
        rest -= tickets[index];
    }
    None
}

/// Whose a ticket is, of modifiers that have as many as they weigh.
pub(crate) fn pick(weights: &Weights, pairs: &[Pair], ticket: u64) -> Picked {
    let mut moves = 0_u64;
    let mut owned = None;
    for index in 0..pairs.len() {
        let Some(weight) = weights.of(pairs[index]) else {
            return Picked {
                moves: 0,
                owned: None,
            };
        };
        let next = moves.saturating_add(u64::from(weight));
        if moves <= ticket && ticket < next {
            owned = Some(Owned {
                index,
                rest: ticket - moves,
            });
        }
        moves = next;
    }
    Picked { moves, owned }
}
