//! A legal move that is drawn by chance, without a list of all.
ghost use Rattle.std.specs.Prelude.{◌≡◌, ◌<◌, ◌≤◌, [], length, All, IfOk, OnOk, Some, true};
ghost use Rattle.rbg_base.specs.Move.{IsMoveLength, most_pairs};
ghost use Rattle.rbg_rules.specs.Meaning.{IsLegal, IsPlaceOf, IsStateOf, point_of};
ghost use Rattle.rbg_state.specs.History.{IsAfter};
ghost use Rattle.rbg_moves.specs.internal.Drawing.{ComesNext, Follows};
ghost use Rattle.rbg_moves.specs.internal.Stepping.{place_beyond};

use crate::asking::{is_switch, origin_after, search_in};
use crate::place::Place;
use crate::played::PlayedGame;
use crate::stepping::apply_at;
use crate::tickets::{deal, owner, pick};
use crate::weights::Weights;
use crate::workspace::{Draws, Workspace};
use rand_core::Rng;
use rand_pcg::Pcg32;
use rbg_auto::Steps;
use rbg_base::{MAX_PAIRS, Memory, Pair, Position};
use rbg_search::{Over, Search};
use rbg_state::SemiState;

/// How often a ticket is drawn before all moves are to be listed.
const MOST_DRAWS: u32 = 48;

/// What becomes of a ticket.
#[derive(Clone, Copy, Drop)]
pub(crate) enum Drawn {
    /// It is that of a legal move, whose pairs are left in the front.
    Move,
    /// It is that of no move. At most so many moves go on after the modifier whose it was.
    Blank(u64),
}

impl PlayedGame {
    /// Draws a legal move by chance, and leaves its pairs in the front of the workspace. Returns whether one was drawn.
    ///
    /// There are at least as many tickets as legal moves, as the weights say that `weigh` made, and each legal move has one.
    /// So each has the same chances. Tickets of no move are drawn in vain. After too many of them, where the weights aren't
    /// known, and where a question is too heavy, no move is drawn, and nothing is said: the moves are to be listed.
    pub fn draw_move(
        &self,
        place: &mut Place,
        chance: &mut Pcg32,
        workspace: &mut Workspace,
    ) -> Result<bool, Memory>
        requires place { IsPlaceOf self.now place.old }
        ensures legal { IfOk result (λ drawn. drawn ≡ true
            → IsLegal self.now place.old workspace.new.front.items) }
        ensures sized { IfOk result (λ drawn. drawn ≡ true
            → IsMoveLength (length workspace.new.front.items)) }
        ensures kept { place.new ≡ place.old }
    {
        let Some(weights) = self.weights() else {
            return Ok(false);
        };
        if !weights.are_useful(place.after) {
            return Ok(false);
        }
        workspace.front.clear();
        let mark = place.state.mark();
        let mut search = search_in(self.alloc(), self.rules(), &mut workspace.buffers);
        let drawn = draw(
            &mut search,
            weights,
            &mut place.state,
            &mut workspace.front,
            &mut workspace.draws,
            place.after,
            chance,
        );
        place.state.undo_to(mark);
        match drawn {
            Ok(drawn) => Ok(drawn),
            Err(Over::Memory) => Err(Memory),
            Err(Over::Deep | Over::Wide) => Ok(false),
        }
    }
}

/// Draws a legal move, as `draw_move` says.
fn draw<S: Steps>(
    search: &mut Search<'_, S>,
    weights: &Weights,
    state: &mut SemiState,
    front: &mut Vec<Pair>,
    draws: &mut Draws,
    after: Option<Position>,
    chance: &mut Pcg32,
) -> Result<bool, Over>
    requires place { IsPlaceOf search.old.game (record { state = state.old.state; last = after }) }
    requires none { front.old.items ≡ [] }
    ensures legal { IfOk result (λ drawn. drawn ≡ true
        → IsLegal search.old.game (record { state = state.old.state; last = after }) front.new.items) }
    ensures sized { IfOk result (λ drawn. drawn ≡ true → IsMoveLength (length front.new.items)) }
    ensures after { IsAfter state.old state.new }
{
    find_next(search, state, after, &mut draws.first)?;
    let Some(mut total) = deal(weights, &draws.first, &mut draws.tickets)? else {
        return Ok(false);
    };
    for _ in 0..MOST_DRAWS {
        if total == 0 {
            return Ok(false);
        }
        let Some(owned) = owner(&draws.tickets, chance.next_u64() % total) else {
            return Ok(false);
        };
        let Some(pair) = draws.first.get(owned.index) else {
            return Ok(false);
        };
        let pair = *pair;
        match draw_after(
            search,
            weights,
            state,
            front,
            &mut draws.next,
            after,
            pair,
            owned.rest,
        )? {
            Drawn::Move => return Ok(true),
            Drawn::Blank(moves) => {
                // what is known now of the modifier holds for the next tickets
                total = total
                    .saturating_sub(draws.tickets[owned.index])
                    .saturating_add(moves);
                draws.tickets[owned.index] = moves;
            }
        }
    }
    Ok(false)
}

/// Goes on by a ticket from after a modifier that was applied.
#[cycle(draw)]
fn draw_on<S: Steps>(
    search: &mut Search<'_, S>,
    weights: &Weights,
    state: &mut SemiState,
    front: &mut Vec<Pair>,
    list: &mut Vec<Pair>,
    after: Position,
    ticket: u64,
) -> Result<Drawn, Over>
    requires place { IsPlaceOf search.old.game (place_beyond state.old.state after) }
    requires short { length front.old.items < most_pairs }
    ensures search { search.new ≡ record search.old { opened = search.new.opened; taken = search.new.taken } }
    ensures follows { IfOk result (Follows search.old.game (Some after) state.old state.new
        front.old.items front.new.items) }
    ensures after { IsAfter state.old state.new }
{
    find_next(search, state, Some(after), list)?;
    let picked = pick(weights, list, ticket);
    let Some(owned) = picked.owned else {
        return Ok(Drawn::Blank(picked.moves));
    };
    let Some(pair) = list.get(owned.index) else {
        return Ok(Drawn::Blank(picked.moves));
    };
    let pair = *pair;
    match draw_after(
        search,
        weights,
        state,
        front,
        list,
        Some(after),
        pair,
        owned.rest,
    )? {
        Drawn::Move => Ok(Drawn::Move),
        Drawn::Blank(_) => Ok(Drawn::Blank(picked.moves)),
    }
}

/// Goes on by a ticket with a modifier that comes next.
#[cycle(draw)]
fn draw_after<S: Steps>(
    search: &mut Search<'_, S>,
    weights: &Weights,
    state: &mut SemiState,
    front: &mut Vec<Pair>,
    list: &mut Vec<Pair>,
    _after: Option<Position>,
    pair: Pair,
    ticket: u64,
) -> Result<Drawn, Over>
    requires fits { IsStateOf search.old.game state.old.state }
    requires next { ComesNext search.old.game state.old.state (point_of _after) pair }
    requires room { 2 ≤ state.old.room }
    requires short { length front.old.items < most_pairs }
    ensures search { search.new ≡ record search.old { opened = search.new.opened; taken = search.new.taken } }
    ensures follows { IfOk result (Follows search.old.game _after state.old state.new
        front.old.items front.new.items) }
    ensures after { IsAfter state.old state.new }
{
    let game = search.game();
    let before = front.len();
    front.push(pair)?;
    if is_switch(game, pair.position) {
        return Ok(Drawn::Move);
    }
    if front.len() == MAX_PAIRS {
        front.truncate(before);
        return Ok(Drawn::Blank(0));
    }
    let mark = state.mark();
    apply_at(game, state, pair);
    match draw_on(search, weights, state, front, list, pair.position, ticket)? {
        Drawn::Move => Ok(Drawn::Move),
        Drawn::Blank(moves) => {
            state.undo_to(mark);
            front.truncate(before);
            Ok(Drawn::Blank(moves))
        }
    }
}

/// Finds the modifiers that come next, in place of what the list held. The semi-state is given back.
fn find_next<S: Steps>(
    search: &mut Search<'_, S>,
    state: &mut SemiState,
    after: Option<Position>,
    list: &mut Vec<Pair>,
) -> Result<(), Over>
    requires place { IsPlaceOf search.old.game (record { state = state.old.state; last = after }) }
    ensures search { search.new ≡ record search.old { opened = search.new.opened; taken = search.new.taken } }
    ensures given_back { state.new ≡ record state.old { room = state.new.room } }
    ensures no_less { state.old.room ≤ state.new.room }
    ensures enough { OnOk result (2 ≤ state.new.room) }
    ensures next { OnOk result (All (ComesNext search.old.game state.old.state (point_of after))
        list.new.items) }
{
    // The game is lawful.
    let _game = search.game();
    let mut pairs = search.take_list();
    search.reach_into(state, origin_after(after), &mut pairs)?;
    let written = pairs.write_to(list);
    search.keep_list(pairs);
    Ok(written?)
}
