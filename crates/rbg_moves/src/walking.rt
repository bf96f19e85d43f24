//! The walk over the modifiers of moves, by which some move is found, or all are listed.
ghost use Rattle.std.specs.Prelude.{◌≡◌, ◌-◌, ◌<◌, ◌≤◌, ◌∷◌, [], ◌++◌, length, All, IfOk, Err, Some, false};
ghost use Rattle.rbg_base.specs.Move.{most_pairs};
ghost use Rattle.rbg_rules.specs.Meaning.{IsGame, point_of, IsPlaceOf, IsStateOf, after};
ghost use Rattle.rbg_search.specs.Start.{IsPositionOf};
ghost use Rattle.rbg_state.specs.History.{IsAfter};
ghost use Rattle.rbg_moves.specs.internal.Asking.{question_of, IsGivenUp};
ghost use Rattle.rbg_moves.specs.internal.Gathering.{AddsMove, IsWalked, ListsSwitches, LeavesOthers};
ghost use Rattle.rbg_moves.specs.internal.Stepping.{place_beyond, Beyond, IsValidAt};

use crate::asking::origin_after;
use crate::line::follow_line;
use crate::stepping::apply_at;
use rbg_auto::Steps;
use rbg_base::{MAX_PAIRS, MoveList, Pair, Position};
use rbg_flat::Modifiers;
use rbg_rules::Game;
use rbg_search::{Over, Search};
use rbg_state::SemiState;

/// The moves that a walk has found. It ends with the first move for which there is no room in the list: the pairs of that
/// move are then left in the front.
#[derive(Drop)]
pub(crate) struct Found {
    pub moves: MoveList,
    /// How many moves the list may hold.
    pub max: usize,
}

impl Found {
    /// Takes the switches out of these modifiers, by vertex and then by position, and adds the move of each after the
    /// front. Tells whether there is one more than there is room for: its switch is then the last pair of the front.
    fn add_switches(
        &mut self,
        game: &Game,
        pairs: &mut Modifiers,
        front: &mut Vec<Pair>,
    ) -> Result<bool, Over>
        requires lawful { IsGame game.now }
        requires within { All (λ pair. IsPositionOf game.now.rules pair.1) pairs.old }
        requires short { length front.old.items < most_pairs }
        requires few { length self.old.moves ≤ self.old.max }
        ensures max { self.new.max ≡ self.old.max }
        ensures lists { IfOk result (λ cut. ListsSwitches game.now pairs.old pairs.old
            front.old.items self.old.max self.old.moves self.new.moves front.new.items cut) }
        ensures front { IfOk result (λ cut. cut ≡ false → front.new.items ≡ front.old.items) }
        ensures others { IfOk result (λ cut. cut ≡ false
            → LeavesOthers game.now.rules pairs.old pairs.new) }
        ensures over { (over : Over) → result ≡ Err over → over ≡ Over.Memory }
    {
        while let Some(pair) = pairs.take_switch(game) {
            if self.add(front, pair)? {
                return Ok(true);
            }
        }
        Ok(false)
    }

    /// Adds the move of the front and one more pair. Where there is no room for it, the pair is added to the front, and the
    /// answer is true.
    #[inline(always)]
    fn add(&mut self, front: &mut Vec<Pair>, pair: Pair) -> Result<bool, Over>
        requires short { length front.old.items < most_pairs }
        requires few { length self.old.moves ≤ self.old.max }
        ensures max { self.new.max ≡ self.old.max }
        ensures adds { IfOk result (AddsMove self.old.max self.old.moves self.new.moves
            front.old.items front.new.items pair) }
        ensures over { (over : Over) → result ≡ Err over → over ≡ Over.Memory }
    {
        if self.moves.len() == self.max {
            front.push(pair)?;
            return Ok(true);
        }
        self.moves.push(front, pair)?;
        Ok(false)
    }
}

/// Finds the moves that go on from here, and adds each of them after the front: first those of one switch, then those
/// after each other modifier, both by vertex and then by position. Ends with the first one for which there is no room,
/// and tells whether there is one: then its pairs are left in the front, and the semi-state where its modifiers but the
/// last led.
#[cycle(walk)]
pub(crate) fn walk<S: Steps>(
    search: &mut Search<'_, S>,
    state: &mut SemiState,
    front: &mut Vec<Pair>,
    found: &mut Found,
    after: Option<Position>,
) -> Result<bool, Over>
    requires place { IsPlaceOf search.old.game (record { state = state.old.state; last = after }) }
    requires short { length front.old.items < most_pairs }
    requires few { length found.old.moves ≤ found.old.max }
    ensures search { search.new ≡ record search.old { opened = search.new.opened; taken = search.new.taken } }
    ensures state { IfOk result (λ ended. ended ≡ false
        → (state.new ≡ record state.old { room = state.new.room })) }
    ensures room { IfOk result (λ ended. ended ≡ false → state.old.room ≤ state.new.room) }
    ensures after { IsAfter state.old state.new }
    ensures front { IfOk result (λ ended. ended ≡ false → front.new.items ≡ front.old.items) }
    ensures max { found.new.max ≡ found.old.max }
    ensures walked { IfOk result (IsWalked search.old search.new
        (record { state = state.old.state; last = after }) front.old.items
        found.old.max found.old.moves found.new.moves front.new.items) }
    ensures given_up { IsGivenUp search.old (question_of found.old.max)
        state.old.state (point_of after) (most_pairs - length front.old.items)
        (result ≡ Err Over.Deep) (result ≡ Err Over.Wide) }
{
    let game = search.game();
    let origin = origin_after(after);
    let mut pairs = search.take_list();
    search.reach_flat(state, origin, &mut pairs)?;
    if found.add_switches(game, &mut pairs, front)? {
        search.keep_list(pairs);
        return Ok(true);
    }
    while let Some(pair) = pairs.take_least() {
        let ended = walk_after(search, state, front, found, pair)?;
        if ended {
            search.keep_list(pairs);
            return Ok(true);
        }
    }
    search.keep_list(pairs);
    Ok(false)
}

/// Finds the moves after a modifier that comes next, as `walk` does. Where the walk doesn't end early, the modifier is taken
/// back.
#[cycle(walk)]
fn walk_after<S: Steps>(
    search: &mut Search<'_, S>,
    state: &mut SemiState,
    front: &mut Vec<Pair>,
    found: &mut Found,
    pair: Pair,
) -> Result<bool, Over>
    requires fits { IsStateOf search.old.game state.old.state }
    requires valid { IsValidAt search.old.game state.old.state pair.0 pair.1 }
    requires room { 2 ≤ state.old.room }
    requires short { length front.old.items < most_pairs }
    requires few { length found.old.moves ≤ found.old.max }
    ensures search { search.new ≡ record search.old { opened = search.new.opened; taken = search.new.taken } }
    ensures state { IfOk result (λ ended. ended ≡ false
        → (state.new ≡ record state.old { room = state.new.room })) }
    ensures room { IfOk result (λ ended. ended ≡ false → state.old.room ≤ state.new.room) }
    ensures after { IsAfter state.old state.new }
    ensures front { IfOk result (λ ended. ended ≡ false → front.new.items ≡ front.old.items) }
    ensures max { found.new.max ≡ found.old.max }
    ensures walked { IfOk result (λ ended. Beyond search.old.game state.old.state pair (λ later.
        IsWalked search.old search.new (place_beyond later pair.1) (front.old.items ++ pair ∷ [])
        found.old.max found.old.moves found.new.moves front.new.items ended)) }
    ensures given_up { Beyond search.old.game state.old.state pair (λ later.
        IsGivenUp search.old (question_of found.old.max) later (after pair.1)
        (most_pairs - length (front.old.items ++ pair ∷ []))
        (result ≡ Err Over.Deep) (result ≡ Err Over.Wide)) }
{
    let game = search.game();
    if front.len() + 1 == MAX_PAIRS {
        return Err(Over::Deep);
    }
    let mark = state.mark();
    apply_at(game, state, pair);
    front.push(pair)?;
    if walk_on(search, state, front, found, pair.position)? {
        return Ok(true);
    }
    front.pop();
    state.undo_to(mark);
    Ok(false)
}

/// Finds the moves after a modifier that was applied, as `walk` does: it goes along the straight line first that begins
/// there. Where the walk doesn't end early, the line is taken back.
#[cycle(walk)]
fn walk_on<S: Steps>(
    search: &mut Search<'_, S>,
    state: &mut SemiState,
    front: &mut Vec<Pair>,
    found: &mut Found,
    after: Position,
) -> Result<bool, Over>
    requires place { IsPlaceOf search.old.game (place_beyond state.old.state after) }
    requires short { length front.old.items < most_pairs }
    requires few { length found.old.moves ≤ found.old.max }
    ensures search { search.new ≡ record search.old { opened = search.new.opened; taken = search.new.taken } }
    ensures state { IfOk result (λ ended. ended ≡ false
        → (state.new ≡ record state.old { room = state.new.room })) }
    ensures room { IfOk result (λ ended. ended ≡ false → state.old.room ≤ state.new.room) }
    ensures after { IsAfter state.old state.new }
    ensures front { IfOk result (λ ended. ended ≡ false → front.new.items ≡ front.old.items) }
    ensures max { found.new.max ≡ found.old.max }
    ensures walked { IfOk result (IsWalked search.old search.new (place_beyond state.old.state after)
        front.old.items found.old.max found.old.moves found.new.moves front.new.items) }
    ensures given_up { IsGivenUp search.old (question_of found.old.max)
        state.old.state (point_of (Some after)) (most_pairs - length front.old.items)
        (result ≡ Err Over.Deep) (result ≡ Err Over.Wide) }
{
    let mark = state.mark();
    let before = front.len();
    let end = follow_line(search, state, front, after)?;
    if let Some(position) = end.switch {
        let vertex = state.vertex();
        if found.add(front, Pair { vertex, position })? {
            return Ok(true);
        }
        front.truncate(before);
        state.undo_to(mark);
        return Ok(false);
    }
    if walk(search, state, front, found, Some(end.last))? {
        return Ok(true);
    }
    front.truncate(before);
    state.undo_to(mark);
    Ok(false)
}
