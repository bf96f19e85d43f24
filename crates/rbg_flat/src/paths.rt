//! How the flat parts of a game are led on, and what they need to know of each position.
ghost use Rattle.std.specs.Prelude.{◌≡◌, ℕ, ◌+◌, ◌≤◌, ◌<◌, ◌↔◌, All, Some, length, slice_get, true, IfOk, IfSome, IfNone, IsTrue};
ghost use Rattle.rbg_rules.specs.Meaning.{AbstractGame, IsGame, IsStart, positions_of};
ghost use Rattle.rbg_shifts.specs.Leaps.{IsShiftAt};
ghost use Rattle.rbg_auto.specs.Steps.{AreNext};
ghost use Rattle.rbg_shifts.specs.Made.{AreLeapsOf};
ghost use Rattle.rbg_shifts.specs.Origin.{start_of};
ghost use Rattle.rbg_flat.specs.Onward.{IsOnward};
ghost use Rattle.rbg_flat.specs.Followers.{AreFollowers};
ghost use Rattle.rbg_flat.specs.Paths.{AreFacts, AreShown, ArePathsOf, Stays, way_by, way_if, way_of};
ghost use Rattle.rbg_flat.specs.Ways.{leaping, stepping};
ghost use Rattle.rbg_flat.specs.internal.Leading.{IsPositionIn};
ghost use Rattle.rbg_flat.specs.internal.Shown.{ShowsFacts, HasNoPieces, HasPieces, shows_shift};

use crate::followers::{Followers, StepTable};
use crate::onward::{Onward, all_onward};
use rbg_auto::{Expr, Steps};
use rbg_base::{Memory, Piece, Position, Vertex};
use rbg_rules::{Action, Game};
use rbg_shifts::{Leaps, Origin, Target, leaps};
use std::alloc::Global;

/// What a flat part does with the action at a position. The kinds that are told apart first stand first.
#[derive(Clone, Copy, Drop)]
pub(crate) enum Kind {
    /// An on of two pieces, which the facts tell: it is looked at where one of them stands.
    OnEither,
    /// A modifier: it is found, and nothing is led on from it.
    Modifier,
    /// A pattern: it is asked at each vertex.
    Pattern,
    /// Any other on: it is looked at where one of its pieces stands.
    On,
    /// A comparison: it is looked at everywhere, or nowhere where it doesn't hold.
    Comparison,
    /// A shift, or no action: nothing of this kind is met.
    Plain,
}

/// What flat parts need to know of a position. The pieces stand beside the kind, not in it: so a kind is one byte, and each
/// field is read where it is.
#[derive(Clone, Copy, Drop)]
pub(crate) struct Facts {
    /// Whether no shift comes next after it.
    pub still: bool,
    /// Whether it is an on of one piece. Most of what is met are such ons, and a flag of its own is tested before all
    /// kinds.
    pub alone: bool,
    /// Whether it is a modifier that is valid everywhere: an off or a switch.
    pub sure: bool,
    pub kind: Kind,
    /// The piece of an on of one, or the first one of two.
    pub piece: Piece,
    /// The second piece of an on of two.
    pub other: Piece,
}

/// How flat parts of a game are led on: by its leaps, or step by step. The facts of each position, from 0 on, stand with it.
pub struct Paths {
    /// The leaps of the game; none where shifts are followed one by one.
    leaps: Option<Leaps>,
    /// What comes next at each place in the rules.
    steps: StepTable,
    pub(crate) facts: Vec<Facts>,
    /// Whether a pattern stands at each position, from 0 on, whose inside begins with leaps to one vertex at each position,
    /// or with none, as far as was looked. It only tells where to look for a dead end: nothing rests on it. It is kept
    /// apart, so that the facts of a position stay one word.
    narrow: Vec<bool>,
    /// Whether such a pattern stands at each position, from 0 on, and ons, comparisons and shifts alone stand inside it. It
    /// only tells where a walk may be worth while.
    plain: Vec<bool>,
    /// What comes next after each position, from 0 on, where it is one modifier alone.
    pub(crate) onward: Vec<Onward>,
}

/// Written out, so that letting them go is one call in the proofs of those who hold them, not a step for each part.
impl Drop for Paths {
    fn drop(self) {
        let Paths {
            leaps: _,
            steps: _,
            facts: _,
            narrow: _,
            plain: _,
            onward: _,
        } = self;
    }
}

impl Paths {
    /// The paths of a game, by the steps of its rules. A game that is too large has no leaps: there shifts are followed one by
    /// one.
    pub fn new<S: Steps>(alloc: Global, game: &Game, steps: &S) -> Result<Paths, Memory>
        requires { S.of_rules steps.now game.now.rules }
        ensures { IfOk result (ArePathsOf game.now) }
    {
        let leaps = leaps(alloc, game, steps)?;
        Paths::led_by(alloc, game, steps, leaps)
    }

    /// As `new`, with no leaps: shifts are followed one by one, whatever the size of the game.
    pub fn stepwise<S: Steps>(alloc: Global, game: &Game, steps: &S) -> Result<Paths, Memory>
        requires { S.of_rules steps.now game.now.rules }
        ensures { IfOk result (ArePathsOf game.now) }
    {
        Paths::led_by(alloc, game, steps, None)
    }

    /// The paths of a game with these leaps, if there are any.
    fn led_by<S: Steps>(
        alloc: Global,
        game: &Game,
        steps: &S,
        leaps: Option<Leaps>,
    ) -> Result<Paths, Memory>
        requires steps { S.of_rules steps.now game.now.rules }
        requires leaps { IfSome leaps (AreLeapsOf game.now) }
        ensures { IfOk result (ArePathsOf game.now) }
    {
        let table = StepTable::new(alloc, game, steps)?;
        let facts = all_facts(alloc, game, steps, &leaps)?;
        let narrow = all_narrow(alloc, game, &leaps)?;
        let plain = all_plain(alloc, game, steps, &facts, &narrow)?;
        let onward = all_onward(alloc, game, steps)?;
        Ok(Paths {
            leaps,
            steps: table,
            facts,
            narrow,
            plain,
            onward,
        })
    }

    /// The leaps of the game, where there are any.
    #[inline(always)]
    pub(crate) fn leaps(&self) -> Option<&Leaps>
        ensures some { IfSome result (λ leaps. (way_of self.now ≡ leaping)
            × ((game : AbstractGame) → ArePathsOf game self.now → AreLeapsOf game leaps.now)) }
        ensures none { IfNone result (way_of self.now ≡ stepping) }
    {
        match &self.leaps {
            Some(leaps) => Some(leaps),
            None => None,
        }
    }

    /// Whether flat parts are led on by leaps. Else shifts are met one by one.
    #[inline(always)]
    pub fn has_leaps(&self) -> bool {
        has_leaps(&self.leaps)
    }

    /// What comes next at a place in the rules.
    #[inline(always)]
    pub(crate) fn followers(&self, game: &Game, origin: Origin) -> &Followers
        requires paths { ArePathsOf game.now self.now }
        requires stands { IsStart game.now.rules (start_of origin) }
        ensures { AreFollowers game.now (start_of origin) result.now }
    {
        self.steps.at(game, origin)
    }

    /// The facts of a position. They are lent, since a copy would be read as one word, from which each field is cut.
    #[inline(always)]
    pub(crate) fn facts(&self, game: &Game, position: Position) -> &Facts
        requires paths { ArePathsOf game.now self.now }
        requires there { position ≤ length (positions_of game.now.rules) }
        ensures { AreFacts (way_of self.now) game.now position result.now }
    {
        &self.facts[position as usize]
    }

    /// What comes next after a position, where it is one modifier alone.
    #[inline(always)]
    pub fn onward(&self, position: Position) -> Onward
        ensures { (game : AbstractGame) → ArePathsOf game self.now
            → IsOnward game.rules position result }
    {
        match self.onward.get(position as usize) {
            Some(onward) => *onward,
            None => Onward::Unknown,
        }
    }

    /// Whether to look for a dead end in the pattern at a position.
    #[inline(always)]
    pub fn is_narrow(&self, position: Position) -> bool {
        flag_at(&self.narrow, position)
    }

    /// Whether to walk through the pattern at a position.
    #[inline(always)]
    pub(crate) fn is_plain(&self, position: Position) -> bool {
        flag_at(&self.plain, position)
    }
}

/// The facts of each position, from 0 on.
fn all_facts<S: Steps>(
    alloc: Global,
    game: &Game,
    steps: &S,
    leaps: &Option<Leaps>,
) -> Result<Vec<Facts>, Memory>
    requires { S.of_rules steps.now game.now.rules }
    ensures all { IfOk result (λ facts.
        length facts.items ≡ length (positions_of game.now.rules) + 1) }
    ensures told { IfOk result (λ facts. (p : ℕ) (told : Facts)
        → slice_get facts.items p ≡ Some told → AreFacts (way_by leaps.now) game.now p told) }
{
    let count = game.positions() + 1;
    let mut facts = Vec::with_capacity(alloc, count)?;
    let leaping = has_leaps(leaps);
    for index in 0..count {
        let position = index as Position;
        facts.push(facts_at(game, position, steps.next(position), leaping))?;
    }
    Ok(facts)
}

/// Whether there are leaps.
fn has_leaps(leaps: &Option<Leaps>) -> bool
    ensures { way_by leaps.now ≡ way_if result }
{
    match leaps {
        Some(_) => true,
        None => false,
    }
}

/// The flag of a position; false where there is none.
#[inline(always)]
fn flag_at(flags: &[bool], position: Position) -> bool {
    match flags.get(position as usize) {
        Some(flag) => *flag,
        None => false,
    }
}

/// Whether the inside of a pattern is narrow at its beginning, for each position, from 0 on.
fn all_narrow(alloc: Global, game: &Game, leaps: &Option<Leaps>) -> Result<Vec<bool>, Memory> {
    let count = game.positions() + 1;
    let mut narrow = vec![in alloc; false; count]?;
    let Some(leaps) = leaps else {
        return Ok(narrow);
    };
    for index in 1..count {
        let position = index as Position;
        narrow[index] = game.is_pattern(position) && is_narrow_inside(game, leaps, position);
    }
    Ok(narrow)
}

/// Whether the inside of a pattern begins with leaps to one vertex at each position, or with none. The first vertex is
/// looked at from which there are some.
fn is_narrow_inside(game: &Game, leaps: &Leaps, pattern: Position) -> bool {
    let origin = Origin::Begin(Expr::Inside(pattern));
    for vertex in 0..game.board().len() {
        let (targets, _) = leaps.leads(origin, vertex as Vertex);
        if !targets.is_empty() {
            return are_single(targets);
        }
    }
    true
}

/// Whether a narrow pattern stands at each position, from 0 on, with ons, comparisons and shifts alone inside it.
fn all_plain<S: Steps>(
    alloc: Global,
    game: &Game,
    steps: &S,
    facts: &[Facts],
    narrow: &[bool],
) -> Result<Vec<bool>, Memory> {
    let count = game.positions() + 1;
    let mut plain = vec![in alloc; false; count]?;
    let mut comes = vec![in alloc; false; count]?;
    for index in 1..count {
        let position = index as Position;
        if flag_at(narrow, position) {
            plain[index] = is_plain_inside(steps, facts, position, comes.as_mut_slice());
        }
    }
    Ok(plain)
}

/// Whether ons, comparisons and shifts alone stand inside a pattern. What comes next is noted in a list of no notes, and
/// is looked at in order of positions; the notes are taken off again.
fn is_plain_inside<S: Steps>(
    steps: &S,
    facts: &[Facts],
    pattern: Position,
    comes: &mut [bool],
) -> bool {
    let mut plain = true;
    let mut last = note(comes, steps.first(Expr::Inside(pattern)));
    for index in pattern as usize..facts.len() {
        if index > last {
            break;
        }
        let Ok(position) = Position::try_from(index) else {
            break;
        };
        if index < comes.len() && comes[index] {
            comes[index] = false;
            plain = plain && !is_inner(&facts[index]);
            last = last.max(note(comes, steps.next(position)));
        }
    }
    plain
}

/// Notes positions. Returns the greatest of them.
fn note(comes: &mut [bool], positions: &[Position]) -> usize {
    let mut last = 0;
    for position in positions {
        let index = *position as usize;
        if index < comes.len() {
            comes[index] = true;
            last = last.max(index);
        }
    }
    last
}

/// Whether a modifier or a pattern stands at a position of which these are the facts.
fn is_inner(facts: &Facts) -> bool {
    matches!(facts.kind, Kind::Modifier | Kind::Pattern)
}

/// Whether each target has one vertex.
fn are_single(targets: &[Target]) -> bool {
    for target in targets {
        if target.word.count_ones() > 1 {
            return false;
        }
    }
    true
}

/// The facts of a position, after which these come next, if flat parts are led on by leaps or step by step. No action
/// stands at position 0.
fn facts_at(game: &Game, position: Position, next: &[Position], leaping: bool) -> Facts
    requires lawful { IsGame game.now }
    requires there { position ≤ length (positions_of game.now.rules) }
    requires next { AreNext game.now.rules position next.now }
    ensures still { IsTrue result.still → Stays (way_if leaping) game.now.rules position }
    ensures shown { AreShown game.now.rules position result }
{
    if position == 0 {
        return plain_facts(false, Kind::Plain, false);
    }
    let still = stays(game, position, next, leaping);
    facts_of(game.action(position), still)
}

/// Whether one is led on from the same vertex where a position holds, after which these come next.
fn stays(game: &Game, position: Position, next: &[Position], leaping: bool) -> bool
    requires lawful { IsGame game.now }
    requires position { IsPositionIn game.now position }
    requires next { AreNext game.now.rules position next.now }
    ensures { IsTrue result → Stays (way_if leaping) game.now.rules position }
{
    if leaping {
        no_shift(game, next)
    } else {
        !is_shift(game, position)
    }
}

/// The facts of an action.
fn facts_of(action: &Action, still: bool) -> Facts
    ensures still { result.still ≡ still }
    ensures shown { ShowsFacts action.now result }
{
    match action {
        Action::Off { .. } | Action::Switch { .. } => plain_facts(still, Kind::Modifier, true),
        Action::Assign { .. } => plain_facts(still, Kind::Modifier, false),
        Action::Positive | Action::Negative => plain_facts(still, Kind::Pattern, false),
        Action::On { pieces } => facts_of_on(pieces, still),
        Action::Compare { .. } => plain_facts(still, Kind::Comparison, false),
        Action::Shift { .. } => plain_facts(still, Kind::Plain, false),
    }
}

/// The facts of an action of this kind, of which no pieces are told.
fn plain_facts(still: bool, kind: Kind, sure: bool) -> Facts
    ensures still { result.still ≡ still }
    ensures shown { HasNoPieces kind sure result }
{
    Facts {
        still,
        alone: false,
        sure,
        kind,
        piece: 0,
        other: 0,
    }
}

/// The facts of an on of these pieces.
fn facts_of_on(pieces: &[Piece], still: bool) -> Facts
    ensures still { result.still ≡ still }
    ensures shown { HasPieces pieces.now result }
{
    match pieces {
        [piece] => Facts {
            still,
            alone: true,
            sure: false,
            kind: Kind::On,
            piece: *piece,
            other: 0,
        },
        [piece, other] => Facts {
            still,
            alone: false,
            sure: false,
            kind: Kind::OnEither,
            piece: *piece,
            other: *other,
        },
        _ => plain_facts(still, Kind::On, false),
    }
}

/// Whether no shift stands at these positions.
fn no_shift(game: &Game, positions: &[Position]) -> bool
    requires lawful { IsGame game.now }
    requires within { All (IsPositionIn game.now) positions.now }
    ensures { IsTrue result → All (λ q. ¬ IsShiftAt game.now.rules q) positions.now }
{
    for position in positions {
        if is_shift(game, *position) {
            return false;
        }
    }
    true
}

/// Whether a shift stands at a position.
pub fn is_shift(game: &Game, position: Position) -> bool
    requires lawful { IsGame game.now }
    requires position { IsPositionIn game.now position }
    ensures { IsTrue result ↔ IsShiftAt game.now.rules position }
{
    shifts(game.action(position))
}

/// Whether the action is a shift.
fn shifts(action: &Action) -> bool
    ensures { result ≡ shows_shift action.now }
{
    matches!(action, Action::Shift { .. })
}
