//! At which vertices what is met is to be looked at, and at which it passes: it is no modifier, and valid there.
ghost use Rattle.std.specs.Prelude.{◌≡◌, ◌<◌, ◌≤◌, ◌↔◌, ◌+◌, ◌*◌, [], ◌∷◌, ℕ, length, slice_get, Some, IsTrue};
ghost use Rattle.std.specs.Int.{bit_at};
ghost use Rattle.rbg_rules.specs.Meaning.{shift, HasAction, IsGame, IsPatternAt, positions_of, IsStateOf};
ghost use Rattle.rbg_shifts.specs.Limits.{row_words};
ghost use Rattle.rbg_flat.specs.Chains.{Holds};
ghost use Rattle.rbg_flat.specs.Paths.{ArePathsOf, IsKind};
ghost use Rattle.rbg_flat.specs.declared.paths.Kind.TheVariants.{On, Comparison};
ghost use Rattle.rbg_flat.specs.internal.Passing.{IsOneOf, IsToTry};
ghost use Rattle.rbg_flat.specs.internal.Leading.{IsOnBoard, IsPositionIn};
ghost use Rattle.rbg_flat.specs.internal.Setting.{IsLawfulSetting, IsToTryIn};

use crate::flat::{direction_of, edge};
use crate::paths::{Kind, Paths};
use crate::setting::Setting;
use crate::words::{RowWord, full_word, lowest, unit_word, without};
use rbg_base::{Direction, Piece, Position, Vertex};
use rbg_rules::{Action, Game};
use rbg_state::{SemiState, Trial};

/// The bits of a column at whose vertices what is met at a position is to be looked at: all for a pattern, none for a
/// modifier, for an on those on which one of its pieces stands, and for a comparison all or none, as it holds.
#[inline(always)]
pub(crate) fn to_try(setting: &Setting, position: Position, column: usize) -> u64
    requires set { IsLawfulSetting setting.now }
    requires position { IsPositionIn setting.now.game.now position }
    requires column { column < row_words setting.now.game.now }
    ensures { (b : ℕ) → b < 64 → (bit_at result b ≡ 1)
        ↔ IsToTryIn setting.now (column * 64 + b) position }
{
    let facts = setting.paths.facts(setting.game, position);
    // most of what is met are ons of one piece; a fourth test of the kind would become a jump table
    if facts.alone {
        return standing(setting.state, facts.piece, column);
    }
    if let Kind::Modifier = facts.kind {
        return 0;
    }
    if let Kind::OnEither = facts.kind {
        return either_standing(setting.state, facts.piece, facts.other, column);
    }
    if let Kind::Pattern = facts.kind {
        return full_word();
    }
    any_to_try(setting.game, setting.paths, setting.state, position, column)
}

/// The same for an action of any kind. The kind is read again, since to hand it over would cost each word that is met.
#[inline(never)]
fn any_to_try(
    game: &Game,
    paths: &Paths,
    state: &SemiState,
    position: Position,
    column: usize,
) -> u64
    requires lawful { IsGame game.now }
    requires paths { ArePathsOf game.now paths.now }
    requires fits { IsStateOf game.now state.now.state }
    requires position { IsPositionIn game.now position }
    requires column { column < row_words game.now }
    ensures { (b : ℕ) → b < 64 → (bit_at result b ≡ 1)
        ↔ IsToTry game.now state.now.state (column * 64 + b) position }
{
    match paths.facts(game, position).kind {
        Kind::Modifier => 0,
        Kind::Pattern | Kind::Plain => full_word(),
        Kind::Comparison => comparison_to_try(game, state, position),
        Kind::On | Kind::OnEither => on_to_try(game, state, position, column),
    }
}

/// All bits where the comparison at a position holds, else none. Where it holds at one vertex, it holds at each.
fn comparison_to_try(game: &Game, state: &SemiState, position: Position) -> u64
    requires lawful { IsGame game.now }
    requires fits { IsStateOf game.now state.now.state }
    requires position { IsPositionIn game.now position }
    requires stands { IsKind game.now.rules position Comparison }
    ensures { (v b : ℕ) → b < 64 → (bit_at result b ≡ 1)
        ↔ IsToTry game.now state.now.state v position }
{
    if passes_at(game, state, state.vertex(), position) {
        full_word()
    } else {
        0
    }
}

/// The bits of a column on whose vertices one of the pieces of the on at a position stands. It isn't inlined, since what
/// it needs of the stack would be taken for each comparison too.
#[inline(never)]
fn on_to_try(game: &Game, state: &SemiState, position: Position, column: usize) -> u64
    requires lawful { IsGame game.now }
    requires position { IsPositionIn game.now position }
    requires column { column * 64 < length state.now.state.pieces }
    requires stands { IsKind game.now.rules position On }
    ensures { (b : ℕ) → b < 64 → (bit_at result b ≡ 1)
        ↔ IsToTry game.now state.now.state (column * 64 + b) position }
{
    match game.action(position) {
        Action::On { pieces } => any_standing(state, pieces, column),
        // never: an on stands there
        _ => 0,
    }
}

/// The bits of a column on whose vertices one of these pieces stands.
fn any_standing(state: &SemiState, pieces: &[Piece], column: usize) -> u64
    requires { column * 64 < length state.now.state.pieces }
    ensures { (b : ℕ) → b < 64 → (bit_at result b ≡ 1)
        ↔ IsOneOf pieces.now state.now.state.pieces (column * 64 + b) }
{
    let mut word = 0;
    for piece in pieces {
        word |= standing(state, *piece, column);
    }
    word
}

/// The bits of a column on whose vertices one of two pieces stands.
#[inline(always)]
fn either_standing(state: &SemiState, piece: Piece, other: Piece, column: usize) -> u64
    requires { column * 64 < length state.now.state.pieces }
    ensures { (b : ℕ) → b < 64 → (bit_at result b ≡ 1)
        ↔ IsOneOf (piece ∷ other ∷ []) state.now.state.pieces (column * 64 + b) }
{
    standing(state, piece, column) | standing(state, other, column)
}

/// The bits of a column on whose vertices a piece stands.
#[inline(always)]
fn standing(state: &SemiState, piece: Piece, column: usize) -> u64
    requires { column * 64 < length state.now.state.pieces }
    ensures { (b : ℕ) → b < 64 → (bit_at result b ≡ 1)
        ↔ (slice_get state.now.state.pieces (column * 64 + b) ≡ Some piece) }
{
    match state.row_word(piece, column) {
        Some(word) => word,
        None => looked_up(state, piece, column),
    }
}

/// The same where the piece has no row: each vertex is looked at. Each piece of a game has one.
#[inline(never)]
fn looked_up(state: &SemiState, piece: Piece, column: usize) -> u64
    requires { column * 64 < length state.now.state.pieces }
    ensures { (b : ℕ) → b < 64 → (bit_at result b ≡ 1)
        ↔ (slice_get state.now.state.pieces (column * 64 + b) ≡ Some piece) }
{
    let mut word = 0;
    for bit in 0..64 {
        if stands_at(state.pieces(), column * 64 + bit as usize, piece) {
            word |= unit_word(bit);
        }
    }
    word
}

/// Whether a piece stands on a vertex that may be after the end of the board.
#[inline(always)]
fn stands_at(pieces: &[Piece], vertex: usize, piece: Piece) -> bool
    ensures { IsTrue result ↔ (slice_get pieces.now vertex ≡ Some piece) }
{
    vertex < pieces.len() && pieces[vertex] == piece
}

/// Of the bits of a word that are to be looked at, those at whose vertices the action at a position passes. It is no
/// pattern.
#[inline(always)]
pub(crate) fn held(setting: &Setting, position: Position, column: usize, word: u64) -> u64
    requires set { IsLawfulSetting setting.now }
    requires position { IsPositionIn setting.now.game.now position }
    requires plain { ¬ IsPatternAt setting.now.game.now.rules position }
    requires board { IsOnBoard setting.now.game.now column word }
    ensures within { (b : ℕ) → bit_at result b ≡ 1 → bit_at word b ≡ 1 }
    ensures told { (b : ℕ) → b < 64 → bit_at word b ≡ 1
        → IsToTryIn setting.now (column * 64 + b) position → (bit_at result b ≡ 1)
        ↔ Holds setting.now.game.now setting.now.state.now.state (column * 64 + b) position }
{
    match setting.paths.facts(setting.game, position).kind {
        // what is to be looked at passes
        Kind::On | Kind::OnEither | Kind::Comparison => word,
        Kind::Plain => plain_passing(setting.game, setting.state, position, column, word),
        Kind::Modifier | Kind::Pattern => {
            passing(setting.game, setting.state, position, column, word)
        }
    }
}

/// Whether the action at a position passes at a vertex. It is no pattern.
#[inline(always)]
fn passes_at(game: &Game, state: &SemiState, vertex: Vertex, position: Position) -> bool
    requires lawful { IsGame game.now }
    requires fits { IsStateOf game.now state.now.state }
    requires vertex { vertex < length game.now.board.first }
    requires from_one { 0 < position }
    requires there { position ≤ length (positions_of game.now.rules) }
    requires plain { ¬ IsPatternAt game.now.rules position }
    ensures { IsTrue result ↔ Holds game.now state.now.state vertex position }
{
    let Some(trial) = state.try_at(game, vertex, position) else {
        return false;
    };
    match trial {
        Trial::LeadsTo(_) => true,
        Trial::Invalid => false,
        Trial::Modifies => false,
    }
}

/// The bits of a word at whose vertices the action at a position passes, tried one by one.
#[inline(never)]
fn passing(game: &Game, state: &SemiState, position: Position, column: usize, word: u64) -> u64
    requires lawful { IsGame game.now }
    requires fits { IsStateOf game.now state.now.state }
    requires from_one { 0 < position }
    requires there { position ≤ length (positions_of game.now.rules) }
    requires plain { ¬ IsPatternAt game.now.rules position }
    requires board { IsOnBoard game.now column word }
    ensures within { (b : ℕ) → bit_at result b ≡ 1 → bit_at word b ≡ 1 }
    ensures told { (b : ℕ) → b < 64 → bit_at word b ≡ 1 → (bit_at result b ≡ 1)
        ↔ Holds game.now state.now.state (column * 64 + b) position }
{
    let mut passed = word;
    let mut rest = word;
    while rest != 0 {
        let bit = lowest(rest);
        rest = without(rest, bit);
        if !passes_at(game, state, column as Vertex * 64 + bit, position) {
            passed = without(passed, bit);
        }
    }
    passed
}

/// As `passing`, where mostly a shift stands: it passes where its edge is.
#[inline(never)]
fn plain_passing(
    game: &Game,
    state: &SemiState,
    position: Position,
    column: usize,
    word: u64,
) -> u64
    requires lawful { IsGame game.now }
    requires fits { IsStateOf game.now state.now.state }
    requires position { IsPositionIn game.now position }
    requires plain { ¬ IsPatternAt game.now.rules position }
    requires board { IsOnBoard game.now column word }
    ensures within { (b : ℕ) → bit_at result b ≡ 1 → bit_at word b ≡ 1 }
    ensures told { (b : ℕ) → b < 64 → bit_at word b ≡ 1 → (bit_at result b ≡ 1)
        ↔ Holds game.now state.now.state (column * 64 + b) position }
{
    match direction_of(game, position) {
        Some(direction) => {
            let word = RowWord {
                position,
                column,
                bits: word,
            };
            crossing(game, state, direction, word)
        }
        None => passing(game, state, position, column, word),
    }
}

/// The bits of a word from whose vertices the edge of a shift leads on.
#[inline(always)]
fn crossing(game: &Game, state: &SemiState, direction: Direction, word: RowWord) -> u64
    requires lawful { IsGame game.now }
    requires shift { HasAction game.now.rules word.position (shift direction) }
    requires board { IsOnBoard game.now word.column word.bits }
    ensures within { (b : ℕ) → bit_at result b ≡ 1 → bit_at word.bits b ≡ 1 }
    ensures told { (b : ℕ) → b < 64 → bit_at word.bits b ≡ 1 → (bit_at result b ≡ 1)
        ↔ Holds game.now state.now.state (word.column * 64 + b) word.position }
{
    let mut passed = word.bits;
    let mut rest = word.bits;
    while rest != 0 {
        let bit = lowest(rest);
        rest = without(rest, bit);
        let vertex = word.column as Vertex * 64 + bit;
        if !crosses(game, state, vertex, word.position, direction) {
            passed = without(passed, bit);
        }
    }
    passed
}

/// Whether the edge of a shift leads on from a vertex.
#[inline(always)]
fn crosses(
    game: &Game,
    _state: &SemiState,
    vertex: Vertex,
    _position: Position,
    direction: Direction,
) -> bool
    requires lawful { IsGame game.now }
    requires shift { HasAction game.now.rules _position (shift direction) }
    requires vertex { vertex < length game.now.board.first }
    ensures { IsTrue result ↔ Holds game.now _state.now.state vertex _position }
{
    match edge(game, vertex, direction) {
        Some(_) => true,
        None => false,
    }
}
