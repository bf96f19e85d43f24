//! How sets are led on: by leaps to their targets, or from a whole word to the same vertices.
ghost use Rattle.std.specs.Prelude.{◌≡◌, ◌+◌, ◌*◌, ◌<◌, length, All, IsTrue};
ghost use Rattle.rbg_shifts.specs.Limits.{row_words};
ghost use Rattle.rbg_flat.specs.internal.Sets.{Meets, IsInWord};
ghost use Rattle.rbg_flat.specs.internal.Leading.{IsTargetFor, IsAmong, IsAmongBits, IsPositionIn};
ghost use Rattle.rbg_flat.specs.internal.Setting.{AreReady, IsToTryIn};

use crate::passing::to_try;
use crate::sets::Sets;
use crate::setting::Setting;
use crate::words::RowWord;
use rbg_base::Position;
use rbg_shifts::Target;

/// Meets the vertices of a word at a position, whose word is at a place. What is new of them is to be looked at, unless a
/// modifier stands there, an on of which no piece stands on the vertex, or a comparison that doesn't hold.
#[inline(always)]
fn meet_at(sets: &mut Sets, setting: &Setting, place: usize, word: RowWord)
    requires ready { AreReady setting.now sets.old }
    requires position { IsPositionIn setting.now.game.now word.position }
    requires place { place < length sets.old.marks }
    requires at { place ≡ word.position * sets.old.columns + word.column }
    requires column { word.column < row_words setting.now.game.now }
    ensures { Meets sets.old sets.new (IsInWord word.position word.column word.bits)
        (IsToTryIn setting.now) }
{
    if sets.knows(place, word.position, word.column, word.bits) {
        return;
    }
    let opens = to_try(setting, word.position, word.column);
    sets.meet_word(place, word, opens);
}

/// Meets the vertices of a target. Where each row has one word, the place is the position.
#[inline(always)]
fn meet_target(sets: &mut Sets, setting: &Setting, target: &Target, narrow: bool)
    requires ready { AreReady setting.now sets.old }
    requires one { IsTrue narrow → sets.old.columns ≡ 1 }
    requires target { IsTargetFor setting.now.game.now target.now }
    ensures { Meets sets.old sets.new
        (IsInWord target.now.position target.now.column target.now.word)
        (IsToTryIn setting.now) }
{
    if narrow {
        let place = sets.narrow_place(target.position);
        let word = RowWord {
            position: target.position,
            column: 0,
            bits: target.word,
        };
        meet_at(sets, setting, place, word);
    } else {
        let column = target.column as usize;
        let place = sets.place(target.position, column);
        let word = RowWord {
            position: target.position,
            column,
            bits: target.word,
        };
        meet_at(sets, setting, place, word);
    }
}

/// Meets the vertices of targets.
#[inline(always)]
fn meet_all(sets: &mut Sets, setting: &Setting, targets: &[Target], narrow: bool)
    requires ready { AreReady setting.now sets.old }
    requires one { IsTrue narrow → sets.old.columns ≡ 1 }
    requires targets { All (IsTargetFor setting.now.game.now) targets.now }
    ensures { Meets sets.old sets.new (IsAmong targets.now) (IsToTryIn setting.now) }
{
    for target in targets {
        meet_target(sets, setting, target, narrow);
    }
}

/// Meets the vertices of targets. Most boards have one word for each row, which is asked once: each of both calls is put in
/// line with its answer.
#[inline(always)]
pub(crate) fn meet_targets(sets: &mut Sets, setting: &Setting, targets: &[Target])
    requires ready { AreReady setting.now sets.old }
    requires targets { All (IsTargetFor setting.now.game.now) targets.now }
    ensures { Meets sets.old sets.new (IsAmong targets.now) (IsToTryIn setting.now) }
{
    if sets.columns() == 1 {
        meet_all(sets, setting, targets, true);
    } else {
        meet_all(sets, setting, targets, false);
    }
}

/// Meets the vertices of a word at these positions.
#[inline(always)]
pub(crate) fn meet_bits(
    sets: &mut Sets,
    setting: &Setting,
    positions: &[Position],
    column: usize,
    bits: u64,
)
    requires ready { AreReady setting.now sets.old }
    requires column { column < row_words setting.now.game.now }
    requires positions { All (IsPositionIn setting.now.game.now) positions.now }
    ensures { Meets sets.old sets.new (IsAmongBits positions.now column bits)
        (IsToTryIn setting.now) }
{
    for position in positions {
        let place = sets.place(*position, column);
        let word = RowWord {
            position: *position,
            column,
            bits,
        };
        meet_at(sets, setting, place, word);
    }
}
