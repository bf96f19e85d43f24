//! Whether a record is right.
ghost use Rattle.std.specs.Prelude.{◌≡◌, ◌↔◌, ℕ, IfErr, IfOk, Err, Ok};
ghost use Rattle.rbg_record.specs.Judged.{IsBadLine, IsFormFault, IsGoodByLines, IsHeavyLine, IsJudged, IsMisfit};
ghost use Rattle.rbg_record.specs.Right.{IsRightRecord};

use crate::reached::Reached;
use crate::reader::RecordReader;
use crate::reading::judge_line;
use crate::{Checked, Misfit, RecordError};
use rbg_moves::PlayedGame;

/// Checks whether a record is right, of either version.
///
/// The lines are taken in order, and each is read before it is judged. The result is decided by the first line that is
/// not of the form, not right, or asks a question above the limits. What needs no question is checked before the line's
/// question. No question is asked twice.
pub fn check_record(game: &PlayedGame, bytes: &[u8]) -> Result<Checked, RecordError>
    ensures good { IfOk result (λ checked.
        (checked ≡ Checked.Good) ↔ IsRightRecord game.now bytes.now) }
    ensures bad { (line : ℕ) → result ≡ Ok (Checked.Bad line) → IsBadLine game.now bytes.now line }
    ensures form { (line : ℕ) → result ≡ Err (RecordError.Form line)
        → IsFormFault game.now bytes.now line }
    ensures over { (line : ℕ) → result ≡ Err (RecordError.Over line)
        → IsHeavyLine game.now bytes.now line }
{
    game.is_accepted();
    judge_record(game, bytes)
}

fn judge_record(game: &PlayedGame, bytes: &[u8]) -> Result<Checked, RecordError>
    ensures { IsJudged game.now bytes.now result }
{
    match judge_lines(game, bytes) {
        Ok(()) => Ok(Checked::Good),
        Err(misfit) => misfit.checked(),
    }
}

/// Judges the lines of a record in turn.
fn judge_lines(game: &PlayedGame, bytes: &[u8]) -> Result<(), Misfit>
    ensures good { IfOk result (λ _. IsGoodByLines game.now bytes.now) }
    ensures misfit { IfErr result (IsMisfit game.now bytes.now) }
{
    let mut reader = RecordReader::new(bytes);
    let mut reached = Reached::Version;
    while let Some(line) = reader.read(reached.next())? {
        reached = judge_line(game, &reached, &line)?;
    }
    Ok(())
}
