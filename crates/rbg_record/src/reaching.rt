//! The place to which the moves of a record lead.
ghost use Rattle.std.specs.Prelude.{IfErr, IfOk};
ghost use Rattle.rbg_rules.specs.Meaning.{IsPlaceOf};
ghost use Rattle.rbg_record.specs.Judged.{IsMisfit};
ghost use Rattle.rbg_record.specs.Reaching.{IsPlaceAfter};

use crate::Misfit;
use crate::reached::Reached;
use crate::reader::RecordReader;
use crate::reading::judge_line;
use rbg_moves::{Place, PlayedGame};

/// The place to which the moves of a record lead, of either version. A record that isn't right is refused.
pub fn place_after(game: &PlayedGame, bytes: &[u8]) -> Result<Place, Misfit>
    ensures place { IfOk result (IsPlaceAfter game.now bytes.now) }
    ensures in_game { IfOk result (IsPlaceOf game.now) }
    ensures misfit { IfErr result (IsMisfit game.now bytes.now) }
{
    let mut place = game.start()?;
    let mut reader = RecordReader::new(bytes);
    let mut reached = Reached::Version;
    while let Some(line) = reader.read(reached.next())? {
        reached = judge_line(game, &reached, &line)?;
        place = reached.place_or(place)?;
    }
    Ok(place)
}
