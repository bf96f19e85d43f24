//! One match that is played by chance, with its moves.
ghost use Rattle.std.specs.Prelude.{◌≡◌, ◌++◌, IfErr, IfOk, OnErr, OnOk, codes, decimal, []};
ghost use Rattle.rbg_rules.specs.Meaning.{IsPlaceOf};
ghost use Rattle.rbg_wire.specs.Lines.{line_of};
ghost use Rattle.rbg_wire.specs.Writing.{AppendsAll};
ghost use Rattle.rbg_questions.specs.Answers.{answer_text, standing_answer};
ghost use Rattle.rbg_questions.specs.Chance.{IsUnmoved};
ghost use Rattle.rbg_questions.specs.Searching.{IsUnsampled};
ghost use Rattle.rbg_questions.specs.internal.Searching.{IsMade, TellsMove, WritesSample};

use crate::answer_writer::{put_move_line, write_sampled};
use crate::draw::Draw;
use crate::question_error::QuestionError;
use crate::stepping::standing_at;
use rand_core::SeedableRng;
use rand_pcg::Pcg32;
use rbg_moves::{GamePlace, Place, PlayedGame, Workspace};

/// Plays a match of at most so many moves by chance from a place, and appends the lines of its moves and of how play
/// stands after them. On an error the bytes are unchanged.
pub(crate) fn write_sample(
    from: &GamePlace<'_>,
    draw: Draw,
    workspace: &mut Workspace,
    out: &mut Vec<u8>,
) -> Result<(), QuestionError>
    ensures sampled { OnOk result (WritesSample from.now.game from.now.place draw.count
        out.old.items out.new.items) }
    ensures unsampled { IfErr result (IsUnsampled from.now.game from.now.place draw.count) }
    ensures kept { OnErr result (out.new.items ≡ out.old.items) }
{
    let mut lines = Vec::new(*out.allocator());
    let game = from.played();
    let mut to = workspace.copy_of(from.place())?;
    let made = make_moves(game, &mut to, draw, &mut lines, workspace)?;
    let there = GamePlace::new(game, &to);
    let standing = standing_at(&there, workspace)?;
    workspace.keep(to);
    write_sampled(made, lines.as_slice(), &standing, out)?;
    Ok(())
}

/// Makes at most so many moves by chance, and appends a line for each. Returns how many were made: fewer only where play
/// is finished.
fn make_moves(
    game: &PlayedGame,
    place: &mut Place,
    draw: Draw,
    lines: &mut Vec<u8>,
    workspace: &mut Workspace,
) -> Result<u64, QuestionError>
    requires place { IsPlaceOf game.now place.old }
    requires none { lines.old.items ≡ [] }
    ensures made { IfOk result (λ made.
        IsMade game.now place.old draw.count made place.new lines.new.items) }
    ensures in_game { OnOk result (IsPlaceOf game.now place.new) }
    ensures unsampled { IfErr result (IsUnsampled game.now place.old draw.count) }
{
    let mut chance = Pcg32::seed_from_u64(draw.seed);
    for made in 0..draw.count {
        if !make_one(game, place, &mut chance, lines, workspace)? {
            return Ok(made);
        }
    }
    Ok(draw.count)
}

/// Makes a move by chance, and the keeper's moves after it, and appends the line of the move. False where there is no
/// legal move.
fn make_one(
    game: &PlayedGame,
    place: &mut Place,
    chance: &mut Pcg32,
    lines: &mut Vec<u8>,
    workspace: &mut Workspace,
) -> Result<bool, QuestionError>
    requires { IsPlaceOf game.now place.old }
    ensures moves { IfOk result (λ moved.
        TellsMove game.now place.old lines.old.items moved place.new lines.new.items) }
    ensures in_game { OnOk result (IsPlaceOf game.now place.new) }
    ensures unmoved { IfErr result (IsUnmoved game.now place.old) }
{
    let Some(_choice) = game.choose_move(place, chance, workspace)? else {
        return Ok(false);
    };
    game.make_move(place, workspace.chosen())?;
    put_move_line(workspace.chosen(), lines)?;
    game.settle(place, workspace)?;
    Ok(true)
}
