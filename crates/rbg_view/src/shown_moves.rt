//! Lists of moves that are followed on the board.
ghost use Rattle.std.specs.Prelude.{◌≡◌, ◌≢◌, None, IfOk, IfErr, List, ℕ};
ghost use Rattle.rbg_view.specs.declared.stop.Stop.TheVariants.{Memory as NoMemory};
ghost use Rattle.rbg_view.specs.declared.line.ListLine.TheVariants.{Silent};
ghost use Rattle.rbg_view.specs.Lines.{IsLine};
ghost use Rattle.rbg_view.specs.Showing.{IsShown};
ghost use Rattle.rbg_view.specs.Following.{Follows, Stops, outcome_of};
ghost use Rattle.rbg_view.specs.internal.Standing.{IsMessageShown, IsMoveShown, KeepsLine, StopsMessage, StopsMove, TellsEnd, TellsLine, TellsList, standing_of};

use crate::line::{ListLine, RecordEnd, without_return};
use crate::move_readings::{Lead, readings, said_readings};
use crate::scene::Scene;
use crate::sheet::Sheet;
use crate::stop::Stop;
use rbg_drawing::Wishes;
use rbg_game::LoadedGame;
use rbg_moves::{PlayedGame, Playthrough, Unsettled};
use rbg_wire::{Outcome, cut_at};
use std::alloc::{AllocError, Global};

/// What is written where the game can't be led on after the last line.
const HEAVY: &[u8] = b"a question is above the limits\n";

const TIRED: &[u8] = b"the keeper made 1,000 moves in a row\n";

/// What is shown of a list of moves.
#[derive(Drop)]
pub struct ShownMoves {
    pub text: Vec<u8>,
    /// Whether each move of the list is legal, and no question was given up.
    pub is_whole: bool,
}

/// Shows the moves of a list on the board of a game: for each of them what it changes, and the board after it with the
/// values of the variables. With `only_last` only the last of a player's moves is shown. Comment lines of the game's text
/// may give signs to pieces.
///
/// A move is a line: its pairs, perhaps after a player, or after a moment and a player, or a message of a script.
/// The other lines of records and scripts are passed over, and the end of a record is written at the end. Where the keeper
/// is to move and the list doesn't have its move, it makes the one that the referee would make. A seat's message that
/// is no legal move is said to be refused. Any other line that is no move, or none that is legal, is the last one that
/// is looked at.
pub fn show(
    alloc: Global,
    loaded: LoadedGame,
    text: &[u8],
    moves: &[u8],
    only_last: bool,
) -> Result<ShownMoves, AllocError>
    ensures { IfOk result (IsShown loaded.game moves.now) }
{
    let LoadedGame { game, layout } = loaded;
    let game = PlayedGame::new(alloc, game)?;
    let wishes = Wishes::read(alloc, text)?;
    let sheet = Sheet::new(alloc, game.as_game(), &layout, &wishes, only_last)?;
    let play = Playthrough::start(&game)?;
    let mut showing = Showing {
        alloc,
        scene: Scene { play, sheet },
        lead: None,
        end: None,
    };
    let is_whole = showing.show_list(moves)?;
    Ok(showing.shown(is_whole))
}

/// Moves that are being shown.
#[derive(Drop)]
struct Showing<'a> {
    alloc: Global,
    scene: Scene<'a>,
    /// What stands before the pairs of a move, once the first line of a record has shown it.
    lead: Option<Lead>,
    /// How the record ends, once its last line has shown it.
    end: Option<RecordEnd>,
}

impl Showing<'_> {
    /// Shows the moves of a list, and what stands at its end. Returns whether all went well.
    fn show_list(&mut self, moves: &[u8]) -> Result<bool, AllocError>
        ensures { IfOk result (TellsList moves.now (standing_of self.old) self.new.scene) }
    {
        let mut rest = moves;
        let mut number = 1;
        while let Some((line, beyond)) = cut_at(b'\n', rest) {
            if !self.show_or_stop(line, number)? {
                return Ok(false);
            }
            rest = beyond;
            number += 1;
        }
        if self.show_or_stop(rest, number)? {
            self.show_end()
        } else {
            Ok(false)
        }
    }

    /// Shows the move of a line, or says why it isn't shown. Returns which.
    fn show_or_stop(&mut self, line: &[u8], number: usize) -> Result<bool, AllocError>
        ensures { IfOk result (TellsLine line.now number (standing_of self.old) self.new) }
    {
        match self.show_line(without_return(line), number) {
            Ok(()) => Ok(true),
            Err(stop) => {
                self.scene.write_stop(number, stop)?;
                Ok(false)
            }
        }
    }

    /// Shows the move of a line, if it has one. After the end of a record only lines without a meaning may stand.
    fn show_line(&mut self, line: &[u8], number: usize) -> Result<(), Stop>
        ensures follows { IfOk result (λ _.
            Follows line.now (standing_of self.old) (standing_of self.new)) }
        ensures stops { IfErr result (λ stop. stop ≢ NoMemory
            → Stops line.now (standing_of self.old) stop (standing_of self.new)) }
    {
        let held = ListLine::read(self.alloc, line)?;
        if held.is_silent() {
            Ok(())
        } else {
            self.show_held(&held, number)
        }
    }

    /// Shows what a line holds. After the end of a record it may hold nothing.
    fn show_held(&mut self, held: &ListLine<'_>, number: usize) -> Result<(), Stop>
        requires { held.now ≢ Silent }
        ensures follows { IfOk result (λ _. (line : List ℕ) → IsLine line held.now
            → Follows line (standing_of self.old) (standing_of self.new)) }
        ensures stops { IfErr result (λ stop. stop ≢ NoMemory → (line : List ℕ)
            → IsLine line held.now
            → Stops line (standing_of self.old) stop (standing_of self.new)) }
    {
        match self.end {
            Some(_) => Err(Stop::AfterEnd),
            None => self.show_open(held, number),
        }
    }

    /// Shows what a line holds before the end of a record.
    fn show_open(&mut self, held: &ListLine<'_>, number: usize) -> Result<(), Stop>
        requires some { held.now ≢ Silent }
        requires goes_on { self.old.end ≡ None }
        ensures follows { IfOk result (λ _. (line : List ℕ) → IsLine line held.now
            → Follows line (standing_of self.old) (standing_of self.new)) }
        ensures stops { IfErr result (λ stop. stop ≢ NoMemory → (line : List ℕ)
            → IsLine line held.now
            → Stops line (standing_of self.old) stop (standing_of self.new)) }
    {
        match held {
            ListLine::Silent => Ok(()),
            ListLine::Head { version } => {
                self.lead = Some(Lead::of_version(*version));
                Ok(())
            }
            ListLine::End { end } => {
                self.end = Some(*end);
                Ok(())
            }
            ListLine::Said { seat, text } => self.show_message(*seat, text, number),
            ListLine::Sent { seat, text } => self.show_message(*seat, text.as_slice(), number),
            ListLine::Other { text } => self.show_move(text),
        }
    }

    /// Shows the move that a seat's message is, or that the message is refused.
    fn show_message(&mut self, seat: u64, text: &[u8], number: usize) -> Result<(), Stop>
        ensures kept { KeepsLine self.old self.new }
        ensures follows { IfOk result (λ _.
            IsMessageShown seat text.now self.old.scene.play self.new.scene.play) }
        ensures stops { IfErr result (λ stop.
            StopsMessage seat text.now self.old.scene.play stop self.new.scene.play) }
    {
        let said = said_readings(self.alloc, seat, text)?;
        let is_made = self.scene.make_one(said.as_slice())?;
        if is_made {
            return Ok(());
        }
        self.scene.refuse(number, seat)?;
        Ok(())
    }

    /// Shows the move that a line is.
    fn show_move(&mut self, text: &[u8]) -> Result<(), Stop>
        ensures kept { KeepsLine self.old self.new }
        ensures follows { IfOk result (λ _.
            IsMoveShown self.old.lead text.now self.old.scene.play self.new.scene.play) }
        ensures stops { IfErr result (λ stop.
            StopsMove self.old.lead text.now self.old.scene.play stop self.new.scene.play) }
    {
        let readings = readings(self.alloc, text, self.lead)?;
        if readings.is_empty() {
            return Err(Stop::of_no_move(text));
        }
        let is_made = self.scene.make_one(readings.as_slice())?;
        if is_made { Ok(()) } else { Err(Stop::NotLegal) }
    }

    /// What is shown at last.
    fn shown(self, is_whole: bool) -> ShownMoves
        ensures whole { result.is_whole ≡ is_whole }
        ensures text { result.text.items ≡ self.entry.scene.sheet.text.items }
    {
        let scene = self.scene;
        let sheet = scene.sheet;
        ShownMoves {
            text: sheet.text,
            is_whole,
        }
    }

    /// The keeper's moves at the end of a list, the board, and how the match ended, or who is to move. Returns whether all
    /// went well.
    fn show_end(&mut self) -> Result<bool, AllocError>
        ensures { IfOk result (TellsEnd (standing_of self.old) self.new.scene) }
    {
        let outcome = outcome_of(self.end);
        match self.scene.settle() {
            Ok(goes_on) => {
                self.scene.write_end(outcome, goes_on)?;
                Ok(true)
            }
            Err(Unsettled::Memory) => Err(AllocError),
            Err(Unsettled::Heavy) => self.scene.end_unsettled(outcome, HEAVY),
            Err(Unsettled::Endless) => self.scene.end_unsettled(outcome, TIRED),
        }
    }
}

/// How the match ended, if a record says it.
fn outcome_of(end: Option<RecordEnd>) -> Option<Outcome>
    ensures { result ≡ outcome_of end }
{
    match end {
        Some(end) => end.outcome,
        None => None,
    }
}
