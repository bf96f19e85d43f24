//! What is written of a game that is followed.
ghost use Rattle.std.specs.Prelude.{◌≢◌, ◌<◌, OnOk, length};
ghost use Rattle.rbg_view.specs.Endings.{EndsWith, ended_text, stopped_text};
ghost use Rattle.rbg_view.specs.declared.stop.Stop.TheVariants.{Memory as NoMemory};

use crate::board_text::Drawing;
use crate::ending::{put_end, put_stop, put_who};
use crate::move_text::MoveSpeller;
use crate::signs::Signs;
use crate::stop::Stop;
use rbg_base::{Pair, Piece, Player, Variable};
use rbg_drawing::Wishes;
use rbg_game::{Game, Layout};
use rbg_moves::Playthrough;
use rbg_wire::{Outcome, write_number};
use std::alloc::{AllocError, Global};

/// What is written of a game that is followed.
#[derive(Drop)]
pub(crate) struct Sheet<'a> {
    alloc: Global,
    drawing: Drawing<'a>,
    speller: MoveSpeller<'a>,
    pub text: Vec<u8>,
    /// How much of the text stays where only the last move is shown.
    kept: usize,
    only_last: bool,
    /// How many moves of players were made.
    moves: u64,
    /// Whether the board isn't drawn yet.
    is_new: bool,
    /// What stood on the board before the latest move.
    before: Vec<Piece>,
}

impl<'a> Sheet<'a> {
    /// The text begins with the signs of the pieces.
    pub(crate) fn new(
        alloc: Global,
        game: &'a Game,
        layout: &'a Layout,
        wishes: &Wishes<'_>,
        only_last: bool,
    ) -> Result<Sheet<'a>, AllocError> {
        let signs = Signs::of(alloc, game, wishes)?;
        let mut text = Vec::new(alloc);
        signs.push_legend(&mut text)?;
        let kept = text.len();
        Ok(Sheet {
            alloc,
            drawing: Drawing {
                alloc,
                layout,
                signs,
            },
            speller: MoveSpeller::new(game, layout),
            text,
            kept,
            only_last,
            moves: 0,
            is_new: true,
            before: Vec::new(alloc),
        })
    }

    /// Draws the board, and writes the values of the variables below it, if something was done since it was drawn.
    pub(crate) fn draw(&mut self, play: &Playthrough<'_>) -> Result<(), AllocError> {
        if self.is_new {
            self.drawing.push_board(&mut self.text, play.pieces())?;
            push_values(play, &mut self.text)?;
            self.is_new = false;
        }
        Ok(())
    }

    /// Keeps what stands on the board before a move. Before a move of a player the board is drawn.
    pub(crate) fn begin_move(&mut self, play: &Playthrough<'_>) -> Result<(), AllocError> {
        if play.player() != 0 {
            self.draw(play)?;
        }
        self.before.clear();
        self.before.extend_from_slice(play.pieces())
    }

    /// Says what a move of these pairs has changed. The keeper's moves that change no piece are not written.
    pub(crate) fn write_move(
        &mut self,
        play: &Playthrough<'_>,
        player: Player,
        pairs: &[Pair],
    ) -> Result<(), AllocError> {
        self.is_new = true;
        if player != 0 {
            self.number_move(play.game(), player)?;
            return self.write_changes(pairs);
        }
        if self.before.as_slice() == play.pieces() {
            return Ok(());
        }
        self.text.extend_from_slice(b"keeper:")?;
        self.write_changes(pairs)
    }

    /// Begins the line of a player's move.
    fn number_move(&mut self, game: &Game, player: Player) -> Result<(), AllocError> {
        self.moves = self.moves.saturating_add(1);
        if self.only_last {
            self.text.truncate(self.kept);
        }
        self.text.push(b'\n')?;
        write_number(self.moves, &mut self.text)?;
        self.text.push(b' ')?;
        put_who(game, u64::from(player), &mut self.text)?;
        self.text.extend_from_slice(b":")
    }

    /// Says what these pairs change on the board as it was when the move was begun, and ends the line.
    fn write_changes(&mut self, pairs: &[Pair]) -> Result<(), AllocError> {
        self.text.push(b' ')?;
        self.speller
            .push_move(self.before.as_slice(), pairs, &mut self.text)?;
        self.text.extend_from_slice(b"\n")
    }

    /// Says that a seat's message is refused.
    pub(crate) fn write_refusal(
        &mut self,
        play: &Playthrough<'_>,
        number: usize,
        seat: u64,
    ) -> Result<(), AllocError> {
        self.draw(play)?;
        let note = format!(in self.alloc; "line {number}: seat {seat} is refused\n")?;
        self.text.extend_from_slice(note.as_bytes())
    }

    /// Says why the moves from a line on aren't shown.
    pub(crate) fn write_stop(
        &mut self,
        play: &Playthrough<'_>,
        number: usize,
        stop: Stop,
    ) -> Result<(), AllocError>
        ensures known { OnOk result (stop ≢ NoMemory) }
        ensures told { OnOk result
            (EndsWith self.new.text.items (stopped_text play.now number stop)) }
    {
        self.draw(play)?;
        put_stop(play, number, stop, &mut self.text)
    }

    /// Writes how the match ended, or who is to move if there is a move, below the board.
    pub(crate) fn write_end(
        &mut self,
        play: &Playthrough<'_>,
        outcome: Option<Outcome>,
        goes_on: bool,
    ) -> Result<(), AllocError>
        ensures { OnOk result
            (EndsWith self.new.text.items (ended_text play.now outcome goes_on)) }
    {
        self.draw(play)?;
        put_end(play, outcome, goes_on, &mut self.text)
    }

    /// Writes this line below the board.
    pub(crate) fn write(&mut self, play: &Playthrough<'_>, line: &[u8]) -> Result<(), AllocError>
        ensures { OnOk result (EndsWith self.new.text.items line.now) }
    {
        self.draw(play)?;
        self.text.extend_from_slice(line)
    }
}

/// Writes what each variable holds, in a line.
fn push_values(play: &Playthrough<'_>, output: &mut Vec<u8>) -> Result<(), AllocError> {
    let mut lead = b"".as_slice();
    for index in 0..play.game().variables() {
        output.extend_from_slice(lead)?;
        push_value(play, index as Variable, output)?;
        lead = b", ";
    }
    output.extend_from_slice(b"\n")
}

/// Writes the name of a variable, and what it holds.
fn push_value(
    play: &Playthrough<'_>,
    variable: Variable,
    output: &mut Vec<u8>,
) -> Result<(), AllocError>
    requires { variable < length play.now.game.variables }
{
    output.extend_from_slice(play.game().variable_name(variable).as_bytes())?;
    output.push(b' ')?;
    write_number(u64::from(play.value(variable)), output)
}
