//! How play continues, until a player is to move or the match has ended.
ghost use Rattle.std.specs.Prelude.{◌≡◌, ◌⊎◌, length, take};
ghost use Rattle.rbg_base.specs.Move.{IsMoveLength};
ghost use Rattle.rbg_rules.specs.Meaning.{IsLegal, Legal, IsPlaceOf};
ghost use Rattle.rbg_wire.specs.Messages.{ArePairs, OutcomeHasSpelling, end_message};
ghost use Rattle.rbg_match.specs.Deliveries.{to_others};
ghost use Rattle.rbg_match.specs.Play.{ended, scores_of, turn_begun};
ghost use Rattle.rbg_match.specs.PlayingOn.{PlaysOn, seats_of};
ghost use Rattle.rbg_match.specs.internal.Replies.{Ends, Makes, PlaysOnOnce, Replies};

use crate::asking::find_pairs;
use crate::state::Referee;
use rbg_base::{Memory, Pair};
use rbg_moves::{MAX_KEEPER_MOVES, Move, Over, Place, PlayedGame};
use rbg_wire::{Message, Outcome, Scores};

/// The result of one step of play.
#[derive(Clone, Copy)]
pub(crate) enum Progress {
    /// The keeper has moved, so play continues.
    KeeperMoved,
    /// A player is to move, or the match has ended.
    Settled,
}

impl Referee {
    /// Ends the match and sends the outcome to every seat.
    pub(crate) fn end(&mut self, outcome: Outcome) -> Result<(), Memory>
        requires { OutcomeHasSpelling outcome }
        ensures { Replies self.old self.new result (Ends outcome) }
    {
        let told = outcome;
        self.play.outcome = Some(told);
        let ending = Message::Ended { outcome };
        self.outbox.queue_for_each(&ending)?;
        Ok(())
    }

    /// Ends the match because a seat's stream has ended, and sends the outcome to every other seat.
    pub(crate) fn leave(&mut self, seat: usize) -> Result<(), Memory>
        ensures { Replies self.old self.new result (λ referee _ after outgoing.
            (after ≡ ended referee.play (Outcome.Gone seat))
            × (outgoing ≡ to_others (seats_of referee.game) seat (end_message (Outcome.Gone seat)))) }
    {
        let outcome = Outcome::Gone {
            player: seat as u64,
        };
        let told = outcome;
        self.play.outcome = Some(told);
        let ending = Message::Ended { outcome };
        self.outbox.queue_for_others(seat, &ending)?;
        Ok(())
    }

    /// Ends the match because a question is above the limits. Refused memory is returned as an error.
    pub(crate) fn end_heavy(&mut self, over: Over) -> Result<(), Memory>
        ensures { Replies self.old self.new result (λ referee value after outgoing.
            ((over ≡ Over.Deep) ⊎ (over ≡ Over.Wide))
            × Ends Outcome.Heavy referee value after outgoing) }
    {
        match over {
            Over::Deep => self.end(Outcome::Heavy),
            Over::Wide => self.end(Outcome::Heavy),
            Over::Memory => Err(Memory),
        }
    }

    /// Ends the match with the players' scores.
    fn end_finished(&mut self) -> Result<(), Memory>
        ensures { Replies self.old self.new result (λ referee.
            Ends (Outcome.Finished (scores_of referee.game referee.play)) referee) }
    {
        let scores = scores(&self.game, &self.play.place);
        self.end(Outcome::Finished { scores })
    }

    /// Makes the mover's legal move, which leads to the given place, and sends it to every seat.
    pub(crate) fn make(&mut self, pairs: Move, to: Place) -> Result<(), Memory>
        requires spelled { ArePairs pairs }
        requires legal { Legal self.old.game self.old.play.place pairs to }
        requires in_game { IsPlaceOf self.old.game to }
        ensures { Replies self.old self.new result (λ referee _. Makes referee pairs) }
    {
        self.outbox.queue_move(pairs.as_slice())?;
        self.play.make(pairs, to, self.moment)?;
        Ok(())
    }

    /// Makes a legal move of the keeper, and sends it to every seat.
    fn make_for_keeper(&mut self, pairs: Vec<Pair>) -> Result<(), Memory>
        requires legal { IsLegal self.old.game self.old.play.place pairs.items }
        requires spelled { ArePairs pairs.items }
        requires length { IsMoveLength (length pairs.items) }
        ensures { Replies self.old self.new result (λ referee _. Makes referee pairs.items) }
    {
        let mut to = self.play.workspace.copy_of(&self.play.place)?;
        self.game.make_move(&mut to, &pairs)?;
        self.make(move_of(&pairs), to)?;
        self.play.workspace.keep_pairs(pairs);
        Ok(())
    }

    /// Begins the turn of the player who is to move.
    fn begin_turn(&mut self)
        ensures { self.new ≡ record self.old { play = turn_begun self.old.play self.old.moment } }
    {
        self.play.turn_began = self.moment;
    }

    /// Plays one step after that many keeper moves in a row: ends the match, makes a move of the keeper, or begins a
    /// player's turn.
    fn play_on_once(&mut self, in_a_row: u32) -> Result<Progress, Memory>
        ensures { Replies self.old self.new result (PlaysOnOnce in_a_row) }
    {
        let mover = self.play.mover();
        if mover == 0 && in_a_row >= MAX_KEEPER_MOVES {
            self.end(Outcome::Heavy)?;
            return Ok(Progress::Settled);
        }
        match find_pairs(&self.game, &mut self.play.place, &mut self.play.workspace) {
            Ok(None) => {
                self.end_finished()?;
                Ok(Progress::Settled)
            }
            Ok(Some(pairs)) => {
                if mover != 0 {
                    self.play.workspace.keep_pairs(pairs);
                    self.begin_turn();
                    return Ok(Progress::Settled);
                }
                self.make_for_keeper(pairs)?;
                Ok(Progress::KeeperMoved)
            }
            Err(over) => {
                self.end_heavy(over)?;
                Ok(Progress::Settled)
            }
        }
    }

    /// Plays on until a player is to move or the match has ended.
    pub(crate) fn play_on(&mut self) -> Result<(), Memory>
        ensures { Replies self.old self.new result (λ referee _.
            PlaysOn referee.game referee.moment 0 referee.play) }
    {
        let mut in_a_row = 0;
        loop {
            match self.play_on_once(in_a_row)? {
                Progress::KeeperMoved => in_a_row += 1,
                Progress::Settled => return Ok(()),
            }
        }
    }
}

/// The move of these pairs.
fn move_of(pairs: &[Pair]) -> Move
    requires { IsMoveLength (length pairs.now) }
    ensures { result ≡ pairs.now }
{
    match Move::try_from(pairs) {
        Ok(whole) => whole,
        Err(_) => unreachable!(),
    }
}

/// The players' scores at a place.
fn scores(game: &PlayedGame, place: &Place) -> Scores
    requires { IsPlaceOf game.now place.now }
    ensures values { result ≡ take (length game.now.players) place.now.state.values }
    ensures spelled { OutcomeHasSpelling (Outcome.Finished result) }
{
    let found = game.scores(place);
    let mut scores = Scores::new();
    for index in 0..found.len() {
        scores.push(found.as_slice()[index]);
    }
    scores
}
