//! A game that is followed on its board: the moves that lines may mean, and the keeper's between them.
ghost use Rattle.std.specs.Prelude.{◌≡◌, ◌≢◌, ◌↔◌, [], Some, Err, IfOk, IfSome, IsTrue, OnOk};
ghost use Rattle.rbg_rules.specs.Meaning.{IsLegal, IsHeavyToFind};
ghost use Rattle.rbg_moves.specs.Limits.{most_keeper_moves};
ghost use Rattle.rbg_view.specs.declared.stop.Stop.TheVariants.{Memory as NoMemory};
ghost use Rattle.rbg_view.specs.Endings.{EndsWith, ended_text, stopped_text};
ghost use Rattle.rbg_view.specs.internal.Standing.{TellsLimit};
ghost use Rattle.rbg_moves.specs.Moving.{Moves};
ghost use Rattle.rbg_view.specs.Moving.{IsHeavyAt, MeetsHeavy, Settles, SettlesHeavy, TiresKeeper};
ghost use Rattle.rbg_wire.specs.declared.outcome.Outcome.TheVariants.{Heavy as HeavyEnd};
ghost use Rattle.rbg_view.specs.internal.Trying.{IsHeavyPairs, IsHeavyReading, TellsFirst, TellsKeeper, TellsMade, TellsMoved, TellsOne};

use crate::move_readings::Reading;
use crate::sheet::Sheet;
use crate::stop::Stop;
use rbg_base::{Memory, Move, Pair, Player};
use rbg_moves::{Playthrough, Unsettled};
use rbg_wire::Outcome;

/// A game that is followed, and what is written of it.
#[derive(Drop)]
pub(crate) struct Scene<'a> {
    pub play: Playthrough<'a>,
    pub sheet: Sheet<'a>,
}

impl Scene<'_> {
    /// Makes the first of the moves that is legal. Before it the keeper moves where it has to. Returns whether a move was
    /// legal.
    pub(crate) fn make_one(&mut self, readings: &[Reading]) -> Result<bool, Unsettled>
        ensures made { IfOk result (TellsOne readings.now self.old.play self.new.play) }
        ensures heavy { result ≡ Err Unsettled.Heavy
            → MeetsHeavy readings.now self.old.play self.new.play }
        ensures endless { result ≡ Err Unsettled.Endless
            → TiresKeeper readings.now self.old.play self.new.play }
    {
        loop {
            if self.make_first(readings)? {
                return Ok(true);
            }
            if !self.move_keeper()? {
                return Ok(false);
            }
        }
    }

    /// Makes the first of the moves that is legal, and returns whether one was.
    fn make_first(&mut self, readings: &[Reading]) -> Result<bool, Unsettled>
        ensures made { IfOk result (TellsFirst readings.now self.old.play self.new.play) }
        ensures heavy { result ≡ Err Unsettled.Heavy
            → (self.new.play ≡ self.old.play) × IsHeavyAt self.old.play readings.now }
        ensures endless { result ≡ Err Unsettled.Endless → ⊥ }
    {
        for reading in readings {
            if self.make(reading)? {
                return Ok(true);
            }
        }
        Ok(false)
    }

    /// Makes a move, if it is one of whoever is to move, and returns whether it was.
    fn make(&mut self, reading: &Reading) -> Result<bool, Unsettled>
        ensures made { IfOk result (TellsMade reading.now self.old.play self.new.play) }
        ensures heavy { result ≡ Err Unsettled.Heavy
            → IsHeavyReading reading.now self.old.play self.new.play }
        ensures endless { result ≡ Err Unsettled.Endless → ⊥ }
    {
        if is_of(self.play.player(), reading) {
            self.make_pairs(&reading.pairs)
        } else {
            Ok(false)
        }
    }

    /// Makes a move of whoever is to move, if it is legal, and returns whether it was.
    fn make_pairs(&mut self, pairs: &Move) -> Result<bool, Unsettled>
        ensures made { IfOk result (TellsMoved pairs.now self.old.play self.new.play) }
        ensures heavy { result ≡ Err Unsettled.Heavy
            → IsHeavyPairs pairs.now self.old.play self.new.play }
        ensures endless { result ≡ Err Unsettled.Endless → ⊥ }
    {
        let player = self.play.player();
        self.sheet.begin_move(&self.play)?;
        let is_legal = self.play.try_pairs(pairs)?;
        if is_legal {
            self.sheet.write_move(&self.play, player, pairs.as_slice())?;
            Ok(true)
        } else {
            Ok(false)
        }
    }

    /// Makes the keeper's own move, if it is to move and has one, and returns whether it has.
    fn move_keeper(&mut self) -> Result<bool, Unsettled>
        ensures moved { IfOk result (TellsKeeper self.old.play self.new.play) }
        ensures heavy { result ≡ Err Unsettled.Heavy
            → (self.new.play ≡ self.old.play)
            × (self.old.play.place.state.player ≡ 0)
            × IsHeavyToFind self.old.play.game self.old.play.place }
        ensures endless { result ≡ Err Unsettled.Endless
            → (self.new.play ≡ self.old.play)
            × (self.old.play.place.state.player ≡ 0)
            × (self.old.play.in_a_row ≡ most_keeper_moves) }
    {
        if self.play.player() != 0 {
            return Ok(false);
        }
        if self.play.keeper_is_tired() {
            return Err(Unsettled::Endless);
        }
        let found = self.play.find()?;
        match found {
            Some(pairs) => {
                self.make_found(&pairs)?;
                Ok(true)
            }
            None => Ok(false),
        }
    }

    /// Makes a legal move of the keeper.
    fn make_found(&mut self, pairs: &[Pair]) -> Result<(), Memory>
        requires { IsLegal self.old.play.game self.old.play.place pairs.now }
        ensures { OnOk result (Moves self.old.play pairs.now self.new.play) }
    {
        self.sheet.begin_move(&self.play)?;
        self.play.make(pairs)?;
        self.sheet.write_move(&self.play, 0, pairs)
    }

    /// Says that a seat's message is refused.
    pub(crate) fn refuse(&mut self, number: usize, seat: u64) -> Result<(), Memory>
        ensures { self.new.play ≡ self.old.play }
    {
        self.sheet.write_refusal(&self.play, number, seat)
    }

    /// Says why the moves from a line on aren't shown.
    pub(crate) fn write_stop(&mut self, number: usize, stop: Stop) -> Result<(), Memory>
        ensures play { self.new.play ≡ self.old.play }
        ensures known { OnOk result (stop ≢ NoMemory) }
        ensures told { OnOk result
            (EndsWith self.new.sheet.text.items (stopped_text self.old.play number stop)) }
    {
        self.sheet.write_stop(&self.play, number, stop)
    }

    /// Lets the keeper move until a player is to move. Returns whether there is a move for whoever is to move then.
    pub(crate) fn settle(&mut self) -> Result<bool, Unsettled>
        ensures settles { IfOk result (Settles self.old.play self.new.play) }
        ensures heavy { result ≡ Err Unsettled.Heavy → SettlesHeavy self.old.play self.new.play }
        ensures endless { result ≡ Err Unsettled.Endless
            → TiresKeeper [] self.old.play self.new.play }
    {
        self.make_one(&[])?;
        if self.play.player() == 0 {
            return Ok(false);
        }
        Ok(self.play.find()?.is_some())
    }

    /// Writes how the match ended, or who is to move, below the board.
    pub(crate) fn write_end(
        &mut self,
        outcome: Option<Outcome>,
        goes_on: bool,
    ) -> Result<(), Memory>
        ensures play { self.new.play ≡ self.old.play }
        ensures told { OnOk result
            (EndsWith self.new.sheet.text.items (ended_text self.old.play outcome goes_on)) }
    {
        self.sheet.write_end(&self.play, outcome, goes_on)
    }

    /// Writes that the game can't be led on after the last line, if not by a limit that the record names. Returns whether
    /// it does.
    pub(crate) fn end_unsettled(
        &mut self,
        outcome: Option<Outcome>,
        line: &[u8],
    ) -> Result<bool, Memory>
        ensures play { self.new.play ≡ self.old.play }
        ensures told { IfOk result
            (TellsLimit self.old.play outcome line.now self.new.sheet.text.items) }
    {
        if is_at_limit(&outcome) {
            self.sheet.write_end(&self.play, outcome, true)?;
            Ok(true)
        } else {
            self.sheet.write(&self.play, line)?;
            Ok(false)
        }
    }
}

/// Whether a limit of play ended the match.
fn is_at_limit(outcome: &Option<Outcome>) -> bool
    ensures { IsTrue result ↔ (outcome.now ≡ Some HeavyEnd) }
{
    match outcome {
        Some(outcome) => is_limit(outcome),
        None => false,
    }
}

fn is_limit(outcome: &Outcome) -> bool
    ensures { IsTrue result ↔ (outcome.now ≡ HeavyEnd) }
{
    matches!(outcome, Outcome::Heavy)
}

/// Whether a move is one of whoever is to move.
fn is_of(player: Player, reading: &Reading) -> bool
    ensures { IsTrue result ↔ IfSome reading.now.player (λ said. said ≡ player) }
{
    match reading.player {
        Some(said) => said == u64::from(player),
        None => true,
    }
}
