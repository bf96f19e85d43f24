//! A match: it opens, and handles events.
ghost use Rattle.std.specs.Prelude.{◌≡◌, ℕ, ◌≤◌, true, IsErr, IsErrOf, IsOk, IfOk, OnOk, OnErr, length};
ghost use Rattle.rbg_wire.specs.Bytes.{LacksByte};
ghost use Rattle.rbg_match.specs.Config.{IsWithinLimits};
ghost use Rattle.rbg_match.specs.Inputs.{counted_first};
ghost use Rattle.rbg_script.specs.Events.{event_of};
ghost use Rattle.rbg_match.specs.Limits.{latest_moment};
ghost use Rattle.rbg_match.specs.Matches.{Opens};
ghost use Rattle.rbg_match.specs.PlayingOn.{seats_of};
ghost use Rattle.rbg_match.specs.internal.Opening.{match_begun};

use crate::opening::{new_inboxes, referee_at_start};
use crate::state::Referee;
use crate::{Arrival, Config, LATEST_MOMENT, Made, MatchError, Outbox};
use rbg_base::Memory;
use rbg_moves::{Listed, Over, Place};
use rbg_rules::Game;
use rbg_script::Event;
use rbg_wire::{Inbox, Outcome};
use std::alloc::Global;
use std::marker::Model;

/// A match of a game.
pub struct Match {
    /// Its moment is the maximum counted one. After the end of the match it stays the moment of the end.
    referee: Referee,
    /// The counted moment at which the match began.
    began: u64,
    /// The stream of each seat, seat 1 first.
    inboxes: Vec<Inbox>,
    /// Whether a step ran out of memory.
    failed: bool,
}

impl Model for Match {
    ghost use Rattle.rbg_match.specs.Matches.{MatchState};

    ghost Value = { MatchState };

    ghost use Rattle.rbg_match.specs.internal.Codes.{coded_match};

    ghost coded = { coded_match };

    ghost use Rattle.rbg_match.specs.internal.Inboxes.{rests_of};

    ghost view = { λ m. record {
      game = m.referee.game;
      config = m.referee.config;
      began = m.began;
      play = m.referee.play;
      streams = record { moment = m.referee.moment; rests = rests_of m.inboxes.items };
      failed = m.failed;
    } };

    ghost use Rattle.rbg_match.specs.internal.Playable.{IsMatch};

    ghost invariant = { λ m. IsMatch m.referee.game m.inboxes.items m.failed };
}

/// Written by hand: dropping a match is then one call in the proofs of its owners, not a step for each part.
impl Drop for Match {
    fn drop(self) {
        let Match {
            referee: _,
            began: _,
            inboxes: _,
            failed: _,
        } = self;
    }
}

impl Match {
    ghost use Rattle.std.specs.Prelude.{
      ◌≡◌,
      ◌↔◌,
      ◌≤◌,
      ◌<◌,
      ◌-◌,
      ℕ,
      None,
      Some,
      MatchOption,
      slice_get,
      length,
      false,
      Err,
      IfOk,
      IsOk,
    };
    ghost use Rattle.rbg_match.specs.Config.{IsWithinLimits};
    ghost use Rattle.rbg_match.specs.Arrivals.{MayCome, arrival_of};
    ghost use Rattle.rbg_match.specs.Inputs.{IsTickAlone, counted};
    ghost use Rattle.rbg_script.specs.Events.{moment_of};
    ghost use Rattle.rbg_moves.specs.Answers.{ListsMoves};
    ghost use Rattle.rbg_moves.specs.Listing.{IsListed};
    ghost use Rattle.rbg_rules.specs.Meaning.{IsGame, IsPlaceOf};
    ghost use Rattle.rbg_match.specs.Play.{due_of, refusals_of};
    ghost use Rattle.rbg_match.specs.Matches.{HasHistory, Opens, Steps};
    ghost use Rattle.rbg_wire.specs.declared.outcome.Outcome.{Outcome};

    /// Makes a match of a game at the moment `now`. Each seat is greeted with the game's text, of which no byte may be
    /// zero, and play continues from the start. Returns the match and its outbox.
    pub fn new(
        alloc: Global,
        game: Game,
        text: &[u8],
        config: Config,
        now: u64,
    ) -> Result<(Match, Outbox), MatchError>
        requires { LacksByte 0 text.now }
        ensures opens { IfOk result (λ made. Opens game text.now config now made.0 made.1) }
        ensures seats { IfOk result (λ made. length made.1 ≡ seats_of made.0.game) }
        ensures history { IfOk result (λ made. HasHistory made.0) }
        ensures config { IsErrOf result MatchError.Config ↔ (¬ IsWithinLimits config) }
    {
        if !config.is_within_limits() {
            return Err(MatchError::Config);
        }
        Ok(open(alloc, game, text, config, now.min(LATEST_MOMENT))?)
    }

    /// Handles an event. Its messages go to the outbox, which must have the match's seats. After an error the match has
    /// failed, and each further call returns an error. Its game, its config and the moment at which it began never
    /// change.
    pub fn step(&mut self, event: Event<&[u8]>, outbox: &mut Outbox) -> Result<(), Memory>
        requires { length outbox.old ≡ seats_of self.old.game }
        ensures ok { OnOk result (Steps self.old (event_of event.entry) self.new outbox.old
            outbox.new) }
        ensures err { OnErr result
            ((outbox.new ≡ outbox.old) × (self.new.failed ≡ true)
            × (self.new.game ≡ self.old.game)) }
        ensures kept { (self.new.config ≡ self.old.config) × (self.new.began ≡ self.old.began) }
        ensures history { OnOk result (HasHistory self.old → HasHistory self.new) }
        ensures failed { self.old.failed ≡ true → IsErr result }
        ensures seats { length outbox.new ≡ length outbox.old }

        // Neither an ended match nor a tick before the due moment needs memory.
        ensures ended { (outcome : Outcome) →
            self.old.play.outcome ≡ Some outcome →
            self.old.failed ≡ false →
            IsOk result }
        ensures quiet { IsTickAlone self.old.streams.rests (event_of event.entry) →
            counted self.old.streams (moment_of (event_of event.entry))
            < due_of self.old.config self.old.play →
            self.old.failed ≡ false →
            IsOk result }
    {
        self.receive(Arrival::Plain(event), outbox)
    }

    /// Handles what arrives as `step` handles the event for which it stands: an item is handled as the piece that holds it
    /// and nothing else, but isn't cut or copied again.
    pub fn receive(&mut self, arrival: Arrival<'_>, outbox: &mut Outbox) -> Result<(), Memory>
        requires seats { length outbox.old ≡ seats_of self.old.game }
        requires comes { self.old.failed ≡ false →
            self.old.play.outcome ≡ None →
            MayCome self.old.streams.rests arrival }
        ensures ok { OnOk result (Steps self.old (arrival_of arrival.entry) self.new outbox.old
            outbox.new) }
        ensures err { OnErr result
            ((outbox.new ≡ outbox.old) × (self.new.failed ≡ true)
            × (self.new.game ≡ self.old.game)) }
        ensures kept { (self.new.config ≡ self.old.config) × (self.new.began ≡ self.old.began) }
        ensures history { OnOk result (HasHistory self.old → HasHistory self.new) }
        ensures failed { self.old.failed ≡ true → IsErr result }
        ensures seats { length outbox.new ≡ length outbox.old }
        ensures ended { (outcome : Outcome) →
            self.old.play.outcome ≡ Some outcome →
            self.old.failed ≡ false →
            IsOk result }
        ensures quiet { IsTickAlone self.old.streams.rests (arrival_of arrival.entry) →
            counted self.old.streams (moment_of (arrival_of arrival.entry))
            < due_of self.old.config self.old.play →
            self.old.failed ≡ false →
            IsOk result }
    {
        if self.failed {
            return Err(Memory);
        }
        if self.referee.has_ended() {
            return Ok(());
        }
        let marks = outbox.marks();
        let handled = self.referee.step(&mut self.inboxes, arrival, outbox);
        if handled.is_err() {
            self.failed = true;
            outbox.cut_back(&marks);
        }
        handled
    }

    /// The place that play has reached.
    pub fn place(&self) -> &Place
        ensures place { result.now ≡ self.now.play.place }
        ensures in_game { IsPlaceOf self.now.game self.now.play.place }
    {
        &self.referee.play.place
    }

    /// The legal moves at the place that play has reached, or `max` of them if there are more. The errors `Deep` and
    /// `Wide` mean that the question is above a limit of play. An answer is given only if the forced openings are
    /// within the limits.
    pub fn list_moves(&self, max: usize) -> Result<Listed, Over>
        requires { 0 < max }
        ensures { ListsMoves self.now.game self.now.play.place result
            (λ listed. IsListed self.now.game self.now.play.place max listed.moves.items listed.cut)
            (λ listed. listed.cut) }
    {
        self.referee.game.list_moves(&self.referee.play.place, max)
    }

    /// The allocator from which the match takes memory.
    pub fn allocator(&self) -> Global {
        *self.inboxes.allocator()
    }

    /// The moves so far.
    pub fn made(&self) -> &[Made]
        ensures { result.now ≡ self.now.play.made }
    {
        self.referee.play.made.as_slice()
    }

    /// The outcome, once the match has ended. An `Outcome` has the number of a player in 64 bits, since a message may
    /// name any number.
    pub fn outcome(&self) -> Option<Outcome>
        ensures { result ≡ self.now.play.outcome }
    {
        self.referee.play.outcome
    }

    /// The number of players, which is that of seats.
    pub fn players(&self) -> usize
        ensures count { result ≡ seats_of self.now.game }
        ensures lawful { IsGame self.now.game }
    {
        self.referee.game.as_game().players()
    }

    /// The name of a player. It must be one of the match's.
    pub fn player_name(&self, player: u16) -> &str
        requires from_one { 0 < player }
        requires there { player ≤ seats_of self.now.game }
        ensures { slice_get self.now.game.players (player - 1) ≡ Some result.now }
    {
        self.referee.game.as_game().player_name(player)
    }

    /// The config that the match was made with.
    pub fn config(&self) -> Config
        ensures { result ≡ self.now.config }
    {
        self.referee.config
    }

    /// The counted moment at which the match began.
    pub fn began(&self) -> u64
        ensures { result ≡ self.now.began }
    {
        self.began
    }

    /// The maximum counted moment, in milliseconds. After the end of the match it stays the moment of the end.
    pub fn moment(&self) -> u64
        ensures { result ≡ self.now.streams.moment }
    {
        self.referee.moment
    }

    /// The moment at which the mover's time is over. None once the match has ended.
    pub fn due(&self) -> Option<u64>
        ensures { MatchOption self.now.play.outcome
            (result ≡ Some (due_of self.now.config self.now.play))
            (λ _. result ≡ None) }
    {
        if self.referee.play.outcome.is_some() {
            return None;
        }
        Some(self.referee.play.turn_began + self.referee.config.turn_ms)
    }

    /// The number of refused messages of a seat. It must be one of the seats.
    pub fn refusals(&self, seat: usize) -> u32
        requires is_seat { 1 ≤ seat }
        requires is_there { seat ≤ seats_of self.now.game }
        ensures { result ≡ refusals_of self.now.play seat }
    {
        self.referee.play.refusals[seat - 1]
    }
}

/// Makes the match of a game, at a counted moment.
fn open(
    alloc: Global,
    game: Game,
    text: &[u8],
    config: Config,
    moment: u64,
) -> Result<(Match, Outbox), Memory>
    requires no_zero { LacksByte 0 text.now }
    requires lawful { IsWithinLimits config }
    requires counted { moment ≤ latest_moment }
    ensures { IfOk result (λ made.
        (now : ℕ) → moment ≡ counted_first now → Opens game text.now config now made.0 made.1) }
{
    let mut referee = referee_at_start(alloc, game, text, config, moment)?;
    referee.play_on()?;
    let opened = begin(alloc, referee)?;
    Ok(opened)
}

/// The match that a referee begins, and the referee's outbox.
fn begin(alloc: Global, referee: Referee) -> Result<(Match, Outbox), Memory>
    ensures state { IfOk result (λ made. made.0 ≡ match_begun referee) }
    ensures outbox { IfOk result (λ made. made.1 ≡ referee.outbox) }
{
    let mut referee = referee;
    let seats = referee.outbox.seats();
    let inboxes = new_inboxes(alloc, seats)?;
    let mut outbox = Outbox::new(alloc, seats)?;
    referee.exchange(&mut outbox);
    let opened = Match {
        began: referee.moment,
        referee,
        inboxes,
        failed: false,
    };
    Ok((opened, outbox))
}
