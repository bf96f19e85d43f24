//! What hands the records of a hall's matches to an archive.
ghost use Rattle.std.specs.Prelude.{◌≡◌, ◌<◌, suc, false, true, List, ◌++◌, Some, is_some, IfSome, MatchOption, IsTrue, ◌↔◌};
ghost use Rattle.rbg_hall.specs.Halls.{begun_at};
ghost use Rattle.rbg_hall.specs.Serving.{has_ended};
ghost use Rattle.rbg_hall.specs.Tables.{TableState};
ghost use Rattle.rbg_match.specs.Matches.{HasHistory};
ghost use Rattle.rbg_network.specs.Archives.{Handed};
ghost use Rattle.rbg_hosting.specs.Archives.{IsHandedFor};
ghost use Rattle.rbg_hosting.specs.internal.Recorded.{HandsAt, HandsOver, HasHanded, IsHandedNext, StandAfter, places};

use rbg_hall::Hall;
use rbg_match::Match;
use rbg_network::Archive;
use rbg_record::write_record;
use rbg_serving::Log;
use std::alloc::Global;

/// What hands the record of each match of a hall to an archive, once the match has ended.
#[derive(Drop)]
pub(crate) struct Recorder<A: Archive> {
    archive: A,
    /// Of each match whose record is wanted, match 1 first, whether it was handed over.
    noted: Vec<bool>,
    /// Whether a record is lost.
    lost: bool,
}

impl<A: Archive> Recorder<A> {
    /// What has handed nothing to this archive, and notes which matches' records were handed over.
    pub(crate) fn new(archive: A, noted: Vec<bool>) -> Recorder<A>
        ensures archive { result.archive ≡ archive }
        ensures noted { result.noted ≡ noted }
        ensures lost { result.lost ≡ false }
    {
        Recorder {
            archive,
            noted,
            lost: false,
        }
    }

    /// The archive.
    pub(crate) fn into_archive(self) -> A
        ensures { result ≡ self.archive }
    {
        self.archive
    }

    /// Whether a record is lost.
    pub(crate) fn has_lost(&self) -> bool
        ensures { result ≡ self.now.lost }
    {
        self.lost
    }

    /// Hands over the record of each match that has ended, unless that was done before.
    pub(crate) fn hand_over<W: Log>(&mut self, hall: &Hall<W>)
        ensures { (old : List TableState) → StandAfter old hall.now.state.tables →
            HandsOver A.handed self.old self.new old hall.now.state.tables }
    {
        for index in 0..self.noted.len() {
            self.hand_over_at(hall, index);
        }
    }

    /// Hands over the record of the match at an index, if that has ended, unless that was done before.
    fn hand_over_at<W: Log>(&mut self, hall: &Hall<W>, index: usize)
        requires { index < places self.old }
        ensures { HandsAt A.handed self.old self.new index (begun_at hall.now.state.tables (suc index)) }
    {
        if self.noted[index] {
            return;
        }
        let number = index as u64 + 1;
        match ended_match(hall, number) {
            Some(played) => {
                self.hand(number, played);
                self.noted[index] = true;
            }
            None => {}
        }
    }

    /// Hands over the record of a match, or reports that there is no memory for it.
    fn hand(&mut self, number: u64, played: &Match)
        ensures noted { self.new.noted ≡ self.old.noted }
        ensures hands { HasHistory played.now → (handed : List Handed) → HasHanded A.handed self.old handed →
            IsHandedNext A.handed self.new number played.now handed }
    {
        let alloc = *self.noted.allocator();
        match write_record(alloc, played) {
            Ok(record) => {
                let kept = self.archive.keep(number, record.as_slice());
                self.lost = self.lost || !kept;
            }
            Err(_) => {
                self.archive.lose(number);
                self.lost = true;
            }
        }
    }
}

/// The match of a table, if it has ended.
fn ended_match<W: Log>(hall: &Hall<W>, number: u64) -> Option<&Match>
    ensures ended { MatchOption result (has_ended (begun_at hall.now.state.tables number) ≡ false)
        (λ played. (begun_at hall.now.state.tables number ≡ Some played.now)
        × (is_some played.now.play.outcome ≡ true)) }
    ensures history { IfSome result (λ played. played.now.failed ≡ false → HasHistory played.now) }
{
    let played = hall.begun(number)?;
    match played.outcome() {
        Some(_) => Some(played),
        None => None,
    }
}
