//! The moves that a line may mean.
ghost use Rattle.std.specs.Prelude.{◌≡◌, ℕ, ◌<◌, List, Option, Some, None, IfOk, IfSome, IfNone, OnOk};
ghost use Rattle.rbg_record.specs.declared.heading.Version.TheVariants.{One, Two};
ghost use Rattle.rbg_view.specs.Readings.{AreReadings, IsMoveText, IsPlayersMove, IsSaid, MayMean, SpellsMovePairs, lead_of};
ghost use Rattle.rbg_view.specs.internal.Holding.{AddsMeaning};

use rbg_base::Move;
use rbg_record::Version;
use rbg_wire::{after_text, cut_number, read_pairs};
use std::alloc::{AllocError, Global};

/// What stands before the pairs of a move.
#[derive(Clone, Copy)]
pub(crate) enum Lead {
    Nothing,
    Player,
    MomentAndPlayer,
}

impl Lead {
    /// What stands before the pairs of a move in a record of a version.
    pub(crate) fn of_version(version: Version) -> Lead
        ensures { result ≡ lead_of version }
    {
        match version {
            Version::One => Lead::Player,
            Version::Two => Lead::MomentAndPlayer,
        }
    }
}

/// A move as a line may mean it.
#[derive(Drop)]
pub(crate) struct Reading {
    /// The player who makes it, where the line says who.
    pub player: Option<u64>,
    pub pairs: Move,
}

impl Reading {
    /// A player's move. The pairs may have the letter of a message before them.
    pub(crate) fn of_pairs(player: Option<u64>, text: &[u8]) -> Option<Reading>
        ensures found { IfSome result (λ reading. (reading.player ≡ player) × IsMoveText text.now reading.pairs) }
        ensures none { IfNone result ((pairs : List (ℕ × ℕ)) → IsMoveText text.now pairs → ⊥) }
    {
        let pairs = read_move_text(text)?;
        Some(Reading { player, pairs })
    }

    /// The move whose pairs stand after a lead.
    fn beyond(lead: Lead, text: &[u8]) -> Option<Reading>
        ensures found { IfSome result (λ reading. MayMean lead text.now reading.player reading.pairs) }
        ensures none { IfNone result ((player : Option ℕ) (pairs : List (ℕ × ℕ)) → MayMean lead text.now player pairs → ⊥) }
    {
        match lead {
            Lead::Nothing => Reading::of_pairs(None, text),
            Lead::Player => Reading::of_player(text),
            Lead::MomentAndPlayer => {
                let (_, text) = cut_number(text)?;
                Reading::of_player(text)
            }
        }
    }

    /// The move of `<player> <pairs>`.
    fn of_player(text: &[u8]) -> Option<Reading>
        ensures found { IfSome result (λ reading.
            IsPlayersMove text.now reading.player reading.pairs) }
        ensures none { IfNone result ((player : Option ℕ) (pairs : List (ℕ × ℕ))
            → IsPlayersMove text.now player pairs
            → ⊥) }
    {
        let (player, text) = cut_number(text)?;
        Reading::of_pairs(Some(player), text)
    }
}

/// The move that a seat's message is, if it is one.
pub(crate) fn said_readings(
    alloc: Global,
    seat: u64,
    text: &[u8],
) -> Result<Vec<Reading>, AllocError>
    ensures { IfOk result (λ readings. IsSaid seat text.now readings.items) }
{
    let mut readings = Vec::new(alloc);
    match Reading::of_pairs(Some(seat), text) {
        Some(reading) => {
            readings.push(reading)?;
            Ok(readings)
        }
        None => Ok(readings),
    }
}

/// The moves that a text may mean, where `lead` stands before the pairs, or where nobody has said what does.
pub(crate) fn readings(
    alloc: Global,
    text: &[u8],
    lead: Option<Lead>,
) -> Result<Vec<Reading>, AllocError>
    ensures { IfOk result (λ readings. AreReadings text.now lead readings.items) }
{
    match lead {
        Some(lead) => told_readings(alloc, text, lead),
        None => untold_readings(alloc, text),
    }
}

fn told_readings(alloc: Global, text: &[u8], lead: Lead) -> Result<Vec<Reading>, AllocError>
    ensures { IfOk result (λ readings. AreReadings text.now (Some lead) readings.items) }
{
    let mut readings = Vec::new(alloc);
    push_meaning(lead, text, &mut readings)?;
    Ok(readings)
}

fn untold_readings(alloc: Global, text: &[u8]) -> Result<Vec<Reading>, AllocError>
    ensures { IfOk result (λ readings. AreReadings text.now None readings.items) }
{
    let mut readings = Vec::new(alloc);
    push_meaning(Lead::Nothing, text, &mut readings)?;
    push_meaning(Lead::Player, text, &mut readings)?;
    push_meaning(Lead::MomentAndPlayer, text, &mut readings)?;
    Ok(readings)
}

/// Appends the move that a text means where so much stands before the pairs, if it is one.
fn push_meaning(lead: Lead, text: &[u8], readings: &mut Vec<Reading>) -> Result<(), AllocError>
    ensures { OnOk result (AddsMeaning text.now lead readings.old.items readings.new.items) }
{
    if let Some(reading) = Reading::beyond(lead, text) {
        readings.push(reading)?;
    }
    Ok(())
}

/// The pairs of a move, with the letter of a message before them or without.
fn read_move_text(text: &[u8]) -> Option<Move>
    ensures found { IfSome result (IsMoveText text.now) }
    ensures none { IfNone result ((pairs : List (ℕ × ℕ)) → IsMoveText text.now pairs → ⊥) }
{
    match after_text(b"M", text) {
        Some(beyond) => pairs_of(beyond),
        None => pairs_of(text),
    }
}

fn pairs_of(text: &[u8]) -> Option<Move>
    ensures found { IfSome result (SpellsMovePairs text.now) }
    ensures none { IfNone result ((pairs : List (ℕ × ℕ)) → SpellsMovePairs text.now pairs → ⊥) }
{
    read_pairs(text).ok()
}
