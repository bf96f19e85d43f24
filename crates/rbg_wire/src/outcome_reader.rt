//! The call that reads an outcome. It allocates nothing.
ghost use Rattle.std.specs.Prelude.{◌≡◌, ◌≢◌, ℕ, List, ◌∷◌, decimal, Ok, IfOk, IfErr, IfSome, IfNone};
ghost use Rattle.rbg_wire.specs.declared.outcome.Outcome.{Outcome as AnyOutcome};
ghost use Rattle.rbg_wire.specs.Reading.{SpellsOutcome, SpellsPlayer, SpellsScores};
ghost use Rattle.rbg_wire.specs.Messages.{end_letter};
ghost use Rattle.rbg_wire.specs.Words.{space};

use crate::bytes::after_byte;
use crate::words::Words;
use crate::{MAX_SCORES, Outcome, Scores, WireError};
use rbg_base::number_of_decimal;

/// The outcome that the whole text spells, without its zero byte.
///
/// Returns `Malformed` if the text spells no outcome.
pub fn read_outcome(text: &[u8]) -> Result<Outcome, WireError>
    // An outcome that is returned is the one that the text spells.
    ensures found { IfOk result (SpellsOutcome text.now) }
    // If the text spells an outcome, that outcome is returned.
    ensures only { (outcome : AnyOutcome) → SpellsOutcome text.now outcome → result ≡ Ok outcome }
    ensures err { IfErr result (λ e. e ≡ WireError.Malformed) }
{
    outcome_in(text).ok_or(WireError::Malformed)
}

fn outcome_in(text: &[u8]) -> Option<Outcome>
    ensures found { IfSome result (SpellsOutcome text.now) }
    ensures none { IfNone result ((outcome : AnyOutcome) → SpellsOutcome text.now outcome → ⊥) }
{
    outcome_after_letter(after_byte(b'E', text)?)
}

// The outcome whose text this is after its letter.
pub(crate) fn outcome_after_letter(text: &[u8]) -> Option<Outcome>
    ensures found { IfSome result (SpellsOutcome (end_letter ∷ text.now)) }
    ensures none { IfNone result ((outcome : AnyOutcome)
        → SpellsOutcome (end_letter ∷ text.now) outcome → ⊥) }
{
    let (kind, fields) = text.split_first()?;
    match kind {
        b'0' => Some(Outcome::Finished {
            scores: scores_in(fields)?,
        }),
        b'4' => {
            if fields.is_empty() {
                Some(Outcome::Heavy)
            } else {
                None
            }
        }
        _ => of_player(*kind, player_in(fields)?),
    }
}

// The outcome of this kind that names this player.
#[tactic(auto, unfolding(crate::specs::Messages::outcome_text))]
fn of_player(kind: u8, player: u64) -> Option<Outcome>
    ensures found { IfSome result (SpellsOutcome (end_letter ∷ kind ∷ space ∷ decimal player)) }
    ensures none { IfNone result ((kind ≢ 49) × (kind ≢ 50) × (kind ≢ 51)) }
{
    match kind {
        b'1' => Some(Outcome::Time { player }),
        b'2' => Some(Outcome::Refusals { player }),
        b'3' => Some(Outcome::Gone { player }),
        _ => None,
    }
}

fn player_in(fields: &[u8]) -> Option<u64>
    ensures found { IfSome result (SpellsPlayer fields.now) }
    ensures none { IfNone result ((player : ℕ) → SpellsPlayer fields.now player → ⊥) }
{
    number_of_decimal(after_byte(b' ', fields)?)
}

fn scores_in(fields: &[u8]) -> Option<Scores>
    ensures found { IfSome result (SpellsScores fields.now) }
    ensures none { IfNone result ((scores : List ℕ) → SpellsScores fields.now scores → ⊥) }
{
    scores_after_space(after_byte(b' ', fields)?)
}

// The scores whose text this is after its first space.
fn scores_after_space(text: &[u8]) -> Option<Scores>
    ensures found { IfSome result (SpellsScores (space ∷ text.now)) }
    ensures none { IfNone result ((scores : List ℕ) → SpellsScores (space ∷ text.now) scores → ⊥) }
{
    let mut scores = Scores::new();
    for word in Words::of(text) {
        let score = number_of_decimal(word)?;
        if scores.len() == MAX_SCORES {
            return None;
        }
        scores.push(score);
    }
    Some(scores)
}
