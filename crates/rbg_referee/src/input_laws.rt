//! Laws of what is printed of a match, and laws that join the statements of two crates. The contract of each function
//! is a law; its body does nothing.
ghost use Rattle.rbg_referee.specs.InputLaws.{AnswersAreApart, OutboxesAreWhole};

/// The bytes for each seat of a match are whole messages, and nothing follows the last one.
pub fn outboxes_are_whole()
    ensures { OutboxesAreWhole }
{}

/// An input has answers of one status at most, and at most one line of a script is named.
pub fn answers_are_apart()
    ensures { AnswersAreApart }
{}
