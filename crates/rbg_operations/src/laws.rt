//! Laws of answers. The contract of each function is a law; its body does nothing but call laws of the crates below.
ghost use Rattle.rbg_operations.specs.Laws.{
  RecordsAreGood,
  RightRecordsAreGood,
  SameLines,
  TaskAnswersAreApart,
};

use rbg_game::laws::texts_are_one_game;
use rbg_record::laws::{good_lines_are_a_right_record, one_fault_of_version_1, one_judgement};
use rbg_script::laws::scripts_are_apart;

/// The only answer about a right record is that it is good, unless a question is above the limits.
pub fn right_records_are_good()
    ensures { RightRecordsAreGood }
{
    texts_are_one_game();
    good_lines_are_a_right_record();
    one_judgement();
}

/// A task has answers of one status at most, unless a question is above the limits.
pub fn task_answers_are_apart()
    ensures { TaskAnswersAreApart }
{
    texts_are_one_game();
    one_judgement();
    good_lines_are_a_right_record();
    one_fault_of_version_1();
    scripts_are_apart();
}

/// The lines that are printed when the record of a match is written are those that are printed without one.
pub fn lines_are_the_same()
    ensures { SameLines }
{}

/// The only answer about the record of a match is that it is good, unless a question is above the limits.
pub fn records_are_good()
    ensures { RecordsAreGood }
{
    right_records_are_good();
}
