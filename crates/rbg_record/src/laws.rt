//! Laws of records. The contract of each function is a law; its body does nothing.
ghost use Rattle.rbg_record.specs.Laws.{GoodByLines, MatchesAreRight, OneJudgement, OnePlainFault, OneRecord};

/// Line by line is the same as all at once: each line is right after those before it, and the record ends with the
/// last, exactly if the bytes are those of a record that is right.
pub fn good_lines_are_a_right_record()
    ensures { GoodByLines }
{}

/// At most one answer about a record is true, apart from questions above the limits and refused memory.
pub fn one_judgement()
    ensures { OneJudgement }
{}

/// The record of a match is right, in both versions.
pub fn matches_are_right()
    ensures { MatchesAreRight }
{}

/// Bytes are those of one record at most.
pub fn one_record()
    ensures { OneRecord }
{}

/// Bytes have one fault at most against the form of version 1, and none if they are those of such a record.
pub fn one_fault_of_version_1()
    ensures { OnePlainFault }
{}
