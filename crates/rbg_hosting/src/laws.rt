//! Laws of what a hall hands to an archive. The contract of each function is a law; its body does nothing.
ghost use Rattle.rbg_hosting.specs.Laws.{EachIsHandedOnce, KeptRecordsArePrinted};

/// The record of each match that has ended was handed over once, under its number.
pub fn each_is_handed_once()
    ensures { EachIsHandedOnce }
{}

/// What is kept of a match is what is printed of it.
pub fn kept_records_are_printed()
    ensures { KeptRecordsArePrinted }
{}
