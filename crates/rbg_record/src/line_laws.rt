//! Laws of the lines of a record. The contract of each function is a law; its body does nothing.
ghost use Rattle.rbg_record.specs.LineLaws.{EntriesAreApart, HeadingsAreApart, SpellingsAreLines, LinesAreApart};

/// A text spells at most one entry.
pub fn entries_are_apart()
    ensures { EntriesAreApart }
{}

/// A text spells at most one version, one list of players and one start.
pub fn headings_are_apart()
    ensures { HeadingsAreApart }
{}

/// No spelling has a line feed in it.
pub fn spellings_are_lines()
    ensures { SpellingsAreLines }
{}

/// Bytes are the lines of at most one list of texts.
pub fn lines_are_apart()
    ensures { LinesAreApart }
{}
