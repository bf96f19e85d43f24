//! Laws of packed places and of questions. The contract of each function is a law; its body does nothing.
ghost use Rattle.rbg_questions.specs.Laws.{FirstWordLaw, PackedApartLaw, PackedFitsLaw};

/// No two places of a game are packed alike.
pub fn packed_places_differ()
    ensures { PackedApartLaw }
{}

/// Each packed place fits a line.
pub fn packed_places_fit_a_line()
    ensures { PackedFitsLaw }
{}

/// Each question begins with one of the words.
pub fn questions_begin_with_their_words()
    ensures { FirstWordLaw }
{}
