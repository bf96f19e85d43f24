//! Laws of the section of a board and of the rest of the rules. Each function does nothing: its contract is the law.
ghost use Rattle.rbg_position.specs.Laws.{NamesAreOfVerticesLaw, RestGoesOnLaw, RestLaw, SameMovesGoOnLaw, SomeRestLaw};

/// The names in brackets are those of the pieces on the vertices, in order of the vertices.
pub fn names_in_brackets_are_of_vertices()
    ensures { NamesAreOfVerticesLaw }
{}

/// In numbered rules without an empty sum the words of the rest after an action are exactly what follows it.
pub fn words_of_rest()
    ensures { RestLaw }
{}

/// Each own action of an expression has a rest after it.
pub fn own_actions_have_a_rest()
    ensures { SomeRestLaw }
{}

/// Where the rest of the rules is the same with other numbers, play goes on alike.
pub fn rest_goes_on()
    ensures { RestGoesOnLaw }
{}

/// Where two places of games with the same rules have the same legal moves, play goes on alike.
pub fn same_moves_go_on()
    ensures { SameMovesGoOnLaw }
{}
