//! Laws of the definitions of a game's meaning. Each function does nothing: its contract is the law.
ghost use Rattle.rbg_rules.specs.Laws.{SequenceLaw, SumLaw, StarLaw, OneLevelLaw, SomeLevelLaw, PairsLaw, OwnWordLaw, RunLaw, OneRunLaw, PatternLaw, PositiveLaw, NegativeLaw, MoveLaw, OnePlaceLaw, StateLaw, WordLaw, LocalityLaw, TrimLaw, EmptyLaw, EmptyOpeningLaw, AnswerLaw, PairsStateLaw};

/// The words of a sequence are the joins of one word of each part in order.
pub fn words_of_sequence()
    ensures { SequenceLaw }
{}

/// The words of a sum are the words of its parts.
pub fn words_of_sum()
    ensures { SumLaw }
{}

/// The words of a star are the joins of finitely many words of its part.
pub fn words_of_star()
    ensures { StarLaw }
{}

/// An action belongs directly to at most one level: the rules, or the inside of one pattern.
pub fn action_belongs_to_one_level()
    ensures { OneLevelLaw }
{}

/// An action of the rules belongs directly to some level.
pub fn action_belongs_to_some_level()
    ensures { SomeLevelLaw }
{}

/// A list of positions that runs leaves a list of pairs, and one that leaves pairs runs.
pub fn runs_have_pairs()
    ensures { PairsLaw }
{}

/// The positions of a word are those of the actions that belong directly to its expression.
pub fn words_have_own_positions()
    ensures { OwnWordLaw }
{}

/// A run of a joined list is a run of the first and then a run of the second.
pub fn run_of_joined_list()
    ensures { RunLaw }
{}

/// A run from one semi-state ends in at most one.
pub fn run_is_a_function()
    ensures { OneRunLaw }
{}

/// A pattern leaves the semi-state as it was.
pub fn pattern_changes_nothing()
    ensures { PatternLaw }
{}

/// A positive pattern holds exactly if a word of its inside runs by the game's own actions.
pub fn positive_pattern_runs()
    ensures { PositiveLaw }
{}

/// A negative pattern holds exactly if no word of its inside runs by the game's own actions.
pub fn negative_pattern_runs()
    ensures { NegativeLaw }
{}

/// Play is finished exactly if no list of pairs is a move.
pub fn moves_and_the_end()
    ensures { MoveLaw }
{}

/// A place and a list of pairs reach at most one place.
pub fn pairs_reach_one_place()
    ensures { OnePlaceLaw }
{}

/// The actions of a game lead from one of its semi-states, as the start is, to one of its semi-states.
pub fn actions_stay_in_the_game()
    ensures { StateLaw }
{}

/// An expression in which no sum is empty has a word.
pub fn rules_have_words()
    ensures { WordLaw }
{}

/// In numbered rules a list that goes through a position follows exactly if its part up to the position follows and the
/// rest follows the position. The same holds of the ends of words.
pub fn neighbours_decide()
    ensures { LocalityLaw }
{}

/// If no sum is empty, each own action of an expression is in some word of it.
pub fn actions_stand_in_words()
    ensures { TrimLaw }
{}

/// If no sum is empty, the empty list follows from everywhere.
pub fn empty_list_follows()
    ensures { EmptyLaw }
{}

/// If no sum is empty, the empty list is an opening everywhere, of every question but that for the move of no pairs.
pub fn empty_list_is_an_opening()
    ensures { EmptyOpeningLaw }
{}

/// The answer to a pattern's question decides whether the pattern is valid: whether some word of its inside runs.
pub fn pattern_answers()
    ensures { AnswerLaw }
{}

/// Two runs from one semi-state with the same pairs end in the same semi-state but for the current vertex, and the
/// pairs alone lead there.
pub fn pairs_fix_the_state()
    ensures { PairsStateLaw }
{}
