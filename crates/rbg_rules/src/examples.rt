//! Small facts of small games, which show what the definitions mean. Each function does nothing: its contract is the
//! fact.
ghost use Rattle.std.specs.Prelude.{◌≡◌, ℕ, ◌-◌, ◌^◌, List, [], ◌∷◌, All, Contains, Some, None, Bool, pos, negsuc};
ghost use Rattle.rbg_rules.specs.Meaning.{number, piece_count, negated, sum, difference, product, quotient, off, on, sequence_of, choice_of, act, star, IsNumbered, inside, Word, after, beginning, AbstractState, start_of, value_of, Acts, Applies, IsLegal, Finished, Item, modifier_at, pattern_at, find_move, try_move, pattern, Opening, HasOpenings, IsDeep, IsWide, Forced, HasForced, IsHeavyToFind, IsGame};
ghost use Rattle.rbg_rules.specs.ExampleGames.{one_square, two_squares, star_of_offs, without_end, counting, looking_right, nothing_right, small_sum, keeper_for_ever, asking_a_sum, heavy_choice, nested, state_of, white_on};

/// In `->white ([e])* ->black` the keeper begins by the switch to white. White may end its turn at once, or after any
/// number of offs, but not with an off.
pub fn moves_through_a_star()
    ensures opening { IsLegal star_of_offs (record { state = start_of star_of_offs; last = None })
        ((0, 1) ∷ []) }
    ensures at_once { IsLegal star_of_offs (white_on (0 ∷ [])) ((0, 3) ∷ []) }
    ensures after_two { IsLegal star_of_offs (white_on (0 ∷ [])) ((0, 2) ∷ (0, 2) ∷ (0, 3) ∷ []) }
    ensures no_switch { ¬ IsLegal star_of_offs (white_on (0 ∷ [])) ((0, 2) ∷ []) }
    ensures two_switches { ¬ IsLegal star_of_offs
        (record { state = start_of star_of_offs; last = None })
        ((0, 1) ∷ (0, 3) ∷ []) }
{}

/// A pattern's offs and steps are undone after it: in `->white {? right [w]} right {e} [w] ->black` on two squares the
/// second one is still e, and the first one is still current.
pub fn pattern_is_undone()
    ensures legal { IsLegal looking_right (white_on (0 ∷ 0 ∷ [])) ((1, 7) ∷ (1, 8) ∷ []) }
    ensures not_its_off { ¬ IsLegal looking_right (white_on (0 ∷ 0 ∷ [])) ((1, 4) ∷ (1, 7) ∷ (1, 8)
        ∷ []) }
{}

/// In `->white {! right [w] {w}} [w] ->black` the negative pattern stops white on two squares, since a word of its
/// inside runs there. On one square there is no square to the right, and white may move.
pub fn negative_pattern()
    ensures holds { IsLegal (nothing_right one_square) (white_on (0 ∷ [])) ((0, 6) ∷ (0, 7) ∷ []) }
    ensures fails { Finished (nothing_right two_squares) (white_on (0 ∷ 0 ∷ [])) }
{}

/// In `->white (right + left)* {! {? right} {! left}} [w] ->black` on two squares the outer pattern stops white on the
/// first one, from which it can step to the right and not to the left.
pub fn nested_patterns()
    ensures second { IsLegal nested (white_on (0 ∷ 0 ∷ [])) ((1, 9) ∷ (1, 10) ∷ []) }
    ensures not_first { ¬ IsLegal nested (white_on (0 ∷ 0 ∷ [])) ((0, 9) ∷ (0, 10) ∷ []) }
{}

/// Division drops the fraction toward zero, and by zero it has no value.
pub fn division()
    ensures then_times { value_of (product (quotient (number 7) (number 2)) (number 2))
        (state_of 1 [] 0) ≡
        Some (pos 6) }
    ensures below_zero { value_of (quotient (difference (number 0) (number 7)) (number 2))
        (state_of 1 [] 0) ≡
        Some (negsuc 2) }
    ensures by_zero { value_of (quotient (number 1) (number 0)) (state_of 1 [] 0) ≡ None }
{}

/// A value outside signed 64 bits at any point gives no value, even if the whole would be in range again.
pub fn numbers_of_64_bits()
    ensures greatest { value_of (number (2 ^ 63 - 1)) (state_of 1 [] 0) ≡ Some (pos (2 ^ 63 - 1)) }
    ensures above { value_of (difference (sum (number (2 ^ 63 - 1)) (number 1)) (number 1))
        (state_of 1 [] 0) ≡ None }
    ensures least { value_of (difference (difference (number 0) (number (2 ^ 63 - 1))) (number 1))
        (state_of 1 [] 0) ≡
        Some (negsuc (2 ^ 63 - 1)) }
    ensures below { value_of (difference (difference (number 0) (number (2 ^ 63 - 1))) (number 2))
        (state_of 1 [] 0) ≡
        None }
    ensures negated_least { value_of (quotient
        (difference (negated (number (2 ^ 63 - 1))) (number 1))
        (negated (number 1))) (state_of 1 [] 0) ≡ None }
    ensures product { value_of (product (number (2 ^ 32)) (number (2 ^ 31 - 1))) (state_of 1 [] 0) ≡
        Some (pos (2 ^ 63 - 2 ^ 32)) }
    ensures wide_product { value_of (product (number (2 ^ 32)) (number (2 ^ 31))) (state_of 1 [] 0)
        ≡ None }
{}

/// A piece in arithmetic is the number of vertices that hold it.
pub fn counted_pieces()
    ensures times_three { value_of (product (piece_count 0) (number 3)) (state_of 1 (0 ∷ 0 ∷ []) 0)
        ≡ Some (pos 6) }
    ensures others { value_of (piece_count 1) (state_of 1 (0 ∷ 1 ∷ 0 ∷ []) 0) ≡ Some (pos 1) }
{}

/// An assignment isn't valid if its value is above the bound: n has the bound 1, so `[$ n=n+1]` applies at 0 and not at
/// 1.
pub fn bounded_assignment()
    ensures at_zero { Applies counting 2 (state_of 1 (0 ∷ []) 0) (state_of 1 (0 ∷ []) 1) }
    ensures at_one { (t : AbstractState) → ¬ Applies counting 2 (state_of 1 (0 ∷ []) 1) t }
    ensures once { IsLegal counting (white_on (0 ∷ [])) ((0, 2) ∷ (0, 3) ∷ []) }
{}

/// `{}` is valid nowhere, and `[w]` everywhere.
pub fn empty_set()
    ensures on_nothing { (s t : AbstractState) → ¬ Acts without_end (on []) s t }
    ensures off_anything { (s : AbstractState)
        → (t : AbstractState) × Acts without_end (off 1) s t }
{}

/// `->white ([w])* {}` has no move for white, however many offs it takes.
pub fn no_way_to_end()
    ensures { Finished without_end (white_on (0 ∷ [])) }
{}

/// The keeper may move again and again in `(->>)*`.
pub fn keeper_moves()
    ensures first { IsLegal keeper_for_ever
        (record { state = start_of keeper_for_ever; last = None }) ((0, 1) ∷ []) }
    ensures again { IsLegal keeper_for_ever
        (record { state = start_of keeper_for_ever; last = Some 1 }) ((0, 1) ∷ []) }
{}

/// Words of a star, of a sum and of a sequence.
pub fn words()
    ensures none { Word (star (act 2 (off 0))) [] }
    ensures twice { Word (star (act 2 (off 0))) (2 ∷ 2 ∷ []) }
    ensures another { ¬ Word (star (act 2 (off 0))) (3 ∷ []) }
    ensures of_sum { Word (choice_of (act 1 (off 0) ∷ act 2 (off 1) ∷ [])) (2 ∷ []) }
    ensures not_both { ¬ Word (choice_of (act 1 (off 0) ∷ act 2 (off 1) ∷ [])) (1 ∷ 2 ∷ []) }
    ensures of_sequence { Word (sequence_of (act 1 (off 0) ∷ act 2 (off 1) ∷ [])) (1 ∷ 2 ∷ []) }
    ensures not_alone { ¬ Word (sequence_of (act 1 (off 0) ∷ act 2 (off 1) ∷ [])) (1 ∷ []) }
{}

/// Positions continue inside a pattern, whose own position comes first. A number that comes twice, or out of order,
/// makes no numbering.
pub fn numbering()
    ensures pattern_first { IsNumbered (looking_right.rules) }
    ensures twice { ¬ IsNumbered (sequence_of (act 1 (off 0) ∷ act 1 (off 0) ∷ [])) }
    ensures out_of_order { ¬ IsNumbered (sequence_of (act 2 (off 0) ∷ act 1 (off 0) ∷ [])) }
{}

/// There is a game that meets all conditions on an accepted game.
pub fn a_game()
    ensures { IsGame looking_right }
{}

/// In `->white ([e] + [w]) ->black` white's question for a move has three openings: at its beginning, and after each
/// off.
pub fn openings_of_a_sum()
    ensures these { All (Opening small_sum find_move (state_of 1 (0 ∷ []) 0) (after 1))
        ([] ∷ (modifier_at 0 2 ∷ []) ∷ (modifier_at 0 3 ∷ []) ∷ []) }
    ensures no_other { (o : List Item) →
        Opening small_sum find_move (state_of 1 (0 ∷ []) 0) (after 1) o →
        Contains ([] ∷ (modifier_at 0 2 ∷ []) ∷ (modifier_at 0 3 ∷ []) ∷ []) o }
    ensures three { HasOpenings small_sum find_move (state_of 1 (0 ∷ []) 0) (after 1) 3 }
{}

/// A question for a move doesn't go past an answer: in `->white ([e])* ->black` the switch is met before any off.
pub fn openings_end_at_an_answer()
    ensures { (o : List Item) → Opening star_of_offs find_move (state_of 1 (0 ∷ []) 0) (after 1) o
        → o ≡ [] }
{}

/// The question of a pattern opens the pairs of the pattern's own modifiers, after the vertex at which it is asked.
pub fn openings_in_a_pattern()
    ensures { Opening looking_right find_move (state_of 1 (0 ∷ 0 ∷ []) 0) (after 1)
        (pattern_at 0 2 ∷ modifier_at 1 4 ∷ []) }
{}

/// In `->white ([w])* {}` white's question is deep under any budget of modifiers.
pub fn deep_question()
    ensures { (modifiers : ℕ)
        → IsDeep without_end find_move (state_of 1 (0 ∷ []) 0) (after 1) modifiers }
{}

/// A list of pairs that is no move forces no opening, not even the empty list.
pub fn nothing_forced()
    ensures { (cut : Bool) (o : List Item) →
        ¬ Forced star_of_offs cut (try_move ((0, 2) ∷ [])) (state_of 1 (0 ∷ []) 0) (after 1) o }
{}

/// In `->white {! ([w] + [e]) {}} ->black` the pattern's question has three openings: at the vertex where it is asked,
/// and after each off. All three are forced, since no word of the inside runs. So the question is wide under a budget
/// of two.
pub fn openings_of_a_pattern()
    ensures no_other { (o : List Item) →
        Opening asking_a_sum pattern (state_of 1 (0 ∷ []) 0) (beginning (inside 2)) o →
        Contains ([] ∷ (modifier_at 0 3 ∷ []) ∷ (modifier_at 0 4 ∷ []) ∷ []) o }
    ensures forced { (cut : Bool) →
        All (Forced asking_a_sum cut pattern (state_of 1 (0 ∷ []) 0) (beginning (inside 2)))
        ([] ∷ (modifier_at 0 3 ∷ []) ∷ (modifier_at 0 4 ∷ []) ∷ []) }
    ensures three_forced { (cut : Bool) →
        HasForced asking_a_sum cut pattern (state_of 1 (0 ∷ []) 0) (beginning (inside 2)) 3 }
    ensures wide { IsWide asking_a_sum pattern (state_of 1 (0 ∷ []) 0) (beginning (inside 2)) 2 }
{}

/// In `->white (([e])* {} + [w]) ->black` white has a legal move, and yet its question for a move is above the limits.
pub fn heavy_with_a_move()
    ensures legal { IsLegal heavy_choice (white_on (0 ∷ [])) ((0, 4) ∷ (0, 5) ∷ []) }
    ensures heavy { IsHeavyToFind heavy_choice (white_on (0 ∷ [])) }
{}
