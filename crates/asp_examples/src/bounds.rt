//! Worked examples of bounds of choices and of strong negation: each contract is computed. Atoms are numbered in their order
//! from 0.
ghost use Rattle.std.specs.Prelude.{◌≡◌, ◌+◌, true, false, [], ◌∷◌, None, Some, map, length, pos, negsuc};
ghost use Rattle.asp_defs.specs.declared.ground.Const.TheVariants.{Int};
ghost use Rattle.asp_defs.specs.Constants.{universe};
ghost use Rattle.asp_defs.specs.Bounds.{meets, counted_atoms};
ghost use Rattle.asp_defs.specs.Instances.{instance_count};
ghost use Rattle.asp_defs.specs.Games.{game_of, rules_of, bounds_of};
ghost use Rattle.asp_defs.specs.Sizes.{instance_total};
ghost use Rattle.asp_defs.specs.Values.{moves, is_coherent, quantified_answer_sets};
ghost use Rattle.asp_defs.specs.Entries.{stands_in_bounds, stands_at, stands_from};
ghost use Rattle.asp_defs.specs.History.{is_legal};
ghost use Rattle.asp_defs.specs.Examples as ex;
ghost use Rattle.asp_examples.specs.BoundExamples as bounds;

/// A bound is met from its lower number up to its upper one, both included, and everywhere where its body is false.
pub fn bounds_from_both_sides()
    ensures lower { map (λ I. meets I (bounds.bound [] [] (bounds.int 2) bounds.three None)) bounds.sets_by_size ≡ false ∷ false ∷ true ∷ true ∷ [] }
    ensures upper { map (λ I. meets I (bounds.bound [] [] None bounds.three (bounds.int 1))) bounds.sets_by_size ≡ true ∷ true ∷ false ∷ false ∷ [] }
    ensures both { map (λ I. meets I (bounds.bound [] [] (bounds.int 1) bounds.three (bounds.int 2))) bounds.sets_by_size ≡ false ∷ true ∷ true ∷ false ∷ [] }
    ensures swapped { map (λ I. meets I (bounds.bound [] [] (bounds.int 2) bounds.three (bounds.int 1))) bounds.sets_by_size ≡ false ∷ false ∷ false ∷ false ∷ [] }
    ensures negative { map (λ high. meets [] (bounds.bound [] [] (Some (negsuc 0)) bounds.three high)) (None ∷ bounds.int 0 ∷ Some (negsuc 0) ∷ []) ≡ true ∷ true ∷ false ∷ [] }
    ensures body { map (λ I. meets I (bounds.bound (5 ∷ []) (6 ∷ []) (bounds.int 1) [] None)) ([] ∷ (5 ∷ []) ∷ (6 ∷ []) ∷ (5 ∷ 6 ∷ []) ∷ []) ≡ true ∷ false ∷ true ∷ true ∷ [] }
{}

/// An atom counts once, where one of its conditions is true.
pub fn atoms_count_once()
    ensures repeated { map (λ I. length (counted_atoms I (bounds.bound [] [] None (bounds.counted 1 [] [] ∷ bounds.counted 1 [] [] ∷ []) None))) ([] ∷ (1 ∷ []) ∷ []) ≡ 0 ∷ 1 ∷ [] }
    ensures conditions { map (λ I. counted_atoms I (bounds.bound [] [] None (bounds.counted 1 (2 ∷ []) [] ∷ bounds.counted 1 [] (3 ∷ []) ∷ []) None)) ((1 ∷ []) ∷ (1 ∷ 2 ∷ []) ∷ (1 ∷ 3 ∷ []) ∷ (1 ∷ 2 ∷ 3 ∷ []) ∷ (2 ∷ []) ∷ []) ≡ (1 ∷ []) ∷ (1 ∷ []) ∷ [] ∷ (1 ∷ []) ∷ [] ∷ [] }
    ensures too_few { is_coherent (game_of bounds.two_of_one) ≡ false }
    ensures enough { quantified_answer_sets (game_of bounds.one_of_one) ≡ [] ∷ (0 ∷ []) ∷ [] }
{}

/// A choice between bounds has the answer sets that meet them: a false body, and a false condition, ask for nothing.
pub fn answer_sets_meet_bounds()
    ensures just_one { quantified_answer_sets (game_of bounds.just_one) ≡ (1 ∷ []) ∷ (0 ∷ []) ∷ [] }
    ensures no_number { is_coherent (game_of bounds.swapped_bounds) ≡ false }
    ensures body { quantified_answer_sets (game_of bounds.bound_with_body) ≡ [] ∷ (0 ∷ 1 ∷ []) ∷ [] }
    ensures condition { quantified_answer_sets (game_of bounds.conditional_bound) ≡ (0 ∷ []) ∷ [] }
{}

/// A bound counts atoms of the levels before its own, as the outer move has them.
pub fn bounds_count_outer_atoms()
    ensures without { moves (game_of bounds.outer_counted) 2 [] ≡ [] ∷ (1 ∷ []) ∷ [] }
    ensures with_it { moves (game_of bounds.outer_counted) 2 (0 ∷ []) ≡ (0 ∷ []) ∷ [] }
{}

/// A choice with a bound has a ground bound for each instance of its body, which counts the instances of its elements in their
/// order; an element's own variables run through the universe. A false comparison drops the bound, or the term in whose
/// condition it stands.
pub fn ground_bounds()
    ensures numbers { universe bounds.dropped_term 1 ≡ Int (pos 1) ∷ Int (pos 2) ∷ Int (pos 3) ∷ [] }
    ensures terms { bounds_of (game_of bounds.dropped_term) 1 ≡ bounds.bound [] [] (bounds.int 7) (bounds.counted 4 (1 ∷ []) [] ∷ bounds.counted 5 (2 ∷ []) [] ∷ []) None ∷ [] }
    ensures bodies { bounds_of (game_of bounds.dropped_bound) 1 ≡ bounds.bound [] [] None (bounds.counted 1 [] [] ∷ []) (bounds.int 2) ∷ [] }
    ensures order { bounds_of (game_of bounds.bounds_in_order) 1
        ≡ bounds.bound (1 ∷ []) (0 ∷ []) None (bounds.counted 0 [] [] ∷ bounds.counted 3 (1 ∷ []) (3 ∷ []) ∷ bounds.counted 5 (2 ∷ []) (4 ∷ []) ∷ []) (bounds.int 1)
        ∷ bounds.bound (2 ∷ []) (0 ∷ []) None (bounds.counted 0 [] [] ∷ bounds.counted 4 (1 ∷ []) (5 ∷ []) ∷ bounds.counted 6 (2 ∷ []) (6 ∷ []) ∷ []) (bounds.int 1)
        ∷ [] }
    ensures rules { map (λ b. b.pos) (bounds_of (game_of bounds.bounds_of_two_rules) 1) ≡ [] ∷ (1 ∷ 1 ∷ []) ∷ (1 ∷ 2 ∷ []) ∷ (2 ∷ 1 ∷ []) ∷ (2 ∷ 2 ∷ []) ∷ [] }
    ensures own_variables { map (λ b. map (λ c. c.atom) b.counted) (bounds_of (game_of bounds.bounds_of_two_rules) 1) ≡ (0 ∷ []) ∷ (3 ∷ 4 ∷ 5 ∷ 6 ∷ []) ∷ (3 ∷ 4 ∷ 5 ∷ 6 ∷ []) ∷ (3 ∷ 4 ∷ 5 ∷ 6 ∷ []) ∷ (3 ∷ 4 ∷ 5 ∷ 6 ∷ []) ∷ [] }
    ensures none { bounds_of (game_of ex.two_choices) 1 ≡ [] }
    ensures constraints { map (λ level. length (bounds_of (game_of bounds.outer_counted) level)) (1 ∷ 2 ∷ 3 ∷ []) ≡ 0 ∷ 1 ∷ 0 ∷ [] }
{}

/// A bound counts as many instances as its rule's body has; consistency constraints aren't counted.
pub fn counted_instances()
    ensures bounded { instance_count 5 bounds.two_kinds ≡ 5 + 25 + 5 }
    ensures unbounded { instance_count 5 bounds.unbounded_kinds ≡ 5 + 25 }
    ensures no_variable { map (instance_count 5) (ex.bounded (bounds.int 1) [] None [] ∷ ex.bounded None [] (bounds.int 1) [] ∷ ex.bounded None [] None [] ∷ []) ≡ 1 ∷ 1 ∷ 0 ∷ [] }
    ensures constraints { instance_total bounds.both_derived ≡ 2 }
    ensures rules { length (rules_of (game_of bounds.both_derived) 1) ≡ 3 }
{}

/// No answer set has an atom and its strong negation, in whichever levels they are derived.
pub fn strong_negation()
    ensures both_derived { is_coherent (game_of bounds.both_derived) ≡ false }
    ensures either { quantified_answer_sets (game_of bounds.either_derived) ≡ (1 ∷ []) ∷ (0 ∷ []) ∷ [] }
    ensures before { quantified_answer_sets (game_of bounds.negated_before) ≡ [] ∷ [] }
    ensures first_level { moves (game_of bounds.negated_before) 1 [] ≡ [] ∷ (0 ∷ []) ∷ [] }
{}

/// Behind the other rules of a level stands, for each predicate of its base whose negation of the same arity is in it too and for
/// each tuple over its universe, the constraint that the predicate and its negation aren't both true, ascending.
pub fn consistency_constraints()
    ensures levels { map (λ level. map (λ r. r.pos) (rules_of (game_of bounds.negated_before) level)) (1 ∷ 2 ∷ 3 ∷ []) ≡ ([] ∷ []) ∷ ([] ∷ (1 ∷ 0 ∷ []) ∷ []) ∷ ((1 ∷ 0 ∷ []) ∷ []) ∷ [] }
    ensures tuples { map (λ r. r.pos) (rules_of (game_of bounds.negated_predicates) 1) ≡ [] ∷ [] ∷ [] ∷ [] ∷ [] ∷ (5 ∷ 1 ∷ []) ∷ (6 ∷ 2 ∷ []) ∷ [] }
    ensures pairs { map (λ r. r.pos) (rules_of (game_of bounds.negated_pairs) 1) ≡ [] ∷ [] ∷ (4 ∷ 0 ∷ []) ∷ (5 ∷ 1 ∷ []) ∷ (6 ∷ 2 ∷ []) ∷ (7 ∷ 3 ∷ []) ∷ [] }
    ensures order { map (λ r. r.pos) (rules_of (game_of bounds.two_negated) 1) ≡ [] ∷ [] ∷ [] ∷ [] ∷ (2 ∷ 0 ∷ []) ∷ (3 ∷ 1 ∷ []) ∷ [] }
    ensures heads { map (λ r. length r.head) (rules_of (game_of bounds.two_negated) 1) ≡ 1 ∷ 1 ∷ 1 ∷ 1 ∷ 0 ∷ 0 ∷ [] }
{}

/// An atom of a cube may stand in a bound of the entry's level alone: in its body, counted, or in a condition.
pub fn cubes_have_atoms_of_bounds()
    ensures atoms { map (λ a. stands_in_bounds a bounds.five_atoms) (0 ∷ 1 ∷ 2 ∷ 3 ∷ 4 ∷ 5 ∷ 6 ∷ []) ≡ false ∷ true ∷ true ∷ true ∷ true ∷ true ∷ false ∷ [] }
    ensures bound { map (λ level. stands_at (game_of bounds.bound_alone) level 0) (1 ∷ 2 ∷ 3 ∷ []) ≡ true ∷ true ∷ false ∷ [] }
    ensures behind { map (λ level. stands_from (game_of bounds.bound_alone) level 0) (1 ∷ 2 ∷ 3 ∷ []) ≡ true ∷ true ∷ false ∷ [] }
    ensures rules { map (λ r. r.pos) (rules_of (game_of bounds.bound_alone) 2) ≡ [] ∷ [] }
    ensures legal { is_legal (game_of bounds.bound_alone) bounds.bound_alone_won ≡ true }
{}
