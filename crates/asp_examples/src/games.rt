//! Worked examples of the definitions: each contract is computed. Atoms are numbered in their order from 0.
ghost use Rattle.std.specs.Prelude.{◌≡◌, ◌+◌, ◌*◌, true, false, [], ◌∷◌, None, Some, map, length, pos, negsuc, codes};
ghost use Rattle.std.specs.declared.cmp.Ordering.TheVariants.{Less, Equal, Greater};
ghost use Rattle.asp_defs.specs.declared.faults.Kind.TheVariants.{Search, Minimal, Store};
ghost use Rattle.asp_defs.specs.declared.ground.Const.TheVariants.{Int, Sym};
ghost use Rattle.asp_defs.specs.declared.syntax.Op.TheVariants.{Eq, Ne, Lt, Le, Gt, Ge};
ghost use Rattle.asp_defs.specs.declared.syntax.Term.TheVariants.{Var};
ghost use Rattle.asp_defs.specs.declared.syntax.Literal.TheVariants.{Cmp};
ghost use Rattle.asp_defs.specs.Constants.{const_cmp, universe};
ghost use Rattle.asp_defs.specs.Bases.{predicates, base_atoms};
ghost use Rattle.asp_defs.specs.Instances.{schemas, op_holds, comparison_true};
ghost use Rattle.asp_defs.specs.Games.{game_of, rules_of, atoms_ascend};
ghost use Rattle.asp_defs.specs.Values.{is_coherent, quantified_answer_sets};
ghost use Rattle.asp_defs.specs.Pages.{page_of};
ghost use Rattle.asp_defs.specs.Entries.{cube_holds, stands_at, is_entry, cost};
ghost use Rattle.asp_defs.specs.History.{is_held_with, has_verdict, is_justified, is_legal};
ghost use Rattle.asp_defs.specs.Machine.{start, may_run, run, Look, Fork, Add, End};
ghost use Rattle.asp_defs.specs.Unknowns.{enough_cells, is_possible};
ghost use Rattle.asp_defs.specs.Words.{SolveTask, ListTask, CheckTask};
ghost use Rattle.asp_defs.specs.Sets.{MoreEnd, LastEnd, UnknownEnd};
ghost use Rattle.asp_defs.specs.Shown.{shows_unknown, shows_verdict, shows_set, VerdictClaim, OpenClaim, PageClaim, shows, ending_of, page_end_code};
ghost use Rattle.asp_defs.specs.Examples as ex;

/// A choice may take the atom that a constraint asks for.
pub fn a_choice_meets_a_constraint()
    ensures { is_coherent (game_of ex.chosen_atom) ≡ true }
{}

/// The sets of the first level that answer each choice of the second are `{a}` and `{a, b}`.
pub fn minimax_sets()
    ensures { quantified_answer_sets (game_of ex.minimax) ≡ (0 ∷ []) ∷ (0 ∷ 1 ∷ []) ∷ [] }
{}

/// A universal level without answer sets claims nothing.
pub fn forall_over_nothing_is_coherent()
    ensures { is_coherent (game_of ex.forall_over_nothing) ≡ true }
{}

/// An atom that is derived exactly where it is false has no answer set.
pub fn an_odd_loop_is_incoherent()
    ensures { is_coherent (game_of ex.odd_loop) ≡ false }
{}

/// A disjunction whose atoms derive each other has one answer set, with both.
pub fn a_disjunction_may_need_both()
    ensures { quantified_answer_sets (game_of ex.both_of_a_disjunction) ≡ (0 ∷ 1 ∷ []) ∷ [] }
{}

/// A positive loop is true only where a choice supports it from outside.
pub fn a_positive_loop_needs_support()
    ensures { quantified_answer_sets (game_of ex.positive_loop) ≡ [] ∷ (0 ∷ 1 ∷ 2 ∷ []) ∷ [] }
{}

/// A lower level that derives an atom which is false outside has no answer set there.
pub fn false_outer_atoms_are_fixed()
    ensures { quantified_answer_sets (game_of ex.fixed_false) ≡ [] ∷ [] }
{}

/// A constant of the second level gives no atoms to the first, so the second may derive them.
pub fn universes_grow()
    ensures { is_coherent (game_of ex.grown_universe) ≡ true }
{}

/// An atom that stands in the constraint part alone is false.
pub fn an_unused_atom_is_false()
    ensures { quantified_answer_sets (game_of ex.unused_atom) ≡ (0 ∷ []) ∷ [] }
{}

/// Sets without the first atom come first, and a page tells that more follow.
pub fn pages_begin_with_falsity()
    ensures { page_of (game_of ex.two_choices) None 3 ≡ record { sets = [] ∷ (1 ∷ []) ∷ (0 ∷ []) ∷ []; more = true } }
{}

/// A page after `{a}` has what comes strictly after it.
pub fn a_page_resumes()
    ensures { page_of (game_of ex.two_choices) (Some (0 ∷ [])) 100 ≡ record { sets = (0 ∷ 1 ∷ []) ∷ []; more = false } }
{}

/// The second level can answer the third only where the first chose `a`.
pub fn three_levels_sets()
    ensures { quantified_answer_sets (game_of ex.three_levels) ≡ (0 ∷ []) ∷ [] }
{}

/// Of `n(1..2)` only `n(2)` passes the comparison, so `p(2)` alone is free.
pub fn intervals_and_comparisons()
    ensures { quantified_answer_sets (game_of ex.interval_and_comparison) ≡ (0 ∷ 1 ∷ []) ∷ (0 ∷ 1 ∷ 3 ∷ []) ∷ [] }
{}

/// Integers come before symbols and are ordered by value.
pub fn integers_come_first()
    ensures { universe ex.order_of_constants 1 ≡ Int (negsuc 1) ∷ Int (pos 10) ∷ Sym (codes "b") ∷ [] }
{}

/// A nameless variable takes every constant.
pub fn anonymous_variables_run()
    ensures { quantified_answer_sets (game_of ex.anonymous) ≡ (0 ∷ 1 ∷ 2 ∷ []) ∷ [] }
{}

/// An element is free only where its own condition holds.
pub fn conditions_of_elements()
    ensures { quantified_answer_sets (game_of ex.conditional_choice) ≡ (2 ∷ []) ∷ (0 ∷ 2 ∷ []) ∷ [] }
{}

/// The base has every predicate over every constant, also atoms that no rule derives.
pub fn bases_have_all_atoms()
    ensures { length (base_atoms ex.larger_base 1) ≡ 4 }
{}

/// An interval with its ends swapped gives no constant and no fact.
pub fn a_swapped_interval_is_empty()
    ensures { quantified_answer_sets (game_of ex.swapped_interval) ≡ (0 ∷ []) ∷ [] }
{}

/// Instances come with the last variable running fastest, and without those whose comparison is false.
pub fn the_last_variable_runs_fastest()
    ensures { map (λ r. r.pos) (rules_of (game_of ex.two_variables) 1) ≡ [] ∷ [] ∷ (1 ∷ 2 ∷ []) ∷ (2 ∷ 1 ∷ []) ∷ [] }
{}

/// A history that wins both levels of the program without rules is legal, and a second entry whose seed an earlier one of its
/// level holds isn't. A level is lost where every move of it is refuted, and not where one of them isn't.
pub fn histories_of_one_level()
    ensures won { is_legal (game_of ex.nothing) ex.won ≡ true }
    ensures repeated { is_legal (game_of ex.nothing) (ex.entry 2 [] true [] ∷ ex.won) ≡ false }
    ensures refuted { is_legal (game_of ex.contradiction) ex.refuted ≡ true }
    ensures half_refuted { is_legal (game_of ex.contradiction) ex.half_refuted ≡ false }
{}

/// A cube holds no set in which one of its literals is false.
pub fn cubes_hold_by_all_literals()
    ensures { cube_holds (ex.literal 0 true ∷ ex.literal 1 true ∷ []) (0 ∷ []) ≡ false }
{}

/// Cells are counted over the moves of the base below each level.
pub fn cells_that_are_enough()
    ensures nothing { enough_cells (game_of ex.nothing) ≡ 2 }
    ensures one_level { enough_cells (game_of ex.two_choices) ≡ 1 + 4 * (1 + 2 * 2) }
    ensures two_levels { enough_cells (game_of ex.minimax) ≡ 1 + (4 * (1 + 2 * 2) + 8 * (1 + 2 * 3)) }
{}

/// A search over two atoms may be spent below nine placements, and not with nine; so may a check of minimality. One over
/// three atoms may be spent with nine. Neither happens at another level than those of the quantifiers, or with another number
/// than the budget.
pub fn possible_searches()
    ensures budgets { map (λ budget. is_possible (game_of ex.two_choices) budget 9 (ex.unknown Search 1 budget)) (8 ∷ 9 ∷ []) ≡ true ∷ false ∷ [] }
    ensures minimal { map (λ budget. is_possible (game_of ex.two_choices) budget 9 (ex.unknown Minimal 1 budget)) (8 ∷ 9 ∷ []) ≡ true ∷ false ∷ [] }
    ensures searched_levels { map (λ level. is_possible (game_of ex.minimax) 9 1 (ex.unknown Search level 9)) (0 ∷ 1 ∷ 2 ∷ 3 ∷ 4 ∷ []) ≡ false ∷ false ∷ true ∷ false ∷ false ∷ [] }
    ensures checked_levels { map (λ level. is_possible (game_of ex.minimax) 8 1 (ex.unknown Minimal level 8)) (0 ∷ 1 ∷ 2 ∷ 3 ∷ 4 ∷ []) ≡ false ∷ true ∷ true ∷ false ∷ false ∷ [] }
    ensures no_level { map (λ kind. is_possible (game_of ex.two_choices) 0 1 (ex.unknown kind 0 0)) (Search ∷ Minimal ∷ []) ≡ false ∷ false ∷ [] }
    ensures other_number { map (λ kind. is_possible (game_of ex.two_choices) 8 7 (ex.unknown kind 1 7)) (Search ∷ Minimal ∷ []) ≡ false ∷ false ∷ [] }
{}

/// A store may be full with one cell less than are enough, at each level from the first to the constraint part.
pub fn possible_refusals()
    ensures cells { map (λ allowed. is_possible (game_of ex.minimax) 1 allowed (ex.unknown Store 1 allowed)) (76 ∷ 77 ∷ []) ≡ true ∷ false ∷ [] }
    ensures levels { map (λ level. is_possible (game_of ex.minimax) 1 76 (ex.unknown Store level 76)) (0 ∷ 1 ∷ 2 ∷ 3 ∷ 4 ∷ []) ≡ false ∷ true ∷ true ∷ true ∷ false ∷ [] }
    ensures other_number { is_possible (game_of ex.minimax) 8 76 (ex.unknown Store 1 8) ≡ false }
{}

/// A page with as many sets as are left tells of no more.
pub fn a_full_page_may_be_the_last()
    ensures whole { (page_of (game_of ex.two_choices) None 4).more ≡ false }
    ensures rest { (page_of (game_of ex.two_choices) (Some (1 ∷ [])) 2).more ≡ false }
    ensures less { (page_of (game_of ex.two_choices) (Some (1 ∷ [])) 1).more ≡ true }
{}

/// Each nameless variable of a rule takes every constant, whatever the others take.
pub fn nameless_variables_are_apart()
    ensures { map (λ r. r.pos) (rules_of (game_of ex.two_nameless) 1) ≡ [] ∷ (0 ∷ []) ∷ (1 ∷ []) ∷ (2 ∷ []) ∷ (3 ∷ []) ∷ [] }
{}

/// What is written in a head, a condition, a negative literal and a comparison counts, and what a later level writes doesn't. A
/// variable that stands in a comparison alone runs too.
pub fn what_is_written_counts()
    ensures constants { universe ex.written_places 1 ≡ Int (pos 1) ∷ Int (pos 2) ∷ Int (pos 3) ∷ Int (pos 4) ∷ [] }
    ensures predicates { map (λ q. q.name) (predicates ex.written_places 1) ≡ codes "p" ∷ codes "q" ∷ codes "r" ∷ [] }
    ensures later { length (rules_of (game_of ex.later_constant) 1) ≡ 2 }
    ensures equated { length (rules_of (game_of ex.equated) 1) ≡ 1 }
{}

/// Atoms are ordered by name, then by arity, then by their arguments from the left, where integers come before symbols.
pub fn order_of_atoms()
    ensures names { map (λ a. length a.name) (base_atoms ex.order_of_atoms 1) ≡ 1 ∷ 1 ∷ 1 ∷ 1 ∷ 1 ∷ 1 ∷ 1 ∷ 2 ∷ [] }
    ensures arguments { map (λ a. a.args) (base_atoms ex.order_of_atoms 1) ≡ [] ∷ (Int (pos 1) ∷ []) ∷ (Sym (codes "b") ∷ []) ∷ (Int (pos 1) ∷ Int (pos 1) ∷ []) ∷ (Int (pos 1) ∷ Sym (codes "b") ∷ []) ∷ (Sym (codes "b") ∷ Int (pos 1) ∷ []) ∷ (Sym (codes "b") ∷ Sym (codes "b") ∷ []) ∷ [] ∷ [] }
    ensures ascending { atoms_ascend (base_atoms ex.order_of_atoms 1) ≡ true }
    ensures constants { map (const_cmp (Int (pos 10))) (Int (pos 9) ∷ Int (pos 10) ∷ Int (pos 11) ∷ Sym (codes "") ∷ []) ≡ Greater ∷ Equal ∷ Less ∷ Less ∷ [] }
    ensures symbols { map (const_cmp (Sym (codes "b"))) (Int (pos 9) ∷ Sym (codes "az") ∷ Sym (codes "b") ∷ Sym (codes "ba") ∷ []) ≡ Greater ∷ Greater ∷ Equal ∷ Less ∷ [] }
{}

/// An instance of an element has the literals of the rule's body before those of its condition, and the variables of the
/// element before those of the body.
pub fn bodies_come_before_conditions()
    ensures pos { map (λ r. r.pos) (rules_of (game_of ex.body_and_condition) 1) ≡ [] ∷ [] ∷ (3 ∷ 2 ∷ []) ∷ [] }
    ensures neg { map (λ r. r.neg) (rules_of (game_of ex.body_and_condition) 1) ≡ [] ∷ [] ∷ (1 ∷ []) ∷ [] }
    ensures disjunction { map (λ s. s.variables) (schemas ex.two_variables_rule) ≡ (Var (codes "Y") ∷ ex.x ∷ []) ∷ [] }
    ensures variables { map (λ s. s.variables) (schemas ex.three_variables) ≡ (Var (codes "Z") ∷ Var (codes "Y") ∷ ex.x ∷ []) ∷ [] }
{}

/// A fact with two intervals stands for a fact per combination, the last interval running fastest.
pub fn intervals_combine()
    ensures { map (λ r. r.head) (rules_of (game_of ex.two_intervals) 1) ≡ (1 ∷ []) ∷ (2 ∷ []) ∷ (4 ∷ []) ∷ (5 ∷ []) ∷ [] }
{}

/// Which comparisons hold of a smaller, an equal and a greater constant.
pub fn comparisons()
    ensures equal { map (op_holds Eq) (Less ∷ Equal ∷ Greater ∷ []) ≡ false ∷ true ∷ false ∷ [] }
    ensures unequal { map (op_holds Ne) (Less ∷ Equal ∷ Greater ∷ []) ≡ true ∷ false ∷ true ∷ [] }
    ensures less { map (op_holds Lt) (Less ∷ Equal ∷ Greater ∷ []) ≡ true ∷ false ∷ false ∷ [] }
    ensures at_most { map (op_holds Le) (Less ∷ Equal ∷ Greater ∷ []) ≡ true ∷ true ∷ false ∷ [] }
    ensures greater { map (op_holds Gt) (Less ∷ Equal ∷ Greater ∷ []) ≡ false ∷ false ∷ true ∷ [] }
    ensures at_least { map (op_holds Ge) (Less ∷ Equal ∷ Greater ∷ []) ≡ false ∷ true ∷ true ∷ [] }
    ensures sides { map (comparison_true [] []) (Cmp (ex.int 1) Lt (ex.int 2) ∷ Cmp (ex.int 2) Lt (ex.int 1) ∷ []) ≡ true ∷ false ∷ [] }
{}

/// An entry has a level of the game; its seed, and the atoms of its cube, ascend and lie in the base below; and its cube holds
/// its seed.
pub fn formed_entries()
    ensures levels { map (λ level. is_entry (game_of ex.nothing) (ex.entry level [] true [])) (0 ∷ 1 ∷ 2 ∷ 3 ∷ []) ≡ false ∷ true ∷ true ∷ false ∷ [] }
    ensures seeds { map (is_entry (game_of ex.duel)) (ex.entry 1 [] true (0 ∷ []) ∷ ex.entry 2 [] true (0 ∷ []) ∷ ex.entry 2 [] true (1 ∷ []) ∷ ex.entry 3 [] true (0 ∷ 1 ∷ []) ∷ ex.entry 3 [] true (1 ∷ 0 ∷ []) ∷ []) ≡ false ∷ true ∷ false ∷ true ∷ false ∷ [] }
    ensures bases { map (is_entry (game_of ex.duel)) (ex.entry 2 (ex.literal 0 true ∷ []) true (0 ∷ []) ∷ ex.entry 2 (ex.literal 1 false ∷ []) true (0 ∷ []) ∷ ex.entry 3 (ex.literal 1 false ∷ []) true (0 ∷ []) ∷ []) ≡ true ∷ false ∷ true ∷ [] }
    ensures order { map (λ cube. is_entry (game_of ex.duel) (ex.entry 3 cube true (0 ∷ []))) ((ex.literal 0 true ∷ ex.literal 1 false ∷ []) ∷ (ex.literal 1 false ∷ ex.literal 0 true ∷ []) ∷ (ex.literal 0 true ∷ ex.literal 0 true ∷ []) ∷ []) ≡ true ∷ false ∷ false ∷ [] }
    ensures held { is_entry (game_of ex.duel) (ex.entry 2 (ex.literal 0 true ∷ []) true []) ≡ false }
{}

/// With levels of both kinds, the winning verdict of a level rests on one of its moves, and the other verdict on all.
pub fn histories_of_both_kinds()
    ensures won { is_legal (game_of ex.duel) ex.duel_won ≡ true }
    ensures half_won { is_legal (game_of ex.duel) ex.duel_half_won ≡ false }
    ensures refuted { is_legal (game_of ex.duel) ex.duel_refuted ≡ true }
{}

/// A level has the atoms of its own rules, wherever in a rule they stand.
pub fn atoms_of_levels()
    ensures head { map (λ level. stands_at (game_of ex.minimax) level 1) (1 ∷ 2 ∷ 3 ∷ []) ≡ true ∷ false ∷ false ∷ [] }
    ensures positive { map (λ level. stands_at (game_of ex.minimax) level 2) (1 ∷ 2 ∷ 3 ∷ []) ≡ false ∷ true ∷ true ∷ [] }
    ensures negative { map (λ level. stands_at (game_of ex.minimax) level 0) (1 ∷ 2 ∷ 3 ∷ []) ≡ true ∷ false ∷ true ∷ [] }
{}

/// An entry is illegal for an atom of its cube that stands in no rule of its level or of a later one, though all else is
/// legal.
pub fn cubes_have_no_strange_atoms()
    ensures legal { is_legal (game_of ex.minimax) (ex.minimax_won (ex.literal 0 true ∷ [])) ≡ true }
    ensures strange { is_legal (game_of ex.minimax) (ex.minimax_won (ex.literal 0 true ∷ ex.literal 1 true ∷ [])) ≡ false }
    ensures justified { is_justified (game_of ex.minimax) (ex.entry 3 (ex.literal 0 true ∷ []) true (0 ∷ []) ∷ []) (ex.entry 2 (ex.literal 0 true ∷ ex.literal 1 true ∷ []) true (0 ∷ 1 ∷ [])) ≡ true }
{}

/// A member sees what stands there when it looks or adds, and a fork's member what the forking one has seen; an entry has to
/// be formed, and justified by what its own member has seen.
pub fn members_look()
    ensures fork_before { map (λ m. m.seen) (run 100 start (Fork 0 ∷ map (Add 0) ex.won)).members ≡ 2 ∷ 0 ∷ [] }
    ensures fork_behind { map (λ m. m.seen) (run 100 start (Add 0 (ex.entry 2 [] true []) ∷ Fork 0 ∷ [])).members ≡ 1 ∷ 1 ∷ [] }
    ensures fork_between { map (λ m. m.seen) (run 100 start (Fork 0 ∷ Add 0 (ex.entry 2 [] true []) ∷ Fork 1 ∷ [])).members ≡ 1 ∷ 0 ∷ 0 ∷ [] }
    ensures look { map (λ m. m.seen) (run 100 start (Fork 0 ∷ Add 0 (ex.entry 2 [] true []) ∷ Look 1 ∷ [])).members ≡ 1 ∷ 1 ∷ [] }
    ensures unformed { may_run (game_of ex.nothing) 100 start (Add 0 (ex.entry 3 [] true []) ∷ []) ≡ false }
    ensures unseen { may_run (game_of ex.nothing) 100 start (Fork 0 ∷ Add 0 (ex.entry 2 [] true []) ∷ Add 1 (ex.entry 1 [] true []) ∷ []) ≡ false }
    ensures seen { may_run (game_of ex.nothing) 100 start (Fork 0 ∷ Add 0 (ex.entry 2 [] true []) ∷ Look 1 ∷ Add 1 (ex.entry 1 [] true []) ∷ []) ≡ true }
{}

/// A member that ended lives no longer, and has seen what it had; the others live on.
pub fn members_end()
    ensures lives { map (λ m. m.lives) (run 100 start (Fork 0 ∷ End 0 ∷ [])).members ≡ false ∷ true ∷ [] }
    ensures seen { map (λ m. m.seen) (run 100 start (Add 0 (ex.entry 2 [] true []) ∷ End 0 ∷ [])).members ≡ 1 ∷ [] }
    ensures stopped { map (λ event. may_run (game_of ex.nothing) 100 start (End 0 ∷ event ∷ [])) (Look 0 ∷ Fork 0 ∷ End 0 ∷ Add 0 (ex.entry 2 [] true []) ∷ []) ≡ false ∷ false ∷ false ∷ false ∷ [] }
    ensures unborn { may_run (game_of ex.nothing) 100 start (Look 1 ∷ []) ≡ false }
{}

/// An addition of a held seed is a look, one that just fits the cells is made, and one that doesn't changes nothing.
pub fn additions()
    ensures held { run 100 start (Fork 0 ∷ Add 0 (ex.entry 2 [] true []) ∷ Add 1 (ex.entry 2 [] true []) ∷ []) ≡ run 100 start (Fork 0 ∷ Add 0 (ex.entry 2 [] true []) ∷ Look 1 ∷ []) }
    ensures fits { length (run 2 start (map (Add 0) ex.won)).history ≡ 2 }
    ensures full { run 1 start (Fork 0 ∷ Add 0 (ex.entry 2 [] true []) ∷ Add 1 (ex.entry 1 [] true []) ∷ []) ≡ run 1 start (Fork 0 ∷ Add 0 (ex.entry 2 [] true []) ∷ []) }
    ensures costs { map cost (ex.entry 2 (ex.literal 0 true ∷ []) false (0 ∷ []) ∷ ex.entry 2 (ex.literal 0 false ∷ []) false [] ∷ []) ≡ 3 ∷ 2 ∷ [] }
{}

/// Evidence shows a spent search of a kind and level that were counted, a full store where one more entry of the fullest size
/// doesn't fit, a verdict by an entry of level 1, and a set by an entry of level 2 with the verdict true. Entries of a history that
/// isn't legal show neither.
pub fn what_evidence_shows()
    ensures searches { map (λ level. shows_unknown (ex.evidence ex.duel_won 9) (ex.unknown Search level 2)) (1 ∷ 2 ∷ []) ≡ true ∷ false ∷ [] }
    ensures checks { map (λ level. shows_unknown (ex.evidence ex.duel_won 9) (ex.unknown Minimal level 2)) (1 ∷ 2 ∷ []) ≡ false ∷ true ∷ [] }
    ensures refusals { map (λ level. shows_unknown (ex.evidence ex.duel_won 9) (ex.unknown Store level 9)) (1 ∷ 2 ∷ 3 ∷ []) ≡ false ∷ true ∷ false ∷ [] }
    ensures full { map (λ allowed. shows_unknown (ex.evidence ex.duel_won allowed) (ex.unknown Store 2 allowed)) (9 ∷ 10 ∷ []) ≡ true ∷ false ∷ [] }
    ensures verdicts { map (shows_verdict (ex.evidence ex.duel_won 9)) (true ∷ false ∷ []) ≡ true ∷ false ∷ [] }
    ensures no_verdict { map (shows_verdict (ex.evidence ex.duel_refuted 9)) (true ∷ false ∷ []) ≡ false ∷ false ∷ [] }
    ensures sets { map (shows_set (ex.evidence ex.duel_won 9)) ([] ∷ (0 ∷ []) ∷ []) ≡ false ∷ true ∷ [] }
    ensures refuted_set { shows_set (ex.evidence ex.duel_refuted 9) [] ≡ false }
    ensures stated_verdict { has_verdict ex.bare_verdict true ≡ true }
    ensures illegal_verdict { shows_verdict (ex.evidence ex.bare_verdict 9) true ≡ false }
    ensures stated_set { is_held_with ex.bare_set 2 true (0 ∷ []) ≡ true }
    ensures illegal_set { shows_set (ex.evidence ex.bare_set 9) (0 ∷ []) ≡ false }
{}

/// A claim is shown where all of it is: each set of a page, and the open answer behind them.
pub fn what_claims_are_shown()
    ensures verdicts { map (λ verdict. shows (ex.evidence ex.duel_won 9) (VerdictClaim verdict)) (true ∷ false ∷ []) ≡ true ∷ false ∷ [] }
    ensures open_answers { map (λ level. shows (ex.evidence ex.duel_won 9) (OpenClaim (ex.unknown Search level 2))) (1 ∷ 2 ∷ []) ≡ true ∷ false ∷ [] }
    ensures pages { map (λ sets. shows (ex.evidence ex.duel_won 9) (PageClaim sets LastEnd)) ([] ∷ ((0 ∷ []) ∷ []) ∷ ([] ∷ (0 ∷ []) ∷ []) ∷ []) ≡ true ∷ true ∷ false ∷ [] }
    ensures ends { map (λ level. shows (ex.evidence ex.duel_won 9) (PageClaim ((0 ∷ []) ∷ []) (UnknownEnd (ex.unknown Search level 2)))) (1 ∷ 2 ∷ []) ≡ true ∷ false ∷ [] }
{}

/// `solve` says a verdict, `list` a page, and `check` nothing of a game.
pub fn what_commands_claim()
    ensures verdict { map (ending_of (SolveTask ex.tuning false) (ex.evidence ex.duel_won 9)) (VerdictClaim true ∷ VerdictClaim false ∷ PageClaim [] LastEnd ∷ []) ≡ Some (record { code = 10; output = codes "COHERENT\n" }) ∷ Some (record { code = 20; output = codes "INCOHERENT\n" }) ∷ None ∷ [] }
    ensures page { map (ending_of (ListTask ex.tuning 1 None) (ex.evidence ex.duel_won 9)) (PageClaim ((0 ∷ []) ∷ []) MoreEnd ∷ PageClaim [] LastEnd ∷ VerdictClaim true ∷ []) ≡ Some (record { code = 10; output = codes "COHERENT\n{a}\nMORE\n" }) ∷ Some (record { code = 20; output = codes "INCOHERENT\nEND\n" }) ∷ None ∷ [] }
    ensures behind { ending_of (ListTask ex.tuning 1 (Some (codes "{a}"))) (ex.evidence ex.duel_won 9) (PageClaim [] LastEnd) ≡ Some (record { code = 0; output = codes "END\n" }) }
    ensures check { ending_of CheckTask (ex.evidence ex.duel_won 9) (VerdictClaim true) ≡ None }
{}

/// An open answer ends with code 30, in place of a verdict, and behind the sets of a page wherever the page begins.
pub fn open_answers_end_with_thirty()
    ensures verdict { ending_of (SolveTask ex.tuning false) (ex.evidence ex.duel_won 9) (OpenClaim (ex.unknown Search 1 2)) ≡ Some (record { code = 30; output = codes "UNKNOWN search 1 2\n" }) }
    ensures page { ending_of (ListTask ex.tuning 1 None) (ex.evidence ex.duel_won 9) (PageClaim ((0 ∷ []) ∷ []) (UnknownEnd (ex.unknown Search 1 2))) ≡ Some (record { code = 30; output = codes "COHERENT\n{a}\nUNKNOWN search 1 2\n" }) }
    ensures codes_of_pages { map (λ from_start. page_end_code from_start [] (UnknownEnd (ex.unknown Search 1 2))) (true ∷ false ∷ []) ≡ 30 ∷ 30 ∷ [] }
    ensures claimed_by_list { ending_of (ListTask ex.tuning 1 None) (ex.evidence ex.duel_won 9) (OpenClaim (ex.unknown Search 1 2)) ≡ None }
{}
