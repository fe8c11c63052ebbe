//! Laws of the definitions: each contract is one, and each body is empty.
ghost use Rattle.asp_defs.specs.Laws.{AnswerSetsAreModels, AnswerSetsAreMinimal, AnswerSetsAreFounded, BoundsRestOnTheirAtoms, JustificationsStay, JustifiedIsSound, LegalIsSound, PrefixesAreLegal, CellsAreBounded, MovesAgree, ConstraintsDecide, ValuesRestOnRulesAndBounds, MovesAreShown, ValuesAreShown, SubsetsAreListed, SubsetsAreInOrder, NoSetIsAfterItself, SetsAreOrdered, RunsStayLegal, StepsKeepWhatWasSeen, ShownVerdictsAreRight, ShownSetsAreRight, VerdictsHaveEvidence};

/// An answer set satisfies the rules and meets the bounds.
pub fn answer_sets_are_models()
    ensures { AnswerSetsAreModels }
{}

/// No answer set of a program without choices is a proper subset of another.
pub fn answer_sets_are_minimal()
    ensures { AnswerSetsAreMinimal }
{}

/// An interpretation is an answer set exactly where it satisfies the rules, meets the bounds and has no unfounded subset
/// but the empty one.
pub fn answer_sets_are_founded()
    ensures { AnswerSetsAreFounded }
{}

/// Whether an interpretation meets a bound rests on the bound's atoms alone.
pub fn bounds_rest_on_their_atoms()
    ensures { BoundsRestOnTheirAtoms }
{}

/// What a list of entries justifies, every longer list that begins with it justifies.
pub fn justifications_stay()
    ensures { JustificationsStay }
{}

/// What sound entries justify is sound.
pub fn justified_is_sound()
    ensures { JustifiedIsSound }
{}

/// Every entry of a legal history is sound.
pub fn legal_is_sound()
    ensures { LegalIsSound }
{}

/// A legal history begins with legal histories.
pub fn prefixes_are_legal()
    ensures { PrefixesAreLegal }
{}

/// The cells of a legal history of a valid game are at most those that are enough.
pub fn cells_are_bounded()
    ensures { CellsAreBounded }
{}

/// Each move of a level agrees with the outer move on the base below the level.
pub fn moves_agree()
    ensures { MovesAgree }
{}

/// Behind the last level the value of an outer move is that it breaks no constraint.
pub fn constraints_decide()
    ensures { ConstraintsDecide }
{}

/// Outer moves that agree on the atoms that stand in a rule or bound of their level or of a later one have the same value.
pub fn values_rest_on_rules_and_bounds()
    ensures { ValuesRestOnRulesAndBounds }
{}

/// For each outer move of each level of a valid game there is a legal history that holds it with its value, and for the game
/// one whose last entry is of level 1 and has the game's value.
pub fn values_are_shown()
    ensures moves { MovesAreShown }
    ensures game { ValuesAreShown }
{}

/// The subsets of a base are the lists that the test of subsets accepts, each once, in the order of interpretations.
pub fn subsets_are_listed()
    ensures members { SubsetsAreListed }
    ensures order { SubsetsAreInOrder }
    ensures once { NoSetIsAfterItself }
{}

/// A set comes after another exactly where the first atom on which they differ is in it.
pub fn sets_are_ordered()
    ensures { SetsAreOrdered }
{}

/// In every state that the core machine reaches the history is legal and within the cells, and each member has seen a
/// prefix of it.
pub fn runs_stay_legal()
    ensures { RunsStayLegal }
{}

/// A step of the core machine takes nothing away of the history and of what each member has seen.
pub fn steps_keep_what_was_seen()
    ensures { StepsKeepWhatWasSeen }
{}

/// A verdict that evidence of a valid game shows is the game's value, and a set that it shows has the value true.
pub fn what_is_shown_is_right()
    ensures verdicts { ShownVerdictsAreRight }
    ensures sets { ShownSetsAreRight }
{}

/// Where a text's game is valid, there is evidence for the verdict that `solve` says of it.
pub fn verdicts_have_evidence()
    ensures { VerdictsHaveEvidence }
{}
