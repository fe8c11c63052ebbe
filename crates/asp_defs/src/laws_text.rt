//! Laws of texts, of words and of how a run ends, and derivations of texts and refusals: each contract is one, and each
//! body is empty.
ghost use Rattle.std.specs.Prelude.{codes, []};
ghost use Rattle.asp_defs.specs.declared.faults.TextFault.TheVariants as faults;
ghost use Rattle.asp_defs.specs.Grammar.{IsText};
ghost use Rattle.asp_defs.specs.TextRefusals.{IsRefused};
ghost use Rattle.asp_defs.specs.LogText.{IsLogOf, IsBadLine, IsUnendedLog};
ghost use Rattle.asp_defs.specs.TextLaws.{PiecesAreTheText, FrontsAreLongest, LongestFrontIs, TextsAreUnambiguous, TextsAreNotRefused, RefusalsAreUnique, ProgramsEnd, SafeVariablesAreLeast};
ghost use Rattle.asp_defs.specs.RunLaws.{RefusedWordsAreNear, EmptyWordsAreRefused, EndingsAgree, RefusalsAreAlone};
ghost use Rattle.asp_defs.specs.TextExamples as texts;

/// A text with a comment, a condition and few blanks is the text of its program.
pub fn a_text_of_its_program()
    ensures { IsText texts.close_text texts.close_program }
{}

/// A text with an interval, nameless variables and a constraint without literals is the text of its program.
pub fn a_text_with_nameless_variables()
    ensures { IsText texts.nameless_text texts.nameless_program }
{}

/// A text with negated atoms, one with a blank behind its minus and one behind `not`, is the text of its program.
pub fn a_text_with_strong_negation()
    ensures { IsText texts.strong_text texts.strong_program }
{}

/// A text with a lower bound, an upper one and both is the text of its program.
pub fn a_text_with_bounds()
    ensures { IsText texts.bounded_text texts.bounded_program }
{}

/// Each refusal of the grammar, of a text that has it.
pub fn refused_texts()
    ensures no_level { IsRefused [] faults.NoLevel }
    ensures unfinished { IsRefused (codes "%@exists\na :- b") faults.Unfinished }
    ensures unknown_directive { IsRefused (codes "%@foral\n") (faults.UnknownDirective 0) }
    ensures before_level { IsRefused (codes "a.\n") (faults.BeforeLevel 0) }
    ensures after_constraint { IsRefused (codes "%@exists\n%@constraint\n%@forall\n") (faults.AfterConstraint 22) }
    ensures unexpected { IsRefused (codes "%@exists\na b.\n") (faults.Unexpected 11) }
{}

/// A number at the beginning of a statement is a bound, and an opening brace follows it; none follows a name.
pub fn refused_bounds()
    ensures without_choice { IsRefused (codes "%@exists\n1 a.\n") (faults.Unexpected 11) }
    ensures negative { IsRefused (codes "%@exists\n-5.\n") (faults.Unexpected 11) }
    ensures two { IsRefused (codes "%@exists\n1 2 {a}.\n") (faults.Unexpected 11) }
    ensures named { IsRefused (codes "%@exists\nn {a}.\n") (faults.Unexpected 11) }
{}

/// A name follows a minus, and nothing else does.
pub fn refused_minuses()
    ensures number { IsRefused (codes "%@exists\n- 5.\n") (faults.Unexpected 11) }
    ensures variable { IsRefused (codes "%@exists\n-X.\n") (faults.Unexpected 10) }
    ensures parenthesis { IsRefused (codes "%@exists\n-(a).\n") (faults.Unexpected 10) }
    ensures minus { IsRefused (codes "%@exists\n--a.\n") (faults.Unexpected 10) }
{}

/// The last token of a program is a directive or a full stop.
pub fn programs_end()
    ensures { ProgramsEnd }
{}

/// A log, the same without its last line, the same with a line that is none, and one of another version.
pub fn logs_and_their_faults()
    ensures log { IsLogOf texts.no_bases (codes "ASPQ-LOG 2\n2 T [] {}\n1 T [] {}\nLOG 2\n") texts.two_entries }
    ensures unended { IsUnendedLog texts.no_bases (codes "ASPQ-LOG 2\n2 T [] {}\n1 T [] {}\n") }
    ensures bad_line { IsBadLine texts.no_bases (codes "ASPQ-LOG 2\n2 T [] {}\n1 X [] {}\nLOG 2\n") 3 }
    ensures version { IsBadLine texts.no_bases (codes "ASPQ-LOG 1\nLOG 0\n") 1 }
{}

/// No bytes are the text of two programs.
pub fn texts_are_unambiguous()
    ensures { TextsAreUnambiguous }
{}

/// No bytes are the text of a program and refused.
pub fn texts_are_not_refused()
    ensures { TextsAreNotRefused }
{}

/// No bytes have two refusals.
pub fn refusals_are_unique()
    ensures { RefusalsAreUnique }
{}

/// The safe variables of a body are the least that its positive atoms and its equations close.
pub fn safe_variables_are_least()
    ensures { SafeVariablesAreLeast }
{}

/// The pieces of a text are the text.
pub fn pieces_are_the_text()
    ensures { PiecesAreTheText }
{}

/// No front that is longer than the longest one is anything.
pub fn fronts_are_longest()
    ensures { FrontsAreLongest }
{}

/// A front that is something, where no longer one is, is the longest.
pub fn longest_front_is()
    ensures { LongestFrontIs }
{}

/// The refused word is one of the words, or the missing one behind them; and an empty word is refused wherever it stands, if
/// no word before it is.
pub fn words_are_refused_in_place()
    ensures near { RefusedWordsAreNear }
    ensures empty { EmptyWordsAreRefused }
{}

/// The defined endings of the same words and bytes differ in their logs alone, but for open answers; and a refusal is the
/// only one.
pub fn endings_agree()
    ensures agree { EndingsAgree }
    ensures refusals { RefusalsAreAlone }
{}
