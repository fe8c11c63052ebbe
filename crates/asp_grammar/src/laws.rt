//! Laws of the machine and examples: each contract is one, and each body is empty.
ghost use Rattle.std.specs.Prelude.{◌≡◌, Ok, Err, codes};
ghost use Rattle.asp_defs.specs.declared.faults.TextFault.TheVariants as faults;
ghost use Rattle.asp_defs.specs.TextExamples as texts;
ghost use Rattle.asp_grammar.specs.Machine.{text_answer};
ghost use Rattle.asp_grammar.specs.Laws.{AnswersTexts, AnswersRefusals, EveryTextIsAnswered, CountGrows};

/// The machine answers a program exactly where the bytes are a text of it.
pub fn answers_texts()
    ensures { AnswersTexts }
{}

/// The machine answers a refusal exactly where the bytes have it.
pub fn answers_refusals()
    ensures { AnswersRefusals }
{}

/// Every list of bytes is a text of a program or refused.
pub fn every_text_is_answered()
    ensures { EveryTextIsAnswered }
{}

/// A token adds at most one to the tree's count of nameless variables.
pub fn count_grows()
    ensures { CountGrows }
{}

/// The machine's answers on some texts.
pub fn answers()
    ensures close { text_answer texts.close_text ≡ Ok texts.close_program }
    ensures nameless { text_answer texts.nameless_text ≡ Ok texts.nameless_program }
    ensures strong { text_answer texts.strong_text ≡ Ok texts.strong_program }
    ensures bounds { text_answer texts.bounded_text ≡ Ok texts.bounded_program }
    ensures no_level { text_answer (codes "% none") ≡ Err faults.NoLevel }
    ensures unfinished { text_answer (codes "%@exists a :- b") ≡ Err faults.Unfinished }
    ensures two_names { text_answer (codes "%@exists a b.") ≡ Err (faults.Unexpected 11) }
    ensures named_bound { text_answer (codes "%@exists {a} n.") ≡ Err (faults.Unexpected 13) }
    ensures two_bounds { text_answer (codes "%@exists {a} 1 2.") ≡ Err (faults.Unexpected 15) }
    ensures negated_side { text_answer (codes "%@exists :- -a = b.") ≡ Err (faults.Unexpected 15) }
    ensures negated_argument { text_answer (codes "%@exists p(-a).") ≡ Err (faults.Unexpected 11) }
{}
