//! Worked examples of the definitions of texts, words and output: each contract is computed.
ghost use Rattle.std.specs.Prelude.{◌≡◌, ◌∷◌, ◌++◌, [], ◌+◌, pos, negsuc, codes, length, map, replicate, true, false, None, Some, Ok, Err};
ghost use Rattle.asp_defs.specs.declared.faults.TextFault.TheVariants as faults;
ghost use Rattle.asp_defs.specs.declared.faults.Kind.TheVariants.{Search};
ghost use Rattle.asp_defs.specs.declared.faults.Var.TheVariants.{Named, Anon};
ghost use Rattle.asp_defs.specs.declared.faults.Which.TheVariants.{Levels, Variables};
ghost use Rattle.asp_defs.specs.declared.syntax.Term.TheVariants.{Var};
ghost use Rattle.asp_defs.specs.Tokens.{tokens_of, token_list, NumberToken, DotsToken, DotToken, ArrowToken, AnonymousToken, VariableToken, NameToken, DirectiveToken, LeftBraceToken, RightBraceToken, ColonToken, CommaToken, LeftParenToken, MinusToken};
ghost use Rattle.asp_defs.specs.TextRefusals.{refusal_of};
ghost use Rattle.asp_defs.specs.Safety.{rule_unsafe, first_unsafe, unsafe_in};
ghost use Rattle.asp_defs.specs.ConstraintPart.{headed_in};
ghost use Rattle.asp_defs.specs.Limits.{too_large_in, rule_literals, variable_count};
ghost use Rattle.asp_defs.specs.Checks.{check_refusal, is_checked, UnsafeRule, HeadedRule, PastLimit};
ghost use Rattle.asp_defs.specs.Words.{task_of_words, SolveTask, ListTask, CheckTask, DemoTask};
ghost use Rattle.asp_defs.specs.Lines.{text_fault_line, check_refusal_line, word_line, unknown_line};
ghost use Rattle.asp_defs.specs.Canonical.{program_text};
ghost use Rattle.asp_defs.specs.Sets.{set_text, set_of_text, list_text, MoreEnd, LastEnd, UnknownEnd};
ghost use Rattle.asp_defs.specs.LogText.{log_text, may_stand, byte_lines};
ghost use Rattle.asp_defs.specs.Generator.{demo_text};
ghost use Rattle.asp_defs.specs.Examples as ex;
ghost use Rattle.asp_defs.specs.TextExamples as texts;

/// At each place the longest token is taken.
pub fn longest_tokens()
    ensures dots { token_list (codes "1...2") ≡ NumberToken (pos 1) ∷ DotsToken ∷ DotToken ∷ NumberToken (pos 2) ∷ [] }
    ensures arrow { token_list (codes ":-1") ≡ ArrowToken ∷ NumberToken (pos 1) ∷ [] }
    ensures number { token_list (codes "X-01") ≡ VariableToken (codes "X") ∷ NumberToken (negsuc 0) ∷ [] }
    ensures minus { token_list (codes "a : -b") ≡ NameToken (codes "a") ∷ ColonToken ∷ MinusToken ∷ NameToken (codes "b") ∷ [] }
    ensures negative { token_list (codes "--5 - 5") ≡ MinusToken ∷ NumberToken (negsuc 4) ∷ MinusToken ∷ NumberToken (pos 5) ∷ [] }
    ensures negated { token_list (codes "-a5 -X") ≡ MinusToken ∷ NameToken (codes "a5") ∷ MinusToken ∷ VariableToken (codes "X") ∷ [] }
    ensures underscore { token_list (codes "_X") ≡ AnonymousToken ∷ VariableToken (codes "X") ∷ [] }
    ensures directive { token_list (codes "%@existsX") ≡ DirectiveToken (codes "exists") ∷ VariableToken (codes "X") ∷ [] }
    ensures no_letters { token_list (codes "%@Exists") ≡ DirectiveToken [] ∷ VariableToken (codes "Exists") ∷ [] }
    ensures comment { token_list (codes "%*% x *%b % c") ≡ NameToken (codes "b") ∷ [] }
{}

/// The refusal of tokens that stands first is answered, with its place.
pub fn first_lexical_refusal()
    ensures byte { tokens_of (codes "%@exists\np(\"x\").\n") ≡ Err (faults.BadByte 11) }
    ensures exclamation { tokens_of (codes "%@exists\na!") ≡ Err (faults.BadByte 10) }
    ensures number { tokens_of (codes "%@exists\na(2147483648).\n") ≡ Err (faults.BadNumber 11) }
    ensures least { token_list (codes "-2147483648") ≡ NumberToken (negsuc 2147483647) ∷ [] }
    ensures comment { tokens_of (codes "%@exists\n%* a.") ≡ Err (faults.OpenComment 9) }
{}

/// The refusal of an offending token goes by the tokens before it.
pub fn refusals_by_place()
    ensures unknown { refusal_of [] (DirectiveToken (codes "foral")) 0 ≡ faults.UnknownDirective 0 }
    ensures before { refusal_of [] (NameToken (codes "a")) 0 ≡ faults.BeforeLevel 0 }
    ensures behind { refusal_of (token_list (codes "%@exists\n%@constraint\n")) (DirectiveToken (codes "forall")) 22 ≡ faults.AfterConstraint 22 }
    ensures within { refusal_of (token_list (codes "%@exists a")) (DirectiveToken (codes "forall")) 11 ≡ faults.Unexpected 11 }
    ensures argument { refusal_of (token_list (codes "%@exists a(b,")) MinusToken 13 ≡ faults.Unexpected 13 }
    ensures bound { refusal_of (token_list (codes "%@exists {a} 1")) (NumberToken (pos 2)) 15 ≡ faults.Unexpected 15 }
{}

/// A variable is safe by a positive atom or a chain of equations; a condition binds its own element alone.
pub fn safe_variables()
    ensures unbound { first_unsafe texts.unbound_rule ≡ Some ex.x }
    ensures chained { rule_unsafe texts.chained_rule ≡ [] }
    ensures half_bound { rule_unsafe texts.half_bound_rule ≡ texts.y ∷ ex.x ∷ [] }
    ensures earliest { first_unsafe texts.half_bound_rule ≡ Some ex.x }
    ensures nameless { unsafe_in texts.terms_program ≡ Some (2, Named (codes "X")) }
{}

/// Safety is judged before the form of the constraint part, and that before the limits.
pub fn checks_in_order()
    ensures headed { check_refusal texts.headed_program ≡ Some (HeadedRule 3) }
    ensures levels { check_refusal texts.deep_program ≡ Some (PastLimit Levels 17) }
    ensures first { check_refusal (ex.program (ex.exists (texts.unbound_rule ∷ []) ∷ []) (texts.unbound_rule ∷ [])) ≡ Some (UnsafeRule 1 (Named (codes "X"))) }
    ensures literals { map rule_literals (texts.half_bound_rule ∷ texts.chained_rule ∷ []) ≡ 4 ∷ 2 ∷ [] }
    ensures variables { map variable_count (texts.half_bound_rule ∷ texts.chained_rule ∷ []) ≡ 2 ∷ 2 ∷ [] }
    ensures accepted { is_checked texts.close_program ≡ true }
{}

/// Words are read from the left, and the first that can't be read is named.
pub fn words_are_read()
    ensures none { task_of_words [] ≡ Err 1 }
    ensures solve { task_of_words (codes "solve" ∷ codes "--log" ∷ codes "--budget" ∷ codes "007" ∷ []) ≡ Ok (SolveTask (record { budget = 7; cells = 20000000; teams = 1 ∷ [] }) true) }
    ensures list { task_of_words (codes "list" ∷ codes "--after=-x=" ∷ codes "--teams=4,2" ∷ codes "--page=3" ∷ []) ≡ Ok (ListTask (record { budget = 10000000; cells = 20000000; teams = 4 ∷ 2 ∷ [] }) 3 (Some (codes "-x="))) }
    ensures after { task_of_words (codes "list" ∷ codes "--after" ∷ codes "-x" ∷ []) ≡ Err 3 }
    ensures missing { task_of_words (codes "list" ∷ codes "--page" ∷ []) ≡ Err 3 }
    ensures range { task_of_words (codes "list" ∷ codes "--page=0" ∷ []) ≡ Err 2 }
    ensures size { task_of_words (codes "solve" ∷ codes "--teams=3" ∷ []) ≡ Err 2 }
    ensures again { task_of_words (codes "solve" ∷ codes "--log" ∷ codes "--log" ∷ []) ≡ Err 3 }
    ensures valued { task_of_words (codes "solve" ∷ codes "--log=" ∷ []) ≡ Err 2 }
    ensures foreign { task_of_words (codes "solve" ∷ codes "--page=3" ∷ []) ≡ Err 2 }
    ensures check { task_of_words (codes "check" ∷ []) ≡ Ok CheckTask }
    ensures demo { task_of_words (codes "demo" ∷ codes "040" ∷ []) ≡ Ok (DemoTask 40) }
    ensures demo_range { task_of_words (codes "demo" ∷ codes "201" ∷ codes "x" ∷ []) ≡ Err 2 }
{}

/// The lines of refusals and open answers.
pub fn lines_of_answers()
    ensures word { word_line 2 ≡ codes "aspq: word 2 refused\n" }
    ensures text { text_fault_line (faults.Unexpected 9) ≡ codes "aspq: unexpected at 9\n" }
    ensures behind { text_fault_line (faults.AfterConstraint 22) ≡ codes "aspq: after the constraint part at 22\n" }
    ensures variable { check_refusal_line (UnsafeRule 1 Anon) ≡ codes "aspq: unsafe variable _ in rule 1\n" }
    ensures count { check_refusal_line (PastLimit Variables 17) ≡ codes "aspq: too large: variables 17\n" }
    ensures unknown { unknown_line (record { kind = Search; level = 1; budget = 2 }) ≡ codes "UNKNOWN search 1 2\n" }
{}

/// The canonical text of a program.
pub fn canonical_texts()
    ensures close { program_text texts.close_program ≡ codes "%@exists\na :- b, not c.\n{d; e : f}.\n" }
    ensures strong { program_text texts.strong_program ≡ codes "%@exists\n-p(1..2).\n-a :- not -b, p(-5).\n" }
    ensures bounds { program_text texts.bounded_program ≡ codes "%@exists\n1 {a; -b} 2 :- c.\n{a} -1.\n0 {b}.\n" }
    ensures terms { program_text texts.terms_program ≡ codes "%@forall\np(1..3).\nt(X,_) | u :- X != 2, not v(_,-1).\n%@constraint\n:- .\n" }
{}

/// The texts of sets and pages.
pub fn sets_and_pages()
    ensures set { set_text texts.small_bases (0 ∷ 1 ∷ []) ≡ codes "{a, p(-2,b)}" }
    ensures read { set_of_text texts.small_bases (codes "{p(-2,b)}") ≡ Some (1 ∷ []) }
    ensures outside { set_of_text texts.small_bases (codes "{q}") ≡ None }
    ensures order { set_of_text texts.small_bases (codes "{p(-2,b), a}") ≡ None }
    ensures page { list_text texts.small_bases true ([] ∷ (0 ∷ []) ∷ []) MoreEnd ≡ codes "COHERENT\n{}\n{a}\nMORE\n" }
    ensures resumed { list_text texts.small_bases false [] LastEnd ≡ codes "END\n" }
    ensures refuted { list_text texts.small_bases true [] LastEnd ≡ codes "INCOHERENT\nEND\n" }
    ensures unknown { list_text texts.small_bases true [] (UnknownEnd (record { kind = Search; level = 1; budget = 1 })) ≡ codes "UNKNOWN search 1 1\n" }
{}

/// The text of a log, and which entries may stand in it.
pub fn logs()
    ensures won { log_text texts.no_bases texts.two_entries ≡ codes "ASPQ-LOG 2\n2 T [] {}\n1 T [] {}\nLOG 2\n" }
    ensures cube { log_text texts.small_bases (texts.cube_entry ∷ []) ≡ codes "ASPQ-LOG 2\n2 F [not a, p(-2,b)] {p(-2,b)}\nLOG 1\n" }
    ensures stands { may_stand texts.small_bases texts.cube_entry ≡ true }
    ensures outside { may_stand texts.no_bases texts.cube_entry ≡ false }
    ensures unheld { may_stand texts.small_bases (record texts.cube_entry { seed = [] }) ≡ false }
    ensures lines { byte_lines (codes "LOG 0\n\nx") ≡ codes "LOG 0\n" ∷ codes "\n" ∷ codes "x" ∷ [] }
{}

/// The text that is made of a number of nodes.
pub fn demo_texts()
    ensures three { demo_text 3 ≡ codes "%@exists\nnode(1..3).\nedge(1,3).\nedge(2,3).\n{in(X) : node(X)}.\n%@forall\npick(X,Y) | skip(X,Y) :- edge(X,Y).\n%@constraint\n:- pick(X,Y), not in(X).\n" }
    ensures bytes { map (λ n. length (demo_text n)) (2 ∷ 3 ∷ 40 ∷ []) ≡ 134 ∷ 145 ∷ 609 ∷ [] }
{}
