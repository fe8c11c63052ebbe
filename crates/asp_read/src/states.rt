//! Which token may come in a state, and the state behind it: a function for each group of states.
ghost use Rattle.std.specs.Prelude.{◌≡◌, List, ℕ, drop};
ghost use Rattle.asp_lex.specs.Slices.{token_of};
ghost use Rattle.asp_grammar.specs.Machine as machine;

use asp_defs::Quant;
use asp_grammar::{Directive, Role, Side, State};
use asp_lex::Tok;

/// The bytes of a directive behind its `%@`.
fn word_of(text: &[u8]) -> &[u8]
    ensures { result.now ≡ drop 2 text.now }
{
    match text {
        [_, _, word @ ..] => word,
        _ => &[],
    }
}

/// What the directive with these bytes opens, if it is known.
pub fn directive_of(text: &[u8]) -> Option<Directive>
    ensures { result ≡ machine.directive_of (drop 2 text.now) }
{
    let word = word_of(text);
    if word == b"exists".as_slice() {
        Some(Directive::Level(Quant::Exists))
    } else if word == b"forall".as_slice() {
        Some(Directive::Level(Quant::Forall))
    } else if word == b"constraint".as_slice() {
        Some(Directive::Constraint)
    } else {
        None
    }
}

/// Behind a first directive, which opens a level.
fn after_first(directive: Option<Directive>) -> Option<State>
    ensures { result ≡ machine.after_first directive }
{
    match directive {
        Some(Directive::Level(_)) => Some(State::Statement),
        _ => None,
    }
}

/// Behind a further directive: none stands behind the constraint part.
fn after_directive(in_constraint: bool, directive: Option<Directive>) -> Option<State>
    ensures { result ≡ machine.after_directive in_constraint directive }
{
    if in_constraint || directive.is_none() {
        None
    } else {
        Some(State::Statement)
    }
}

fn next_start(kind: Tok, text: &[u8]) -> Option<State>
    ensures { result ≡ machine.next_start (token_of kind text.now) }
{
    match kind {
        Tok::Directive => after_first(directive_of(text)),
        _ => None,
    }
}

fn next_statement(in_constraint: bool, kind: Tok, text: &[u8]) -> Option<State>
    ensures { result ≡ machine.next_statement in_constraint (token_of kind text.now) }
{
    match kind {
        Tok::Directive => after_directive(in_constraint, directive_of(text)),
        Tok::Name => Some(State::AfterName(Role::First)),
        Tok::Minus => Some(State::AfterMinus(Role::First)),
        Tok::Number(_) => Some(State::AfterLower),
        Tok::LeftBrace => Some(State::FirstElement),
        Tok::Arrow => Some(State::FirstLiteral(Side::Body)),
        _ => None,
    }
}

/// Where only an atom may begin.
fn next_atom(role: Role, kind: Tok) -> Option<State>
    ensures { (bytes : List ℕ) → result ≡ machine.next_atom role (token_of kind bytes) }
{
    match kind {
        Tok::Name => Some(State::AfterName(role)),
        Tok::Minus => Some(State::AfterMinus(role)),
        _ => None,
    }
}

/// Behind an atom of a disjunction.
fn next_head(kind: Tok) -> Option<State>
    ensures { (bytes : List ℕ) → result ≡ machine.next_head (token_of kind bytes) }
{
    match kind {
        Tok::Bar | Tok::Semicolon => Some(State::NextHead),
        Tok::Arrow => Some(State::FirstLiteral(Side::Body)),
        Tok::Dot => Some(State::Statement),
        _ => None,
    }
}

/// Behind an atom with an interval.
fn next_fact(kind: Tok) -> Option<State>
    ensures { (bytes : List ℕ) → result ≡ machine.next_fact (token_of kind bytes) }
{
    match kind {
        Tok::Dot => Some(State::Statement),
        _ => None,
    }
}

/// Behind a lower bound.
fn next_lower(kind: Tok) -> Option<State>
    ensures { (bytes : List ℕ) → result ≡ machine.next_lower (token_of kind bytes) }
{
    match kind {
        Tok::LeftBrace => Some(State::FirstElement),
        _ => None,
    }
}

/// Behind an opening brace.
fn next_first_element(kind: Tok) -> Option<State>
    ensures { (bytes : List ℕ) → result ≡ machine.next_first_element (token_of kind bytes) }
{
    match kind {
        Tok::Name => Some(State::AfterName(Role::Chosen)),
        Tok::Minus => Some(State::AfterMinus(Role::Chosen)),
        Tok::RightBrace => Some(State::AfterChoice),
        _ => None,
    }
}

/// Behind the atom of an element.
fn next_chosen(kind: Tok) -> Option<State>
    ensures { (bytes : List ℕ) → result ≡ machine.next_chosen (token_of kind bytes) }
{
    match kind {
        Tok::Colon => Some(State::FirstLiteral(Side::Condition)),
        Tok::Semicolon => Some(State::NextElement),
        Tok::RightBrace => Some(State::AfterChoice),
        _ => None,
    }
}

/// Behind an upper bound.
fn next_upper(kind: Tok) -> Option<State>
    ensures { (bytes : List ℕ) → result ≡ machine.next_upper (token_of kind bytes) }
{
    match kind {
        Tok::Arrow => Some(State::FirstLiteral(Side::Body)),
        Tok::Dot => Some(State::Statement),
        _ => None,
    }
}

/// Behind a choice, where an upper bound may come.
fn next_choice(kind: Tok) -> Option<State>
    ensures { (bytes : List ℕ) → result ≡ machine.next_choice (token_of kind bytes) }
{
    match kind {
        Tok::Number(_) => Some(State::AfterUpper),
        _ => next_upper(kind),
    }
}

/// Where a literal has to begin.
fn next_literal(side: Side, kind: Tok) -> Option<State>
    ensures { (bytes : List ℕ) → result ≡ machine.next_literal side (token_of kind bytes) }
{
    match kind {
        Tok::Not => Some(State::AfterNot(side)),
        Tok::Name => Some(State::AfterName(Role::Positive(side))),
        Tok::Minus => Some(State::AfterMinus(Role::Positive(side))),
        Tok::Number(_) | Tok::Variable | Tok::Anonymous => Some(State::AfterLeft(side)),
        _ => None,
    }
}

/// Where literals may end.
fn next_close(side: Side, kind: Tok) -> Option<State>
    ensures { (bytes : List ℕ) → result ≡ machine.next_close side (token_of kind bytes) }
{
    match (side, kind) {
        (Side::Body, Tok::Dot) => Some(State::Statement),
        (Side::Condition, Tok::Semicolon) => Some(State::NextElement),
        (Side::Condition, Tok::RightBrace) => Some(State::AfterChoice),
        _ => None,
    }
}

/// Behind an arrow or a colon, where literals begin or are none.
fn next_first_literal(side: Side, kind: Tok) -> Option<State>
    ensures { (bytes : List ℕ) → result ≡ machine.next_first_literal side (token_of kind bytes) }
{
    match next_close(side, kind) {
        Some(state) => Some(state),
        None => next_literal(side, kind),
    }
}

/// Behind a literal.
fn next_after_literal(side: Side, kind: Tok) -> Option<State>
    ensures { (bytes : List ℕ) → result ≡ machine.next_after_literal side (token_of kind bytes) }
{
    match kind {
        Tok::Comma => Some(State::NextLiteral(side)),
        _ => next_close(side, kind),
    }
}

/// Whether a token is a sign of an operator.
pub fn is_operator(kind: Tok) -> bool
    ensures { (bytes : List ℕ) → result ≡ machine.is_operator_sign (token_of kind bytes) }
{
    matches!(
        kind,
        Tok::Eq | Tok::Ne | Tok::NeAngle | Tok::Lt | Tok::Le | Tok::Gt | Tok::Ge
    )
}

/// Behind a left side.
fn next_left(side: Side, kind: Tok) -> Option<State>
    ensures { (bytes : List ℕ) → result ≡ machine.next_left side (token_of kind bytes) }
{
    if is_operator(kind) {
        Some(State::AfterOperator(side))
    } else {
        None
    }
}

/// Where a right side has to stand.
fn next_right(side: Side, kind: Tok) -> Option<State>
    ensures { (bytes : List ℕ) → result ≡ machine.next_right side (token_of kind bytes) }
{
    match kind {
        Tok::Number(_) | Tok::Name | Tok::Variable | Tok::Anonymous => {
            Some(State::AfterLiteral(side))
        }
        _ => None,
    }
}

/// The state behind a whole atom.
fn behind(role: Role) -> State
    ensures { result ≡ machine.behind role }
{
    match role {
        Role::First | Role::Further => State::AfterHead,
        Role::Wide => State::AfterFact,
        Role::Chosen => State::AfterChosen,
        Role::Positive(side) | Role::Negative(side) => State::AfterLiteral(side),
    }
}

/// Behind a whole atom.
fn next_behind(role: Role, kind: Tok) -> Option<State>
    ensures { (bytes : List ℕ) → result ≡ machine.next_behind role (token_of kind bytes) }
{
    match role {
        Role::First | Role::Further => next_head(kind),
        Role::Wide => next_fact(kind),
        Role::Chosen => next_chosen(kind),
        Role::Positive(side) | Role::Negative(side) => next_after_literal(side, kind),
    }
}

/// Behind a name that no parenthesis follows, which is a left side or a whole atom.
fn next_bare(role: Role, kind: Tok) -> Option<State>
    ensures { (bytes : List ℕ) → result ≡ machine.next_bare role (token_of kind bytes) }
{
    match role {
        Role::Positive(side) if is_operator(kind) => Some(State::AfterOperator(side)),
        _ => next_behind(role, kind),
    }
}

/// Behind a name.
fn next_name(role: Role, kind: Tok) -> Option<State>
    ensures { (bytes : List ℕ) → result ≡ machine.next_name role (token_of kind bytes) }
{
    match kind {
        Tok::LeftParen => Some(State::FirstArgument(role)),
        _ => next_bare(role, kind),
    }
}

/// Behind a minus, where a name has to stand.
fn next_minus(role: Role, kind: Tok) -> Option<State>
    ensures { (bytes : List ℕ) → result ≡ machine.next_minus role (token_of kind bytes) }
{
    match kind {
        Tok::Name => Some(State::AfterNegated(role)),
        _ => None,
    }
}

/// Behind a minus and a name, which are no left side.
fn next_negated(role: Role, kind: Tok) -> Option<State>
    ensures { (bytes : List ℕ) → result ≡ machine.next_negated role (token_of kind bytes) }
{
    match kind {
        Tok::LeftParen => Some(State::FirstArgument(role)),
        _ => next_behind(role, kind),
    }
}

/// Where an argument has to stand.
fn next_argument(role: Role, kind: Tok) -> Option<State>
    ensures { (bytes : List ℕ) → result ≡ machine.next_argument role (token_of kind bytes) }
{
    match kind {
        Tok::Number(_) => Some(State::AfterNumber(role)),
        Tok::Name | Tok::Variable | Tok::Anonymous => Some(State::AfterArgument(role)),
        _ => None,
    }
}

/// Behind an opening parenthesis.
fn next_first_argument(role: Role, kind: Tok) -> Option<State>
    ensures { (bytes : List ℕ) → result ≡ machine.next_first_argument role (token_of kind bytes) }
{
    match kind {
        Tok::RightParen => Some(behind(role)),
        _ => next_argument(role, kind),
    }
}

/// Behind an argument.
fn next_after_argument(role: Role, kind: Tok) -> Option<State>
    ensures { (bytes : List ℕ) → result ≡ machine.next_after_argument role (token_of kind bytes) }
{
    match kind {
        Tok::Comma => Some(State::NextArgument(role)),
        Tok::RightParen => Some(behind(role)),
        _ => None,
    }
}

/// Behind the sign of an interval, which only the first atom of a statement has.
fn next_dots(role: Role) -> Option<State>
    ensures { result ≡ machine.next_dots role }
{
    match role {
        Role::First | Role::Wide => Some(State::AfterDots),
        _ => None,
    }
}

/// Behind a number among arguments.
fn next_number(role: Role, kind: Tok) -> Option<State>
    ensures { (bytes : List ℕ) → result ≡ machine.next_number role (token_of kind bytes) }
{
    match kind {
        Tok::Dots => next_dots(role),
        _ => next_after_argument(role, kind),
    }
}

/// Where the second number of an interval has to stand.
fn next_high(kind: Tok) -> Option<State>
    ensures { (bytes : List ℕ) → result ≡ machine.next_high (token_of kind bytes) }
{
    match kind {
        Tok::Number(_) => Some(State::AfterArgument(Role::Wide)),
        _ => None,
    }
}

/// The state behind a token, if it may come in a state. Whether the constraint part is open decides on directives.
pub fn next_state(in_constraint: bool, state: State, kind: Tok, text: &[u8]) -> Option<State>
    ensures { result ≡ machine.next_state in_constraint state (token_of kind text.now) }
{
    match state {
        State::Start => next_start(kind, text),
        State::Statement => next_statement(in_constraint, kind, text),
        State::NextHead => next_atom(Role::Further, kind),
        State::AfterHead => next_head(kind),
        State::AfterFact => next_fact(kind),
        State::AfterLower => next_lower(kind),
        State::FirstElement => next_first_element(kind),
        State::NextElement => next_atom(Role::Chosen, kind),
        State::AfterChosen => next_chosen(kind),
        State::AfterChoice => next_choice(kind),
        State::AfterUpper => next_upper(kind),
        State::FirstLiteral(side) => next_first_literal(side, kind),
        State::NextLiteral(side) => next_literal(side, kind),
        State::AfterNot(side) => next_atom(Role::Negative(side), kind),
        State::AfterLeft(side) => next_left(side, kind),
        State::AfterOperator(side) => next_right(side, kind),
        State::AfterLiteral(side) => next_after_literal(side, kind),
        State::AfterName(role) => next_name(role, kind),
        State::AfterMinus(role) => next_minus(role, kind),
        State::AfterNegated(role) => next_negated(role, kind),
        State::FirstArgument(role) => next_first_argument(role, kind),
        State::NextArgument(role) => next_argument(role, kind),
        State::AfterArgument(role) => next_after_argument(role, kind),
        State::AfterNumber(role) => next_number(role, kind),
        State::AfterDots => next_high(kind),
    }
}
