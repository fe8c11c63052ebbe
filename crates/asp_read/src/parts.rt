//! What a token adds to a program that is read: a function for each group of states.
ghost use Rattle.std.specs.Prelude.{◌≡◌, ◌<◌, List, ℕ, [], ◌++◌, codes, drop, IfOk, OnOk};
ghost use Rattle.asp_defs.specs.Tokens as defs;
ghost use Rattle.asp_lex.specs.Slices.{token_of};
ghost use Rattle.asp_grammar.specs.Machine as machine;

use crate::states::{directive_of, is_operator};
use asp_defs::{Atom, Element, Head, List, Literal, Name, NoMemory, Op, Part, Rule, Term};
use asp_grammar::{Directive, Role, State, Tree};
use asp_lex::Tok;
use std::alloc::Global;
use std::mem;

/// The atom of no bytes, which stays where an atom was taken away.
pub fn no_atom(alloc: Global) -> Atom
    ensures { result ≡ machine.no_atom }
{
    Atom {
        name: Name::empty(),
        args: List::new(alloc),
    }
}

/// The empty list with room for one item, since most heads have one: a list that grows takes room for four.
fn one_place<T>(alloc: Global) -> Result<List<T>, NoMemory>
    ensures { IfOk result (λ list. list ≡ []) }
{
    Ok(List::from_vec(Vec::with_capacity(alloc, 1)?))
}

/// The term that a token is. A nameless variable is counted.
fn next_term(anonymous: &mut u32, alloc: Global, kind: Tok, text: &[u8]) -> Result<Term, NoMemory>
    requires { anonymous.old < u32.MAX }
    ensures term { IfOk result (λ term. term ≡ machine.term_of anonymous.old (token_of kind text.now)) }
    ensures counted { OnOk result (anonymous.new ≡ machine.counted anonymous.old (token_of kind text.now)) }
{
    match kind {
        Tok::Number(value) => Ok(Term::Int(value)),
        Tok::Name => Ok(Term::Sym(Name::from_slice(alloc, text)?)),
        Tok::Variable => Ok(Term::Var(Name::from_slice(alloc, text)?)),
        _ => {
            *anonymous += 1;
            Ok(Term::Anon(*anonymous))
        }
    }
}

/// The operator that a sign is.
fn op_of(kind: Tok) -> Op
    ensures { (bytes : List ℕ) → result ≡ machine.op_of (token_of kind bytes) }
{
    match kind {
        Tok::Ne | Tok::NeAngle => Op::Ne,
        Tok::Lt => Op::Lt,
        Tok::Le => Op::Le,
        Tok::Gt => Op::Gt,
        Tok::Ge => Op::Ge,
        _ => Op::Eq,
    }
}

/// The open level is whole.
fn close_part(tree: &mut Tree, alloc: Global) -> Result<(), NoMemory>
    ensures { OnOk result (tree.new ≡ machine.close_part tree.old) }
{
    let rules = mem::replace(&mut tree.rules, List::new(alloc));
    let quant = tree.quant;
    tree.levels.push(Part { quant, rules })
}

/// A level or the constraint part begins.
fn open_part(tree: &mut Tree, directive: Directive)
    ensures { tree.new ≡ machine.open_part directive tree.old }
{
    match directive {
        Directive::Level(quant) => tree.quant = quant,
        Directive::Constraint => tree.in_constraint = true,
    }
}

/// An atom that is whole takes its place.
fn add_atom(tree: &mut Tree, role: Role, atom: Atom) -> Result<(), NoMemory>
    ensures { OnOk result (tree.new ≡ machine.add_atom role atom tree.old) }
{
    match role {
        Role::First | Role::Wide | Role::Further => tree.atoms.push(atom),
        Role::Chosen => {
            tree.element = atom;
            Ok(())
        }
        Role::Positive(_) => tree.literals.push(Literal::Pos(atom)),
        Role::Negative(_) => tree.literals.push(Literal::Neg(atom)),
    }
}

/// The open atom, which has no arguments, is whole.
fn add_bare(tree: &mut Tree, alloc: Global, role: Role) -> Result<(), NoMemory>
    ensures { OnOk result (tree.new ≡ machine.add_bare role tree.old) }
{
    let name = mem::replace(&mut tree.name, Name::empty());
    let args = List::new(alloc);
    add_atom(tree, role, Atom { name, args })
}

/// The open atom, which has arguments, is whole.
fn add_whole(tree: &mut Tree, alloc: Global, role: Role) -> Result<(), NoMemory>
    ensures { OnOk result (tree.new ≡ machine.add_whole role tree.old) }
{
    let name = mem::replace(&mut tree.name, Name::empty());
    let args = mem::replace(&mut tree.args, List::new(alloc));
    add_atom(tree, role, Atom { name, args })
}

/// The atoms of the open disjunction are the head.
fn close_disjunction(tree: &mut Tree, alloc: Global)
    ensures { tree.new ≡ machine.close_disjunction tree.old }
{
    let atoms = mem::replace(&mut tree.atoms, List::new(alloc));
    tree.head = Head::Disj(atoms);
}

/// The elements of the open choice, between its bounds, are the head.
fn close_choice(tree: &mut Tree, alloc: Global, upper: Option<i32>)
    ensures { tree.new ≡ machine.close_choice upper tree.old }
{
    let elements = mem::replace(&mut tree.elements, List::new(alloc));
    tree.head = Head::Choice(tree.lower, elements, upper);
}

/// The open element, with its condition, is whole.
fn close_element(tree: &mut Tree, alloc: Global, cond: List<Literal>) -> Result<(), NoMemory>
    ensures { OnOk result (tree.new ≡ machine.close_element cond tree.old) }
{
    let atom = mem::replace(&mut tree.element, no_atom(alloc));
    tree.elements.push(Element { atom, cond })
}

/// The open rule, with its body, is whole.
fn close_rule(tree: &mut Tree, alloc: Global, body: List<Literal>) -> Result<(), NoMemory>
    ensures { OnOk result (tree.new ≡ machine.close_rule tree.old.head body (record tree.old { head = Head.Disj [] })) }
{
    let head = mem::replace(&mut tree.head, Head::Disj(List::new(alloc)));
    tree.rules.push(Rule { head, body })
}

/// The open body is whole, and its rule.
fn close_body(tree: &mut Tree, alloc: Global) -> Result<(), NoMemory>
    ensures { OnOk result (tree.new ≡ machine.add_close defs.DotToken tree.old) }
{
    let body = mem::replace(&mut tree.literals, List::new(alloc));
    close_rule(tree, alloc, body)
}

/// The open condition is whole, and its element.
fn close_condition(tree: &mut Tree, alloc: Global) -> Result<(), NoMemory>
    ensures { OnOk result (tree.new ≡ machine.add_close defs.SemicolonToken tree.old) }
{
    let cond = mem::replace(&mut tree.literals, List::new(alloc));
    close_element(tree, alloc, cond)
}

/// A directive at the beginning.
fn add_start(tree: &mut Tree, kind: Tok, text: &[u8])
    ensures { tree.new ≡ machine.add_start (token_of kind text.now) tree.old }
{
    if kind == Tok::Directive
        && let Some(directive) = directive_of(text)
    {
        open_part(tree, directive);
    }
}

/// A directive behind a level.
fn add_directive(tree: &mut Tree, alloc: Global, text: &[u8]) -> Result<(), NoMemory>
    ensures { OnOk result (tree.new ≡ machine.add_directive (machine.directive_of (drop 2 text.now)) tree.old) }
{
    if let Some(directive) = directive_of(text) {
        close_part(tree, alloc)?;
        open_part(tree, directive);
    }
    Ok(())
}

/// A disjunction begins.
fn open_atoms(tree: &mut Tree, alloc: Global) -> Result<(), NoMemory>
    ensures { OnOk result (tree.new ≡ machine.open_atoms tree.old) }
{
    tree.atoms = one_place(alloc)?;
    tree.anonymous = 0;
    Ok(())
}

/// A disjunction begins with an atom.
fn open_head(tree: &mut Tree, alloc: Global, text: &[u8]) -> Result<(), NoMemory>
    ensures { OnOk result (tree.new ≡ machine.open_head text.now tree.old) }
{
    open_atoms(tree, alloc)?;
    tree.name = Name::from_slice(alloc, text)?;
    Ok(())
}

/// A choice begins, with a lower bound or without one.
fn open_choice(tree: &mut Tree, alloc: Global, lower: Option<i32>) -> Result<(), NoMemory>
    ensures { OnOk result (tree.new ≡ machine.open_choice lower tree.old) }
{
    tree.lower = lower;
    tree.elements = one_place(alloc)?;
    tree.anonymous = 0;
    Ok(())
}

/// A constraint begins.
fn open_constraint(tree: &mut Tree, alloc: Global)
    ensures { tree.new ≡ machine.open_constraint tree.old }
{
    tree.head = Head::Disj(List::new(alloc));
    tree.literals = List::new(alloc);
    tree.anonymous = 0;
}

/// Behind a directive or a full stop.
fn add_statement(tree: &mut Tree, alloc: Global, kind: Tok, text: &[u8]) -> Result<(), NoMemory>
    ensures { OnOk result (tree.new ≡ machine.add_statement (token_of kind text.now) tree.old) }
{
    match kind {
        Tok::Directive => add_directive(tree, alloc, text)?,
        Tok::Name => open_head(tree, alloc, text)?,
        Tok::Minus => open_atoms(tree, alloc)?,
        Tok::Number(lower) => open_choice(tree, alloc, Some(lower))?,
        Tok::LeftBrace => open_choice(tree, alloc, None)?,
        Tok::Arrow => open_constraint(tree, alloc),
        _ => {}
    }
    Ok(())
}

/// Where an atom may begin.
fn add_name(tree: &mut Tree, alloc: Global, kind: Tok, text: &[u8]) -> Result<(), NoMemory>
    ensures { OnOk result (tree.new ≡ machine.add_name (token_of kind text.now) tree.old) }
{
    if kind == Tok::Name {
        tree.name = Name::from_slice(alloc, text)?;
    }
    Ok(())
}

/// Behind an atom of a disjunction.
fn add_head(tree: &mut Tree, alloc: Global, kind: Tok) -> Result<(), NoMemory>
    ensures { OnOk result ((bytes : List ℕ) → tree.new ≡ machine.add_head (token_of kind bytes) tree.old) }
{
    match kind {
        Tok::Arrow => {
            close_disjunction(tree, alloc);
            tree.literals = List::new(alloc);
            Ok(())
        }
        Tok::Dot => {
            let atoms = mem::replace(&mut tree.atoms, List::new(alloc));
            let head = Head::Disj(atoms);
            let body = List::new(alloc);
            tree.rules.push(Rule { head, body })
        }
        _ => Ok(()),
    }
}

/// Behind the atom of an element.
fn add_chosen(tree: &mut Tree, alloc: Global, kind: Tok) -> Result<(), NoMemory>
    ensures { OnOk result ((bytes : List ℕ) → tree.new ≡ machine.add_chosen (token_of kind bytes) tree.old) }
{
    match kind {
        Tok::Colon => tree.literals = List::new(alloc),
        Tok::Semicolon | Tok::RightBrace => close_element(tree, alloc, List::new(alloc))?,
        _ => {}
    }
    Ok(())
}

/// Behind an upper bound.
fn add_upper(tree: &mut Tree, alloc: Global, kind: Tok) -> Result<(), NoMemory>
    ensures { OnOk result ((bytes : List ℕ) → tree.new ≡ machine.add_upper (token_of kind bytes) tree.old) }
{
    match kind {
        Tok::Arrow => tree.literals = List::new(alloc),
        Tok::Dot => close_rule(tree, alloc, List::new(alloc))?,
        _ => {}
    }
    Ok(())
}

/// Behind a choice, where an upper bound may come.
fn add_choice(tree: &mut Tree, alloc: Global, kind: Tok) -> Result<(), NoMemory>
    ensures { OnOk result ((bytes : List ℕ) → tree.new ≡ machine.add_choice (token_of kind bytes) tree.old) }
{
    match kind {
        Tok::Number(upper) => {
            close_choice(tree, alloc, Some(upper));
            Ok(())
        }
        _ => {
            close_choice(tree, alloc, None);
            add_upper(tree, alloc, kind)
        }
    }
}

/// Where a literal has to begin.
fn add_literal(tree: &mut Tree, alloc: Global, kind: Tok, text: &[u8]) -> Result<(), NoMemory>
    requires { tree.old.anonymous < u32.MAX }
    ensures { OnOk result (tree.new ≡ machine.add_literal (token_of kind text.now) tree.old) }
{
    match kind {
        Tok::Name => tree.name = Name::from_slice(alloc, text)?,
        Tok::Number(_) | Tok::Variable | Tok::Anonymous => {
            tree.left = next_term(&mut tree.anonymous, alloc, kind, text)?;
        }
        _ => {}
    }
    Ok(())
}

/// Where literals end.
fn add_close(tree: &mut Tree, alloc: Global, kind: Tok) -> Result<(), NoMemory>
    ensures { OnOk result ((bytes : List ℕ) → tree.new ≡ machine.add_close (token_of kind bytes) tree.old) }
{
    match kind {
        Tok::Dot => close_body(tree, alloc)?,
        Tok::Semicolon | Tok::RightBrace => close_condition(tree, alloc)?,
        _ => {}
    }
    Ok(())
}

/// Behind an arrow or a colon.
fn add_first_literal(tree: &mut Tree, alloc: Global, kind: Tok, text: &[u8]) -> Result<(), NoMemory>
    requires { tree.old.anonymous < u32.MAX }
    ensures { OnOk result (tree.new ≡ machine.add_first_literal (token_of kind text.now) tree.old) }
{
    match kind {
        Tok::Dot | Tok::Semicolon | Tok::RightBrace => add_close(tree, alloc, kind),
        _ => add_literal(tree, alloc, kind, text),
    }
}

/// Behind an operator: the comparison is whole.
fn add_right(tree: &mut Tree, alloc: Global, kind: Tok, text: &[u8]) -> Result<(), NoMemory>
    requires { tree.old.anonymous < u32.MAX }
    ensures { OnOk result (tree.new ≡ machine.add_right (token_of kind text.now) tree.old) }
{
    let left = mem::replace(&mut tree.left, Term::Int(0));
    let right = next_term(&mut tree.anonymous, alloc, kind, text)?;
    let op = tree.op;
    tree.literals.push(Literal::Cmp(left, op, right))
}

/// Behind a whole atom.
fn add_behind(tree: &mut Tree, alloc: Global, role: Role, kind: Tok) -> Result<(), NoMemory>
    ensures { OnOk result ((bytes : List ℕ) → tree.new ≡ machine.add_behind role (token_of kind bytes) tree.old) }
{
    match role {
        Role::First | Role::Wide | Role::Further => add_head(tree, alloc, kind),
        Role::Chosen => add_chosen(tree, alloc, kind),
        Role::Positive(_) | Role::Negative(_) => add_close(tree, alloc, kind),
    }
}

/// The open name is the left side of a comparison.
fn add_left(tree: &mut Tree, kind: Tok)
    ensures { (bytes : List ℕ) → tree.new ≡ (record tree.old { left = Term.Sym tree.old.name; name = []; op = machine.op_of (token_of kind bytes) }) }
{
    let name = mem::replace(&mut tree.name, Name::empty());
    tree.left = Term::Sym(name);
    tree.op = op_of(kind);
}

/// Behind a name that no parenthesis follows.
fn add_bare_name(tree: &mut Tree, alloc: Global, role: Role, kind: Tok) -> Result<(), NoMemory>
    ensures { OnOk result ((bytes : List ℕ) → tree.new ≡ machine.add_bare_name role (token_of kind bytes) tree.old) }
{
    if matches!(role, Role::Positive(_)) && is_operator(kind) {
        add_left(tree, kind);
        Ok(())
    } else {
        add_bare(tree, alloc, role)?;
        add_behind(tree, alloc, role, kind)
    }
}

/// Behind a name.
fn add_after_name(tree: &mut Tree, alloc: Global, role: Role, kind: Tok) -> Result<(), NoMemory>
    ensures { OnOk result ((bytes : List ℕ) → tree.new ≡ machine.add_after_name role (token_of kind bytes) tree.old) }
{
    match kind {
        Tok::LeftParen => {
            tree.args = List::new(alloc);
            Ok(())
        }
        _ => add_bare_name(tree, alloc, role, kind),
    }
}

/// The name of an atom behind a minus, which belongs to it.
fn negated(alloc: Global, text: &[u8]) -> Result<Name, NoMemory>
    ensures { IfOk result (λ name. name ≡ codes "-" ++ text.now) }
{
    let mut bytes = Vec::with_capacity(alloc, text.len() + 1)?;
    bytes.push(b'-')?;
    bytes.extend_from_slice(text)?;
    Name::from_slice(alloc, bytes.as_slice())
}

/// Behind a minus.
fn add_negated(tree: &mut Tree, alloc: Global, kind: Tok, text: &[u8]) -> Result<(), NoMemory>
    ensures { OnOk result (tree.new ≡ machine.add_negated (token_of kind text.now) tree.old) }
{
    if kind == Tok::Name {
        tree.name = negated(alloc, text)?;
    }
    Ok(())
}

/// Behind a minus and a name.
fn add_after_negated(tree: &mut Tree, alloc: Global, role: Role, kind: Tok) -> Result<(), NoMemory>
    ensures { OnOk result ((bytes : List ℕ) → tree.new ≡ machine.add_after_negated role (token_of kind bytes) tree.old) }
{
    match kind {
        Tok::LeftParen => {
            tree.args = List::new(alloc);
            Ok(())
        }
        _ => {
            add_bare(tree, alloc, role)?;
            add_behind(tree, alloc, role, kind)
        }
    }
}

/// A term is an argument.
fn add_term(tree: &mut Tree, alloc: Global, kind: Tok, text: &[u8]) -> Result<(), NoMemory>
    requires { tree.old.anonymous < u32.MAX }
    ensures { OnOk result (tree.new ≡ machine.add_term (token_of kind text.now) tree.old) }
{
    let term = next_term(&mut tree.anonymous, alloc, kind, text)?;
    tree.args.push(term)
}

/// Where an argument has to stand.
fn add_next_argument(tree: &mut Tree, alloc: Global, kind: Tok, text: &[u8]) -> Result<(), NoMemory>
    requires { tree.old.anonymous < u32.MAX }
    ensures { OnOk result (tree.new ≡ machine.add_next_argument (token_of kind text.now) tree.old) }
{
    match kind {
        Tok::Number(value) => {
            tree.low = value;
            Ok(())
        }
        _ => add_term(tree, alloc, kind, text),
    }
}

/// Behind an opening parenthesis.
fn add_first_argument(
    tree: &mut Tree,
    alloc: Global,
    role: Role,
    kind: Tok,
    text: &[u8],
) -> Result<(), NoMemory>
    requires { tree.old.anonymous < u32.MAX }
    ensures { OnOk result (tree.new ≡ machine.add_first_argument role (token_of kind text.now) tree.old) }
{
    match kind {
        Tok::RightParen => add_whole(tree, alloc, role),
        _ => add_next_argument(tree, alloc, kind, text),
    }
}

/// Behind an argument.
fn add_after_argument(tree: &mut Tree, alloc: Global, role: Role, kind: Tok) -> Result<(), NoMemory>
    ensures { OnOk result ((bytes : List ℕ) → tree.new ≡ machine.add_after_argument role (token_of kind bytes) tree.old) }
{
    match kind {
        Tok::RightParen => add_whole(tree, alloc, role),
        _ => Ok(()),
    }
}

/// Behind a number among arguments.
fn add_after_number(tree: &mut Tree, alloc: Global, role: Role, kind: Tok) -> Result<(), NoMemory>
    ensures { OnOk result ((bytes : List ℕ) → tree.new ≡ machine.add_after_number role (token_of kind bytes) tree.old) }
{
    match kind {
        Tok::Dots => Ok(()),
        _ => {
            let low = tree.low;
            tree.args.push(Term::Int(low))?;
            add_after_argument(tree, alloc, role, kind)
        }
    }
}

/// Behind the sign of an interval.
fn add_high(tree: &mut Tree, kind: Tok) -> Result<(), NoMemory>
    ensures { OnOk result ((bytes : List ℕ) → tree.new ≡ machine.add_high (token_of kind bytes) tree.old) }
{
    match kind {
        Tok::Number(high) => {
            let low = tree.low;
            tree.args.push(Term::Range(low, high))
        }
        _ => Ok(()),
    }
}

/// Adds a token that may come in a state.
///
/// # Errors
///
/// `NoMemory` where memory runs out: the tree is then of no use.
pub fn add(
    tree: &mut Tree,
    alloc: Global,
    state: State,
    kind: Tok,
    text: &[u8],
) -> Result<(), NoMemory>
    requires { tree.old.anonymous < u32.MAX }
    ensures { OnOk result (tree.new ≡ machine.add state (token_of kind text.now) tree.old) }
{
    match state {
        State::Start => {
            add_start(tree, kind, text);
            Ok(())
        }
        State::Statement => add_statement(tree, alloc, kind, text),
        State::NextHead | State::FirstElement | State::NextElement | State::AfterNot(_) => {
            add_name(tree, alloc, kind, text)
        }
        State::AfterLower => Ok(()),
        State::AfterHead | State::AfterFact => add_head(tree, alloc, kind),
        State::AfterChosen => add_chosen(tree, alloc, kind),
        State::AfterChoice => add_choice(tree, alloc, kind),
        State::AfterUpper => add_upper(tree, alloc, kind),
        State::FirstLiteral(_) => add_first_literal(tree, alloc, kind, text),
        State::NextLiteral(_) => add_literal(tree, alloc, kind, text),
        State::AfterLeft(_) => {
            tree.op = op_of(kind);
            Ok(())
        }
        State::AfterOperator(_) => add_right(tree, alloc, kind, text),
        State::AfterLiteral(_) => add_close(tree, alloc, kind),
        State::AfterName(role) => add_after_name(tree, alloc, role, kind),
        State::AfterMinus(_) => add_negated(tree, alloc, kind, text),
        State::AfterNegated(role) => add_after_negated(tree, alloc, role, kind),
        State::FirstArgument(role) => add_first_argument(tree, alloc, role, kind, text),
        State::NextArgument(_) => add_next_argument(tree, alloc, kind, text),
        State::AfterArgument(role) => add_after_argument(tree, alloc, role, kind),
        State::AfterNumber(role) => add_after_number(tree, alloc, role, kind),
        State::AfterDots => add_high(tree, kind),
    }
}
