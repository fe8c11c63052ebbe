//! Checking programs: each text against its verdict.
ghost use Rattle.std.specs.Prelude.{◌≡◌, [], ◌∷◌, IfOk};
ghost use Rattle.asp_check.specs.Condition.{IsCheckable};

use crate::texts::{expect, program_of, repeated, shown, told};
use asp_check::{CheckFault, check};
use asp_defs::{
    Atom, Head, List, Literal, Name, NoMemory, Op, Part, Program, Quant, Rule, Term, Var,
};
use std::alloc::Global;
use std::process::Abort;

/// Safety, and behind it the form of the constraint part.
const ROWS: [(&str, &str); 76] = [
    // Bound by positive atoms alone.
    ("%@exists", "ok"),
    ("%@exists p.", "ok"),
    ("%@exists p(X) :- p(X).", "ok"),
    ("%@exists p(X).", "unsafe X 1"),
    ("%@exists p(X) :- not p(X).", "unsafe X 1"),
    ("%@exists :- not p(X).", "unsafe X 1"),
    ("%@exists :- not p(X), p(X).", "ok"),
    ("%@exists p(X) | p(Y) :- p(X).", "unsafe Y 1"),
    ("%@exists p(X) | p(Y) :- p(X), p(Y).", "ok"),
    // By equations, in either direction and in chains.
    ("%@exists p(X) :- X = 7.", "ok"),
    ("%@exists p(X) :- 7 = X.", "ok"),
    ("%@exists p(X) :- X = Y, Y = 7.", "ok"),
    ("%@exists p(X) :- Y = X, Y = 7.", "ok"),
    ("%@exists p(X) :- Y = 7, X = Y.", "ok"),
    ("%@exists p(X) :- X = Y, Y = Z, Z = W, p(W).", "ok"),
    ("%@exists p(X) :- Z = W, Y = X, Y = Z, p(W).", "ok"),
    (
        "%@exists p(X) :- X = Y, Y = Z, Z = W, not p(W).",
        "unsafe X 1",
    ),
    ("%@exists p(X) :- X = Y.", "unsafe X 1"),
    ("%@exists :- X = Y, Y = X.", "unsafe X 1"),
    ("%@exists :- X = X.", "unsafe X 1"),
    ("%@exists :- 7 = 7.", "ok"),
    // Not by other comparisons.
    ("%@exists p(X) :- X != 7.", "unsafe X 1"),
    ("%@exists p(X) :- X < 7.", "unsafe X 1"),
    ("%@exists p(X) :- X <= 7.", "unsafe X 1"),
    ("%@exists p(X) :- X > 7.", "unsafe X 1"),
    ("%@exists p(X) :- X >= 7.", "unsafe X 1"),
    ("%@exists p(X) :- p(Y), X != Y.", "unsafe X 1"),
    ("%@exists p(X) :- p(X), X < Y.", "unsafe Y 1"),
    // By the condition of an element, only for that element.
    ("%@exists {p(X) : p(X)}.", "ok"),
    ("%@exists {p(X)}.", "unsafe X 1"),
    ("%@exists {p(X) : not p(X)}.", "unsafe X 1"),
    ("%@exists {p(X) : p(X); p(X)}.", "unsafe X 1"),
    ("%@exists {p(X) : p(X); p(Y) : p(X)}.", "unsafe Y 1"),
    ("%@exists {p(X) : p(X); p(Y)} :- not p(X).", "unsafe X 1"),
    ("%@exists {p(X) : p(X)} :- not p(X).", "unsafe X 1"),
    ("%@exists {p(X) : p(X)} :- p(X).", "ok"),
    ("%@exists {p(X)} :- p(X).", "ok"),
    ("%@exists {p(X) : X = Y} :- p(Y).", "ok"),
    ("%@exists {p(X) : Y = X} :- p(Y).", "ok"),
    ("%@exists {p(X) : p(Y)} :- X = Y.", "unsafe X 1"),
    ("%@exists {p(X) : X = Y} :- Y = Z, not p(Z).", "unsafe X 1"),
    ("%@exists {p(X) : X = Y, p(Z)} :- Y = Z.", "unsafe Y 1"),
    ("%@exists {p(X) : p(Z)} :- X = Y, Y = Z.", "unsafe X 1"),
    ("%@exists {p(X) : p(X); p(Y) : p(Y); p(Y)}.", "unsafe Y 1"),
    // By the condition and a chain of the body's equations, which bind nothing by themselves.
    ("%@exists {p(W) : W = X, p(Y)} :- X = Y.", "unsafe X 1"),
    (
        "%@exists {p(W) : W = X, p(Z)} :- X = Y, Y = Z.",
        "unsafe X 1",
    ),
    (
        "%@exists {p(W) : W = X, p(Z)} :- X = Y, Z = V.",
        "unsafe W 1",
    ),
    ("%@exists {p(W) : W = X; p : p(Y)} :- X = Y.", "unsafe W 1"),
    ("%@exists {p(W) : W = X, p(Z)} :- Z = Y, Y = X, p(Y).", "ok"),
    ("%@exists {}.", "ok"),
    ("%@exists {p}.", "ok"),
    // Nameless variables.
    ("%@exists p(_).", "unsafe _ 1"),
    ("%@exists p(_) :- not p(X).", "unsafe _ 1"),
    ("%@exists p(X) :- not p(_).", "unsafe X 1"),
    ("%@exists :- p(_).", "ok"),
    ("%@exists :- not p(_).", "unsafe _ 1"),
    ("%@exists :- _ = _, p(_).", "unsafe _ 1"),
    ("%@exists :- _ = 7.", "ok"),
    ("%@exists :- _ < 7.", "unsafe _ 1"),
    ("%@exists {p : p(_)}.", "ok"),
    ("%@exists {p : not p(_)}.", "unsafe _ 1"),
    // A minus belongs to the name, and bounds bind nothing.
    ("%@exists -p(X) :- -q(X).", "ok"),
    ("%@exists -p(X) :- not -q(X).", "unsafe X 1"),
    ("%@exists -p(X).", "unsafe X 1"),
    ("%@exists 1 {p(X) : -p(X)} 2.", "ok"),
    ("%@exists 1 {p(X)} 2.", "unsafe X 1"),
    ("%@exists {p(X)} 1 :- -p(X).", "ok"),
    // Rules are numbered through levels and the constraint part.
    ("%@exists p. p. %@exists p. p(X).", "unsafe X 4"),
    (
        "%@exists p. %@exists p. %@constraint :- not p(X).",
        "unsafe X 3",
    ),
    ("%@exists p. %@constraint :- p. :- not p(X).", "unsafe X 3"),
    // The form of the constraint part comes behind safety.
    ("%@exists p. %@constraint :- p. p.", "headed 3"),
    ("%@exists p. %@constraint {}.", "headed 2"),
    ("%@exists p. %@constraint 1 {p} 1.", "headed 2"),
    ("%@exists p. %@constraint :- p. -p.", "headed 3"),
    ("%@exists p. %@constraint :- -p.", "ok"),
    ("%@exists p. %@constraint p. :- not p(X).", "unsafe X 3"),
];

/// A first part, a second one, how often it stands, a last part, and the verdict on the text of them.
const LIMITS: [(&str, &str, u32, &str, &str); 24] = [
    ("", "%@exists ", 16, "", "ok"),
    ("", "%@exists ", 17, "", "Levels 17"),
    ("%@exists p(7", ",7", 15, ").", "ok"),
    ("%@exists p(7", ",7", 16, ").", "Arguments 17"),
    ("%@exists :- p(7", ",7", 16, ").", "Arguments 17"),
    ("%@exists :- not p(7", ",7", 16, ").", "Arguments 17"),
    ("%@exists {p(7", ",7", 16, ")}.", "Arguments 17"),
    ("%@exists -p(7", ",7", 16, ").", "Arguments 17"),
    ("%@exists {p : not p(7", ",7", 16, ")}.", "Arguments 17"),
    (
        "%@exists %@constraint :- p(7",
        ",7",
        17,
        ").",
        "Arguments 18",
    ),
    ("%@exists p :- p", ", p", 62, ".", "ok"),
    ("%@exists p :- p", ", p", 63, ".", "Literals 65"),
    ("%@exists {p : p", ", p", 61, "} :- p.", "ok"),
    ("%@exists {p : p", ", p", 62, "} :- p.", "Literals 65"),
    ("%@exists {p", "; p", 64, "}.", "Literals 65"),
    ("%@exists p", " | p", 64, ".", "Literals 65"),
    ("%@exists 1 {p", "; p", 63, "} 1.", "ok"),
    ("%@exists 1 {p", "; p", 64, "} 1.", "Literals 65"),
    (
        "%@exists :- p(A,B,C,D,E,F,G,H,I,J,K,L,M,N,O,P)",
        ", p(P)",
        1,
        ".",
        "ok",
    ),
    (
        "%@exists :- p(A,B,C,D,E,F,G,H,I,J,K,L,M,N,O,P)",
        ", p(Q)",
        1,
        ".",
        "Variables 17",
    ),
    (
        "%@exists :- p(A,B,C,D,E,F,G,H,I,J,K,L,M,N,O)",
        ", p(_,_)",
        1,
        ".",
        "Variables 17",
    ),
    // The order of the refusals: levels, arguments, literals, variables, and safety and form before all.
    (
        "%@exists :- p(7,7,7,7,7,7,7,7,7,7,7,7,7,7,7,7,7).",
        " %@exists",
        16,
        "",
        "Levels 17",
    ),
    (
        "%@exists p(X) :- p(7,7,7,7,7,7,7,7,7,7,7,7,7,7,7,7,7)",
        ", p",
        64,
        ".",
        "unsafe X 1",
    ),
    (
        "%@exists p. %@constraint :- p(7",
        ",7",
        16,
        "). p.",
        "headed 3",
    ),
];

/// A word for the kind of a fault, what it names, and its number.
fn check_told(alloc: Global, fault: &CheckFault) -> Result<String, NoMemory> {
    match fault {
        CheckFault::Unsafe(rule, Var::Named(name)) => {
            let name = shown(name);
            format!(in alloc; "unsafe {name} {rule}")
        }
        CheckFault::Unsafe(rule, Var::Anon) => format!(in alloc; "unsafe _ {rule}"),
        CheckFault::NotConstraint(rule) => format!(in alloc; "headed {rule}"),
        CheckFault::TooLarge(which, count) => format!(in alloc; "{which:?} {count}"),
        CheckFault::NoMemory => String::from_str(alloc, "memory"),
    }
}

/// The verdict on a program.
fn verdict(alloc: Global, program: Program) -> Result<String, NoMemory>
    requires { IsCheckable program }
{
    match check(alloc, program) {
        Ok(_) => String::from_str(alloc, "ok"),
        Err(fault) => check_told(alloc, &fault),
    }
}

/// The verdict on the program of a text, or the words of the text's refusal.
fn answer(alloc: Global, bytes: &[u8]) -> Result<String, NoMemory> {
    match program_of(alloc, bytes) {
        Ok(program) => verdict(alloc, program),
        Err(fault) => told(alloc, &fault),
    }
}

/// Checks each text.
fn check_rows(rt: &impl Abort, alloc: Global, rows: &[(&str, &str)]) -> Result<(), NoMemory> {
    for (text, expected) in rows {
        let answer = answer(alloc, text.as_bytes())?;
        expect(rt, text, answer.as_str(), expected);
    }
    Ok(())
}

#[test]
fn judges_each_row(rt: HostRuntime) -> Result<(), NoMemory> {
    check_rows(&rt, rt.alloc(), &ROWS)
}

/// The list of one item.
fn one<T: Drop>(alloc: Global, item: T) -> Result<List<T>, NoMemory>
    ensures { IfOk result (λ list. list ≡ item ∷ []) }
{
    let mut list = List::new(alloc);
    list.push(item)?;
    Ok(list)
}

/// A constraint where one nameless variable stands twice, which no text has.
fn named_twice(alloc: Global) -> Result<Program, NoMemory>
    ensures { IfOk result IsCheckable }
{
    let name = Name::from_slice(alloc, b"p")?;
    let args = one(alloc, Term::Anon(2))?;
    let mut body = one(alloc, Literal::Cmp(Term::Anon(1), Op::Eq, Term::Anon(2)))?;
    body.push(Literal::Pos(Atom { name, args }))?;
    let rule = Rule {
        head: Head::Disj(List::new(alloc)),
        body,
    };
    let level = Part {
        quant: Quant::Exists,
        rules: one(alloc, rule)?,
    };
    Ok(Program {
        levels: one(alloc, level)?,
        cons: List::new(alloc),
    })
}

#[test]
fn tells_nameless_variables_by_their_numbers(rt: HostRuntime) -> Result<(), NoMemory> {
    let alloc = rt.alloc();
    let verdict = verdict(alloc, named_twice(alloc)?)?;
    expect(&rt, "nameless", verdict.as_str(), "ok");
    Ok(())
}

/// Checks each text that is made of parts.
fn check_repeated(
    rt: &impl Abort,
    alloc: Global,
    rows: &[(&str, &str, u32, &str, &str)],
) -> Result<(), NoMemory> {
    for (first, part, times, last, expected) in rows {
        let text = repeated(alloc, first, part, *times, last)?;
        let answer = answer(alloc, text.as_slice())?;
        assert!(rt;
            answer.as_str() == *expected,
            "{first} {times} times {part} {last}: {answer}"
        );
    }
    Ok(())
}

#[test]
fn keeps_each_limit(rt: HostRuntime) -> Result<(), NoMemory> {
    check_repeated(&rt, rt.alloc(), &LIMITS)
}

/// How many levels the program has that is given on.
fn count_levels(alloc: Global, program: Program) -> Option<usize>
    requires { IsCheckable program }
{
    let checked = check(alloc, program).ok()?;
    Some(checked.program().levels.len())
}

/// The same for the program of a text.
fn count_levels_of(alloc: Global, bytes: &[u8]) -> Option<usize> {
    match program_of(alloc, bytes) {
        Ok(program) => count_levels(alloc, program),
        Err(_) => None,
    }
}

#[test]
fn gives_the_program_on(rt: HostRuntime) {
    assert!(rt; count_levels_of(rt.alloc(), b"%@forall") == Some(1));
}

/// A capital for a number.
fn capital(number: u32) -> u8 {
    b'A' + (number % 26) as u8
}

/// Adds the variable of a number: four capitals.
fn add_variable(text: &mut Vec<u8>, number: u32) -> Result<(), NoMemory> {
    text.push(capital(number / 17_576))?;
    text.push(capital(number / 676))?;
    text.push(capital(number / 26))?;
    text.push(capital(number))?;
    Ok(())
}

/// Adds equations between each of the numbered variables and the next one.
fn add_equations(text: &mut Vec<u8>, times: u32) -> Result<(), NoMemory> {
    for number in 0..times {
        if number > 0 {
            text.push(b',')?;
        }
        add_variable(text, number)?;
        text.push(b'=')?;
        add_variable(text, number + 1)?;
    }
    Ok(())
}

/// A rule whose head's variable is bound by a chain of equations, the last of which comes last.
fn chain(alloc: Global, times: u32) -> Result<Vec<u8>, NoMemory> {
    let mut text = Vec::from_slice(alloc, b"%@exists p(AAAA) :- ")?;
    add_equations(&mut text, times)?;
    text.push(b',')?;
    add_variable(&mut text, times)?;
    text.extend_from_slice(b"=7.")?;
    Ok(text)
}

/// Checks the chain of so many equations.
fn check_chain(rt: &impl Abort, alloc: Global, times: u32, expected: &str) -> Result<(), NoMemory> {
    let text = chain(alloc, times)?;
    let answer = answer(alloc, text.as_slice())?;
    assert!(rt; answer.as_str() == expected, "{times} equations: {answer}");
    Ok(())
}

#[test]
fn follows_long_chains(rt: HostRuntime) -> Result<(), NoMemory> {
    let alloc = rt.alloc();
    check_chain(&rt, alloc, 15, "ok")?;
    check_chain(&rt, alloc, 16, "Variables 17")?;
    check_chain(&rt, alloc, 100_000, "Literals 100002")
}

/// A choice of many elements, whose variable is equated with the first numbered one, beside a chain of as many
/// equations, none of which binds anything.
fn wide(alloc: Global, times: u32) -> Result<Vec<u8>, NoMemory> {
    let mut text = repeated(
        alloc,
        "%@exists {",
        "p(W):W=AAAA;",
        times,
        "p(W):W=AAAA} :- ",
    )?;
    add_equations(&mut text, times)?;
    text.push(b'.')?;
    Ok(text)
}

#[test]
fn judges_many_elements_beside_a_long_body(rt: HostRuntime) -> Result<(), NoMemory> {
    let alloc = rt.alloc();
    let text = wide(alloc, 30_000)?;
    let answer = answer(alloc, text.as_slice())?;
    expect(&rt, "wide", answer.as_str(), "unsafe W 1");
    Ok(())
}
