//! A program in one form, which shows all of it: an E or an A for each level and a C for the constraint part, and
//! behind each its rules, each with its arrow and a full stop.
use crate::texts::shown;
use asp_defs::{Atom, Element, Head, Literal, NoMemory, Op, Program, Quant, Rule, Term};
use std::alloc::Global;

/// Writes a name, a number, a nameless variable with its number or an interval.
fn write_term(out: &mut String, term: &Term) -> Result<(), NoMemory> {
    match term {
        Term::Int(value) => write!(out, "{value}"),
        Term::Sym(name) | Term::Var(name) => out.push_str(shown(name)),
        Term::Anon(number) => write!(out, "_{number}"),
        Term::Range(low, high) => write!(out, "{low}..{high}"),
    }
}

/// Writes a name, and in parentheses the arguments, where there are some.
fn write_atom(out: &mut String, atom: &Atom) -> Result<(), NoMemory> {
    out.push_str(shown(&atom.name))?;
    for (at, term) in atom.args.as_slice().iter().enumerate() {
        out.push_str(if at == 0 { "(" } else { "," })?;
        write_term(out, term)?;
    }
    if !atom.args.is_empty() {
        out.push_str(")")?;
    }
    Ok(())
}

fn op_text(op: Op) -> &'static str {
    match op {
        Op::Eq => "=",
        Op::Ne => "!=",
        Op::Lt => "<",
        Op::Le => "<=",
        Op::Gt => ">",
        Op::Ge => ">=",
    }
}

fn write_literal(out: &mut String, literal: &Literal) -> Result<(), NoMemory> {
    match literal {
        Literal::Pos(atom) => write_atom(out, atom),
        Literal::Neg(atom) => {
            out.push_str("not ")?;
            write_atom(out, atom)
        }
        Literal::Cmp(left, op, right) => {
            write_term(out, left)?;
            out.push_str(op_text(*op))?;
            write_term(out, right)
        }
    }
}

/// Writes literals with commas between them.
fn write_literals(out: &mut String, body: &[Literal]) -> Result<(), NoMemory> {
    for (at, literal) in body.iter().enumerate() {
        if at > 0 {
            out.push_str(",")?;
        }
        write_literal(out, literal)?;
    }
    Ok(())
}

/// Writes the atoms of a disjunction with strokes between them.
fn write_disjunction(out: &mut String, atoms: &[Atom]) -> Result<(), NoMemory> {
    for (at, atom) in atoms.iter().enumerate() {
        if at > 0 {
            out.push_str("|")?;
        }
        write_atom(out, atom)?;
    }
    Ok(())
}

/// Writes each element with a colon, its condition and a semicolon.
fn write_elements(out: &mut String, elements: &[Element]) -> Result<(), NoMemory> {
    for element in elements {
        write_atom(out, &element.atom)?;
        out.push_str(":")?;
        write_literals(out, element.cond.as_slice())?;
        out.push_str(";")?;
    }
    Ok(())
}

/// Writes the bound of a choice, if there is one.
fn write_bound(out: &mut String, bound: Option<i32>) -> Result<(), NoMemory> {
    match bound {
        Some(bound) => write!(out, "{bound}"),
        None => Ok(()),
    }
}

/// Writes a disjunction, or a choice in braces between its bounds.
fn write_head(out: &mut String, head: &Head) -> Result<(), NoMemory> {
    match head {
        Head::Disj(atoms) => write_disjunction(out, atoms.as_slice()),
        Head::Choice(lower, elements, upper) => {
            write_bound(out, *lower)?;
            out.push_str("{")?;
            write_elements(out, elements.as_slice())?;
            out.push_str("}")?;
            write_bound(out, *upper)
        }
    }
}

/// Writes each rule with its arrow and a full stop.
fn write_rules(out: &mut String, rules: &[Rule]) -> Result<(), NoMemory> {
    for rule in rules {
        write_head(out, &rule.head)?;
        out.push_str(" <- ")?;
        write_literals(out, rule.body.as_slice())?;
        out.push_str(".")?;
    }
    Ok(())
}

/// The program in its form.
pub fn form_of(alloc: Global, program: &Program) -> Result<String, NoMemory> {
    let mut out = String::new(alloc);
    for part in program.levels.as_slice() {
        out.push_str(match part.quant {
            Quant::Exists => "E",
            Quant::Forall => "A",
        })?;
        write_rules(&mut out, part.rules.as_slice())?;
    }
    out.push_str("C")?;
    write_rules(&mut out, program.cons.as_slice())?;
    Ok(out)
}
