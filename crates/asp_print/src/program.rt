//! The canonical text of a program.
ghost use Rattle.std.specs.Prelude.{◌≡◌, ◌++◌, codes, OnOk, OnErr};
ghost use Rattle.std.specs.Io.KnownBytes.{Appends};
ghost use Rattle.asp_io.specs.Causes.{HasCause};
ghost use Rattle.asp_io.specs.Moved.{AppendsPrefix};
ghost use Rattle.asp_defs.specs.Grammar.{quant_word};
ghost use Rattle.asp_defs.specs.Lines.{line};
ghost use Rattle.asp_defs.specs.Canonical.{program_text, constraint_part_text, headed_text, literals_text, head_text, low_text, high_text, level_text, rule_line, statement_text, element_text, literal_text, op_text, atom_text, term_text, behind_sign};
ghost use Rattle.asp_print.specs.Written.{Writes};

use crate::buffer::{Buffer, flush, print_bytes};
use crate::pieces::{Printed, print_applied, print_each, print_integer, print_joined, print_name};
use asp_defs::{Atom, Element, Head, List, Literal, Op, Part, Program, Quant, Rule, Term};
use asp_io::{Failed, Sink};

/// Writes the canonical text of the program, or as much of it as the sink takes before it fails.
pub fn print_program<K: Sink>(sink: &mut K, program: &Program) -> Result<(), Failed>
    ensures all { OnOk result (Appends (K.taken sink.old) (K.taken sink.new) (program_text program.now)) }
    ensures prefix { OnErr result (AppendsPrefix (K.taken sink.old) (K.taken sink.new) (program_text program.now)) }
    ensures cause { HasCause (K.faults sink.old) (K.faults sink.new) result }
{
    let mut buffer = Buffer::new();
    print_parts(sink, &mut buffer, program)?;
    flush(sink, &mut buffer)
}

/// Writes the levels and the constraint part.
fn print_parts<K: Sink>(sink: &mut K, buffer: &mut Buffer, program: &Program) -> Result<(), Failed>
    ensures { Writes (K.taken sink.old) (K.taken sink.new) buffer.old.items buffer.new.items (K.faults sink.old) (K.faults sink.new)
        result (program_text program.now) }
{
    print_each(sink, buffer, &program.levels)?;
    print_constraint_part(sink, buffer, &program.cons)
}

/// Writes the constraint part, and nothing where it is empty.
fn print_constraint_part<K: Sink>(
    sink: &mut K,
    buffer: &mut Buffer,
    rules: &List<Rule>,
) -> Result<(), Failed>
    ensures { Writes (K.taken sink.old) (K.taken sink.new) buffer.old.items buffer.new.items (K.faults sink.old) (K.faults sink.new)
        result (constraint_part_text rules.now) }
{
    if rules.is_empty() {
        return Ok(());
    }
    print_bytes(sink, buffer, b"%@constraint\n")?;
    print_each(sink, buffer, rules)
}

impl Printed for Part {
    ghost text = { level_text };

    fn print<K: Sink>(&self, sink: &mut K, buffer: &mut Buffer) -> Result<(), Failed> {
        print_directive(sink, buffer, self.quant)?;
        print_each(sink, buffer, &self.rules)
    }
}

/// Writes the line that begins a level.
fn print_directive<K: Sink>(sink: &mut K, buffer: &mut Buffer, quant: Quant) -> Result<(), Failed>
    ensures { Writes (K.taken sink.old) (K.taken sink.new) buffer.old.items buffer.new.items (K.faults sink.old) (K.faults sink.new)
        result (line (codes "%@" ++ quant_word quant)) }
{
    print_bytes(sink, buffer, directive(quant))
}

/// The line that begins a level.
fn directive(quant: Quant) -> &'static [u8]
    ensures { result.now ≡ line (codes "%@" ++ quant_word quant) }
{
    match quant {
        Quant::Exists => b"%@exists\n",
        Quant::Forall => b"%@forall\n",
    }
}

impl Printed for Rule {
    ghost text = { rule_line };

    fn print<K: Sink>(&self, sink: &mut K, buffer: &mut Buffer) -> Result<(), Failed> {
        print_statement(sink, buffer, self)?;
        print_bytes(sink, buffer, b".\n")
    }
}

/// Writes a rule without its full stop. A constraint has its arrow also where its body is empty.
fn print_statement<K: Sink>(sink: &mut K, buffer: &mut Buffer, rule: &Rule) -> Result<(), Failed>
    ensures { Writes (K.taken sink.old) (K.taken sink.new) buffer.old.items buffer.new.items (K.faults sink.old) (K.faults sink.new)
        result (statement_text rule.now.head rule.now.body) }
{
    if rule.is_constraint() {
        print_constraint(sink, buffer, &rule.body)
    } else {
        print_headed(sink, buffer, &rule.head, &rule.body)
    }
}

/// Writes a constraint.
fn print_constraint<K: Sink>(
    sink: &mut K,
    buffer: &mut Buffer,
    body: &List<Literal>,
) -> Result<(), Failed>
    ensures { Writes (K.taken sink.old) (K.taken sink.new) buffer.old.items buffer.new.items (K.faults sink.old) (K.faults sink.new)
        result (codes ":- " ++ literals_text body.now) }
{
    print_bytes(sink, buffer, b":- ")?;
    print_joined(sink, buffer, b", ", body)
}

/// Writes a rule with a head.
fn print_headed<K: Sink>(
    sink: &mut K,
    buffer: &mut Buffer,
    head: &Head,
    body: &List<Literal>,
) -> Result<(), Failed>
    ensures { Writes (K.taken sink.old) (K.taken sink.new) buffer.old.items buffer.new.items (K.faults sink.old) (K.faults sink.new)
        result (headed_text head.now body.now) }
{
    head.print(sink, buffer)?;
    print_behind(sink, buffer, b" :- ", body)
}

impl Printed for Head {
    ghost text = { head_text };

    fn print<K: Sink>(&self, sink: &mut K, buffer: &mut Buffer) -> Result<(), Failed> {
        match self {
            Head::Disj(atoms) => print_joined(sink, buffer, b" | ", atoms),
            Head::Choice(low, elements, high) => print_choice(sink, buffer, *low, elements, *high),
        }
    }
}

/// Writes a choice between its bounds.
fn print_choice<K: Sink>(
    sink: &mut K,
    buffer: &mut Buffer,
    low: Option<i32>,
    elements: &List<Element>,
    high: Option<i32>,
) -> Result<(), Failed>
    ensures { Writes (K.taken sink.old) (K.taken sink.new) buffer.old.items buffer.new.items (K.faults sink.old) (K.faults sink.new)
        result (head_text (Head.Choice low elements.now high)) }
{
    print_lower(sink, buffer, low)?;
    print_bytes(sink, buffer, b"{")?;
    print_joined(sink, buffer, b"; ", elements)?;
    print_bytes(sink, buffer, b"}")?;
    print_upper(sink, buffer, high)
}

/// Writes a lower bound and a blank behind it, and nothing where there is none.
fn print_lower<K: Sink>(sink: &mut K, buffer: &mut Buffer, bound: Option<i32>) -> Result<(), Failed>
    ensures { Writes (K.taken sink.old) (K.taken sink.new) buffer.old.items buffer.new.items (K.faults sink.old) (K.faults sink.new)
        result (low_text bound) }
{
    match bound {
        None => Ok(()),
        Some(bound) => {
            print_integer(sink, buffer, bound)?;
            print_bytes(sink, buffer, b" ")
        }
    }
}

/// Writes an upper bound and a blank before it, and nothing where there is none.
fn print_upper<K: Sink>(sink: &mut K, buffer: &mut Buffer, bound: Option<i32>) -> Result<(), Failed>
    ensures { Writes (K.taken sink.old) (K.taken sink.new) buffer.old.items buffer.new.items (K.faults sink.old) (K.faults sink.new)
        result (high_text bound) }
{
    match bound {
        None => Ok(()),
        Some(bound) => {
            print_bytes(sink, buffer, b" ")?;
            print_integer(sink, buffer, bound)
        }
    }
}

/// Writes a body behind a sign, and nothing where it is empty.
fn print_behind<K: Sink>(
    sink: &mut K,
    buffer: &mut Buffer,
    sign: &[u8],
    body: &List<Literal>,
) -> Result<(), Failed>
    ensures { Writes (K.taken sink.old) (K.taken sink.new) buffer.old.items buffer.new.items (K.faults sink.old) (K.faults sink.new)
        result (behind_sign sign.now body.now) }
{
    if body.is_empty() {
        return Ok(());
    }
    print_bytes(sink, buffer, sign)?;
    print_joined(sink, buffer, b", ", body)
}

impl Printed for Element {
    ghost text = { element_text };

    fn print<K: Sink>(&self, sink: &mut K, buffer: &mut Buffer) -> Result<(), Failed> {
        self.atom.print(sink, buffer)?;
        print_behind(sink, buffer, b" : ", &self.cond)
    }
}

impl Printed for Literal {
    ghost text = { literal_text };

    fn print<K: Sink>(&self, sink: &mut K, buffer: &mut Buffer) -> Result<(), Failed> {
        match self {
            Literal::Pos(atom) => atom.print(sink, buffer),
            Literal::Neg(atom) => print_negated(sink, buffer, atom),
            Literal::Cmp(left, op, right) => print_comparison(sink, buffer, left, *op, right),
        }
    }
}

/// Writes a negative literal.
fn print_negated<K: Sink>(sink: &mut K, buffer: &mut Buffer, atom: &Atom) -> Result<(), Failed>
    ensures { Writes (K.taken sink.old) (K.taken sink.new) buffer.old.items buffer.new.items (K.faults sink.old) (K.faults sink.new)
        result (literal_text (Literal.Neg atom.now)) }
{
    print_bytes(sink, buffer, b"not ")?;
    atom.print(sink, buffer)
}

/// Writes a comparison.
fn print_comparison<K: Sink>(
    sink: &mut K,
    buffer: &mut Buffer,
    left: &Term,
    op: Op,
    right: &Term,
) -> Result<(), Failed>
    ensures { Writes (K.taken sink.old) (K.taken sink.new) buffer.old.items buffer.new.items (K.faults sink.old) (K.faults sink.new)
        result (literal_text (Literal.Cmp left.now op right.now)) }
{
    left.print(sink, buffer)?;
    print_bytes(sink, buffer, b" ")?;
    print_op(sink, buffer, op)?;
    print_bytes(sink, buffer, b" ")?;
    right.print(sink, buffer)
}

/// Writes the operator.
fn print_op<K: Sink>(sink: &mut K, buffer: &mut Buffer, op: Op) -> Result<(), Failed>
    ensures { Writes (K.taken sink.old) (K.taken sink.new) buffer.old.items buffer.new.items (K.faults sink.old) (K.faults sink.new)
        result (op_text op) }
{
    print_bytes(sink, buffer, sign(op))
}

/// The operator's sign.
fn sign(op: Op) -> &'static [u8]
    ensures { result.now ≡ op_text op }
{
    match op {
        Op::Eq => b"=",
        Op::Ne => b"!=",
        Op::Lt => b"<",
        Op::Le => b"<=",
        Op::Gt => b">",
        Op::Ge => b">=",
    }
}

impl Printed for Atom {
    ghost text = { atom_text };

    fn print<K: Sink>(&self, sink: &mut K, buffer: &mut Buffer) -> Result<(), Failed> {
        print_applied(sink, buffer, &self.name, &self.args)
    }
}

impl Printed for Term {
    ghost text = { term_text };

    fn print<K: Sink>(&self, sink: &mut K, buffer: &mut Buffer) -> Result<(), Failed> {
        match self {
            Term::Int(value) => print_integer(sink, buffer, *value),
            Term::Sym(name) => print_name(sink, buffer, name),
            Term::Var(name) => print_name(sink, buffer, name),
            Term::Anon(_) => print_bytes(sink, buffer, b"_"),
            Term::Range(low, high) => print_interval(sink, buffer, *low, *high),
        }
    }
}

/// Writes an interval.
fn print_interval<K: Sink>(
    sink: &mut K,
    buffer: &mut Buffer,
    low: i32,
    high: i32,
) -> Result<(), Failed>
    ensures { Writes (K.taken sink.old) (K.taken sink.new) buffer.old.items buffer.new.items (K.faults sink.old) (K.faults sink.new)
        result (term_text (Term.Range low high)) }
{
    print_integer(sink, buffer, low)?;
    print_bytes(sink, buffer, b"..")?;
    print_integer(sink, buffer, high)
}
