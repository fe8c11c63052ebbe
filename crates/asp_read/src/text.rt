//! The whole text.
ghost use Rattle.std.specs.Prelude.{◌≡◌, ◌≢◌, ◌+◌, ◌≤◌, ◌<◌, ◌⊎◌, [], ◌∷◌, ◌++◌, if◌then◌else◌, length, map, slice_range, IfOk, IfErr, OnOk};
ghost use Rattle.asp_defs.specs.declared.faults.Which.TheVariants as which;
ghost use Rattle.asp_defs.specs.Grammar.{IsText};
ghost use Rattle.asp_defs.specs.Limits.{limit};
ghost use Rattle.asp_defs.specs.TextRefusals.{IsRefused};
ghost use Rattle.asp_lex.specs.Slices.{token_of, placed, StandBetween};
ghost use Rattle.asp_grammar.specs.Machine as machine;

use crate::parts::{add, no_atom};
use crate::refusals::refusal_at;
use crate::states::next_state;
use asp_defs::{Head, List, Name, NoMemory, Op, Part, Program, Quant, Term, TextFault};
use asp_grammar::{Builder, State, Tree};
use asp_lex::{Token, lex};
use std::alloc::Global;

/// The tree of no tokens.
fn no_tree(alloc: Global) -> Tree
    ensures { result ≡ machine.start.tree }
{
    Tree {
        levels: List::new(alloc),
        quant: Quant::Exists,
        in_constraint: false,
        rules: List::new(alloc),
        head: Head::Disj(List::new(alloc)),
        atoms: List::new(alloc),
        lower: None,
        elements: List::new(alloc),
        element: no_atom(alloc),
        literals: List::new(alloc),
        name: Name::empty(),
        args: List::new(alloc),
        left: Term::Int(0),
        op: Op::Eq,
        low: 0,
        anonymous: 0,
    }
}

/// Takes one token more.
///
/// # Errors
///
/// The refusal of the token, if it can't come, and `NoMemory`. The builder is then of no use.
fn advance(builder: &mut Builder, alloc: Global, token: Token, text: &[u8]) -> Result<(), TextFault>
    requires { builder.old.tree.anonymous < u32.MAX }
    ensures moved { OnOk result (machine.step builder.old (token_of token.kind text.now) ≡ Some builder.new) }
    ensures stuck { IfErr result (λ fault. fault ≢ TextFault.NoMemory →
        machine.step builder.old (token_of token.kind text.now) ≡ None) }
    ensures refusal { IfErr result (λ fault. fault ≢ TextFault.NoMemory →
        fault ≡ machine.refusal_at builder.old.state (token_of token.kind text.now) token.from) }
    ensures counted { OnOk result (builder.new.tree.anonymous ≤ builder.old.tree.anonymous + 1) }
{
    let state = builder.state;
    match next_state(builder.tree.in_constraint, state, token.kind, text) {
        Some(next) => {
            add(&mut builder.tree, alloc, state, token.kind, text)?;
            builder.state = next;
            Ok(())
        }
        None => Err(refusal_at(state, token.kind, text, token.from)),
    }
}

/// The bytes of a token.
fn text_of(bytes: &[u8], token: Token) -> &[u8]
    requires begins { token.from ≤ token.to }
    requires ends { token.to ≤ length bytes.now }
    ensures { result.now ≡ slice_range bytes.now token.from token.to }
{
    &bytes[token.from as usize..token.to as usize]
}

/// What the tokens build, where each may come behind those before it.
///
/// # Errors
///
/// The refusal of the first token that can't come, and `NoMemory`.
fn build(alloc: Global, bytes: &[u8], tokens: &[Token]) -> Result<Builder, TextFault>
    requires long { length bytes.now ≤ limit which.Bytes }
    requires sliced { StandBetween 0 (length bytes.now) tokens.now }
    ensures built { IfOk result (λ builder.
        machine.answer_from machine.start (map (placed bytes.now) tokens.now) ≡ machine.end_answer (machine.finish builder)) }
    ensures refused { IfErr result (λ fault. fault ≢ TextFault.NoMemory →
        machine.answer_from machine.start (map (placed bytes.now) tokens.now) ≡ Err fault) }
{
    let mut builder = Builder {
        state: State::Start,
        tree: no_tree(alloc),
    };
    for token in tokens {
        let text = text_of(bytes, *token);
        advance(&mut builder, alloc, *token, text)?;
    }
    Ok(builder)
}

/// The program of finished levels and of the part behind them: the constraint part, or the last level.
fn closed(
    alloc: Global,
    mut levels: List<Part>,
    last: Part,
    in_constraint: bool,
) -> Result<Program, NoMemory>
    ensures { IfOk result (λ program. program ≡ (if in_constraint then record { levels = levels; cons = last.rules }
        else record { levels = levels ++ last ∷ []; cons = [] })) }
{
    if in_constraint {
        return Ok(Program {
            levels,
            cons: last.rules,
        });
    }
    levels.push(last)?;
    let cons = List::new(alloc);
    Ok(Program { levels, cons })
}

/// The program of a tree whose statements are all whole.
fn program_of(alloc: Global, tree: Tree) -> Result<Program, NoMemory>
    ensures { IfOk result (λ program. program ≡ machine.program_of tree) }
{
    let Tree {
        levels,
        quant,
        in_constraint,
        rules,
        ..
    } = tree;
    closed(alloc, levels, Part { quant, rules }, in_constraint)
}

/// The program that was built, if its last statement is whole.
fn finish(alloc: Global, builder: Builder) -> Result<Program, TextFault>
    ensures whole { IfOk result (λ program. machine.end_answer (machine.finish builder) ≡ Ok program) }
    ensures open { IfErr result (λ fault. fault ≢ TextFault.NoMemory →
        machine.end_answer (machine.finish builder) ≡ Err fault) }
{
    let Builder { state, tree } = builder;
    match state {
        State::Statement => Ok(program_of(alloc, tree)?),
        _ => Err(TextFault::Unfinished),
    }
}

/// The program of a text's tokens.
///
/// # Errors
///
/// The refusal of the tokens, and `NoMemory`.
fn parse(alloc: Global, bytes: &[u8], tokens: &[Token]) -> Result<Program, TextFault>
    requires long { length bytes.now ≤ limit which.Bytes }
    requires sliced { StandBetween 0 (length bytes.now) tokens.now }
    ensures program { IfOk result (λ program. machine.answer (map (placed bytes.now) tokens.now) ≡ Ok program) }
    ensures refusal { IfErr result (λ fault. fault ≢ TextFault.NoMemory →
        machine.answer (map (placed bytes.now) tokens.now) ≡ Err fault) }
{
    if tokens.is_empty() {
        return Err(TextFault::NoLevel);
    }
    let builder = build(alloc, bytes, tokens)?;
    finish(alloc, builder)
}

/// The program that the bytes are a text of.
///
/// # Errors
///
/// The one refusal of the text: those of the lexer come first (`BadByte`, `BadNumber`, `OpenComment`), then `NoLevel`
/// where there is no token, that of the first token with which the tokens so far begin no program (`BeforeLevel`,
/// `UnknownDirective`, `AfterConstraint`, `Unexpected`), or `Unfinished` where there is none. `NoMemory` where memory
/// ran out.
pub fn read(alloc: Global, bytes: &[u8]) -> Result<Program, TextFault>
    requires { length bytes.now ≤ limit which.Bytes }
    ensures text { IfOk result (λ program. IsText bytes.now program) }
    ensures refused { IfErr result (λ fault. fault ≢ TextFault.NoMemory → IsRefused bytes.now fault) }
    ensures only { (program : Program) → IsText bytes.now program →
        (result ≡ Ok program) ⊎ (result ≡ Err TextFault.NoMemory) }
    ensures first { (fault : TextFault) → IsRefused bytes.now fault →
        (result ≡ Err fault) ⊎ (result ≡ Err TextFault.NoMemory) }
{
    let tokens = lex(alloc, bytes)?;
    parse(alloc, bytes, tokens.as_slice())
}
