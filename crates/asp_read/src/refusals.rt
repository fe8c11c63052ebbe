//! The refusal of a token that can't come in a state.
ghost use Rattle.std.specs.Prelude.{◌≡◌, drop};
ghost use Rattle.asp_defs.specs.TextRefusals as refusals;
ghost use Rattle.asp_lex.specs.Slices.{token_of};
ghost use Rattle.asp_grammar.specs.Machine as machine;

use crate::states::directive_of;
use asp_defs::TextFault;
use asp_grammar::State;
use asp_lex::Tok;

/// Whether a directive's word is known.
fn is_known(text: &[u8]) -> bool
    ensures { result ≡ refusals.is_known_word (drop 2 text.now) }
{
    directive_of(text).is_some()
}

/// Whether a statement may begin at a state.
fn begins_statement(state: State) -> bool
    ensures { result ≡ machine.begins_statement state }
{
    matches!(state, State::Statement)
}

/// The refusal of a first token.
fn first_refusal(kind: Tok, text: &[u8], at: u32) -> TextFault
    ensures { result ≡ refusals.first_refusal (token_of kind text.now) at }
{
    if kind == Tok::Directive && !is_known(text) {
        TextFault::UnknownDirective(at)
    } else {
        TextFault::BeforeLevel(at)
    }
}

/// The refusal of a directive behind other tokens.
fn directive_refusal(state: State, text: &[u8], at: u32) -> TextFault
    ensures { result ≡ machine.later_refusal state (token_of Tok.Directive text.now) at }
{
    if !is_known(text) {
        TextFault::UnknownDirective(at)
    } else if begins_statement(state) {
        TextFault::AfterConstraint(at)
    } else {
        TextFault::Unexpected(at)
    }
}

/// The refusal of a token behind other tokens.
fn later_refusal(state: State, kind: Tok, text: &[u8], at: u32) -> TextFault
    ensures { result ≡ machine.later_refusal state (token_of kind text.now) at }
{
    match kind {
        Tok::Directive => directive_refusal(state, text, at),
        _ => TextFault::Unexpected(at),
    }
}

/// The refusal of a token that can't come in a state. The token begins at `at`.
pub fn refusal_at(state: State, kind: Tok, text: &[u8], at: u32) -> TextFault
    ensures { result ≡ machine.refusal_at state (token_of kind text.now) at }
{
    match state {
        State::Start => first_refusal(kind, text, at),
        _ => later_refusal(state, kind, text, at),
    }
}
