//! The tokens of a text.
ghost use Rattle.std.specs.Prelude.{◌≡◌, ◌≢◌, ◌≤◌, ◌++◌, length, map, Ok, Err, IfOk, IfErr, OnOk, option_to_list};
ghost use Rattle.asp_defs.specs.declared.faults.TextFault.TheVariants.{NoMemory};
ghost use Rattle.asp_defs.specs.declared.faults.Which.TheVariants as which;
ghost use Rattle.asp_defs.specs.Limits.{limit};
ghost use Rattle.asp_defs.specs.Tokens.{tokens_of};
ghost use Rattle.asp_lex.specs.Fronts.{found_at};
ghost use Rattle.asp_lex.specs.Slices.{placed, StandBetween};

use crate::pieces::{Shape, first_piece};
use crate::tokens::Token;
use asp_defs::TextFault;
use std::alloc::{AllocError, Global};

/// The token that a piece is between two places, if it is one, or the refusal of the text.
fn token_at(shape: Shape, from: u32, to: u32) -> Result<Option<Token>, TextFault>
    ensures { result ≡ found_at shape from to }
{
    match shape {
        Shape::Gap => Ok(None),
        Shape::Token(kind) => Ok(Some(Token { kind, from, to })),
        Shape::BadByte => Err(TextFault::BadByte(from)),
        Shape::BadNumber => Err(TextFault::BadNumber(from)),
        Shape::OpenComment => Err(TextFault::OpenComment(from)),
    }
}

/// Appends a token, if there is one.
fn add(tokens: &mut Vec<Token>, found: Option<Token>) -> Result<(), AllocError>
    ensures { OnOk result (tokens.new.items ≡ tokens.old.items ++ option_to_list found) }
{
    if let Some(token) = found {
        tokens.push(token)?;
    }
    Ok(())
}

/// The tokens of a text in its order, without blanks and comments.
///
/// # Errors
/// The lexical refusal that stands first in the text: `BadByte` at a byte that begins nothing, `BadNumber` at a number
/// that 32 bits don't hold, `OpenComment` at a block comment without an end. `NoMemory` where memory ran out.
pub fn lex(alloc: Global, bytes: &[u8]) -> Result<Vec<Token>, TextFault>
    requires { length bytes.now ≤ limit which.Bytes }
    ensures tokens { IfOk result (λ ts. tokens_of bytes.now ≡ Ok (map (placed bytes.now) ts.items)) }
    ensures sliced { IfOk result (λ ts. StandBetween 0 (length bytes.now) ts.items) }
    ensures refused { IfErr result (λ fault. fault ≢ NoMemory → tokens_of bytes.now ≡ Err fault) }
{
    let mut tokens = Vec::new(alloc);
    let mut rest = bytes;
    let mut at = 0;
    while let Some((first, behind)) = rest.split_first() {
        let piece = first_piece(*first, behind);
        let to = at + piece.len;
        add(&mut tokens, token_at(piece.shape, at as u32, to as u32)?)?;
        rest = rest.split_at(piece.len).1;
        at = to;
    }
    Ok(tokens)
}
