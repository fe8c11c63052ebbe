//! Whether a text is accepted: its length, its tokens and grammar, the checks of its program, and the size of its game.
ghost use Rattle.std.specs.Prelude.{IfOk, IfErr};
ghost use Rattle.asp_defs.specs.Checks.{IsCheckedText};
ghost use Rattle.asp_defs.specs.Sizes.{IsAccepted};
ghost use Rattle.asp_top.specs.Replies.{IsRefusedSo};
ghost use Rattle.asp_top.specs.Solved.{IsMeasured};

use crate::refusal::Refusal;
use asp_atoms::Vocabulary;
use asp_check::{Checked, check};
use asp_defs::Which;
use asp_ground::measure;
use asp_print::Line;
use asp_read::read;
use std::alloc::Global;

/// The program of an accepted text, with its constants and predicates.
#[derive(Drop)]
pub struct Accepted {
    /// The program.
    pub checked: Checked,
    /// Its vocabulary.
    pub vocabulary: Vocabulary,
}

/// The program of the text, where it passes the checks. The bytes are given up.
///
/// # Errors
///
/// The text's first refusal for its length, its tokens, its grammar, and the checks of its program as it is written.
fn checked(alloc: Global, bytes: Vec<u8>) -> Result<Checked, Refusal>
    ensures checked { IfOk result (IsCheckedText bytes.items) }
    ensures refused { IfErr result (IsRefusedSo bytes.items) }
{
    let most = Which::Bytes.limit();
    if bytes.len() as u64 > most {
        return Err(Refusal::Text(Line::TooLarge(Which::Bytes, most + 1)));
    }
    let program = read(alloc, bytes.as_slice())?;
    Ok(check(alloc, program)?)
}

/// The program of the text, where it is accepted. The bytes are given up.
///
/// # Errors
///
/// The text's first refusal: for its length, its tokens, its grammar, the checks of its program, and the size of its
/// game.
pub fn accept(alloc: Global, bytes: Vec<u8>) -> Result<Accepted, Refusal>
    ensures accepted { IfOk result (λ accepted. IsAccepted bytes.items accepted.checked) }
    ensures measured { IfOk result IsMeasured }
    ensures refused { IfErr result (IsRefusedSo bytes.items) }
{
    let checked = checked(alloc, bytes)?;
    let vocabulary = measure(alloc, &checked)?;
    Ok(Accepted {
        checked,
        vocabulary,
    })
}
