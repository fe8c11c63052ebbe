//! The places of a body's outer atoms.
ghost use Rattle.std.specs.Prelude.{IsTrue, IfOk, length};
ghost use Rattle.asp_bits.specs.Places.{true_places};
ghost use Rattle.asp_reduct.specs.Bounds.{is_rule_below};
ghost use Rattle.asp_eval.specs.Covers.{IsOuterBody};

use asp_bits::Bits;
use asp_defs::{GroundRule, NoMemory};
use asp_entry::mark_all;
use std::alloc::Global;

/// The places of a body's outer atoms. `NoMemory`: memory was refused.
pub fn outer_body(alloc: Global, rule: &GroundRule, outer: &Bits) -> Result<Bits, NoMemory>
    requires { IsTrue (is_rule_below (length outer.now) rule.now) }
    ensures { IfOk result (IsOuterBody (true_places outer.now) rule.now (length outer.now)) }
{
    let mut marks = Bits::new(alloc, outer.len())?;
    mark_all(&mut marks, rule.pos.as_slice(), outer);
    mark_all(&mut marks, rule.neg.as_slice(), outer);
    Ok(marks)
}
