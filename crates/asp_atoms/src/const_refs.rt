//! Constants that borrow their names, and their order.
ghost use Rattle.std.specs.Prelude.{◌≡◌};
ghost use Rattle.std.specs.Ordering.{nat_cmp};
ghost use Rattle.std.specs.Cmp.Lexicographic.{slice_cmp};
ghost use Rattle.asp_defs.specs.Constants.{const_cmp};
ghost use Rattle.asp_atoms.specs.ConstRefs.{const_of};

use asp_defs::Const;
use std::cmp::Ordering;

/// A constant whose name borrows its bytes.
#[derive(Debug, Clone, Copy)]
pub enum ConstRef<'a> {
    /// This integer.
    Int(i32),
    /// The symbol with these bytes as its name.
    Sym(&'a [u8]),
}

impl Default for ConstRef<'_> {
    fn default() -> Self {
        ConstRef::Int(0)
    }
}

/// A constant that borrows the name of another.
pub fn const_ref(constant: &Const) -> ConstRef<'_>
    ensures { const_of result ≡ constant.now }
{
    match constant {
        Const::Int(value) => ConstRef::Int(*value),
        Const::Sym(name) => ConstRef::Sym(name.as_slice()),
    }
}

/// Compares names by their bytes.
fn compare_names(left: &[u8], right: &[u8]) -> Ordering
    ensures { result ≡ slice_cmp nat_cmp left.now right.now }
{
    left.cmp(&right)
}

/// Compares constants: integers come before symbols, integers by value and symbols by their bytes.
pub fn compare_const_refs(left: ConstRef<'_>, right: ConstRef<'_>) -> Ordering
    ensures { result ≡ const_cmp (const_of left.entry) (const_of right.entry) }
{
    match left {
        ConstRef::Int(value) => match right {
            ConstRef::Int(other) => value.cmp(&other),
            ConstRef::Sym(_) => Ordering::Less,
        },
        ConstRef::Sym(name) => match right {
            ConstRef::Int(_) => Ordering::Greater,
            ConstRef::Sym(other) => compare_names(name, other),
        },
    }
}
