//! Where the links from a variable stand.
ghost use Rattle.std.specs.Prelude.{◌≡◌, length, IfOk};
ghost use Rattle.asp_safety.specs.Variables.{term_of};
ghost use Rattle.asp_safety.specs.Bindings.{links_of};
ghost use Rattle.asp_safety.specs.Index.{last_of, IsIndexOf};

use crate::bindings::Link;
use crate::variable::Variable;
use asp_defs::NoMemory;
use std::alloc::Global;
use std::collections::HashMap;

/// For each variable the place of the last link from it, and for each link that of the one before it from the same
/// variable: so all links from a variable are found without a look at the others.
#[derive(Drop)]
pub struct Index<'a> {
    /// The place of the last link from each variable.
    pub last: HashMap<Variable<'a>, usize>,
    /// For each link the place of the one before it from the same variable, if there is one.
    pub previous: Vec<Option<usize>>,
}

/// The index of links.
pub fn index_of<'a>(alloc: Global, links: &[Link<'a>]) -> Result<Index<'a>, NoMemory>
    ensures { IfOk result (λ index. IsIndexOf (links_of links.now) (length links.now) index.last.entries
        index.previous.items) }
{
    let mut last = HashMap::new(alloc);
    let mut previous = Vec::new(alloc);
    for (place, link) in links.iter().enumerate() {
        let before = last.insert(link.from, place)?;
        previous.push(before)?;
    }
    Ok(Index { last, previous })
}

/// The place of the last link from a variable.
pub fn last_from<'a>(index: &Index<'a>, variable: Variable<'a>) -> Option<usize>
    ensures { result ≡ last_of index.now.last.entries (term_of variable.entry) }
{
    index.last.get(&variable).copied()
}
