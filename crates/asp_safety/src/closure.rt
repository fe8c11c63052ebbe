//! The variables that are safe by what is bound and what is linked.
ghost use Rattle.std.specs.Prelude.{◌≡◌, ◌∷◌, [], List, length, OnOk, IfOk};
ghost use Rattle.asp_defs.specs.declared.syntax.Term.{Term};
ghost use Rattle.asp_defs.specs.Safety.{is_variable_of};
ghost use Rattle.asp_safety.specs.Variables.{term_of, terms_of};
ghost use Rattle.asp_safety.specs.Bindings.{links_of};
ghost use Rattle.asp_safety.specs.Closure.{Settles, Gathers, Follows, IsLeast};
ghost use Rattle.asp_safety.specs.Index.{IsIndexOf};

use crate::bindings::Link;
use crate::index::{Index, index_of, last_from};
use crate::variable::Variable;
use asp_defs::NoMemory;
use std::alloc::Global;
use std::collections::HashSet;

/// Whether a variable is in a set.
pub fn has<'a>(set: &HashSet<Variable<'a>>, variable: Variable<'a>) -> bool
    ensures { result ≡ is_variable_of (terms_of set.now.keys) (term_of variable.entry) }
{
    set.contains(&variable)
}

/// Makes a variable safe, and queues it if it wasn't.
fn settle<'a>(
    safe: &mut HashSet<Variable<'a>>,
    queue: &mut Vec<Variable<'a>>,
    variable: Variable<'a>,
) -> Result<(), NoMemory>
    ensures { OnOk result (Settles (term_of variable.entry) (terms_of safe.old.keys) (terms_of safe.new.keys)
        (terms_of queue.old.items) (terms_of queue.new.items)) }
{
    if safe.insert(variable)? {
        queue.push(variable)?;
    }
    Ok(())
}

/// Makes variables safe where none was, and queues each.
pub fn settle_all<'a>(
    safe: &mut HashSet<Variable<'a>>,
    queue: &mut Vec<Variable<'a>>,
    variables: &[Variable<'a>],
) -> Result<(), NoMemory>
    requires safe { safe.old.keys ≡ [] }
    requires queue { queue.old.items ≡ [] }
    ensures { OnOk result (Gathers (terms_of variables.now) (terms_of safe.new.keys) (terms_of queue.new.items)) }
{
    for variable in variables {
        settle(safe, queue, *variable)?;
    }
    Ok(())
}

/// Makes safe what is linked with a safe variable, and queues what wasn't.
fn follow<'a>(
    links: &[Link<'a>],
    index: &Index<'a>,
    from: Variable<'a>,
    safe: &mut HashSet<Variable<'a>>,
    queue: &mut Vec<Variable<'a>>,
) -> Result<(), NoMemory>
    requires { IsIndexOf (links_of links.now) (length links.now) index.now.last.entries index.now.previous.items }
    ensures { OnOk result (Follows (links_of links.now) (links_of links.now) (term_of from.entry)
        (terms_of safe.old.keys) (terms_of safe.new.keys) (terms_of queue.old.items) (terms_of queue.new.items)) }
{
    let mut at = last_from(index, from);
    while let Some(place) = at {
        settle(safe, queue, links[place].to)?;
        at = index.previous[place];
    }
    Ok(())
}

/// Makes safe what links bring from the queued variables, in any number of steps. Each link is looked at once.
fn spread<'a>(
    alloc: Global,
    links: &[Link<'a>],
    safe: &mut HashSet<Variable<'a>>,
    queue: &mut Vec<Variable<'a>>,
) -> Result<(), NoMemory>
    ensures { OnOk result ((bound : List Term) → Gathers bound (terms_of safe.old.keys) (terms_of queue.old.items)
        → IsLeast bound (links_of links.now) (terms_of safe.new.keys)) }
{
    if links.is_empty() {
        return Ok(());
    }
    let index = index_of(alloc, links)?;
    while let Some(from) = queue.pop() {
        follow(links, &index, from, safe, queue)?;
    }
    Ok(())
}

/// The least variables with those that are bound and those that are linked with others of them.
pub fn close<'a>(
    alloc: Global,
    bound: &[Variable<'a>],
    links: &[Link<'a>],
) -> Result<HashSet<Variable<'a>>, NoMemory>
    ensures { IfOk result (λ safe. IsLeast (terms_of bound.now) (links_of links.now) (terms_of safe.keys)) }
{
    let mut safe = HashSet::new(alloc);
    let mut queue = Vec::new(alloc);
    settle_all(&mut safe, &mut queue, bound)?;
    spread(alloc, links, &mut safe, &mut queue)?;
    Ok(safe)
}

/// Adds the queued variables and those that links reach from them. Each link from them is looked at once.
fn reach<'a>(
    links: &[Link<'a>],
    index: &Index<'a>,
    safe: &mut HashSet<Variable<'a>>,
    queue: &mut Vec<Variable<'a>>,
    out: &mut Vec<Variable<'a>>,
) -> Result<(), NoMemory>
    requires { IsIndexOf (links_of links.now) (length links.now) index.now.last.entries index.now.previous.items }
    ensures { OnOk result ((start : Term) → Settles start [] (terms_of safe.old.keys) [] (terms_of queue.old.items)
        → terms_of out.old.items ≡ [] → IsLeast (start ∷ []) (links_of links.now) (terms_of out.new.items)) }
{
    while let Some(from) = queue.pop() {
        out.push(from)?;
        follow(links, index, from, safe, queue)?;
    }
    Ok(())
}

/// The variables that links reach from one, itself included.
pub fn reached<'a>(
    alloc: Global,
    links: &[Link<'a>],
    index: &Index<'a>,
    start: Variable<'a>,
) -> Result<Vec<Variable<'a>>, NoMemory>
    requires { IsIndexOf (links_of links.now) (length links.now) index.now.last.entries index.now.previous.items }
    ensures { IfOk result (λ out. IsLeast (term_of start.entry ∷ []) (links_of links.now) (terms_of out.items)) }
{
    let mut safe = HashSet::new(alloc);
    let mut queue = Vec::new(alloc);
    let mut out = Vec::new(alloc);
    settle(&mut safe, &mut queue, start)?;
    reach(links, index, &mut safe, &mut queue, &mut out)?;
    Ok(out)
}
