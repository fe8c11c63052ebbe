//! What the variables of a template run through.
ghost use Rattle.std.specs.Prelude.{◌≡◌, ◌<◌, [], length, get_or};
ghost use Rattle.asp_template.specs.Domains.{domains_of};

use asp_defs::List;

/// For each variable of a template the ranks that it runs through.
#[derive(Clone, Copy)]
pub enum Domains<'a> {
    /// The same ranks for as many variables.
    Same(&'a [u32], usize),
    /// Ranks of its own for each variable.
    Each(&'a [List<u32>]),
}

/// How many variables there are.
pub fn variable_count(domains: Domains<'_>) -> usize
    ensures { result ≡ length (domains_of domains.entry) }
{
    match domains {
        Domains::Same(_, count) => count,
        Domains::Each(lists) => lists.len(),
    }
}

/// The ranks of the variable at a place.
pub fn domain_at<'a>(domains: Domains<'a>, place: usize) -> &'a [u32]
    requires { place < length (domains_of domains) }
    ensures { result.now ≡ get_or (domains_of domains.entry) place [] }
{
    match domains {
        Domains::Same(ranks, _) => ranks,
        Domains::Each(lists) => lists[place].as_slice(),
    }
}
