ghost use Rattle.std.specs.Prelude.{◌≡◌};
ghost use Rattle.asp_defs.specs.Limits.{limit, past_limit};

use crate::list::Name;
use std::alloc::AllocError;
use thiserror::Error;

/// Why a text gives no program. Places are byte offsets from 0.
#[derive(Debug, Drop, Error)]
pub enum TextFault {
    /// The byte there begins no token, comment or blank.
    #[error("bad byte at {0}")]
    BadByte(u32),
    /// The number that begins there is too large or too small.
    #[error("bad number at {0}")]
    BadNumber(u32),
    /// The block comment that begins there has no end.
    #[error("open comment at {0}")]
    OpenComment(u32),
    /// There is no token.
    #[error("no level")]
    NoLevel,
    /// The tokens begin a program and are none.
    #[error("unfinished")]
    Unfinished,
    /// The directive there has another word than the known ones.
    #[error("unknown directive at {0}")]
    UnknownDirective(u32),
    /// The text begins with something else than a level's directive.
    #[error("before a level at {0}")]
    BeforeLevel(u32),
    /// A directive stands there behind the constraint part.
    #[error("after the constraint part at {0}")]
    AfterConstraint(u32),
    /// The token there continues no program.
    #[error("unexpected at {0}")]
    Unexpected(u32),
    /// Memory ran out while the program was built.
    #[error("out of memory")]
    NoMemory,
}

impl From<AllocError> for TextFault {
    ghost use Rattle.std.specs.Prelude.{◌≡◌};
    ghost use Rattle.asp_defs.specs.declared.faults.TextFault.TheVariants.{NoMemory};

    ghost from_gives = { λ _ fault. fault ≡ NoMemory };

    fn from(_: AllocError) -> TextFault {
        TextFault::NoMemory
    }
}

/// A variable of a rule: a named one, or one of its nameless ones.
#[derive(Debug, Drop)]
pub enum Var {
    /// The variable of that name.
    Named(Name),
    /// A nameless variable.
    Anon,
}

/// What a limit counts.
#[derive(Debug, Clone, Copy, PartialEq, Eq)]
pub enum Which {
    /// The bytes of a text.
    Bytes,
    /// The quantified levels of a program.
    Levels,
    /// The arguments of an atom.
    Arguments,
    /// The head atoms, elements, conditions and body literals of a rule.
    Literals,
    /// The distinct variables of a rule.
    Variables,
    /// The constants of the last universe.
    Constants,
    /// The atoms of the last base.
    Atoms,
    /// The instances of all rules, before comparisons are looked at.
    Instances,
}

/// The greatest count that a refusal shows: greater ones are shown as it.
pub const MOST_SHOWN: u64 = 1_000_000_000_000_000_000;

impl Which {
    /// The greatest count that the limit allows.
    pub fn limit(self) -> u64
        ensures { result ≡ limit self }
    {
        match self {
            Which::Bytes => 1_048_576,
            Which::Levels => 16,
            Which::Arguments => 16,
            Which::Literals => 64,
            Which::Variables => 16,
            Which::Constants => 4_096,
            Which::Atoms => 262_144,
            Which::Instances => 4_000_000,
        }
    }

    /// A count that passes the limit, as a refusal shows it: at most 10^18.
    pub fn past_limit(self, count: u64) -> Option<(Which, u64)>
        ensures { result ≡ past_limit self count }
    {
        if count > self.limit() {
            Some((self, count.min(MOST_SHOWN)))
        } else {
            None
        }
    }
}

/// Why a program gives no game.
#[derive(Debug, Drop, Error)]
pub enum SizeFault {
    /// More than the limit were counted, at most 10^18.
    #[error("too large: {1}")]
    TooLarge(Which, u64),
    /// Memory ran out while the game was built.
    #[error("out of memory")]
    NoMemory,
}

impl From<AllocError> for SizeFault {
    ghost use Rattle.std.specs.Prelude.{◌≡◌};
    ghost use Rattle.asp_defs.specs.declared.faults.SizeFault.TheVariants.{NoMemory};

    ghost from_gives = { λ _ fault. fault ≡ NoMemory };

    fn from(_: AllocError) -> SizeFault {
        SizeFault::NoMemory
    }
}

/// Which budget a search has spent.
#[derive(Debug, Clone, Copy, PartialEq, Eq)]
pub enum Kind {
    /// Placements of the search for candidates.
    Search,
    /// Placements of the minimality check.
    Minimal,
    /// Cells of the store.
    Store,
}

/// An answer that stays open, since a budget was spent at a level.
#[derive(Debug, Clone, Copy, PartialEq, Eq)]
pub struct Unknown {
    /// What was spent.
    pub kind: Kind,
    /// The level, from 1.
    pub level: u32,
    /// The placements or cells that were allowed.
    pub budget: u64,
}

/// Why a search gives up.
#[derive(Debug, Clone, Copy, Error)]
pub enum Give {
    /// A budget was spent.
    #[error("a budget was spent")]
    Spent(Unknown),
    /// Memory ran out.
    #[error("out of memory")]
    NoMemory,
}

impl From<AllocError> for Give {
    ghost use Rattle.std.specs.Prelude.{◌≡◌};
    ghost use Rattle.asp_defs.specs.declared.faults.Give.TheVariants.{NoMemory};

    ghost from_gives = { λ _ give. give ≡ NoMemory };

    fn from(_: AllocError) -> Give {
        Give::NoMemory
    }
}
