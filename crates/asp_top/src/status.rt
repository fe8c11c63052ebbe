//! How a run ends.
ghost use Rattle.std.specs.Prelude.{◌≡◌};
ghost use Rattle.asp_top.specs.Statuses.{code_of};

use asp_team::Single;

/// What a run came to.
#[derive(Debug, Clone, Copy, PartialEq, Eq)]
pub enum Status {
    /// The program is coherent.
    Coherent,
    /// The program is incoherent.
    Incoherent,
    /// A budget was spent before there was an answer.
    Unknown,
    /// The command is done and had no such question to answer.
    Done,
    /// A word can't be read.
    Words,
    /// The text is refused.
    Text,
    /// The source failed.
    Read,
    /// The sink failed.
    Write,
    /// Memory ran out.
    Memory,
}

impl Status {
    /// The exit status of the process.
    pub fn code(&self) -> u8
        ensures { result ≡ code_of self.now }
    {
        match self {
            Status::Coherent => 10,
            Status::Incoherent => 20,
            Status::Unknown => 30,
            Status::Done => 0,
            Status::Words => 2,
            Status::Text => 3,
            Status::Read => 4,
            Status::Write => 5,
            Status::Memory => 6,
        }
    }
}

/// What a run solved with.
#[derive(Drop)]
pub enum Used {
    /// A history with one worker for each level.
    Single(Single),
}

/// The end of a run.
#[derive(Drop)]
pub struct Ended {
    /// What the run came to.
    pub status: Status,
    /// What it solved with, where there is a verdict or the question stays open.
    pub used: Option<Used>,
}
