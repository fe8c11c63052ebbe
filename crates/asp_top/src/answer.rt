//! Answers: what a run has to say of a text, with the status that it ends with and the way it is written.
ghost use Rattle.std.specs.Prelude.{◌≡◌, OnOk, OnErr};
ghost use Rattle.std.specs.Io.KnownBytes.{Appends};
ghost use Rattle.asp_defs.specs.Lines.{word_line};
ghost use Rattle.asp_io.specs.Causes.{HasCause};
ghost use Rattle.asp_io.specs.Moved.{AppendsPrefix};
ghost use Rattle.asp_top.specs.Outputs.{EndsSo};
ghost use Rattle.asp_top.specs.Replies.{text_of, status_of, used_of, ended_of, ended_by};

use crate::status::{Ended, Status, Used};
use asp_check::Checked;
use asp_defs::Unknown;
use asp_io::{Failed, Sink};
use asp_print::{Line, print_line, print_program};
use asp_team::Single;

/// What a command has to say of a text.
#[derive(Drop)]
pub enum Answer {
    /// The text is refused, as the line says.
    Refused(Line),
    /// The program that passed the checks.
    Accepted(Checked),
    /// Whether the program is coherent, and what showed it.
    Verdict(bool, Single),
    /// Why it stays open whether the program is coherent, and what showed it.
    Unknown(Unknown, Single),
}

impl Answer {
    /// How the run ends.
    pub fn status(&self) -> Status
        ensures { result ≡ status_of self.now }
    {
        match self {
            Answer::Refused(_) => Status::Text,
            Answer::Accepted(_) => Status::Done,
            Answer::Verdict(true, _) => Status::Coherent,
            Answer::Verdict(false, _) => Status::Incoherent,
            Answer::Unknown(_, _) => Status::Unknown,
        }
    }

    /// What the run solved with.
    fn used(self) -> Option<Used>
        ensures { result ≡ used_of self }
    {
        match self {
            Answer::Refused(_) => None,
            Answer::Accepted(_) => None,
            Answer::Verdict(_, team) => Some(Used::Single(team)),
            Answer::Unknown(_, team) => Some(Used::Single(team)),
        }
    }

    /// Writes what there is to say, or as much of it as the sink takes before it fails.
    fn print<K: Sink>(&self, sink: &mut K) -> Result<(), Failed>
        ensures all { OnOk result (Appends (K.taken sink.old) (K.taken sink.new) (text_of self.now)) }
        ensures prefix { OnErr result (AppendsPrefix (K.taken sink.old) (K.taken sink.new) (text_of self.now)) }
        ensures cause { HasCause (K.faults sink.old) (K.faults sink.new) result }
    {
        match self {
            Answer::Refused(line) => print_line(sink, line),
            Answer::Accepted(checked) => print_program(sink, checked.program()),
            Answer::Verdict(true, _) => print_line(sink, &Line::Coherent),
            Answer::Verdict(false, _) => print_line(sink, &Line::Incoherent),
            Answer::Unknown(unknown, _) => print_line(sink, &Line::Unknown(*unknown)),
        }
    }
}

/// Writes the answer, and tells how the run ends: as the answer says, or with the sink's fault.
pub fn say<K: Sink>(sink: &mut K, answer: Answer) -> Ended
    ensures { EndsSo (K.taken sink.old) (K.taken sink.new) (K.faults sink.old) (K.faults sink.new)
        result (ended_of answer) (text_of answer) }
{
    match answer.print(sink) {
        Ok(()) => Ended {
            status: answer.status(),
            used: answer.used(),
        },
        Err(_) => Ended {
            status: Status::Write,
            used: None,
        },
    }
}

/// Writes that the word at that place, from 1, can't be read, and tells how the run ends.
pub fn refuse_word<K: Sink>(sink: &mut K, place: u32) -> Ended
    ensures { EndsSo (K.taken sink.old) (K.taken sink.new) (K.faults sink.old) (K.faults sink.new)
        result (ended_by Status.Words) (word_line place) }
{
    match print_line(sink, &Line::Word(place)) {
        Ok(()) => Ended {
            status: Status::Words,
            used: None,
        },
        Err(_) => Ended {
            status: Status::Write,
            used: None,
        },
    }
}
