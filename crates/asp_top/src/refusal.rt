//! Why a text is refused, made of the faults of the reader, the checks and the limits.
use asp_check::CheckFault;
use asp_defs::{SizeFault, TextFault};
use asp_print::Line;

/// Why a text is not accepted.
#[derive(Debug, Drop)]
pub enum Refusal {
    /// The text is refused, as the line says.
    Text(Line),
    /// Memory ran out.
    NoMemory,
}

impl From<TextFault> for Refusal {
    ghost use Rattle.std.specs.Prelude.{◌≡◌};
    ghost use Rattle.asp_top.specs.Replies.{refusal_of_text};

    ghost from_gives = { λ fault refusal. refusal ≡ refusal_of_text fault };

    fn from(fault: TextFault) -> Refusal {
        match fault {
            TextFault::BadByte(place) => Refusal::Text(Line::BadByte(place)),
            TextFault::BadNumber(place) => Refusal::Text(Line::BadNumber(place)),
            TextFault::OpenComment(place) => Refusal::Text(Line::OpenComment(place)),
            TextFault::NoLevel => Refusal::Text(Line::NoLevel),
            TextFault::Unfinished => Refusal::Text(Line::Unfinished),
            TextFault::UnknownDirective(place) => Refusal::Text(Line::UnknownDirective(place)),
            TextFault::BeforeLevel(place) => Refusal::Text(Line::BeforeLevel(place)),
            TextFault::AfterConstraint(place) => Refusal::Text(Line::AfterConstraint(place)),
            TextFault::Unexpected(place) => Refusal::Text(Line::Unexpected(place)),
            TextFault::NoMemory => Refusal::NoMemory,
        }
    }
}

impl From<CheckFault> for Refusal {
    ghost use Rattle.std.specs.Prelude.{◌≡◌};
    ghost use Rattle.asp_top.specs.Replies.{refusal_of_check};

    ghost from_gives = { λ fault refusal. refusal ≡ refusal_of_check fault };

    fn from(fault: CheckFault) -> Refusal {
        match fault {
            CheckFault::Unsafe(rule, variable) => Refusal::Text(Line::Unsafe(rule, variable)),
            CheckFault::NotConstraint(rule) => Refusal::Text(Line::NotConstraint(rule)),
            CheckFault::TooLarge(which, count) => Refusal::Text(Line::TooLarge(which, count)),
            CheckFault::NoMemory => Refusal::NoMemory,
        }
    }
}

impl From<SizeFault> for Refusal {
    ghost use Rattle.std.specs.Prelude.{◌≡◌};
    ghost use Rattle.asp_top.specs.Replies.{refusal_of_size};

    ghost from_gives = { λ fault refusal. refusal ≡ refusal_of_size fault };

    fn from(fault: SizeFault) -> Refusal {
        match fault {
            SizeFault::TooLarge(which, count) => Refusal::Text(Line::TooLarge(which, count)),
            SizeFault::NoMemory => Refusal::NoMemory,
        }
    }
}
