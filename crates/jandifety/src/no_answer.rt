// Why a line gets no answer.
ghost use Rattle.std.specs.Prelude.{◌≡◌, Some, None};
ghost use Rattle.refusals.specs.Report.{report, line};
ghost use Rattle.jandifety.specs.declared.no_answer.NoAnswer.TheVariants.{Misread, Refused};

use crate::command::Expected;
use refusals::Refusal;
use std::fmt;
use std::str::Utf8Error;

#[derive(Clone, Copy)]
pub enum NoAnswer {
    // It is no command.
    Misread(Expected),
    Refused(Refusal),
}

impl From<Expected> for NoAnswer {
    fn from(expected: Expected) -> NoAnswer {
        NoAnswer::Misread(expected)
    }
}

// A line that is no text is no command.
impl From<Utf8Error> for NoAnswer {
    fn from(_: Utf8Error) -> NoAnswer {
        NoAnswer::Misread(Expected::Command)
    }
}

impl From<Refusal> for NoAnswer {
    ghost from_gives = { λ refusal reason. reason ≡ Refused refusal };

    fn from(refused: Refusal) -> NoAnswer {
        NoAnswer::Refused(refused)
    }
}

// A refusal is printed as its line.
impl fmt::Display for NoAnswer {
    ghost output = { λ reason. elim reason [ Misread _ ↦ None | Refused refusal ↦ Some (line (report refusal)) ] };

    fn fmt<W: fmt::Write>(&self, f: &mut fmt::Formatter<W>) -> fmt::Result {
        match self {
            NoAnswer::Misread(expected) => write!(f, "{expected}"),
            NoAnswer::Refused(refusal) => write!(f, "{refusal}"),
        }
    }
}
