// What can be asked of a table, and what comes of it.
ghost use Rattle.exhaustive.specs.Telling.{Tells};

use refusals::{Layer, Refusal};
use std::fmt;

#[derive(Clone, Copy)]
pub enum Question {
    Items,
    IsState(u32),
    LargestInside(u32),
    InnerFringe(u32),
    OuterFringe(u32),
    SameByFringes(u32, u32),
}

#[derive(Clone, Copy, PartialEq, Eq)]
pub enum Answer {
    Loaded,
    Set(u32),
    Truth(bool),
}

// What is told of a refusal: its number, its layer and its place.
#[derive(Clone, Copy, PartialEq, Eq)]
pub struct Told {
    pub number: u8,
    pub layer: Layer,
    pub place: u64,
}

// What the library tells of it.
impl From<Refusal> for Told {
    ghost from_gives = { Tells };

    fn from(refusal: Refusal) -> Told {
        Told {
            number: refusal.number(),
            layer: refusal.layer(),
            place: refusal.place(),
        }
    }
}

// An answer or what is told of a refusal, to be printed.
#[derive(Clone, Copy)]
pub struct Reply(pub Result<Answer, Told>);

impl fmt::Display for Question {
    fn fmt<W: fmt::Write>(&self, f: &mut fmt::Formatter<W>) -> fmt::Result {
        match self {
            Question::Items => write!(f, "items"),
            Question::IsState(set) => write!(f, "is_state {set}"),
            Question::LargestInside(set) => write!(f, "largest_inside {set}"),
            Question::InnerFringe(set) => write!(f, "inner_fringe {set}"),
            Question::OuterFringe(set) => write!(f, "outer_fringe {set}"),
            Question::SameByFringes(a, b) => write!(f, "same_by_fringes {a} {b}"),
        }
    }
}

impl fmt::Display for Answer {
    fn fmt<W: fmt::Write>(&self, f: &mut fmt::Formatter<W>) -> fmt::Result {
        match self {
            Answer::Loaded => write!(f, "loaded"),
            Answer::Set(set) => write!(f, "{set}"),
            Answer::Truth(truth) => write!(f, "{truth}"),
        }
    }
}

impl fmt::Display for Told {
    fn fmt<W: fmt::Write>(&self, f: &mut fmt::Formatter<W>) -> fmt::Result {
        write!(f, "refused {} {} {}", self.number, self.layer, self.place)
    }
}

impl fmt::Display for Reply {
    fn fmt<W: fmt::Write>(&self, f: &mut fmt::Formatter<W>) -> fmt::Result {
        match self.0 {
            Ok(answer) => write!(f, "{answer}"),
            Err(told) => write!(f, "{told}"),
        }
    }
}
