// What a space answers to a command, and how it is printed.
ghost use Rattle.std.specs.Prelude.{◌≡◌, Some};
ghost use Rattle.jandifety.specs.Answers.{Answers, line};

use crate::command::Command;
use item_sets::ItemSet;
use refusals::Refusal;
use spaces::Space;
use std::fmt;

#[derive(Clone, Copy)]
pub enum Answer {
    Items(ItemSet),
    State(ItemSet),
    NoState(ItemSet),
    // a set, and the largest state inside it
    Largest(ItemSet, ItemSet),
    // a state, its inner fringe and its outer fringe
    Fringes(ItemSet, ItemSet, ItemSet),
    SameState(ItemSet, ItemSet),
    DifferentStates(ItemSet, ItemSet),
}

impl Command {
    pub fn ask<S: Space>(self, space: &S) -> Result<Answer, Refusal>
        ensures { Answers (S.Space.ground_set space.now) (S.Space.state space.now) self result }
    {
        let answer = match self {
            Command::Items => Answer::Items(space.items()),
            Command::Tell(set) => {
                if space.is_state(set) {
                    Answer::State(set)
                } else {
                    Answer::NoState(set)
                }
            }
            Command::Largest(set) => Answer::Largest(set, space.largest_inside(set)),
            Command::Fringes(set) => {
                let inner = space.inner_fringe(set)?;
                let outer = space.outer_fringe(set)?;
                Answer::Fringes(set, inner, outer)
            }
            Command::Compare(a, b) => {
                if space.same_by_fringes(a, b)? {
                    Answer::SameState(a, b)
                } else {
                    Answer::DifferentStates(a, b)
                }
            }
        };
        Ok(answer)
    }
}

impl fmt::Display for Answer {
    ghost output = { λ a. Some (line a) };

    fn fmt<W: fmt::Write>(&self, f: &mut fmt::Formatter<W>) -> fmt::Result {
        match self {
            Answer::Items(set) => write!(f, "items: {set}"),
            Answer::State(set) => write!(f, "{set}: state"),
            Answer::NoState(set) => write!(f, "{set}: no state"),
            Answer::Largest(set, largest) => write!(f, "largest inside {set}: {largest}"),
            Answer::Fringes(set, inner, outer) => {
                write!(f, "fringes of {set}: inner {inner}, outer {outer}")
            }
            Answer::SameState(a, b) => write!(f, "{a} and {b}: same state"),
            Answer::DifferentStates(a, b) => write!(f, "{a} and {b}: different states"),
        }
    }
}
