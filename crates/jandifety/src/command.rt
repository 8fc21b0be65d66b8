// What can be asked of a table, and how it is spelled.
use item_sets::ItemSet;
use std::fmt;
use std::num::ParseIntError;
use std::str::FromStr;

#[derive(Clone, Copy)]
pub enum Command {
    // the set of the table's items
    Items,
    // whether a set is a state
    Tell(ItemSet),
    // the largest state inside a set
    Largest(ItemSet),
    // both fringes of a state
    Fringes(ItemSet),
    // whether two states are the same, by their fringes
    Compare(ItemSet, ItemSet),
}

// What was expected in the place of what stands there.
#[derive(Clone, Copy)]
pub enum Expected {
    Command,
    SetNumber,
}

impl fmt::Display for Expected {
    fn fmt<W: fmt::Write>(&self, f: &mut fmt::Formatter<W>) -> fmt::Result {
        match self {
            Expected::Command => write!(
                f,
                "error: expected 'items', 'tell SET', 'largest SET', 'fringes SET' or 'compare SET SET'"
            ),
            Expected::SetNumber => write!(f, "error: expected a set number from 0 to 4294967295"),
        }
    }
}

impl FromStr for Command {
    type Err = Expected;

    fn from_str(line: &str) -> Result<Command, Expected> {
        let mut words = line.split_whitespace();
        match (words.next(), words.next(), words.next(), words.next()) {
            (Some("items"), None, _, _) => Ok(Command::Items),
            (Some("tell"), Some(set), None, _) => Ok(Command::Tell(set.parse()?)),
            (Some("largest"), Some(set), None, _) => Ok(Command::Largest(set.parse()?)),
            (Some("fringes"), Some(set), None, _) => Ok(Command::Fringes(set.parse()?)),
            (Some("compare"), Some(a), Some(b), None) => Ok(Command::Compare(
                a.parse()?,
                b.parse()?,
            )),
            _ => Err(Expected::Command),
        }
    }
}

impl From<ParseIntError> for Expected {
    fn from(_: ParseIntError) -> Expected {
        Expected::SetNumber
    }
}
