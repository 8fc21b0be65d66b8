// What is refused: every refusal of the product, with its number, its layer and its place.
#![tactic(auto)]

ghost use Rattle.std.specs.Prelude.{◌≡◌, Some};
ghost use Rattle.refusals.specs.Report.{report, word, line};

use std::fmt;

// Whose mistake it is: a record's, a table's that a record spells, or a question's about states.
#[derive(Clone, Copy, PartialEq, Eq, Debug)]
pub enum Layer {
    Record,
    Table,
    Listing,
}

impl Layer {
    // Its word, for callers who want the text and not a line; `Display` writes it.
    pub fn name(self) -> &'static str
        ensures { result.now ≡ word self }
    {
        match self {
            Layer::Record => "record",
            Layer::Table => "table",
            Layer::Listing => "listing",
        }
    }
}

// A layer is printed as its word.
impl fmt::Display for Layer {
    ghost output = { λ l. Some (word l) };

    fn fmt<W: fmt::Write>(&self, f: &mut fmt::Formatter<W>) -> fmt::Result {
        f.write_str(self.name())
    }
}

// Each case holds its place: the offset of the wrong field's or row's first byte, unless its comment says otherwise.
#[derive(Clone, Copy, PartialEq, Eq, Debug)]
pub enum Refusal {
    // The record is too short for a trailer; the place is its length.
    ShortRecord(u64),
    // The kind byte is not that of the loader.
    WrongKind(u64),
    // The number of items is outside 1 to 30.
    WrongItemCount(u64),
    // The number of rows is 0 or more than the kind allows.
    WrongRowCount(u64),
    // The distance back to the first row does not fit the rows or the record.
    WrongDistance(u64),
    // A row is wrong; this is the first such.
    WrongRow(u64),
    // An item lies in no set that can be built; the place is the least such item.
    UnbuildableItem(u64),
    // A set that should be a state is none; the place is its set number.
    NoState(u64),
    // The start of a route is no part of its goal, or the goal has over ten items more; the place is the goal's set number.
    NoRoute(u64),
    // A tray has no places, or more than it may have.
    WrongTraySize,
    // The node to continue after is not a wanted node; the place is its number.
    NotWanted(u64),
}

impl Refusal {
    pub fn number(self) -> u8
        ensures { result ≡ (report self).number }
    {
        match self {
            Refusal::ShortRecord(_) => 1,
            Refusal::WrongKind(_) => 2,
            Refusal::WrongItemCount(_) => 3,
            Refusal::WrongRowCount(_) => 4,
            Refusal::WrongDistance(_) => 5,
            Refusal::WrongRow(_) => 6,
            Refusal::UnbuildableItem(_) => 8,
            Refusal::NoState(_) => 16,
            Refusal::NoRoute(_) => 18,
            Refusal::WrongTraySize => 20,
            Refusal::NotWanted(_) => 21,
        }
    }

    pub fn layer(self) -> Layer
        ensures { result ≡ (report self).layer }
    {
        match self {
            Refusal::ShortRecord(_)
            | Refusal::WrongKind(_)
            | Refusal::WrongItemCount(_)
            | Refusal::WrongRowCount(_)
            | Refusal::WrongDistance(_)
            | Refusal::WrongRow(_) => Layer::Record,
            Refusal::UnbuildableItem(_) => Layer::Table,
            Refusal::NoState(_)
            | Refusal::NoRoute(_)
            | Refusal::WrongTraySize
            | Refusal::NotWanted(_) => Layer::Listing,
        }
    }

    pub fn place(self) -> u64
        ensures { result ≡ (report self).place }
    {
        match self {
            Refusal::ShortRecord(place)
            | Refusal::WrongKind(place)
            | Refusal::WrongItemCount(place)
            | Refusal::WrongRowCount(place)
            | Refusal::WrongDistance(place)
            | Refusal::WrongRow(place)
            | Refusal::UnbuildableItem(place)
            | Refusal::NoState(place)
            | Refusal::NoRoute(place)
            | Refusal::NotWanted(place) => place,
            Refusal::WrongTraySize => 0,
        }
    }
}

impl fmt::Display for Refusal {
    ghost output = { λ e. Some (line (report e)) };

    fn fmt<W: fmt::Write>(&self, f: &mut fmt::Formatter<W>) -> fmt::Result {
        let number = self.number();
        let layer = self.layer();
        let place = self.place();
        write!(f, "refused: {number} {layer} {place}")
    }
}
