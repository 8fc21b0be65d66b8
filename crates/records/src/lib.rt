// Table records: what the trailer of a record says, and the checks that every kind of table shares.
#![tactic(auto)]

ghost use Rattle.std.specs.Prelude.{◌≡◌, Some, MatchOption, MatchResult};
ghost use Rattle.refusals.specs.Report.{report};
ghost use Rattle.records.specs.Format.{code, word, OfKind, Says, Refused};
ghost use Rattle.records.specs.Format.{most_rows as most, row_length as row_bytes};

mod table;

use refusals::Refusal;
use std::fmt;
pub use table::Table;

// The two sorts of table.
#[derive(Clone, Copy, PartialEq, Eq, Debug)]
pub enum Kind {
    Clauses,
    Orders,
}

impl Kind {
    // The kind of table that a record is of, if it says one. No `TryFrom`: a record is asked, and not turned into its kind.
    pub fn of(bytes: &[u8]) -> Option<Kind>
        ensures { MatchOption result ((k : Kind) → OfKind bytes.now k → ⊥) (OfKind bytes.now) }
    {
        match bytes {
            [.., b'C', _, _, _, _, _, _, _] => Some(Kind::Clauses),
            [.., b'O', _, _, _, _, _, _, _] => Some(Kind::Orders),
            _ => None,
        }
    }

    // The byte by which a record says its kind. No `From`, since a kind has other numbers too.
    pub fn code(self) -> u8
        ensures { result ≡ code self }
    {
        match self {
            Kind::Clauses => b'C',
            Kind::Orders => b'O',
        }
    }

    pub fn max_rows(self) -> u16
        ensures { result ≡ most self }
    {
        match self {
            Kind::Clauses => 120,
            Kind::Orders => 16,
        }
    }

    // How many bytes a row has, in a table of so many items.
    pub fn row_len(self, items: u8) -> u8
        ensures { result ≡ row_bytes self items }
    {
        match self {
            Kind::Clauses => 5,
            Kind::Orders => items,
        }
    }
}

// A kind is printed as the name of its tables.
impl fmt::Display for Kind {
    ghost output = { λ k. Some (word k) };

    fn fmt<W: fmt::Write>(&self, f: &mut fmt::Formatter<W>) -> fmt::Result {
        f.write_str(match self {
            Kind::Clauses => "clauses",
            Kind::Orders => "orders",
        })
    }
}

// What a right trailer says of the rows before it.
#[derive(Clone, Copy, PartialEq, Eq, Debug)]
pub struct Trailer {
    pub items: u8,
    pub rows: u16,
}

impl Trailer {
    pub fn read(bytes: &[u8], kind: Kind) -> Result<Trailer, Refusal>
        ensures { MatchResult result (Says kind bytes.now) (λ e. Refused kind bytes.now (report e)) }
    {
        let [.., code, items, r0, r1, d0, d1, d2, d3] = bytes else {
            return Err(Refusal::ShortRecord(bytes.len() as u64));
        };
        let start = bytes.len() as u64 - 8;
        let rows = u16::from_le_bytes([*r0, *r1]);
        let distance = u32::from_le_bytes([*d0, *d1, *d2, *d3]);
        if *code != kind.code() {
            return Err(Refusal::WrongKind(start));
        }
        if *items < 1 || *items > 30 {
            return Err(Refusal::WrongItemCount(start + 1));
        }
        if rows < 1 || rows > kind.max_rows() {
            return Err(Refusal::WrongRowCount(start + 2));
        }
        if distance != u32::from(rows) * u32::from(kind.row_len(*items))
            || u64::from(distance) != start
        {
            return Err(Refusal::WrongDistance(start + 4));
        }
        Ok(Trailer {
            items: *items,
            rows,
        })
    }
}
