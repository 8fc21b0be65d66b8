// What every sort of table shares.
ghost use Rattle.std.specs.Prelude.{◌≡◌, ℕ, List, MatchResult};
ghost use Rattle.refusals.specs.Report.{Report, report};
ghost use Rattle.records.specs.declared.Kind.{Kind};
ghost use Rattle.records.specs.Format.{OfKind};
ghost use Rattle.records.specs.Loading.{Loaded};

use crate::Kind;
use refusals::Refusal;

// A sort of table: what its records spell, and what is told of those that are refused.
pub trait Table: Sized + Drop {
    ghost KIND: { Kind };

    const KIND: Kind;

    // The table of one item that needs nothing.
    ghost is_fresh: { Self → Type 0 };

    // The record spells the table.
    ghost spelled: { List ℕ → Self → Type 0 };

    // The record is refused, and this is told.
    ghost refused: { List ℕ → Report → Type 0 };

    // How many rows the table has.
    ghost len: { Self → ℕ };

    fn fresh() -> Self
        ensures { is_fresh result };

    // The table that a record spells, or the refusal of the record. Each sort reads the trailer itself: a body here would need a
    // public call for the rows alone, which asks for a right trailer.
    fn read(bytes: &[u8]) -> Result<Self, Refusal>
        ensures { MatchResult result (spelled bytes.now) (λ e. refused bytes.now (report e)) };

    // Puts the table that a record spells in the place of this one, or refuses the record and leaves this one.
    fn load(&mut self, bytes: &[u8]) -> Result<(), Refusal>
        ensures { Loaded spelled refused bytes.now self.old result self.new }
    {
        *self = Self::read(bytes)?;
        Ok(())
    }

    fn row_count(&self) -> usize
        ensures { result ≡ len self.now };

    ghost of_kind: { (b : List ℕ) (t : Self) → spelled b t → OfKind b KIND };
}
