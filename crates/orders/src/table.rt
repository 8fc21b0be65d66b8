// A table of orders: a few rows, each of all the items of the table.
ghost use Rattle.std.specs.Prelude.{◌≡◌, ◌≤◌, true, [], ◌∷◌, MatchResult};
ghost use Rattle.orders.specs.Rows.{rows_of, are_orders};

use crate::row::OrderRow;
use item_sets::Item;
use records::{Kind, Table, Trailer};
use refusals::Refusal;

mod space;

// The most rows that a table may have.
const MOST_ROWS: usize = 16;

// The first `len` rows are orders of the items below `items`; what lies past them means nothing. A table stands in fixed memory,
// so its rows lie in an array.
#[derive(Clone, Copy)]
pub struct OrderTable {
    items: Item,
    len: usize,
    rows: [OrderRow; MOST_ROWS],
    ghost item_range: { (1 ≤ items) × (items ≤ 30) },
    ghost row_range: { (1 ≤ len) × (len ≤ 16) },
    ghost right: { are_orders items len (rows_of items len rows) ≡ true },
}

impl OrderTable {
    ghost use Rattle.refusals.specs.Report.{report};
    ghost use Rattle.records.specs.Format.{Says};
    ghost use Rattle.records.specs.declared.Kind.TheVariants.{Orders};
    ghost use Rattle.orders.specs.Loading.{Holds, WrongRow};

    // The table of the rows before a trailer that is right; the first wrong row is refused.
    fn of_rows(bytes: &[u8], trailer: Trailer) -> Result<OrderTable, Refusal>
        requires { Says Orders bytes.now trailer }
        ensures { MatchResult result (Holds bytes.now) (λ e. WrongRow bytes.now (report e)) }
    {
        let n = usize::from(trailer.items);
        let len = usize::from(trailer.rows);
        let mut rows = [OrderRow::ZEROS; MOST_ROWS];
        for (r, items) in bytes[..len * n].chunks_exact(n).enumerate() {
            let Some(row) = OrderRow::from_items(items) else {
                return Err(Refusal::WrongRow((r * n) as u64));
            };
            rows[r] = row;
        }
        Ok(OrderTable {
            items: trailer.items,
            len,
            rows,
        })
    }
}

impl Table for OrderTable {
    ghost use Rattle.records.specs.Format.{of_length, of_kind, Right};
    ghost use Rattle.records.specs.declared.Kind.TheVariants.{Orders};
    ghost use Rattle.orders.specs.Tables.{orders};
    ghost use Rattle.orders.specs.Loading.{Holds, Refused};

    ghost KIND = { Orders };

    const KIND: Kind = Kind::Orders;

    ghost is_fresh = { λ t. (t.items ≡ 1) × (orders t ≡ (0 ∷ []) ∷ []) };

    ghost spelled = { λ b t. Right Orders b × Holds b t };

    ghost refused = { λ b told. Refused b told };

    ghost len = { λ t. t.len };

    ghost of_kind = { λ b t s. (s.0 of_length, s.0 of_kind) };

    fn fresh() -> OrderTable {
        OrderTable {
            items: 1,
            len: 1,
            rows: [OrderRow::ZEROS; MOST_ROWS],
        }
    }

    fn read(bytes: &[u8]) -> Result<OrderTable, Refusal> {
        OrderTable::of_rows(bytes, Trailer::read(bytes, Self::KIND)?)
    }

    fn row_count(&self) -> usize {
        self.len
    }
}
