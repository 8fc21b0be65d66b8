// One row of an order table: the items in the sequence in which they are taught.
ghost use Rattle.std.specs.Prelude.{◌≤◌, ◌↔◌, length, IsTrue};
ghost use Rattle.orders.specs.Orders.{Order, LongestBeginning};
ghost use Rattle.orders.specs.Rows.{cut, RowOf};

use item_sets::{Item, ItemSet};

// The most items that a table may have.
pub(crate) const MOST_ITEMS: usize = 30;

// A row has room for 30 items, in fixed memory. A table with fewer uses the first ones, and what lies past them means nothing.
#[derive(Clone, Copy)]
pub struct OrderRow {
    entries: [Item; MOST_ITEMS],
}

impl OrderRow {
    pub(crate) const ZEROS: OrderRow = OrderRow {
        entries: [0; MOST_ITEMS],
    };

    // The row of these items, unless one is not below their number or stands twice. No `TryFrom`, which could not require that
    // there is room for them.
    pub(crate) fn from_items(items: &[Item]) -> Option<OrderRow>
        requires { length items.now ≤ 30 }
        ensures { RowOf items.now result }
    {
        if !is_order(items) {
            return None;
        }
        let mut entries = [0; MOST_ITEMS];
        entries[..items.len()].copy_from_slice(items);
        Some(OrderRow { entries })
    }

    // The longest beginning, of the row's first `n` items, that lies inside the set.
    pub(crate) fn longest_beginning(&self, n: Item, set: ItemSet) -> ItemSet
        requires { n ≤ 30 }
        ensures { LongestBeginning (cut n self.now) set.number result.number }
    {
        let mut beginning = ItemSet::EMPTY;
        for item in &self.entries[..usize::from(n)] {
            if !set.contains(*item) {
                break;
            }
            beginning = beginning.with(*item);
        }
        beginning
    }
}

// Whether each of these items is below their number, and none stands twice.
fn is_order(items: &[Item]) -> bool
    requires { length items.now ≤ 30 }
    ensures { IsTrue result ↔ Order (length items.now) items.now }
{
    let mut seen = ItemSet::EMPTY;
    for item in items {
        if usize::from(*item) >= items.len() || seen.contains(*item) {
            return false;
        }
        seen = seen.with(*item);
    }
    true
}
