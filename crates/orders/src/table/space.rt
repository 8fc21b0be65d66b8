// An order table as a learning space: its states are the unions of beginnings, one of each row.
ghost use Rattle.std.specs.Prelude.{◌≡◌, ◌↔◌};
ghost use Rattle.item_sets.specs.Sets.{first};
ghost use Rattle.spaces.specs.Largest.{Largest};
ghost use Rattle.orders.specs.Orders.{UnionOfBeginnings};
ghost use Rattle.orders.specs.Tables.{orders};
ghost use Rattle.orders.specs.Checks.{some_row, rows_have_all};
ghost use Rattle.orders.specs.Unions.{orders_laws};

use super::OrderTable;
use item_sets::ItemSet;
use spaces::Space;

impl OrderTable {
    // The union of the longest beginnings inside a set, which is the largest state inside it. It is the set itself exactly
    // where the set is a state.
    fn longest_beginnings(&self, set: ItemSet) -> ItemSet
        ensures largest { Largest (UnionOfBeginnings (orders self.now)) set.number result.number }
        ensures exact { (result.number ≡ set.number) ↔ UnionOfBeginnings (orders self.now) set.number }
    {
        let mut largest = ItemSet::EMPTY;
        for row in &self.rows[..self.len] {
            largest = largest.union(row.longest_beginning(self.items, set));
        }
        largest
    }
}

impl Space for OrderTable {
    ghost ground_set = { λ t. first t.items };

    ghost state = { λ t K. UnionOfBeginnings (orders t) K };

    ghost laws = { λ t. orders_laws t.items (orders t) t.item_range.0 t.item_range.1 (some_row t) (rows_have_all t) };

    fn items(&self) -> ItemSet {
        ItemSet::all_below(self.items)
    }

    fn is_state(&self, set: ItemSet) -> bool {
        self.longest_beginnings(set) == set
    }

    fn largest_inside(&self, set: ItemSet) -> ItemSet {
        self.longest_beginnings(set)
    }
}
