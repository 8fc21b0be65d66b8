// A clause table as a learning space.
ghost use Rattle.item_sets.specs.Sets.{first};
ghost use Rattle.clauses.specs.Tables.{Builds};
ghost use Rattle.clauses.specs.Reaching.{table_laws};

use crate::table::ClauseTable;
use item_sets::ItemSet;
use spaces::Space;

impl Space for ClauseTable {
    ghost ground_set = { λ t. first t.list.items };

    ghost state = { λ t. Builds t.list };

    ghost laws = { λ t. table_laws t };

    fn items(&self) -> ItemSet {
        ItemSet::all_below(self.list.items)
    }

    // A set is a state exactly when nothing of it is left over by building inside it.
    fn is_state(&self, set: ItemSet) -> bool {
        self.list.largest_inside(set) == set
    }

    fn largest_inside(&self, set: ItemSet) -> ItemSet {
        self.list.largest_inside(set)
    }
}
