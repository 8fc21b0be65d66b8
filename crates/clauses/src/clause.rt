// One clause of a table.
ghost use Rattle.std.specs.Prelude.{◌≡◌, ◌↔◌, IsTrue};
ghost use Rattle.item_sets.specs.Sets.{◌∈◌, ◌⊆◌};

use item_sets::{Item, ItemSet};

// The bytes of a row.
pub(crate) const ROW: usize = 5;

// An alternative of an item: the item can be added to a set in which the alternative lies wholly.
#[derive(Clone, Copy)]
pub struct Clause {
    pub item: Item,
    pub alternative: ItemSet,
}

impl Clause {
    // Item 0 needs nothing. It also fills the places of an array that do not count.
    pub(crate) const FREE: Clause = Clause {
        item: 0,
        alternative: ItemSet::EMPTY,
    };

    // Whether the clause allows its item to be added to `built`, with no item outside `within`.
    pub(crate) fn adds(self, built: ItemSet, within: ItemSet) -> bool
        ensures { IsTrue result ↔ ((self.item ∈ within.number) × (self.alternative.number ⊆ built.number)) }
    {
        within.contains(self.item) && self.alternative.is_inside(built)
    }
}

// A row of a record spells a clause: the item, then the alternative as a set number.
impl From<[u8; ROW]> for Clause {
    ghost use Rattle.clauses.specs.Loading.{row};

    ghost from_gives = { λ bytes c. c ≡ row bytes 0 };

    fn from([item, a0, a1, a2, a3]: [u8; ROW]) -> Clause {
        Clause {
            item,
            alternative: ItemSet {
                number: u32::from_le_bytes([a0, a1, a2, a3]),
            },
        }
    }
}
