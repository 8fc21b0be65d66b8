// Sets of items as set numbers: the sum of 2^i over the items i of the set.
#![tactic(auto)]

ghost use Rattle.std.specs.Prelude.{◌≡◌, ℕ, ◌<◌, ◌⊎◌, ◌↔◌, IsTrue, Some, true, false, decimal};
ghost use Rattle.item_sets.specs.Sets.{◌∈◌, ◌∉◌, ◌⊆◌, ◌∪◌, ◌∖◌, ◌⊕◌, ◌⊖◌, first, size, Members};
ghost use Rattle.item_sets.specs.Iteration.{Steps};
ghost use Rattle.std.specs.Iterator.{at_most};
ghost use Rattle.std.specs.Result.{result_map_both};

use std::fmt;
use std::num::ParseIntError;
use std::str::FromStr;

// An item is a skill, by its number. Tables have items 0 to 29.
pub type Item = u8;

// A set of items, by its set number. Every number below 2^32 is a set, also of items that no table has.
#[derive(Clone, Copy, PartialEq, Eq, Debug)]
pub struct ItemSet {
    pub number: u32,
}

impl ItemSet {
    pub const EMPTY: ItemSet = ItemSet { number: 0 };

    // The items below `n`, as far as a set number can hold them.
    pub fn all_below(n: Item) -> ItemSet
        ensures members { Members result.number (λ i. (i < n) × (i < 32)) }
        ensures number { n < 32 → result.number ≡ first n }
    {
        if n < 32 {
            ItemSet {
                number: (1 << n) - 1,
            }
        } else {
            ItemSet { number: u32::MAX }
        }
    }

    pub fn contains(self, item: Item) -> bool
        ensures { IsTrue result ↔ (item ∈ self.number) }
    {
        item < 32 && (self.number >> item) & 1 == 1
    }

    // An item of 32 or more is in no set, so adding it changes nothing.
    pub fn with(self, item: Item) -> ItemSet
        ensures members { Members result.number (λ i. (i ∈ self.number) ⊎ ((i ≡ item) × (i < 32))) }
        ensures number { item < 32 → result.number ≡ self.number ⊕ item }
    {
        if item < 32 {
            ItemSet {
                number: self.number | 1 << item,
            }
        } else {
            self
        }
    }

    pub fn without(self, item: Item) -> ItemSet
        ensures members { Members result.number (λ i. (i ∈ self.number) × (i ≡ item → ⊥)) }
        ensures number { result.number ≡ self.number ⊖ item }
    {
        self.difference(ItemSet::EMPTY.with(item))
    }

    pub fn union(self, other: ItemSet) -> ItemSet
        ensures members { Members result.number (λ i. (i ∈ self.number) ⊎ (i ∈ other.number)) }
        ensures number { result.number ≡ self.number ∪ other.number }
    {
        ItemSet {
            number: self.number | other.number,
        }
    }

    pub fn intersection(self, other: ItemSet) -> ItemSet
        ensures { Members result.number (λ i. (i ∈ self.number) × (i ∈ other.number)) }
    {
        ItemSet {
            number: self.number & other.number,
        }
    }

    pub fn difference(self, other: ItemSet) -> ItemSet
        ensures members { Members result.number (λ i. (i ∈ self.number) × (i ∉ other.number)) }
        ensures number { result.number ≡ self.number ∖ other.number }
    {
        ItemSet {
            number: self.number & !other.number,
        }
    }

    // Whether every item of this set is in `other`.
    pub fn is_inside(self, other: ItemSet) -> bool
        ensures { IsTrue result ↔ (self.number ⊆ other.number) }
    {
        self.number & !other.number == 0
    }

    // The items of the set that `keep` says yes to.
    pub fn filter<F: Fn(Item) -> bool>(self, keep: F) -> ItemSet
        requires { (i : ℕ) → i ∈ self.number → F.pre keep i }
        ensures inside { result.number ⊆ self.number }
        ensures kept { (i : ℕ) → i ∈ result.number → F.post keep i true }
        ensures others { (i : ℕ) → i ∈ self.number → i ∉ result.number → F.post keep i false }
    {
        let mut kept = ItemSet::EMPTY;
        for item in self.items() {
            if keep(item) {
                kept = kept.with(item);
            }
        }
        kept
    }

    // How many items the set has.
    pub fn size(self) -> u32
        ensures { result ≡ size self.number }
    {
        self.number.count_ones()
    }

    // The items in rising order.
    pub fn items(self) -> Items
        ensures { result.rest.number ≡ self.number }
    {
        Items { rest: self }
    }
}

// A set is printed as its number.
impl fmt::Display for ItemSet {
    ghost output = { λ s. Some (decimal s.number) };

    fn fmt<W: fmt::Write>(&self, f: &mut fmt::Formatter<W>) -> fmt::Result {
        write!(f, "{}", self.number)
    }
}

// And read from its number, written as a number is.
impl FromStr for ItemSet {
    type Err = ParseIntError;

    ghost from_str_gives = { λ text r. ⟦<u32 as FromStr>⟧.from_str_gives text (result_map_both (λ s. s.number) (λ e. e) r) };

    fn from_str(text: &str) -> Result<ItemSet, ParseIntError> {
        let number = text.parse()?;
        Ok(ItemSet { number })
    }
}

// The items of a set in rising order: each call gives the least of those that are left.
#[derive(Drop)]
pub struct Items {
    rest: ItemSet,
}

impl Iterator for Items {
    type Item = Item;

    ghost next_gives = { λ s r t. Steps s.rest.number r t.rest.number };

    ghost remaining = { λ s. at_most s.rest.number };

    fn next(&mut self) -> Option<Item> {
        if self.rest.number == 0 {
            return None;
        }
        let item = self.rest.number.trailing_zeros() as Item;
        self.rest = self.rest.without(item);
        Some(item)
    }
}
