// The interface of a learning space, and all that follows from its laws alone.
#![tactic(auto)]

ghost use Rattle.std.specs.Prelude.{◌≡◌, ℕ, ◌↔◌, IsTrue};
ghost use Rattle.refusals.specs.declared.Layer.TheVariants.{Listing};
ghost use Rattle.refusals.specs.Report.{report, says};
ghost use Rattle.spaces.specs.Laws.{LearningSpace};
ghost use Rattle.spaces.specs.Largest.{Largest, Inner, Outer, Fringe, Compared};

use item_sets::ItemSet;
use refusals::Refusal;

// A learning space: a set of items, and one fixed family of its subsets, the states, under the laws of `LearningSpace`.
// A kind of space tells its items, and of every set number whether it is a state. The other methods follow from these two;
// a kind may have faster bodies for them.
pub trait Space {
    ghost ground_set: { Self → ℕ };

    ghost state: { Self → ℕ → Type 0 };

    fn items(&self) -> ItemSet
        ensures { result.number ≡ ground_set self.now };

    fn is_state(&self, set: ItemSet) -> bool
        ensures { IsTrue result ↔ state self.now set.number };

    // The largest state inside a set: the union of all states inside it. A state is grown item by item, and after each
    // item those that did not fit before are tried again.
    fn largest_inside(&self, set: ItemSet) -> ItemSet
        ensures { Largest (state self.now) set.number result.number }
    {
        let within = self.items().intersection(set);
        let mut largest = ItemSet::EMPTY;
        let mut untried = within;
        while let Some(item) = untried.items().next() {
            let grown = largest.with(item);
            if self.is_state(grown) {
                largest = grown;
                untried = within.difference(grown);
            } else {
                untried = untried.without(item);
            }
        }
        largest
    }

    // The items of a state whose removal leaves a state.
    fn inner_fringe(&self, set: ItemSet) -> Result<ItemSet, Refusal>
        ensures { Fringe (state self.now) (Inner (state self.now) set.number) set.number result }
    {
        if !self.is_state(set) {
            return Err(no_state(set));
        }
        Ok(set.filter(|item| self.is_state(set.without(item))))
    }

    // The items outside a state that can be added to it.
    fn outer_fringe(&self, set: ItemSet) -> Result<ItemSet, Refusal>
        ensures { Fringe (state self.now) (Outer (ground_set self.now) (state self.now) set.number) set.number result }
    {
        if !self.is_state(set) {
            return Err(no_state(set));
        }
        let outside = self.items().difference(set);
        Ok(outside.filter(|item| self.is_state(set.with(item))))
    }

    // Whether two states are the same, by their fringes alone.
    fn same_by_fringes(&self, a: ItemSet, b: ItemSet) -> Result<bool, Refusal>
        ensures { Compared (ground_set self.now) (state self.now) a.number b.number result }
    {
        let inner_a = self.inner_fringe(a)?;
        let outer_a = self.outer_fringe(a)?;
        let inner_b = self.inner_fringe(b)?;
        let outer_b = self.outer_fringe(b)?;
        Ok(inner_a == inner_b && outer_a == outer_b)
    }

    ghost laws: { (s : Self) → LearningSpace (ground_set s) (state s) };
}

fn no_state(set: ItemSet) -> Refusal
    ensures { report result ≡ says 16 Listing set.number }
{
    Refusal::NoState(u64::from(set.number))
}
