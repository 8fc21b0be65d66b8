// Building sets by clauses: what can be added is added until nothing can.
ghost use Rattle.std.specs.Prelude.{◌≡◌};
ghost use Rattle.item_sets.specs.Sets.{◌⊆◌};
ghost use Rattle.spaces.specs.Largest.{Largest};
ghost use Rattle.clauses.specs.Tables.{Builds, Pass};

use crate::list::ClauseList;
use item_sets::ItemSet;

impl ClauseList {
    // The largest set inside `within` that the clauses build.
    pub(crate) fn largest_inside(&self, within: ItemSet) -> ItemSet
        ensures largest { Largest (Builds self.now) within.number result.number }
        ensures exact { (result.number ≡ within.number → Builds self.now within.number) × (Builds self.now within.number → result.number ≡ within.number) }
    {
        let mut built = ItemSet::EMPTY;
        loop {
            let next = self.pass(within, built);
            if next == built {
                return built;
            }
            built = next;
        }
    }

    // Goes through the clauses once, and adds each item of `within` that can be added by then.
    fn pass(&self, within: ItemSet, start: ItemSet) -> ItemSet
        requires { (Builds self.now start.number) × (start.number ⊆ within.number) }
        ensures { Pass self.now within.number start.number result.number self.now.len }
    {
        let mut built = start;
        for clause in &self.clauses[..self.len] {
            if clause.adds(built, within) {
                built = built.with(clause.item);
            }
        }
        built
    }
}
