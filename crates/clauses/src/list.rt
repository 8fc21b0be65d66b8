// The clauses of a table, each of them right.
ghost use Rattle.std.specs.Prelude.{◌≡◌, ℕ, ◌+◌, ◌*◌, ◌<◌, ◌≤◌, ◌↔◌, IsTrue, MatchResult};
ghost use Rattle.clauses.specs.Clauses.{at, earlier, Right};

use crate::clause::{Clause, ROW};
use item_sets::{Item, ItemSet};
use records::Trailer;
use refusals::Refusal;

// At most four for each of thirty items.
pub const MOST: usize = 120;

// The first `len` clauses count, and mean what they say in a table of the items below `items`. A table stands in fixed memory,
// so they lie in an array.
#[derive(Clone, Copy)]
pub struct ClauseList {
    pub(crate) items: Item,
    pub(crate) len: usize,
    pub(crate) clauses: [Clause; MOST],
    ghost bounds: { (1 ≤ items) × (items ≤ 30) × (len ≤ 120) },
    ghost alternatives: { (k : ℕ) → k < len → ∥ Right items (at clauses) k ∥₁ },
}

impl ClauseList {
    ghost use Rattle.refusals.specs.Report.{report, says};
    ghost use Rattle.refusals.specs.declared.Layer.TheVariants.{Record};
    ghost use Rattle.records.specs.Format.{Says};
    ghost use Rattle.records.specs.declared.Kind.TheVariants.{Clauses};
    ghost use Rattle.clauses.specs.Tables.{Adds, MayFollow, NotBelowLast};
    ghost use Rattle.clauses.specs.Loading.{FirstWrong, Spelled};

    // The clauses that the rows of a record spell, or the refusal of the first row that is wrong.
    pub(crate) fn read(bytes: &[u8], trailer: Trailer) -> Result<ClauseList, Refusal>
        requires { Says Clauses bytes.now trailer }
        ensures { MatchResult result (Spelled bytes.now) (λ e. (k : ℕ) × FirstWrong bytes.now k × (report e ≡ says 6 Record (5 * k))) }
    {
        let (rows, _) = bytes.as_chunks::<ROW>();
        let mut list = ClauseList::new(trailer.items);
        for row in &rows[..usize::from(trailer.rows)] {
            let clause = Clause::from(*row);
            if !list.allows(clause) {
                return Err(Refusal::WrongRow((ROW * list.len) as u64));
            }
            list.push(clause);
        }
        Ok(list)
    }

    // No clauses yet, for the items below `items`.
    pub(crate) fn new(items: Item) -> ClauseList
        requires { (1 ≤ items) × (items ≤ 30) }
        ensures { (result.items ≡ items) × (result.len ≡ 0) }
    {
        ClauseList {
            items,
            len: 0,
            clauses: [Clause::FREE; MOST],
        }
    }

    pub(crate) fn push(&mut self, clause: Clause)
        requires room { self.old.len < 120 }
        requires follows { MayFollow self.old clause }
        ensures { Adds self.old self.new clause }
    {
        self.clauses[self.len] = clause;
        self.len += 1;
    }

    // Whether the clause may come next.
    fn allows(&self, clause: Clause) -> bool
        ensures { IsTrue result ↔ MayFollow self.now clause }
    {
        clause.item < self.items
            && self.is_in_order(clause.item)
            && self.has_room_for(clause.item)
            && clause
                .alternative
                .is_inside(ItemSet::all_below(self.items).without(clause.item))
    }

    // Whether an item is not below that of the last clause.
    fn is_in_order(&self, item: Item) -> bool
        ensures { IsTrue result ↔ NotBelowLast self.now item }
    {
        self.len == 0 || self.clauses[self.len - 1].item <= item
    }

    // Whether fewer than four clauses have the item, which is not below that of the last one. The items rise, so it is enough
    // to look at the fourth clause back.
    fn has_room_for(&self, item: Item) -> bool
        requires { NotBelowLast self.now item }
        ensures { IsTrue result ↔ (earlier (at self.now.clauses) self.now.len item < 4) }
    {
        self.len < 4 || self.clauses[self.len - 4].item != item
    }
}
