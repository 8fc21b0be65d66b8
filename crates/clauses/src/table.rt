// A clause table: right clauses by which every item can be reached.
ghost use Rattle.std.specs.Prelude.{◌≡◌, ℕ, ◌<◌, MatchResult};
ghost use Rattle.clauses.specs.Tables.{Reaches, Misses};

use crate::clause::Clause;
use crate::list::ClauseList;
use item_sets::ItemSet;
use records::{Kind, Table, Trailer};
use refusals::Refusal;

// No clause table exists whose whole set cannot be built.
#[derive(Clone, Copy)]
pub struct ClauseTable {
    pub(crate) list: ClauseList,
    ghost reachable: { (i : ℕ) → i < list.items → ∥ Reaches list i ∥₁ },
}

impl ClauseTable {
    ghost use Rattle.refusals.specs.declared.Layer.TheVariants.{Table as layer};
    ghost use Rattle.refusals.specs.Report.{report, says};

    // The table of these clauses, or the refusal of the least item that no set they build has. No `TryFrom`: nobody else has a list.
    fn of(list: ClauseList) -> Result<ClauseTable, Refusal>
        ensures { MatchResult result (λ t. (t.list ≡ list) × ((i : ℕ) → i < list.items → Reaches list i)) (λ e. (i : ℕ) × Misses list i × (report e ≡ says 8 layer i)) }
    {
        let all = ItemSet::all_below(list.items);
        let reached = list.largest_inside(all);
        match all.difference(reached).items().next() {
            Some(item) => Err(Refusal::UnbuildableItem(u64::from(item))),
            None => Ok(ClauseTable { list }),
        }
    }
}

impl Table for ClauseTable {
    ghost use Rattle.records.specs.declared.Kind.TheVariants.{Clauses};
    ghost use Rattle.records.specs.Format.{items, rows, of_length, of_kind};
    ghost use Rattle.clauses.specs.Loading.{free_clause, row, Holds, Lawful, Refused};

    ghost KIND = { Clauses };

    const KIND: Kind = Kind::Clauses;

    ghost is_fresh = { λ t. Holds t 1 1 (λ _. free_clause) };

    ghost spelled = { λ b t. Lawful b × Holds t (items b) (rows b) (row b) };

    ghost refused = { λ b told. Refused b told };

    ghost len = { λ t. t.list.len };

    ghost of_kind = { λ b t s. (s.0.trailer of_length, s.0.trailer of_kind) };

    fn fresh() -> ClauseTable {
        let mut list = ClauseList::new(1);
        list.push(Clause::FREE);
        ClauseTable { list }
    }

    fn read(bytes: &[u8]) -> Result<ClauseTable, Refusal> {
        let trailer = Trailer::read(bytes, Self::KIND)?;
        let list = ClauseList::read(bytes, trailer)?;
        ClauseTable::of(list)
    }

    fn row_count(&self) -> usize {
        self.list.len
    }
}
