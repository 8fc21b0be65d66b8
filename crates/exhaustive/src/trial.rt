// The rules of tables, written out plainly: which records are refused, and with what; the states of a small table, found by
// plain trial of all subsets; and what follows from them. The types are the library's, but the rules are stated here anew
// and call none of its functions: a mistake that both had from one place would show as no difference.
ghost use Rattle.std.specs.Prelude.{◌≡◌, ℕ, ◌+◌, ◌^◌, ◌<◌, ◌≤◌, false, length, Ok, Err, IfOk};
ghost use Rattle.exhaustive.specs.declared.answer.Answer.TheVariants.{Truth};
ghost use Rattle.exhaustive.specs.declared.answer.Question.TheVariants.{IsState};
ghost use Rattle.records.specs.declared.Kind.TheVariants.{Clauses, Orders};
ghost use Rattle.refusals.specs.declared.Refusal.TheVariants.{ShortRecord};
ghost use Rattle.exhaustive.specs.Telling.{Tells};

use crate::answer::{Answer, Question, Told};
use records::{Kind, Trailer};
use refusals::{Layer, Refusal};

// Which of the sets of at most five items are states: a flag for each set number. A collection of sets would be no plainer, with
// a `?` at each that is put in.
#[derive(Clone, Copy)]
pub struct Trial {
    items: u8,
    family: [bool; 32],
}

impl Trial {
    // The family of one item that needs nothing.
    pub fn of_one_item() -> Trial
        ensures { result.items ≡ 1 }
    {
        let mut trial = Trial::of_empty_set(1);
        trial.mark(1);
        trial
    }

    // The family of the table that a record spells, or the refusal of the record: first its trailer is judged, then its rows,
    // and then whether every item lies in a state.
    pub fn of(kind: Kind, bytes: &[u8]) -> Result<Trial, Refusal>
        ensures { length bytes.now < 8 → result ≡ Err (ShortRecord (length bytes.now)) }
    {
        let (rows, Trailer { items, .. }) = read_trailer(kind, bytes)?;
        // A `match`, and no trait with a type for each kind: there are two, and each arm is one call.
        let trial = match kind {
            Kind::Clauses => Trial::of_clauses(rows.as_chunks().0, items)?,
            Kind::Orders => Trial::of_orders(rows, items)?,
        };
        let reached = trial.largest_inside(u32::MAX);
        match (0..items).find(|&item| reached & bit(item) == 0) {
            Some(item) => Err(Refusal::UnbuildableItem(u64::from(item))),
            None => Ok(trial),
        }
    }

    // From the empty set on, each item is added to each set that it can be added to. A set that is made so has a larger
    // number than the set before, so each is made before its turn comes.
    fn of_clauses(clauses: &[[u8; 5]], items: u8) -> Result<Trial, Refusal> {
        judge_clauses(clauses, items)?;
        let mut trial = Trial::of_empty_set(items);
        for set in 0..32 {
            if trial.is_state(set) {
                for item in (0..items).filter(|&item| can_be_added(clauses, item, set)) {
                    trial.mark(set | bit(item));
                }
            }
        }
        Ok(trial)
    }

    // Row by row, each union so far is joined with each beginning of the row.
    fn of_orders(rows: &[u8], items: u8) -> Result<Trial, Refusal>
        requires { 0 < items }
    {
        let len = usize::from(items);
        let mut trial = Trial::of_empty_set(items);
        for (k, order) in rows.chunks_exact(len).enumerate() {
            if !is_right_order(order, items) {
                return Err(Refusal::WrongRow((k * len) as u64));
            }
            let so_far = trial;
            for set in (0..32).filter(|&set| so_far.is_state(set)) {
                trial.join_beginnings(order, set);
            }
        }
        Ok(trial)
    }

    fn join_beginnings(&mut self, order: &[u8], set: u32) {
        let mut joined = set;
        self.mark(joined);
        for item in order {
            joined |= bit(*item);
            self.mark(joined);
        }
    }

    fn of_empty_set(items: u8) -> Trial
        ensures { result.items ≡ items }
    {
        let mut family = [false; 32];
        family[0] = true;
        Trial { items, family }
    }

    fn mark(&mut self, set: u32)
        ensures { self.new.items ≡ self.old.items }
    {
        if let Some(state) = self.family.get_mut(set as usize) {
            *state = true;
        }
    }

    // How many sets of the table's items there are.
    pub fn sets(&self) -> u32
        ensures { self.now.items < 32 → result ≡ 2 ^ self.now.items }
    {
        bit(self.items)
    }

    // How many sets there are of the table's items and two more.
    pub fn wider_sets(&self) -> u32
        ensures { self.now.items < 30 → result ≡ 2 ^ (self.now.items + 2) }
    {
        bit(self.items.saturating_add(2))
    }

    // What follows from the family.
    pub fn answer(&self, question: Question) -> Result<Answer, Refusal>
        ensures { (set : ℕ) → question ≡ IsState set → 32 ≤ set → result ≡ Ok (Truth false) }
    {
        match question {
            Question::Items => Ok(Answer::Set(self.sets().saturating_sub(1))),
            Question::IsState(set) => Ok(Answer::Truth(self.is_state(set))),
            Question::LargestInside(set) => Ok(Answer::Set(self.largest_inside(set))),
            Question::InnerFringe(set) => self.fringe(set, set),
            Question::OuterFringe(set) => self.fringe(set, !set),
            Question::SameByFringes(a, b) => {
                self.require_state(a)?;
                self.require_state(b)?;
                Ok(Answer::Truth(a == b))
            }
        }
    }

    fn is_state(&self, set: u32) -> bool
        ensures { 32 ≤ set → result ≡ false }
    {
        self.family.get(set as usize).is_some_and(|&state| state)
    }

    fn require_state(&self, set: u32) -> Result<(), Refusal> {
        if !self.is_state(set) {
            return Err(Refusal::NoState(u64::from(set)));
        }
        Ok(())
    }

    // The union of all states inside the set.
    fn largest_inside(&self, set: u32) -> u32 {
        (0..32)
            .filter(|&state| self.is_state(state) && state & !set == 0)
            .fold(0, |union, state| union | state)
    }

    // The items among some whose removal from a state, or whose addition to it, gives a state again.
    fn fringe(&self, set: u32, among: u32) -> Result<Answer, Refusal> {
        self.require_state(set)?;
        let fringe = (0..self.items)
            .map(bit)
            .filter(|&item| among & item != 0 && self.is_state(set ^ item))
            .fold(0, |fringe, item| fringe | item);
        Ok(Answer::Set(fringe))
    }
}

// Whether an alternative of the item lies wholly inside the set.
fn can_be_added(clauses: &[[u8; 5]], item: u8, set: u32) -> bool {
    clauses.iter().any(|clause| clause[0] == item && alternative(clause) & !set == 0)
}

// What sets the kinds apart is stated here, and `Kind` is not asked for it, since what that tells is compared.

// The byte by which a record says its kind.
pub fn kind_byte(kind: Kind) -> u8
    ensures { result ≡ elim kind [ Clauses ↦ 67 | Orders ↦ 79 ] }
{
    match kind {
        Kind::Clauses => b'C',
        Kind::Orders => b'O',
    }
}

fn most_rows(kind: Kind) -> u16 {
    match kind {
        Kind::Clauses => 120,
        Kind::Orders => 16,
    }
}

// How many bytes a row has.
pub fn row_len(kind: Kind, items: u8) -> u8
    ensures { result ≡ elim kind [ Clauses ↦ 5 | Orders ↦ items ] }
{
    match kind {
        Kind::Clauses => 5,
        Kind::Orders => items,
    }
}

// What the rules tell of a refusal. It is stated here, and the refusal is not asked, since what that tells is compared.
pub fn told_by_the_rules(refusal: Refusal) -> Told
    ensures { Tells refusal result }
{
    let (number, layer, place) = match refusal {
        Refusal::ShortRecord(place) => (1, Layer::Record, place),
        Refusal::WrongKind(place) => (2, Layer::Record, place),
        Refusal::WrongItemCount(place) => (3, Layer::Record, place),
        Refusal::WrongRowCount(place) => (4, Layer::Record, place),
        Refusal::WrongDistance(place) => (5, Layer::Record, place),
        Refusal::WrongRow(place) => (6, Layer::Record, place),
        Refusal::UnbuildableItem(place) => (8, Layer::Table, place),
        Refusal::NoState(place) => (16, Layer::Listing, place),
        Refusal::NoRoute(place) => (18, Layer::Listing, place),
        Refusal::WrongTraySize => (20, Layer::Listing, 0),
        Refusal::NotWanted(place) => (21, Layer::Listing, place),
    };
    Told {
        number,
        layer,
        place,
    }
}

// The rows of a record, and what its trailer says, or the refusal of the first field that is wrong.
fn read_trailer(kind: Kind, bytes: &[u8]) -> Result<(&[u8], Trailer), Refusal>
    ensures short { length bytes.now < 8 → result ≡ Err (ShortRecord (length bytes.now)) }
    ensures some_items { IfOk result (λ p. 0 < p.1.items) }
{
    let Some((rows, &[code, items, r0, r1, d0, d1, d2, d3])) = bytes.split_last_chunk::<8>() else {
        return Err(Refusal::ShortRecord(bytes.len() as u64));
    };
    let trailer = Trailer {
        items,
        rows: u16::from_le_bytes([r0, r1]),
    };
    let distance = u32::from_le_bytes([d0, d1, d2, d3]);
    let place = rows.len() as u64;
    if code != kind_byte(kind) {
        return Err(Refusal::WrongKind(place));
    }
    if !(1..=30).contains(&items) {
        return Err(Refusal::WrongItemCount(place + 1));
    }
    if !(1..=most_rows(kind)).contains(&trailer.rows) {
        return Err(Refusal::WrongRowCount(place + 2));
    }
    let length = u32::from(trailer.rows) * u32::from(row_len(kind, items));
    if distance != length || u64::from(distance) != place {
        return Err(Refusal::WrongDistance(place + 4));
    }
    Ok((rows, trailer))
}

// The first wrong clause is refused.
fn judge_clauses(clauses: &[[u8; 5]], items: u8) -> Result<(), Refusal> {
    for (k, clause) in clauses.iter().enumerate() {
        if !is_right_clause(clause, &clauses[..k], items) {
            return Err(Refusal::WrongRow(5 * k as u64));
        }
    }
    Ok(())
}

// A clause has an item of the table, not below that of the row before, fewer than four rows before it have the same item,
// and its alternative is a set of other items of the table.
fn is_right_clause(clause: &[u8; 5], before: &[[u8; 5]], items: u8) -> bool {
    let item = clause[0];
    let alternative = alternative(clause);
    let rises = before.last().is_none_or(|last| last[0] <= item);
    let same = before.iter().filter(|row| row[0] == item).count();
    item < items && rises && same < 4 && alternative < bit(items) && alternative & bit(item) == 0
}

fn alternative([_, a0, a1, a2, a3]: &[u8; 5]) -> u32 {
    u32::from_le_bytes([*a0, *a1, *a2, *a3])
}

// An order has every item of the table. As it is as long as there are items, it has none twice and no other.
fn is_right_order(order: &[u8], items: u8) -> bool {
    (0..items).all(|item| order.contains(&item))
}

// The set number of one item, or of none where a set number cannot hold it.
fn bit(item: u8) -> u32
    ensures { item < 32 → result ≡ 2 ^ item }
{
    if item < 32 { 1 << item } else { 0 }
}
