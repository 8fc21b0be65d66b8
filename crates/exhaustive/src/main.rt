// Holds the library against a plain trial of all subsets, for many small tables of both kinds.
#![tactic(auto)]

mod answer;
mod general;
mod generator;
mod trial;

ghost use Rattle.std.specs.Prelude.{◌≡◌, ◌+◌, ◌-◌, ◌^◌, ◌≤◌, ◌↔◌, ◌≢◌, min, false, Ok, IsTrue, MatchResult};

use answer::{Answer, Question, Reply, Told};
use clauses::ClauseTable;
use general::General;
use generator::Generator;
use item_sets::ItemSet;
use orders::OrderTable;
use records::Table;
use spaces::Space;
use std::alloc::Global;
use std::process::ExitCode;
use std::{fmt, io};
use trial::{Trial, told_by_the_rules};

// How many records of each kind are made.
const RECORDS: u32 = 6000;

// Item 0 needs item 2; items 1 and 2 need nothing.
const THREE_CLAUSES: &[u8; 23] = b"\0\x04\0\0\0\x01\0\0\0\0\x02\0\0\0\0C\x03\x03\0\x0f\0\0\0";

// Items 1, 2, 0 and items 2, 0, 1.
const TWO_ORDERS: &[u8; 14] = b"\x01\x02\0\x02\0\x01O\x03\x02\0\x06\0\0\0";

// The status tells whether the library and the trial agree.
fn main(rt: HostRuntime) -> anyhow::Result<ExitCode> {
    let mut examiner = Examiner::new(&rt);
    let clauses = survey_kind::<ClauseTable>(&rt, &mut examiner, THREE_CLAUSES)?;
    let orders = survey_kind::<OrderTable>(&rt, &mut examiner, TWO_ORDERS)?;
    let tally = examiner.tally;
    report_tables(&rt, clauses, orders)?;
    report_answers(&rt, tally)?;
    if tally.differences > 0 {
        return Ok(ExitCode::FAILURE);
    }
    Ok(ExitCode::SUCCESS)
}

// Compares a fresh table, the table of a record that is given, and those of the records that are made.
fn survey_kind<T: Table + Space>(
    rt: &HostRuntime,
    examiner: &mut Examiner<'_>,
    given: &[u8],
) -> anyhow::Result<Counts> {
    let mut survey = Survey::<T>::start(rt.alloc());
    survey.compare(examiner)?;
    survey.load(examiner, given.to_vec(rt.alloc())?)?;
    for record in Generator::new(rt.alloc(), T::KIND, RECORDS) {
        survey.load(examiner, record?)?;
    }
    Ok(survey.counts)
}

fn report_tables(rt: &HostRuntime, clauses: Counts, orders: Counts) -> io::Result<()> {
    println!(rt;
        "tables: {} clauses ({} refused), {} orders ({} refused)",
        clauses.records, clauses.refused, orders.records, orders.refused
    )?;
    let refused = clauses.refused_with.iter().zip(&orders.refused_with);
    for (number, (c, o)) in refused.enumerate() {
        if *c > 0 || *o > 0 {
            println!(rt; "refused with {number}: {c} clauses, {o} orders")?;
        }
    }
    println!(rt;
        "states found by trial: {} of clauses, {} of orders",
        clauses.states, orders.states
    )
}

fn report_answers(rt: &HostRuntime, tally: Tally) -> io::Result<()> {
    println!(rt; "item sets: {}", tally.items)?;
    println!(rt; "sets judged: {}", tally.states)?;
    println!(rt; "largest states: {}", tally.largest)?;
    println!(rt; "fringes: {}", tally.fringes)?;
    println!(rt; "comparisons by fringes: {}", tally.pairs)?;
    println!(rt; "differences: {}", tally.differences)
}

impl Question {
    // What a space of the library answers.
    fn ask<S: Space>(self, space: &S) -> Result<Answer, Told> {
        let answer = match self {
            Question::Items => Answer::Set(space.items().number),
            Question::IsState(number) => Answer::Truth(space.is_state(ItemSet { number })),
            Question::LargestInside(number) => {
                Answer::Set(space.largest_inside(ItemSet { number }).number)
            }
            Question::InnerFringe(number) => {
                Answer::Set(space.inner_fringe(ItemSet { number })?.number)
            }
            Question::OuterFringe(number) => {
                Answer::Set(space.outer_fringe(ItemSet { number })?.number)
            }
            Question::SameByFringes(a, b) => {
                Answer::Truth(space.same_by_fringes(ItemSet { number: a }, ItemSet { number: b })?)
            }
        };
        Ok(answer)
    }
}

// So many differences are told; the others are only counted.
const MOST_TOLD: u64 = 1000;

// How often each question was asked, and how often the answers differed.
#[derive(Clone, Copy, Default)]
struct Tally {
    items: u64,
    states: u64,
    largest: u64,
    fringes: u64,
    pairs: u64,
    differences: u64,
}

impl Tally {
    fn count(&mut self, question: Question) {
        let counter = match question {
            Question::Items => &mut self.items,
            Question::IsState(_) => &mut self.states,
            Question::LargestInside(_) => &mut self.largest,
            Question::InnerFringe(_) | Question::OuterFringe(_) => &mut self.fringes,
            Question::SameByFringes(_, _) => &mut self.pairs,
        };
        *counter = counter.saturating_add(1);
    }
}

// How a table is asked.
#[derive(Clone, Copy)]
enum Way {
    OwnBodies,
    GeneralBodies,
    AfterRefusal,
}

impl fmt::Display for Way {
    fn fmt<W: fmt::Write>(&self, f: &mut fmt::Formatter<W>) -> fmt::Result {
        f.write_str(match self {
            Way::OwnBodies => "by its own bodies",
            Way::GeneralBodies => "by the general bodies",
            Way::AfterRefusal => "after a refusal",
        })
    }
}

// A table, by the record that it came from, with what the trial found of it.
#[derive(Drop)]
struct Subject<'a, S> {
    record: &'a [u8],
    trial: &'a Trial,
    space: &'a S,
    way: Way,
}

#[derive(Drop)]
struct Examiner<'a> {
    rt: &'a HostRuntime,
    tally: Tally,
}

impl<'a> Examiner<'a> {
    fn new(rt: &'a HostRuntime) -> Examiner<'a> {
        Examiner {
            rt,
            tally: Tally::default(),
        }
    }

    // Asks everything about every set of the table's items and two more, and about every pair of sets of its items.
    fn compare<S: Space>(&mut self, subject: &Subject<'_, S>) -> io::Result<()> {
        self.put(subject, Question::Items)?;
        for set in 0..subject.trial.wider_sets() {
            self.compare_set(subject, set)?;
        }
        self.compare_set(subject, u32::MAX)?;
        for a in 0..subject.trial.sets() {
            for b in 0..subject.trial.sets() {
                self.put(subject, Question::SameByFringes(a, b))?;
            }
        }
        Ok(())
    }

    fn compare_set<S: Space>(&mut self, subject: &Subject<'_, S>, set: u32) -> io::Result<()> {
        self.put(subject, Question::IsState(set))?;
        self.put(subject, Question::LargestInside(set))?;
        self.put(subject, Question::InnerFringe(set))?;
        self.put(subject, Question::OuterFringe(set))
    }

    fn put<S: Space>(&mut self, subject: &Subject<'_, S>, question: Question) -> io::Result<()> {
        self.tally.count(question);
        let told = question.ask(subject.space);
        let expected = subject.trial.answer(question).map_err(told_by_the_rules);
        let asked = Asked {
            question,
            way: subject.way,
        };
        self.agree(subject.record, asked, told, expected)?;
        Ok(())
    }

    // Whether two answers are the same; a difference is told.
    fn agree<Q: fmt::Display + Drop>(
        &mut self,
        record: &[u8],
        asked: Q,
        told: Result<Answer, Told>,
        expected: Result<Answer, Told>,
    ) -> io::Result<bool>
        ensures agreed { MatchResult result (λ same. IsTrue same ↔ (told ≡ expected)) (λ _. told ≢ expected) }
        ensures counted { result ≡ Ok false → self.new.tally.differences ≡ min (self.old.tally.differences + 1) (2 ^ 64 - 1) }
        ensures keeps { self.old.tally.differences ≤ self.new.tally.differences }
    {
        if told == expected {
            return Ok(true);
        }
        if self.tally.differences < MOST_TOLD {
            println!(self.rt;
                "difference: table {}, {asked}: told {}, expected {}",
                Hex(record),
                Reply(told),
                Reply(expected)
            )?;
        }
        self.tally.differences = self.tally.differences.saturating_add(1);
        Ok(false)
    }
}

#[derive(Clone, Copy)]
struct Asked {
    question: Question,
    way: Way,
}

impl fmt::Display for Asked {
    fn fmt<W: fmt::Write>(&self, f: &mut fmt::Formatter<W>) -> fmt::Result {
        write!(f, "{} {}", self.question, self.way)
    }
}

#[derive(Clone, Copy)]
struct Hex<'a>(&'a [u8]);

impl fmt::Display for Hex<'_> {
    fn fmt<W: fmt::Write>(&self, f: &mut fmt::Formatter<W>) -> fmt::Result {
        if self.0.is_empty() {
            return write!(f, "of no bytes");
        }
        for byte in self.0 {
            write!(f, "{byte:02x}")?;
        }
        Ok(())
    }
}

// How many records there were, how many of them were refused, how many with each number, and how many states the others
// have. No record is refused with a number above 8, so an array holds the counts by their numbers.
#[derive(Clone, Copy, Default)]
struct Counts {
    records: u64,
    refused: u64,
    refused_with: [u64; 9],
    states: u64,
}

impl Counts {
    fn count(&mut self, found: Result<Trial, Told>) {
        self.records = self.records.saturating_add(1);
        match found {
            Ok(trial) => self.states = self.states.saturating_add(states_of(&trial)),
            Err(told) => {
                self.refused = self.refused.saturating_add(1);
                if let Some(count) = self.refused_with.get_mut(usize::from(told.number)) {
                    *count = count.saturating_add(1);
                }
            }
        }
    }
}

fn states_of(trial: &Trial) -> u64 {
    (0..trial.sets())
        .filter(|&set| trial.answer(Question::IsState(set)) == Ok(Answer::Truth(true)))
        .count() as u64
}

// The table as it is now, the record that it came from, and what the trial says of it. A fresh table came from none.
#[derive(Drop)]
struct Survey<T> {
    table: T,
    record: Vec<u8>,
    trial: Trial,
    counts: Counts,
}

impl<T: Table + Space> Survey<T> {
    fn start(heap: Global) -> Survey<T> {
        Survey {
            table: T::fresh(),
            record: Vec::new(heap),
            trial: Trial::of_one_item(),
            counts: Counts::default(),
        }
    }

    // Loads a record. Where it is right, the table that it spells is compared, else the one that was there before.
    fn load(&mut self, examiner: &mut Examiner<'_>, record: Vec<u8>) -> io::Result<()> {
        let found = Trial::of(T::KIND, record.as_slice()).map_err(told_by_the_rules);
        self.counts.count(found);
        let told = self.table.load(record.as_slice());
        let agreed = examiner.agree(
            record.as_slice(),
            "load",
            told.map(|_| Answer::Loaded).map_err(Told::from),
            found.map(|_| Answer::Loaded),
        )?;
        if !agreed {
            self.restart();
            return Ok(());
        }
        match found {
            Ok(trial) => {
                self.record = record;
                self.trial = trial;
                self.compare(examiner)
            }
            Err(_) => self.compare_left(examiner),
        }
    }

    // Where it is in doubt which table is there, a fresh one is.
    fn restart(&mut self) {
        self.table = T::fresh();
        self.record.clear();
        self.trial = Trial::of_one_item();
    }

    // Compares the table by the bodies that its kind has, and by those that the interface provides.
    fn compare(&self, examiner: &mut Examiner<'_>) -> io::Result<()> {
        examiner.compare(&self.subject(&self.table, Way::OwnBodies))?;
        examiner.compare(&self.subject(&General(&self.table), Way::GeneralBodies))
    }

    // Compares the table that a refusal has left.
    fn compare_left(&self, examiner: &mut Examiner<'_>) -> io::Result<()> {
        examiner.compare(&self.subject(&self.table, Way::AfterRefusal))
    }

    fn subject<'a, S>(&'a self, space: &'a S, way: Way) -> Subject<'a, S> {
        Subject {
            record: self.record.as_slice(),
            trial: &self.trial,
            space,
            way,
        }
    }
}
