// A walk through every set of columns, the earliest first.
use crate::sample::{MOST_COLUMNS, Sample};
use charts::{Chart, ColumnSet, Valued, is_fine, value_of};
use covering::search;
use orders::CostOrder;
use std::io;

// What came of one chart: three facts that are counted apart.
#[derive(Clone, Copy)]
pub struct Outcome {
    pub covers: bool,
    pub ties: bool,
    pub agrees: bool,
}

// What came of many.
#[derive(Default, Drop)]
pub struct Report {
    covered: usize,
    with_ties: usize,
    wrong: usize,
}

impl Report {
    pub fn add(&mut self, outcome: Outcome) {
        self.covered = self.covered.saturating_add(usize::from(outcome.covers));
        self.with_ties = self.with_ties.saturating_add(usize::from(outcome.ties));
        self.wrong = self.wrong.saturating_add(usize::from(!outcome.agrees));
    }

    pub fn print(&self, rt: &impl Print, name: &str) -> io::Result<()> {
        let Report {
            covered,
            with_ties,
            wrong,
        } = self;
        println!(rt;
            "by {name}: {covered} can be covered, {with_ties} of them with ties for the best, {wrong} answers differ"
        )
    }
}

// The columns of a set that is told by a number: its highest bit of ten is column 0, so the higher number is the earlier set.
fn columns_of(number: usize) -> ColumnSet {
    // A loop: a set made from a test asks of all 256 numbers, and the trials took ten times as long.
    let mut set = ColumnSet::none();
    for column in 0..MOST_COLUMNS {
        if number >> (MOST_COLUMNS - 1 - column) & 1 == 1 {
            set.insert(column);
        }
    }
    set
}

// Whether one of the set's columns holds the need. The walk is written apart from the search on purpose: it checks it.
fn is_met(sample: &Sample, set: &ColumnSet, need: usize) -> bool {
    (0..MOST_COLUMNS).any(|column| set.contains(column) && sample.holds(column, need))
}

// Whether the set stays within the chart's columns and holds each of its needs; written apart from the search, too.
fn covers(sample: &Sample, set: &ColumnSet) -> bool {
    (sample.columns()..MOST_COLUMNS).all(|column| !set.contains(column))
        && (0..sample.needs()).all(|need| is_met(sample, set, need))
}

// What the walk found: the first best set, and whether another is as good.
#[derive(Clone, Copy)]
struct Walked<T> {
    best: Valued<T>,
    ties: bool,
}

// What is found after one more set: the first of the best stays.
fn found_with<O: CostOrder>(
    order: &O,
    walked: Walked<O::Total>,
    next: Walked<O::Total>,
) -> Walked<O::Total> {
    if is_fine(order, &next.best, &walked.best, true) {
        return next;
    }
    Walked {
        best: walked.best,
        ties: walked.ties || is_fine(order, &next.best, &walked.best, false),
    }
}

// Walks through every set, the earliest first, and keeps the first best one; nothing where none covers.
fn walk_all<O: CostOrder>(order: &O, sample: &Sample) -> Option<Walked<O::Total>> {
    (0..1 << MOST_COLUMNS)
        .rev()
        .map(columns_of)
        .filter(|set| covers(sample, set))
        .map(|set| Walked {
            best: value_of(order, sample, &set),
            ties: false,
        })
        .reduce(|walked, next| found_with(order, walked, next))
}

// Compares the walk with what the search gives.
pub fn compare<O: CostOrder>(order: &O, sample: &Sample) -> Outcome {
    let walked = walk_all(order, sample);
    let agrees = match (search(order, sample), walked) {
        (Some(found), Some(Walked { best, .. })) => agree(order, &found, &best),
        (None, None) => true,
        _ => false,
    };
    Outcome {
        covers: walked.is_some(),
        ties: walked.is_some_and(|found| found.ties),
        agrees,
    }
}

// Whether two values are of one set, and cost the same. Not derived: a derive would ask `PartialEq` of every total.
fn agree<O: CostOrder>(order: &O, a: &Valued<O::Total>, b: &Valued<O::Total>) -> bool {
    a.set == b.set && a.size == b.size && is_fine(order, a, b, false) && is_fine(order, b, a, false)
}
