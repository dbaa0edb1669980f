// Takes real duty tables of the mill from the first entry to the finished table, and says what took place.
#![tactic(auto)]

use layers::{Cofactor, Complement};
use orders::{Count, Longest, Price, cost};
use primes::{PrimeList, Work, primes};
use sources::{Call, Outcome, Source, TermList, TruthTable};
use std::fmt::Display;
use std::io;
use terms::{Mark, Refusal, Term};

fn main(rt: HostRuntime) -> io::Result<()> {
    lead(&rt)?;
    let spill = spill(&rt)?;
    compare(&rt, &spill)?;
    pile(&rt, spill)?;
    costs(&rt)
}

// The gate leads when the stream runs and the basin is not up; with the basin up it makes no odds.
fn lead(rt: &(impl Print + AllocGlobal)) -> io::Result<()> {
    rt.println("Gate `lead`: leads when the stream runs and the basin is not up.")?;
    let mut truth = TruthTable::new();
    let calls = [
        Call::Size { inputs: 0 },
        Call::Size { inputs: 2 },
        Call::Sweep {
            mask: 0b10,
            levels: 0b10,
            code: Mark::Free.into(),
        },
        Call::Mark {
            row: 4,
            code: Mark::On.into(),
        },
        Call::Mark { row: 1, code: 3 },
        Call::Mark {
            row: 1,
            code: Mark::On.into(),
        },
        Call::Sweep {
            mask: 0b01,
            levels: 0b11,
            code: Mark::On.into(),
        },
        Call::Look { row: 3 },
        Call::Look { row: 4 },
    ];
    enter(rt, &mut truth, &calls)?;
    show(rt, &truth, &["hi", "run"], "lead")?;
    print_primes(rt, &truth, Work::Plain)
}

// The spillway opens in a flood, and when the pond is high with the stream running. A flood with the pond not high,
// and a pond both high and low, cannot arise.
fn spill(rt: &(impl Print + AllocGlobal)) -> io::Result<TruthTable> {
    rt.println("Gate `spill`: opens in a flood, and when the pond is high and the stream runs.")?;
    let mut truth = TruthTable::new();
    let calls = [
        Call::Size { inputs: 9 },
        Call::Size { inputs: 4 },
        Call::Sweep {
            mask: 0b1000,
            levels: 0b1000,
            code: Mark::On.into(),
        },
        Call::Sweep {
            mask: 0b0101,
            levels: 0b0101,
            code: Mark::On.into(),
        },
        Call::Sweep {
            mask: 0b1_0000,
            levels: 0,
            code: Mark::On.into(),
        },
        Call::Sweep {
            mask: 0b1100,
            levels: 0b1000,
            code: Mark::Free.into(),
        },
        Call::Sweep {
            mask: 0b0110,
            levels: 0b0110,
            code: Mark::Free.into(),
        },
        Call::Mark {
            row: 0,
            code: Mark::Off.into(),
        },
        Call::Look { row: 5 },
        Call::Look { row: 16 },
    ];
    enter(rt, &mut truth, &calls)?;
    show(rt, &truth, &["flood", "high", "low", "run"], "spill")?;
    print_primes(rt, &truth, Work::Plain)?;
    print_primes(rt, &truth, Work::HazardFree)?;
    Ok(truth)
}

// The primes of a source in some kind of work: each with the needs that it holds, and whether it is essential.
fn print_primes<S: Source>(
    rt: &(impl Print + AllocGlobal),
    source: &S,
    work: Work,
) -> io::Result<()> {
    match work {
        Work::Plain => rt.println("  primes in plain work:")?,
        Work::HazardFree => rt.println("  primes in hazard-free work:")?,
    }
    let mut list = PrimeList::new();
    if let Err(refusal) = primes(source, work, &mut list) {
        return println!(rt; "    {refusal}");
    }
    for prime in list.as_slice() {
        let term = prime.term.written(rt.alloc(), source.inputs())?;
        let needs = prime.needs;
        let essential = if prime.essential { ", essential" } else { "" };
        println!(rt; "    {term} holds {needs} needs{essential}")?;
    }
    Ok(())
}

// The same table as two lists of terms: the ON terms, and the terms of what cannot arise.
fn compare(rt: &(impl Print + AllocGlobal), truth: &TruthTable) -> io::Result<()> {
    rt.println("The same table as two lists of terms:")?;
    let mut list = TermList::new(rt.alloc());
    let on = [(0b1110, 0b1100), (0b1111, 0b0101)];
    let free = [(0b1100, 0b1000), (0b0110, 0b0110)];
    print_result(
        rt,
        "fill",
        list.fill(rt.alloc(), 4, &[(0b0100, 0b1000)], &free),
    )?;
    print_result(rt, "fill", list.fill(rt.alloc(), 4, &on, &free))?;
    let differing = differing_rows(truth, &list);
    println!(rt; "  rows that differ from the truth table: {differing}")
}

// What a call that gives nothing came to.
fn print_result<E: Display + Drop>(
    rt: &impl Print,
    call: &str,
    res: Result<(), E>,
) -> io::Result<()> {
    match res {
        Ok(()) => println!(rt; "  {call}: done"),
        Err(error) => println!(rt; "  {call}: {error}"),
    }
}

// How many of the 256 rows there can be the two sources answer otherwise, a missing row counting as an answer.
fn differing_rows<A: Source, B: Source>(a: &A, b: &B) -> usize {
    (0..256)
        .filter(|&row| a.is_on(row) != b.is_on(row) || a.is_off(row) != b.is_off(row))
        .count()
}

// The complement of the table, and its cofactor with no flood.
fn pile(rt: &(impl Print + AllocGlobal), truth: TruthTable) -> io::Result<()> {
    rt.println("The complement of `spill`, with `flood` tied to 0:")?;
    let mut pile = Cofactor::new(Complement::new(truth));
    print_result(rt, "tie", pile.set(4, false))?;
    print_result(rt, "tie", pile.set(3, false))?;
    show(rt, &pile, &["high", "low", "run"], "not spill")?;
    pile.release();
    let inputs = pile.inputs();
    println!(rt; "  released: {inputs} inputs again")
}

// Makes the calls one after the other, and says what each came to.
fn enter(rt: &impl Print, truth: &mut TruthTable, calls: &[Call]) -> io::Result<()> {
    for call in calls {
        print_call(rt, *call)?;
        print_outcome(rt, truth.call(*call))?;
    }
    Ok(())
}

// A call as it was entered. No `Display` of `Call`: how bytes are padded is this program's, and the text would have to be pinned.
fn print_call(rt: &impl Print, call: Call) -> io::Result<()> {
    match call {
        Call::Size { inputs } => print!(rt; "  size {inputs}: "),
        Call::Mark { row, code } => print!(rt; "  mark row {row} with code {code}: "),
        Call::Sweep { mask, levels, code } => print!(rt;
            "  sweep mask {mask:08b} levels {levels:08b} with code {code}: "
        ),
        Call::Look { row } => print!(rt; "  look at row {row}: "),
    }
}

fn print_outcome(rt: &impl Print, outcome: Outcome) -> io::Result<()> {
    match outcome {
        Ok(None) => rt.println("done"),
        Ok(Some(mark)) => rt.println(mark),
        Err(refusal) => rt.println(refusal),
    }
}

// The finished table: one line for each row, the inputs from the highest, then the output.
fn show<S: Source>(rt: &impl Print, source: &S, inputs: &[&str], output: &str) -> io::Result<()> {
    rt.print("  row")?;
    for name in inputs {
        print!(rt; " {name}")?;
    }
    println!(rt; " -> {output}")?;
    for (row, mark) in (0..256).map_while(|row| source.look(row).ok()).enumerate() {
        print!(rt; "  {row:>3}")?;
        show_levels(rt, row, inputs)?;
        println!(rt; " -> {mark}")?;
    }
    Ok(())
}

// The levels of a row, each under the name of its input, the highest input first. A bit for each: a text of the row would want memory.
fn show_levels(rt: &impl Print, row: usize, inputs: &[&str]) -> io::Result<()> {
    for (name, input) in inputs.iter().zip((0..inputs.len()).rev()) {
        let width = name.len();
        let level = if input < 8 { row >> input & 1 } else { 0 };
        print!(rt; " {level:>width$}")?;
    }
    Ok(())
}

// What the two terms of the spillway gate cost under each order, and at other prices.
fn costs(rt: &impl Print) -> io::Result<()> {
    match two_terms() {
        Ok(terms) => print_costs(rt, &terms),
        Err(_) => rt.println("  no such terms"),
    }
}

fn two_terms() -> Result<[Term; 2], Refusal> {
    let first = Term::new(4, 0b0101, 0b0101)?;
    let second = Term::new(4, 0b1000, 0b1000)?;
    Ok([first, second])
}

fn print_costs(rt: &impl Print, terms: &[Term]) -> io::Result<()> {
    rt.println("What -1-1 and 1--- cost together:")?;
    if let Some((count, contacts)) = cost(&Count, terms) {
        println!(rt; "  by count: {count} terms, {contacts} contacts")?;
    }
    if let Some(longest) = cost(&Longest, terms) {
        println!(rt; "  by the longest term: {longest} contacts")?;
    }
    let mut price = Price::new();
    print_price(rt, &price, terms)?;
    print_result(
        rt,
        "set prices",
        price.set_prices([20, 3, 3, 5, 9, 0, 0, 0, 0]),
    )?;
    print_result(
        rt,
        "set prices",
        price.set_prices([20, 3, 3, 5, 1001, 0, 0, 0, 0]),
    )?;
    print_price(rt, &price, terms)
}

fn print_price(rt: &impl Print, price: &Price, terms: &[Term]) -> io::Result<()> {
    match cost(price, terms) {
        Some(sum) => println!(rt; "  by price: {sum}"),
        None => rt.println("  by price: too many terms"),
    }
}
