// Lists the primes of one 8-input table many times over, to be timed from outside.
#![tactic(auto)]

use primes::{PrimeList, Work, primes};
use sources::TruthTable;
use std::io;
use terms::{Mark, Refusal};

const TIMES: usize = 100;

fn main(rt: HostRuntime) -> io::Result<()> {
    match run() {
        Ok(count) => println!(rt; "{TIMES} times, {count} primes each"),
        Err(refusal) => println!(rt; "{refusal}"),
    }
}

// A dense table of eight inputs with many small primes, in hazard-free work.
fn run() -> Result<usize, Refusal> {
    let mut truth = TruthTable::new();
    truth.size(8)?;
    // A loop, here and below: each turn changes the table or the list.
    for row in 0..256 {
        let mark = if row % 7 == 0 || row % 5 == 1 {
            Mark::Off
        } else {
            Mark::On
        };
        truth.mark(row, mark.into())?;
    }
    let mut list = PrimeList::new();
    for _ in 0..TIMES {
        primes(&truth, Work::HazardFree, &mut list)?;
    }
    Ok(list.len())
}
