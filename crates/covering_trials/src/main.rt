// Compares the search with a walk through every set of columns, on many small charts with many ties.
#![tactic(auto)]

mod draw;
mod sample;
mod walk;

use crate::draw::Dice;
use crate::sample::Sample;
use crate::walk::{Report, compare};
use orders::{Count, Longest, Price};
use std::io;

const CHARTS: usize = 600;

fn main(rt: HostRuntime) -> io::Result<()> {
    let mut dice = Dice::new();
    let mut by_count = Report::default();
    let mut by_price = Report::default();
    let mut by_longest = Report::default();
    let mut price = Price::new();
    let _ = price.set_prices([3, 0, 1, 2, 3, 1, 0, 2, 1]);
    // A loop: each turn rolls the dice on and adds to three reports.
    for number in 0..CHARTS {
        let sample = dice.sample(number);
        by_count.add(compare(&Count, &sample));
        by_price.add(compare(&price, &sample));
        by_longest.add(compare(&Longest, &sample));
    }
    println!(rt; "{CHARTS} charts of up to 10 columns, each against every set of its columns")?;
    by_count.print(&rt, "count")?;
    by_price.print(&rt, "price")?;
    by_longest.print(&rt, "longest")
}
