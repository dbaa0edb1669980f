// Covers of a table: the chart of its primes, and what the best cover is.
#![tactic(auto)]

pub mod prime_chart;

pub use prime_chart::PrimeChart;
