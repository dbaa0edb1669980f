// The implicants and primes of any source, and what a cover of it must hold.
#![tactic(auto)]

mod digits;
mod essentials;
mod implicants;
mod listing;
pub mod need;
mod needs;
pub mod prime;
mod records;

pub use listing::primes;
pub use need::{Need, NeedList, Work};
pub use needs::list_needs;
pub use prime::{Prime, PrimeList};
