// The vocabulary of the minimiser: marks, terms, refusals.
#![tactic(auto)]

pub mod failure;
pub mod mark;
pub mod refusal;
pub mod term;
pub mod weights;

pub use failure::Failure;
pub use mark::Mark;
pub use refusal::Refusal;
pub use term::Term;
pub use weights::weight;
