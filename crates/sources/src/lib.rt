// Where switching functions come from: the interface, the truth table and the term list.
#![tactic(auto)]

pub mod call;
pub mod sequence;
pub mod source;
pub mod term_list;
pub mod truth_table;

pub use call::{Call, Outcome};
pub use sequence::run_calls;
pub use source::Source;
pub use term_list::TermList;
pub use truth_table::TruthTable;
