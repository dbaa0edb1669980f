// Lists and sets of a fixed size, without a heap.
#![tactic(auto)]

pub mod list;
pub mod set;

pub use list::FixedList;
pub use set::FixedSet;
