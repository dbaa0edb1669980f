// Covering charts, sets of their columns and what a set costs.
#![tactic(auto)]

pub mod chart;
pub mod columns;
pub mod valued;

pub use chart::Chart;
pub use columns::ColumnSet;
pub use valued::{Valued, is_better, is_fine, no_dearer, value_of};
