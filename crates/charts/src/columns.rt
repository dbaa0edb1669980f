// Sets of columns.
use fixed::FixedSet;

pub mod methods;

// The columns of a chart that are chosen; a chart has at most 256.
pub type ColumnSet = FixedSet<256>;
