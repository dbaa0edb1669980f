// What may be asked of a set of columns: the methods of every fixed set.
pub use fixed::FixedSet;
