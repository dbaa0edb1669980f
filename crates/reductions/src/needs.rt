// Sets of needs.
use fixed::FixedSet;

pub mod methods;

pub use methods::open_needs;

// Some of the needs of a chart, which has at most 1,280.
pub type NeedSet = FixedSet<1280>;
