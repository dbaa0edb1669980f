// The trail of a covering search, and the reductions at a node: columns that must be taken and columns that can be done without.
#![tactic(auto)]

pub mod columns_left;
pub mod needs;
pub mod node;
pub mod reducing;
pub mod spare;
pub mod step;
pub mod trail;

pub use columns_left::{held_by, is_left};
pub use needs::{NeedSet, open_needs};
pub use node::Node;
pub use reducing::reduce;
pub use step::Step;
pub use trail::Trail;
