// The best set of columns of a chart under any cost order.
#![tactic(auto)]

mod choosing;
mod earliest;
mod floor;
mod looking;
pub mod quest;
pub mod searching;
mod seeking;
pub mod turn;

pub use searching::search;
