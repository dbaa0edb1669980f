// Cost orders: the interface with its laws, and the three orders.
#![tactic(auto)]

pub mod any;
pub mod costing;
pub mod count;
pub mod longest;
pub mod order;
pub mod price;

pub use any::AnyOrder;
pub use costing::{cost, lawful_orders};
pub use count::Count;
pub use longest::Longest;
pub use order::CostOrder;
pub use price::Price;
