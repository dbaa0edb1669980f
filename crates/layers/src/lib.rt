// What lies over any source and is a source again: the complement and the cofactor.
#![tactic(auto)]

pub mod cofactor;
pub mod complement;
pub mod setting;

// Each layer has its own `below` and `into_below`: a trait for the two would serve no caller, since none takes either layer.
pub use cofactor::Cofactor;
pub use complement::Complement;
pub use setting::Setting;
