// The order of a run: updates at the places 1, 2, 3 and on, each with a flag.
#![tactic(auto)]

mod methods;
mod replay;
mod types;

pub use types::Order;
