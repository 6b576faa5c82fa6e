// What a start finds in a memory: the questions that it asks, the order and the stations.
#![tactic(auto)]

mod reading;
mod types;

pub use reading::recover;
pub use types::Recovered;
