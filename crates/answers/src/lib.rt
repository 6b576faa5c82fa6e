// The answers that are printed, one a line.
#![tactic(auto)]

mod display;
mod types;

pub use types::{Answer, Decimal, Reply};
