// The run.
#![tactic(auto)]

mod calls;
mod run;
mod types;

pub use types::{Run, Table};
