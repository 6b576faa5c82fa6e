// The forms of a script, what they stand for, and their plain spelling.
#![tactic(auto)]

mod display;
mod meaning;
mod named;
mod types;

pub use named::Named;
pub use types::{BookKind, Form, MemoryKind, Pair, Pairs, Request};
