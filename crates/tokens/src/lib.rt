// The lines of a script, and the tokens of a line.
#![tactic(auto)]

mod lexer;
mod lines;
mod number;
mod types;

pub use lexer::Lexer;
pub use lines::Lines;
pub use number::number_of;
pub use types::{Class, Fault, Token};
