// The reader of a script's lines.
#![tactic(auto)]

ghost use Rattle.script.specs.Laws.{ReadsExactly, ReadsBack};

mod expect;
mod reader;

pub use reader::read_line;

// What forms, tokens and answers are, stands in crates of their own.
pub use answers::{Answer, Decimal, Reply};
pub use forms::{BookKind, Form, MemoryKind, Named, Pair, Pairs, Request};
pub use tokens::{Class, Fault, Lexer, Lines, Token, number_of};

// A line is read as a form that has its tokens, or has its fault at the first token that no form goes on with.
#[tactic(auto, using(crate::proofs::Exact::reads_exactly))]
pub fn reads_exactly()
    ensures { ReadsExactly }
{}

// A form in its plain spelling is read as the same form.
#[tactic(auto, using(crate::proofs::Spelled::reads_back))]
pub fn reads_back()
    ensures { ReadsBack }
{}
