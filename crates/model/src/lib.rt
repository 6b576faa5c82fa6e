// What a run is: its plain types, the journal's format, and what each call does.
#![tactic(auto)]

ghost use Rattle.std.specs.Prelude.{◌≡◌};
ghost use Rattle.model.specs.Examples.{Worked};
ghost use Rattle.model.specs.Law.{Lasting};
ghost use Rattle.model.specs.Machine.{named, identity_of};

mod types;

use book::Book;
pub use types::{
    Call, Identity, Node, Outcome, Phase, QueryPhase, Refusal, Replied, Rise, Started, Station,
    Status, Update,
};

impl Update {
    pub fn identity(&self) -> Identity
        ensures { result ≡ identity_of self.now }
    {
        Identity {
            run: self.run,
            station: self.station,
            call: self.call,
        }
    }
}

impl Refusal {
    // Its number, and the detail that it carries, or 0.
    pub fn named(self) -> (u64, u64)
        ensures { result ≡ named self }
    {
        match self {
            Refusal::LineCount => (1, 0),
            Refusal::RunNumber => (2, 0),
            Refusal::MissingPlace(place) => (3, place),
            Refusal::Disagreement(place) => (4, place),
            Refusal::NotAnUpdate(place) => (5, place),
            Refusal::NotRising => (6, 0),
            Refusal::NoStation => (7, 0),
            Refusal::NotUp => (8, 0),
            Refusal::Busy => (9, 0),
            Refusal::NoSort => (10, 0),
            Refusal::OrderFull => (11, 0),
            Refusal::LogFull => (12, 0),
            Refusal::NoCall => (13, 0),
            Refusal::NoIdentity => (14, 0),
        }
    }
}

// The examples that the definitions compute.
#[tactic(auto, using(crate::proofs::Examples::worked))]
pub fn worked_examples()
    ensures { Worked }
{}

// The law: what holds after every list of starts, rises, calls, steps, outcomes and cuts, for books of the same rules.
#[tactic(auto, using(crate::proofs::Lasting::lasting))]
pub fn lasts<B: Book>(book: &B)
    ensures { Lasting (B.Book.rules book.now) }
{}
