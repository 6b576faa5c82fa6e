// Books: objects whose whole behaviour is a state, the sort of each operation, the next state and the reply.
#![tactic(auto)]

ghost use Rattle.std.specs.Prelude.{◌≡◌};
ghost use Rattle.book.specs.Rules.{Rules, sort_number, applied, apply_reply, ask_reply};

mod slots;
mod tally;
#[cfg(test)]
mod tests;
mod types;

pub use types::{Op, Reservation, Slots, SlotsRequest, Sort, Tally, TallyRequest, UnknownOp};

// The reply to an operation of the wrong sort.
pub const WRONG_SORT: (u64, u64) = (255, 0);

pub trait Book {
    // What a state of the book is.
    ghost State: { Type 0 };

    // The fixed part: every method keeps it.
    ghost rules: { Self → Rules State };

    // The present state.
    ghost state: { Self → State };

    // Brings the first state.
    fn reset(&mut self)
        ensures fixed { rules self.new ≡ rules self.old }
        ensures first { state self.new ≡ (rules self.old).first };

    // Tells an operation's sort.
    fn sort(&self, op: Op) -> Sort
        ensures { result ≡ (rules self.now).sort op };

    // Makes an update, and replies with kind and value. Any other operation is of the wrong sort, and changes nothing.
    fn apply(&mut self, op: Op) -> (u64, u64)
        ensures fixed { rules self.new ≡ rules self.old }
        ensures next { state self.new ≡ applied (rules self.old) (state self.old) op }
        ensures reply { result ≡ apply_reply (rules self.old) (state self.old) op };

    // Replies to a query with kind and value, and keeps the state. Any other operation is of the wrong sort.
    fn ask(&mut self, op: Op) -> (u64, u64)
        ensures fixed { rules self.new ≡ rules self.old }
        ensures same { state self.new ≡ state self.old }
        ensures reply { result ≡ ask_reply (rules self.old) (state self.old) op };
}

// 1 for an update, 2 for a query, 0 for neither.
impl From<Sort> for u64 {
    ghost from_gives = { λ sort n. n ≡ sort_number sort };

    fn from(sort: Sort) -> u64 {
        match sort {
            Sort::Update => 1,
            Sort::Query => 2,
            Sort::Neither => 0,
        }
    }
}
