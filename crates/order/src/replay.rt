// Replays of an order on a book.
ghost use Rattle.std.specs.Prelude.{◌≡◌, length, if◌then◌else◌, Some, None};
ghost use Rattle.book.specs.Rules.{ask_reply};
ghost use Rattle.model.specs.Journal.{within};
ghost use Rattle.model.specs.Machine.{state_after, reply_at};

use super::types::Order;
use book::{Book, Op};

impl Order {
    // Brings the book to the state after the first `count` updates, or after all if there are fewer.
    #[tactic(auto, using(crate::proofs::Replays::state_more, crate::proofs::Replays::state_all))]
    pub fn replay<B: Book>(&self, book: &mut B, count: u64)
        ensures fixed { B.Book.rules book.new ≡ B.Book.rules book.old }
        ensures after { B.Book.state book.new ≡ state_after (B.Book.rules book.old) self.now count }
    {
        book.reset();
        for node in self.first(count) {
            let _ = book.apply(node.update.op);
        }
    }

    // Brings the book to the state after the first `place` updates, and asks it.
    pub fn ask_at<B: Book>(&self, book: &mut B, place: u64, op: Op) -> (u64, u64)
        ensures fixed { B.Book.rules book.new ≡ B.Book.rules book.old }
        ensures after { B.Book.state book.new ≡ state_after (B.Book.rules book.old) self.now place }
        ensures reply { result ≡ ask_reply (B.Book.rules book.old) (state_after (B.Book.rules book.old) self.now place) op }
    {
        self.replay(book, place);
        book.ask(op)
    }

    // The reply of the update at a place, which brings the book to the state after it. Nothing is done at a place that is
    // not there.
    #[tactic(auto, using(crate::proofs::Replays::state_at))]
    pub fn reply_at<B: Book>(&self, book: &mut B, place: u64) -> Option<(u64, u64)>
        ensures fixed { B.Book.rules book.new ≡ B.Book.rules book.old }
        ensures after { B.Book.state book.new ≡ (if within 1 place (length self.now) then state_after (B.Book.rules book.old) self.now place else B.Book.state book.old) }
        ensures reply { result ≡ (if within 1 place (length self.now) then Some (reply_at (B.Book.rules book.old) self.now place) else None) }
    {
        if place < 1 || self.len() < place {
            return None;
        }
        self.replay(book, place - 1);
        Some(book.apply(self.node(place).update.op))
    }
}
