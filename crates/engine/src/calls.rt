// The calls of a run.
ghost use Rattle.std.specs.Prelude.{◌≡◌, ℕ, List, length, OnErr};
ghost use Rattle.memory.specs.Model.{cut};
ghost use Rattle.model.specs.Machine.{started, start_answer, rising, left, allowed, found};
ghost use Rattle.model.specs.History.{Moment};
ghost use Rattle.model.specs.History.World.{resting, running};
ghost use Rattle.engine.specs.View.{view};
ghost use Rattle.engine.specs.Onward.{Onward};

use super::run::shut;
use super::types::{Run, Table};
use book::Book;
use memory::Memory;
use model::{Refusal, Rise, Started, Status};
use recovery::{Recovered, recover};

impl<M: Memory, B: Book> Run<M, B> {
    // Makes a run of a memory and a book, and tells its number and how many updates it found. A refused start makes a shut
    // run.
    #[tactic(auto, using(crate::proofs::Going::start_onward))]
    pub fn start(memory: M, mut book: B) -> (Self, Result<Started, Refusal>)
        ensures run { view M.Memory.model B.Book.rules B.Book.state result.0 ≡ started (B.Book.rules book) (M.Memory.model memory) }
        ensures answer { result.1 ≡ start_answer (view M.Memory.model B.Book.rules B.Book.state result.0) result.0.table.status }
        ensures memory { result.0.memory ≡ memory }
        ensures lasting { Onward (B.Book.rules book) (resting (M.Memory.model memory)) (Moment.started result.1) (running (view M.Memory.model B.Book.rules B.Book.state result.0)) }
    {
        book.reset();
        match recover(&memory, &book) {
            Ok(found) => {
                let Recovered {
                    run,
                    order,
                    stations,
                } = found;
                let started = Started {
                    run,
                    found: order.len(),
                };
                let table = Table {
                    stations,
                    order,
                    number: run,
                    status: Status::Rising(Rise::Store),
                };
                let run = Run {
                    memory,
                    book,
                    table,
                };
                (run, Ok(started))
            }
            Err(refusal) => {
                let table = shut(refusal);
                let run = Run {
                    memory,
                    book,
                    table,
                };
                (run, Err(refusal))
            }
        }
    }

    // Carries a rising run one step further, until it is up.
    pub fn rise(&mut self) -> Result<(), Refusal>
        ensures answer { result ≡ (rising (view M.Memory.model B.Book.rules B.Book.state self.old) self.old.table.status).answer }
        ensures leaves { (ns : List ℕ) × allowed M.Memory.freedom (rising (view M.Memory.model B.Book.rules B.Book.state self.old) self.old.table.status).touch (M.Memory.model self.old.memory) ns × (view M.Memory.model B.Book.rules B.Book.state self.new ≡ left (rising (view M.Memory.model B.Book.rules B.Book.state self.old) self.old.table.status) ns) }
        ensures aside { M.Memory.aside self.new.memory ≡ M.Memory.aside self.old.memory }
        ensures same { OnErr result (self.new ≡ self.old) }
        ensures lasting { Onward (B.Book.rules self.old.book) (running (view M.Memory.model B.Book.rules B.Book.state self.old)) (Moment.risen result) (running (view M.Memory.model B.Book.rules B.Book.state self.new)) }
    {
        self.rise_once()
    }
}

impl<M: Memory, B: Book + Drop> Run<M, B> {
    // Uses up the run and gives back its memory, cut.
    pub fn cut(self, kept: &[u8]) -> M
        ensures cut { (ns : List ℕ) × M.Memory.freedom.kept_by (M.Memory.model self.memory) kept.now ns × (M.Memory.model result ≡ cut ns (M.Memory.model self.memory)) }
        ensures aside { M.Memory.aside result ≡ M.Memory.aside self.memory }
        ensures lasting { Onward (B.Book.rules self.book) (running (view M.Memory.model B.Book.rules B.Book.state self)) (Moment.cut (length (found (M.Memory.model result)))) (resting (M.Memory.model result)) }
    {
        let Run {
            memory,
            book: _,
            table: _,
        } = self;
        let mut memory = memory;
        memory.cut(kept);
        memory
    }
}
