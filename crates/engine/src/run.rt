ghost use Rattle.std.specs.Prelude.{◌≡◌, ℕ, List, [], replicate, OnErr};
ghost use Rattle.model.specs.Machine.{idle_station, rising, left, allowed};
ghost use Rattle.model.specs.Journal.{station_count};
ghost use Rattle.model.specs.declared.types.Status.TheVariants.{Shut};
ghost use Rattle.engine.specs.View.{view};

use super::types::{Run, Table};
use book::Book;
use memory::Memory;
use model::{Refusal, Rise, Station, Status};
use order::Order;

// The table of a run whose start was refused.
pub(crate) fn shut(refusal: Refusal) -> Table
    ensures status { result.status ≡ Shut refusal }
    ensures number { result.number ≡ 0 }
    ensures order { result.order ≡ [] }
    ensures stations { result.stations ≡ replicate station_count (idle_station 0) }
{
    Table {
        stations: [Station::default(); 8],
        order: Order::new(),
        number: 0,
        status: Status::Shut(refusal),
    }
}

impl<M: Memory, B: Book> Run<M, B> {
    // Carries a rising run one step further.
    pub(crate) fn rise_once(&mut self) -> Result<(), Refusal>
        ensures answer { result ≡ (rising (view M.Memory.model B.Book.rules B.Book.state self.old) self.old.table.status).answer }
        ensures leaves { (ns : List ℕ) × allowed M.Memory.freedom (rising (view M.Memory.model B.Book.rules B.Book.state self.old) self.old.table.status).touch (M.Memory.model self.old.memory) ns × (view M.Memory.model B.Book.rules B.Book.state self.new ≡ left (rising (view M.Memory.model B.Book.rules B.Book.state self.old) self.old.table.status) ns) }
        ensures aside { M.Memory.aside self.new.memory ≡ M.Memory.aside self.old.memory }
        ensures same { OnErr result (self.new ≡ self.old) }
    {
        match self.table.status {
            Status::Shut(refusal) => Err(refusal),
            Status::Up => Err(Refusal::NotRising),
            Status::Rising(Rise::Store) => {
                self.memory.store(0, 0, self.table.number);
                self.table.status = Status::Rising(Rise::WriteBack);
                Ok(())
            }
            Status::Rising(Rise::WriteBack) => {
                self.memory.write_back(0);
                self.table.status = Status::Rising(Rise::Fence);
                Ok(())
            }
            Status::Rising(Rise::Fence) => {
                self.memory.fence();
                self.table.status = Status::Up;
                Ok(())
            }
        }
    }
}
