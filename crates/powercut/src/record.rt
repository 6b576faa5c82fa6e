ghost use Rattle.std.specs.Prelude.{◌≡◌, ℕ, List, Some};
ghost use Rattle.memory.specs.Model.{loaded_line};
ghost use Rattle.memory.specs.Laws.{after};
ghost use Rattle.powercut.specs.Record.{found_in, stores, BlankFirst, WholeOrNothing};

use super::booking::Booking;
use memory::Memory;

const MARK: u64 = 1;

// Stores the booking on line 0, its mark last.
fn write<M: Memory>(memory: &mut M, booking: Booking)
    ensures { (n₁ n₂ n₃ n₄ : List ℕ) × (M.Memory.model memory.new ≡ after (stores booking n₁ n₂ n₃ n₄) (M.Memory.model memory.old)) }
{
    memory.store(0, 0, booking.number);
    memory.store(0, 1, booking.container);
    memory.store(0, 2, booking.slot);
    memory.store(0, 7, MARK);
}

// The booking on line 0, if its mark is there.
fn find<M: Memory>(memory: &M) -> Option<Booking>
    ensures { result ≡ found_in (loaded_line (M.Memory.model memory.now) 0) }
{
    let words = memory.load_line(0);
    if words[7] == MARK {
        Some(Booking {
            number: words[0],
            container: words[1],
            slot: words[2],
        })
    } else {
        None
    }
}

// Writes a booking, cuts the power, and looks for it: on a blank line the booking is whole, or nothing is found.
pub(super) fn unfenced<M: Memory>(memory: &mut M, booking: Booking, kept: &[u8]) -> Option<Booking>
    ensures { BlankFirst (M.Memory.model memory.old) → WholeOrNothing booking result }
{
    write(memory, booking);
    memory.cut(kept);
    find(memory)
}

// The same with a write-back and a fence before the cut: on a blank line the booking is found.
pub(super) fn fenced<M: Memory>(memory: &mut M, booking: Booking, kept: &[u8]) -> Option<Booking>
    ensures { BlankFirst (M.Memory.model memory.old) → result ≡ Some booking }
{
    write(memory, booking);
    memory.write_back(0);
    memory.fence();
    memory.cut(kept);
    find(memory)
}
