use super::booking::Booking;
use super::record;
use memory::{Cell, Lent, LineRec, Memory};
use std::io;

const BOOKING: Booking = Booking {
    number: 17,
    container: 700,
    slot: 3,
};

// How many stores a booking takes.
const STORES: u8 = 4;

// One line: what was kept, what lies on the line, and what that means.
fn report<M: Memory>(
    rt: &impl Print,
    memory: &M,
    kept: u8,
    found: Option<Booking>,
) -> io::Result<()> {
    let number = memory.load(0, 0);
    let container = memory.load(0, 1);
    let slot = memory.load(0, 2);
    let mark = memory.load(0, 7);
    print!(rt; "keeps {kept}: words {number} {container} {slot}, mark {mark}: ")?;
    match found {
        Some(booking) => println!(rt; "{booking}"),
        None => println!(rt; "no booking"),
    }
}

// A booking is tried on blank cells, once for each number of stores that the line may keep.
fn trial<C: Cell + Copy, F: Fn(&mut Lent<C>, u8) -> Option<Booking>, const N: usize>(
    rt: &impl Print,
    title: &str,
    blank: [C; N],
    attempt: F,
) -> io::Result<()>
    requires { F.IsAlwaysCallable attempt }
{
    println!(rt; "{title}")?;
    for kept in 0..=STORES {
        let mut cells = blank;
        let mut memory = Lent::blank(&mut cells);
        let found = attempt(&mut memory, kept);
        report(rt, &memory, kept, found)?;
    }
    Ok(())
}

pub(super) fn all(rt: &impl Print) -> io::Result<()> {
    let lines = [LineRec::new([0; 8]); 1];
    trial(rt, "lazy memory, no fence", lines, |memory, kept| {
        record::unfenced(memory, BOOKING, &[kept])
    })?;
    trial(
        rt,
        "lazy memory, write-back and fence before the cut",
        lines,
        |memory, kept| record::fenced(memory, BOOKING, &[kept]),
    )?;
    trial(
        rt,
        "memory that writes through, no fence",
        [0u64; 8],
        |memory, kept| record::unfenced(memory, BOOKING, &[kept]),
    )
}
