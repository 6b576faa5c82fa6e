// Entries of several stations are laid down in a memory, some whole and some cut short, and read back.
#![tactic(auto)]

mod laying;
mod report;

use book::TallyRequest;
use laying::lay;
use memory::{Lazy, LineRec, Memory};
use model::Update;
use std::io;

// The smallest memory: line 0, and eight logs of eight lines.
const LINES: usize = 65;

// An addition of n to a tally, the first call of a station in run 1.
fn adds(station: u64, n: u64) -> Update {
    Update {
        run: 1,
        station,
        call: 1,
        op: TallyRequest::Add { amount: n }.into(),
    }
}

fn main(rt: HostRuntime) -> io::Result<()> {
    let mut lines = [LineRec::new([0; 8]); LINES];
    let mut memory = Lazy::blank(&mut lines);
    let first = adds(1, 5);
    let second = adds(3, 6);
    let third = adds(2, 7);
    let fourth = adds(4, 8);
    // Station 1 wrote its own place; station 2 its own, the third, with the two below it.
    lay(&mut memory, 1, 1, &[first]);
    lay(&mut memory, 2, 3, &[third, second, first]);
    memory.fence();
    // The power goes while stations 3 and 4 write: 3's line keeps eight of its nine stores, 4's first line keeps all,
    // its second five.
    lay(&mut memory, 3, 2, &[second]);
    lay(&mut memory, 4, 4, &[fourth, third]);
    let mut kept = [0; LINES];
    kept[17] = 8;
    kept[25] = 9;
    kept[26] = 5;
    memory.cut(&kept);
    report::logs(&rt, &memory)?;
    report::places(&rt, &memory)
}
