// A booking is written to a line with its mark stored last, and the power is cut after each number of stores that the
// line may keep.
#![tactic(auto)]

mod booking;
mod record;
mod trials;

use std::io;

fn main(rt: HostRuntime) -> io::Result<()> {
    trials::all(&rt)
}
