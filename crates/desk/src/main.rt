// A day at the booking desk: each action and its reply, a line each.
#![tactic(auto)]

mod day;
mod lines;

use std::io;

fn main(rt: HostRuntime) -> io::Result<()> {
    day::bookings(&rt)?;
    day::tally(&rt)
}
