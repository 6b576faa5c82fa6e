use book::Op;
use journal::{entry_count, find_place, last_place, update_in, used_lines};
use memory::Memory;
use model::Update;
use std::{fmt, io};

// An update as the report tells it.
#[derive(Drop)]
struct Told(Update);

impl fmt::Display for Told {
    fn fmt<W: fmt::Write>(&self, f: &mut fmt::Formatter<W>) -> fmt::Result {
        let Update {
            run,
            station,
            call,
            op: Op { code, argument },
        } = self.0;
        write!(
            f,
            "run {run}, station {station}, call {call}, code {code}, argument {argument}"
        )
    }
}

// What each log holds.
pub(super) fn logs<M: Memory>(rt: &impl Print, memory: &M) -> io::Result<()> {
    for station in 1..=8 {
        let entries = entry_count(memory, station);
        let used = used_lines(memory, station);
        println!(rt; "log {station}: entries {entries}, used lines {used}")?;
    }
    Ok(())
}

// The greatest place, and each place with its update.
pub(super) fn places<M: Memory>(rt: &impl Print, memory: &M) -> io::Result<()> {
    let last = last_place(memory);
    println!(rt; "the greatest place is {last}")?;
    for place in 1..=last {
        match find_place(memory, place) {
            Some(line) => println!(rt; "place {place}: {}", Told(update_in(line)))?,
            None => println!(rt; "place {place}: missing")?,
        }
    }
    Ok(())
}
