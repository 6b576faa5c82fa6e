ghost use Rattle.std.specs.Prelude.{◌≡◌, ◌≤◌, map};
ghost use Rattle.model.specs.Journal.{max_place, logs, log_entries, last_place};
ghost use Rattle.model.specs.Machine.{right_size, fresh_station};
ghost use Rattle.recovery.specs.Recovering.{PlaceRead, OrderRead, Recovers};

use super::types::Recovered;
use book::{Book, Sort};
use journal::{agrees, find_place, last_place, log_length, update_in, used_lines};
use memory::Memory;
use model::{Node, Refusal, Station, Update};
use order::Order;
use std::array;

// A memory has a line for the run's number and eight logs of 8 to 64 lines.
fn right_size<M: Memory>(memory: &M) -> bool
    ensures { result ≡ right_size (M.Memory.model memory.now) }
{
    let length = log_length(memory);
    (8..=64).contains(&length) && memory.line_count() == 1 + 8 * length
}

// A station as a start finds it.
fn fresh<M: Memory>(memory: &M, station: u64) -> Station
    ensures { result ≡ fresh_station (log_entries (M.Memory.model memory.now) station) }
{
    Station {
        used: used_lines(memory, station) as u64,
        ..Station::default()
    }
}

fn fresh_stations<M: Memory>(memory: &M) -> [Station; 8]
    ensures { result ≡ map fresh_station (logs (M.Memory.model memory.now)) }
{
    array::from_fn(|i| fresh(memory, i as u64 + 1))
}

// The update that the entries hold for a place.
fn update_at<M: Memory, B: Book>(memory: &M, book: &B, place: u64) -> Result<Update, Refusal>
    ensures { PlaceRead (B.Book.rules book.now) (logs (M.Memory.model memory.now)) place result }
{
    let line = find_place(memory, place).ok_or(Refusal::MissingPlace(place))?;
    if !agrees(memory, place, line) {
        return Err(Refusal::Disagreement(place));
    }
    let update = update_in(line);
    match book.sort(update.op) {
        Sort::Update => Ok(update),
        Sort::Query => Err(Refusal::NotAnUpdate(place)),
        Sort::Neither => Err(Refusal::NotAnUpdate(place)),
    }
}

// The updates at the first `count` places, all flagged.
#[tactic(auto, using(crate::proofs::Onward::passed_none, crate::proofs::Onward::passed_all))]
fn read_order<M: Memory, B: Book>(memory: &M, book: &B, count: u64) -> Result<Order, Refusal>
    requires { count ≤ max_place }
    ensures { OrderRead (B.Book.rules book.now) (logs (M.Memory.model memory.now)) count result }
{
    let mut order = Order::new();
    for place in 1..=count {
        let update = update_at(memory, book, place)?;
        order.push(Node {
            update,
            flagged: true,
        })?;
    }
    Ok(order)
}

// The greatest place that is found, which is one of an order.
#[tactic(auto, using(crate::proofs::Limits::last_within))]
fn places_found<M: Memory>(memory: &M) -> u64
    ensures value { result ≡ last_place (M.Memory.model memory.now) }
    ensures within { result ≤ max_place }
{
    last_place(memory)
}

// What a start finds, or the first question that is answered by no.
pub fn recover<M: Memory, B: Book>(memory: &M, book: &B) -> Result<Recovered, Refusal>
    ensures { Recovers (B.Book.rules book.now) (M.Memory.model memory.now) result }
{
    if !right_size(memory) {
        return Err(Refusal::LineCount);
    }
    let newest = memory.load(0, 0);
    if newest >= 65_535 {
        return Err(Refusal::RunNumber);
    }
    let order = read_order(memory, book, places_found(memory))?;
    Ok(Recovered {
        run: newest + 1,
        order,
        stations: fresh_stations(memory),
    })
}
