// The logs of the stations, and what is read from one or all of them.
ghost use Rattle.std.specs.Prelude.{◌≡◌, ◌+◌, ◌-◌, ◌*◌, ◌^◌, ◌<◌, ◌≤◌, min, max, length, fold};
ghost use Rattle.model.specs.Journal.{log_length, log_start, log_of, entries, log_entries, used_lines, last_place, station_count};

use super::entries::Entries;
use super::limits::STATIONS;
use super::parts::Part;
use memory::Memory;

// How many lines each log has.
pub fn log_length<M: Memory>(memory: &M) -> usize
    ensures { result ≡ log_length (M.Memory.model memory.now) }
{
    memory.line_count().saturating_sub(1) / STATIONS as usize
}

// Where a station's log begins if each log has `length` lines, or the greatest number where that is no number of a line.
fn start_of(length: usize, station: u64) -> usize
    ensures { result ≡ min (1 + (station - 1) * length) (2 ^ 64 - 1) }
{
    let before = station.saturating_sub(1) as usize;
    before.saturating_mul(length).saturating_add(1)
}

// The first line of a station's log. Past the eighth station it is at most the number of lines.
#[tactic(auto, using(crate::proofs::Marking::start_is))]
pub fn log_start<M: Memory>(memory: &M, station: u64) -> usize
    ensures value { result ≡ min (log_start (log_length (M.Memory.model memory.now)) station) (length (M.Memory.model memory.now).lines) }
    ensures exact { station ≤ station_count → 1 ≤ length (M.Memory.model memory.now).lines → result ≡ log_start (log_length (M.Memory.model memory.now)) station }
{
    start_of(log_length(memory), station).min(memory.line_count())
}

// The entries of a station's log.
#[tactic(auto, using(crate::proofs::Marking::log_is))]
pub(crate) fn log_entries<M: Memory>(memory: &M, station: u64) -> Entries<'_, M>
    ensures owner { result.owner ≡ station }
    ensures lines { result.lines ≡ log_of (M.Memory.model memory.now) (log_length (M.Memory.model memory.now)) station }
    ensures read { entries result.owner 0 result.lines ≡ log_entries (M.Memory.model memory.now) station }
    ensures short { length result.lines < 2 ^ 64 }
{
    let mut lines = Part::starting_at(memory, log_start(memory, station));
    Entries {
        owner: station,
        lines: lines.split_front(log_length(memory)),
    }
}

// How many lines of a station's log its entries use; the lines behind them are free.
#[tactic(auto, using(crate::proofs::Counting::used_within))]
pub fn used_lines<M: Memory>(memory: &M, station: u64) -> usize
    ensures { result ≡ used_lines (log_entries (M.Memory.model memory.now) station) }
{
    let mut used = 0;
    for entry in log_entries(memory, station) {
        used += entry.lines.len();
    }
    used
}

// How many entries a station's log has.
#[tactic(auto, using(crate::proofs::Counting::count_within))]
pub fn entry_count<M: Memory>(memory: &M, station: u64) -> usize
    ensures { result ≡ length (log_entries (M.Memory.model memory.now) station) }
{
    log_entries(memory, station).count()
}

// The greatest of `least` and the places that the entries of a station's log stand for.
fn greatest_place<M: Memory>(memory: &M, station: u64, least: u64) -> u64
    ensures { result ≡ fold (λ n f. max n f.place) least (log_entries (M.Memory.model memory.now) station) }
{
    log_entries(memory, station).fold(least, |greatest, entry| greatest.max(entry.place))
}

// The greatest place that an entry of any log stands for, 0 where there is none.
#[tactic(auto, using(crate::proofs::Marking::logs_more))]
pub fn last_place<M: Memory>(memory: &M) -> u64
    ensures { result ≡ last_place (M.Memory.model memory.now) }
{
    let mut greatest = 0;
    for station in 1..=STATIONS {
        greatest = greatest_place(memory, station, greatest);
    }
    greatest
}
