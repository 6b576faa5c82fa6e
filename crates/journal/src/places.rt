// Places: the lines that hold one, and whether they agree.
ghost use Rattle.std.specs.Prelude.{◌≡◌};
ghost use Rattle.model.specs.Journal.{logs, log_entries, holding, holding_entries, holding_lines, agree};
ghost use Rattle.journal.specs.Places.{first};

use super::limits::STATIONS;
use super::lines::same_update;
use super::logs::log_entries;
use super::parts::Part;
use memory::Memory;

// The first of these lines that holds a place.
fn line_for<M: Memory>(lines: Part<M>, place: u64) -> Option<[u64; 8]>
    ensures { result ≡ first (holding_lines place lines.entry) }
{
    for line in lines {
        if line[0] == place {
            return Some(line);
        }
    }
    None
}

// The first line that holds a place, in the order of the logs.
#[tactic(auto, using(crate::proofs::Marking::logs_more))]
pub fn find_place<M: Memory>(memory: &M, place: u64) -> Option<[u64; 8]>
    ensures { result ≡ first (holding place (logs (M.Memory.model memory.now))) }
{
    'search: {
        for station in 1..=STATIONS {
            for entry in log_entries(memory, station) {
                if let Some(line) = line_for(entry.lines, place) {
                    break 'search Some(line);
                }
            }
        }
        None
    }
}

// Each of these lines that holds a place carries the same update as `line`.
fn lines_agree<M: Memory>(lines: Part<M>, place: u64, line: [u64; 8]) -> bool
    ensures { result ≡ agree line (holding_lines place lines.entry) }
{
    for held in lines {
        if held[0] == place && !same_update(line, held) {
            return false;
        }
    }
    true
}

// The same of each entry of a station's log.
#[tactic(auto, using(crate::proofs::Keeping::agree_both))]
fn log_agrees<M: Memory>(memory: &M, station: u64, place: u64, line: [u64; 8]) -> bool
    ensures { result ≡ agree line (holding_entries place (log_entries (M.Memory.model memory.now) station)) }
{
    for entry in log_entries(memory, station) {
        if !lines_agree(entry.lines, place, line) {
            return false;
        }
    }
    true
}

// Each line that holds a place, in any log, carries the same update as `line`.
#[tactic(auto, using(crate::proofs::Marking::logs_more, crate::proofs::Keeping::agree_both))]
pub fn agrees<M: Memory>(memory: &M, place: u64, line: [u64; 8]) -> bool
    ensures { result ≡ agree line (holding place (logs (M.Memory.model memory.now))) }
{
    for station in 1..=STATIONS {
        if !log_agrees(memory, station, place, line) {
            return false;
        }
    }
    true
}
