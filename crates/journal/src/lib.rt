// The journal: how entries are read from the logs of a memory.
#![tactic(auto)]

ghost use Rattle.model.specs.Journal.{ReadsBack};
ghost use Rattle.journal.specs.Laws.{LaysDown, LoadsDecide};

mod entries;
mod limits;
mod lines;
mod logs;
mod parts;
mod places;

pub use entries::stands;
pub use lines::{entry_line, update_in};
pub use logs::{entry_count, last_place, log_length, log_start, used_lines};
pub use places::{agrees, find_place};

// The lines of an entry are read back as the same updates, and reading goes on behind them; laid at the free lines of a
// log, they are read behind what was there.
pub fn reads_back()
    ensures alone { ReadsBack }
    ensures behind { LaysDown }
{}

// Memories that load alike at every line are read alike.
pub fn loads_decide()
    ensures { LoadsDecide }
{}
