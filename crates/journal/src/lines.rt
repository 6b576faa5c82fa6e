// Single lines: how an update lies in one, and whether one can be a part of an entry.
ghost use Rattle.std.specs.Prelude.{◌≡◌, ◌&&◌};
ghost use Rattle.model.specs.Journal.{entry_line, update_in, line_fits, begins, same_update, word, within, max_place, station_count};

use super::limits::{MAX_LINES, MAX_PLACE, MAX_RUN, STATIONS};
use book::Op;
use model::Update;

// Line t of an entry for `place` that has this many lines.
pub fn entry_line(place: u64, lines: u64, t: u64, update: Update) -> [u64; 8]
    ensures { result ≡ entry_line place lines t update }
{
    [
        place.saturating_sub(t),
        lines,
        t,
        update.station,
        update.call,
        update.op.code,
        update.op.argument,
        update.run,
    ]
}

pub fn update_in(line: [u64; 8]) -> Update
    ensures { result ≡ update_in line }
{
    Update {
        run: line[7],
        station: line[3],
        call: line[4],
        op: Op {
            code: line[5],
            argument: line[6],
        },
    }
}

// The station and the call number are within their limits.
fn identity_fits(line: [u64; 8]) -> bool
    ensures { result ≡ (within 1 (word line 3) station_count && within 1 (word line 4) max_place) }
{
    (1..=STATIONS).contains(&line[3]) && (1..=MAX_PLACE).contains(&line[4])
}

// A line is line t of an entry for `place` that has this many lines and this mark.
pub(crate) fn line_fits(line: [u64; 8], place: u64, lines: u64, mark: u64, t: u64) -> bool
    ensures { result ≡ line_fits place lines mark t line }
{
    t < place
        && line[0] == place - t
        && line[1] == lines
        && line[2] == t
        && identity_fits(line)
        && line[7] == mark
}

// A line can be the first of an entry in the log of `owner`.
pub(crate) fn begins(owner: u64, line: [u64; 8]) -> bool
    ensures { result ≡ begins owner line }
{
    (1..=MAX_LINES).contains(&line[1])
        && line[0] <= MAX_PLACE
        && line[3] == owner
        && (1..=MAX_RUN).contains(&line[7])
}

// Two lines carry the same update with the same identity.
pub(crate) fn same_update(a: [u64; 8], b: [u64; 8]) -> bool
    ensures { result ≡ same_update a b }
{
    update_in(a) == update_in(b)
}
