// The limits of the journal.
pub const MAX_RUN: u64 = 65_535;
// Of a place, and of a call number.
pub const MAX_PLACE: u64 = 256;

pub const STATIONS: u64 = 8;
// Of the lines of an entry.
pub const MAX_LINES: u64 = 8;
