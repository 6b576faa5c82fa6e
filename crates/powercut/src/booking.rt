use std::fmt;

// A booking as it lies in the words of a line.
#[derive(Clone, Copy)]
pub struct Booking {
    pub number: u64,
    pub container: u64,
    pub slot: u64,
}

impl fmt::Display for Booking {
    fn fmt<W: fmt::Write>(&self, f: &mut fmt::Formatter<W>) -> fmt::Result {
        let number = self.number;
        let container = self.container;
        let slot = self.slot;
        write!(f, "reservation {number} of slot {slot} for box {container}")
    }
}
