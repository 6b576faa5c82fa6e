use book::{SlotsRequest, TallyRequest};
use std::fmt;

// A request with the reply to it.
#[derive(Clone, Copy)]
pub struct Line<R> {
    pub request: R,
    pub reply: (u64, u64),
}

impl fmt::Display for Line<SlotsRequest> {
    fn fmt<W: fmt::Write>(&self, f: &mut fmt::Formatter<W>) -> fmt::Result {
        let (kind, value) = self.reply;
        match self.request {
            SlotsRequest::Reserve { slot, container } => match kind {
                0 => write!(
                    f,
                    "reserve slot {slot} for box {container}: reservation {value}"
                ),
                1 => write!(
                    f,
                    "reserve slot {slot} for box {container}: taken by reservation {value}"
                ),
                _ => write!(
                    f,
                    "reserve slot {slot} for box {container}: no number is left"
                ),
            },
            SlotsRequest::Cancel { number } => match kind {
                0 => write!(f, "cancel reservation {number}: slot {value} is empty now"),
                _ => write!(f, "cancel reservation {number}: no slot holds it"),
            },
            SlotsRequest::Holder { slot } => match kind {
                0 => write!(f, "holder of slot {slot}: box {value}"),
                _ => write!(f, "holder of slot {slot}: nobody"),
            },
        }
    }
}

impl fmt::Display for Line<TallyRequest> {
    fn fmt<W: fmt::Write>(&self, f: &mut fmt::Formatter<W>) -> fmt::Result {
        let (kind, value) = self.reply;
        match self.request {
            TallyRequest::Add { amount } => match kind {
                0 => write!(f, "add {amount}: the tally is {value}"),
                _ => write!(f, "add {amount}: too much, the tally stays {value}"),
            },
            TallyRequest::Read => write!(f, "read: the tally is {value}"),
        }
    }
}
