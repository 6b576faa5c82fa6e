use model::{Station, Status};
use order::Order;

// All of a run but its memory and its book.
#[derive(Drop)]
pub struct Table {
    pub(crate) stations: [Station; 8],
    pub(crate) order: Order,
    pub(crate) number: u64,
    pub(crate) status: Status,
}

// A run: what eight stations book into, from a start to a cut.
pub struct Run<M, B> {
    pub(crate) memory: M,
    pub(crate) book: B,
    pub(crate) table: Table,
}
