// A reply, with its place.
#[derive(Clone, Copy)]
pub struct Reply {
    pub place: u64,
    pub kind: u64,
    pub value: u64,
}

// What is printed for a line.
#[derive(Clone, Copy)]
pub enum Answer {
    Fine,
    Run { number: u64, found: u64 },
    Called { number: u64 },
    Replied(Reply),
    Done(Reply),
    Open,
    Never,
    Refused { number: u64, detail: u64 },
}

// A number as it is printed.
#[derive(Clone, Copy)]
pub struct Decimal(pub u64);
