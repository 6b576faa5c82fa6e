// How the memory keeps its lines.
#[derive(Clone, Copy)]
pub enum MemoryKind {
    Lazy,
    Through,
}

// Which object is rehearsed.
#[derive(Clone, Copy)]
pub enum BookKind {
    Tally,
    Slots,
}

// What a call asks of the object.
#[derive(Clone, Copy)]
pub enum Request {
    Add { amount: u64 },
    Read,
    Reserve { slot: u32, container: u32 },
    Cancel { number: u64 },
    Holder { slot: u64 },
}

// What a cut keeps of a line.
#[derive(Clone, Copy)]
pub struct Pair {
    pub line: u8,
    pub kept: u8,
}

// Up to 16 pairs: the first `count` of the array.
#[derive(Clone, Copy)]
pub struct Pairs {
    pub pairs: [Pair; 16],
    pub count: usize,
}

// One line of a script.
#[derive(Clone, Copy)]
pub enum Form {
    Memory { kind: MemoryKind, lines: u64 },
    Object { book: BookKind },
    Start,
    Rise,
    Call { station: u64, request: Request },
    Steps { station: u64, count: u64 },
    Outcome { run: u64, station: u64, number: u64 },
    Cut(Pairs),
}
