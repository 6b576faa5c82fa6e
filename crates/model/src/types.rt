use book::Op;

// An identity: the run and the station that made an update, and its number among that station's updates.
#[derive(Clone, Copy, PartialEq, Debug)]
pub struct Identity {
    pub run: u64,
    pub station: u64,
    pub call: u64,
}

// An update with its identity.
#[derive(Clone, Copy, PartialEq, Debug, Default)]
pub struct Update {
    pub run: u64,
    pub station: u64,
    pub call: u64,
    pub op: Op,
}

// A place of the order: its update, and whether a flag says that the update and all below it are in the journal.
#[derive(Clone, Copy, Default)]
pub struct Node {
    pub update: Update,
    pub flagged: bool,
}

// What an update's next step does, with the numbers that it needs.
#[derive(Clone, Copy)]
pub enum Phase {
    Look,
    Place { noted: u64 },
    Walk { place: u64, unset: u64 },
    Write { own: u64, lines: u64, stage: u64 },
    Fence { own: u64, lines: u64 },
    Flag { own: u64 },
    Answer { own: u64 },
}

// What a query's next step does.
#[derive(Clone, Copy)]
pub enum QueryPhase {
    Look,
    Walk { place: u64, unset: u64 },
    Answer { place: u64 },
}

// A station's open call.
#[derive(Clone, Copy, Default)]
pub enum Call {
    #[default]
    Idle,
    Update { op: Op, phase: Phase },
    Query { op: Op, phase: QueryPhase },
}

// A station: its open call, the number of its newest update, and the lines of its log that entries use.
#[derive(Clone, Copy, Default)]
pub struct Station {
    pub call: Call,
    pub given: u64,
    pub used: u64,
}

// What the next rise does.
#[derive(Clone, Copy)]
pub enum Rise {
    Store,
    WriteBack,
    Fence,
}

#[derive(Clone, Copy)]
pub enum Status {
    Rising(Rise),
    Up,
    Shut(Refusal),
}

#[derive(Clone, Copy)]
pub enum Refusal {
    LineCount,
    RunNumber,
    MissingPlace(u64),
    Disagreement(u64),
    NotAnUpdate(u64),
    NotRising,
    NoStation,
    NotUp,
    Busy,
    NoSort,
    OrderFull,
    LogFull,
    NoCall,
    NoIdentity,
}

// What a start tells: the run's number, and how many updates it found.
#[derive(Clone, Copy)]
pub struct Started {
    pub run: u64,
    pub found: u64,
}

// A reply, and its place in the order.
#[derive(Clone, Copy)]
pub struct Replied {
    pub place: u64,
    pub reply: (u64, u64),
}

// What became of an update.
#[derive(Clone, Copy)]
pub enum Outcome {
    Done(Replied),
    Open,
    Never,
}
