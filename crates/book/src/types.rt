ghost use Rattle.std.specs.Prelude.{◌≤◌};

use std::marker::Model;

// An operation on a book.
#[derive(Clone, Copy, PartialEq, Debug, Default)]
pub struct Op {
    pub code: u64,
    pub argument: u64,
}

// An operation that asks nothing of a book.
#[derive(Clone, Copy, PartialEq, Debug)]
pub struct UnknownOp(pub Op);

// What an operation is to a book, by the operation alone.
#[derive(Clone, Copy, PartialEq, Debug)]
pub enum Sort {
    Update,
    Query,
    Neither,
}

// What may be asked of a tally.
#[derive(Clone, Copy)]
pub enum TallyRequest {
    Add { amount: u64 },
    Read,
}

// A sum that stays at or below 1,000,000.
#[derive(Drop)]
pub struct Tally {
    pub(crate) value: u64,
    ghost limited: { value ≤ 1000000 },
}

// What may be asked of the slots. A container is what planners call a box.
#[derive(Clone, Copy)]
pub enum SlotsRequest {
    Reserve { slot: u32, container: u32 },
    Cancel { number: u32 },
    Holder { slot: u32 },
}

// What a taken slot holds: its reservation number, and the container that it is for.
#[derive(Clone, Copy)]
pub struct Reservation {
    pub number: u32,
    pub container: u32,
}

// The slots of a sailing, and the last reservation number given.
#[derive(Drop)]
pub struct Slots {
    pub(crate) slots: [Option<Reservation>; 64],
    pub(crate) last: u32,
}

impl Model for Slots {
    ghost use Rattle.std.specs.Prelude.{◌≡◌, length};
    ghost use Rattle.book.specs.Slots.{Plan};

    ghost Value = { Plan };

    ghost view = { λ s. record { slots = s.slots; last = s.last } };

    ghost invariant = { λ s. length s.slots ≡ 64 };
}
