ghost use Rattle.std.specs.Prelude.{◌≡◌, ◌<◌, List, IfSome};
ghost use Rattle.book.specs.Rules.{Stands, Asks};
ghost use Rattle.book.specs.Numbers.{Numbered};
ghost use Rattle.book.specs.Slots.{Plan, empty_plan, slots_rules, slots_op, slots_request, SlotsRange, slot_at, slot_of, reserved, reserve_reply, cancelled, cancel_reply, holder_reply};

use super::types::{Op, Reservation, Slots, SlotsRequest, Sort, UnknownOp};
use super::{Book, WRONG_SORT};

const LAST_SLOT: u64 = 63;

const LAST_NUMBER: u32 = 1_000_000;
// A reservation's argument is the slot times this, plus the container.
const SLOT_UNIT: u64 = 1 << 32;

// The operation that stands for a request, and for no other.
impl From<SlotsRequest> for Op {
    ghost from_gives = { λ request op. Stands slots_op slots_request SlotsRange request op };

    fn from(request: SlotsRequest) -> Op {
        match request {
            SlotsRequest::Reserve { slot, container } => Op {
                code: 1,
                argument: u64::from(slot) * SLOT_UNIT + u64::from(container),
            },
            SlotsRequest::Cancel { number } => Op {
                code: 2,
                argument: u64::from(number),
            },
            SlotsRequest::Holder { slot } => Op {
                code: 3,
                argument: u64::from(slot),
            },
        }
    }
}

// What an operation asks of the slots.
impl TryFrom<Op> for SlotsRequest {
    type Error = UnknownOp;

    ghost try_from_gives = { Asks slots_request };

    fn try_from(op: Op) -> Result<Self, UnknownOp> {
        let slot = op.argument / SLOT_UNIT;
        let container = op.argument % SLOT_UNIT;
        match op.code {
            1 if slot <= LAST_SLOT && container >= 1 => Ok(SlotsRequest::Reserve {
                slot: slot as u32,
                container: container as u32,
            }),
            2 if op.argument >= 1 && op.argument <= u64::from(LAST_NUMBER) => Ok(
                SlotsRequest::Cancel {
                    number: op.argument as u32,
                },
            ),
            3 if op.argument <= LAST_SLOT => Ok(SlotsRequest::Holder {
                slot: op.argument as u32,
            }),
            _ => Err(UnknownOp(op)),
        }
    }
}

impl Slots {
    // Every slot empty, no number given; and what is promised of the numbers, whatever operations are then applied.
    pub fn new() -> Self
        ensures first { result ≡ empty_plan }
        ensures numbered { (os : List Op) → Numbered os }
    {
        Slots {
            slots: [None; 64],
            last: 0,
        }
    }

    // The slot that holds a number.
    fn slot_of(&self, number: u32) -> Option<usize>
        ensures value { result ≡ slot_of number self.now.slots }
        ensures within { IfSome result (λ i. i < 64) }
    {
        self.slots
            .iter()
            .position(|slot| matches!(slot, Some(held) if held.number == number))
    }

    fn reserve(&mut self, slot: u32, container: u32) -> (u64, u64)
        requires { slot < 64 }
        ensures next { self.new ≡ reserved self.old slot container (slot_at self.old slot) }
        ensures reply { result ≡ reserve_reply self.old (slot_at self.old slot) }
    {
        let slot = slot as usize;
        if let Some(held) = self.slots[slot] {
            return (1, u64::from(held.number));
        }
        if self.last >= LAST_NUMBER {
            return (4, 0);
        }
        let number = self.last + 1;
        self.last = number;
        self.slots[slot] = Some(Reservation { number, container });
        (0, u64::from(number))
    }

    fn cancel(&mut self, number: u32) -> (u64, u64)
        ensures next { self.new ≡ cancelled self.old (slot_of number self.old.slots) }
        ensures reply { result ≡ cancel_reply number (slot_of number self.old.slots) }
    {
        match self.slot_of(number) {
            Some(slot) => {
                self.slots[slot] = None;
                (0, slot as u64)
            }
            None => (2, u64::from(number)),
        }
    }

    fn holder(&self, slot: u32) -> (u64, u64)
        requires { slot < 64 }
        ensures { result ≡ holder_reply (slot_at self.now slot) }
    {
        match self.slots[slot as usize] {
            Some(held) => (0, u64::from(held.container)),
            None => (3, 0),
        }
    }
}

impl Book for Slots {
    ghost State = { Plan };

    ghost rules = { λ _. slots_rules };

    ghost state = { λ b. b };

    fn reset(&mut self) {
        *self = Slots::new();
    }

    fn sort(&self, op: Op) -> Sort {
        match SlotsRequest::try_from(op) {
            Ok(SlotsRequest::Reserve { .. }) => Sort::Update,
            Ok(SlotsRequest::Cancel { .. }) => Sort::Update,
            Ok(SlotsRequest::Holder { .. }) => Sort::Query,
            Err(UnknownOp(_)) => Sort::Neither,
        }
    }

    fn apply(&mut self, op: Op) -> (u64, u64) {
        match SlotsRequest::try_from(op) {
            Ok(SlotsRequest::Reserve { slot, container }) => self.reserve(slot, container),
            Ok(SlotsRequest::Cancel { number }) => self.cancel(number),
            _ => WRONG_SORT,
        }
    }

    fn ask(&mut self, op: Op) -> (u64, u64) {
        match SlotsRequest::try_from(op) {
            Ok(SlotsRequest::Holder { slot }) => self.holder(slot),
            _ => WRONG_SORT,
        }
    }
}
