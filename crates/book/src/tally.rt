ghost use Rattle.std.specs.Prelude.{◌≡◌, ℕ};
ghost use Rattle.book.specs.Rules.{Stands, Asks};
ghost use Rattle.book.specs.Tally.{tally_rules, tally_op, tally_request, TallyRange};

use super::types::{Op, Sort, Tally, TallyRequest, UnknownOp};
use super::{Book, WRONG_SORT};

const MOST_ADDED: u64 = 65_535;

const MOST_TALLIED: u64 = 1_000_000;

// The operation that stands for a request, and for no other.
impl From<TallyRequest> for Op {
    ghost from_gives = { λ request op. Stands tally_op tally_request TallyRange request op };

    fn from(request: TallyRequest) -> Op {
        match request {
            TallyRequest::Add { amount } => Op {
                code: 1,
                argument: amount,
            },
            TallyRequest::Read => Op {
                code: 2,
                argument: 0,
            },
        }
    }
}

// What an operation asks of a tally.
impl TryFrom<Op> for TallyRequest {
    type Error = UnknownOp;

    ghost try_from_gives = { Asks tally_request };

    fn try_from(op: Op) -> Result<Self, UnknownOp> {
        match op.code {
            1 if op.argument >= 1 && op.argument <= MOST_ADDED => Ok(TallyRequest::Add {
                amount: op.argument,
            }),
            2 if op.argument == 0 => Ok(TallyRequest::Read),
            _ => Err(UnknownOp(op)),
        }
    }
}

impl Tally {
    pub fn new() -> Self
        ensures { result.value ≡ 0 }
    {
        Tally { value: 0 }
    }
}

impl Book for Tally {
    ghost State = { ℕ };

    ghost rules = { λ _. tally_rules };

    ghost state = { λ b. b.value };

    fn reset(&mut self) {
        self.value = 0;
    }

    fn sort(&self, op: Op) -> Sort {
        match TallyRequest::try_from(op) {
            Ok(TallyRequest::Add { .. }) => Sort::Update,
            Ok(TallyRequest::Read) => Sort::Query,
            Err(UnknownOp(_)) => Sort::Neither,
        }
    }

    fn apply(&mut self, op: Op) -> (u64, u64) {
        match TallyRequest::try_from(op) {
            Ok(TallyRequest::Add { amount }) => {
                let sum = self.value.saturating_add(amount);
                if sum <= MOST_TALLIED {
                    self.value = sum;
                    (0, sum)
                } else {
                    (1, self.value)
                }
            }
            _ => WRONG_SORT,
        }
    }

    fn ask(&mut self, op: Op) -> (u64, u64) {
        match TallyRequest::try_from(op) {
            Ok(TallyRequest::Read) => (0, self.value),
            _ => WRONG_SORT,
        }
    }
}
