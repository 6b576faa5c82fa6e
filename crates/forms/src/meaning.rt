ghost use Rattle.std.specs.Prelude.{◌≡◌, ℕ, ◌+◌, ◌<◌, ◌≤◌, [], ◌∷◌, ◌++◌, map, slice_index, slice_set};
ghost use Rattle.forms.specs.Meanings.{book_of, op_of, kept_of};
ghost use Rattle.forms.specs.Spoken.{pair_of, pairs_in};

use super::types::{BookKind, Pair, Pairs, Request};
use book::{Op, SlotsRequest, TallyRequest};

impl Request {
    // The object that the request is one of.
    pub fn book(self) -> BookKind
        ensures { result ≡ book_of self }
    {
        match self {
            Request::Add { .. } | Request::Read => BookKind::Tally,
            Request::Reserve { .. } | Request::Cancel { .. } | Request::Holder { .. } =>
                BookKind::Slots,
        }
    }
}

// The operation that stands for a request.
impl From<Request> for Op {
    ghost from_gives = { λ q o. o ≡ op_of q };

    fn from(request: Request) -> Self {
        match request {
            Request::Add { amount } => TallyRequest::Add { amount }.into(),
            Request::Read => TallyRequest::Read.into(),
            Request::Reserve { slot, container } => {
                let reserve = SlotsRequest::Reserve { slot, container };
                reserve.into()
            }
            Request::Cancel { number } => Op {
                code: 2,
                argument: number,
            },
            Request::Holder { slot } => Op {
                code: 3,
                argument: slot,
            },
        }
    }
}

// What a pair keeps takes the place of what the same line kept before.
fn keep(bytes: &mut [u8], pair: &Pair)
    ensures { bytes.new ≡ slice_set bytes.old pair.now.line pair.now.kept }
{
    let line = usize::from(pair.line);
    if line < bytes.len() {
        bytes[line] = pair.kept;
    }
}

fn kept_by(pairs: &[Pair]) -> [u8; 129]
    ensures { (l : ℕ) → l < 129 → slice_index result l ≡ kept_of l (map pair_of pairs.now) }
{
    let mut bytes = [0; 129];
    for pair in pairs {
        keep(&mut bytes, pair);
    }
    bytes
}

impl Pairs {
    // No pairs yet.
    pub fn new() -> Self
        ensures count { result.count ≡ 0 }
        ensures pairs { pairs_in result ≡ [] }
    {
        Pairs {
            pairs: [Pair { line: 0, kept: 0 }; 16],
            count: 0,
        }
    }

    // One pair more, behind the others; where there are 16, they stay as they are.
    pub fn push(&mut self, pair: Pair)
        ensures count { self.old.count < 16 → self.new.count ≡ self.old.count + 1 }
        ensures pairs { self.old.count < 16 → pairs_in self.new ≡ pairs_in self.old ++ pair_of pair ∷ [] }
        ensures full { 16 ≤ self.old.count → self.new ≡ self.old }
    {
        if self.count < self.pairs.len() {
            self.pairs[self.count] = pair;
            self.count += 1;
        }
    }

    // The pairs that there are.
    pub fn listed(&self) -> &[Pair]
        ensures { map pair_of result.now ≡ pairs_in self.now }
    {
        &self.pairs[..self.count.min(self.pairs.len())]
    }

    // For each line from 0 to 128 what its last pair keeps, and 0 where it has none.
    pub fn kept(self) -> [u8; 129]
        ensures { (l : ℕ) → l < 129 → slice_index result l ≡ kept_of l (pairs_in self) }
    {
        kept_by(self.listed())
    }
}
