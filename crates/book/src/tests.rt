use super::Book;
use super::types::{Op, Slots, Sort, Tally};
use std::process::Abort;

const SLOT: u64 = 1 << 32;

fn op(code: u64, argument: u64) -> Op {
    Op { code, argument }
}

// Each operation of a list, by code and argument, has this sort.
fn all_are<B: Book>(rt: &impl Abort, book: &B, sort: Sort, ops: &[(u64, u64)]) {
    for (code, argument) in ops {
        assert_eq!(rt; book.sort(op(*code, *argument)), sort);
    }
}

// Each operation of a list, by code and argument, gets its reply.
fn replies<F: FnMut(Op) -> (u64, u64)>(
    rt: &impl Abort,
    mut reply: F,
    steps: &[(u64, u64, (u64, u64))],
)
    requires { F.IsAlwaysCallable reply }
{
    for (code, argument, wanted) in steps {
        assert_eq!(rt; reply(op(*code, *argument)), *wanted);
    }
}

#[test]
fn sorts_have_their_numbers(rt: HostRuntime) {
    assert_eq!(rt; u64::from(Sort::Update), 1);
    assert_eq!(rt; u64::from(Sort::Query), 2);
    assert_eq!(rt; u64::from(Sort::Neither), 0);
}

#[test]
fn tally_sorts(rt: HostRuntime) {
    let tally = Tally::new();
    all_are(&rt, &tally, Sort::Update, &[(1, 1), (1, 65_535)]);
    all_are(&rt, &tally, Sort::Query, &[(2, 0)]);
    all_are(
        &rt,
        &tally,
        Sort::Neither,
        &[
            (0, 0),
            (1, 0),
            (1, 65_536),
            (2, 1),
            (3, 0),
            (u64::MAX, u64::MAX),
        ],
    );
}

#[test]
fn tally_adds_up_to_its_limit(rt: HostRuntime) {
    let mut tally = Tally { value: 934_464 };
    replies(
        &rt,
        |op| tally.apply(op),
        &[
            (1, 65_535, (0, 999_999)),
            (1, 2, (1, 999_999)),
            (1, 1, (0, 1_000_000)),
            (1, 1, (1, 1_000_000)),
        ],
    );
    replies(
        &rt,
        |op| tally.ask(op),
        &[(2, 0, (0, 1_000_000)), (1, 1, (255, 0)), (2, 1, (255, 0))],
    );
    replies(
        &rt,
        |op| tally.apply(op),
        &[(2, 0, (255, 0)), (1, 65_536, (255, 0))],
    );
    tally.reset();
    replies(&rt, |op| tally.ask(op), &[(2, 0, (0, 0))]);
}

#[test]
fn slots_sorts(rt: HostRuntime) {
    let slots = Slots::new();
    all_are(
        &rt,
        &slots,
        Sort::Update,
        &[(1, 1), (1, 63 * SLOT + SLOT - 1), (2, 1), (2, 1_000_000)],
    );
    all_are(&rt, &slots, Sort::Query, &[(3, 0), (3, 63)]);
    all_are(
        &rt,
        &slots,
        Sort::Neither,
        &[
            (1, 0),
            (1, 63 * SLOT),
            (1, 64 * SLOT + 1),
            (2, 0),
            (2, 1_000_001),
            (3, 64),
            (0, 1),
            (4, 1),
        ],
    );
}

#[test]
fn slots_reserve_cancel_and_tell(rt: HostRuntime) {
    let mut slots = Slots::new();
    replies(
        &rt,
        |op| slots.apply(op),
        &[
            (1, 1, (0, 1)),
            (1, 63 * SLOT + SLOT - 1, (0, 2)),
            (1, 2, (1, 1)),
        ],
    );
    replies(
        &rt,
        |op| slots.ask(op),
        &[
            (3, 0, (0, 1)),
            (3, 63, (0, SLOT - 1)),
            (3, 1, (3, 0)),
            (3, 64, (255, 0)),
            (1, 1, (255, 0)),
        ],
    );
    replies(
        &rt,
        |op| slots.apply(op),
        &[
            (2, 2, (0, 63)),
            (2, 2, (2, 2)),
            (1, 63 * SLOT + 5, (0, 3)),
            (2, 2, (2, 2)),
            (3, 63, (255, 0)),
            (1, 64 * SLOT + 1, (255, 0)),
        ],
    );
    replies(&rt, |op| slots.ask(op), &[(3, 63, (0, 5))]);
    slots.reset();
    replies(&rt, |op| slots.ask(op), &[(3, 0, (3, 0))]);
    replies(&rt, |op| slots.apply(op), &[(1, 1, (0, 1))]);
}

#[test]
fn slots_run_out_of_numbers(rt: HostRuntime) {
    let mut slots = Slots {
        slots: [None; 64],
        last: 999_999,
    };
    replies(
        &rt,
        |op| slots.apply(op),
        &[
            (1, SLOT + 7, (0, 1_000_000)),
            (1, 2 * SLOT + 7, (4, 0)),
            (1, SLOT + 8, (1, 1_000_000)),
            (2, 1_000_000, (0, 1)),
            (1, SLOT + 8, (4, 0)),
        ],
    );
}
