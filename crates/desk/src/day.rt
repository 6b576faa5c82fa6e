ghost use Rattle.std.specs.Prelude.{◌≡◌};
ghost use Rattle.book.specs.Rules.{applied};
ghost use Rattle.desk.specs.Desk.{performed_reply};

use super::lines::Line;
use book::{Book, Op, Slots, SlotsRequest, Sort, Tally, TallyRequest, WRONG_SORT};
use std::fmt::Display;
use std::io;

// Does what the operation's sort says: applies an update, asks a query.
fn perform<B: Book>(book: &mut B, op: Op) -> (u64, u64)
    ensures fixed { B.Book.rules book.new ≡ B.Book.rules book.old }
    ensures next { B.Book.state book.new ≡ applied (B.Book.rules book.old) (B.Book.state book.old) op }
    ensures reply { result ≡ performed_reply (B.Book.rules book.old) (B.Book.state book.old) op }
{
    match book.sort(op) {
        Sort::Update => book.apply(op),
        Sort::Query => book.ask(op),
        Sort::Neither => WRONG_SORT,
    }
}

// Performs a request, and prints it with the reply.
fn show<B: Book, R: Copy + Into<Op>>(rt: &impl Print, book: &mut B, request: R) -> io::Result<()>
where
    Line<R>: Display,
{
    let reply = perform(book, request.into());
    rt.println(Line { request, reply })
}

// A slot is booked, given up and booked for another box, and the first booking is cancelled once more, too late.
pub(super) fn bookings(rt: &impl Print) -> io::Result<()> {
    let mut slots = Slots::new();
    let requests = [
        SlotsRequest::Reserve {
            slot: 3,
            container: 700,
        },
        SlotsRequest::Reserve {
            slot: 3,
            container: 701,
        },
        SlotsRequest::Cancel { number: 1 },
        SlotsRequest::Holder { slot: 3 },
        SlotsRequest::Reserve {
            slot: 3,
            container: 800,
        },
        SlotsRequest::Cancel { number: 1 },
        SlotsRequest::Holder { slot: 3 },
    ];
    for request in requests {
        show(rt, &mut slots, request)?;
    }
    Ok(())
}

// Additions that go as near to the limit as they can, then to it, then past it.
pub(super) fn tally(rt: &impl Print) -> io::Result<()> {
    let mut tally = Tally::new();
    for _ in 0..16 {
        show(rt, &mut tally, TallyRequest::Add { amount: 65_535 })?;
    }
    show(rt, &mut tally, TallyRequest::Add { amount: 16_975 })?;
    show(rt, &mut tally, TallyRequest::Add { amount: 1 })?;
    show(rt, &mut tally, TallyRequest::Read)
}
