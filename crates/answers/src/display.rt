ghost use Rattle.std.specs.Prelude.{Some, decimal};
ghost use Rattle.answers.specs.Printed.{reply, printed};

use super::types::{Answer, Decimal, Reply};
use std::fmt;

// Every number is printed here.
impl fmt::Display for Decimal {
    ghost output = { λ d. Some (decimal d.0) };

    fn fmt<W: fmt::Write>(&self, f: &mut fmt::Formatter<W>) -> fmt::Result {
        write!(f, "{}", self.0)
    }
}

impl fmt::Display for Reply {
    ghost output = { λ r. Some (reply r) };

    fn fmt<W: fmt::Write>(&self, f: &mut fmt::Formatter<W>) -> fmt::Result {
        let Reply { place, kind, value } = *self;
        write!(f, "{} {} {}", Decimal(place), Decimal(kind), Decimal(value))
    }
}

impl fmt::Display for Answer {
    ghost output = { λ a. Some (printed a) };

    fn fmt<W: fmt::Write>(&self, f: &mut fmt::Formatter<W>) -> fmt::Result {
        match *self {
            Answer::Fine => write!(f, "(ok)"),
            Answer::Run { number, found } => {
                write!(f, "(run {} {})", Decimal(number), Decimal(found))
            }
            Answer::Called { number } => write!(f, "(open {})", Decimal(number)),
            Answer::Replied(reply) => write!(f, "(reply {reply})"),
            Answer::Done(reply) => write!(f, "(done {reply})"),
            Answer::Open => write!(f, "(open)"),
            Answer::Never => write!(f, "(none)"),
            Answer::Refused { number, detail } => {
                write!(f, "(no {} {})", Decimal(number), Decimal(detail))
            }
        }
    }
}
