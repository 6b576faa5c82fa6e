ghost use Rattle.std.specs.Prelude.{Some};
ghost use Rattle.forms.specs.Spoken.{spoken_by, pair_of, pairs_in};
ghost use Rattle.forms.specs.Spelling.{kind_name, book_name, spelled_request, spelled_pair, spelled_pairs, spelled};

use super::types::{BookKind, Form, MemoryKind, Pair, Pairs, Request};
use answers::Decimal;
use std::fmt;
use std::fmt::Display;

impl fmt::Display for MemoryKind {
    ghost output = { λ k. Some (kind_name k) };

    fn fmt<W: fmt::Write>(&self, f: &mut fmt::Formatter<W>) -> fmt::Result {
        f.write_str(match self {
            MemoryKind::Lazy => "lazy",
            MemoryKind::Through => "through",
        })
    }
}

impl fmt::Display for BookKind {
    ghost output = { λ b. Some (book_name b) };

    fn fmt<W: fmt::Write>(&self, f: &mut fmt::Formatter<W>) -> fmt::Result {
        f.write_str(match self {
            BookKind::Tally => "tally",
            BookKind::Slots => "slots",
        })
    }
}

impl fmt::Display for Request {
    ghost output = { λ q. Some (spelled_request q) };

    fn fmt<W: fmt::Write>(&self, f: &mut fmt::Formatter<W>) -> fmt::Result {
        match *self {
            Request::Add { amount } => write!(f, "(add {})", Decimal(amount)),
            Request::Read => write!(f, "(read)"),
            Request::Reserve { slot, container } => {
                write!(
                    f,
                    "(reserve {} {})",
                    Decimal(slot.into()),
                    Decimal(container.into())
                )
            }
            Request::Cancel { number } => write!(f, "(cancel {})", Decimal(number)),
            Request::Holder { slot } => write!(f, "(holder {})", Decimal(slot)),
        }
    }
}

// A pair is spelled with the blank before it.
impl fmt::Display for Pair {
    ghost output = { λ p. Some (spelled_pair (pair_of p)) };

    fn fmt<W: fmt::Write>(&self, f: &mut fmt::Formatter<W>) -> fmt::Result {
        let Pair { line, kept } = *self;
        write!(f, " ({} {})", Decimal(line.into()), Decimal(kept.into()))
    }
}

impl fmt::Display for Pairs {
    ghost output = { λ ps. Some (spelled_pairs (pairs_in ps)) };

    fn fmt<W: fmt::Write>(&self, f: &mut fmt::Formatter<W>) -> fmt::Result {
        for pair in self.listed() {
            pair.fmt(f)?;
        }
        Ok(())
    }
}

impl fmt::Display for Form {
    ghost output = { λ x. Some (spelled (spoken_by x)) };

    fn fmt<W: fmt::Write>(&self, f: &mut fmt::Formatter<W>) -> fmt::Result {
        match *self {
            Form::Memory { kind, lines } => write!(f, "(memory {kind} {})", Decimal(lines)),
            Form::Object { book } => write!(f, "(object {book})"),
            Form::Start => write!(f, "(start)"),
            Form::Rise => write!(f, "(rise)"),
            Form::Call { station, request } => {
                write!(f, "(call {} {request})", Decimal(station))
            }
            Form::Steps { station, count } => {
                write!(f, "(steps {} {})", Decimal(station), Decimal(count))
            }
            Form::Outcome {
                run,
                station,
                number,
            } => {
                write!(
                    f,
                    "(outcome {} {} {})",
                    Decimal(run),
                    Decimal(station),
                    Decimal(number)
                )
            }
            Form::Cut(pairs) => write!(f, "(cut{pairs})"),
        }
    }
}
