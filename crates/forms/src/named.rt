ghost use Rattle.std.specs.Prelude.{◌≡◌, ℕ, List, Option};
ghost use Rattle.forms.specs.Spelling.{kind_named, book_named};

use super::types::{BookKind, MemoryKind};

// A kind that a word of a script names.
pub trait Named: Sized {
    ghost named: { List ℕ → Option Self };

    fn named(word: &[u8]) -> Option<Self>
        ensures { result ≡ named word.now };
}

impl Named for MemoryKind {
    ghost named = { kind_named };

    fn named(word: &[u8]) -> Option<Self> {
        match word {
            b"lazy" => Some(MemoryKind::Lazy),
            b"through" => Some(MemoryKind::Through),
            _ => None,
        }
    }
}

impl Named for BookKind {
    ghost named = { book_named };

    fn named(word: &[u8]) -> Option<Self> {
        match word {
            b"tally" => Some(BookKind::Tally),
            b"slots" => Some(BookKind::Slots),
            _ => None,
        }
    }
}
