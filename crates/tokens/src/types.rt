ghost use Rattle.std.specs.Prelude.{◌≡◌};
ghost use Rattle.tokens.specs.Tokens.{unreadable};

// What a character of a script can be.
#[derive(Clone, Copy, PartialEq)]
pub enum Class {
    Open,
    Close,
    Blank,
    Letter,
    Digit,
    Other,
}

// A token is a part of its line: a bracket, a run of small letters, or a run of digits that writes a number.
#[derive(Clone, Copy)]
pub enum Token<'a> {
    Open,
    Close,
    Word(&'a [u8]),
    Number(&'a [u8]),
}

// Why a line was not taken: a number, and the column from 1 where it went wrong.
#[derive(Clone, Copy)]
pub struct Fault {
    pub number: u64,
    pub column: usize,
}

impl Fault {
    // The line cannot be read: fault 16.
    pub fn unreadable(column: usize) -> Self
        ensures { result ≡ unreadable column }
    {
        Fault { number: 16, column }
    }
}
