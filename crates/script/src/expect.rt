ghost use Rattle.std.specs.Prelude.{◌≤◌, IfOk};
ghost use Rattle.script.specs.Reading.{Reads, placed_in, word_in, next_token, bracket, some_word, some_kind, number_within, any_number};

use forms::Named;
use tokens::{Fault, Lexer, Token, number_of};

// The next token, which has to be there.
pub fn token<'a>(lexer: &mut Lexer<'a>) -> Result<(Token<'a>, usize), Fault>
    ensures { Reads next_token lexer.old lexer.new (placed_in result) }
{
    match lexer.next() {
        Some(found) => found,
        None => Err(Fault::unreadable(lexer.past_end())),
    }
}

// Which bracket.
#[derive(Clone, Copy)]
pub enum Side {
    Open,
    Close,
}

pub fn bracket(lexer: &mut Lexer, which: Side) -> Result<(), Fault>
    ensures { Reads (bracket which) lexer.old lexer.new result }
{
    let (token, column) = token(lexer)?;
    match (which, token) {
        (Side::Open, Token::Open) | (Side::Close, Token::Close) => Ok(()),
        _ => Err(Fault::unreadable(column)),
    }
}

// A word and its column.
pub fn word<'a>(lexer: &mut Lexer<'a>) -> Result<(&'a [u8], usize), Fault>
    ensures { Reads some_word lexer.old lexer.new (word_in result) }
{
    let (token, column) = token(lexer)?;
    match token {
        Token::Word(text) => Ok((text, column)),
        _ => Err(Fault::unreadable(column)),
    }
}

// A word that names a kind.
pub fn kind<K: Named>(lexer: &mut Lexer) -> Result<K, Fault>
    ensures { Reads (some_kind K.named) lexer.old lexer.new result }
{
    let (text, column) = word(lexer)?;
    K::named(text).ok_or(Fault::unreadable(column))
}

// A number from `low` to `high`.
pub fn number(lexer: &mut Lexer, low: u64, high: u64) -> Result<u64, Fault>
    ensures reads { Reads (number_within low high) lexer.old lexer.new result }
    ensures within { IfOk result (λ n. (low ≤ n) × (n ≤ high)) }
{
    let (token, column) = token(lexer)?;
    let Token::Number(digits) = token else {
        return Err(Fault::unreadable(column));
    };
    match number_of(digits) {
        Some(n) if low <= n && n <= high => Ok(n),
        _ => Err(Fault::unreadable(column)),
    }
}

pub fn any_number(lexer: &mut Lexer) -> Result<u64, Fault>
    ensures { Reads any_number lexer.old lexer.new result }
{
    number(lexer, 0, u64::MAX)
}
