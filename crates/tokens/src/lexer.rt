ghost use Rattle.std.specs.Prelude.{◌≡◌, ◌+◌, ◌-◌, ◌<◌, ◌≤◌, false, [], ◌∷◌, length, drop, MatchOption, slice_index, slice_range};
ghost use Rattle.std.specs.Iterator.{item_count};
ghost use Rattle.std.specs.Option.{option_transpose};
ghost use Rattle.tokens.specs.Tokens.{class_of, joined, run_length, width, shape_of_text, told, next_of, tokens_of, tokens_at, Next};
ghost use Rattle.tokens.specs.Ahead.{left, line_length, GivesToken};

use super::number::number_of;
use super::types::{Class, Fault, Token};

// Each character decides the token that it begins.
impl From<char> for Class {
    ghost from_gives = { λ c r. r ≡ class_of c };

    fn from(c: char) -> Self {
        match c {
            '(' => Class::Open,
            ')' => Class::Close,
            ' ' => Class::Blank,
            '0'..='9' => Class::Digit,
            'a'..='z' => Class::Letter,
            _ => Class::Other,
        }
    }
}

// Two neighbours are of one run.
fn are_joined(left: Class, right: Class) -> bool
    ensures { result ≡ joined left right }
{
    left == right && matches!(left, Class::Letter | Class::Digit | Class::Blank)
}

// How far the run of this class goes that bytes begin with.
fn run_length(bytes: &[u8], class: Class) -> usize
    ensures value { result ≡ run_length class bytes.now }
    ensures within { result ≤ length bytes.now }
    ensures ends { result < length bytes.now → joined class (class_of (slice_index bytes.now result)) ≡ false }
{
    bytes
        .iter()
        .take_while(|byte| are_joined(class, Class::from(**byte as char)))
        .count()
}

// Where the run of this class from `at` on ends.
fn past_run(line: &[u8], at: usize, class: Class) -> usize
    requires { at ≤ length line.now }
    ensures value { result ≡ at + run_length class (drop at line.now) }
    ensures within { result ≤ length line.now }
    ensures ends { result < length line.now → joined class (class_of (slice_index line.now result)) ≡ false }
{
    let (_, rest) = line.split_at(at);
    at + run_length(rest, class)
}

// Where the token ends that begins at `at`.
fn token_end(line: &[u8], at: usize) -> usize
    requires { at < length line.now }
    ensures value { result ≡ at + width (class_of (slice_index line.now at)) (drop at line.now) }
    ensures ahead { at < result }
    ensures within { result ≤ length line.now }
{
    past_run(line, at, Class::from(line[at] as char)).max(at + 1)
}

// Where the first token from `at` on begins and ends.
#[tactic(auto, using(crate::proofs::Lexing::at_end, crate::proofs::Lexing::at_token))]
fn next_span(line: &[u8], at: usize) -> Option<(usize, usize)>
    ensures { MatchOption result (tokens_at line.now at ≡ []) (Next line.now at) }
{
    let start = past_run(line, at.min(line.len()), Class::Blank);
    if start >= line.len() {
        return None;
    }
    Some((start, token_end(line, start)))
}

// The token from `start` up to `end`, with its column.
fn token_of(line: &[u8], start: usize, end: usize) -> Result<(Token<'_>, usize), Fault>
    requires ahead { start < end }
    requires within { end ≤ length line.now }
    ensures { told (option_transpose (Some result)) ≡ next_of (record { column = start + 1; shape = shape_of_text (slice_range line.now start end) } ∷ []) }
{
    let text = &line[start..end];
    let column = start + 1;
    match Class::from(text[0] as char) {
        Class::Open => Ok((Token::Open, column)),
        Class::Close => Ok((Token::Close, column)),
        Class::Letter => Ok((Token::Word(text), column)),
        Class::Digit if number_of(text).is_some() => Ok((Token::Number(text), column)),
        Class::Digit | Class::Blank | Class::Other => Err(Fault::unreadable(column)),
    }
}

// The tokens of a line, one after the other.
#[derive(Drop)]
pub struct Lexer<'a> {
    line: &'a [u8],
    at: usize,
}

impl<'a> Lexer<'a> {
    pub fn new(line: &'a [u8]) -> Self
        ensures line { result.line ≡ line.entry }
        ensures at { result.at ≡ 0 }
        ensures tokens { left result ≡ tokens_of line.now }
        ensures length { line_length result ≡ length line.now }
    {
        Lexer { line, at: 0 }
    }

    // The column behind the line's last byte.
    pub fn past_end(&self) -> usize
        ensures { result ≡ length self.now.line.now + 1 }
    {
        self.line.len() + 1
    }
}

impl<'a> Iterator for Lexer<'a> {
    type Item = Result<(Token<'a>, usize), Fault>;

    ghost next_gives = { GivesToken };

    ghost remaining = { item_count left };

    // The next token with its column, or nothing at the line's end.
    fn next(&mut self) -> Option<Self::Item> {
        let (start, end) = next_span(self.line, self.at)?;
        self.at = end;
        Some(token_of(self.line, start, end))
    }
}
