ghost use Rattle.std.specs.Prelude.{◌≡◌, ◌+◌, ◌*◌, ◌≤◌, [], ◌∷◌, length, take, drop, MatchOption};
ghost use Rattle.std.specs.Iterator.{item_count};
ghost use Rattle.tokens.specs.Lines.{lines_of, line_length, script_lines};
ghost use Rattle.tokens.specs.Ahead.{lines_left, GivesLine};

// Only so many bytes of an input count: 64 KiB.
const MOST: usize = 64 * 1024;

// The part of an input that counts.
#[tactic(auto, using(std::proofs::lemmas::List::take_min))]
fn counted(input: &[u8]) -> &[u8]
    ensures { result.now ≡ take (64 * 1024) input.now }
{
    &input[..MOST.min(input.len())]
}

// Where the line ends that begins at `at`.
#[tactic(auto, using(crate::proofs::Lining::line_more, crate::proofs::Lining::line_ends, crate::proofs::Lining::line_over))]
fn line_end(input: &[u8], at: usize) -> usize
    requires { at ≤ length input.now }
    ensures value { result ≡ at + line_length (drop at input.now) }
    ensures within { result ≤ length input.now }
{
    for end in at..input.len() {
        if input[end] == b'\n' {
            return end;
        }
    }
    input.len()
}

// The line that begins at `at`, and where the next one begins.
#[tactic(auto, using(crate::proofs::Lining::line_there, crate::proofs::Lining::no_lines))]
fn line_at(input: &[u8], at: usize) -> Option<(&[u8], usize)>
    ensures { MatchOption result (lines_of (drop at input.now) ≡ []) (λ l. lines_of (drop at input.now) ≡ l.0.now ∷ lines_of (drop l.1 input.now)) }
{
    if at >= input.len() {
        return None;
    }
    let end = line_end(input, at);
    Some((&input[at..end], end + 1))
}

// The lines of an input, one after the other.
#[derive(Drop)]
pub struct Lines<'a> {
    input: &'a [u8],
    at: usize,
}

impl<'a> Lines<'a> {
    // Only the first 64 KiB of the input count.
    pub fn new(input: &'a [u8]) -> Self
        ensures input { result.input.now ≡ take (64 * 1024) input.now }
        ensures at { result.at ≡ 0 }
        ensures lines { lines_left result ≡ script_lines input.now }
    {
        Lines {
            input: counted(input),
            at: 0,
        }
    }
}

impl<'a> Iterator for Lines<'a> {
    type Item = &'a [u8];

    ghost next_gives = { GivesLine };

    ghost remaining = { item_count lines_left };

    // The next line, or nothing at the input's end.
    fn next(&mut self) -> Option<Self::Item> {
        let (line, next) = line_at(self.input, self.at)?;
        self.at = next;
        Some(line)
    }
}
