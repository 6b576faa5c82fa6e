// Entries: whether one stands at the front of some lines, and which stand there one behind the other.
ghost use Rattle.std.specs.Prelude.{◌≡◌, ℕ, suc, ◌+◌, ◌-◌, ◌&&◌, [], ◌∷◌, take, is_some, IfSome};
ghost use Rattle.std.specs.Iterator.{YieldsFirstBy, item_count};
ghost use Rattle.model.specs.Journal.{word, lines_fit, stands, entries};
ghost use Rattle.journal.specs.Reading.{span, entry};

use super::lines::{begins, line_fits};
use super::parts::Part;
use memory::Memory;

// An entry in a log: the place that it stands for, and its lines.
#[derive(Drop)]
pub(crate) struct Found<'a, M: Memory> {
    pub(crate) place: u64,
    pub(crate) lines: Part<'a, M>,
}

// The entries of `owner` that stand one behind the other at the front of these lines.
#[derive(Drop)]
pub(crate) struct Entries<'a, M: Memory> {
    pub(crate) owner: u64,
    pub(crate) lines: Part<'a, M>,
}

// Takes the next line, and tells whether it is line t of an entry whose first line is `head`.
fn next_fits<M: Memory>(lines: &mut Part<M>, head: [u64; 8], t: u64) -> bool
    ensures { (n : ℕ) → lines_fit (suc n) (word head 0) (word head 1) (word head 7) t lines.old ≡ (result && lines_fit n (word head 0) (word head 1) (word head 7) (t + 1) lines.new) }
{
    let Some(line) = lines.next() else {
        return false;
    };
    line_fits(line, head[0], head[1], head[7], t)
}

// These lines begin with those behind the first one, `head`, of an entry.
#[tactic(auto, using(crate::proofs::Fitting::one_less))]
fn lines_fit<M: Memory>(mut lines: Part<M>, head: [u64; 8]) -> bool
    ensures { result ≡ lines_fit (word head 1 - 1) (word head 0) (word head 1) (word head 7) 1 lines.entry }
{
    for t in 1..head[1] {
        if !next_fits(&mut lines, head, t) {
            return false;
        }
    }
    true
}

// The first of these lines, where an entry of `owner` stands there.
#[tactic(auto, using(crate::proofs::Fitting::stands_front))]
fn head_of<M: Memory>(lines: &Part<M>, owner: u64) -> Option<[u64; 8]>
    ensures stood { is_some result ≡ stands owner lines.now }
    ensures head { IfSome result (λ l. take 1 lines.now ≡ l ∷ []) }
{
    let mut behind = lines.again();
    let head = behind.next()?;
    let first_fits = begins(owner, head) && line_fits(head, head[0], head[1], head[7], 0);
    (first_fits && lines_fit(behind, head)).then_some(head)
}

impl<'a, M: Memory> Iterator for Entries<'a, M> {
    type Item = Found<'a, M>;

    ghost next_gives = { YieldsFirstBy (λ found. entry found.place found.lines) (λ log. entries log.owner 0 log.lines) };

    ghost remaining = { item_count (λ log. entries log.owner 0 log.lines) };

    #[tactic(auto, using(crate::proofs::Fitting::entries_front))]
    fn next(&mut self) -> Option<Found<'a, M>> {
        let head = head_of(&self.lines, self.owner)?;
        Some(Found {
            place: head[0],
            lines: self.lines.split_front(head[1] as usize),
        })
    }
}

// An entry of `owner` stands at a line, where the log ends before the line `end`.
pub fn stands<M: Memory>(memory: &M, owner: u64, at: usize, end: usize) -> bool
    ensures { result ≡ stands owner (span (M.Memory.model memory.now) at end) }
{
    let lines = Part::starting_at(memory, at).split_front(end.saturating_sub(at));
    head_of(&lines, owner).is_some()
}
