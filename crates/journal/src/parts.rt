// Parts of a memory: lines that follow one another, read from the first one on.
ghost use Rattle.std.specs.Prelude.{◌≡◌, ℕ, ◌^◌, ◌<◌, ◌≤◌, List, map, length, take, drop};
ghost use Rattle.std.specs.Iterator.{YieldsFirst, item_count};
ghost use Rattle.memory.specs.Model.{words_of};
ghost use Rattle.journal.specs.Reading.{span};

use memory::Memory;
use std::marker::Model;

// The lines from `at` up to `end`, and not `end` itself, seen as the list of them.
#[derive(Drop)]
pub(crate) struct Part<'a, M: Memory> {
    memory: &'a M,
    at: usize,
    end: usize,
}

impl<'a, M: Memory> Model for Part<'a, M> {
    ghost Value = { List (List ℕ) };

    ghost view = { λ p. span (M.Memory.model p.memory.now) p.at p.end };

    ghost invariant = { λ p. p.end ≤ length (M.Memory.model p.memory.now).lines };
}

impl<'a, M: Memory> Part<'a, M> {
    // The memory's lines from `at` on.
    pub(crate) fn starting_at(memory: &'a M, at: usize) -> Self
        ensures lines { result ≡ drop at (map words_of (M.Memory.model memory.now).lines) }
        ensures short { length result < 2 ^ 64 }
    {
        Part {
            memory,
            at,
            end: memory.line_count(),
        }
    }

    // The same lines once more.
    pub(crate) fn again(&self) -> Self
        ensures { result ≡ self.now }
    {
        Part {
            memory: self.memory,
            at: self.at,
            end: self.end,
        }
    }

    pub(crate) fn len(&self) -> usize
        ensures { result ≡ length self.now }
    {
        self.end.saturating_sub(self.at)
    }

    // Takes the first `count` lines, and leaves the others.
    #[tactic(auto, using(crate::proofs::Spans::span_drop))]
    pub(crate) fn split_front(&mut self, count: usize) -> Self
        ensures front { result ≡ take count self.old }
        ensures left { self.new ≡ drop count self.old }
    {
        let at = self.at;
        self.at = at.saturating_add(count).min(self.end);
        Part {
            memory: self.memory,
            at,
            end: self.at,
        }
    }
}

impl<'a, M: Memory> Iterator for Part<'a, M> {
    type Item = [u64; 8];

    ghost next_gives = { YieldsFirst (λ lines. lines) };

    ghost remaining = { item_count (λ lines. lines) };

    #[tactic(auto, using(crate::proofs::Spans::span_more))]
    fn next(&mut self) -> Option<[u64; 8]> {
        if self.at >= self.end {
            return None;
        }
        let line = self.memory.load_line(self.at);
        self.at += 1;
        Some(line)
    }
}
