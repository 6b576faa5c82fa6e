// Memories whose stores settle late: a store reaches persistent memory some time after it was made, and a power cut
// loses those that have not.
#![tactic(auto)]

ghost use Rattle.std.specs.Prelude.{◌≡◌, ℕ, List, length};
ghost use Rattle.memory.specs.Model.{Mem, Freedom, Whole, loaded, loaded_line, pushed, stored, marked, written_back, fenced, cut};
ghost use Rattle.memory.specs.Laws.{SettlesInOrder};

mod cell;
mod lazy;
mod lent;
mod line;
#[cfg(test)]
mod tests;
mod through;
mod types;

pub use cell::Cell;
pub use lent::Lent;
pub use types::{LineRec, Store};

// A memory on records. It settles a store early only where a seventeenth comes to a line.
pub type Lazy<'a> = Lent<'a, LineRec>;

// A memory on words, eight a line. Each store settles at once; words past the last whole line are left alone.
pub type Through<'a> = Lent<'a, u64>;

pub trait Memory {
    // The lines and the count of fences.
    ghost model: { Self → Mem };

    // What this memory may settle early, and what it may keep at a cut: all that is free.
    ghost freedom: { Freedom };

    // What a memory holds besides: every method leaves it alone.
    ghost Aside: { Type 0 };

    ghost aside: { Self → Aside };

    // Every line has eight words, and what is pending and asked for fits it.
    ghost whole: { (m : Self) → Whole (model m) };

    fn line_count(&self) -> usize
        ensures { result ≡ length (model self.now).lines };

    fn fence_count(&self) -> u32
        ensures { result ≡ (model self.now).fences };

    fn load(&self, line: usize, word: usize) -> u64
        ensures { result ≡ loaded (model self.now) line word };

    fn load_line(&self, line: usize) -> [u64; 8]
        ensures { result ≡ loaded_line (model self.now) line };

    fn store(&mut self, line: usize, word: usize, value: u64)
        ensures aside { aside self.new ≡ aside self.old }
        ensures stored { (ns : List ℕ) × freedom.early_by (pushed (model self.old) line word value) ns × (model self.new ≡ stored ns (model self.old) line word value) };

    fn write_back(&mut self, line: usize)
        ensures aside { aside self.new ≡ aside self.old }
        ensures asked { (ns : List ℕ) × freedom.early_by (marked (model self.old) line) ns × (model self.new ≡ written_back ns (model self.old) line) };

    fn fence(&mut self)
        ensures aside { aside self.new ≡ aside self.old }
        ensures fenced { (ns : List ℕ) × freedom.early_by (model self.old) ns × (model self.new ≡ fenced ns (model self.old)) };

    fn cut(&mut self, kept: &[u8])
        ensures aside { aside self.new ≡ aside self.old }
        ensures cut { (ns : List ℕ) × freedom.kept_by (model self.old) kept.now ns × (model self.new ≡ cut ns (model self.old)) };
}

// What holds of any memory, whatever stores, write-backs and fences it is given from now on, and whatever a cut keeps.
pub fn settles_in_order<M: Memory>(memory: &M)
    ensures { SettlesInOrder (M.Memory.model memory.now) }
{}
