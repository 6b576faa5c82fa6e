ghost use Rattle.std.specs.Prelude.{◌≡◌, ℕ, List, map, length, replicate, slice_index_or};
ghost use Rattle.std.specs.List.{AllByRecursion};
ghost use Rattle.memory.specs.Model.{Line, WholeLine, blank_line, words_of, each, chosen, pushed, stored, marked, written_back, fence_line, cut_line};
ghost use Rattle.memory.specs.Cells.{mem};

// What a memory can be lent: a slice of cells that holds its lines. Each method leaves alone what lies past them.
pub trait Cell: Sized {
    ghost lines: { List Self → List Line };

    // How many lines cells hold.
    ghost count: { List Self → ℕ };

    ghost rest: { List Self → List ℕ };

    // How many stores of a line settle early.
    ghost early: { Line → ℕ };

    // How many stores of each line a cut with these bytes keeps.
    ghost kept: { List ℕ → List ℕ };

    ghost whole: { (cs : List Self) → AllByRecursion WholeLine (lines cs) };

    fn make_blank(cells: &mut [Self])
        ensures lines { lines cells.new ≡ replicate (count cells.old) blank_line }
        ensures rest { rest cells.new ≡ rest cells.old };

    fn line_count(cells: &[Self]) -> usize
        ensures { result ≡ length (lines cells.now) };

    fn load_line(cells: &[Self], line: usize) -> [u64; 8]
        ensures { result ≡ words_of (slice_index_or (lines cells.now) line blank_line) };

    fn store(cells: &mut [Self], line: usize, word: usize, value: u64)
        ensures stored { (n : ℕ) → mem (lines cells.new) n ≡ stored (chosen early (pushed (mem (lines cells.old) n) line word value)) (mem (lines cells.old) n) line word value }
        ensures rest { rest cells.new ≡ rest cells.old };

    fn write_back(cells: &mut [Self], line: usize)
        ensures asked { (n : ℕ) → mem (lines cells.new) n ≡ written_back (chosen early (marked (mem (lines cells.old) n) line)) (mem (lines cells.old) n) line }
        ensures rest { rest cells.new ≡ rest cells.old };

    fn fence(cells: &mut [Self])
        ensures fenced { lines cells.new ≡ each fence_line (map early (lines cells.old)) (lines cells.old) }
        ensures rest { rest cells.new ≡ rest cells.old };

    fn cut(cells: &mut [Self], bytes: &[u8])
        ensures cut { lines cells.new ≡ each cut_line (kept bytes.now) (lines cells.old) }
        ensures rest { rest cells.new ≡ rest cells.old };
}
