ghost use Rattle.std.specs.Prelude.{◌≡◌, ℕ, List};
ghost use Rattle.memory.specs.Model.{blank};
ghost use Rattle.memory.specs.Cells.{mem, fixed};

use super::Memory;
use super::cell::Cell;

// A memory on cells that its caller lends.
#[derive(Drop)]
pub struct Lent<'a, C> {
    pub(crate) cells: &'a mut [C],
    pub(crate) fences: u32,
}

impl<'a, C: Cell> Lent<'a, C> {
    // Makes the lines blank.
    pub fn blank(cells: &'a mut [C]) -> Self
        ensures model { mem (C.Cell.lines result.cells.now) result.fences ≡ blank (C.Cell.count cells.old) }
        ensures rest { C.Cell.rest result.cells.now ≡ C.Cell.rest cells.old }
        ensures lent { result.cells.ghost_name ≡ cells.entry.ghost_name }
    {
        C::make_blank(cells);
        Lent::over(cells)
    }

    // Takes the lines as they are.
    pub fn over(cells: &'a mut [C]) -> Self
        ensures model { mem (C.Cell.lines result.cells.now) result.fences ≡ mem (C.Cell.lines cells.old) 0 }
        ensures rest { C.Cell.rest result.cells.now ≡ C.Cell.rest cells.old }
        ensures lent { result.cells.ghost_name ≡ cells.entry.ghost_name }
    {
        Lent { cells, fences: 0 }
    }
}

impl<'a, C: Cell> Memory for Lent<'a, C> {
    ghost model = { λ m. mem (C.Cell.lines m.cells.now) m.fences };

    // Nothing is free: the cells say what settles early, and what a cut keeps.
    ghost freedom = { fixed C.Cell.early C.Cell.kept };

    ghost whole = { λ m. C.Cell.whole m.cells.now };

    // The caller's cells, by the name of the loan, and what lies past the last whole line.
    ghost Aside = { ℕ × List ℕ };

    ghost aside = { λ m. (m.cells.ghost_name, C.Cell.rest m.cells.now) };

    fn line_count(&self) -> usize {
        C::line_count(self.cells)
    }

    fn fence_count(&self) -> u32 {
        self.fences
    }

    fn load(&self, line: usize, word: usize) -> u64 {
        self.load_line(line).get(word).copied().unwrap_or(0)
    }

    fn load_line(&self, line: usize) -> [u64; 8] {
        C::load_line(self.cells, line)
    }

    fn store(&mut self, line: usize, word: usize, value: u64) {
        C::store(self.cells, line, word, value);
    }

    fn write_back(&mut self, line: usize) {
        C::write_back(self.cells, line);
    }

    fn fence(&mut self) {
        C::fence(self.cells);
        self.fences = self.fences.wrapping_add(1);
    }

    fn cut(&mut self, kept: &[u8]) {
        C::cut(self.cells, kept);
        self.fences = 0;
    }
}
