ghost use Rattle.std.specs.Prelude.{ℕ, List, [], ◌/◌, length};
ghost use Rattle.memory.specs.Through.{whole_lines, through_whole, rest_of, all_pending};

use super::cell::Cell;

// A word: eight of them are a line, and each store settles at once, so that a write-back, a fence and a cut find nothing
// to settle.
impl Cell for u64 {
    ghost lines = { whole_lines };

    ghost count = { λ ws. length ws / 8 };

    ghost rest = { rest_of };

    ghost early = { all_pending };

    ghost kept = { λ bytes. [] };

    ghost whole = { through_whole };

    #[tactic(auto, using(crate::proofs::Throughs::blanked))]
    fn make_blank(cells: &mut [u64]) {
        let whole = 8 * (cells.len() / 8);
        cells[..whole].fill(0);
    }

    #[tactic(auto, using(crate::proofs::Throughs::length_lines))]
    fn line_count(cells: &[u64]) -> usize {
        cells.len() / 8
    }

    #[tactic(auto, using(crate::proofs::Throughs::line_there, crate::proofs::Throughs::words_absent))]
    fn load_line(cells: &[u64], line: usize) -> [u64; 8] {
        let mut found = [0; 8];
        if line < cells.len() / 8 {
            found.copy_from_slice(&cells[8 * line..8 * line + 8]);
        }
        found
    }

    #[tactic(auto, using(crate::proofs::Throughs::stored_there, crate::proofs::Absent::stored_no_line, crate::proofs::Absent::stored_no_word, crate::proofs::Throughs::length_lines))]
    fn store(cells: &mut [u64], line: usize, word: usize, value: u64) {
        if word < 8 && line < cells.len() / 8 {
            cells[8 * line + word] = value;
        }
    }

    #[tactic(auto, using(crate::proofs::Throughs::asked_none))]
    fn write_back(cells: &mut [u64], line: usize) {}

    #[tactic(auto, using(crate::proofs::Throughs::fence_none))]
    fn fence(cells: &mut [u64]) {}

    #[tactic(auto, using(crate::proofs::Throughs::cut_none))]
    fn cut(cells: &mut [u64], bytes: &[u8]) {}
}
