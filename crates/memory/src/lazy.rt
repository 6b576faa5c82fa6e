ghost use Rattle.std.specs.Prelude.{◌≡◌, [], map, length, slice_index};
ghost use Rattle.memory.specs.Lazy.{line_of, lazy_whole, early_count};

use super::cell::Cell;
use super::types::LineRec;

// A record is a line. It settles a store early only where it would be the seventeenth.
impl Cell for LineRec {
    ghost lines = { λ rs. map line_of rs };

    ghost count = { length };

    ghost rest = { λ rs. [] };

    ghost early = { early_count };

    ghost kept = { λ bytes. bytes };

    ghost whole = { lazy_whole };

    #[tactic(auto, using(crate::proofs::Lazies::blanked))]
    fn make_blank(cells: &mut [LineRec]) {
        cells.fill(LineRec::new([0; 8]));
    }

    fn line_count(cells: &[LineRec]) -> usize {
        cells.len()
    }

    fn load_line(cells: &[LineRec], line: usize) -> [u64; 8] {
        match cells.get(line) {
            Some(rec) => rec.words(),
            None => [0; 8],
        }
    }

    #[tactic(auto, using(crate::proofs::Lazies::stored_there, crate::proofs::Absent::stored_no_line, crate::proofs::Absent::stored_no_word))]
    fn store(cells: &mut [LineRec], line: usize, word: usize, value: u64) {
        if word < 8 && line < cells.len() {
            let rec = &mut cells[line];
            rec.push(word, value);
        }
    }

    #[tactic(auto, using(crate::proofs::Lazies::asked_there, crate::proofs::Absent::asked_no_line))]
    fn write_back(cells: &mut [LineRec], line: usize) {
        if line < cells.len() {
            let rec = &mut cells[line];
            rec.ask();
        }
    }

    #[tactic(auto, using(crate::proofs::Sweeps::swept_all, crate::proofs::Lazies::fence_calm))]
    fn fence(cells: &mut [LineRec]) {
        for rec in cells.iter_mut() {
            rec.fence();
        }
    }

    #[tactic(auto, using(crate::proofs::Sweeps::swept_all))]
    fn cut(cells: &mut [LineRec], bytes: &[u8]) {
        for (l, rec) in cells.iter_mut().enumerate() {
            rec.cut(byte_at(bytes, l));
        }
    }
}

// Byte l, or 0 past the end.
fn byte_at(bytes: &[u8], l: usize) -> u8
    ensures { result ≡ slice_index bytes.now l }
{
    bytes.get(l).copied().unwrap_or(0)
}
