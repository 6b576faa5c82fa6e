use journal::{entry_line, log_start, used_lines};
use memory::Memory;
use model::Update;

// Stores a line of an entry, its mark last, and asks for its write-back.
fn lay_line<M: Memory>(memory: &mut M, line: usize, words: [u64; 8]) {
    memory.store(line, 7, 0);
    for (word, value) in words.iter().enumerate() {
        memory.store(line, word, *value);
    }
    memory.write_back(line);
}

// Lays down an entry of a station for a place at its log's first free lines; line t carries the update at place - t.
pub(super) fn lay<M: Memory>(memory: &mut M, station: u64, place: u64, updates: &[Update]) {
    let free = log_start(memory, station).saturating_add(used_lines(memory, station));
    for (t, update) in updates.iter().enumerate() {
        let words = entry_line(place, updates.len() as u64, t as u64, *update);
        lay_line(memory, free.saturating_add(t), words);
    }
}
