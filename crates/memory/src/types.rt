ghost use Rattle.std.specs.Prelude.{◌≡◌, ◌<◌, ◌≤◌, length};
ghost use Rattle.std.specs.List.{AllWithin};

// A store on a line: which of its words, and the value.
#[derive(Clone, Copy)]
pub struct Store {
    pub word: usize,
    pub value: u64,
}

// A line of the lazy memory: its settled words, the stores that have not settled, oldest first, and how many of these
// a write-back has asked for. Only the first `count` of the sixteen places for stores are in use.
#[derive(Clone, Copy)]
pub struct LineRec {
    pub(crate) settled: [u64; 8],
    pub(crate) stores: [Store; 16],
    pub(crate) count: usize,
    pub(crate) asked: usize,
    ghost words: { length settled ≡ 8 },
    ghost places: { length stores ≡ 16 },
    ghost counted: { count ≤ 16 },
    ghost asked_for: { asked ≤ count },
    ghost within: { AllWithin (λ s. s.word < 8) stores 0 16 },
}
