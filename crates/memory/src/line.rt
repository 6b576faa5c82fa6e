ghost use Rattle.std.specs.Prelude.{◌≡◌, ◌-◌, ◌<◌, ◌≤◌, take, slice_index};
ghost use Rattle.std.specs.List.{AllByRecursion};
ghost use Rattle.memory.specs.Model.{settled_line, words_of, written, settle, push_store, ask, fence_line, cut_line};
ghost use Rattle.memory.specs.Lazy.{line_of, early_count};

use super::types::{LineRec, Store};

const PLACES: usize = 16;

// The words after stores made on them, the first one first.
fn made(mut words: [u64; 8], stores: &[Store]) -> [u64; 8]
    requires { AllByRecursion (λ s. s.word < 8) stores.now }
    ensures { result ≡ written words stores.now }
{
    for s in stores {
        words[s.word] = s.value;
    }
    words
}

impl LineRec {
    // A line with these words settled, and nothing pending.
    pub fn new(settled: [u64; 8]) -> Self
        ensures { line_of result ≡ settled_line settled }
    {
        LineRec {
            settled,
            stores: [Store { word: 0, value: 0 }; 16],
            count: 0,
            asked: 0,
        }
    }

    // The settled words with the n oldest stores made on them.
    #[tactic(auto, using(crate::proofs::Records::some_within))]
    fn made_first(&self, n: usize) -> [u64; 8]
        requires { n ≤ self.now.count }
        ensures { result ≡ written self.now.settled (take n self.now.stores) }
    {
        made(self.settled, &self.stores[..n])
    }

    // The words as a load gives them.
    pub(crate) fn words(&self) -> [u64; 8]
        ensures { result ≡ words_of (line_of self.now) }
    {
        self.made_first(self.count)
    }

    // The line once its n oldest stores have settled.
    #[tactic(auto, using(crate::proofs::Records::settles))]
    fn settle(self, n: usize) -> LineRec
        requires { n ≤ self.count }
        ensures line { line_of result ≡ settle n (line_of self) }
        ensures count { result.count ≡ self.count - n }
    {
        let mut stores = self.stores;
        stores.rotate_left(n);
        LineRec {
            settled: self.made_first(n),
            stores,
            count: self.count - n,
            asked: self.asked.saturating_sub(n),
        }
    }

    // A store on a line with room for it.
    fn append(&mut self, word: usize, value: u64)
        requires word { word < 8 }
        requires room { self.old.count < 16 }
        ensures { line_of self.new ≡ push_store (line_of self.old) word value }
    {
        self.stores[self.count] = Store { word, value };
        self.count += 1;
    }

    // A store; where it is the seventeenth, the oldest settles.
    pub(crate) fn push(&mut self, word: usize, value: u64)
        requires { word < 8 }
        ensures { line_of self.new ≡ settle (early_count (push_store (line_of self.old) word value)) (push_store (line_of self.old) word value) }
    {
        if self.count == PLACES {
            *self = self.settle(1);
        }
        self.append(word, value);
    }

    // A write-back.
    pub(crate) fn ask(&mut self)
        ensures { line_of self.new ≡ ask (line_of self.old) }
    {
        self.asked = self.count;
    }

    // A fence: just what was asked for settles.
    pub(crate) fn fence(&mut self)
        ensures { line_of self.new ≡ fence_line 0 (line_of self.old) }
    {
        if self.asked > 0 {
            *self = self.settle(self.asked);
        }
    }

    // The settled words with the n oldest stores made on them, or all if there are fewer.
    #[tactic(auto, using(crate::proofs::Records::made_first))]
    fn words_after(&self, n: u8) -> [u64; 8]
        ensures { result ≡ (cut_line n (line_of self.now)).settled }
    {
        self.made_first(self.count.min(usize::from(n)))
    }

    // A cut: the `kept` oldest stores settle, and the others are lost.
    pub(crate) fn cut(&mut self, kept: u8)
        ensures { line_of self.new ≡ cut_line kept (line_of self.old) }
    {
        *self = LineRec::new(self.words_after(kept));
    }
}
