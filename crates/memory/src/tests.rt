use super::types::LineRec;
use super::{Lazy, Memory, Through};

fn line() -> LineRec {
    LineRec::new([0; 8])
}

// Stores 1, 2, .. up to n in word 0 of line 0.
fn store_up_to<M: Memory>(memory: &mut M, n: u64) {
    for value in 1..=n {
        memory.store(0, 0, value);
    }
}

#[test]
fn lazy_settles_the_oldest_of_seventeen(rt: HostRuntime) {
    let mut sixteen = [line(); 1];
    let mut memory = Lazy::blank(&mut sixteen);
    store_up_to(&mut memory, 16);
    assert_eq!(rt; memory.load(0, 0), 16);
    memory.cut(&[0]);
    assert_eq!(rt; memory.load(0, 0), 0);
    store_up_to(&mut memory, 17);
    assert_eq!(rt; memory.load(0, 0), 17);
    memory.cut(&[0]);
    assert_eq!(rt; memory.load(0, 0), 1);
}

#[test]
fn lazy_fence_settles_what_was_asked(rt: HostRuntime) {
    let mut lines = [line(); 2];
    let mut memory = Lazy::blank(&mut lines);
    memory.store(0, 7, 5);
    memory.write_back(0);
    memory.store(0, 6, 6);
    memory.store(1, 0, 7);
    memory.fence();
    assert_eq!(rt; memory.fence_count(), 1);
    memory.cut(&[]);
    assert_eq!(rt; memory.load_line(0), [0, 0, 0, 0, 0, 0, 0, 5]);
    assert_eq!(rt; memory.load_line(1), [0; 8]);
    assert_eq!(rt; memory.fence_count(), 0);
}

#[test]
fn lazy_cut_keeps_first_parts(rt: HostRuntime) {
    let mut lines = [line(); 3];
    let mut memory = Lazy::blank(&mut lines);
    for l in 0..3 {
        memory.store(l, 0, 1);
        memory.store(l, 1, 2);
    }
    memory.cut(&[1, 255]);
    assert_eq!(rt; memory.load_line(0), [1, 0, 0, 0, 0, 0, 0, 0]);
    assert_eq!(rt; memory.load_line(1), [1, 2, 0, 0, 0, 0, 0, 0]);
    assert_eq!(rt; memory.load_line(2), [0; 8]);
    memory.cut(&[9, 9, 9, 9, 9]);
    assert_eq!(rt; memory.load_line(1), [1, 2, 0, 0, 0, 0, 0, 0]);
}

#[test]
fn lazy_absent_lines_and_words(rt: HostRuntime) {
    let mut lines = [line(); 2];
    let mut memory = Lazy::blank(&mut lines);
    assert_eq!(rt; memory.line_count(), 2);
    memory.store(2, 0, 9);
    memory.store(1, 8, 9);
    memory.write_back(2);
    memory.store(1, 7, 3);
    assert_eq!(rt; memory.load(2, 0), 0);
    assert_eq!(rt; memory.load(1, 8), 0);
    assert_eq!(rt; memory.load_line(2), [0; 8]);
    assert_eq!(rt; memory.load(1, 7), 3);
}

#[test]
fn the_fence_count_goes_round(rt: HostRuntime) {
    let mut lines = [line(); 0];
    let mut memory = Lazy {
        cells: &mut lines,
        fences: u32::MAX,
    };
    memory.fence();
    assert_eq!(rt; memory.fence_count(), 0);
    memory.fence();
    assert_eq!(rt; memory.fence_count(), 1);
}

#[test]
fn through_settles_at_once_and_leaves_the_rest(rt: HostRuntime) {
    let mut words = [4u64; 19];
    {
        let mut memory = Through::blank(&mut words);
        assert_eq!(rt; memory.line_count(), 2);
        memory.store(1, 7, 3);
        memory.store(2, 0, 9);
        memory.store(1, 8, 9);
        memory.write_back(1);
        memory.cut(&[0, 0]);
        assert_eq!(rt; memory.load_line(1), [0, 0, 0, 0, 0, 0, 0, 3]);
        assert_eq!(rt; memory.load(2, 0), 0);
        memory.fence();
        assert_eq!(rt; memory.fence_count(), 1);
    }
    assert_eq!(rt; words[15], 3);
    assert_eq!(rt; words[16], 4);
    assert_eq!(rt; words[18], 4);
}

#[test]
fn memories_over_what_there_is(rt: HostRuntime) {
    let mut lines = [LineRec::new([1, 2, 3, 4, 5, 6, 7, 8]); 1];
    assert_eq!(rt; Lazy::over(&mut lines).load(0, 7), 8);
    let mut words = [5u64; 8];
    assert_eq!(rt; Through::over(&mut words).load(0, 7), 5);
}
