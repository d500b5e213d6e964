use super::Row;
use std::process::Abort;

/// The next number of a linear congruential generator, with Knuth's constants of MMIX.
fn next(state: u64) -> u64 {
    state
        .wrapping_mul(6_364_136_223_846_793_005)
        .wrapping_add(1_442_695_040_888_963_407)
}

/// Checks that each call of the set returns what the table says.
fn expect_same(rt: &impl Abort, row: &Row, plain: &[bool; 256]) {
    let mut below = 0u16;
    let mut left = *row;
    for n in 0..256u16 {
        let member = plain[n as usize];
        assert_eq!(rt; row.has(n), member, "has {n}");
        assert_eq!(rt; row.rank(n), below, "rank {n}");
        if member {
            assert_eq!(rt; row.nth(below), Some(n), "nth {below}");
            assert_eq!(rt; left.take_first(), Some(n), "take_first {below}");
            below = below.saturating_add(1);
        }
    }
    assert_eq!(rt; left.take_first(), None);
    assert_eq!(rt; left.count(), 0);
    assert_eq!(rt; row.count(), below);
    assert_eq!(rt; row.rank(256), below);
    assert_eq!(rt; row.rank(u16::MAX), below);
    assert_eq!(rt; row.nth(below), None);
    assert_eq!(rt; row.nth(u16::MAX), None);
    assert!(rt; !row.has(256) && !row.has(u16::MAX));
}

// The table is an array of `bool`, filled with the same numbers as the set.
#[test]
fn many_sets_answer_as_a_plain_table_does(rt: HostRuntime) {
    let mut state = 7u64;
    for size in [0, 1, 3, 60, 700] {
        let mut row = Row::none();
        let mut plain = [false; 256];
        for _ in 0..size {
            state = next(state);
            let n = (state >> 56) as u16;
            row.put(n);
            plain[n as usize] = true;
        }
        expect_same(&rt, &row, &plain);
    }
}

#[test]
fn the_first_numbers_make_a_full_set(rt: HostRuntime) {
    for count in [0, 1, 63, 64, 65, 128, 192, 255, 256u16] {
        let mut plain = [false; 256];
        for n in 0..count {
            plain[n as usize] = true;
        }
        expect_same(&rt, &Row::full(count), &plain);
    }
}

// Members at the edges of words; the answers are worked out by hand.
#[test]
fn members_at_the_edges_of_words_are_told_apart(rt: HostRuntime) {
    let mut edges = Row::none();
    for n in [255, 64, 0, 63] {
        edges.put(n);
    }
    for (n, rank) in [
        (0, 0),
        (1, 1),
        (63, 1),
        (64, 2),
        (65, 3),
        (128, 3),
        (255, 3),
        (256, 4),
    ] {
        assert_eq!(rt; edges.rank(n), rank, "rank {n}");
    }
    for (k, member) in [
        (0, Some(0)),
        (1, Some(63)),
        (2, Some(64)),
        (3, Some(255)),
        (4, None),
    ] {
        assert_eq!(rt; edges.nth(k), member, "nth {k}");
    }
    let before = edges;
    edges.put(1);
    assert!(rt; before != edges && before.rank(64) == 2 && edges.rank(64) == 3);
    let mut last = Row::none();
    last.put(255);
    let mut joined = Row::full(255);
    assert!(rt; edges.meets(&last) && !joined.meets(&last) && !Row::none().meets(&edges));
    joined.join(&last);
    assert_eq!(rt; joined, Row::full(256));
    assert!(rt; joined != edges);
}
