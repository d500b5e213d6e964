use super::Flags;
use std::alloc::{AllocError, Global};
use std::process::Abort;
use std::test::Fail;

/// The number of flags of each list in the table: two whole words and two flags.
const LEN: usize = 130;

/// A list of `LEN` flags in which those with the given numbers are set.
fn flags_with(alloc: Global, numbers: &[usize]) -> Result<Flags, AllocError> {
    let mut flags = Flags::new(alloc);
    flags.grow(LEN)?;
    for n in numbers {
        if *n < flags.len() {
            flags.put(*n);
        }
    }
    Ok(flags)
}

/// Checks that the flags with the given numbers are set, and no others.
fn expect_set(rt: &impl Abort, what: &str, flags: &Flags, numbers: &[usize]) {
    for n in 0..200usize {
        assert_eq!(rt; flags.has(n), numbers.contains(&n), "{what}: {n}");
    }
    assert!(rt; !flags.has(usize::MAX), "{what}");
}

// Worked by hand. Each case has a name, the tests that pass, the deep flags, the child's flags, and the flags before
// and after `rise`.
#[test]
fn flags_rise_one_element_further_out(rt: HostRuntime) -> Result<(), Fail> {
    let rows: [(&str, [&[usize]; 5]); 13] = [
        ("nothing", [&[], &[], &[], &[], &[]]),
        (
            "what was set stays",
            [&[], &[], &[], &[0, 63, 64, 129], &[0, 63, 64, 129]],
        ),
        ("within a word", [&[1, 65], &[], &[0, 64], &[], &[1, 65]]),
        ("from word 0 to word 1", [&[64], &[], &[63], &[], &[64]]),
        ("from word 1 to word 2", [&[128], &[], &[127], &[], &[128]]),
        (
            "from both words",
            [&[64, 128], &[], &[63, 127], &[2], &[2, 64, 128]],
        ),
        ("the test fails", [&[63], &[], &[63, 127], &[], &[]]),
        (
            "the flag before is not set",
            [&[63, 64, 128], &[], &[64, 128], &[], &[]],
        ),
        ("none before the first", [&[0], &[], &[0, 129], &[], &[]]),
        ("none after the last", [&[129], &[], &[129], &[], &[]]),
        (
            "deep",
            [&[], &[0, 63, 64, 128], &[0, 63, 64, 127], &[], &[0, 63, 64]],
        ),
        (
            "deep, and set before it alone",
            [&[], &[5, 64], &[4, 63], &[], &[]],
        ),
        (
            "deep, and the test after it",
            [&[64], &[63], &[63], &[], &[63, 64]],
        ),
    ];
    for (what, [tests, deep, below, before, after]) in rows {
        let tests = flags_with(rt.alloc(), tests)?;
        let deep = flags_with(rt.alloc(), deep)?;
        let below = flags_with(rt.alloc(), below)?;
        let mut own = flags_with(rt.alloc(), before)?;
        if below.len() == own.len() && tests.len() == own.len() && deep.len() == own.len() {
            own.rise(&below, &tests, &deep);
        }
        expect_set(&rt, what, &own, after);
    }
    Ok(())
}

// Flags at the edges of words, and numbers past the end.
#[test]
fn flags_are_set_where_they_were_put(rt: HostRuntime) -> Result<(), Fail> {
    for numbers in [
        [].as_slice(),
        [0].as_slice(),
        [63].as_slice(),
        [64].as_slice(),
        [127, 128].as_slice(),
        [0, 63, 64, 129].as_slice(),
    ] {
        let flags = flags_with(rt.alloc(), numbers)?;
        assert_eq!(rt; flags.len(), LEN);
        expect_set(&rt, "put", &flags, numbers);
    }
    Ok(())
}

// Up to the end of a word, over it, and far past it.
#[test]
fn flags_that_are_added_are_not_set(rt: HostRuntime) -> Result<(), Fail> {
    let mut flags = Flags::new(rt.alloc());
    expect_set(&rt, "new", &flags, &[]);
    for (count, len, put, numbers) in [
        (0, 0, 0, [].as_slice()),
        (1, 1, 0, [0].as_slice()),
        (63, 64, 63, [0, 63].as_slice()),
        (1, 65, 64, [0, 63, 64].as_slice()),
        (0, 65, 64, [0, 63, 64].as_slice()),
        (100, 165, 164, [0, 63, 64, 164].as_slice()),
    ] {
        flags.grow(count)?;
        assert_eq!(rt; flags.len(), len);
        if put < flags.len() {
            flags.put(put);
        }
        expect_set(&rt, "grown", &flags, numbers);
    }
    assert!(rt; flags.grow(usize::MAX).is_err());
    Ok(())
}
