//! Runs of `sample`.

use super::*;

/// Arguments, and the note of their run.
const NOTES: &str = "sample;2|sample elements=20 lines=54 view=15
sample;4|sample elements=39 lines=106 view=28";

#[test]
fn a_sample_is_written_with_its_numbers(rt: HostRuntime) -> Result<(), Fail> {
    assert_row(&rt, "sample;1||||SAMPLE|sample elements=9 lines=24 view=0")?;
    for row in NOTES.lines() {
        let (text, note) = cut(row, '|')?;
        let ended = run_over(rt.alloc(), text, "", "")?;
        assert_eq!(rt; ended.outcome, Outcome::Done, "{row}");
        assert_lines(&rt, row, ended.note.written(), note)?;
    }
    Ok(())
}
