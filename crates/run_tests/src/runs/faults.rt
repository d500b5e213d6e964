//! Runs in which an object fails.

use super::*;

/// The number of the call that fails; `-` where none does.
fn call(field: &str) -> u64 {
    field.parse().unwrap_or(NEVER)
}

/// The calls that fail, in the order of the objects.
fn calls(field: &str) -> Result<[u64; 5], Fail> {
    let (keys, rest) = cut(field, ' ')?;
    let (input, rest) = cut(rest, ' ')?;
    let (store, rest) = cut(rest, ' ')?;
    let (out, note) = cut(rest, ' ')?;
    Ok([call(keys), call(input), call(store), call(out), call(note)])
}

/// A run of the first three fields, its arguments, keys and input, in which the calls of the fourth fail and the output
/// has the room of the fifth. Its outcome says the sixth, and so many bytes were written. Only where all is done a note
/// follows.
fn assert_fault<R: Abort + AllocGlobal>(rt: &R, row: &str) -> Result<(), Fail> {
    let alloc = rt.alloc();
    let (text, rest) = cut(row, '|')?;
    let (keys, rest) = cut(rest, '|')?;
    let (input, rest) = cut(rest, '|')?;
    let (fails, rest) = cut(rest, '|')?;
    let (room, rest) = cut(rest, '|')?;
    let (line, written) = cut(rest, '|')?;
    let written: usize = written.parse()?;
    let ended = run_failing(alloc, text, keys, input, room.parse()?, calls(fails)?)?;
    let said = said(alloc, &ended.outcome)?;
    assert_lines(rt, row, said.written(), line)?;
    assert_eq!(rt; ended.out.written().len(), written, "{row}");
    assert_eq!(rt; ended.note.written().is_empty(), !line.is_empty(), "{row}");
    Ok(())
}

/// `preview` uses neither the store nor the note. Where nothing is shown, the only call on the output asks for what is
/// held back.
const FAULTS: &str =
    "preview;r|rules + R1 /Hospital/Folder/Admin;|HOSPITAL|0 - 0 - 0|4096|acl: 3 KeysFault|0
preview;r|rules + R1 /Hospital/Folder/Admin;|HOSPITAL|3 0 0 0 0|4096|acl: 3 KeysFault|0
preview;r|rules + R1 /Hospital/Folder/Admin;|HOSPITAL|- 0 0 0 0|4096|acl: 18 SourceFault|0
preview;r|rules + R1 /Hospital/Folder/Admin;|HOSPITAL|- 2 0 - 0|4096|acl: 18 SourceFault|0
preview;r|rules + R1 /Hospital/Folder/Admin;|HOSPITAL|- - 0 0 0|4096|acl: 40 SinkFault|0
preview;r|rules |HOSPITAL|- - 0 0 0|4096|acl: 40 SinkFault|0
preview;r|rules - R a;|HOSPITAL|- 0 0 - 0|4096|acl: 21 BadRule line=4 at=0|0
preview;r|rules + R1 /Hospital/Folder/Admin;|HOSPITAL|- - - - -|9|acl: 40 SinkFault|9";

#[test]
fn the_object_that_fails_is_named(rt: HostRuntime) -> Result<(), Fail> {
    for row in FAULTS.lines() {
        assert_fault(&rt, row)?;
    }
    let rules = "rules + R1 /Hospital/Folder/Admin;";
    let ended = run_failing(rt.alloc(), "preview;r", rules, HOSPITAL, 9, [NEVER; 5])?;
    assert_eq!(rt; ended.out.written(), b"(-\n(-\n(Ad".as_slice());
    Ok(())
}

/// `sample` reads nothing.
const NOTES: &str = "sample;1|||0 0 0 0 -|4096|acl: 40 SinkFault|0
sample;1|||0 0 0 - 0|4096|acl: 4 NoteFault|178
encode;k|KEYS|(a;-hi;)a|- - 0 - -|100|acl: 40 SinkFault|100
encode;k|KEYS|(a;-hi;)a|- - 0 - 0|352|acl: 4 NoteFault|352
encode;k|KEYS|(a;-hi;)a|- - 0 - -|352||352";

#[test]
fn a_note_fails_after_the_whole_of_the_output(rt: HostRuntime) -> Result<(), Fail> {
    for row in NOTES.lines() {
        assert_fault(&rt, row)?;
    }
    Ok(())
}
