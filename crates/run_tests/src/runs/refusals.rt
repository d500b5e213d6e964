//! Runs whose arguments, keys or input are refused: the outcome says why, and nothing is written.

use super::*;

/// The first line is one empty argument.
const USAGE: &str = "
fly
Preview;r
preview
preview;r;more
preview;r;--explain;--query;/a
preview;r;--query=/a;--explain
preview;r;--explain;--explain
preview;r;--query;/a;--query;/a
preview;r;--query
preview;r;--query;
preview;r;--query=
preview;r;--query;-a
preview;r;--query;--explain
seal
seal;k;x
seal;k;--explain
view;k
view;k;s;--query
view;k;s;--explain
view;k;s;t
explain;k
explain;k;s;--query;/a
explain;k;s;t
sample
sample;0
sample;20001
sample;007
sample;1000000
sample;+5
sample;
sample;2;3
encode
encode;k;x
--help
--version";

#[test]
fn other_words_are_no_command_line(rt: HostRuntime) -> Result<(), Fail> {
    let alloc = rt.alloc();
    for text in USAGE.lines() {
        let row = format!(in alloc; "{text}|rules + R /a;|(a;)a|acl: 2 Usage||")?;
        assert_row(&rt, row.as_str())?;
    }
    let nothing = Objects {
        keys: &[],
        input: &[],
        store: &[],
        room: 0,
        fails: [0; 5],
    };
    let ended = run_with(alloc, &[], nothing)?;
    assert_ended(&rt, "no argument", &ended, ["acl: 2 Usage", "", ""])
}

/// What is read first is refused first.
const REFUSALS: &str = "preview;r||(a;)a|acl: 22 BadLicence line=1||
preview;r|licence 1;root {64*0};user Ana|(a;)a|acl: 22 BadLicence line=4||
preview;r|rules + R /a;- R /b;|(a;)a|acl: 22 BadLicence line=5||
preview;r|rules + R //a[b = ];|xyz|acl: 21 BadRule line=4 at=8||
preview;r;--query;Act|rules + R //a[b = ];|xyz|acl: 21 BadRule line=4 at=8||
preview;r;--query;Act|rules + R /a;|xyz|acl: 26 BadQuery at=0||
preview;r;--query;//a[b|rules + R /a;|(a;)a|acl: 26 BadQuery at=5||
preview;r;--query;{257*/a}|rules + R /a;|xyz|acl: 24 TooManyStates||
preview;r;--explain|rules + R /a;||acl: 13 NoRoot||
preview;r|rules + R /a;|xyz|acl: 10 BadLine line=1||
preview;r|rules + R /a;|(a;)b|acl: 12 Unbalanced line=2||
preview;r|rules + R /a;|(a;)a;(b|acl: 14 SecondRoot line=3||
preview;r|rules + R /a;|(a;Nx|acl: 11 Unsupported line=2 kind=78||
preview;r|rules + R /a;|(a;Ax CDATA 1;)a|acl: 12 Unbalanced line=3||
encode;k|document 00|xyz|acl: 25 BadKeys line=1||
encode;k|document {16*00}|xyz|acl: 25 BadKeys line=2||
encode;k|KEYS|(a;)b|acl: 12 Unbalanced line=2||
seal;k|document 00||acl: 25 BadKeys line=1||
seal;k|document {16*00}|rules + R /a;|acl: 25 BadKeys line=2||
seal;k|KEYS|licence 1;root {64*0};user Ana|acl: 22 BadLicence line=4||
seal;k|KEYS|rules + R //a[b = ];|acl: 21 BadRule line=4 at=8||";

#[test]
fn what_is_refused_is_named_and_nothing_is_written(rt: HostRuntime) -> Result<(), Fail> {
    for row in REFUSALS.lines() {
        assert_row(&rt, row)?;
    }
    Ok(())
}

const LIMITS: &str = "preview;r|rules {65*+ R# /a#;}|(a;)a|acl: 23 TooManyRules||
preview;r|rules {52*+ R# /a/a/a/a/a;}- S /b;|(a;)a|acl: 24 TooManyStates||
preview;r|rules + R /a;|{256*(a;}|acl: 15 TooDeep line=256||
preview;r|rules + R /a;|({256*n}|acl: 16 NameTooLong line=1||
preview;r|rules + R /a;|{65536*Ax CDATA;}|acl: 19 TooManyAttributes line=65536||
preview;r|{131072*-}|xyz|acl: 17 InputTooLong limit=131072||
seal;k|{131072*-}|xyz|acl: 17 InputTooLong limit=131072||
seal;k|KEYS|{131072*-}|acl: 17 InputTooLong limit=131072||
encode;k|KEYS|(r;{256*(n#;)n#;})r|acl: 36 TooManyTags||";

#[test]
fn limits_are_kept(rt: HostRuntime) -> Result<(), Fail> {
    for row in LIMITS.lines() {
        assert_row(&rt, row)?;
    }
    Ok(())
}
