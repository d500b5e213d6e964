//! Each outcome has the number and the line that the table of outcomes in docs/FORMATS.md gives it.

use super::*;
use acl_outside::MemSink;
use std::test::Fail;

const ZEROS: &str = "0000000000000000000000000000000000000000000000000000000000000000";

const ROOT: [u8; 32] = [
    0xba, 0x78, 0x16, 0xbf, 0x8f, 0x01, 0xcf, 0xea, 0x41, 0x41, 0x40, 0xde, 0x5d, 0xae, 0x22, 0x23,
    0xb0, 0x03, 0x61, 0xa3, 0x96, 0x17, 0x7a, 0x9c, 0xb4, 0x10, 0xff, 0x61, 0xf2, 0x00, 0x15, 0xad,
];

const ROOT_DIGITS: &str = "ba7816bf8f01cfea414140de5dae2223b00361a396177a9cb410ff61f20015ad";

#[test]
fn each_outcome_has_its_number_and_its_line(rt: HostRuntime) -> Result<(), Fail> {
    let alloc = rt.alloc();
    for (outcome, number, line) in [
        (Outcome::Done, 0, ""),
        (Outcome::NoMemory, 1, "1 NoMemory"),
        (Outcome::Usage, 2, "2 Usage"),
        (Outcome::KeysFault, 3, "3 KeysFault"),
        (Outcome::NoteFault, 4, "4 NoteFault"),
        (Outcome::BadLine { line: 0 }, 10, "10 BadLine line=0"),
        (
            Outcome::Unsupported { line: 2, kind: 78 },
            11,
            "11 Unsupported line=2 kind=78",
        ),
        (Outcome::Unbalanced { line: 3 }, 12, "12 Unbalanced line=3"),
        (Outcome::NoRoot, 13, "13 NoRoot"),
        (Outcome::SecondRoot { line: 3 }, 14, "14 SecondRoot line=3"),
        (Outcome::TooDeep { line: 256 }, 15, "15 TooDeep line=256"),
        (
            Outcome::NameTooLong { line: 1 },
            16,
            "16 NameTooLong line=1",
        ),
        (
            Outcome::InputTooLong { limit: 33_554_432 },
            17,
            "17 InputTooLong limit=33554432",
        ),
        (Outcome::SourceFault, 18, "18 SourceFault"),
        (
            Outcome::TooManyAttributes { line: 65_536 },
            19,
            "19 TooManyAttributes line=65536",
        ),
        (
            Outcome::BadRule { line: 4, at: 1024 },
            21,
            "21 BadRule line=4 at=1024",
        ),
        (
            Outcome::BadLicence { line: u32::MAX },
            22,
            "22 BadLicence line=4294967295",
        ),
        (Outcome::TooManyRules, 23, "23 TooManyRules"),
        (Outcome::TooManyStates, 24, "24 TooManyStates"),
        (Outcome::BadKeys { line: 2 }, 25, "25 BadKeys line=2"),
        (Outcome::BadQuery { at: 0 }, 26, "26 BadQuery at=0"),
        (Outcome::BadHeader, 30, "30 BadHeader"),
        (
            Outcome::WrongKey {
                want: [0; 16],
                made: [255; 16],
            },
            32,
            "32 WrongKey want=00000000000000000000000000000000 made=ffffffffffffffffffffffffffffffff",
        ),
        (
            Outcome::StoreShort { at: u64::MAX },
            33,
            "33 StoreShort at=18446744073709551615",
        ),
        (Outcome::StoreFault, 34, "34 StoreFault"),
        (Outcome::TooManyTags, 36, "36 TooManyTags"),
        (Outcome::TooLarge, 37, "37 TooLarge"),
        (Outcome::BadIndex, 38, "38 BadIndex"),
        (Outcome::SinkFault, 40, "40 SinkFault"),
        (
            Outcome::Stopped {
                watcher: 0,
                line: 4,
            },
            41,
            "41 Stopped watcher=0 line=4",
        ),
    ] {
        let mut errors = MemSink::new(alloc, 200, Vec::new(alloc))?;
        assert!(rt; outcome_text(&outcome, &mut errors).is_ok(), "{line}");
        assert_eq!(rt; status(&outcome), number, "{line}");
        let mut wanted = Vec::new(alloc);
        if !line.is_empty() {
            wanted.extend_from_slice(b"acl: ")?;
            wanted.extend_from_slice(line.as_bytes())?;
            wanted.push(b'\n')?;
        }
        assert_eq!(rt; errors.written(), wanted.as_slice(), "{line}");
    }
    Ok(())
}

#[test]
fn digests_are_written_in_lower_case(rt: HostRuntime) -> Result<(), Fail> {
    let alloc = rt.alloc();
    let zero = [0; 32];
    for (outcome, number, name, first, second) in [
        (
            Outcome::BadSeal {
                given: zero,
                made: ROOT,
            },
            20,
            "BadSeal",
            "given",
            "made",
        ),
        (
            Outcome::WrongRoot {
                want: zero,
                made: ROOT,
            },
            31,
            "WrongRoot",
            "want",
            "made",
        ),
        (
            Outcome::BadFragment {
                index: 131_071,
                want: zero,
                made: ROOT,
            },
            35,
            "BadFragment index=131071",
            "want",
            "made",
        ),
    ] {
        let mut errors = MemSink::new(alloc, 200, Vec::new(alloc))?;
        assert!(rt; outcome_text(&outcome, &mut errors).is_ok(), "{name}");
        assert_eq!(rt; status(&outcome), number, "{name}");
        let wanted = format!(in alloc;
            "acl: {number} {name} {first}={ZEROS} {second}={ROOT_DIGITS}\n"
        )?;
        assert_eq!(rt; errors.written(), wanted.as_bytes(), "{name}");
    }
    Ok(())
}

#[test]
fn a_line_is_cut_where_the_sink_is_full(rt: HostRuntime) -> Result<(), Fail> {
    let alloc = rt.alloc();
    let mut errors = MemSink::new(alloc, 20, Vec::new(alloc))?;
    assert!(rt; outcome_text(&Outcome::BadRule { line: 4, at: 7 }, &mut errors).is_err());
    assert_eq!(rt; errors.written(), b"acl: 21 BadRule line".as_slice());
    Ok(())
}
