//! Tests of the stores in memory, of the store over real files, and of its loop over a file in memory whose reads are
//! short, interrupted or fail.
ghost use Rattle.std.specs.Prelude.{Some};
ghost use Rattle.acl_outside.specs.inside.Tries.{unknown_tries};

use super::Stumbling;
use crate::pieces::copy_prefix;
use crate::positioned_read::{PositionedRead, read_full_at};
use crate::*;
use std::alloc::Global;
use std::fs::{self, File};
use std::io;
use std::os::unix::fs::FileExt;
use std::process::Abort;
use std::test::Fail;

const FOUR_GIB: u64 = 1 << 32;

/// Reads into a buffer of three bytes, and compares the answer and the bytes given.
fn expect_read_at<S: Store>(rt: &impl Abort, store: &mut S, at: u64, want: Result<&[u8], Failed>) {
    let mut room = [0u8; 3];
    let got = store.read_at(at, &mut room);
    match want {
        Ok(bytes) => {
            assert_eq!(rt; got, Ok(bytes.len()), "at {at}");
            assert!(rt; bytes.len() <= 3);
            assert_eq!(rt; &room[..bytes.len()], bytes, "at {at}");
        }
        Err(Failed) => assert_eq!(rt; got, Err(Failed), "at {at}"),
    }
}

#[test]
fn a_store_gives_the_part_at_a_place_cut_at_its_end(rt: HostRuntime) -> Result<(), Fail> {
    let path = "acl_outside_store";
    fs::write(&rt, path, b"abcde")?;
    let mut sure = SureStore::new(Vec::from_slice(rt.alloc(), b"abcde")?);
    let bytes = Vec::from_slice(rt.alloc(), b"abcde")?;
    let mut in_memory = MemStore::new(bytes, Vec::new(rt.alloc()));
    let mut in_file = FileStore::new(Some(File::open(&rt, path)?));
    let places: [(u64, &[u8]); 8] = [
        (0, b"abc"),
        (1, b"bcd"),
        (3, b"de"),
        (5, b""),
        (6, b""),
        (FOUR_GIB, b""),
        (1 << 63, b""),
        (u64::MAX, b""),
    ];
    for (at, want) in places {
        expect_read_at(&rt, &mut sure, at, Ok(want));
        expect_read_at(&rt, &mut in_memory, at, Ok(want));
        expect_read_at(&rt, &mut in_file, at, Ok(want));
    }
    fs::remove_file(&rt, path)?;
    Ok(())
}

#[test]
fn a_store_in_memory_fails_at_the_chosen_reads(rt: HostRuntime) -> Result<(), Fail> {
    let bytes = Vec::from_slice(rt.alloc(), b"abcde")?;
    let mut store = MemStore::new(bytes, Vec::from_slice(rt.alloc(), &[0, 2])?);
    let reads: [(u64, Result<&[u8], Failed>); 4] = [
        (0, Err(Failed)),
        (0, Ok(b"abc")),
        (3, Err(Failed)),
        (3, Ok(b"de")),
    ];
    for (at, want) in reads {
        expect_read_at(&rt, &mut store, at, want);
    }
    Ok(())
}

#[test]
fn a_recorder_notes_the_good_reads(rt: HostRuntime) -> Result<(), Fail> {
    let bytes = Vec::from_slice(rt.alloc(), b"abcde")?;
    let store = MemStore::new(bytes, Vec::from_slice(rt.alloc(), &[1])?);
    let mut recorder = Recorder::new(rt.alloc(), store, 3, 9)
        .ok()
        .ok_or("no memory")?;
    let reads: [(u64, Result<&[u8], Failed>); 5] = [
        (1, Ok(b"bcd")),
        (0, Err(Failed)),
        (u64::MAX, Ok(b"")),
        (3, Ok(b"de")),
        (0, Err(Failed)),
    ];
    for (at, want) in reads {
        expect_read_at(&rt, &mut recorder, at, want);
    }
    let notes = [(1, 0, 3), (u64::MAX, 3, 0), (3, 3, 2)];
    for (note, (at, from, count)) in recorder.served().iter().zip(notes) {
        assert_eq!(rt;
            *note,
            Served {
                at,
                asked: 3,
                from,
                count
            }
        );
    }
    assert_eq!(rt; recorder.served().len(), 3);
    assert_eq!(rt; recorder.bytes(), b"bcdde".as_slice());
    Ok(())
}

#[test]
fn a_recorder_fails_where_a_room_is_spent(rt: HostRuntime) -> Result<(), Fail> {
    let cases: [(&str, usize, usize, usize); 5] = [
        ("no room for a read", 0, 9, 0),
        ("room for one read", 1, 9, 1),
        ("no room for a byte", 9, 0, 0),
        ("a byte less than the second asks for", 9, 4, 1),
        ("as many bytes as the second asks for", 9, 5, 2),
    ];
    for (what, calls, room, good) in cases {
        let store = SureStore::new(Vec::from_slice(rt.alloc(), b"abcde")?);
        let mut recorder = Recorder::new(rt.alloc(), store, calls, room)
            .ok()
            .ok_or("no memory")?;
        for turn in 0..2 {
            let got = recorder.read_at(3, &mut [0u8; 3]);
            let want = if turn < good { Ok(2) } else { Err(Failed) };
            assert_eq!(rt; got, want, "{what}");
        }
        assert_eq!(rt; recorder.served().len(), good, "{what}");
    }
    Ok(())
}

#[test]
fn a_file_is_read_at_great_places_and_as_it_stands(rt: HostRuntime) -> Result<(), Fail> {
    let path = "acl_outside_great";
    let file = File::create(&rt, path)?;
    let mut store = FileStore::new(Some(File::open(&rt, path)?));
    expect_read_at(&rt, &mut store, 0, Ok(b""));
    file.write_all_at(b"abcde", 0)?;
    expect_read_at(&rt, &mut store, 3, Ok(b"de"));
    file.set_len(FOUR_GIB + 2)?;
    file.write_all_at(b"xyz", FOUR_GIB + 1)?;
    expect_read_at(&rt, &mut store, 3, Ok(b"de\0"));
    expect_read_at(&rt, &mut store, FOUR_GIB, Ok(b"\0xy"));
    expect_read_at(&rt, &mut store, FOUR_GIB + 2, Ok(b"yz"));
    file.set_len(2)?;
    expect_read_at(&rt, &mut store, 0, Ok(b"ab"));
    expect_read_at(&rt, &mut store, 3, Ok(b""));
    fs::remove_file(&rt, path)?;
    Ok(())
}

#[test]
fn a_folder_is_a_store_and_a_source_that_fail(rt: HostRuntime) -> Result<(), Fail> {
    let path = "acl_outside_folder";
    fs::create_dir(&rt, path)?;
    let mut store = FileStore::new(Some(File::open(&rt, path)?));
    let mut source = ReaderSource::new(Some(File::open(&rt, path)?));
    for _ in 0..2 {
        expect_read_at(&rt, &mut store, 0, Err(Failed));
        assert_eq!(rt; source.read(&mut [0u8; 3]), Err(Failed));
    }
    fs::remove_dir(&rt, path)?;
    Ok(())
}

/// A file in memory. A read of it gives one byte, is interrupted by a signal, or fails.
#[derive(Drop)]
struct StumblingFile {
    bytes: Vec<u8>,
    steps: Stumbling,
}

impl PositionedRead for StumblingFile {
    ghost told = { λ s. Some s.bytes.items };

    ghost tries = { λ _. unknown_tries };

    fn read_some_at(&mut self, at: u64, into: &mut [u8]) -> io::Result<usize> {
        self.steps.step()?;
        let from = self.bytes.len().min(at as usize);
        Ok(copy_prefix(&self.bytes[from..], 1, into))
    }
}

// The third step is interrupted by a signal, and the sixth fails.
#[test]
fn a_file_is_read_past_short_reads_and_signals_up_to_its_end_or_an_error(
    rt: HostRuntime,
) -> Result<(), Fail> {
    let bytes = Vec::from_slice(rt.alloc(), b"abcde")?;
    let mut file = StumblingFile {
        bytes,
        steps: Stumbling { calls: 0 },
    };
    let reads: [(u64, Result<&[u8], Failed>, u8); 5] = [
        (0, Ok(b"abc"), 4),
        (1, Err(Failed), 6),
        (3, Ok(b"de"), 9),
        (1 << 63, Ok(b""), 9),
        (i64::MAX as u64, Ok(b""), 10),
    ];
    for (at, want, calls) in reads {
        let mut room = [0u8; 3];
        let got = read_full_at(&mut file, at, &mut room);
        assert_eq!(rt; got, want.map(<[u8]>::len), "at {at}");
        if let Ok(bytes) = want {
            assert!(rt; room.starts_with(bytes), "at {at}");
        }
        assert_eq!(rt; file.steps.calls, calls, "at {at}");
    }
    Ok(())
}
