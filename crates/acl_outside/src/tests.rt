//! Tests of each object in memory call by call, and of each adapter over an object of the standard library. The
//! expected answers follow by hand from the comment on each type.

use super::*;
use std::alloc::Global;
use std::fs::File;
use std::io;
use std::io::{Error, ErrorKind, Read, Write};
use std::process::Abort;
use std::test::Fail;

mod stores;

/// Reads into a buffer of three bytes, and compares the answer and the bytes given.
fn expect_read<Q: Source>(
    rt: &impl Abort,
    source: &mut Q,
    call: usize,
    want: Result<&[u8], Failed>,
) {
    let mut room = [0u8; 3];
    let got = source.read(&mut room);
    match want {
        Ok(bytes) => {
            assert_eq!(rt; got, Ok(bytes.len()), "read {call}");
            assert!(rt; bytes.len() <= 3);
            assert_eq!(rt; &room[..bytes.len()], bytes, "read {call}");
        }
        Err(Failed) => assert_eq!(rt; got, Err(Failed), "read {call}"),
    }
}

#[test]
fn a_source_in_memory_gives_pieces_and_fails_at_the_chosen_calls(
    rt: HostRuntime,
) -> Result<(), Fail> {
    let bytes = Vec::from_slice(rt.alloc(), b"abcde")?;
    let fails = Vec::from_slice(rt.alloc(), &[1, 3])?;
    let mut source = MemSource::new(bytes, 2, fails);
    let answers: [Result<&[u8], Failed>; 6] = [
        Ok(b"ab"),
        Err(Failed),
        Ok(b"cd"),
        Err(Failed),
        Ok(b"e"),
        Ok(b""),
    ];
    for (call, want) in answers.iter().enumerate() {
        expect_read(&rt, &mut source, call, *want);
    }
    Ok(())
}

#[test]
fn a_sure_source_gives_what_has_room(rt: HostRuntime) -> Result<(), Fail> {
    let mut source = SureSource::new(Vec::from_slice(rt.alloc(), b"abcde")?);
    let answers: [Result<&[u8], Failed>; 3] = [Ok(b"abc"), Ok(b"de"), Ok(b"")];
    for (call, want) in answers.iter().enumerate() {
        expect_read(&rt, &mut source, call, *want);
    }
    Ok(())
}

/// Writes a piece and compares the answer.
fn expect_write<K: Sink>(rt: &impl Abort, sink: &mut K, piece: &[u8], want: Result<(), Failed>) {
    assert_eq!(rt; sink.write(piece), want, "{piece:?}");
}

#[test]
fn a_sink_in_memory_takes_what_fits_and_fails_at_the_chosen_calls(
    rt: HostRuntime,
) -> Result<(), Fail> {
    let fails = Vec::from_slice(rt.alloc(), &[1])?;
    let mut sink = MemSink::new(rt.alloc(), 5, fails).ok().ok_or("no memory")?;
    let calls: [(&[u8], Result<(), Failed>, &[u8]); 6] = [
        (b"ab", Ok(()), b"ab"),
        (b"cd", Err(Failed), b"ab"),
        (b"cd", Ok(()), b"abcd"),
        (b"ef", Err(Failed), b"abcde"),
        (b"g", Err(Failed), b"abcde"),
        (b"", Ok(()), b"abcde"),
    ];
    for (piece, want, written) in calls {
        expect_write(&rt, &mut sink, piece, want);
        assert_eq!(rt; sink.written(), written, "{piece:?}");
    }
    Ok(())
}

#[test]
fn pieces_are_written_up_to_the_first_that_fails(rt: HostRuntime) -> Result<(), Fail> {
    let pieces: [&[u8]; 3] = [b"ab", b"cd", b"ef"];
    let cases: [(&str, usize, &[u64], Result<(), Failed>, &[u8]); 4] = [
        ("room for all", 6, &[], Ok(()), b"abcdef"),
        ("no room for the last byte", 5, &[], Err(Failed), b"abcde"),
        ("the first write fails", 6, &[0], Err(Failed), b""),
        ("the second write fails", 6, &[1], Err(Failed), b"ab"),
    ];
    for (what, room, fails, want, written) in cases {
        let fails = Vec::from_slice(rt.alloc(), fails)?;
        let mut sink = MemSink::new(rt.alloc(), room, fails)
            .ok()
            .ok_or("no memory")?;
        assert_eq!(rt; write_pieces(&mut sink, &pieces), want, "{what}");
        assert_eq!(rt; sink.written(), written, "{what}");
        assert_eq!(rt; finish(&mut sink), Ok(()), "{what}");
    }
    Ok(())
}

#[test]
fn an_adapter_without_an_object_fails_at_each_call(rt: HostRuntime) {
    let mut room = [0u8; 3];
    let mut source: ReaderSource<File> = ReaderSource::new(None);
    let mut store = FileStore::new(None);
    for _ in 0..2 {
        assert_eq!(rt; source.read(&mut room), Err(Failed));
        assert_eq!(rt; store.read_at(0, &mut room), Err(Failed));
    }
}

/// A reader and writer of one byte a call. The third call is interrupted, the sixth fails, the others succeed.
#[derive(Drop)]
struct Stumbling {
    calls: u8,
}

impl Stumbling {
    /// The answer of the next call.
    fn step(&mut self) -> io::Result<()> {
        self.calls = self.calls.saturating_add(1);
        match self.calls {
            3 => Err(Error::new(ErrorKind::Interrupted, "a signal")),
            6 => Err(Error::new(ErrorKind::Other, "broken")),
            _ => Ok(()),
        }
    }
}

impl Read for Stumbling {
    fn read(&mut self, buf: &mut [u8]) -> io::Result<usize> {
        if buf.is_empty() {
            return Ok(0);
        }
        self.step()?;
        buf[0] = b'x';
        Ok(1)
    }
}

impl Write for Stumbling {
    fn write(&mut self, buf: &[u8]) -> io::Result<usize> {
        if buf.is_empty() {
            return Ok(0);
        }
        self.step()?;
        Ok(1)
    }

    fn flush(&mut self) -> io::Result<()> {
        self.step()
    }
}

#[test]
fn a_reader_is_read_past_short_reads_and_signals_up_to_its_error(rt: HostRuntime) {
    let mut stumbling = ReaderSource::new(Some(Stumbling { calls: 0 }));
    let answers: [Result<&[u8], Failed>; 3] = [Ok(b"xxx"), Err(Failed), Ok(b"xxx")];
    for (call, want) in answers.iter().enumerate() {
        expect_read(&rt, &mut stumbling, call, *want);
    }
    let bytes: &[u8] = b"abcde";
    let mut whole = ReaderSource::new(Some(bytes));
    let answers: [Result<&[u8], Failed>; 3] = [Ok(b"abc"), Ok(b"de"), Ok(b"")];
    for (call, want) in answers.iter().enumerate() {
        expect_read(&rt, &mut whole, call, *want);
    }
}

#[test]
fn a_writer_gets_the_whole_piece_or_the_sink_fails(rt: HostRuntime) -> Result<(), Fail> {
    let mut bytes: Vec<u8> = Vec::new(rt.alloc());
    let mut sink = WriterSink::new(&mut bytes);
    expect_write(&rt, &mut sink, b"abc", Ok(()));
    expect_write(&rt, &mut sink, b"", Ok(()));
    expect_write(&rt, &mut sink, b"de", Ok(()));
    drop(sink);
    assert_eq!(rt; bytes.as_slice(), b"abcde".as_slice());

    // The sixth step is the first flush.
    let mut stumbling = WriterSink::new(Stumbling { calls: 0 });
    expect_write(&rt, &mut stumbling, b"abcd", Ok(()));
    assert_eq!(rt; finish(&mut stumbling), Err(Failed));
    assert_eq!(rt; finish(&mut stumbling), Ok(()));
    Ok(())
}
