//! Tests with a file of 41 fragments, fragment `i` being 256 bytes `i`, and with stores that cut it, change it or fail.
//! The expected digests are those of the module `hashlib` of Python 3.11, over fragments that OpenSSL enciphered.
ghost use Rattle.std.specs.Prelude.{◌≡◌, ◌<◌, length, IfOk};

use crate::Opener;
use acl_outside::{Failed, ReadFault, Store, SureStore};
use aes_block::Key128;
use merkle_chunks::{Header, key_check, write_table};
use position_cipher::lock_fragment;
use std::alloc::{AllocError, Global};
use std::process::Abort;
use std::test::Fail;

const KEY: [u8; 16] = [0, 1, 2, 3, 4, 5, 6, 7, 8, 9, 10, 11, 12, 13, 14, 15];

/// The root of the test file.
const ROOT: [u8; 32] = [
    0x2b, 0x1d, 0xad, 0x43, 0x62, 0xc5, 0xb8, 0x31, 0x05, 0x65, 0x7d, 0xa8, 0xf7, 0xce, 0xa7, 0x2b,
    0x32, 0x57, 0x7e, 0x54, 0xd1, 0x07, 0xa0, 0x26, 0x6b, 0xbe, 0x26, 0x5c, 0xf7, 0xc9, 0x3c, 0x01,
];

/// The digest of chunk 2 of the test file, which has the fragments from 32 on.
const CHUNK_2: [u8; 32] = [
    0x57, 0xd5, 0x4f, 0x61, 0xbe, 0x57, 0x3a, 0x4c, 0x28, 0x65, 0x56, 0xdc, 0xec, 0xd0, 0xe9, 0x01,
    0x46, 0x4b, 0xa5, 0xc4, 0xeb, 0xe7, 0xe7, 0xcc, 0x35, 0x59, 0x0c, 0x11, 0x7e, 0x9e, 0xef, 0x9a,
];

/// The digest of chunk 2 where byte 9,285 of the file is changed.
const CHANGED_CHUNK_2: [u8; 32] = [
    0xa7, 0x0d, 0xca, 0x14, 0xa6, 0xc8, 0x6d, 0x5e, 0xb3, 0x1c, 0x68, 0x18, 0x37, 0xc1, 0x31, 0x54,
    0x46, 0x85, 0xe5, 0xf0, 0xb5, 0xf1, 0x6d, 0xf0, 0x54, 0xff, 0x18, 0x7e, 0x0d, 0x0a, 0x22, 0xea,
];

/// The test file: 13,280 bytes.
fn worked_file(alloc: Global) -> Result<Vec<u8>, AllocError>
    ensures { IfOk result (λ bytes. length bytes.items ≡ 13280) }
{
    let header = Header {
        tree: 10_264,
        dictionary: 8,
        tags: 3,
        depth: 2,
        check: key_check(&KEY),
    };
    let key = Key128::new(KEY);
    let mut bytes = Vec::new(alloc);
    bytes.extend_from_slice(&header.write())?;
    for i in 0..41u32 {
        let mut fragment = [i as u8; 256];
        lock_fragment(&key, i, &mut fragment);
        bytes.extend_from_slice(&fragment)?;
    }
    let mut table = [0; 2720];
    write_table(&bytes[64..10_560], &mut table);
    bytes.extend_from_slice(&table)?;
    Ok(bytes)
}

/// A store in memory that counts its reads, and fails at one of them.
#[derive(Drop)]
struct Counted {
    inner: SureStore,
    reads: u64,
    fails_at: u64,
    faults: u64,
}

impl Counted {
    fn new(bytes: Vec<u8>, fails_at: u64) -> Counted {
        Counted {
            inner: SureStore::new(bytes),
            reads: 0,
            fails_at,
            faults: 0,
        }
    }
}

impl Store for Counted {
    ghost use Rattle.acl_outside.specs.inside.Adapters.{unknown_bytes, unknown_reads};

    ghost holds = { λ _. unknown_bytes };

    ghost served = { λ _. unknown_reads };

    ghost faults = { λ s. s.faults };

    fn read_at(&mut self, at: u64, into: &mut [u8]) -> Result<usize, Failed> {
        let number = self.reads;
        self.reads = self.reads.saturating_add(1);
        if number == self.fails_at {
            self.faults = self.faults.saturating_add(1);
            return Err(Failed);
        }
        self.inner.read_at(at, into)
    }
}

/// Opens a fragment and compares the answer. After Ok each byte is the fragment's index; after a refusal the bytes are
/// as before.
fn expect_fragment(
    rt: &impl Abort,
    opener: &mut Opener<'_, Counted>,
    index: u32,
    want: Result<(), ReadFault>,
) {
    assert!(rt; index < opener.header().fragments());
    let mut bytes = [99; 256];
    assert_eq!(rt; opener.fetch(index, &mut bytes), want, "fragment {index}");
    let byte = if want.is_ok() { index } else { 99 };
    assert_eq!(rt; u32::from(bytes[0]), byte, "fragment {index}");
    assert_eq!(rt; u32::from(bytes[255]), byte, "fragment {index}");
}

// A start takes two reads, and the three openings take 3, 5 and 7 more.
#[test]
fn an_honest_store_gives_each_fragment(rt: HostRuntime) -> Result<(), Fail> {
    let mut store = Counted::new(worked_file(rt.alloc())?, u64::MAX);
    {
        let mut opener = Opener::start(&mut store, ROOT, KEY).expect(&rt, "the worked file");
        assert_eq!(rt; opener.header().tree, 10_264);
        for index in [40, 36, 31] {
            expect_fragment(&rt, &mut opener, index, Ok(()));
        }
    }
    assert_eq!(rt; store.reads, 17);
    Ok(())
}

#[test]
fn a_changed_fragment_is_refused_and_the_refusal_stays(rt: HostRuntime) -> Result<(), Fail> {
    let mut bytes = worked_file(rt.alloc())?;
    assert!(rt; bytes.len() == 13_280);
    bytes[9_285] ^= 1;
    let mut store = Counted::new(bytes, u64::MAX);
    {
        let mut opener = Opener::start(&mut store, ROOT, KEY).expect(&rt, "the header and the top");
        let refusal = Err(ReadFault::BadFragment {
            index: 36,
            want: CHUNK_2,
            made: CHANGED_CHUNK_2,
        });
        expect_fragment(&rt, &mut opener, 40, Ok(()));
        expect_fragment(&rt, &mut opener, 36, refusal);
        expect_fragment(&rt, &mut opener, 40, refusal);
    }
    assert_eq!(rt; store.reads, 10);
    Ok(())
}

/// The refusal of a start on the first `length` bytes of the test file, with one byte changed.
fn start_refusal(
    rt: &HostRuntime,
    length: usize,
    changed: usize,
    root: [u8; 32],
    fails_at: u64,
) -> Result<Option<ReadFault>, AllocError> {
    let mut bytes = worked_file(rt.alloc())?;
    if changed < bytes.len() {
        bytes[changed] ^= 1;
    }
    bytes.truncate(length);
    let mut store = Counted::new(bytes, fails_at);
    match Opener::start(&mut store, root, KEY) {
        Ok(_) => Ok(None),
        Err(fault) => Ok(Some(fault)),
    }
}

#[test]
fn a_start_is_refused_by_its_first_cause(rt: HostRuntime) -> Result<(), Fail> {
    let never = u64::MAX;
    let none = usize::MAX;
    let rows: [(&str, usize, usize, u64, Option<ReadFault>); 8] = [
        ("the whole file", 13_280, none, never, None),
        (
            "an empty file",
            0,
            none,
            never,
            Some(ReadFault::StoreShort { at: 0 }),
        ),
        (
            "half a header",
            10,
            none,
            never,
            Some(ReadFault::StoreShort { at: 10 }),
        ),
        (
            "half a top digest",
            13_264,
            none,
            never,
            Some(ReadFault::StoreShort { at: 13_264 }),
        ),
        (
            "no top digest",
            13_200,
            none,
            never,
            Some(ReadFault::StoreShort { at: 13_248 }),
        ),
        (
            "a byte after the check",
            13_280,
            40,
            never,
            Some(ReadFault::BadHeader),
        ),
        (
            "a first read that fails",
            0,
            none,
            0,
            Some(ReadFault::StoreFault),
        ),
        (
            "a second read that fails",
            13_280,
            none,
            1,
            Some(ReadFault::StoreFault),
        ),
    ];
    for (what, length, changed, fails_at, want) in rows {
        assert_eq!(rt;
            start_refusal(&rt, length, changed, ROOT, fails_at)?,
            want,
            "{what}"
        );
    }
    Ok(())
}
