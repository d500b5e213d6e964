//! Tests with the file of the document `(a`, `-hi`, `)a`, and with stores that cut it, change it, or have another tree
//! with the right digests. The expected roots are those of the module `hashlib` of Python 3.11, over fragments that
//! OpenSSL enciphered.

use crate::{FileFault, read_file};
use acl_model::Item;
use acl_outside::{Failed, ReadFault, Store, SureStore};
use aes_block::Key128;
use merkle_chunks::{Header, key_check, leaf_digest};
use position_cipher::lock_fragment;
use std::alloc::{AllocError, Global};
use std::test::Fail;

const KEY: [u8; 16] = [0, 1, 2, 3, 4, 5, 6, 7, 8, 9, 10, 11, 12, 13, 14, 15];

/// The root of the test file.
const ROOT: [u8; 32] = [
    0xd3, 0x44, 0x72, 0xf6, 0x28, 0xc9, 0xcb, 0x7e, 0x82, 0x92, 0x1b, 0xf1, 0x84, 0x0c, 0xf8, 0xd6,
    0xce, 0x4a, 0x11, 0xd5, 0xce, 0x0e, 0x69, 0x4e, 0x85, 0x9f, 0x4f, 0x4e, 0x91, 0xad, 0x8e, 0xb2,
];

/// The root of the file whose tree begins with the byte 0x20, not 0xA0.
const OTHER_ROOT: [u8; 32] = [
    0x0a, 0x75, 0x3f, 0xcd, 0xd1, 0x19, 0x8f, 0x53, 0xe6, 0x5b, 0x40, 0x6e, 0x87, 0x96, 0xfe, 0x44,
    0xe7, 0x49, 0x6c, 0x47, 0x74, 0xe5, 0x75, 0x25, 0x09, 0x12, 0x86, 0x89, 0xaf, 0x69, 0xb3, 0xda,
];

/// The digest of the file's only fragment, which is its top digest.
const TOP: [u8; 32] = [
    0x7e, 0xa1, 0x03, 0xbc, 0xf0, 0x3e, 0x34, 0x33, 0x1e, 0x16, 0xdc, 0x2b, 0x9e, 0xe5, 0xbd, 0x26,
    0xa2, 0x06, 0xa7, 0x59, 0x3a, 0xdb, 0x78, 0xd0, 0xbf, 0x73, 0x75, 0xe2, 0x46, 0x08, 0xc8, 0x3e,
];

/// The top digest where byte 100 of the file is changed.
const CHANGED_TOP: [u8; 32] = [
    0xec, 0xfb, 0x84, 0xb9, 0xd9, 0xcf, 0xdf, 0x62, 0xb7, 0x5e, 0xce, 0x31, 0x00, 0x03, 0xb4, 0x49,
    0x95, 0x90, 0xd4, 0xdf, 0x71, 0xc9, 0x07, 0x2e, 0xd4, 0xd1, 0x45, 0x2e, 0x7f, 0x32, 0xd8, 0xcd,
];

/// The check of the key.
const CHECK: [u8; 16] = [
    0xef, 0x0e, 0x10, 0x7d, 0x08, 0x76, 0x8f, 0xb3, 0xe3, 0x39, 0x1f, 0xfb, 0xa4, 0xc7, 0xe3, 0x1b,
];

/// The check of a key of zeros.
const CHECK_OF_ZEROS: [u8; 16] = [
    0x48, 0xb9, 0xb3, 0x4b, 0x85, 0x1a, 0x03, 0x30, 0x2c, 0x02, 0xd0, 0x51, 0x9a, 0x1b, 0x74, 0x1b,
];

/// The test file, with `first` as the first byte of its tree: 352 bytes, of which the last 32 are its only digest.
fn file(alloc: Global, first: u8) -> Result<Vec<u8>, AllocError> {
    let header = Header {
        tree: 9,
        dictionary: 4,
        tags: 1,
        depth: 1,
        check: key_check(&KEY),
    };
    let mut fragment = [0; 256];
    fragment[..13].copy_from_slice(&[0, 1, 1, b'a', first, 0, 0, 0, 0, 0, 2, b'h', b'i']);
    lock_fragment(&Key128::new(KEY), 0, &mut fragment);
    let mut bytes = Vec::new(alloc);
    bytes.extend_from_slice(&header.write())?;
    bytes.extend_from_slice(&fragment)?;
    bytes.extend_from_slice(&leaf_digest(0, &fragment))?;
    Ok(bytes)
}

/// A store in memory of which one read fails.
#[derive(Drop)]
struct Failing {
    inner: SureStore,
    /// The number of reads that still succeed.
    good: u64,
    faults: u64,
}

impl Store for Failing {
    ghost use Rattle.acl_outside.specs.inside.Adapters.{unknown_bytes, unknown_reads};

    ghost holds = { λ _. unknown_bytes };

    ghost served = { λ _. unknown_reads };

    ghost faults = { λ s. s.faults };

    fn read_at(&mut self, at: u64, into: &mut [u8]) -> Result<usize, Failed> {
        if self.good == 0 {
            self.faults = self.faults.saturating_add(1);
            return Err(Failed);
        }
        self.good -= 1;
        self.inner.read_at(at, into)
    }
}

#[test]
fn a_file_gives_its_document(rt: HostRuntime) -> Result<(), Fail> {
    let mut store = SureStore::new(file(rt.alloc(), 0xa0)?);
    let doc = read_file(rt.alloc(), &mut store, ROOT, KEY).expect(&rt, "the file");
    assert_eq!(rt; doc.root.name.as_slice(), b"a".as_slice());
    assert_eq!(rt; doc.root.attributes.len(), 0);
    let items = doc.root.items.as_slice();
    assert_eq!(rt; items.len(), 1);
    let Item::Text(text) = &items[0] else {
        return Err("the item is no text".into());
    };
    assert_eq!(rt; text.as_slice(), b"hi".as_slice());
    Ok(())
}

#[test]
fn a_file_is_refused_by_its_first_fault(rt: HostRuntime) -> Result<(), Fail> {
    // The name of the case, the first byte of the tree, the offset of the changed byte, where the file is cut, the root
    // and the key, and the expected fault.
    for (what, first, place, end, root, key, fault) in [
        (
            "cut to 351 bytes",
            0xa0,
            352,
            351,
            ROOT,
            KEY,
            ReadFault::StoreShort { at: 351 },
        ),
        (
            "cut to 10 bytes",
            0xa0,
            352,
            10,
            ROOT,
            KEY,
            ReadFault::StoreShort { at: 10 },
        ),
        (
            "empty",
            0xa0,
            352,
            0,
            ROOT,
            KEY,
            ReadFault::StoreShort { at: 0 },
        ),
        (
            "byte 40 changed",
            0xa0,
            40,
            352,
            ROOT,
            KEY,
            ReadFault::BadHeader,
        ),
        (
            "another root",
            0xa0,
            352,
            352,
            OTHER_ROOT,
            KEY,
            ReadFault::WrongRoot {
                want: OTHER_ROOT,
                made: ROOT,
            },
        ),
        (
            "another key",
            0xa0,
            352,
            352,
            ROOT,
            [0; 16],
            ReadFault::WrongKey {
                want: CHECK,
                made: CHECK_OF_ZEROS,
            },
        ),
        (
            "byte 100 changed",
            0xa0,
            100,
            352,
            ROOT,
            KEY,
            ReadFault::BadFragment {
                index: 0,
                want: TOP,
                made: CHANGED_TOP,
            },
        ),
        (
            "a tree of no document",
            0x20,
            352,
            352,
            OTHER_ROOT,
            KEY,
            ReadFault::BadIndex,
        ),
    ] {
        let mut bytes = file(rt.alloc(), first)?;
        if let Some(byte) = bytes.get_mut(place) {
            *byte ^= 1;
        }
        bytes.truncate(end);
        let mut store = SureStore::new(bytes);
        let met = read_file(rt.alloc(), &mut store, root, key).err();
        assert_eq!(rt; met, Some(FileFault::Refused(fault)), "{what}");
    }
    Ok(())
}

// There are three reads: of the header, the top digest and one fragment. A fourth read is never made.
#[test]
fn a_failed_read_is_the_failure_of_the_store(rt: HostRuntime) -> Result<(), Fail> {
    let failure = Some(FileFault::Refused(ReadFault::StoreFault));
    for (good, fault) in [(0, failure), (1, failure), (2, failure), (3, None)] {
        let inner = SureStore::new(file(rt.alloc(), 0xa0)?);
        let mut store = Failing {
            inner,
            good,
            faults: 0,
        };
        let met = read_file(rt.alloc(), &mut store, ROOT, KEY).err();
        assert_eq!(rt; met, fault, "after {good} reads");
    }
    Ok(())
}
