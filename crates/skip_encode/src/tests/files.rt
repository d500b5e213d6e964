//! Compares files with those that another implementation makes, `.ci/check_files.py`. It uses Python's `hashlib`, and
//! the AES of `openssl` or of Python's `cryptography`. The script checks the numbers here against its own.

use super::*;
use sha2::{Digest, Sha256};

/// The expected numbers of a file.
struct Vector {
    /// Its length in bytes.
    bytes: usize,
    /// The first enciphered block, after the header.
    block: u128,
    /// The halves of the digest of all its bytes.
    file: [u128; 2],
    /// The halves of its root.
    root: [u128; 2],
}

/// The document key of the files.
const KEY: [u8; 16] = [0, 1, 2, 3, 4, 5, 6, 7, 8, 9, 10, 11, 12, 13, 14, 15];

/// The file of one element `a` with the text `hi`.
const SMALL: Vector = Vector {
    bytes: 352,
    block: 0x6da69c4890a19f693736e72051a77095,
    file: [
        0x20ac5268af4d364fb7fdf49c2b260f02,
        0x8190fb5216eeec47cf6b133ba15283e9,
    ],
    root: [
        0xd34472f628c9cb7e82921bf1840cf8d6,
        0xce4a11d5ce0e694e859f4f4e91ad8eb2,
    ],
};

/// The file of a ward with one patient.
const WARD: Vector = Vector {
    bytes: 352,
    block: 0x1a099a9f27cf5f55f66278f7300d500f,
    file: [
        0xbe4d844da44a2e2c14846546be327ad7,
        0x35466f31f6fc1eae4174561c74ba424a,
    ],
    root: [
        0x192458bf220db5d92fd62d4af0d3cecb,
        0x63490b62c211eba93d9f548995a1a1d0,
    ],
};

/// The file of one element `a` with a text of 600 `z`, in three fragments.
const LONG: Vector = Vector {
    bytes: 1024,
    block: 0x0c2e62bf94a80517d4f42cad042e472c,
    file: [
        0x0ab029ad1f55d72dec388fd3af449f90,
        0xac06a6e590caec9679fd57a17c504739,
    ],
    root: [
        0x36aece4e4edcce8ffd774f78a8acf961,
        0x5d0770bb6070e5d5685fc22b9f70c884,
    ],
};

/// Fails unless the bytes are those of the number in big-endian order.
fn expect_bytes(rt: &impl Abort, bytes: &[u8], want: u128) {
    assert_eq!(rt; bytes, want.to_be_bytes().as_slice());
}

/// Fails unless the file of a document, which must be valid, is the expected one.
fn expect_file(rt: &impl Abort, alloc: Global, doc: &Doc, want: &Vector) {
    assert!(rt; is_document(doc));
    let made = encode_file(alloc, doc, KEY).expect(rt, "a file");
    let bytes = made.bytes.as_slice();
    assert_eq!(rt; bytes.len(), want.bytes);
    assert!(rt; bytes.len() >= 80);
    expect_bytes(rt, &bytes[64..80], want.block);
    let digest = Sha256::digest(bytes);
    expect_bytes(rt, &digest[..16], want.file[0]);
    expect_bytes(rt, &digest[16..], want.file[1]);
    expect_bytes(rt, &made.root[..16], want.root[0]);
    expect_bytes(rt, &made.root[16..], want.root[1]);
}

/// A child element with a text.
fn spoken(alloc: Global, name: &[u8], bytes: &[u8]) -> Result<Item, AllocError> {
    child(alloc, name, vec![in alloc; text(alloc, bytes)?]?)
}

/// A ward with one patient, who was treated once.
fn ward(alloc: Global) -> Result<Doc, AllocError> {
    let number = spoken(alloc, b"SSN", b"123")?;
    let name = spoken(alloc, b"Fname", b"Li")?;
    let admin = child(alloc, b"Admin", vec![in alloc; number, name]?)?;
    let physician = spoken(alloc, b"RPhys", b"Ana")?;
    let details = spoken(alloc, b"Details", b"calm")?;
    let act = child(alloc, b"Act", vec![in alloc; physician, details]?)?;
    let folder = child(alloc, b"Folder", vec![in alloc; admin, act]?)?;
    document(alloc, b"Hospital", Vec::new(alloc), vec![in alloc; folder]?)
}

#[test]
fn files_are_those_of_another_implementation(rt: HostRuntime) -> Result<(), Fail> {
    let alloc = rt.alloc();
    expect_file(&rt, alloc, &of_text(alloc, b"hi")?, &SMALL);
    expect_file(&rt, alloc, &ward(alloc)?, &WARD);
    let long = vec![in alloc; b'z'; 600]?;
    expect_file(&rt, alloc, &of_text(alloc, &long)?, &LONG);
    Ok(())
}

#[test]
fn a_ward_takes_112_bytes(rt: HostRuntime) -> Result<(), Fail> {
    let alloc = rt.alloc();
    let plain = stream(&rt, alloc, &ward(alloc)?);
    assert_eq!(rt; (plain.dictionary, plain.tree), (52, 60));
    Ok(())
}
