//! Tests with a header computed by hand, and with headers of which one number is out of range. The expected digests are
//! those of the module `hashlib` of Python 3.11.

ghost use Rattle.std.specs.Prelude.{◌≡◌, ◌*◌, ◌≤◌, length, IfOk};

use super::*;
use sha2::{Digest, Sha256};
use std::alloc::{AllocError, Global};
use std::process::Abort;
use std::test::Fail;

/// The header of one element `a` with the text `hi`, with a key check of sixteen bytes 7.
const SMALL: Header = Header {
    tree: 9,
    dictionary: 4,
    tags: 1,
    depth: 1,
    check: [7; 16],
};

/// The bytes of `SMALL`: in hexadecimal `53 4b 49 50 49 44 58 31`, the numbers, the check and zeros.
fn small() -> [u8; 64] {
    let mut bytes = [0; 64];
    bytes[..8].copy_from_slice(b"SKIPIDX1");
    bytes[15] = 9;
    bytes[19] = 4;
    bytes[21] = 1;
    bytes[23] = 1;
    for i in 24..40 {
        bytes[i] = 7;
    }
    bytes
}

#[test]
fn a_header_is_written_and_read_again(rt: HostRuntime) -> Result<(), Fail> {
    assert_eq!(rt; SMALL.write(), small());
    assert_eq!(rt; Header::read(&small()), Ok(SMALL));
    Ok(())
}

#[test]
fn fragments_are_rounded_up(rt: HostRuntime) -> Result<(), Fail> {
    for (tree, fragments) in [
        (1, 1),
        (252, 1),
        (253, 2),
        (10_264, 41),
        (33_554_428, 131_072),
    ] {
        let header = Header { tree, ..SMALL };
        assert_eq!(rt; header.fragments(), fragments, "{tree}");
        assert_eq!(rt; Header::read(&header.write()), Ok(header), "{tree}");
    }
    Ok(())
}

// The offset of the top digest of 41 fragments, and those of the two digests that a first reader of the last fragment
// needs: level 3 index 4 and level 5 index 0.
#[test]
fn nodes_stand_after_the_fragments_and_the_levels_below(rt: HostRuntime) -> Result<(), Fail> {
    assert_eq!(rt; top_level(41), 6);
    assert_eq!(rt; table_len(41), 85 * 32);
    assert_eq!(rt; Header::node_place(41, 0, 0), 64 + 41 * 256);
    assert_eq!(rt; Header::node_place(41, 3, 4), 64 + 41 * 256 + 77 * 32);
    assert_eq!(rt; Header::node_place(41, 5, 0), 64 + 41 * 256 + 82 * 32);
    assert_eq!(rt; Header::node_place(41, 6, 0), 13_280 - 32);
    Ok(())
}

#[test]
fn each_number_has_its_range(rt: HostRuntime) -> Result<(), Fail> {
    let rows: [(&str, usize, u8, bool); 14] = [
        ("another first byte", 0, b's', false),
        ("another format", 7, b'2', false),
        ("an empty tree", 15, 0, false),
        ("a tree past 2^63", 8, 0x80, false),
        ("dictionary and tree of 33,554,435 bytes", 12, 2, false),
        ("a dictionary of 3 bytes", 19, 3, false),
        ("a longer dictionary", 19, 5, true),
        ("no names", 21, 0, false),
        ("names for which the dictionary is too short", 21, 2, false),
        ("no depth", 23, 0, false),
        ("a depth of 255", 23, 255, true),
        ("a depth of 257", 22, 1, false),
        ("another check", 39, 8, true),
        ("a byte after the check", 40, 1, false),
    ];
    for (what, place, byte, good) in rows {
        let mut bytes = small();
        bytes[place] = byte;
        assert_eq!(rt; Header::read(&bytes).is_ok(), good, "{what}");
    }
    let mut bytes = small();
    for i in 8..16 {
        bytes[i] = 255;
    }
    assert_eq!(rt; Header::read(&bytes), Err(BadHeader));
    bytes = small();
    bytes[17] = 2;
    bytes[20] = 1;
    bytes[21] = 0;
    assert!(rt; Header::read(&bytes).is_ok());
    bytes[21] = 1;
    assert!(rt; Header::read(&bytes).is_err());
    Ok(())
}

/// Checks that the digest, in hexadecimal digits, is `want`.
fn expect_digest(rt: &impl Abort, digest: &[u8; 32], want: &str) {
    let mut digits = [0u8; 64];
    let fits = hex::encode_to_slice(digest, &mut digits);
    assert!(rt; fits.is_ok());
    assert_eq!(rt; digits.as_slice(), want.as_bytes());
}

/// So many fragments; each byte of fragment `i` is `i % 251`.
fn cipher(alloc: Global, fragments: u32) -> Result<Vec<u8>, AllocError>
    requires { fragments ≤ 257 }
    ensures { IfOk result (λ bytes. length bytes.items ≡ 256 * fragments) }
{
    let mut bytes = Vec::new(alloc);
    for i in 0..fragments {
        bytes.extend_from_slice(&[(i % 251) as u8; 256])?;
    }
    Ok(bytes)
}

#[test]
fn strings_have_the_digests_of_python(rt: HostRuntime) -> Result<(), Fail> {
    expect_digest(
        &rt,
        &leaf_digest(258, &[7; 256]),
        "90d3ad057e7f95f92f56834b60fb36be0fd5d82da3d187f8e7e22f1bf9c92a99",
    );
    expect_digest(
        &rt,
        &node_digest(&[1; 32], &[2; 32]),
        "b331da6ec49d4547d9942a6727e5123f69bed5a0b97ac171cfbfd6201431fcfa",
    );
    expect_digest(
        &rt,
        &root_of(&[5; 64], &[3; 32]),
        "8df5c8128e19b69a16fcc92964a669043c4e33009d18b1c7cae1f1cdd7645cb8",
    );
    let key = 0x000102030405060708090a0b0c0d0e0f_u128.to_be_bytes();
    let check = 0xef0e107d08768fb3e3391ffba4c7e31b_u128.to_be_bytes();
    assert_eq!(rt; key_check(&key), check);
    Ok(())
}

// The number of fragments, the top level and the top digest.
#[test]
fn tables_are_those_of_python(rt: HostRuntime) -> Result<(), Fail> {
    for (fragments, top, digest) in [
        (
            1,
            0,
            "766945d07e482349b0c75427ad1146bf0c21f1c7e7ee55dbbf990402fe20bfdd",
        ),
        (
            2,
            1,
            "556ad8930cdbcd6bf9c4b04479084274216b1c0b140c3b037ac2694957b074c4",
        ),
        (
            15,
            4,
            "2c71740b295011f942902d855d512e142872bfbd96f6591d982d2a8ca62924a8",
        ),
        (
            16,
            4,
            "ed9e16320a1fdeadd8417c9f8c72deeb8ad5db84e25493be47e17f442c47e666",
        ),
        (
            17,
            5,
            "fcb1ac8cd54679ed4ccf819b3b2347c4830094a06603d971e4e0edda0c95b34f",
        ),
        (
            31,
            5,
            "f8436baaf25bee085775cda1ba07dc30c8a7d8c85eb847951d3fe1a94b58b604",
        ),
        (
            32,
            5,
            "6c2b566fd1d7b87ca24812762de9c55b6502a3660079d6cfcb6c335ae4a16418",
        ),
        (
            33,
            6,
            "377ecc42c8a45e41798dcb7b58682fbe841815bc694d2522aba1964ab72d239a",
        ),
        (
            41,
            6,
            "7bcbf081aedc14c9fdde9c46ee5408121080b8d3bddebf9ecab77afb452285d2",
        ),
        (
            257,
            9,
            "d6974b1c7104252599b14cdce5c42c8014e8fc453a81816f9b37ec7fdd21cd32",
        ),
    ] {
        assert!(rt; 1 <= fragments && fragments <= 257);
        let cipher = cipher(rt.alloc(), fragments)?;
        let tree = Tree::build(rt.alloc(), &cipher).expect(&rt, "memory");
        assert_eq!(rt; tree.top_level(), top);
        expect_digest(&rt, &tree.node(top, 0).expect(&rt, "the top"), digest);
    }
    Ok(())
}

#[test]
fn a_node_is_given_exactly_on_the_table(rt: HostRuntime) -> Result<(), Fail> {
    let cipher = cipher(rt.alloc(), 41)?;
    let tree = Tree::build(rt.alloc(), &cipher).expect(&rt, "memory");
    for (level, count) in [
        (0, 41),
        (1, 21),
        (2, 11),
        (3, 6),
        (4, 3),
        (5, 2),
        (6, 1),
        (7, 0),
    ] {
        assert_eq!(rt; tree.node(level, count), None, "level {level}");
        assert!(rt;
            count == 0 || tree.node(level, count - 1).is_some(),
            "level {level}"
        );
    }
    let last = tree.node(3, 5).expect(&rt, "a node");
    expect_digest(
        &rt,
        &last,
        "f0d5362a83b9c5a02840f608530fb232c4af1affe7659ac6c44d276e194b7076",
    );
    let table = tree.table(rt.alloc()).expect(&rt, "memory");
    assert_eq!(rt; table.len(), 85 * 32);
    assert_eq!(rt; table.as_slice(), tree.table_bytes());
    expect_digest(
        &rt,
        &Sha256::digest(table.as_slice()),
        "e6a962b8eb1ffaf2060ad561535361f0475af8837648ebf9197dea873f687384",
    );
    Ok(())
}
