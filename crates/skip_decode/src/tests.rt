//! Streams worked out by hand, other encodings of the same documents, and streams with one byte changed or cut short.
//! Memory is ample.

use super::*;
use acl_model::{Doc, Item};
use merkle_chunks::Header;
use skip_encode::plain_stream;
use std::alloc::{AllocError, Global};
use std::test::Fail;
use tag_dictionary::DictFault;

/// A stream of a dictionary section and a tree section, filled with zeros up to 256 bytes.
fn filled(alloc: Global, section: &[u8], tree: &[u8]) -> Result<Vec<u8>, AllocError> {
    let mut bytes = Vec::new(alloc);
    bytes.extend_from_slice(section)?;
    bytes.extend_from_slice(tree)?;
    bytes.resize(256, 0)?;
    Ok(bytes)
}

/// The header for a dictionary section and a tree section.
fn header(section: &[u8], tree: &[u8], tags: u16, depth: u16) -> Header {
    Header {
        tree: tree.len() as u64,
        dictionary: u32::try_from(section.len()).unwrap_or(0),
        tags,
        depth,
        check: [7; 16],
    }
}

/// The names of the root's child elements and its texts, concatenated in order.
fn inside(alloc: Global, doc: &Doc) -> Result<Vec<u8>, AllocError> {
    let mut bytes = Vec::new(alloc);
    for item in doc.root.items.as_slice() {
        match item {
            Item::Text(text) => bytes.extend_from_slice(text.as_slice())?,
            Item::Child(element) => bytes.extend_from_slice(element.get().name.as_slice())?,
        }
    }
    Ok(bytes)
}

#[test]
fn documents_are_read_from_their_streams(rt: HostRuntime) -> Result<(), Fail> {
    a_stream_is_of_one_document();
    events_build_their_document();
    let rows: [(&str, &[u8], &[u8], u16, u16, &[u8]); 4] = [
        (
            "a text",
            b"\0\x01\x01a",
            b"\xa0\0\0\0\0\0\x02hi",
            1,
            1,
            b"hi",
        ),
        (
            "a child",
            b"\0\x02\x01a\x01b",
            b"\xad\0\0\x90\0\0",
            2,
            2,
            b"b",
        ),
        (
            "an attribute and two children",
            b"\0\x03\x01a\x01b\x01c",
            b"\x97\xb0\0\x01\0\0\0\x0aId CDATA x\x87\0\0\0\0\0\x011\xc2\0\0",
            3,
            2,
            b"bc",
        ),
        (
            "three children and a text of no bytes",
            b"\0\x04\x01a\x01b\x01c\x01d",
            b"\x97\x78\0\0\x82\0\0\xa2\0\0\xc2\0\0\0\0\0\0",
            4,
            2,
            b"bcd",
        ),
    ];
    for (what, section, tree, tags, depth, want) in rows {
        let stream = filled(rt.alloc(), section, tree)?;
        let header = header(section, tree, tags, depth);
        let doc = decode_all(rt.alloc(), stream.as_slice(), &header).expect(&rt, what);
        assert_eq!(rt; doc.root.name.as_slice(), b"a".as_slice(), "{what}");
        let inside = inside(rt.alloc(), &doc)?;
        assert_eq!(rt; inside.as_slice(), want, "{what}");
    }
    Ok(())
}

#[test]
fn other_spellings_are_refused(rt: HostRuntime) -> Result<(), Fail> {
    let rows: [(&str, &[u8], &[u8], u16, u16); 13] = [
        (
            "a content that is too short",
            b"\0\x02\x01a\x01b",
            b"\xac\0\0\x90\0\0",
            2,
            2,
        ),
        (
            "a name that isn't used",
            b"\0\x02\x01a\x01b",
            b"\x90\0\0\0\0\0\x02hi",
            2,
            1,
        ),
        (
            "a name twice",
            b"\0\x02\x01a\x01a",
            b"\xad\0\0\x90\0\0",
            2,
            2,
        ),
        (
            "names out of order",
            b"\0\x02\x01b\x01a",
            b"\xf5\0\0\x90\0\0",
            2,
            2,
        ),
        (
            "another count of names",
            b"\0\x02\x01a\x01b",
            b"\xad\0\0\x90\0\0",
            3,
            2,
        ),
        ("less depth", b"\0\x02\x01a\x01b", b"\xad\0\0\x90\0\0", 2, 1),
        ("more depth", b"\0\x02\x01a\x01b", b"\xad\0\0\x90\0\0", 2, 3),
        (
            "a set with a name too many",
            b"\0\x02\x01a\x01b",
            b"\xbd\0\0\xc8\0\0",
            2,
            2,
        ),
        (
            "a width that fits its length and isn't the least",
            b"\0\x04\x01a\x01b\x01c\x01d",
            b"\x97\x90\0\0\x81\0\0\0\xa1\0\0\0\xc1\0\0\0\0\0\0\0",
            4,
            2,
        ),
        (
            "bits after a head",
            b"\0\x01\x01a",
            b"\xa1\0\0\0\0\0\x02hi",
            1,
            1,
        ),
        (
            "a text with a line feed",
            b"\0\x01\x01a",
            b"\xa0\0\0\0\0\0\x02h\n",
            1,
            1,
        ),
        (
            "an attribute without a type",
            b"\0\x01\x01a",
            b"\xa0\0\x01\0\0\0\x02hi",
            1,
            1,
        ),
        (
            "attributes without bytes",
            b"\0\x01\x01a",
            b"\xa0\xff\xff",
            1,
            1,
        ),
    ];
    for (what, section, tree, tags, depth) in rows {
        let stream = filled(rt.alloc(), section, tree)?;
        let header = header(section, tree, tags, depth);
        let fault = decode_all(rt.alloc(), stream.as_slice(), &header).err();
        assert_eq!(rt; fault, Some(DictFault::BadIndex), "{what}");
    }
    Ok(())
}

#[test]
fn a_changed_stream_is_refused_or_is_another_document(rt: HostRuntime) -> Result<(), Fail> {
    let section = b"\0\x03\x01a\x01b\x01c".as_slice();
    let tree = b"\x97\xb0\0\x01\0\0\0\x0aId CDATA x\x87\0\0\0\0\0\x011\xc2\0\0".as_slice();
    let stream = filled(rt.alloc(), section, tree)?;
    let header = header(section, tree, 3, 2);
    let mut longer = Vec::from_slice(rt.alloc(), stream.as_slice())?;
    longer.resize(512, 0)?;
    let fault = decode_all(rt.alloc(), longer.as_slice(), &header).err();
    assert_eq!(rt; fault, Some(DictFault::BadIndex), "a fragment too many");
    for place in 0..256 {
        let cut = stream.as_slice().get(..place).unwrap_or(&[]);
        let fault = decode_all(rt.alloc(), cut, &header).err();
        assert_eq!(rt; fault, Some(DictFault::BadIndex), "cut at {place}");
        for change in [1, 2, 0x20, 0x80, 0xff] {
            let mut changed = Vec::from_slice(rt.alloc(), stream.as_slice())?;
            if let Some(byte) = changed.get_mut(place) {
                *byte ^= change;
            }
            match decode_all(rt.alloc(), changed.as_slice(), &header) {
                Ok(doc) => {
                    let written = plain_stream(rt.alloc(), &doc).expect(&rt, "a stream");
                    assert_eq!(rt; written.bytes.as_slice(), changed.as_slice(), "at {place}");
                }
                Err(fault) => assert_eq!(rt; fault, DictFault::BadIndex, "at {place}"),
            }
        }
    }
    Ok(())
}
