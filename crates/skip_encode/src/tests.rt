//! Documents whose streams are worked out by hand, and documents that have no stream. Memory is ample.

use super::*;
use acl_model::{Bytes, Doc, Element, Item, Name, Sequence, is_document};
use sqlite_items::{Boxed, Items};
use std::alloc::{AllocError, Global};
use std::process::Abort;
use std::test::Fail;

mod files;

/// A document whose root has this name, these attributes and these items.
fn document(
    alloc: Global,
    name: &[u8],
    attributes: Vec<Bytes>,
    items: Vec<Item>,
) -> Result<Doc, AllocError> {
    Ok(Doc {
        root: Element {
            name: Name::from_slice(alloc, name)?,
            attributes: Sequence::from_vec(attributes),
            items: Items::from_vec(items),
        },
    })
}

/// A child element without attributes.
fn child(alloc: Global, name: &[u8], items: Vec<Item>) -> Result<Item, AllocError> {
    let element = Element {
        name: Name::from_slice(alloc, name)?,
        attributes: Sequence::new(alloc),
        items: Items::from_vec(items),
    };
    Ok(Item::Child(Boxed::new(alloc, element)?))
}

/// A child element with nothing inside.
fn leaf(alloc: Global, name: &[u8]) -> Result<Item, AllocError> {
    child(alloc, name, Vec::new(alloc))
}

/// A text.
fn text(alloc: Global, bytes: &[u8]) -> Result<Item, AllocError> {
    Ok(Item::Text(Bytes::from_slice(alloc, bytes)?))
}

/// A document of one element `a` with a text.
fn of_text(alloc: Global, bytes: &[u8]) -> Result<Doc, AllocError> {
    document(
        alloc,
        b"a",
        Vec::new(alloc),
        vec![in alloc; text(alloc, bytes)?]?,
    )
}

/// The stream of a document, which must be valid.
fn stream(rt: &impl Abort, alloc: Global, doc: &Doc) -> Plain {
    assert!(rt; is_document(doc));
    plain_stream(alloc, doc).expect(rt, "a stream")
}

/// Fails unless the stream begins with these sections.
fn expect_sections(rt: &impl Abort, plain: &Plain, dictionary: &[u8], tree: &[u8]) {
    match plain.bytes.as_slice().strip_prefix(dictionary) {
        Some(rest) => assert!(rt; rest.starts_with(tree)),
        None => panic!(rt; "another dictionary"),
    }
}

#[test]
fn a_text_is_its_length_and_its_bytes(rt: HostRuntime) -> Result<(), Fail> {
    let alloc = rt.alloc();
    let doc = of_text(alloc, b"hi")?;
    let plain = stream(&rt, alloc, &doc);
    let dictionary = b"\0\x01\x01a".as_slice();
    let tree = b"\xa0\0\0\0\0\0\x02hi".as_slice();
    expect_sections(&rt, &plain, dictionary, tree);
    assert_eq!(rt; plain.bytes.len(), 256);
    Ok(())
}

#[test]
fn one_member_takes_no_bits_for_its_number(rt: HostRuntime) -> Result<(), Fail> {
    let alloc = rt.alloc();
    let doc = document(
        alloc,
        b"a",
        Vec::new(alloc),
        vec![in alloc; leaf(alloc, b"b")?]?,
    )?;
    let plain = stream(&rt, alloc, &doc);
    let dictionary = b"\0\x02\x01a\x01b".as_slice();
    expect_sections(&rt, &plain, dictionary, b"\xad\0\0\x90\0\0");
    assert_eq!(rt;
        (plain.tree, plain.dictionary, plain.tags, plain.depth),
        (6, 6, 2, 2)
    );
    Ok(())
}

#[test]
fn attributes_stand_before_items(rt: HostRuntime) -> Result<(), Fail> {
    let alloc = rt.alloc();
    let b = child(alloc, b"b", vec![in alloc; text(alloc, b"1")?]?)?;
    let attributes = vec![in alloc; Bytes::from_slice(alloc, b"Id CDATA x")?]?;
    let doc = document(
        alloc,
        b"a",
        attributes,
        vec![in alloc; b, leaf(alloc, b"c")?]?,
    )?;
    let plain = stream(&rt, alloc, &doc);
    let dictionary = b"\0\x03\x01a\x01b\x01c".as_slice();
    let tree = b"\x97\xb0\0\x01\0\0\0\x0aId CDATA x\x87\0\0\0\0\0\x011\xc2\0\0".as_slice();
    expect_sections(&rt, &plain, dictionary, tree);
    Ok(())
}

// Inside `c`, `d` starts before `b` but has the higher number.
#[test]
fn members_are_ranked_by_their_number(rt: HostRuntime) -> Result<(), Fail> {
    let alloc = rt.alloc();
    let c = child(
        alloc,
        b"c",
        vec![in alloc; leaf(alloc, b"d")?, leaf(alloc, b"b")?]?,
    )?;
    let doc = document(
        alloc,
        b"a",
        Vec::new(alloc),
        vec![in alloc; leaf(alloc, b"b")?, c]?,
    )?;
    let plain = stream(&rt, alloc, &doc);
    let dictionary = b"\0\x04\x01a\x01b\x01c\x01d".as_slice();
    let tree = b"\x97\x78\0\0\x82\0\0\xbb\0\0\0\xc4\0\0\x84\0\0".as_slice();
    expect_sections(&rt, &plain, dictionary, tree);
    Ok(())
}

// The content of `a` has 32 bytes, so its child's length is written in six bits: 1 0 011101.
#[test]
fn a_content_of_32_bytes_needs_6_bits(rt: HostRuntime) -> Result<(), Fail> {
    let alloc = rt.alloc();
    let b = child(alloc, b"b", vec![in alloc; text(alloc, &[b'z'; 23])?]?)?;
    let doc = document(alloc, b"a", Vec::new(alloc), vec![in alloc; b]?)?;
    let plain = stream(&rt, alloc, &doc);
    let dictionary = b"\0\x02\x01a\x01b".as_slice();
    let tree = b"\xac\0\0\0\x9d\0\0\0\0\0\x17".as_slice();
    expect_sections(&rt, &plain, dictionary, tree);
    Ok(())
}

// The sections have 12 bytes without the text, so a text of 244 bytes fills a fragment.
#[test]
fn a_whole_fragment_is_not_filled(rt: HostRuntime) -> Result<(), Fail> {
    let alloc = rt.alloc();
    for (long, whole) in [(244, 256), (245, 512)] {
        let doc = of_text(alloc, &vec![in alloc; b'z'; long]?)?;
        assert_eq!(rt; stream(&rt, alloc, &doc).bytes.len(), whole);
    }
    Ok(())
}

/// A root `a` with `children` children, each of another name.
fn named(alloc: Global, children: u16) -> Result<Doc, AllocError> {
    let mut items = Vec::new(alloc);
    for n in 0..children {
        items.push(leaf(alloc, &[b'a' + (n / 26 % 26) as u8, b'a' + (n % 26) as u8])?)?;
    }
    document(alloc, b"a", Vec::new(alloc), items)
}

#[test]
fn at_most_256_names(rt: HostRuntime) -> Result<(), Fail> {
    let alloc = rt.alloc();
    assert_eq!(rt; stream(&rt, alloc, &named(alloc, 255)?).tags, 256);
    let doc = named(alloc, 256)?;
    assert!(rt; is_document(&doc));
    assert!(rt; matches!(plain_stream(alloc, &doc), Err(EncodeFault::TooManyTags)));
    assert!(rt;
        matches!(
            encode_file(alloc, &doc, [0; 16]),
            Err(EncodeFault::TooManyTags)
        )
    );
    Ok(())
}

/// A root `a` with `texts` empty texts.
fn of_empty_texts(alloc: Global, texts: u32) -> Result<Doc, AllocError> {
    let mut items = Vec::with_capacity(alloc, texts as usize)?;
    for _ in 0..texts {
        items.push(Item::Text(Bytes::new(alloc)))?;
    }
    document(alloc, b"a", Vec::new(alloc), items)
}

// Each text takes four bytes, the root's head four, the number of attributes two, and the dictionary section four.
#[test]
fn at_most_33554432_bytes(rt: HostRuntime) -> Result<(), Fail> {
    let alloc = rt.alloc();
    let plain = stream(&rt, alloc, &of_empty_texts(alloc, 8_388_605)?);
    assert_eq!(rt; (plain.tree, plain.dictionary), (33_554_426, 4));
    let doc = of_empty_texts(alloc, 8_388_606)?;
    assert!(rt; is_document(&doc));
    assert!(rt; matches!(plain_stream(alloc, &doc), Err(EncodeFault::TooLarge)));
    assert!(rt;
        matches!(
            encode_file(alloc, &doc, [0; 16]),
            Err(EncodeFault::TooLarge)
        )
    );
    Ok(())
}
