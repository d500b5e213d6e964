//! Tests on small documents and on bytes worked out by hand, with enough memory.

ghost use Rattle.std.specs.Prelude.{◌≡◌, [], true, IfOk};
ghost use Rattle.acl_model.specs.Document.{is_document};
ghost use Rattle.acl_model.specs.declared.document.Item.TheVariants.{Child};

use super::*;
use acl_model::{Bytes, Doc, Element, Item, Name, Sequence};
use sqlite_items::{Boxed, Items};
use std::alloc::{AllocError, Global};
use std::test::Fail;

/// An empty child element.
fn child(alloc: Global, name: &[u8]) -> Result<Item, AllocError>
    ensures { IfOk result (λ item. item
        ≡ Child (record { name = name.now; attributes = []; items = [] })) }
{
    let element = Element {
        name: Name::from_slice(alloc, name)?,
        attributes: Sequence::new(alloc),
        items: Items::from_vec(Vec::new(alloc)),
    };
    Ok(Item::Child(Boxed::new(alloc, element)?))
}

/// A root `a` with the children `c`, `b` and `c`, and a text.
fn small(alloc: Global) -> Result<Doc, AllocError>
    ensures { IfOk result (λ d. is_document d ≡ true) }
{
    let mut items = Vec::new(alloc);
    items.push(child(alloc, b"c")?)?;
    items.push(Item::Text(Bytes::from_slice(alloc, b"x")?))?;
    items.push(child(alloc, b"bb")?)?;
    items.push(child(alloc, b"c")?)?;
    Ok(Doc {
        root: Element {
            name: Name::from_slice(alloc, b"a")?,
            attributes: Sequence::new(alloc),
            items: Items::from_vec(items),
        },
    })
}

#[test]
fn names_are_in_the_order_of_their_first_start(rt: HostRuntime) -> Result<(), Fail> {
    let doc = small(rt.alloc())?;
    let dictionary = Dictionary::of_doc(rt.alloc(), &doc).expect(&rt, "256 names at most");
    let bytes = b"\0\x03\x01a\x01c\x02bb".as_slice();
    let written = dictionary.bytes(rt.alloc()).expect(&rt, "memory");
    assert_eq!(rt; written.as_slice(), bytes);
    let copy = dictionary.copy(rt.alloc()).expect(&rt, "memory");
    let written = copy.bytes(rt.alloc()).expect(&rt, "memory");
    assert_eq!(rt; written.as_slice(), bytes);
    Ok(())
}

#[test]
fn a_name_has_a_number_and_a_number_a_name(rt: HostRuntime) -> Result<(), Fail> {
    let bytes = b"\0\x03\x01a\x01c\x02bb".as_slice();
    let dictionary = Dictionary::read(rt.alloc(), bytes).expect(&rt, "a dictionary");
    let rows: [(&[u8], Option<u16>); 5] = [
        (b"a", Some(0)),
        (b"c", Some(1)),
        (b"bb", Some(2)),
        (b"b", None),
        (b"", None),
    ];
    for (name, number) in rows {
        assert_eq!(rt; dictionary.number(name), number);
    }
    assert_eq!(rt; dictionary.names().len(), 3);
    assert_eq!(rt; dictionary.name(2), Some(b"bb".as_slice()));
    assert_eq!(rt; dictionary.name(3), None);
    Ok(())
}

#[test]
fn other_bytes_are_no_dictionary(rt: HostRuntime) -> Result<(), Fail> {
    let rows: [(&str, &[u8]); 12] = [
        ("nothing", b""),
        ("half a count", b"\0"),
        ("no names", b"\0\0"),
        ("a name too few", b"\0\x02\x01a"),
        ("a name too many", b"\0\x01\x01a\x01b"),
        ("a byte too many", b"\0\x01\x01a\0"),
        ("a name cut short", b"\0\x01\x02a"),
        ("an empty name", b"\0\x01\0"),
        ("a name that is a digit", b"\0\x01\x011"),
        ("the name of a dummy", b"\0\x01\x01-"),
        ("a name twice", b"\0\x02\x01a\x01a"),
        ("257 names", b"\x01\x01\x01a"),
    ];
    for (what, bytes) in rows {
        match Dictionary::read(rt.alloc(), bytes) {
            Ok(_) => assert!(rt; false, "{what}"),
            Err(fault) => assert_eq!(rt; fault, DictFault::BadIndex, "{what}"),
        }
    }
    Ok(())
}

/// The section of `count` names of two letters.
fn section(alloc: Global, count: u16) -> Result<Vec<u8>, AllocError> {
    let mut bytes = Vec::from_slice(alloc, &count.to_be_bytes())?;
    for i in 0..count {
        bytes.extend_from_slice(&[2, b'a' + (i / 26 % 26) as u8, b'a' + (i % 26) as u8])?;
    }
    Ok(bytes)
}

#[test]
fn there_are_at_most_256_names(rt: HostRuntime) -> Result<(), Fail> {
    let bytes = section(rt.alloc(), 256)?;
    let dictionary = Dictionary::read(rt.alloc(), bytes.as_slice()).expect(&rt, "a dictionary");
    assert_eq!(rt; dictionary.names().len(), 256);
    assert_eq!(rt; dictionary.number(b"jv"), Some(255));
    let bytes = section(rt.alloc(), 257)?;
    assert!(rt; Dictionary::read(rt.alloc(), bytes.as_slice()).is_err());
    Ok(())
}
