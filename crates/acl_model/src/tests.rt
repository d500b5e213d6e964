//! Tests of each public call, with enough memory.

use super::*;
use sqlite_items::Items;
use std::test::Fail;

#[test]
fn a_list_returns_what_it_was_made_from(rt: HostRuntime) -> Result<(), Fail> {
    let name = Name::from_slice(rt.alloc(), b"Folder")?;
    assert_eq!(rt; name.len(), 6);
    assert!(rt; !name.is_empty());
    assert_eq!(rt; name.as_slice(), b"Folder".as_slice());
    let bytes = name.into_vec();
    assert_eq!(rt; Sequence::from_vec(bytes).len(), 6);
    assert!(rt; Bytes::new(rt.alloc()).is_empty());
    Ok(())
}

#[test]
fn a_place_counts_past_32_bits(rt: HostRuntime) -> Result<(), Fail> {
    let place = Place::from_slice(rt.alloc(), &[1, 4_294_967_296])?;
    assert_eq!(rt; place.as_slice(), [1, 4_294_967_296].as_slice());
    Ok(())
}

#[test]
fn a_name_has_the_form_of_one(rt: HostRuntime) -> Result<(), Fail> {
    for (name, is_one) in [
        (b"Folder".as_slice(), true),
        (b"_a.1-b:c".as_slice(), true),
        (b"\xc3\xa9".as_slice(), true),
        (b"".as_slice(), false),
        (b"1a".as_slice(), false),
        (b"-".as_slice(), false),
        (b"a b".as_slice(), false),
    ] {
        assert_eq!(rt; is_a_name(name), is_one);
    }
    assert!(rt; is_a_name(&[b'a'; 255]));
    assert!(rt; !is_a_name(&[b'a'; 256]));
    Ok(())
}

#[test]
fn lines_are_read_one_at_a_time(rt: HostRuntime) -> Result<(), Fail> {
    for (text, line, after) in [
        (b"(a\n\n)a".as_slice(), b"(a".as_slice(), b"\n)a".as_slice()),
        (b"\n)a".as_slice(), b"".as_slice(), b")a".as_slice()),
        (b")a".as_slice(), b")a".as_slice(), b"".as_slice()),
    ] {
        assert_eq!(rt; next_line(text), Some((line, after)));
    }
    assert_eq!(rt; next_line(b""), None);
    Ok(())
}

#[test]
fn a_text_is_cut_at_the_first_of_its_bytes(rt: HostRuntime) -> Result<(), Fail> {
    let parts = Some((b"+".as_slice(), b"R1 /a".as_slice()));
    assert_eq!(rt; cut(b"+ R1 /a", b' '), parts);
    assert_eq!(rt; cut(b"R1", b' '), None);
    Ok(())
}

#[test]
fn only_a_view_has_dummies(rt: HostRuntime) -> Result<(), Fail> {
    for (name, in_document, in_view) in [
        (b"Folder".as_slice(), true, true),
        (b"-".as_slice(), false, true),
        (b"--".as_slice(), false, false),
    ] {
        let doc = Doc {
            root: Element {
                name: Name::from_slice(rt.alloc(), name)?,
                attributes: Sequence::new(rt.alloc()),
                items: Items::new(rt.alloc()),
            },
        };
        assert_eq!(rt; is_document(&doc), in_document);
        assert_eq!(rt; is_view_document(&doc), in_view);
    }
    Ok(())
}
