//! A source is read whole, and a document is written. The expected answers were worked out by hand from what the calls
//! promise. In a table each line is a case, with `|` between its fields.

use acl_model::{Bytes, Doc, Element, Item, Sequence};
use acl_outside::{Failed, MemSink, MemSource};
use esis_lines::{ReadAllFault, read_all, write_doc};
use sqlite_items::{Boxed, Items};
use std::alloc::{AllocError, Global};
use std::test::Fail;

// The bytes, the limit, the number of the read that fails, the answer, and the bytes that are left. Each read gives at
// most two bytes.
const SOURCES: &str = "|0|9|ok |
a|0|9|too long 0|
abcde|5|9|ok abcde|
abcdef|4|9|too long 4|f
abcde|5|0|failed|abcde
abcde|5|1|failed|cde
abcd|5|2|failed|";

/// Whether this is the answer.
fn is_answer(alloc: Global, answer: Result<Bytes, ReadAllFault>, want: &str) -> Result<bool, Fail> {
    match answer {
        Ok(bytes) => {
            let want = want.strip_prefix("ok ").ok_or("a fault is wanted")?;
            Ok(bytes.as_slice() == want.as_bytes())
        }
        Err(ReadAllFault::TooLong { limit }) => {
            Ok(format!(in alloc; "too long {limit}")?.as_str() == want)
        }
        Err(ReadAllFault::Failed) => Ok("failed" == want),
        Err(ReadAllFault::NoMemory) => Ok(false),
    }
}

fn is_source_read(alloc: Global, row: &str) -> Result<bool, Fail> {
    let (bytes, rest) = row.split_once('|').ok_or("one field")?;
    let (limit, rest) = rest.split_once('|').ok_or("two fields")?;
    let (fails, rest) = rest.split_once('|').ok_or("three fields")?;
    let (want, left) = rest.split_once('|').ok_or("four fields")?;
    let bytes = Vec::from_slice(alloc, bytes.as_bytes())?;
    let fails = Vec::from_slice(alloc, &[fails.parse()?])?;
    let mut source = MemSource::new(bytes, 2, fails);
    let answer = read_all(alloc, &mut source, limit.parse()?);
    let rest = read_all(alloc, &mut source, 9).ok().ok_or("the rest")?;
    Ok(is_answer(alloc, answer, want)? && rest.as_slice() == left.as_bytes())
}

#[test]
fn a_source_is_read_to_its_end_or_to_one_byte_past_the_limit(rt: HostRuntime) -> Result<(), Fail> {
    for row in SOURCES.lines() {
        assert!(rt; is_source_read(rt.alloc(), row)?, "{row}");
    }
    Ok(())
}

fn element(alloc: Global, name: &[u8], items: Vec<Item>) -> Result<Element, AllocError> {
    Ok(Element {
        name: Bytes::from_slice(alloc, name)?,
        attributes: Sequence::new(alloc),
        items: Items::from_vec(items),
    })
}

// An element with an attribute, a text and an element in it, and an empty one after them.
fn sample(alloc: Global) -> Result<Doc, AllocError> {
    let text = Item::Text(Bytes::from_slice(alloc, b"1")?);
    let filled = element(alloc, b"b", Vec::from_array(alloc, [text])?)?;
    let empty = element(alloc, b"c", Vec::new(alloc))?;
    let filled = Item::Child(Boxed::new(alloc, filled)?);
    let empty = Item::Child(Boxed::new(alloc, empty)?);
    let items = Vec::from_array(alloc, [filled, empty])?;
    let mut root = element(alloc, b"a", items)?;
    let attribute = Bytes::from_slice(alloc, b"Id CDATA x")?;
    root.attributes = Sequence::from_vec(Vec::from_array(alloc, [attribute])?);
    Ok(Doc { root })
}

#[test]
fn a_document_is_written_as_its_lines_or_as_the_prefix_of_them(
    rt: HostRuntime,
) -> Result<(), Fail> {
    let doc = sample(rt.alloc())?;
    let lines = b"AId CDATA x\n(a\n(b\n-1\n)b\n(c\n)c\n)a\n";
    for (room, fails, want, count) in [
        (33, 99, Ok(()), 33),
        (32, 99, Err(Failed), 32),
        (0, 99, Err(Failed), 0),
        (40, 0, Err(Failed), 0),
    ] {
        let fails = Vec::from_slice(rt.alloc(), &[fails])?;
        let mut sink = MemSink::new(rt.alloc(), room, fails)
            .ok()
            .ok_or("no memory")?;
        assert_eq!(rt; write_doc(&doc, &mut sink), want, "room for {room}");
        assert!(rt; count <= lines.len());
        assert_eq!(rt; sink.written(), &lines[..count], "room for {room}");
    }
    Ok(())
}
