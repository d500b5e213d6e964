//! The walk over files in memory. Memory is ample.

ghost use Rattle.std.specs.Prelude.{◌≡◌, true, None};
ghost use Rattle.acl_model.specs.declared.document.Doc.{Doc};

use super::*;
use acl_bits::{Piece, Row};
use acl_model::{Doc, Element, Item, Name, Sequence, is_document};
use acl_outside::{MemStore, ReadFault, Recorder, Store, SureStore};
use acl_walk::{Event, Walk};
use aes_block::Key128;
use arrayvec::ArrayVec;
use fragment_open::Opener;
use merkle_chunks::{Digest, Header, key_check, root_of, write_table};
use position_cipher::lock_fragment;
use skip_encode::encode_file;
use sqlite_items::{Boxed, Items};
use std::alloc::{AllocError, Global};
use std::process::Abort;
use std::test::Fail;

const KEY: [u8; 16] = [7; 16];

/// An element with one item, or without any.
fn element(alloc: Global, name: &[u8], item: Option<Item>) -> Result<Item, AllocError> {
    let mut items = Vec::new(alloc);
    if let Some(item) = item {
        items.push(item)?;
    }
    let element = Element {
        name: Name::from_slice(alloc, name)?,
        attributes: Sequence::new(alloc),
        items: Items::from_vec(items),
    };
    Ok(Item::Child(Boxed::new(alloc, element)?))
}

/// `(r`, `(x`, `-` and 10,240 bytes `z`, `)x`, `(y`, `-1`, `)y`, `)r`.
fn long_document(alloc: Global) -> Result<Doc, AllocError> {
    let mut long = Vec::new(alloc);
    long.resize(10_240, b'z')?;
    let text = Item::Text(acl_model::Bytes::from_vec(long));
    let one = Item::Text(acl_model::Bytes::from_slice(alloc, b"1")?);
    let mut items = Vec::new(alloc);
    items.push(element(alloc, b"x", Some(text))?)?;
    items.push(element(alloc, b"y", Some(one))?)?;
    Ok(Doc {
        root: Element {
            name: Name::from_slice(alloc, b"r")?,
            attributes: Sequence::new(alloc),
            items: Items::from_vec(items),
        },
    })
}

/// A file whose stream begins with these bytes, of which `dictionary` are its dictionary section, with one name; and
/// its root. The tree section has 9 bytes.
fn file_of(
    rt: &impl Abort,
    alloc: Global,
    dictionary: u32,
    stream: &[u8; 13],
) -> Result<(Vec<u8>, Digest), AllocError> {
    let header = Header {
        tree: 9,
        dictionary,
        tags: 1,
        depth: 1,
        check: key_check(&KEY),
    };
    assert!(rt; (4..=6).contains(&dictionary));
    let mut fragment = [0; 256];
    fragment[..13].copy_from_slice(stream);
    lock_fragment(&Key128::new(KEY), 0, &mut fragment);
    let mut table = [0; 32];
    let top = write_table(&fragment, &mut table);
    let prefix = header.write();
    let mut bytes = Vec::new(alloc);
    bytes.extend_from_slice(&prefix)?;
    bytes.extend_from_slice(&fragment)?;
    bytes.extend_from_slice(&table)?;
    Ok((bytes, root_of(&prefix, &top)))
}

/// A walk over a file with this root.
fn walk_over<'a, S: Store>(
    rt: &impl Abort,
    alloc: Global,
    store: &'a mut S,
    root: Digest,
) -> SkipWalk<'a, S> {
    let opener = Opener::start(store, root, KEY).expect(rt, "the file");
    SkipWalk::start(alloc, opener).expect(rt, "the names")
}

/// Takes the event at a spot.
fn take<W: Walk>(rt: &impl Abort, walk: &mut W, spot: &mut W::Spot) -> Event
    requires made { W.made (W.fixed walk.old) spot.old }
    requires placed { W.broken walk.old ≡ None → (d : Doc) → W.is_origin (W.fixed walk.old) d
        → W.sound walk.old d ≡ true → W.is_place (W.fixed walk.old) d spot.old }
    ensures made { W.made (W.fixed walk.new) spot.new }
    ensures placed { W.broken walk.new ≡ None → (d : Doc) → W.is_origin (W.fixed walk.new) d
        → W.sound walk.new d ≡ true → W.is_place (W.fixed walk.new) d spot.new }
{
    match walk.next(spot) {
        Ok(event) => event,
        Err(_) => panic!(rt; "a refusal"),
    }
}

/// Takes the event at a spot, and checks that it is this one.
fn expect<W: Walk>(rt: &impl Abort, walk: &mut W, spot: &mut W::Spot, want: &Event)
    requires made { W.made (W.fixed walk.old) spot.old }
    requires placed { W.broken walk.old ≡ None → (d : Doc) → W.is_origin (W.fixed walk.old) d
        → W.sound walk.old d ≡ true → W.is_place (W.fixed walk.old) d spot.old }
    ensures made { W.made (W.fixed walk.new) spot.new }
    ensures placed { W.broken walk.new ≡ None → (d : Doc) → W.is_origin (W.fixed walk.new) d
        → W.sound walk.new d ≡ true → W.is_place (W.fixed walk.new) d spot.new }
{
    let event = take(rt, walk, spot);
    assert!(rt; event == *want, "{event:?}");
}

// The text of x is passed, which has 40 of the file's 41 fragments.
#[test]
fn a_long_text_is_passed(rt: HostRuntime) -> Result<(), Fail> {
    let alloc = rt.alloc();
    let doc = long_document(alloc)?;
    assert!(rt; is_document(&doc));
    let file = encode_file(alloc, &doc, KEY).expect(&rt, "a file");
    let mut below = Row::none();
    below.put(1);
    below.put(2);
    let mut one = ArrayVec::new();
    one.try_extend_from_slice(b"1").unwrap();
    let mut store = SureStore::new(file.bytes.into_vec());
    let mut walk = walk_over(&rt, alloc, &mut store, file.root);
    assert!(rt; walk.names().number(b"y") == Some(2));
    let mut spot = walk.new_spot(alloc)?;
    let none = Row::none();
    expect(&rt, &mut walk, &mut spot, &Event::Begin { tag: 0, below });
    expect(&rt, &mut walk, &mut spot, &Event::HeadEnd);
    expect(
        &rt,
        &mut walk,
        &mut spot,
        &Event::Begin {
            tag: 1,
            below: none,
        },
    );
    walk.pass(&mut spot);
    expect(&rt, &mut walk, &mut spot, &Event::Finish { tag: 1 });
    expect(
        &rt,
        &mut walk,
        &mut spot,
        &Event::Begin {
            tag: 2,
            below: none,
        },
    );
    expect(&rt, &mut walk, &mut spot, &Event::HeadEnd);
    let text = Event::Text(Piece {
        bytes: one,
        last: true,
    });
    expect(&rt, &mut walk, &mut spot, &text);
    expect(&rt, &mut walk, &mut spot, &Event::Finish { tag: 2 });
    expect(&rt, &mut walk, &mut spot, &Event::Finish { tag: 0 });
    expect(&rt, &mut walk, &mut spot, &Event::End);
    assert_eq!(rt; walk.opened(), 2);
    assert_eq!(rt; walk.taken(), 10);
    assert_eq!(rt; walk.refusal(), None);
    Ok(())
}

// The second position reads fragment 0 again, while the text's piece in fragment 1 is held.
#[test]
fn a_fragment_opened_again_is_not_counted_again(rt: HostRuntime) -> Result<(), Fail> {
    let alloc = rt.alloc();
    let doc = long_document(alloc)?;
    assert!(rt; is_document(&doc));
    let file = encode_file(alloc, &doc, KEY).expect(&rt, "a file");
    let inner = SureStore::new(file.bytes.into_vec());
    let mut store = Recorder::new(alloc, inner, 100, 10_000)?;
    let mut walk = walk_over(&rt, alloc, &mut store, file.root);
    assert_eq!(rt; walk.opened(), 1);
    let mut spot = walk.new_spot(alloc)?;
    take(&rt, &mut walk, &mut spot);
    take(&rt, &mut walk, &mut spot);
    take(&rt, &mut walk, &mut spot);
    take(&rt, &mut walk, &mut spot);
    take(&rt, &mut walk, &mut spot);
    assert_eq!(rt; walk.opened(), 1);
    take(&rt, &mut walk, &mut spot);
    assert_eq!(rt; walk.opened(), 2);
    let mut first = walk.new_spot(alloc)?;
    take(&rt, &mut walk, &mut first);
    assert_eq!(rt; walk.opened(), 2);
    drop(walk);
    let fragments = store.served().iter().filter(|read| read.asked == 256);
    assert_eq!(rt; fragments.count(), 3);
    Ok(())
}

// The digests are right, but a head begins with 0.
#[test]
fn a_wrong_head_is_refused_and_the_refusal_stays(rt: HostRuntime) -> Result<(), Fail> {
    let alloc = rt.alloc();
    // The element `a` with the text `hi`, but for the first bit of its head, which is 0.
    let (bytes, root) = file_of(&rt, alloc, 4, b"\0\x01\x01a\x20\0\0\0\0\0\x02hi")?;
    let mut store = SureStore::new(bytes);
    let mut walk = walk_over(&rt, alloc, &mut store, root);
    let mut spot = walk.new_spot(alloc)?;
    assert_eq!(rt; walk.next(&mut spot), Err(ReadFault::BadIndex));
    assert_eq!(rt; walk.next(&mut spot), Err(ReadFault::BadIndex));
    assert_eq!(rt; walk.refusal(), Some(ReadFault::BadIndex));
    assert_eq!(rt; walk.taken(), 2);
    Ok(())
}

/// How a start ends on a file of these bytes, in a store whose reads of these numbers fail.
fn start_fault(
    rt: &impl Abort,
    alloc: Global,
    dictionary: u32,
    stream: &[u8; 13],
    fails: Vec<u64>,
) -> Result<Option<StartFault>, AllocError> {
    let (bytes, root) = file_of(rt, alloc, dictionary, stream)?;
    let mut store = MemStore::new(bytes, fails);
    let opener = Opener::start(&mut store, root, KEY).expect(rt, "the file");
    Ok(SkipWalk::start(alloc, opener).err())
}

// The digests are right, but the dictionary section is wrong.
#[test]
fn a_wrong_dictionary_is_refused(rt: HostRuntime) -> Result<(), Fail> {
    let alloc = rt.alloc();
    let bad = Some(StartFault::Read(ReadFault::BadIndex));
    let none = Vec::new(alloc);
    // It says that there are two names, and has one.
    let short = start_fault(&rt, alloc, 4, b"\0\x02\x01a\xa0\0\0\0\0\0\x02hi", none)?;
    assert!(rt; short == bad);
    let none = Vec::new(alloc);
    // It has two names, and the header says one.
    let other = start_fault(&rt, alloc, 6, b"\0\x02\x01a\x01b\xa0\0\0\0\0\0\0", none)?;
    assert!(rt; other == bad);
    Ok(())
}

// The reads 0 and 1 are those of the header and the top digest, and read 2 is that of the fragment.
#[test]
fn a_read_that_fails_ends_a_start(rt: HostRuntime) -> Result<(), Fail> {
    let alloc = rt.alloc();
    let stream = b"\0\x01\x01a\xa0\0\0\0\0\0\x02hi";
    let fails = Vec::from_slice(alloc, &[3])?;
    assert!(rt; start_fault(&rt, alloc, 4, stream, fails)?.is_none());
    let fails = Vec::from_slice(alloc, &[2])?;
    let failed = start_fault(&rt, alloc, 4, stream, fails)?;
    assert!(rt; failed == Some(StartFault::Read(ReadFault::StoreFault)));
    Ok(())
}
