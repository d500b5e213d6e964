//! Walks over files in memory. Memory is ample. The expected answers were worked out by hand from the format and from
//! what the calls promise.
//!
//! Events are written with `;` between them. `<0 1 2` is the Begin of tag 0 with the tag set of 1 and 2, `=` is
//! HeadEnd, `>0` is the Finish of tag 0, and `.` is End. `x-` and `x@` are the last piece of a text and of an
//! attribute; `x+` and `x&` are pieces after which another one comes. `!` is the refusal BadIndex, and `#7` is
//! BadFragment of fragment 7.

ghost use Rattle.std.specs.Prelude.{◌≡◌, true, None};
ghost use Rattle.acl_model.specs.declared.document.Doc.{Doc};

use acl_bits::Row;
use acl_model::{Bytes, Doc, is_document};
use acl_outside::{ReadFault, Store, SureSource};
use acl_walk::{Event, Piece, Walk};
use aes_block::Key128;
use esis_lines::read_doc;
use fragment_open::Opener;
use merkle_chunks::{Digest, Header, key_check, root_of, table_len, write_table};
use position_cipher::lock_fragment;
use skip_decode::SkipWalk;
use skip_encode::{Encoded, encode_file};
use std::alloc::Global;
use std::process::Abort;
use std::test::Fail;

mod passes;
mod spellings;
mod texts;

const KEY: [u8; 16] = [7; 16];

/// The document of these lines.
fn document(alloc: Global, lines: &[u8]) -> Result<Doc, Fail> {
    Ok(read_doc(alloc, &mut SureSource::new(Vec::from_slice(alloc, lines)?))?)
}

/// The file of the document of these lines.
fn file(rt: &impl Abort, alloc: Global, lines: &[u8]) -> Result<Encoded, Fail> {
    let doc = document(alloc, lines)?;
    assert!(rt; is_document(&doc));
    Ok(encode_file(alloc, &doc, KEY)?)
}

/// The dictionary section of names with spaces between them.
fn section(alloc: Global, names: &str) -> Result<Vec<u8>, Fail> {
    let mut bytes = Vec::new(alloc);
    let count = u16::try_from(names.split(' ').count())?;
    bytes.extend_from_slice(&count.to_be_bytes())?;
    for name in names.split(' ') {
        bytes.push(u8::try_from(name.len())?)?;
        bytes.extend_from_slice(name.as_bytes())?;
    }
    Ok(bytes)
}

/// Enciphers fragments in place.
fn lock(stream: &mut [u8]) -> Result<(), Fail> {
    let key = Key128::new(KEY);
    let (fragments, _) = stream.as_chunks_mut::<256>();
    for (index, fragment) in fragments.iter_mut().enumerate() {
        lock_fragment(&key, u32::try_from(index)?, fragment);
    }
    Ok(())
}

/// The file of a stream that was worked out by hand: names, a tree section, and the header's depth. All digests are
/// right.
fn sealed(
    rt: &impl Abort,
    alloc: Global,
    names: &str,
    tree: &[u8],
    depth: u16,
) -> Result<Encoded, Fail> {
    let section = section(alloc, names)?;
    assert!(rt; tree.len() < 100_000 && section.len() < 70_000);
    let header = Header {
        tree: tree.len() as u64,
        dictionary: section.len() as u32,
        tags: u16::try_from(names.split(' ').count())?,
        depth,
        check: key_check(&KEY),
    };
    assert!(rt; header.tree >= 1 && header.depth >= 1 && header.depth <= 255);
    assert!(rt; header.tags >= 1 && header.tags <= 256);
    assert!(rt; header.dictionary >= 2 + 2 * u32::from(header.tags));
    let prefix = header.write();
    let count = (section.len() + tree.len()).div_ceil(256);
    let mut stream = section;
    stream.extend_from_slice(tree)?;
    stream.resize(256 * count, 0)?;
    lock(&mut stream)?;
    let mut table = Vec::new(alloc);
    table.resize(table_len(count as u32), 0)?;
    let top = write_table(&stream, &mut table);
    let mut bytes = Vec::from_slice(alloc, &prefix)?;
    bytes.extend_from_slice(&stream)?;
    bytes.extend_from_slice(&table)?;
    Ok(Encoded {
        bytes: Bytes::from_vec(bytes),
        root: root_of(&prefix, &top),
    })
}

/// A walk over the file with this root in a store.
fn walk_over<'a, S: Store>(
    rt: &impl Abort,
    alloc: Global,
    store: &'a mut S,
    root: Digest,
) -> SkipWalk<'a, S> {
    let opener = Opener::start(store, root, KEY).expect(rt, "the file");
    SkipWalk::start(alloc, opener).expect(rt, "the names")
}

/// Appends a text.
fn put(out: &mut Vec<u8>, text: &str) -> Result<(), Fail> {
    Ok(out.extend_from_slice(text.as_bytes())?)
}

/// Appends a Begin. Where `cut` is false, its tag set is left out.
fn put_begin(
    alloc: Global,
    out: &mut Vec<u8>,
    tag: u16,
    below: &Row,
    cut: bool,
) -> Result<(), Fail> {
    put(out, &format!(in alloc; "<{tag}")?)?;
    for number in 0..256u16 {
        if cut && below.has(number) {
            put(out, &format!(in alloc; " {number}")?)?;
        }
    }
    put(out, ";")
}

/// Appends a piece, and what comes after it: after the last piece, and after each other one.
fn put_piece(out: &mut Vec<u8>, piece: &Piece, last: &str, more: &str) -> Result<(), Fail> {
    out.extend_from_slice(piece.bytes.as_slice())?;
    put(out, if piece.last { last } else { more })
}

/// Appends an event. Where `cut` is false, pieces are joined and tag sets left out.
fn put_event(alloc: Global, out: &mut Vec<u8>, event: &Event, cut: bool) -> Result<(), Fail> {
    match event {
        Event::Begin { tag, below } => put_begin(alloc, out, *tag, below, cut),
        Event::Attr(piece) => put_piece(out, piece, "@;", if cut { "&;" } else { "" }),
        Event::HeadEnd => put(out, "=;"),
        Event::Text(piece) => put_piece(out, piece, "-;", if cut { "+;" } else { "" }),
        Event::Finish { tag } => put(out, &format!(in alloc; ">{tag};")?),
        Event::End => put(out, "."),
    }
}

/// Appends a refusal.
fn put_fault(alloc: Global, out: &mut Vec<u8>, fault: &ReadFault) -> Result<(), Fail> {
    match fault {
        ReadFault::BadIndex => put(out, "!"),
        ReadFault::BadFragment { index, .. } => put(out, &format!(in alloc; "#{index}")?),
        _ => Err("another refusal".into()),
    }
}

/// Takes an event at a spot and appends it, or the refusal. Whether the walk goes on.
fn tell_next<W: Walk>(
    alloc: Global,
    walk: &mut W,
    spot: &mut W::Spot,
    cut: bool,
    out: &mut Vec<u8>,
) -> Result<bool, Fail>
    requires made { W.made (W.fixed walk.old) spot.old }
    requires placed { W.broken walk.old ≡ None → (d : Doc) → W.is_origin (W.fixed walk.old) d
        → W.sound walk.old d ≡ true → W.is_place (W.fixed walk.old) d spot.old }
    ensures same { W.fixed walk.new ≡ W.fixed walk.old }
    ensures made { W.made (W.fixed walk.new) spot.new }
    ensures placed { W.broken walk.new ≡ None → (d : Doc) → W.is_origin (W.fixed walk.new) d
        → W.sound walk.new d ≡ true → W.is_place (W.fixed walk.new) d spot.new }
{
    match walk.next(spot) {
        Ok(event) => {
            put_event(alloc, out, &event, cut)?;
            Ok(!matches!(&event, Event::End))
        }
        Err(fault) => {
            put_fault(alloc, out, &fault)?;
            Ok(false)
        }
    }
}

/// Takes at most so many events at a spot, up to End or a refusal.
fn told<W: Walk>(
    alloc: Global,
    walk: &mut W,
    spot: &mut W::Spot,
    most: u16,
    cut: bool,
) -> Result<Vec<u8>, Fail>
    requires made { W.made (W.fixed walk.old) spot.old }
    requires placed { W.broken walk.old ≡ None → (d : Doc) → W.is_origin (W.fixed walk.old) d
        → W.sound walk.old d ≡ true → W.is_place (W.fixed walk.old) d spot.old }
    ensures same { W.fixed walk.new ≡ W.fixed walk.old }
    ensures made { W.made (W.fixed walk.new) spot.new }
    ensures placed { W.broken walk.new ≡ None → (d : Doc) → W.is_origin (W.fixed walk.new) d
        → W.sound walk.new d ≡ true → W.is_place (W.fixed walk.new) d spot.new }
{
    let mut out = Vec::new(alloc);
    for _ in 0..most {
        if !tell_next(alloc, walk, spot, cut, &mut out)? {
            break;
        }
    }
    Ok(out)
}
