//! Walks over small documents, event by event. Memory suffices.
//!
//! Events are written as lines with `;` between them. `<1 8` is the Begin of tag 1 with the set of the
//! numbers below 8, `=` is HeadEnd, `>1` is the Finish of tag 1, and `.` is End. `Ax` and `-x` are the
//! last piece of an attribute and of a text; `ax` and `+x` are pieces after which another one comes.

ghost use Rattle.std.specs.Prelude.{◌≡◌, true, Option, None};
ghost use Rattle.acl_model.specs.declared.document.Doc.{Doc};
ghost use Rattle.acl_walk.specs.Following.{All};

use super::*;
use acl_bits::Row;
use acl_model::{Doc, Name};
use arrayvec::ArrayVec;
use documents::{bytes_of, document, names};
use std::alloc::Global;
use std::process::Abort;
use std::test::Fail;

mod documents;

/// The piece with these bytes.
fn piece(bytes: &[u8], last: bool) -> Result<Piece, Fail> {
    let mut items = ArrayVec::new();
    if bytes.len() > 256 {
        return Err("a long piece".into());
    }
    items.try_extend_from_slice(bytes).unwrap();
    Ok(Piece { bytes: items, last })
}

/// The Begin with this tag and the set of the numbers below a count.
fn begin(tag: &str, count: &str) -> Result<Event, Fail> {
    let tag = tag.parse()?;
    let count: u8 = count.parse()?;
    Ok(Event::Begin {
        tag,
        below: Row::full(u16::from(count)),
    })
}

/// The event that a line writes.
fn event_of(alloc: Global, line: &str) -> Result<Event, Fail> {
    if let Some(text) = line.strip_prefix('<') {
        let (tag, count) = text.split_once(' ').ok_or("no set")?;
        return begin(tag, count);
    }
    if let Some(text) = line.strip_prefix('>') {
        return Ok(Event::Finish { tag: text.parse()? });
    }
    match bytes_of(alloc, line)?.as_slice() {
        [b'A', bytes @ ..] => Ok(Event::Attr(piece(bytes, true)?)),
        [b'a', bytes @ ..] => Ok(Event::Attr(piece(bytes, false)?)),
        [b'-', bytes @ ..] => Ok(Event::Text(piece(bytes, true)?)),
        [b'+', bytes @ ..] => Ok(Event::Text(piece(bytes, false)?)),
        [b'='] => Ok(Event::HeadEnd),
        [b'.'] => Ok(Event::End),
        _ => Err("no event".into()),
    }
}

/// The events that the lines write.
fn events_of(alloc: Global, lines: &str) -> Result<Vec<Event>, Fail> {
    let mut events = Vec::new(alloc);
    for line in lines.split(';') {
        events.push(event_of(alloc, line)?)?;
    }
    Ok(events)
}

/// Takes events at a spot, and checks that they are these.
fn expect<W: Walk>(rt: &impl Abort, walk: &mut W, spot: &mut W::Spot, wants: &[Event])
    requires made { W.made (W.fixed walk.old) spot.old }
    requires placed { W.broken walk.old ≡ None → (d : Doc) → W.is_origin (W.fixed walk.old) d
        → W.sound walk.old d ≡ true → W.is_place (W.fixed walk.old) d spot.old }
    ensures same { W.fixed walk.new ≡ W.fixed walk.old }
    ensures made { W.made (W.fixed walk.old) spot.new }
    ensures placed { W.broken walk.new ≡ None → (d : Doc) → W.is_origin (W.fixed walk.old) d
        → W.sound walk.new d ≡ true → W.is_place (W.fixed walk.old) d spot.new }
    ensures went { (o : Option Doc) → W.went walk.old o All walk.new }
{
    for want in wants {
        match walk.next(spot) {
            Ok(event) => assert!(rt; event == *want, "{event:?}"),
            Err(_) => panic!(rt; "a refusal"),
        }
    }
}

/// A walk over a document, after the check that it can be walked.
fn walk_of<'a>(rt: &impl Abort, doc: &'a Doc, names: &'a [Name]) -> TreeWalk<'a> {
    assert!(rt; can_be_walked(doc, names));
    TreeWalk::new(doc, names)
}

/// Walks over a document from its begin to its end, and checks that these are its events. Gives how many
/// were taken.
fn expect_all(rt: &impl Abort, alloc: Global, row: &str) -> Result<u64, Fail> {
    let (known, rest) = row.split_once('|').ok_or("one field")?;
    let (lines, events) = rest.split_once('|').ok_or("two fields")?;
    let names = names(alloc, known)?;
    let doc = document(alloc, lines)?;
    let events = events_of(alloc, events)?;
    let mut walk = walk_of(rt, &doc, &names);
    let mut spot = walk.new_spot(alloc)?;
    expect(rt, &mut walk, &mut spot, &events);
    Ok(walk.taken())
}

/// The folder of one patient, with an admission and an act: names, lines and events.
const WARD: &str = "Hospital Folder Admin SSN Fname Act RPhys Details|\
    (Hospital;(Folder;(Admin;(SSN;-123;)SSN;(Fname;-Li;)Fname;)Admin;\
    (Act;(RPhys;-Ana;)RPhys;(Details;-calm;)Details;)Act;)Folder;)Hospital|\
    <0 8;=;<1 8;=;<2 8;=;<3 0;=;-123;>3;<4 0;=;-Li;>4;>2;\
    <5 8;=;<6 0;=;-Ana;>6;<7 0;=;-calm;>7;>5;>1;>0;.";

#[test]
fn a_ward_has_29_events(rt: HostRuntime) -> Result<(), Fail> {
    assert_eq!(rt; expect_all(&rt, rt.alloc(), WARD)?, 29);
    Ok(())
}

// Only the last piece is marked, and an empty text is one empty piece.
const TEXTS: &str = "a|(a;-;)a|<0 0;=;-;>0;.
a|(a;-z;)a|<0 0;=;-z;>0;.
a|(a;-z*256;)a|<0 0;=;-z*256;>0;.
a|(a;-z*257;)a|<0 0;=;+z*256;-z;>0;.
a|(a;-z*512;)a|<0 0;=;+z*256;-z*256;>0;.
a|AId CDATA z*248;(a;)a|<0 0;aId CDATA z*247;Az;=;>0;.";

#[test]
fn texts_are_cut_after_256_bytes(rt: HostRuntime) -> Result<(), Fail> {
    for row in TEXTS.lines() {
        expect_all(&rt, rt.alloc(), row)?;
    }
    Ok(())
}

// A dummy's name has no number, and yet the set of the element around it isn't empty.
#[test]
fn dummies_have_the_tag_256(rt: HostRuntime) -> Result<(), Fail> {
    expect_all(
        &rt,
        rt.alloc(),
        "a|(-;(-;)-;)-|<256 1;=;<256 0;=;>256;>256;.",
    )?;
    Ok(())
}

// Before the first event, inside an attribute, inside a text, in a head, at a Finish, in a content and
// at the end.
#[test]
fn a_pass_leads_to_the_finish(rt: HostRuntime) -> Result<(), Fail> {
    let alloc = rt.alloc();
    let doc = document(
        alloc,
        "(a;Ax CDATA y*300;(b;(c;)c;)b;(c;-z*257;)c;(b;(c;)c;)b;)a",
    )?;
    let names = names(alloc, "a b c")?;
    let mut walk = walk_of(&rt, &doc, &names);
    let mut spot = walk.new_spot(alloc)?;
    walk.pass(&mut spot);
    let in_attribute = events_of(alloc, "<0 3;=;<1 3;ax CDATA y*248")?;
    expect(&rt, &mut walk, &mut spot, &in_attribute);
    walk.pass(&mut spot);
    let in_text = events_of(alloc, ">1;<2 0;=;+z*256")?;
    expect(&rt, &mut walk, &mut spot, &in_text);
    walk.pass(&mut spot);
    let in_head = events_of(alloc, ">2;<1 3")?;
    expect(&rt, &mut walk, &mut spot, &in_head);
    walk.pass(&mut spot);
    walk.pass(&mut spot);
    let in_content = events_of(alloc, ">1")?;
    expect(&rt, &mut walk, &mut spot, &in_content);
    walk.pass(&mut spot);
    let at_end = events_of(alloc, ">0;.")?;
    expect(&rt, &mut walk, &mut spot, &at_end);
    walk.pass(&mut spot);
    expect(&rt, &mut walk, &mut spot, &events_of(alloc, ".")?);
    Ok(())
}

const NESTED: &str = "(a;(b;(c;-x;)c;(d;-y;)d;)b;)a";

// A copied spot stays where it is when the other one moves or passes. The events of both count.
#[test]
fn a_copied_spot_moves_alone(rt: HostRuntime) -> Result<(), Fail> {
    let alloc = rt.alloc();
    let doc = document(alloc, NESTED)?;
    let names = names(alloc, "a b c d")?;
    let mut walk = walk_of(&rt, &doc, &names);
    let mut first = walk.new_spot(alloc)?;
    let mut second = walk.new_spot(alloc)?;
    expect(&rt, &mut walk, &mut first, &events_of(alloc, "<0 4;=")?);
    walk.copy_spot(&first, &mut second);
    let inside = events_of(alloc, "<1 4;=")?;
    expect(&rt, &mut walk, &mut first, &inside);
    walk.pass(&mut first);
    expect(&rt, &mut walk, &mut second, &inside);
    expect(&rt, &mut walk, &mut first, &events_of(alloc, ">1;>0")?);
    expect(&rt, &mut walk, &mut second, &events_of(alloc, "<2 0")?);
    assert_eq!(rt; walk.taken(), 9);
    Ok(())
}

/// Walks over the nested document by a walk that the walk is lent to.
fn expect_lent<W: Walk>(rt: &impl Abort, alloc: Global, walk: &mut W) -> Result<(), Fail> {
    let mut lent = Lent::new(walk);
    let mut spot = lent.new_spot(alloc)?;
    let mut other = lent.new_spot(alloc)?;
    expect(rt, &mut lent, &mut spot, &events_of(alloc, "<0 4;=")?);
    lent.copy_spot(&spot, &mut other);
    lent.pass(&mut other);
    expect(rt, &mut lent, &mut other, &events_of(alloc, ">0;.")?);
    expect(rt, &mut lent, &mut spot, &events_of(alloc, "<1 4")?);
    assert_eq!(rt; lent.taken(), 5);
    assert!(rt; lent.refusal().is_none());
    Ok(())
}

// The walk that was lent has taken the events.
#[test]
fn a_lent_walk_hands_each_call_on(rt: HostRuntime) -> Result<(), Fail> {
    let alloc = rt.alloc();
    let doc = document(alloc, NESTED)?;
    let names = names(alloc, "a b c d")?;
    let mut walk = walk_of(&rt, &doc, &names);
    expect_lent(&rt, alloc, &mut walk)?;
    assert_eq!(rt; walk.taken(), 5);
    assert!(rt; walk.refusal().is_none());
    Ok(())
}

/// Checks whether a document can be walked as the row says: what the row shows, names, lines, and `yes`
/// or `no`.
fn is_as_said(alloc: Global, row: &str) -> Result<bool, Fail> {
    let (_, rest) = row.split_once('|').ok_or("one field")?;
    let (known, rest) = rest.split_once('|').ok_or("two fields")?;
    let (lines, said) = rest.split_once('|').ok_or("three fields")?;
    let names = names(alloc, known)?;
    let doc = document(alloc, lines)?;
    Ok(can_be_walked(&doc, &names) == (said == "yes"))
}

const NAMES: &str = "all names|a b|(a;(b;-hi;)b;)a|yes
in another order|b a|(a;(b;-hi;)b;)a|yes
one more name|a c b|(a;(b;-hi;)b;)a|yes
the first is missing|b|(a;(b;-hi;)b;)a|no
the last is missing|a|(a;(b;-hi;)b;)a|no
a name comes twice|a b a|(a;(b;-hi;)b;)a|no";

#[test]
fn a_document_is_walked_under_all_its_names(rt: HostRuntime) -> Result<(), Fail> {
    for row in NAMES.lines() {
        assert!(rt; is_as_said(rt.alloc(), row)?, "{row}");
    }
    Ok(())
}

const FORMS: &str = "an attribute|a|AId CDATA x;(a;)a|yes
a type in small letters|a|AId cdata x;(a;)a|no
a text|a|(a;-x y;)a|yes";

#[test]
fn a_document_of_a_wrong_form_is_not_walked(rt: HostRuntime) -> Result<(), Fail> {
    for row in FORMS.lines() {
        assert!(rt; is_as_said(rt.alloc(), row)?, "{row}");
    }
    assert!(rt; is_as_said(rt.alloc(), "a line feed in a text|a|(a;-x\ny;)a|no")?);
    Ok(())
}
