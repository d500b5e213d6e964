//! Streams with wrong spellings, each under right digests. Each call of `next` before the wrong bits is good.

use super::*;
use acl_outside::SureStore;

// What is wrong, the names, the header's depth, the tree section, and the events.
const SPELLINGS: &str = "nothing (a text)|a|1|a0 0000 00000002 6869|<0;=;hi-;>0;.
the first bit|a|1|20 0000 00000002 6869|!
a bit after a head|a|1|a1 0000 00000002 6869|!
a text's length in 32 bits|a|1|a0 0000 80000002 6869|<0;=;!
a text past the end|a|1|a0 0000 00000003 6869|<0;=;!
a text far past the end|a|1|a0 0000 7fffffff 6869|<0;=;!
a line feed in a text|a|1|a0 0000 00000002 680a|<0;=;!
a text's length cut short|a|1|a8 0000 000000|<0;=;!
bytes after the root|a|1|a0 0000 00000002 6869 00|!
nothing (an attribute)|a|1|ac 0001 00000005 7820412031|<0;x A 1@;=;>0;.
a line feed in an attribute|a|1|ac 0001 00000005 782041200a|<0;!
an attribute past the end|a|1|ac 0001 00000006 7820412031|<0;!
an attribute too many|a|1|ac 0002 00000005 7820412031|<0;x A 1@;!
attributes without bytes|a|1|a0 0001|<0;!
nothing (a child)|a b|2|ad 0000 90 0000|<0 1;=;<1;=;>1;>0;.
a size past the parent's end|a b|2|ad 0000 98 0000|<0 1;=;!
the root's size past the end|a b|2|ae 0000 90 0000|!
the root's size too small|a b|2|ac 0000 90 0000|!
a content too short for its count|a b|2|ad 0000 88 0000|<0 1;=;<1;!
a content with a byte too many|a b|2|ae 0000 98 0000 00|<0 1;=;<1;=;!
more levels than the header's depth|a b|1|ad 0000 90 0000|<0 1;=;!
a tag set that is empty but marked|a b|2|ad 0000 c8 0000|<0 1;=;!
a set with the element's own name|a b|2|bd 0000 c8 0000|<0 0 1;=;<1;=;>1;!
a set with a name of no element|a b c|2|9740 0000 88 0000|<0 1 2;=;<1;=;>1;!
the root's set without a name|a b c|2|9540 0000 90 0000|!
a child where no set is marked|a b c|3|9700 0000 8a 0000 90 0000|<0 1 2;=;<1;=;!
nothing (three children)|a b c d|2|9778 0000 82 0000 a2 0000 c2 0000 00000000|<0 1 2 3;=;<1;=;>1;<2;=;>2;<3;=;>3;-;>0;.
a number out of range|a b c d|2|9778 0000 82 0000 a2 0000 e2 0000 00000000|<0 1 2 3;=;<1;=;>1;<2;=;>2;!
a width that isn't the least|a b c d|2|9790 0000 8100 0000 a100 0000 c100 0000 00000000|<0 1 2 3;=;<1;=;>1;<2;=;>2;!";

/// The bytes with these digits.
fn bytes_of(alloc: Global, digits: &str) -> Result<Vec<u8>, Fail> {
    let digits = digits.replace(alloc, ' ', "")?;
    Ok(hex::decode(alloc, digits.as_bytes())?)
}

/// Checks the events of a file, and that a refusal stays.
fn expect_events(rt: &impl Abort, alloc: Global, file: Encoded, want: &str) -> Result<(), Fail> {
    let mut store = SureStore::new(file.bytes.into_vec());
    let mut walk = walk_over(rt, alloc, &mut store, file.root);
    let mut spot = walk.new_spot(alloc)?;
    let events = told(alloc, &mut walk, &mut spot, u16::MAX, true)?;
    assert_eq!(rt; events.as_slice(), want.as_bytes(), "{want}");
    let again = told(alloc, &mut walk, &mut spot, 1, true)?;
    assert!(rt; want.as_bytes().ends_with(&again), "{want}");
    assert_eq!(rt; walk.refusal().is_some(), want.ends_with('!'), "{want}");
    Ok(())
}

fn expect_row(rt: &impl Abort, alloc: Global, row: &str) -> Result<(), Fail> {
    let (_, rest) = row.split_once('|').ok_or("one field")?;
    let (names, rest) = rest.split_once('|').ok_or("two fields")?;
    let (depth, rest) = rest.split_once('|').ok_or("three fields")?;
    let (digits, want) = rest.split_once('|').ok_or("four fields")?;
    let tree = bytes_of(alloc, digits)?;
    let file = sealed(rt, alloc, names, &tree, depth.parse()?)?;
    expect_events(rt, alloc, file, want)
}

#[test]
fn wrong_spellings_are_refused_where_they_stand(rt: HostRuntime) -> Result<(), Fail> {
    for row in SPELLINGS.lines() {
        expect_row(&rt, rt.alloc(), row)?;
    }
    Ok(())
}

// The count of attributes of `b` is wrong, and `b` is passed.
#[test]
fn what_is_passed_is_not_looked_into(rt: HostRuntime) -> Result<(), Fail> {
    let alloc = rt.alloc();
    let tree = bytes_of(alloc, "ad 0000 90 ffff")?;
    let file = sealed(&rt, alloc, "a b", &tree, 2)?;
    let mut store = SureStore::new(file.bytes.into_vec());
    let mut walk = walk_over(&rt, alloc, &mut store, file.root);
    let mut spot = walk.new_spot(alloc)?;
    let events = told(alloc, &mut walk, &mut spot, 3, true)?;
    assert_eq!(rt; events.as_slice(), b"<0 1;=;<1;".as_slice());
    walk.pass(&mut spot);
    let events = told(alloc, &mut walk, &mut spot, 9, true)?;
    assert_eq!(rt; events.as_slice(), b">1;>0;.".as_slice());
    Ok(())
}

/// Appends the head of an element in a parent whose one member is the element's name. The parent's content has
/// `around` more bytes.
fn put_head(out: &mut Vec<u8>, long: usize, inner: bool, around: usize) -> Result<(), Fail> {
    let (front, bits) = if inner { (7u64, 3) } else { (2, 2) };
    for width in 0..24u32 {
        let bytes = (bits + width).div_ceil(8);
        if long.saturating_add(around).saturating_add(bytes as usize) < 1 << width {
            let head = (front << width | long as u64) << (64 - bits - width);
            out.extend_from_slice(&head.to_be_bytes()[..bytes as usize])?;
            return Ok(());
        }
    }
    Err("a long content".into())
}

/// The tree section of so many elements `a`, each inside the one before.
fn nested(alloc: Global, depth: u16) -> Result<Vec<u8>, Fail> {
    let mut content = Vec::from_slice(alloc, &[0, 0])?;
    for level in 1..depth {
        let mut around = Vec::from_slice(alloc, &[0, 0])?;
        put_head(&mut around, content.len(), level > 1, 2)?;
        around.extend_from_slice(&content)?;
        content = around;
    }
    let mut tree = Vec::new(alloc);
    put_head(&mut tree, content.len(), depth > 1, 0)?;
    tree.extend_from_slice(&content)?;
    Ok(tree)
}

#[test]
fn elements_are_255_deep_and_no_deeper(rt: HostRuntime) -> Result<(), Fail> {
    let alloc = rt.alloc();
    let starts = "<0 0;=;".repeat(alloc, 254)?;
    let ends = ">0;".repeat(alloc, 255)?;
    let file = sealed(&rt, alloc, "a", &nested(alloc, 255)?, 255)?;
    expect_events(
        &rt,
        alloc,
        file,
        &format!(in alloc; "{starts}<0;=;{ends}.")?,
    )?;
    let file = sealed(&rt, alloc, "a", &nested(alloc, 256)?, 255)?;
    expect_events(&rt, alloc, file, &format!(in alloc; "{starts}<0 0;=;!")?)
}

// The root `n0` has the children `n1` to `n255`.
#[test]
fn a_dictionary_has_up_to_256_names(rt: HostRuntime) -> Result<(), Fail> {
    let alloc = rt.alloc();
    let mut lines = Vec::from_slice(alloc, b"(n0\n")?;
    let mut set = Vec::from_slice(alloc, b"<0")?;
    let mut inside = Vec::from_slice(alloc, b";=;")?;
    for number in 1..256u16 {
        put(&mut lines, &format!(in alloc; "(n{number}\n)n{number}\n")?)?;
        put(&mut set, &format!(in alloc; " {number}")?)?;
        put(&mut inside, &format!(in alloc; "<{number};=;>{number};")?)?;
    }
    put(&mut lines, ")n0\n")?;
    put(&mut inside, ">0;.")?;
    set.extend_from_slice(&inside)?;
    let file = file(&rt, alloc, &lines)?;
    let mut store = SureStore::new(file.bytes.into_vec());
    let mut walk = walk_over(&rt, alloc, &mut store, file.root);
    assert_eq!(rt; walk.names().number(b"n255"), Some(255));
    let mut spot = walk.new_spot(alloc)?;
    let events = told(alloc, &mut walk, &mut spot, u16::MAX, true)?;
    assert!(rt; events == set);
    Ok(())
}
