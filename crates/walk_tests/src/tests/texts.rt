//! Texts at the ends of fragments, and pseudorandom documents whose events are compared with those of the tree.

use super::*;
use acl_outside::SureStore;
use acl_walk::{TreeWalk, can_be_walked};

/// Appends so many bytes, the letters again and again.
fn put_letters(out: &mut Vec<u8>, count: usize) -> Result<(), Fail> {
    for index in 0..count {
        out.push(b'a' + (index % 26) as u8)?;
    }
    Ok(())
}

/// The lines of an element `a` with a text of some bytes, and another text.
fn two_texts(alloc: Global, filler: usize, long: usize) -> Result<Vec<u8>, Fail> {
    let mut lines = Vec::from_slice(alloc, b"(a\n-")?;
    put_letters(&mut lines, filler)?;
    put(&mut lines, "\n-")?;
    put_letters(&mut lines, long)?;
    put(&mut lines, "\n)a\n")?;
    Ok(lines)
}

/// Appends the pieces of a text that begins at a byte offset of the stream: a piece ends where the text or the
/// fragment ends.
fn put_pieces(out: &mut Vec<u8>, from: usize, long: usize) -> Result<(), Fail> {
    for index in 0..long {
        if index > 0 && from.wrapping_add(index) % 256 == 0 {
            put(out, "+;")?;
        }
        out.push(b'a' + (index % 26) as u8)?;
    }
    put(out, "-;")
}

// The dictionary section has 4 bytes, the root's head 2, its count of attributes 2, and each text's length 4. So the
// second text begins after the first one and 16 bytes.
fn expect_texts(rt: &impl Abort, alloc: Global, begin: usize, long: usize) -> Result<(), Fail> {
    assert!(rt; begin >= 250 && begin < 300 && long < 10_000);
    let mut want = Vec::from_slice(alloc, b"<0;=;")?;
    put_pieces(&mut want, 12, begin - 16)?;
    put_pieces(&mut want, begin, long)?;
    put(&mut want, ">0;.")?;
    let file = file(rt, alloc, &two_texts(alloc, begin - 16, long)?)?;
    let mut store = SureStore::new(file.bytes.into_vec());
    let mut walk = walk_over(rt, alloc, &mut store, file.root);
    let mut spot = walk.new_spot(alloc)?;
    let events = told(alloc, &mut walk, &mut spot, 99, true)?;
    assert!(rt; events == want, "{long} bytes at {begin}");
    assert_eq!(rt; walk.place(&spot), (begin + long) as u64);
    Ok(())
}

#[test]
fn pieces_end_where_their_text_or_the_fragment_ends(rt: HostRuntime) -> Result<(), Fail> {
    for begin in 250..261 {
        for long in [0, 1, 255, 256, 257, 5_000] {
            expect_texts(&rt, rt.alloc(), begin, long)?;
        }
    }
    Ok(())
}

#[test]
fn a_spot_copied_inside_a_text_goes_on_there(rt: HostRuntime) -> Result<(), Fail> {
    let alloc = rt.alloc();
    let file = file(&rt, alloc, &two_texts(alloc, 300, 900)?)?;
    let mut store = SureStore::new(file.bytes.into_vec());
    let mut walk = walk_over(&rt, alloc, &mut store, file.root);
    let mut first = walk.new_spot(alloc)?;
    let mut second = walk.new_spot(alloc)?;
    told(alloc, &mut walk, &mut first, 5, true)?;
    walk.copy_spot(&first, &mut second);
    assert_eq!(rt; walk.place(&second), 512);
    let events = told(alloc, &mut walk, &mut second, 99, true)?;
    // The second text begins at 316, so that 196 of its bytes come before 512.
    let mut want = Vec::new(alloc);
    put_pieces(&mut want, 316, 900)?;
    put(&mut want, ">0;.")?;
    assert!(rt; want.len() > 198);
    assert_eq!(rt; events.as_slice(), &want[198..]);
    Ok(())
}

/// Pseudorandom numbers, the same in each run.
#[derive(Clone, Copy, Debug)]
struct Draws {
    seed: u32,
}

impl Draws {
    /// The next number, at most `most`.
    fn up_to(&mut self, most: u16) -> u16 {
        self.seed = self
            .seed
            .wrapping_mul(1_664_525)
            .wrapping_add(1_013_904_223);
        let number = (self.seed >> 16) as u16;
        number.checked_rem(most.saturating_add(1)).unwrap_or(0)
    }
}

/// Appends the lines of an element with at most so many levels inside it. Of its texts and attributes, some are longer
/// than a fragment.
fn put_element(
    alloc: Global,
    out: &mut Vec<u8>,
    draws: &mut Draws,
    levels: u16,
) -> Result<(), Fail> {
    for _ in 0..draws.up_to(2) {
        put(out, "Ax CDATA ")?;
        put_letters(out, usize::from(draws.up_to(280)))?;
        put(out, "\n")?;
    }
    let name = draws.up_to(6);
    put(out, &format!(in alloc; "(n{name}\n")?)?;
    for _ in 0..draws.up_to(4) {
        if levels > 0 && draws.up_to(2) > 0 {
            put_element(alloc, out, draws, levels - 1)?;
        } else {
            put(out, "-")?;
            put_letters(out, usize::from(draws.up_to(300)))?;
            put(out, "\n")?;
        }
    }
    put(out, &format!(in alloc; ")n{name}\n")?)
}

/// Compares the events of both walks over a document. Pieces are joined.
fn expect_same(rt: &impl Abort, alloc: Global, lines: &[u8]) -> Result<(), Fail> {
    let doc = document(alloc, lines)?;
    let file = file(rt, alloc, lines)?;
    let mut store = SureStore::new(file.bytes.into_vec());
    let mut walk = walk_over(rt, alloc, &mut store, file.root);
    let mut spot = walk.new_spot(alloc)?;
    let events = told(alloc, &mut walk, &mut spot, u16::MAX, false)?;
    let names = walk.names().names();
    assert!(rt; can_be_walked(&doc, names));
    let mut tree = TreeWalk::new(&doc, names);
    let mut place = tree.new_spot(alloc)?;
    let want = told(alloc, &mut tree, &mut place, u16::MAX, false)?;
    assert!(rt; events == want);
    assert!(rt; want.as_slice().ends_with(b"."));
    Ok(())
}

#[test]
fn the_events_of_a_file_are_those_of_its_tree(rt: HostRuntime) -> Result<(), Fail> {
    let alloc = rt.alloc();
    let mut draws = Draws { seed: 2004 };
    for _ in 0..30 {
        let mut lines = Vec::new(alloc);
        put_element(alloc, &mut lines, &mut draws, 3)?;
        expect_same(&rt, alloc, &lines)?;
    }
    Ok(())
}
