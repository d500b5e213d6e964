//! Passes, the fragments that they leave unread, and stores that answer a read in two ways.

use super::*;
use acl_outside::{Failed, Recorder, Served, SureStore};

/// The lines of `r` with `x`, `y` and `z` in it. In the stream the text of `x` is at 23 to 1023, that of `y` at 1031
/// to 2031, and the head of `y` is at 1023, in fragments 3 and 4. The stream ends at 2040.
fn three(alloc: Global) -> Result<Vec<u8>, Fail> {
    let letters = "z".repeat(alloc, 1_000)?;
    let lines = format!(in alloc; "(r\n(x\n-{letters}\n)x\n(y\n-{letters}\n)y\n(z\n-1\n)z\n)r\n")?;
    Ok(Vec::from_slice(alloc, lines.as_bytes())?)
}

/// The events after the first ones and a pass: those from the Finish of the innermost open element on.
fn after_pass(alloc: Global, events: &str, taken: usize) -> Result<Vec<u8>, Fail> {
    let mut out = Vec::new(alloc);
    let mut open = 0u16;
    let mut around = 0;
    for (index, event) in events.split(';').enumerate() {
        if event.starts_with('<') {
            open = open.saturating_add(1);
        }
        if event.starts_with('>') {
            open = open.saturating_sub(1);
        }
        if index < taken {
            around = open;
        } else if around == 0 || open < around {
            around = 0;
            put(&mut out, event)?;
            put(&mut out, if event == "." { "" } else { ";" })?;
        }
    }
    Ok(out)
}

/// The indices of the fragments that were read, with a space after each.
fn opened(alloc: Global, served: &[Served]) -> Result<Vec<u8>, Fail> {
    let mut out = Vec::new(alloc);
    for read in served {
        if read.asked == 256 {
            let index = read.at.saturating_sub(64) / 256;
            put(&mut out, &format!(in alloc; "{index} ")?)?;
        }
    }
    Ok(out)
}

/// Takes some events of the file with this root in a store, and passes. Returns the events after the pass.
fn told_after_pass<S: Store>(
    rt: &impl Abort,
    alloc: Global,
    store: &mut S,
    root: Digest,
    taken: u16,
) -> Result<Vec<u8>, Fail> {
    let mut walk = walk_over(rt, alloc, store, root);
    let mut spot = walk.new_spot(alloc)?;
    told(alloc, &mut walk, &mut spot, taken, true)?;
    walk.pass(&mut spot);
    told(alloc, &mut walk, &mut spot, 99, true)
}

/// Takes some events and passes. Returns the events after the pass, and the fragments that were opened.
fn passed(rt: &impl Abort, alloc: Global, lines: &[u8], taken: u16) -> Result<[Vec<u8>; 2], Fail> {
    let file = file(rt, alloc, lines)?;
    let store = SureStore::new(file.bytes.into_vec());
    let mut store = Recorder::new(alloc, store, 200, 50_000)?;
    let events = told_after_pass(rt, alloc, &mut store, file.root, taken)?;
    Ok([events, opened(alloc, store.served())?])
}

// How many events were taken before the pass, and the fragments. Of the events 3 is the Begin of `x`, 5 to 8 are the
// pieces of its text, 10 is the Begin of `y`, and 12 to 15 are the pieces of its text.
const UNREAD: &str = "0|0 1 2 3 4 5 6 7 |
1|0 |
3|0 3 4 5 6 7 |
5|0 3 4 5 6 7 |
6|0 1 3 4 5 6 7 |
8|0 1 2 3 4 5 6 7 |
10|0 1 2 3 4 7 |
13|0 1 2 3 4 5 7 |
17|0 1 2 3 4 5 6 7 |";

#[test]
fn a_pass_leaves_fragments_unread(rt: HostRuntime) -> Result<(), Fail> {
    let alloc = rt.alloc();
    let lines = three(alloc)?;
    for row in UNREAD.lines() {
        let (taken, rest) = row.split_once('|').ok_or("one field")?;
        let [_, fragments] = passed(&rt, alloc, &lines, taken.parse()?)?;
        let want = rest.strip_suffix('|').ok_or("no end")?;
        assert_eq!(rt; fragments.as_slice(), want.as_bytes(), "{row}");
    }
    Ok(())
}

// A small document and its events.
const LINES: &str = "Ax T 1;(a;-2;(b;(c;)c;-3;)b;(c;Ay T;(b;)b;)c;-;)a;";

const EVENTS: &str = "<0 1 2;x T 1@;=;2-;<1 2;=;<2;=;>2;3-;>1;<2 1;=;<1;y T@;=;>1;>2;-;>0;.";

#[test]
fn a_pass_leads_to_the_finish_from_each_event(rt: HostRuntime) -> Result<(), Fail> {
    let alloc = rt.alloc();
    let lines = LINES.replace(alloc, ';', "\n")?;
    for taken in 0..21u16 {
        let [events, fragments] = passed(&rt, alloc, lines.as_bytes(), taken)?;
        let want = after_pass(alloc, EVENTS, usize::from(taken))?;
        assert!(rt; events == want, "after {taken} events");
        assert_eq!(rt; fragments.as_slice(), b"0 ".as_slice());
    }
    Ok(())
}

/// A store whose first reads are from one file, and the later ones from another.
#[derive(Drop)]
struct Changing {
    first: SureStore,
    second: SureStore,
    left: u64,
}

impl Store for Changing {
    ghost use Rattle.acl_outside.specs.inside.Adapters.{unknown_bytes, unknown_reads};

    ghost holds = { λ _. unknown_bytes };

    ghost served = { λ _. unknown_reads };

    ghost faults = { λ _. 0 };

    fn read_at(&mut self, at: u64, into: &mut [u8]) -> Result<usize, Failed> {
        if self.left == 0 {
            return self.second.read_at(at, into);
        }
        self.left -= 1;
        self.first.read_at(at, into)
    }
}

/// A store that reads from a file, and after some reads from the file with one byte changed.
fn changed_later(alloc: Global, file: &[u8], left: u64, at: usize) -> Result<Changing, Fail> {
    let mut other = Vec::from_slice(alloc, file)?;
    *other.get_mut(at).ok_or("a short file")? ^= 1;
    Ok(Changing {
        first: SureStore::new(Vec::from_slice(alloc, file)?),
        second: SureStore::new(other),
        left,
    })
}

/// Takes six events at one spot, more at that spot, and then all at another. Checks that a refusal stays.
fn expect_change(rt: &impl Abort, alloc: Global, row: &str) -> Result<(), Fail> {
    let (at, rest) = row.split_once('|').ok_or("one field")?;
    let (more, rest) = rest.split_once('|').ok_or("two fields")?;
    let (one, other) = rest.split_once('|').ok_or("three fields")?;
    let file = file(rt, alloc, &three(alloc)?)?;
    let mut store = changed_later(alloc, file.bytes.as_slice(), 10, at.parse()?)?;
    let mut walk = walk_over(rt, alloc, &mut store, file.root);
    let mut first = walk.new_spot(alloc)?;
    let mut second = walk.new_spot(alloc)?;
    told(alloc, &mut walk, &mut first, 6, true)?;
    let after = told(alloc, &mut walk, &mut first, more.parse()?, true)?;
    assert!(rt; after.as_slice().ends_with(one.as_bytes()), "{row}");
    let all = told(alloc, &mut walk, &mut second, 99, true)?;
    assert!(rt; all.as_slice().ends_with(other.as_bytes()), "{row}");
    let refusal = walk.refusal();
    assert!(rt; refusal.is_some(), "{row}");
    assert!(rt; walk.next(&mut first).err() == refusal, "{row}");
    assert!(rt; walk.next(&mut second).err() == refusal, "{row}");
    assert!(rt; walk.refusal() == refusal, "{row}");
    Ok(())
}

// The first ten reads are those of the header and the top digest, and four for each of the fragments 0 and 1. A row has
// the byte that is changed then, how many events are taken on, and how both spots end. Fragment 2 begins at 576, the
// table at 2,112, and its digest of fragment 3 at 2,208.
const CHANGES: &str = "64|0||#0
319|1|+;|#0
64|99|.|#0
576|1|#2|#2
2208|1|#2|#2
2111|99|#7|#7
320|0||z+;#1
320|99|.|z+;#1";

#[test]
fn another_answer_of_the_store_is_refused(rt: HostRuntime) -> Result<(), Fail> {
    for row in CHANGES.lines() {
        expect_change(&rt, rt.alloc(), row)?;
    }
    Ok(())
}
