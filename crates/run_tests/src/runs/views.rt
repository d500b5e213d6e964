//! Runs of `view` and `explain` over files that `encode` made and licences that `seal` sealed. The shown lines are
//! those of `preview`, worked out by hand; roots and checks are those of Python's hashlib.

use super::*;

/// The root of the file of `(a;-hi;)a` under the keys of these tests.
const SMALL_ROOT: &str = "d34472f628c9cb7e82921bf1840cf8d6ce4a11d5ce0e694e859f4f4e91ad8eb2";

/// The root of the file of `HOSPITAL`.
const HOSPITAL_ROOT: &str = "192458bf220db5d92fd62d4af0d3cecb63490b62c211eba93d9f548995a1a1d0";

/// What `encode` makes of a document.
fn encoded(alloc: Global, document: &str) -> Result<Vec<u8>, Fail> {
    let ended = run_over(alloc, "encode;k", "KEYS", document)?;
    Ok(Vec::from_slice(alloc, ended.out.written())?)
}

/// What `seal` makes of the licence of this root with these rules.
fn sealed(alloc: Global, root: &str, rules: &str) -> Result<Vec<u8>, Fail> {
    let body = body(alloc, root, rules)?;
    let ended = run_over(alloc, "seal;k", "KEYS", body.as_str())?;
    Ok(Vec::from_slice(alloc, ended.out.written())?)
}

/// The first bytes, with the lowest bit of one of them flipped; all of them, or none flipped, where there is no such
/// number.
fn edited(alloc: Global, bytes: &[u8], length: usize, flipped: usize) -> Result<Vec<u8>, Fail> {
    let mut edited = Vec::from_slice(alloc, bytes)?;
    edited.truncate(length);
    if let Some(byte) = edited.get_mut(flipped) {
        *byte ^= 1;
    }
    Ok(edited)
}

/// A number in a field; a `-` is past each byte.
fn number(field: &str) -> usize {
    field.parse().unwrap_or(usize::MAX)
}

/// A run over a store of these bytes whose call of this number fails.
fn run_over_store(
    alloc: Global,
    text: &str,
    keys: &str,
    licence: &[u8],
    store: &[u8],
    fails_at: u64,
) -> Result<Ended, Fail> {
    let keys = lines_of(alloc, keys)?;
    let objects = Objects {
        keys: keys.as_slice(),
        input: licence,
        store,
        room: 8192,
        fails: [NEVER, NEVER, fails_at, NEVER, NEVER],
    };
    run_with(alloc, arguments(alloc, text)?.as_slice(), objects)
}

/// Rules, arguments, and what is shown of `HOSPITAL`.
const SHOWN: &str = "+ R1 /Hospital/Folder/Admin;|view;k;s|PATIENT
+ R1 /Hospital/Folder/Admin;|explain;k;s|- closed /;+ R1 /1/1
|view;k;s|
|explain;k;s|- closed /
+ A //Folder;- B //Admin;+ C //SSN;|view;k;s|NUMBER
+ A //Folder;- B //Admin;+ C //SSN;|explain;k;s|- closed /;+ A /1;- B /1/1;+ C /1/1/1
+ R //Folder[Act/RPhys = USER]/Admin;|view;k;s|PATIENT
+ A //Act;- B //Details;|view;k;s;--query;//Act[Details]|
+ A //Act;- B //Details;|view;k;s;--query=//Act[RPhys]|(-;(-;(Act;(RPhys;-Ana;)RPhys;)Act;)-;)-";

#[test]
fn a_file_is_shown_as_its_licence_says(rt: HostRuntime) -> Result<(), Fail> {
    let alloc = rt.alloc();
    let file = encoded(alloc, HOSPITAL)?;
    for row in SHOWN.lines() {
        let (rules, rest) = cut(row, '|')?;
        let (text, shown) = cut(rest, '|')?;
        let licence = sealed(alloc, HOSPITAL_ROOT, rules)?;
        let ended = run_over_store(
            alloc,
            text,
            "KEYS",
            licence.as_slice(),
            file.as_slice(),
            NEVER,
        )?;
        assert_ended(&rt, row, &ended, ["", shown, ""])?;
        // The reads are of the header, the top digest and the one fragment.
        assert_eq!(rt; ended.store.served().len(), 3, "{row}");
    }
    Ok(())
}

/// What an outcome says begins with this line, and nothing was written.
fn assert_refused<R: Abort + AllocGlobal>(
    rt: &R,
    row: &str,
    ended: &Ended,
    line: &str,
) -> Result<(), Fail> {
    let said = said(rt.alloc(), &ended.outcome)?;
    assert!(rt; said.written().starts_with(line.as_bytes()), "{row}");
    assert_lines(rt, row, ended.out.written(), "")?;
    assert_lines(rt, row, ended.note.written(), "")
}

/// Arguments, and what the store has: so many bytes of the file of a document, of which one is changed, and its call of
/// this number fails. Then what is said.
const STORES: &str = "view;k;s|(a;-hi;)a|351|-|-|acl: 33 StoreShort at=351
view;k;s|(a;-hi;)a|10|-|-|acl: 33 StoreShort at=10
explain;k;s|(a;-hi;)a|0|-|-|acl: 33 StoreShort at=0
view;k;s|(a;-hi;)a|-|40|-|acl: 30 BadHeader
explain;k;s|(a;-hi;)a|-|40|-|acl: 30 BadHeader
view;k;s|(a;-hi;)a|-|24|-|acl: 31 WrongRoot want=d34472f6
view;k;s|(a;-hi;)a|-|64|-|acl: 35 BadFragment index=0 want=
explain;k;s|(a;-hi;)a|-|64|-|acl: 35 BadFragment index=0 want=
view;k;s|(a;-hi;)a|-|351|-|acl: 31 WrongRoot want=d34472f6
explain;k;s|HOSPITAL|-|-|-|acl: 31 WrongRoot want=d34472f6
view;k;s|(a;-hi;)a|-|-|0|acl: 34 StoreFault
view;k;s|(a;-hi;)a|-|-|2|acl: 34 StoreFault
explain;k;s|(a;-hi;)a|-|-|2|acl: 34 StoreFault";

#[test]
fn a_store_is_refused_by_its_first_fault(rt: HostRuntime) -> Result<(), Fail> {
    let alloc = rt.alloc();
    let licence = sealed(alloc, SMALL_ROOT, "+ R /a;")?;
    for row in STORES.lines() {
        let (text, rest) = cut(row, '|')?;
        let (document, rest) = cut(rest, '|')?;
        let (length, rest) = cut(rest, '|')?;
        let (place, rest) = cut(rest, '|')?;
        let (fails, line) = cut(rest, '|')?;
        let file = encoded(alloc, document)?;
        let store = edited(alloc, file.as_slice(), number(length), number(place))?;
        let fails_at = fails.parse().unwrap_or(NEVER);
        let ended = run_over_store(
            alloc,
            text,
            "KEYS",
            licence.as_slice(),
            store.as_slice(),
            fails_at,
        )?;
        assert_refused(&rt, row, &ended, line)?;
    }
    Ok(())
}

/// Arguments, keys, so many bytes of the licence, of which one is changed, how many reads were made of the store, and
/// what is said. The line `licence 1` begins at byte 70, after the seal line. The document key alone is compared with
/// what the store served.
const CLOSED: &str = "view;k;s|document 00|-|-|0|acl: 25 BadKeys line=1
view;k;s|OTHER KEYS|-|-|2|acl: 32 WrongKey want=
view;k;s|KEYS|-|78|0|acl: 20 BadSeal given=
explain;k;s|KEYS|-|6|0|acl: 20 BadSeal given=
view;k;s|KEYS|0|-|0|acl: 22 BadLicence line=1
view;k;s;--query;Act|KEYS|-|-|0|acl: 26 BadQuery at=0";

#[test]
fn keys_licence_and_query_are_refused_before_the_store(rt: HostRuntime) -> Result<(), Fail> {
    let alloc = rt.alloc();
    let sealed = sealed(alloc, SMALL_ROOT, "+ R /a;")?;
    let store = encoded(alloc, "(a;-hi;)a")?;
    for row in CLOSED.lines() {
        let (text, rest) = cut(row, '|')?;
        let (keys, rest) = cut(rest, '|')?;
        let (length, rest) = cut(rest, '|')?;
        let (place, rest) = cut(rest, '|')?;
        let (reads, line) = cut(rest, '|')?;
        let licence = edited(alloc, sealed.as_slice(), number(length), number(place))?;
        let ended = run_over_store(
            alloc,
            text,
            keys,
            licence.as_slice(),
            store.as_slice(),
            NEVER,
        )?;
        assert_refused(&rt, row, &ended, line)?;
        assert_eq!(rt; ended.store.served().len(), number(reads), "{row}");
    }
    Ok(())
}

/// A run over this store refuses it, and nothing is written.
fn assert_no_file<R: Abort + AllocGlobal>(
    rt: &R,
    licence: &[u8],
    store: &[u8],
    place: usize,
) -> Result<(), Fail> {
    let ended = run_over_store(rt.alloc(), "view;k;s", "KEYS", licence, store, NEVER)?;
    let number = status(&ended.outcome);
    assert!(rt; number >= 30 && number <= 35, "byte {place}: {number}");
    assert_lines(rt, "a changed file", ended.out.written(), "")
}

// All bytes of this file are read: 64 of the header, 256 of the fragment and 32 of its digest, which is the top one.
#[test]
fn each_changed_byte_and_each_cut_is_refused(rt: HostRuntime) -> Result<(), Fail> {
    let alloc = rt.alloc();
    let licence = sealed(alloc, SMALL_ROOT, "+ R /a;")?;
    let file = encoded(alloc, "(a;-hi;)a")?;
    for place in 0..352 {
        let changed = edited(alloc, file.as_slice(), 352, place)?;
        assert_no_file(&rt, licence.as_slice(), changed.as_slice(), place)?;
        let cut = edited(alloc, file.as_slice(), place, usize::MAX)?;
        assert_no_file(&rt, licence.as_slice(), cut.as_slice(), place)?;
    }
    Ok(())
}

/// The root in a note of `encode`.
fn noted_root(alloc: Global, note: &[u8]) -> Result<String, Fail> {
    let digits = note.get(5..69).ok_or("no line of a root")?;
    let digits = Vec::from_slice(alloc, digits)?;
    match String::from_utf8(digits) {
        Ok(root) => Ok(root),
        Err(_) => Err("no digits".into()),
    }
}

/// The file with its fragments 1 and 2 exchanged: the bytes 320 to 575, and 576 to 831.
fn exchanged(alloc: Global, file: &[u8]) -> Result<Vec<u8>, Fail> {
    let mut bytes = Vec::new(alloc);
    for range in [0..320, 576..832, 320..576] {
        bytes.extend_from_slice(file.get(range).ok_or("three fragments")?)?;
    }
    bytes.extend_from_slice(file.get(832..).ok_or("three fragments")?)?;
    Ok(bytes)
}

#[test]
fn exchanged_fragments_are_refused_at_the_first(rt: HostRuntime) -> Result<(), Fail> {
    let alloc = rt.alloc();
    let sample = run_over(alloc, "sample;40", "", "")?;
    let keys = lines(alloc, KEYS)?;
    let objects = Objects {
        keys: keys.as_slice(),
        input: sample.out.written(),
        store: &[],
        room: 65_536,
        fails: [NEVER; 5],
    };
    let encoded = run_with(alloc, arguments(alloc, "encode;k")?.as_slice(), objects)?;
    let root = noted_root(alloc, encoded.note.written())?;
    let licence = sealed(alloc, root.as_str(), "+ R /Hospital;")?;
    let store = exchanged(alloc, encoded.out.written())?;
    let (licence, store) = (licence.as_slice(), store.as_slice());
    let ended = run_over_store(alloc, "view;k;s", "KEYS", licence, store, NEVER)?;
    assert_refused(
        &rt,
        "exchanged fragments",
        &ended,
        "acl: 35 BadFragment index=1 ",
    )
}
