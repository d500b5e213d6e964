//! Whole runs over objects in memory. A table is one text with a line for each case, and fields have `|` between them.
//! Arguments and lines have `;` between them. Each text was worked out by hand from the rules of access: the nearest
//! element that a rule selects decides, and a denial wins over a grant at the same element.

use acl_outside::{MemSink, MemSource, MemStore, Recorder};
use acl_run::{Outcome, outcome_text, run, status};
use std::alloc::Global;
use std::process::Abort;
use std::test::Fail;

mod faults;
mod files;
mod previews;
mod refusals;
mod samples;
mod seals;
mod views;

const HOSPITAL: &str =
    "(Hospital;(Folder;(Admin;(SSN;-123;)SSN;(Fname;-Li;)Fname;)Admin;(Act;(RPhys;-Ana;)RPhys;(Details;-calm;)Details;)Act;)Folder;)Hospital";

/// The view of `HOSPITAL` that shows its patient alone.
const PATIENT: &str = "(-;(-;(Admin;(SSN;-123;)SSN;(Fname;-Li;)Fname;)Admin;)-;)-";

/// The view of `HOSPITAL` that shows its folder, and of its patient the number alone.
const NUMBER: &str =
    "(-;(Folder;(-;(SSN;-123;)SSN;)-;(Act;(RPhys;-Ana;)RPhys;(Details;-calm;)Details;)Act;)Folder;)-";

/// The view of `HOSPITAL` that shows its act alone.
const ACT: &str = "(-;(-;(Act;(RPhys;-Ana;)RPhys;(Details;-calm;)Details;)Act;)-;)-";

const KEYS: &str =
    "document 000102030405060708090a0b0c0d0e0f;seal 000102030405060708090a0b0c0d0e0f101112131415161718191a1b1c1d1e1f";

const OTHER_KEYS: &str =
    "document 010102030405060708090a0b0c0d0e0f;seal 000102030405060708090a0b0c0d0e0f101112131415161718191a1b1c1d1e1f";

/// The sample document with one folder.
const SAMPLE: &str =
    "(Hospital;AId CDATA f1;(Folder;(Admin;(SSN;-100007001;)SSN;(Fname;-Patient1;)Fname;(Age;-21;)Age;)Admin;(Act;(RPhys;-Cy;)RPhys;(Details;-note 1.1;)Details;)Act;)Folder;)Hospital";

/// No call of an object has this number.
const NEVER: u64 = u64::MAX;

// ---- fields

/// What is before the first separator, and what is after it.
fn cut(text: &str, separator: char) -> Result<(&str, &str), Fail> {
    Ok(text.split_once(separator).ok_or("too few fields")?)
}

/// What a field in capitals means, else the field itself.
fn in_full(field: &str) -> &str {
    match field.as_bytes() {
        b"HOSPITAL" => HOSPITAL,
        b"PATIENT" => PATIENT,
        b"NUMBER" => NUMBER,
        b"ACT" => ACT,
        b"KEYS" => KEYS,
        b"OTHER KEYS" => OTHER_KEYS,
        b"SAMPLE" => SAMPLE,
        _ => field,
    }
}

/// The text, with what is between its braces repeated: `{2*ab}` is `abab`, and `{2*a#}` with its numbers is `a1a2`.
fn expanded(alloc: Global, text: &str) -> Result<String, Fail> {
    let Some((before, rest)) = text.split_once('{') else {
        return Ok(String::from_str(alloc, text)?);
    };
    let (inside, after) = cut(rest, '}')?;
    let (count, piece) = cut(inside, '*')?;
    let count: u32 = count.parse()?;
    let mut all = String::from_str(alloc, before)?;
    let (first, numbered) = piece.split_once('#').unwrap_or((piece, ""));
    for number in 1..=count {
        all.push_str(first)?;
        if first.len() < piece.len() {
            for part in numbered.split('#') {
                let part = format!(in alloc; "{number}{part}")?;
                all.push_str(part.as_str())?;
            }
        }
    }
    all.push_str(after)?;
    Ok(all)
}

/// The body of a licence for Ana with this root and these rules, each with a `;` after it.
fn body(alloc: Global, root: &str, rules: &str) -> Result<String, Fail> {
    Ok(format!(in alloc; "licence 1;root {root};user Ana;{rules}end")?)
}

/// The lines, each with its line feed.
fn lines(alloc: Global, text: &str) -> Result<Vec<u8>, Fail> {
    let mut bytes = Vec::new(alloc);
    for byte in text.as_bytes() {
        bytes.push(if *byte == b';' { b'\n' } else { *byte })?;
    }
    if !text.is_empty() {
        bytes.push(b'\n')?;
    }
    Ok(bytes)
}

/// The lines that a field means: after `rules ` those of the body of a licence with these rules, whose root is zeros.
fn lines_of(alloc: Global, field: &str) -> Result<Vec<u8>, Fail> {
    let text = expanded(alloc, in_full(field))?;
    match text.as_str().strip_prefix("rules ") {
        Some(rules) => {
            let zeros = "0".repeat(alloc, 64)?;
            lines(alloc, body(alloc, zeros.as_str(), rules)?.as_str())
        }
        None => lines(alloc, text.as_str()),
    }
}

fn arguments(alloc: Global, field: &str) -> Result<Vec<String>, Fail> {
    let text = expanded(alloc, field)?;
    let mut all = Vec::new(alloc);
    for argument in text.as_str().split(';') {
        all.push(String::from_str(alloc, argument)?)?;
    }
    Ok(all)
}

// ---- runs

/// The objects of a run: the bytes of the keys, the input and the store, the room of the output, and for each object,
/// the note too, the number of its call that fails.
#[derive(Clone, Copy)]
struct Objects<'a> {
    keys: &'a [u8],
    input: &'a [u8],
    store: &'a [u8],
    room: usize,
    fails: [u64; 5],
}

/// How a run ended, what it read of the store, and what it wrote.
#[derive(Drop)]
struct Ended {
    outcome: Outcome,
    store: Recorder<MemStore>,
    out: MemSink,
    note: MemSink,
}

fn source(alloc: Global, bytes: &[u8], fails_at: u64) -> Result<MemSource, Fail> {
    let bytes = Vec::from_slice(alloc, bytes)?;
    let fails = Vec::from_slice(alloc, &[fails_at])?;
    // Pieces of seven bytes cut lines anywhere.
    Ok(MemSource::new(bytes, 7, fails))
}

fn sink(alloc: Global, room: usize, fails_at: u64) -> Result<MemSink, Fail> {
    let fails = Vec::from_slice(alloc, &[fails_at])?;
    Ok(MemSink::new(alloc, room, fails)?)
}

fn store(alloc: Global, bytes: &[u8], fails_at: u64) -> Result<Recorder<MemStore>, Fail> {
    let bytes = Vec::from_slice(alloc, bytes)?;
    let fails = Vec::from_slice(alloc, &[fails_at])?;
    let store = MemStore::new(bytes, fails);
    Ok(Recorder::new(alloc, store, 64, 16_384)?)
}

fn run_with(alloc: Global, words: &[String], objects: Objects<'_>) -> Result<Ended, Fail> {
    let [keys, input, stored, out, note] = objects.fails;
    let mut store = store(alloc, objects.store, stored)?;
    let mut out = sink(alloc, objects.room, out)?;
    let mut note = sink(alloc, 100, note)?;
    let outcome = run(
        alloc,
        words,
        &mut source(alloc, objects.keys, keys)?,
        &mut source(alloc, objects.input, input)?,
        &mut store,
        &mut out,
        &mut note,
    );
    Ok(Ended {
        outcome,
        store,
        out,
        note,
    })
}

/// A run over these fields of keys and input.
fn run_failing(
    alloc: Global,
    text: &str,
    keys: &str,
    input: &str,
    room: usize,
    fails: [u64; 5],
) -> Result<Ended, Fail> {
    let keys = lines_of(alloc, keys)?;
    let input = lines_of(alloc, input)?;
    let objects = Objects {
        keys: keys.as_slice(),
        input: input.as_slice(),
        store: &[],
        room,
        fails,
    };
    run_with(alloc, arguments(alloc, text)?.as_slice(), objects)
}

/// The same where nothing fails.
fn run_over(alloc: Global, text: &str, keys: &str, input: &str) -> Result<Ended, Fail> {
    run_failing(alloc, text, keys, input, 65_536, [NEVER; 5])
}

// ---- what is checked

/// What an outcome says. Done says nothing.
fn said(alloc: Global, outcome: &Outcome) -> Result<MemSink, Fail> {
    let mut errors = MemSink::new(alloc, 200, Vec::new(alloc))?;
    match outcome_text(outcome, &mut errors) {
        Ok(()) => Ok(errors),
        Err(_) => Err("no room for the line".into()),
    }
}

/// The bytes that came are the lines of this field.
fn assert_lines<R: Abort + AllocGlobal>(
    rt: &R,
    row: &str,
    came: &[u8],
    field: &str,
) -> Result<(), Fail> {
    let wanted = lines_of(rt.alloc(), field)?;
    assert_eq!(rt; came, wanted.as_slice(), "{row}");
    Ok(())
}

/// The line of a run's outcome, its output and its note are the lines of these fields.
fn assert_ended<R: Abort + AllocGlobal>(
    rt: &R,
    row: &str,
    ended: &Ended,
    fields: [&str; 3],
) -> Result<(), Fail> {
    let [line, out, note] = fields;
    let said = said(rt.alloc(), &ended.outcome)?;
    assert_lines(rt, row, said.written(), line)?;
    assert_lines(rt, row, ended.out.written(), out)?;
    assert_lines(rt, row, ended.note.written(), note)
}

/// A run of the first three fields, its arguments, keys and input, has the other three: the line of its outcome, its
/// output and its note.
fn assert_row<R: Abort + AllocGlobal>(rt: &R, row: &str) -> Result<(), Fail> {
    let (text, rest) = cut(row, '|')?;
    let (keys, rest) = cut(rest, '|')?;
    let (input, rest) = cut(rest, '|')?;
    let (line, rest) = cut(rest, '|')?;
    let (out, note) = cut(rest, '|')?;
    let ended = run_over(rt.alloc(), text, keys, input)?;
    assert_ended(rt, row, &ended, [line, out, note])
}
