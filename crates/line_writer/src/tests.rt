//! Tests of each call, with lines written out by hand in this project's formats.

use super::*;
use acl_model::{Bytes, Path, Rule, Sequence, Sign};
use acl_outside::{Failed, MemSink, write_piece};
use std::alloc::Global;
use std::test::Fail;

#[test]
fn a_document_is_written_line_by_line(rt: HostRuntime) -> Result<(), Fail> {
    let alloc = rt.alloc();
    let mut attributes = Vec::new(alloc);
    attributes.push(Bytes::from_slice(alloc, b"Id CDATA f1")?)?;
    attributes.push(Bytes::from_slice(alloc, b"Ward IMPLIED")?)?;
    let mut sink = MemSink::new(alloc, 200, Vec::new(alloc))?;
    write_attributes_and_start(attributes.as_slice(), b"Folder", &mut sink)?;
    write_text(b"", &mut sink)?;
    write_start(b"-", &mut sink)?;
    write_attributes(attributes.as_slice(), &mut sink)?;
    write_attribute(b"Unit CDATA ", &mut sink)?;
    write_start(b"Age", &mut sink)?;
    begin_text(&mut sink)?;
    write_piece(&mut sink, b"2")?;
    write_piece(&mut sink, b"1")?;
    end_line(&mut sink)?;
    write_end(b"Age", &mut sink)?;
    write_end(b"-", &mut sink)?;
    begin_attribute(&mut sink)?;
    write_piece(&mut sink, b"Id CDATA f2")?;
    end_line(&mut sink)?;
    let lines =
        "AId CDATA f1\nAWard IMPLIED\n(Folder\n-\n(-\nAId CDATA f1\nAWard IMPLIED\nAUnit CDATA \n\
        (Age\n-21\n)Age\n)-\nAId CDATA f2\n";
    assert_eq!(rt; str::from_utf8(sink.written())?, lines);
    Ok(())
}

/// Writes an explanation line in parts, the place number by number.
fn write_by_parts(
    sign: Sign,
    word: &[u8],
    place: &[u64],
    sink: &mut MemSink,
) -> Result<(), Failed> {
    write_explanation_head(sign, word, sink)?;
    if place.is_empty() {
        write_place(place, sink)?;
    }
    for number in place {
        write_number(*number, sink)?;
    }
    end_line(sink)
}

/// Whether an explanation line is written as `line`, both whole and in parts.
fn is_written_as(
    alloc: Global,
    sign: Sign,
    word: &[u8],
    place: &[u64],
    line: &str,
) -> Result<bool, Fail> {
    let mut sink = MemSink::new(alloc, 20, Vec::new(alloc))?;
    write_explanation_line(sign, word, place, &mut sink)?;
    let mut by_parts = MemSink::new(alloc, 20, Vec::new(alloc))?;
    write_by_parts(sign, word, place, &mut by_parts)?;
    Ok(sink.written() == line.as_bytes() && by_parts.written() == line.as_bytes())
}

#[test]
fn an_explanation_line_has_sign_rule_and_place(rt: HostRuntime) -> Result<(), Fail> {
    let alloc = rt.alloc();
    let id = Bytes::from_slice(alloc, b"R.1")?;
    let steps = Sequence::new(alloc);
    let rules = vec![in alloc;
        Rule {
            id,
            sign: Sign::Grant,
            path: Path { steps }
        },
    ]?;
    let closed = rule_word(rules.as_slice(), None);
    let named = rule_word(rules.as_slice(), Some(0));
    assert!(rt; is_written_as(alloc, Sign::Deny, closed, &[], "- closed /\n")?);
    assert!(rt; is_written_as(alloc, Sign::Grant, named, &[], "+ R.1 /\n")?);
    assert!(rt; is_written_as(alloc, Sign::Deny, named, &[3], "- R.1 /3\n")?);
    assert!(rt; is_written_as(alloc, Sign::Grant, named, &[1, 10, 2], "+ R.1 /1/10/2\n")?);
    Ok(())
}
