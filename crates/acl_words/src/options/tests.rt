//! The options that are read of each form. The arguments of a case have `;` between them.

use super::*;
use crate::tests::words;
use std::process::Abort;

/// Checks that these arguments are read as this query, or as none where it is empty, with or without `--explain`.
fn assert_read<R: Abort + AllocGlobal>(rt: &R, text: &str, query: &str, explain: bool) {
    let words = words(rt, text);
    let options = read_options(words.as_slice()).expect(rt, "options");
    assert_eq!(rt; options.query.unwrap_or(&[]), query.as_bytes(), "{text}");
    assert_eq!(rt; options.explain, explain, "{text}");
}

#[test]
fn each_option_is_taken_once_and_in_any_order(rt: HostRuntime) {
    for (text, query, explain) in [
        ("--explain", "", true),
        ("--query;/a", "/a", false),
        ("--query=/a", "/a", false),
        ("--query==", "=", false),
        ("--query;a b", "a b", false),
        ("--explain;--query;/a", "/a", true),
        ("--query;/a;--explain", "/a", true),
        ("--query;explain", "explain", false),
    ] {
        assert_read(&rt, text, query, explain);
    }
}

#[test]
fn other_words_are_no_options(rt: HostRuntime) {
    let lines = "
explain
--Explain
--explain=
--explain;--explain
--query
--query;
--query=
--query=-
--query;--explain
--query;/a;--query;/a
--query=/a;--query=/a
--queryx";
    // The first line is one empty argument.
    for text in lines.split('\n') {
        let words = words(&rt, text);
        assert!(rt; read_options(words.as_slice()).is_none(), "{text}");
    }
}
