//! Valid command lines, and the first wrong argument of others. The arguments of a line have `;` between them.

use super::*;
use std::process::Abort;

pub(crate) fn words<R: Abort + AllocGlobal>(rt: &R, text: &str) -> Vec<String> {
    let mut words = Vec::new(rt.alloc());
    for word in text.split(';') {
        let word = String::from_str(rt.alloc(), word).expect(rt, "memory");
        words.push(word).expect(rt, "memory");
    }
    words
}

#[test]
fn a_command_line_has_no_refused_word(rt: HostRuntime) {
    let lines = "preview;r
preview;
preview;r;--explain
preview;r;--query;/a
preview;r;--query=/a
encode;k
seal;k
view;k;s
view;k;s;--query;/a
explain;k;s
sample;1
sample;20000";
    for text in lines.split('\n') {
        let words = words(&rt, text);
        assert!(rt; refused_word(words.as_slice()).is_none(), "{text}");
    }
}

/// The index of the first wrong argument, and the arguments. docs/FORMATS.md describes the valid command lines.
#[test]
fn the_first_word_that_cannot_stand_there_is_refused(rt: HostRuntime) {
    for (place, text) in [
        (0, ""),
        (0, "fly"),
        (0, "Preview;r"),
        (0, "--help"),
        (1, "preview"),
        (1, "view"),
        (2, "view;k"),
        (1, "sample"),
        (1, "sample;0"),
        (1, "sample;20001"),
        (2, "sample;2;3"),
        (2, "preview;r;more"),
        (3, "preview;r;--explain;--query;/a"),
        (3, "preview;r;--explain;--explain"),
        (3, "preview;r;--query=/a;--explain"),
        (4, "preview;r;--query;/a;--query;/a"),
        (3, "preview;r;--query"),
        (3, "preview;r;--query;"),
        (2, "preview;r;--query="),
        (3, "preview;r;--query;-a"),
        (3, "view;k;s;licence"),
        (3, "view;k;s;--explain"),
        (4, "view;k;s;--query"),
        (2, "encode;k;x"),
        (2, "seal;k;--explain"),
        (3, "explain;k;s;--query;/a"),
    ] {
        let words = words(&rt, text);
        assert_eq!(rt; refused_word(words.as_slice()), Some(place), "{text}");
    }
    assert_eq!(rt; refused_word(&[]), Some(0));
}

/// What a command reads from standard input, as a word.
fn name_of(input: Input) -> &'static str {
    match input {
        Input::Document => "document",
        Input::Body => "body",
        Input::Licence => "licence",
        Input::Nothing => "nothing",
    }
}

/// The files of rules, keys and store, empty where there is none, and what is read from standard input.
#[test]
fn a_command_line_names_its_files_and_other_words_name_none(rt: HostRuntime) {
    for (text, rules, keys, store, input) in [
        ("preview;r;--explain", "r", "", "", "document"),
        ("encode;k", "", "k", "", "document"),
        ("seal;k", "", "k", "", "body"),
        ("view;k;s;--query;/a", "", "k", "s", "licence"),
        ("explain;k;s", "", "k", "s", "licence"),
        ("sample;1", "", "", "", "nothing"),
    ] {
        let words = words(&rt, text);
        let files = named_files(words.as_slice()).expect(&rt, "files");
        assert_eq!(rt; files.rules.unwrap_or(""), rules, "{text}");
        assert_eq!(rt; files.keys.unwrap_or(""), keys, "{text}");
        assert_eq!(rt; files.store.unwrap_or(""), store, "{text}");
        assert_eq!(rt; name_of(files.input), input, "{text}");
    }
    for text in [
        "",
        "fly;x",
        "encode;k;x",
        "view;k",
        "preview;r;x",
        "sample;0",
    ] {
        let words = words(&rt, text);
        assert!(rt; named_files(words.as_slice()).is_none(), "{text}");
    }
}
