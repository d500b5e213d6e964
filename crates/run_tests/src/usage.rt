//! The help page of each command, the wrong argument that it names, and the lines that explain outcomes.

use acl_outcome::Outcome;
use acl_usage::{awaited_line, message_for};
use std::alloc::Global;
use std::test::Fail;

/// The text for this outcome of a run with these arguments, which have `;` between them.
fn text_for(alloc: Global, arguments: &str, outcome: Outcome) -> Result<String, Fail> {
    let mut words = Vec::new(alloc);
    for word in arguments.split(';') {
        words.push(String::from_str(alloc, word)?)?;
    }
    Ok(message_for(alloc, words.as_slice(), &outcome)?)
}

/// Whether the text for a faulty command line has all pieces of a row: the arguments, then the pieces, with `|` between
/// them.
fn has_pieces(alloc: Global, row: &str) -> Result<bool, Fail> {
    let (arguments, pieces) = row.split_once('|').ok_or("one field")?;
    let text = text_for(alloc, arguments, Outcome::Usage)?;
    for piece in pieces.split('|') {
        if !text.as_str().contains(piece) {
            return Ok(false);
        }
    }
    Ok(true)
}

const PAGES: &str =
    "--help|Usage: acl <COMMAND>|Usage: acl preview <RULES> [OPTIONS]|Usage: acl encode <KEYS>
--help|Usage: acl seal <KEYS>|Usage: acl view <KEYS> <STORE> [OPTIONS]|Usage: acl explain <KEYS> <STORE>
--help|Usage: acl sample <N>|docs/FORMATS.md
fly;high|Usage: acl <COMMAND>|Usage: acl sample <N>|docs/FORMATS.md|acl: unexpected argument 'fly'
preview|Usage: acl preview <RULES> [OPTIONS]|--explain|acl: an argument is missing after 'preview'
encode|Usage: acl encode <KEYS>|acl encode my.keys <my.esis >my.file|acl: an argument is missing after 'encode'
seal;k;b|Usage: acl seal <KEYS>|acl seal my.keys <my.rules >my.licence|acl: unexpected argument 'b'; the input is read
view;k;s;l|Usage: acl view <KEYS> <STORE> [OPTIONS]|--query <P>|acl: unexpected argument 'l'; the input
view;--query;/a;k;s|acl: unexpected argument 'k'; options come after the command and its files
view;k;--query;/a;s|acl: unexpected argument '/a'; options come after the command and its files
--query;/a;view;k;s|acl: unexpected argument '--query'; options come after the command and its files
preview;--explain;r|acl: unexpected argument 'r'; options come after the command and its files
preview;r;--query;/a;--query;/b|acl: unexpected argument '--query'; --query and --explain are given at most once
view;k;s;--query;|acl: unexpected argument ''; it is empty
view;k;s;--explain|acl: unexpected argument '--explain'; 'acl explain' writes the explanation
explain;k;s;--query;/a|acl: unexpected argument '--query'
encode;k;-o;f|acl: unexpected argument '-o'; the output is written to standard output
explain;k|Usage: acl explain <KEYS> <STORE>|The encrypted file|acl: an argument is missing after 'k'
sample;0|Usage: acl sample <N>|from 1 to 20000|acl: unexpected argument '0'
fly\u{1b}[2J|acl: unexpected argument 'fly\\u{1b}[2J'
preview;r;--query|acl: an argument is missing after '--query'
encode;k;\u{7}x|acl: unexpected argument '\\u{7}x'";

#[test]
fn a_faulty_command_line_gets_its_wrong_argument_and_a_page(rt: HostRuntime) -> Result<(), Fail> {
    for row in PAGES.lines() {
        assert!(rt; has_pieces(rt.alloc(), row)?, "{row}");
    }
    let page = message_for(rt.alloc(), &[], &Outcome::Usage)?;
    assert!(rt; page.as_str().starts_with("Give each reader"));
    let page = text_for(rt.alloc(), "--help", Outcome::Usage)?;
    assert!(rt; page.as_str().starts_with("Give each reader"));
    let page = text_for(rt.alloc(), "view;--help", Outcome::Usage)?;
    assert!(rt; page.as_str().starts_with("Show an encrypted"));
    Ok(())
}

/// The outcome with this name in docs/FORMATS.md, at this line or byte.
fn outcome_named(name: &str, at: u32) -> Option<Outcome> {
    let digest = [0; 32];
    Some(match name {
        "KeysFault" => Outcome::KeysFault,
        "BadLine" => Outcome::BadLine { line: at },
        "SecondRoot" => Outcome::SecondRoot { line: at },
        "InputTooLong" => Outcome::InputTooLong { limit: at },
        "TooManyStates" => Outcome::TooManyStates,
        "Unsupported" => Outcome::Unsupported { line: 1, kind: 83 },
        "SourceFault" => Outcome::SourceFault,
        "BadSeal" => Outcome::BadSeal {
            given: digest,
            made: digest,
        },
        "BadRule" => Outcome::BadRule { line: 4, at },
        "BadLicence" => Outcome::BadLicence { line: at },
        "BadKeys" => Outcome::BadKeys { line: at },
        "BadQuery" => Outcome::BadQuery { at },
        "BadHeader" => Outcome::BadHeader,
        "WrongRoot" => Outcome::WrongRoot {
            want: digest,
            made: digest,
        },
        "StoreShort" => Outcome::StoreShort { at: 64 },
        "StoreFault" => Outcome::StoreFault,
        "BadFragment" => Outcome::BadFragment {
            index: 0,
            want: digest,
            made: digest,
        },
        "SinkFault" => Outcome::SinkFault,
        _ => return None,
    })
}

/// Whether the text for an outcome is the line that a row wants: the outcome's name, its line or byte, the arguments
/// and the line, with `|` between them.
fn is_explained(alloc: Global, row: &str) -> Result<bool, Fail> {
    let (name, rest) = row.split_once('|').ok_or("one field")?;
    let (at, rest) = rest.split_once('|').ok_or("two fields")?;
    let (arguments, wanted) = rest.split_once('|').ok_or("three fields")?;
    let outcome = outcome_named(name, at.parse()?).ok_or("no outcome")?;
    let text = text_for(alloc, arguments, outcome)?;
    let (line, more) = text.as_str().split_once('\n').ok_or("no line")?;
    Ok(line == wanted && more.is_empty())
}

const LINES: &str = "KeysFault|0|preview;r|acl: r: not found, or not a readable file
KeysFault|0|view;k;s|acl: k: not found, or not a readable file
BadLine|1|preview;r|acl: standard input: not a line of a document; tools/why.py FILE says why, and \
    examples/xml.sh converts XML files
Unsupported|0|encode;k|acl: standard input: documents have no lines of this kind; tools/why.py FILE says why, and \
    examples/xml.sh converts XML files
InputTooLong|33554432|encode;k|acl: standard input: longer than 33,554,432 bytes
InputTooLong|131072|encode;k|acl: k: longer than 131,072 bytes
InputTooLong|131072|preview;r|acl: r: longer than 131,072 bytes
InputTooLong|131072|seal;k|acl: the keys or standard input: longer than 131,072 bytes
TooManyStates|0|preview;r|acl: the rules together, or the query: more than 256 steps, \
    256 tests in predicates or 64 predicates
SecondRoot|3|encode;k|acl: standard input: something follows the end of the root
SourceFault|0|encode;k|acl: standard input: cannot be read
BadSeal|0|view;k;s|acl: standard input: the licence was changed since it was sealed, or sealed with other keys
BadRule|19|preview;r|acl: r: the path is invalid after its first 19 bytes, or ends too early; \
    tools/why.py FILE shows the place
BadQuery|2|view;k;s;--query=//|acl: the query: the path is invalid after its first 2 bytes, or ends too early; \
    tools/why.py --query P shows the place
BadLicence|1|preview;r|acl: r: expected the line 'licence 1', without a seal or anything else; \
    tools/why.py FILE says more
BadLicence|1|seal;k|acl: standard input: expected the line 'licence 1', without a seal or anything else; \
    tools/why.py FILE says more
BadLicence|1|view;k;s|acl: standard input: expected the seal line, which acl seal writes before the body; \
    tools/why.py FILE says more
BadLicence|3|view;k;s|acl: standard input: expected the line that acl encode prints: 'root' and 64 hexadecimal digits
BadLicence|4|preview;r|acl: r: expected a rule ('+' or '-', a unique id and a path, with one space between them), \
    or 'end' as the last line; tools/why.py FILE says more
BadKeys|1|seal;k|acl: k: expected 'document', a space and 32 hexadecimal digits; tools/why.py FILE says more
BadKeys|3|seal;k|acl: k: something follows the two lines of the keys
BadQuery|0|view;k;s;--query=/a|acl: the query: a path must begin with / or //
BadHeader|0|view;k;s|acl: s: not a file made by acl encode
WrongRoot|0|view;k;s|acl: s: the licence is for another file, or this one was changed; \
    the root in a licence body is the one that acl encode prints
StoreShort|0|view;k;s|acl: s: unexpected end of file
StoreFault|0|view;k;s|acl: s: not found, or not a readable file
BadFragment|0|view;k;s|acl: s: the file was changed
SinkFault|0|sample;1|acl: standard output: cannot be written
StoreFault|0|view;k;a\u{1b}[31mb\u{9b}c|acl: a\\u{1b}[31mb\\u{9b}c: not found, or not a readable file
KeysFault|0|preview;\u{442}|acl: \u{442}: not found, or not a readable file";

#[test]
fn an_outcome_is_explained(rt: HostRuntime) -> Result<(), Fail> {
    for row in LINES.lines() {
        assert!(rt; is_explained(rt.alloc(), row)?, "{row}");
    }
    assert_eq!(rt;
        text_for(rt.alloc(), "sample;1", Outcome::Done)?.as_str(),
        ""
    );
    Ok(())
}

/// The line for a terminal, of a command with these arguments, which have `;` between them.
fn awaited_for(alloc: Global, arguments: &str) -> Result<Option<&'static str>, Fail> {
    let mut words = Vec::new(alloc);
    for word in arguments.split(';') {
        words.push(String::from_str(alloc, word)?)?;
    }
    Ok(awaited_line(words.as_slice()))
}

const AWAITED: &str = "preview;r|the lines of a document from the terminal
preview;r;--explain|the lines of a document from the terminal
encode;k|the lines of a document from the terminal
seal;k|a licence body from the terminal
view;k;s|a sealed licence from the terminal
explain;k;s|a sealed licence from the terminal";

#[test]
fn a_command_says_what_it_waits_for(rt: HostRuntime) -> Result<(), Fail> {
    for row in AWAITED.lines() {
        let (arguments, piece) = row.split_once('|').ok_or("one field")?;
        let line = awaited_for(rt.alloc(), arguments)?.ok_or("no line")?;
        assert!(rt; line.contains(piece) && line.ends_with('\n'), "{row}");
    }
    for arguments in ["sample;1", "view;k", "fly", ""] {
        assert!(rt;
            awaited_for(rt.alloc(), arguments)?.is_none(),
            "{arguments}"
        );
    }
    Ok(())
}
