//! Explains an outcome other than Usage: one line with the file or stream that is at fault, and the cause.

use crate::shown::shown;
use acl_outcome::Outcome;
use acl_words::{Files, Input, named_files};
use std::alloc::{AllocError, Global};

/// What can be at fault in a run.
#[derive(Clone, Copy)]
enum Given {
    /// The file that is read first: the keys, or else the rules.
    Keys,
    /// The source of the rules: the file RULES, or else standard input.
    Rules,
    Input,
    /// The keys, or standard input: which of them isn't known.
    KeysOrInput,
    Query,
    /// The rules together, or the query.
    Paths,
    Store,
    Output,
}

const NO_LINE: &str =
    "not a line of a document; tools/why.py FILE says why, and examples/xml.sh converts XML files";

const NO_KIND: &str =
    "documents have no lines of this kind; tools/why.py FILE says why, and examples/xml.sh converts XML \
    files";

const UNBALANCED: &str = "the line is not allowed here, or the end of an element is missing";

const SECOND_ROOT: &str = "something follows the end of the root";

const TOO_MANY_ATTRIBUTES: &str = "an element has more than 65,535 attributes";

const TOO_MANY_NAMES: &str = "the document has more than 256 different element names";

const TOO_LARGE: &str = "the document's names and tree need more than 33,554,432 bytes";

const WRONG_ROOT: &str = "the licence is for another file, or this one was changed; \
    the root in a licence body is the one that acl encode prints";

const NOT_READABLE: &str = "not found, or not a readable file";

const TOO_MANY_STATES: &str = "more than 256 steps, 256 tests in predicates or 64 predicates";

const LONGEST_DOCUMENT: u32 = 33_554_432;

const BAD_SEAL: &str = "the licence was changed since it was sealed, or sealed with other keys";

const BODY_RULE: &str =
    "expected a rule ('+' or '-', a unique id and a path, with one space between them), or 'end' as \
    the last line; tools/why.py FILE says more";

/// What this line of a licence body must be. Lines are counted from 1.
fn body_line(line: u32) -> &'static str {
    match line {
        1 =>
            "expected the line 'licence 1', without a seal or anything else; tools/why.py FILE says more",
        2 => "expected the line that acl encode prints: 'root' and 64 hexadecimal digits",
        3 => "expected 'user' and a name",
        _ => BODY_RULE,
    }
}

/// What this line of a sealed licence must be.
fn licence_line(line: u32) -> &'static str {
    match line {
        0 | 1 =>
            "expected the seal line, which acl seal writes before the body; tools/why.py FILE says more",
        _ => body_line(line - 1),
    }
}

/// What this line of the keys must be. Lines are counted from 1.
fn keys_line(line: u32) -> &'static str {
    match line {
        1 => "expected 'document', a space and 32 hexadecimal digits; tools/why.py FILE says more",
        2 => "expected 'seal', a space and 64 hexadecimal digits; tools/why.py FILE says more",
        _ => "something follows the two lines of the keys",
    }
}

/// Where this line of a licence or a body is, and what it must be.
fn in_licence(line: u32, input: Input) -> (Given, &'static str) {
    match input {
        Input::Licence => (Given::Input, licence_line(line)),
        Input::Document | Input::Body | Input::Nothing => (Given::Rules, body_line(line)),
    }
}

/// What is longer than this limit, and how long it may be.
fn too_long(limit: u32, input: Input) -> (Given, &'static str) {
    if limit == LONGEST_DOCUMENT {
        return (Given::Input, "longer than 33,554,432 bytes");
    }
    let given = match input {
        Input::Document | Input::Nothing => Given::Keys,
        Input::Body | Input::Licence => Given::KeysOrInput,
    };
    (given, "longer than 131,072 bytes")
}

/// What is at fault, and the cause. `None` where the outcome's name says it all, or where the fault is in a path.
fn cause(outcome: Outcome, input: Input) -> Option<(Given, &'static str)> {
    Some(match outcome {
        Outcome::Done | Outcome::NoMemory | Outcome::Usage | Outcome::NoteFault => return None,
        Outcome::BadRule { .. } | Outcome::BadQuery { .. } | Outcome::Stopped { .. } => return None,
        Outcome::InputTooLong { limit } => too_long(limit, input),
        Outcome::TooManyStates => (Given::Paths, TOO_MANY_STATES),
        Outcome::BadLine { .. } => (Given::Input, NO_LINE),
        Outcome::Unsupported { .. } => (Given::Input, NO_KIND),
        Outcome::Unbalanced { .. } => (Given::Input, UNBALANCED),
        Outcome::NoRoot => (Given::Input, "the document has no element"),
        Outcome::SecondRoot { .. } => (Given::Input, SECOND_ROOT),
        Outcome::TooDeep { .. } => (Given::Input, "elements are nested more than 255 deep"),
        Outcome::NameTooLong { .. } => (Given::Input, "a name is longer than 255 bytes"),
        Outcome::TooManyAttributes { .. } => (Given::Input, TOO_MANY_ATTRIBUTES),
        Outcome::TooManyTags => (Given::Input, TOO_MANY_NAMES),
        Outcome::TooLarge => (Given::Input, TOO_LARGE),
        Outcome::SourceFault => (Given::Input, "cannot be read"),
        Outcome::BadHeader => (Given::Store, "not a file made by acl encode"),
        Outcome::WrongRoot { .. } => (Given::Store, WRONG_ROOT),
        Outcome::WrongKey { .. } => (Given::Store, "encrypted with another document key"),
        Outcome::StoreShort { .. } => (Given::Store, "unexpected end of file"),
        Outcome::StoreFault => (Given::Store, NOT_READABLE),
        Outcome::BadFragment { .. } => (Given::Store, "the file was changed"),
        Outcome::BadIndex => (Given::Store, "the file was not made from a document"),
        Outcome::KeysFault => (Given::Keys, NOT_READABLE),
        Outcome::BadKeys { line } => (Given::Keys, keys_line(line)),
        Outcome::BadSeal { .. } => (Given::Input, BAD_SEAL),
        Outcome::BadLicence { line } => in_licence(line, input),
        Outcome::TooManyRules => (Given::Rules, "more than 64 rules"),
        Outcome::SinkFault => (Given::Output, "cannot be written"),
    })
}

/// The name that the user knows it by: of the file, or of the stream.
fn name_of(given: Given, files: Files<'_>) -> &str {
    let (named, unnamed) = match given {
        Given::Keys => (files.keys.or(files.rules), "the keys"),
        Given::Rules => (files.rules, "standard input"),
        Given::Input => (None, "standard input"),
        Given::KeysOrInput => (None, "the keys or standard input"),
        Given::Query => (None, "the query"),
        Given::Paths => (None, "the rules together, or the query"),
        Given::Store => (files.store, "the store"),
        Given::Output => (None, "standard output"),
    };
    named.unwrap_or(unnamed)
}

/// The line for an invalid path, of which the first `at` bytes begin some path. `words` are those after which
/// `tools/why.py` shows the place.
fn path_line(alloc: Global, name: &str, at: u32, words: &str) -> Result<String, AllocError> {
    let name = shown(alloc, name)?;
    if at == 0 {
        format!(in alloc; "acl: {name}: a path must begin with / or //\n")
    } else {
        format!(in alloc;
            "acl: {name}: the path is invalid after its first {at} bytes, or ends too early; \
            tools/why.py {words} shows the place\n"
        )
    }
}

/// The line that explains an outcome of a run with these files. Empty where the outcome's name says it all.
fn line_for(alloc: Global, files: Files<'_>, outcome: Outcome) -> Result<String, AllocError> {
    match (outcome, cause(outcome, files.input)) {
        (Outcome::BadRule { at, .. }, _) => path_line(
            alloc,
            name_of(Given::Rules, files),
            at,
            "FILE",
        ),
        (Outcome::BadQuery { at }, _) => path_line(
            alloc,
            name_of(Given::Query, files),
            at,
            "--query P",
        ),
        (_, Some((given, cause))) => {
            let name = shown(alloc, name_of(given, files))?;
            format!(in alloc; "acl: {name}: {cause}\n")
        }
        (_, None) => Ok(String::new(alloc)),
    }
}

/// The line that explains this outcome. Empty where the arguments are no valid command line.
pub fn cause_line(alloc: Global, words: &[String], outcome: Outcome) -> Result<String, AllocError> {
    match named_files(words) {
        Some(files) => line_for(alloc, files, outcome),
        None => Ok(String::new(alloc)),
    }
}
