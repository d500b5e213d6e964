//! The files that a command line names, and what its command reads from standard input.

ghost use Rattle.std.specs.Prelude.{◌≡◌, map, string_bytes};
ghost use Rattle.std.specs.Option.{option_map, option_copied};
ghost use Rattle.acl_words.specs.Files.{first_operand, second_operand, files_by, files_of};
ghost use Rattle.acl_words.specs.inside.Request.{command_of, meant_files};

use crate::request::Request;
use crate::words::read_words;

/// What a command reads from standard input.
#[derive(Clone, Copy)]
pub enum Input {
    /// The lines of a document.
    Document,
    /// A licence body.
    Body,
    /// A sealed licence.
    Licence,
    /// Standard input is not read.
    Nothing,
}

/// The names of a command's files, as they are on the command line.
#[derive(Clone, Copy)]
pub struct Files<'a> {
    /// The file of a licence body.
    pub rules: Option<&'a str>,
    /// The file of the keys.
    pub keys: Option<&'a str>,
    /// The file of an encoded document.
    pub store: Option<&'a str>,
    /// What is read from standard input.
    pub input: Input,
}

/// The argument after the command's name.
fn first_operand(words: &[String]) -> Option<&str>
    ensures { option_copied result ≡ first_operand (map string_bytes words.now) }
{
    match words {
        [] | [_] => None,
        [_name, first, ..] => Some(first.as_str()),
    }
}

/// The argument after the first operand.
fn second_operand(words: &[String]) -> Option<&str>
    ensures { option_copied result ≡ second_operand (map string_bytes words.now) }
{
    match words {
        [] | [_] | [_, _] => None,
        [_name, _first, second, ..] => Some(second.as_str()),
    }
}

/// The files that the arguments of this request name.
fn files_by<'a>(request: Request<'_>, words: &'a [String]) -> Files<'a>
    ensures { meant_files result
        ≡ files_by (command_of request.entry) (map string_bytes words.now) }
{
    match request {
        Request::Preview(_) => Files {
            rules: first_operand(words),
            keys: None,
            store: None,
            input: Input::Document,
        },
        Request::Encode => Files {
            rules: None,
            keys: first_operand(words),
            store: None,
            input: Input::Document,
        },
        Request::Seal => Files {
            rules: None,
            keys: first_operand(words),
            store: None,
            input: Input::Body,
        },
        Request::View(_) => Files {
            rules: None,
            keys: first_operand(words),
            store: second_operand(words),
            input: Input::Licence,
        },
        Request::Sample(_) => Files {
            rules: None,
            keys: None,
            store: None,
            input: Input::Nothing,
        },
    }
}

/// The files that these arguments name. `None` where they are no valid command line.
pub fn named_files(words: &[String]) -> Option<Files<'_>>
    ensures { option_map meant_files result ≡ files_of (map string_bytes words.now) }
{
    match read_words(words) {
        Some(request) => Some(files_by(request, words)),
        None => None,
    }
}
