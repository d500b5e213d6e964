//! What a command waits for where standard input is a terminal.

use acl_words::{Input, named_files};

/// The line that says what a command with these arguments reads from a terminal. `None` where it reads no standard
/// input.
pub fn awaited_line(words: &[String]) -> Option<&'static str> {
    match named_files(words)?.input {
        Input::Document => Some(
            "acl: reading the lines of a document from the terminal; Ctrl-D ends them\n",
        ),
        Input::Body => Some("acl: reading a licence body from the terminal; Ctrl-D ends it\n"),
        Input::Licence => Some("acl: reading a sealed licence from the terminal; Ctrl-D ends it\n"),
        Input::Nothing => None,
    }
}
