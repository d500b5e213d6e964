//! The program `acl`. It passes the files that the command line names and the standard streams to `run` of `acl_run`,
//! writes the outcome to standard error, and exits with the outcome's number. In names, `words` are the arguments
//! without the program's name.
#![tactic(auto)]

use acl_outside::{FileStore, ReaderSource, WriterSink};
use acl_run::{Outcome, outcome_text, run, status};
use acl_usage::{awaited_line, message_for};
use acl_words::named_files;
use std::alloc::Global;
use std::env;
use std::env::Env;
use std::fs::File;
use std::io::{BufWriter, ErrorKind, IsTerminal, Read, Stdin, Write};
use std::process::ExitCode;

/// The arguments without the program's name. The outcome is Usage where some argument isn't UTF-8.
fn given_arguments(rt: &(impl Env + AllocGlobal)) -> Result<Vec<String>, Outcome> {
    let given = match env::args(rt) {
        Ok(given) => given,
        Err(fault) if fault.kind() == ErrorKind::OutOfMemory => return Err(Outcome::NoMemory),
        Err(_) => return Err(Outcome::Usage),
    };
    let mut words = Vec::new(rt.alloc());
    for word in given.skip(1) {
        if words.push(word).is_err() {
            return Err(Outcome::NoMemory);
        }
    }
    Ok(words)
}

/// Standard input, unless it is closed. This must run before a file is opened: the file would get the descriptor of the
/// closed stream, and would be read in its place.
fn open_input(rt: &HostRuntime) -> Option<Stdin> {
    let mut input = rt.stdin();
    match input.read(&mut []) {
        Ok(_) => Some(input),
        Err(_) => None,
    }
}

/// The file with this name. `None` where there is no name or the file can't be opened.
fn opened(rt: &HostRuntime, name: Option<&str>) -> Option<File> {
    File::open(rt, name?).ok()
}

/// The files that the arguments name: that of the keys or the rules, and the store. A faulty command line opens none.
fn open_files(rt: &HostRuntime, words: &[String]) -> (Option<File>, Option<File>) {
    match named_files(words) {
        Some(files) => (
            opened(rt, files.keys.or(files.rules)),
            opened(rt, files.store),
        ),
        None => (None, None),
    }
}

/// Says what is read, where standard input is a terminal.
fn write_awaited(rt: &HostRuntime, words: &[String]) {
    if rt.stdin().is_terminal() {
        if let Some(line) = awaited_line(words) {
            let _ = rt.stderr().write_all(line.as_bytes());
        }
    }
}

/// Runs `acl_run` on real files and streams. A file that isn't named, or can't be opened, fails at its first read.
fn run_over_streams(rt: &HostRuntime, words: &[String]) -> Outcome {
    let mut input = ReaderSource::new(open_input(rt));
    write_awaited(rt, words);
    let (keys, store) = open_files(rt, words);
    let mut keys = ReaderSource::new(keys);
    let mut store = FileStore::new(store);
    let Ok(output) = BufWriter::new(rt.alloc(), rt.stdout()) else {
        return Outcome::NoMemory;
    };
    let mut out = WriterSink::new(output);
    let mut note = WriterSink::new(rt.stderr());
    run(
        rt.alloc(),
        words,
        &mut keys,
        &mut input,
        &mut store,
        &mut out,
        &mut note,
    )
}

/// Writes to standard error how the run ended: the outcome's line, and then the explanation, which is left out where
/// memory runs out.
fn write_end(rt: &HostRuntime, words: &[String], outcome: &Outcome) {
    let mut errors = WriterSink::new(rt.stderr());
    let _ = outcome_text(outcome, &mut errors);
    if let Ok(text) = message_for(rt.alloc(), words, outcome) {
        let _ = rt.stderr().write_all(text.as_bytes());
    }
}

fn main(rt: HostRuntime) -> ExitCode {
    let words = given_arguments(&rt);
    let (words, outcome) = match &words {
        Ok(words) => (words.as_slice(), run_over_streams(&rt, words.as_slice())),
        Err(outcome) => (&[] as &[String], *outcome),
    };
    write_end(&rt, words, &outcome);
    ExitCode::from(status(&outcome))
}
