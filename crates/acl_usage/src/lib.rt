//! The text that the program writes to standard error after the line of an outcome. For a faulty command line it names
//! the wrong argument, says what to do about it, and shows the help page of the command, or of all commands where the
//! first argument names none. For another outcome it names the file or stream that is at fault, and the cause.
//!
//! `clap` renders the pages and parses nothing: `acl_words` defines the command lines. In names, `words` are the
//! arguments without the program's name.
#![tactic(auto)]

mod awaited;
mod causes;
mod hints;
mod shown;

use acl_outcome::Outcome;
use acl_words::refused_word;
pub use awaited::awaited_line;
use causes::cause_line;
use clap::{Arg, ArgAction, Command};
use hints::{asks_for_help, hint_for};
use shown::shown;
use std::alloc::{AllocError, Global};

/// A command of the program, with the texts of its help page.
fn command(
    alloc: Global,
    name: &'static str,
    whole_name: &str,
    about: &'static str,
    after_help: &'static str,
) -> Result<Command<'static>, AllocError> {
    Command::new(alloc, name)
        .about(about)
        .after_help(after_help)
        .disable_help_flag(true)
        .bin_name(whole_name)
}

/// A required argument.
fn operand(alloc: Global, name: &'static str, help: &'static str) -> Arg<'static> {
    Arg::new(alloc, name).required(true).help(help)
}

// ---- the options: one function for each, for all commands that take it

fn query(alloc: Global) -> Arg<'static> {
    Arg::new(alloc, "P")
        .long("query")
        .action(ArgAction::Set)
        .help("Write only what this path selects in the view")
}

fn explanation(alloc: Global) -> Arg<'static> {
    Arg::new(alloc, "explain")
        .long("explain")
        .action(ArgAction::SetTrue)
        .help("Write which rule decides at each element that a rule selects, instead of the view")
}

// ---- the commands

fn preview(alloc: Global) -> Result<Command<'static>, AllocError> {
    command(
        alloc,
        "preview",
        "acl preview",
        "Show a document's view under the rules of a licence body",
        "Reads the lines of the document from standard input, and writes the lines of the view to standard output.\n\
        --query and --explain cannot be used together.\n\n\
        Example: acl preview examples/doctor.rules <examples/hospital.esis",
    )?
    .override_usage("acl preview <RULES> [OPTIONS]")
    .arg(operand(alloc, "RULES", "File with the licence body"))?
    .arg(query(alloc))?
    .arg(explanation(alloc))
}

fn encode(alloc: Global) -> Result<Command<'static>, AllocError> {
    command(
        alloc,
        "encode",
        "acl encode",
        "Encrypt a document with the document key",
        "Reads the lines of the document from standard input. Writes the encrypted file to standard output, and its\n\
        root to standard error. A licence names the file by its root.\n\n\
        Example: acl encode my.keys <my.esis >my.file",
    )?
    .arg(operand(alloc, "KEYS", "File with the keys"))
}

fn seal(alloc: Global) -> Result<Command<'static>, AllocError> {
    command(
        alloc,
        "seal",
        "acl seal",
        "Seal a licence body with the seal key",
        "Reads the licence body from standard input, and writes the sealed licence to standard output: the seal\n\
        line, and then the body.\n\n\
        Example: acl seal my.keys <my.rules >my.licence",
    )?
    .arg(operand(alloc, "KEYS", "File with the keys"))
}

fn view(alloc: Global) -> Result<Command<'static>, AllocError> {
    command(
        alloc,
        "view",
        "acl view",
        "Show an encrypted document's view under a sealed licence",
        "Reads the sealed licence from standard input, and writes the lines of the view to standard output. The\n\
        encrypted file is checked against the root in the licence before anything is written.\n\n\
        Example: acl view my.keys my.file <my.licence",
    )?
    .override_usage("acl view <KEYS> <STORE> [OPTIONS]")
    .arg(operand(alloc, "KEYS", "File with the keys"))?
    .arg(operand(alloc, "STORE", "The encrypted file"))?
    .arg(query(alloc))
}

fn explain(alloc: Global) -> Result<Command<'static>, AllocError> {
    command(
        alloc,
        "explain",
        "acl explain",
        "Show the publisher which rule of a sealed licence decides at each element that a rule selects",
        "Reads the sealed licence from standard input, and writes the lines of the explanation to standard output.\n\
        They describe elements that the view hides, so they are not for the reader.\n\n\
        Example: acl explain my.keys my.file <my.licence",
    )?
    .arg(operand(alloc, "KEYS", "File with the keys"))?
    .arg(operand(alloc, "STORE", "The encrypted file"))
}

fn sample(alloc: Global) -> Result<Command<'static>, AllocError> {
    command(
        alloc,
        "sample",
        "acl sample",
        "Make a sample document: a hospital with N folders",
        "Reads nothing. Writes the lines of the document to standard output, and one line to standard error: the\n\
        number of elements, of lines, and of lines of the view under + S //Folder[Act/RPhys = \"Ana\"]/Admin.\n\n\
        Example: acl sample 100 >sample.esis",
    )?
    .arg(operand(alloc, "N", "Number of folders, from 1 to 20000"))
}

/// The command of this name, if there is one.
fn command_named(alloc: Global, name: &str) -> Result<Option<Command<'static>>, AllocError> {
    let command = match name {
        "preview" => preview(alloc)?,
        "encode" => encode(alloc)?,
        "seal" => seal(alloc)?,
        "view" => view(alloc)?,
        "explain" => explain(alloc)?,
        "sample" => sample(alloc)?,
        _ => return Ok(None),
    };
    Ok(Some(command))
}

/// Appends the usage line of a command.
fn add_usage_line(text: &mut String, mut command: Command<'static>) -> Result<(), AllocError> {
    let line = command.render_usage()?;
    text.push_str("\n")?;
    text.push_str(line.as_str())
}

/// The page of all commands: what each does, and its usage line.
fn page_of_all(alloc: Global) -> Result<String, AllocError> {
    let mut all = Command::new(alloc, "acl")
        .about("Give each reader the part of an XML document that a licence allows")
        .disable_help_flag(true)
        .disable_help_subcommand(true)
        .subcommand_required(true)
        .subcommand(preview(alloc)?)?
        .subcommand(encode(alloc)?)?
        .subcommand(seal(alloc)?)?
        .subcommand(view(alloc)?)?
        .subcommand(explain(alloc)?)?
        .subcommand(sample(alloc)?)?;
    let mut text = all.render_help()?;
    add_usage_line(&mut text, preview(alloc)?)?;
    add_usage_line(&mut text, encode(alloc)?)?;
    add_usage_line(&mut text, seal(alloc)?)?;
    add_usage_line(&mut text, view(alloc)?)?;
    add_usage_line(&mut text, explain(alloc)?)?;
    add_usage_line(&mut text, sample(alloc)?)?;
    text.push_str(
        "\n\nRun 'acl COMMAND' without arguments for its help. docs/FORMATS.md describes documents, licence bodies,\n\
        keys and paths. examples/xml.sh converts an XML file to the lines of a document. A run that fails writes\n\
        a line 'acl: NUMBER NAME' and the cause to standard error, and exits with that number.\n",
    )?;
    Ok(text)
}

/// The page of the command that the first argument names, or else of all commands.
fn page(alloc: Global, words: &[String]) -> Result<String, AllocError> {
    let named = match words {
        [name, ..] => command_named(alloc, name.as_str())?,
        [] => None,
    };
    match named {
        Some(mut command) => command.render_help(),
        None => page_of_all(alloc),
    }
}

/// Appends which argument is wrong and what to do about it, or that one is missing. Appends nothing where there are no
/// arguments.
fn add_fault(alloc: Global, text: &mut String, words: &[String]) -> Result<(), AllocError> {
    let Some(at) = refused_word(words) else {
        return Ok(());
    };
    match (words.get(at), words.last()) {
        (Some(word), _) => {
            text.push_str("acl: unexpected argument '")?;
            text.push_str(shown(alloc, word.as_str())?.as_str())?;
            text.push_str("'")?;
            text.push_str(hint_for(words, word.as_str()))?;
            text.push_str("\n\n")
        }
        (None, Some(last)) => {
            text.push_str("acl: an argument is missing after '")?;
            text.push_str(shown(alloc, last.as_str())?.as_str())?;
            text.push_str("'\n\n")
        }
        (None, None) => Ok(()),
    }
}

/// The text for a faulty command line.
fn usage(alloc: Global, words: &[String]) -> Result<String, AllocError> {
    let mut text = String::new(alloc);
    if !asks_for_help(words) {
        add_fault(alloc, &mut text, words)?;
    }
    let page = page(alloc, words)?;
    text.push_str(page.as_str())?;
    Ok(text)
}

/// The text for this outcome of a run with these arguments: whole lines, or nothing where the outcome's name says it
/// all.
pub fn message_for(
    alloc: Global,
    words: &[String],
    outcome: &Outcome,
) -> Result<String, AllocError> {
    match outcome {
        Outcome::Usage => usage(alloc, words),
        other => cause_line(alloc, words, *other),
    }
}
