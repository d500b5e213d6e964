//! What to do about an unexpected argument.

const ORDER: &str = "; options come after the command and its files";

const ONCE: &str = "; --query and --explain are given at most once, and not together";

const INPUT: &str = "; the input is read from standard input: write < before its file";

const OUTPUT: &str = "; the output is written to standard output: write > before its file";

/// Whether an argument looks like an option.
fn is_option(word: &str) -> bool {
    word.starts_with("-")
}

/// Whether an option is where a file of this command belongs.
fn has_early_option(words: &[String]) -> bool {
    match words {
        [] | [_] => false,
        [_, first] => is_option(first.as_str()),
        [name, first, second, ..] => match name.as_str() {
            "view" | "explain" => is_option(first.as_str()) || is_option(second.as_str()),
            _ => is_option(first.as_str()),
        },
    }
}

/// What to do about an option that this command doesn't take, or doesn't take here.
fn option_hint(name: &str, option: &str) -> &'static str {
    match option {
        "-o" | "--output" => OUTPUT,
        "--explain" => match name {
            "view" => "; 'acl explain' writes the explanation",
            "preview" => ONCE,
            _ => "",
        },
        "--query" => match name {
            "view" | "preview" => ONCE,
            _ => "",
        },
        _ => "",
    }
}

/// What to do about an unexpected argument after the command `name`.
fn argument_hint(words: &[String], name: &str, word: &str) -> &'static str {
    if word.is_empty() {
        return "; it is empty";
    }
    if has_early_option(words) {
        return ORDER;
    }
    if is_option(word) {
        return option_hint(name, word);
    }
    match name {
        "preview" | "encode" | "seal" | "view" | "explain" => INPUT,
        _ => "",
    }
}

/// What to do about this unexpected argument. Empty where nothing helps but the page.
pub fn hint_for(words: &[String], word: &str) -> &'static str {
    match words {
        [] => "",
        [name, ..] => {
            if is_option(name.as_str()) {
                ORDER
            } else {
                argument_hint(words, name.as_str(), word)
            }
        }
    }
}

/// Whether these arguments ask for a help page: the last of them is `--help` or `-h`.
pub fn asks_for_help(words: &[String]) -> bool {
    match words.last() {
        Some(word) => match word.as_str() {
            "--help" | "-h" => true,
            _ => false,
        },
        None => false,
    }
}
