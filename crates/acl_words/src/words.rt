//! Reads the arguments of a command line: which command they ask for.

ghost use Rattle.std.specs.Prelude.{◌≡◌, ◌≤◌, map, string_bytes, IfSome};
ghost use Rattle.std.specs.Option.{option_map, option_copied};
ghost use Rattle.std.specs.Char.{is_ascii_digit};
ghost use Rattle.std.specs.List.{list_all};
ghost use Rattle.acl_words.specs.inside.Request.{command_of, meant_options, meant_shown, CanBeMade};
ghost use Rattle.acl_words.specs.CommandLines.{begins_with_zero, is_numeral, is_sample_size, size_of};
ghost use Rattle.acl_words.specs.CommandLines.{shown_by, preview_with, preview_of, encode_of, seal_of, sample_of, words_of};
ghost use Rattle.acl_words.specs.CommandLines.{view_with, view_of, explain_of};

use crate::options::{Options, read_options};
use crate::request::{Request, Shown};

// ---- preview

/// What the options `--query` and `--explain` of `preview` ask to show. Only one of them may be given.
fn shown_under<'a>(query: Option<&'a [u8]>, explain: bool) -> Option<Shown<'a>>
    ensures { option_map meant_shown result ≡ shown_by (option_copied query.entry) explain }
{
    match (query, explain) {
        (None, false) => Some(Shown::View),
        (None, true) => Some(Shown::Explanation),
        (Some(query), false) => Some(Shown::Answer(query)),
        (Some(_), true) => None,
    }
}

/// The request `preview` with these options.
pub fn preview_request(options: Options<'_>) -> Option<Request<'_>>
    ensures { option_map command_of result ≡ preview_with (meant_options options.entry) }
{
    match shown_under(options.query, options.explain) {
        Some(shown) => Some(Request::Preview(shown)),
        None => None,
    }
}

/// The request of the arguments after `preview`.
fn read_preview(words: &[String]) -> Option<Request<'_>>
    ensures { option_map command_of result ≡ preview_of (map string_bytes words.now) }
{
    let [_rules, options @ ..] = words else {
        return None;
    };
    match read_options(options) {
        Some(options) => preview_request(options),
        None => None,
    }
}

// ---- encode

/// The request of the arguments after `encode`.
fn read_encode(words: &[String]) -> Option<Request<'_>>
    ensures { option_map command_of result ≡ encode_of (map string_bytes words.now) }
{
    match words {
        [_keys] => Some(Request::Encode),
        _ => None,
    }
}

// ---- seal

/// The request of the arguments after `seal`.
fn read_seal(words: &[String]) -> Option<Request<'_>>
    ensures { option_map command_of result ≡ seal_of (map string_bytes words.now) }
{
    match words {
        [_keys] => Some(Request::Seal),
        _ => None,
    }
}

// ---- view

/// The request `view` with these options. It doesn't take `--explain`.
pub fn view_request(options: Options<'_>) -> Option<Request<'_>>
    ensures { option_map command_of result ≡ view_with (meant_options options.entry) }
{
    match (options.query, options.explain) {
        (None, false) => Some(Request::View(Shown::View)),
        (Some(query), false) => Some(Request::View(Shown::Answer(query))),
        (_, true) => None,
    }
}

/// The request of the arguments after `view`.
fn read_view(words: &[String]) -> Option<Request<'_>>
    ensures { option_map command_of result ≡ view_of (map string_bytes words.now) }
{
    let [_keys, _store, options @ ..] = words else {
        return None;
    };
    match read_options(options) {
        Some(options) => view_request(options),
        None => None,
    }
}

// ---- explain

/// The request of the arguments after `explain`.
fn read_explain(words: &[String]) -> Option<Request<'_>>
    ensures { option_map command_of result ≡ explain_of (map string_bytes words.now) }
{
    match words {
        [_keys, _store] => Some(Request::View(Shown::Explanation)),
        _ => None,
    }
}

// ---- sample

fn has_leading_zero(word: &[u8]) -> bool
    ensures { result ≡ begins_with_zero word.now }
{
    matches!(word, [b'0', ..])
}

fn are_all_digits(word: &[u8]) -> bool
    ensures { result ≡ list_all is_ascii_digit word.now }
{
    word.iter().all(|byte| byte.is_ascii_digit())
}

/// Whether an argument has 1 to 6 digits and no leading zero.
fn is_a_numeral(word: &[u8]) -> bool
    ensures { result ≡ is_numeral word.now }
{
    !word.is_empty() && word.len() <= 6 && are_all_digits(word) && !has_leading_zero(word)
}

/// Whether a sample can have this many folders.
fn is_a_size(size: u32) -> bool
    ensures { result ≡ is_sample_size size }
{
    (1..=20_000).contains(&size)
}

/// The number of folders that N gives. `None` where it is no numeral, or no size of a sample.
#[tactic(auto, unfolding(crate::specs::CommandLines::size_of), using(crate::proofs::Sizes::sizes))]
pub fn read_size(word: &str) -> Option<u32>
    ensures exact { result ≡ size_of word.now }
    ensures range { IfSome result (λ size. (1 ≤ size) × (size ≤ 20000)) }
{
    if !is_a_numeral(word.as_bytes()) {
        return None;
    }
    match word.parse::<u32>() {
        Ok(size) if is_a_size(size) => Some(size),
        Ok(_) => None,
        Err(_) => None,
    }
}

/// The request of the arguments after `sample`.
fn read_sample(words: &[String]) -> Option<Request<'_>>
    ensures exact { option_map command_of result ≡ sample_of (map string_bytes words.now) }
    ensures can_be_made { IfSome result CanBeMade }
{
    let [size] = words else {
        return None;
    };
    match read_size(size.as_str()) {
        Some(size) => Some(Request::Sample(size)),
        None => None,
    }
}

// ---- all commands

/// The request that these arguments make. `None` where they are no valid command line.
pub fn read_words(words: &[String]) -> Option<Request<'_>>
    ensures exact { option_map command_of result ≡ words_of (map string_bytes words.now) }
    ensures can_be_made { IfSome result CanBeMade }
{
    let [name, rest @ ..] = words else {
        return None;
    };
    match name.as_str() {
        "preview" => read_preview(rest),
        "encode" => read_encode(rest),
        "seal" => read_seal(rest),
        "view" => read_view(rest),
        "explain" => read_explain(rest),
        "sample" => read_sample(rest),
        _ => None,
    }
}
