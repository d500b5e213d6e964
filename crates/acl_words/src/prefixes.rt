//! Finds the first wrong argument: the one after the longest prefix that some valid command line begins with.

ghost use Rattle.std.specs.Prelude.{◌≡◌, ◌↔◌, ◌∷◌, None, true, is_some, IfSome, IfNone, map, string_bytes};
ghost use Rattle.acl_words.specs.inside.Begins.{begins_preview, begins_view, begins_sample, begins_line};
ghost use Rattle.acl_words.specs.Prefixes.{IsBegun, IsLongestPrefix};
ghost use Rattle.acl_words.specs.CommandLines.{words_of};

use crate::options::read_begun_options;
use crate::words::{preview_request, read_size, read_words, view_request};

/// Whether RULES and options of `preview` begin with these arguments.
fn begins_preview(words: &[String]) -> bool
    ensures { result ≡ begins_preview (map string_bytes words.now) }
{
    let [_rules, options @ ..] = words else {
        return true;
    };
    match read_begun_options(options) {
        Some(options) => preview_request(options).is_some(),
        None => false,
    }
}

/// Whether KEYS, STORE and options of `view` begin with these arguments.
fn begins_view(words: &[String]) -> bool
    ensures { result ≡ begins_view (map string_bytes words.now) }
{
    let [_keys, _store, options @ ..] = words else {
        return true;
    };
    match read_begun_options(options) {
        Some(options) => view_request(options).is_some(),
        None => false,
    }
}

/// Whether N of `sample` begins with these arguments: there is none, or a valid N alone.
fn begins_sample(words: &[String]) -> bool
    ensures { result ≡ begins_sample (map string_bytes words.now) }
{
    match words {
        [] => true,
        [size] => read_size(size.as_str()).is_some(),
        _ => false,
    }
}

/// Whether some command line begins with this command's name and these arguments after it.
fn begins_command(name: &str, words: &[String]) -> bool
    ensures { result ≡ begins_line (name.now ∷ map string_bytes words.now) }
{
    match name {
        "preview" => begins_preview(words),
        "encode" | "seal" => words.len() <= 1,
        "view" => begins_view(words),
        "explain" => words.len() <= 2,
        "sample" => begins_sample(words),
        _ => false,
    }
}

/// Whether some valid command line begins with these arguments.
fn is_begun(words: &[String]) -> bool
    ensures { (result ≡ true) ↔ IsBegun (map string_bytes words.now) }
{
    match words {
        [] => true,
        [name, rest @ ..] => begins_command(name.as_str(), rest),
    }
}

/// The length of the longest prefix of the arguments that some valid command line begins with.
fn longest_prefix(words: &[String]) -> usize
    ensures { IsLongestPrefix (map string_bytes words.now) result }
{
    // A valid command line has at most five arguments, so the loop ends after at most six rounds.
    for prefix in 0..words.len() {
        if !is_begun(&words[..prefix + 1]) {
            return prefix;
        }
    }
    words.len()
}

/// The index of the first argument that no valid command line has after those before it, from 0. Where an argument is
/// missing it is the number of arguments. `None` where they are a valid command line.
pub fn refused_word(words: &[String]) -> Option<usize>
    ensures none { IfNone result (is_some (words_of (map string_bytes words.now)) ≡ true) }
    ensures no_line { IfSome result (λ at. words_of (map string_bytes words.now) ≡ None) }
    ensures place { IfSome result (λ at. IsLongestPrefix (map string_bytes words.now) at) }
{
    match read_words(words) {
        Some(_) => None,
        None => Some(longest_prefix(words)),
    }
}
