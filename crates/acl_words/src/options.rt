//! Reads the options of a command line: each at most once, in any order.

ghost use Rattle.std.specs.Prelude.{◌≡◌, map, string_bytes};
ghost use Rattle.std.specs.Option.{option_map};
ghost use Rattle.acl_words.specs.Options.{is_value, with_query, with_explain, with_option, with_word};
ghost use Rattle.acl_words.specs.Options.{options_at_end, options_begun, reading_of, options_of, begun_options_of};
ghost use Rattle.acl_words.specs.inside.Request.{meant_options, meant_reading};

/// The options of a command line.
#[derive(Clone, Copy)]
pub struct Options<'a> {
    /// The bytes of P, where `--query P` is given.
    pub query: Option<&'a [u8]>,
    /// Whether `--explain` is given.
    pub explain: bool,
}

/// What the next argument is to be.
#[derive(Clone, Copy)]
enum Awaited {
    AnOption,
    /// The value of `--query`.
    Query,
}

/// The options so far, and what the next argument is to be.
#[derive(Clone, Copy)]
struct Reading<'a> {
    options: Options<'a>,
    awaited: Awaited,
}

/// Whether an option can have this value: it is not empty and doesn't begin with `-`.
fn is_a_value(word: &[u8]) -> bool
    ensures { result ≡ is_value word.now }
{
    match word {
        [] => false,
        [first, ..] => *first != b'-',
    }
}

/// What is read after this value of `--query`. `None` where the option was given before, or the value is not valid.
fn take_query<'a>(options: Options<'a>, value: &'a [u8]) -> Option<Reading<'a>>
    ensures { option_map meant_reading result ≡ with_query (meant_options options.entry) value.now }
{
    if options.query.is_none() && is_a_value(value) {
        Some(Reading {
            options: Options {
                query: Some(value),
                ..options
            },
            awaited: Awaited::AnOption,
        })
    } else {
        None
    }
}

/// What is read after `--explain`. `None` where it was given before.
fn take_explain(options: Options<'_>) -> Option<Reading<'_>>
    ensures { option_map meant_reading result ≡ with_explain (meant_options options.entry) }
{
    if options.explain {
        None
    } else {
        Some(Reading {
            options: Options {
                explain: true,
                ..options
            },
            awaited: Awaited::AnOption,
        })
    }
}

/// What is read after an argument that begins an option.
#[tactic(auto, unfolding(crate::specs::Options::with_option))]
fn take_option<'a>(options: Options<'a>, word: &'a str) -> Option<Reading<'a>>
    ensures { option_map meant_reading result ≡ with_option (meant_options options.entry) word.now }
{
    match word {
        "--explain" => take_explain(options),
        "--query" => Some(Reading {
            options,
            awaited: Awaited::Query,
        }),
        _ => match word.as_bytes().strip_prefix(b"--query=") {
            Some(value) => take_query(options, value),
            None => None,
        },
    }
}

/// What is read after one more argument, an option or a value.
fn take_word<'a>(reading: Reading<'a>, word: &'a str) -> Option<Reading<'a>>
    ensures { option_map meant_reading result
        ≡ with_word (meant_reading reading.entry).awaited
        (meant_reading reading.entry).options word.now }
{
    match reading.awaited {
        Awaited::AnOption => take_option(reading.options, word),
        Awaited::Query => take_query(reading.options, word.as_bytes()),
    }
}

/// The options at the end of the arguments. `None` where a value is missing.
fn end_of_options(reading: Reading<'_>) -> Option<Options<'_>>
    ensures { option_map meant_options result
        ≡ options_at_end (meant_reading reading.entry).awaited
        (meant_reading reading.entry).options }
{
    match reading.awaited {
        Awaited::AnOption => Some(reading.options),
        Awaited::Query => None,
    }
}

/// The options so far. Where the value of `--query` is missing, `/` takes its place.
fn begun_by(reading: Reading<'_>) -> Option<Options<'_>>
    ensures { option_map meant_options result
        ≡ options_begun (meant_reading reading.entry).awaited
        (meant_reading reading.entry).options }
{
    match reading.awaited {
        Awaited::AnOption => Some(reading.options),
        Awaited::Query => match take_query(reading.options, b"/") {
            Some(reading) => Some(reading.options),
            None => None,
        },
    }
}

/// What is read of these arguments. `None` where they don't begin valid options.
#[tactic(auto, unfolding(crate::specs::Options::reading_of))]
fn read_each(words: &[String]) -> Option<Reading<'_>>
    ensures { option_map meant_reading result ≡ reading_of (map string_bytes words.now) }
{
    let mut reading = Reading {
        options: Options {
            query: None,
            explain: false,
        },
        awaited: Awaited::AnOption,
    };
    for word in words {
        reading = take_word(reading, word.as_str())?;
    }
    Some(reading)
}

/// The options that these arguments give. `None` where they are not valid options.
#[tactic(auto, unfolding(crate::specs::Options::options_of))]
pub fn read_options(words: &[String]) -> Option<Options<'_>>
    ensures { option_map meant_options result ≡ options_of (map string_bytes words.now) }
{
    end_of_options(read_each(words)?)
}

/// The options that these arguments give, where the value of the last may still be missing. `None` where they don't
/// begin valid options.
#[tactic(auto, unfolding(crate::specs::Options::begun_options_of))]
pub fn read_begun_options(words: &[String]) -> Option<Options<'_>>
    ensures { option_map meant_options result ≡ begun_options_of (map string_bytes words.now) }
{
    begun_by(read_each(words)?)
}

#[cfg(test)]
mod tests;
