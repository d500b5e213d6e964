//! How a run ends: done, or the first cause why not. Each cause has a number, which is the program's exit status, and a
//! line. Some causes belong to commands that aren't built yet. No run gives one of these, as its clause `order` says.

ghost use Rattle.std.specs.Prelude.{◌≡◌};
ghost use Rattle.acl_outcome.specs.Outcome.{status_of};

/// How a run ended. Lines are counted from 1, byte offsets from 0.
#[derive(Clone, Copy, Debug, PartialEq, Eq)]
pub enum Outcome {
    /// All of the output was written.
    Done,
    /// Memory ran out. Nothing was written.
    NoMemory,
    /// The arguments are not a valid command line.
    Usage,
    /// A read of the keys, or of the rules, failed.
    KeysFault,
    /// A write to the sink of notes failed, after the whole output was written.
    NoteFault,
    /// A line of the input doesn't have the form of any line of a document, or comes after the line `C`.
    BadLine {
        line: u32,
    },
    /// A line is of a kind that `onsgmls` writes and documents here don't have. `kind` is its first byte.
    Unsupported {
        line: u32,
        kind: u8,
    },
    /// A line isn't allowed at its position, or an element is closed by another name or not at all.
    Unbalanced {
        line: u32,
    },
    /// The input has no element.
    NoRoot,
    /// A second element begins after the end of the root.
    SecondRoot {
        line: u32,
    },
    /// More than 255 elements are open.
    TooDeep {
        line: u32,
    },
    /// A name has more than 255 bytes.
    NameTooLong {
        line: u32,
    },
    /// A source gave more bytes than this limit.
    InputTooLong {
        limit: u32,
    },
    /// A read of the input failed.
    SourceFault,
    /// An element has more than 65,535 attributes.
    TooManyAttributes {
        line: u32,
    },
    /// The seal in the licence, `given`, is not the seal of its body under the key, `made`.
    BadSeal {
        given: [u8; 32],
        made: [u8; 32],
    },
    /// The path of the rule in this line is refused, at this byte offset in the path.
    BadRule {
        line: u32,
        at: u32,
    },
    /// A line of a licence is missing or malformed.
    BadLicence {
        line: u32,
    },
    /// A licence has more than 64 rules.
    TooManyRules,
    /// The rules of a licence together, or a query, have too many steps, tests in predicates, or predicates.
    TooManyStates,
    /// A line of the keys is missing or malformed.
    BadKeys {
        line: u32,
    },
    /// The path of a query is refused, at this byte offset in it.
    BadQuery {
        at: u32,
    },
    /// The first bytes of the store are not the header of a file.
    BadHeader,
    /// The root computed from the store, `made`, is not the one that the licence names, `want`.
    WrongRoot {
        want: [u8; 32],
        made: [u8; 32],
    },
    /// The key check of the document key, `made`, is not the one in the store's header, `want`.
    WrongKey {
        want: [u8; 16],
        made: [u8; 16],
    },
    /// The store's bytes ended at this byte offset, before all that were asked for.
    StoreShort {
        at: u64,
    },
    /// A read of the store failed.
    StoreFault,
    /// The digest computed from a fragment of the store, `made`, is not `want`. Fragments are counted from 0.
    BadFragment {
        index: u32,
        want: [u8; 32],
        made: [u8; 32],
    },
    /// A document to be encoded has more than 256 distinct names.
    TooManyTags,
    /// The encoding of a document is larger than a file may be.
    TooLarge,
    /// The store's digests are right, but its bytes aren't the encoding of a document.
    BadIndex,
    /// A write of the output failed. A prefix of it was written.
    SinkFault,
    /// A watcher stopped the output before this line. Watchers are counted from 0.
    Stopped {
        watcher: u32,
        line: u64,
    },
}

/// The number of an outcome, which is the program's exit status.
pub fn status(outcome: &Outcome) -> u8
    ensures { result ≡ status_of outcome.now }
{
    match outcome {
        Outcome::Done => 0,
        Outcome::NoMemory => 1,
        Outcome::Usage => 2,
        Outcome::KeysFault => 3,
        Outcome::NoteFault => 4,
        Outcome::BadLine { .. } => 10,
        Outcome::Unsupported { .. } => 11,
        Outcome::Unbalanced { .. } => 12,
        Outcome::NoRoot => 13,
        Outcome::SecondRoot { .. } => 14,
        Outcome::TooDeep { .. } => 15,
        Outcome::NameTooLong { .. } => 16,
        Outcome::InputTooLong { .. } => 17,
        Outcome::SourceFault => 18,
        Outcome::TooManyAttributes { .. } => 19,
        Outcome::BadSeal { .. } => 20,
        Outcome::BadRule { .. } => 21,
        Outcome::BadLicence { .. } => 22,
        Outcome::TooManyRules => 23,
        Outcome::TooManyStates => 24,
        Outcome::BadKeys { .. } => 25,
        Outcome::BadQuery { .. } => 26,
        Outcome::BadHeader => 30,
        Outcome::WrongRoot { .. } => 31,
        Outcome::WrongKey { .. } => 32,
        Outcome::StoreShort { .. } => 33,
        Outcome::StoreFault => 34,
        Outcome::BadFragment { .. } => 35,
        Outcome::TooManyTags => 36,
        Outcome::TooLarge => 37,
        Outcome::BadIndex => 38,
        Outcome::SinkFault => 40,
        Outcome::Stopped { .. } => 41,
    }
}
