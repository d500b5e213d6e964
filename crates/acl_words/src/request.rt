//! What a command line asks for.

/// What is shown of a document.
#[derive(Clone, Copy)]
pub enum Shown<'a> {
    /// The authorised view.
    View,
    /// The answer to the query with these bytes.
    Answer(&'a [u8]),
    /// Which rule decides at each element that a rule selects.
    Explanation,
}

/// A command, with its options.
#[derive(Clone, Copy)]
pub enum Request<'a> {
    /// `preview RULES [--query P] [--explain]`: shows the document on standard input in this form, under the rules of
    /// the file RULES.
    Preview(Shown<'a>),
    /// `encode KEYS`: encrypts the document on standard input under the keys of the file KEYS.
    Encode,
    /// `seal KEYS`: seals the licence body on standard input with the keys of the file KEYS.
    Seal,
    /// `view KEYS STORE [--query P]` and `explain KEYS STORE`: shows the encrypted document in the file STORE in this
    /// form, under the keys of the file KEYS and the sealed licence on standard input.
    View(Shown<'a>),
    /// `sample N`: writes the sample document with N folders.
    Sample(u32),
}
