//! The meaning of one line by itself. Its first byte is its kind, and the rest is a name, a text or an attribute.

ghost use Rattle.std.specs.Prelude.{◌≡◌};
ghost use Rattle.std.specs.Char.{is_ascii_uppercase};
ghost use Rattle.std.specs.List.{after_first, before_first, list_all};
ghost use Rattle.acl_model.specs.Document.{is_type};
ghost use Rattle.acl_model.specs.Names.{continues_name, is_spelled_as_name};
ghost use Rattle.acl_model.specs.Values.{is_space};
ghost use Rattle.esis_lines.specs.LineForms.{is_unsupported_kind};
ghost use Rattle.esis_lines.specs.LineMachine.{line_of, with_name, with_attribute, fault_of_kind, says_closing};
ghost use Rattle.esis_lines.specs.inside.CodeValues.{line_or_fault, line_value};

use crate::doc_fault::DocFault;
use acl_model::limits::MOST_NAME_BYTES;
use acl_model::{cut, may_begin_name, may_continue_name};

/// The first bytes of lines that this profile doesn't support.
const UNSUPPORTED: &[u8] = b"&DaNEISTspf{}ieo";

/// A line that is not refused by itself.
#[derive(Clone, Copy)]
pub enum Line<'a> {
    /// An element of this name starts.
    Start(&'a [u8]),
    /// An element of this name ends.
    End(&'a [u8]),
    /// A text with these bytes.
    Text(&'a [u8]),
    /// An attribute of the next element that starts.
    Attribute(&'a [u8]),
    /// Nothing that belongs to a document.
    PassedBy,
    /// The end of the lines.
    Closing,
}

impl Line<'_> {
    /// Whether no line may follow this one.
    pub fn is_closing(&self) -> bool
        ensures { result ≡ says_closing (line_value self.now) }
    {
        matches!(self, Line::Closing)
    }
}

/// Whether each byte may be in a name after its first byte.
fn all_may_continue(bytes: &[u8]) -> bool
    ensures { result ≡ list_all continues_name bytes.now }
{
    bytes.iter().all(|byte| may_continue_name(*byte))
}

/// Whether the bytes have the form of a name, of any length.
fn is_spelled(bytes: &[u8]) -> bool
    ensures { result ≡ is_spelled_as_name bytes.now }
{
    match bytes {
        [] => false,
        [first, rest @ ..] => may_begin_name(*first) && all_may_continue(rest),
    }
}

/// What comes before and after the first space. Where there is none, all bytes come before it.
#[tactic(auto, using(crate::proofs::Spaces::space_laws))]
fn at_space(bytes: &[u8]) -> (&[u8], &[u8])
    ensures before { result.0.now ≡ before_first is_space bytes.now }
    ensures after { result.1.now ≡ after_first is_space bytes.now }
{
    match cut(bytes, b' ') {
        Some((before, after)) => (before, after),
        None => (bytes, &[]),
    }
}

/// Whether each byte is a capital letter.
fn all_are_capitals(bytes: &[u8]) -> bool
    ensures { result ≡ list_all is_ascii_uppercase bytes.now }
{
    bytes.iter().all(|byte| byte.is_ascii_uppercase())
}

/// Whether the bytes are the type of an attribute: one or more capital letters.
fn is_a_type(bytes: &[u8]) -> bool
    ensures { result ≡ is_type bytes.now }
{
    match bytes {
        [] => false,
        [_, ..] => all_are_capitals(bytes),
    }
}

/// The line, where its name is of the right form and has at most 255 bytes.
fn named<'a>(name: &[u8], number: u32, line: Line<'a>) -> Result<Line<'a>, DocFault>
    ensures { line_or_fault result ≡ with_name number name.now (line_value line.entry) }
{
    if !is_spelled(name) {
        return Err(DocFault::BadLine { line: number });
    }
    if name.len() > MOST_NAME_BYTES {
        return Err(DocFault::NameTooLong { line: number });
    }
    Ok(line)
}

/// An attribute: a name, a space, a type, and then nothing, or a space and a value.
fn attribute(raw: &[u8], number: u32) -> Result<Line<'_>, DocFault>
    ensures { line_or_fault result ≡ with_attribute number raw.now }
{
    let (name, after) = at_space(raw);
    let (kind, _value) = at_space(after);
    if !is_a_type(kind) {
        return Err(DocFault::BadLine { line: number });
    }
    named(name, number, Line::Attribute(raw))
}

/// Whether lines that begin with this byte are refused as unsupported.
#[tactic(auto, unfolding(crate::specs::LineForms::is_unsupported_kind))]
fn is_unsupported(kind: u8) -> bool
    ensures { result ≡ is_unsupported_kind kind }
{
    UNSUPPORTED.contains(&kind)
}

/// The fault of a line whose first byte is none of those that are read.
fn fault_of_kind(kind: u8, number: u32) -> DocFault
    ensures { result ≡ fault_of_kind number kind }
{
    if is_unsupported(kind) {
        return DocFault::Unsupported { line: number, kind };
    }
    DocFault::BadLine { line: number }
}

/// Reads the line with this number, given without its line feed.
pub fn classify(line: &[u8], number: u32) -> Result<Line<'_>, DocFault>
    ensures { line_or_fault result ≡ line_of number line.now }
{
    match line {
        [b'-', text @ ..] => Ok(Line::Text(text)),
        [b'(', name @ ..] => named(name, number, Line::Start(name)),
        [b')', name @ ..] => named(name, number, Line::End(name)),
        [b'A', raw @ ..] => attribute(raw, number),
        [b'?' | b'L' | b'#', ..] => Ok(Line::PassedBy),
        [b'C'] => Ok(Line::Closing),
        [b'C', ..] => Err(DocFault::BadLine { line: number }),
        [kind, ..] => Err(fault_of_kind(*kind, number)),
        [] => Err(DocFault::BadLine { line: number }),
    }
}
