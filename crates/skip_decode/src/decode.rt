//! The inverse of `plain_stream`. The steps of the walk read the bytes, and the events build a document. The steps take
//! only what the encoder writes for some tree. So it is enough to test the fill, and the form, the dictionary and the
//! depth of the document.

ghost use Rattle.std.specs.Prelude.{◌≡◌, ◌↔◌, ◌≤◌, ◌%◌, Err, IfOk, IsTrue, length, nat_eq};
ghost use Rattle.std.specs.List.{list_all};
ghost use Rattle.acl_model.specs.Limits.{most_names};
ghost use Rattle.acl_model.specs.declared.document.Doc.{Doc};
ghost use Rattle.skip_decode.specs.StreamOf.{IsStreamOf};
ghost use Rattle.skip_decode.specs.inside.Reading.{IsFilled, IsFormed, IsOfDictionary};

use crate::height::has_levels;
use crate::position::Numbers;
use crate::reading::read_events;
use crate::window::FRAGMENT;
use acl_model::limits::{MOST_NAMES, MOST_OPEN_ELEMENTS, MOST_STREAM_BYTES};
use acl_model::{Doc, Name, is_document};
use merkle_chunks::Header;
use std::alloc::{AllocError, Global};
use tag_dictionary::{DictFault, Dictionary, TagFault};

/// Returns the document of a plain stream and the numbers of its header. The answer is `BadIndex` only where no
/// document has this stream and these numbers.
pub fn decode_all(alloc: Global, plain: &[u8], header: &Header) -> Result<Doc, DictFault>
    ensures document { IfOk result (λ d. IsStreamOf d plain.now header.now) }
    ensures bad { result ≡ Err DictFault.BadIndex
        → (d : Doc) → ¬ IsStreamOf d plain.now header.now }
{
    if !is_formed(plain, header) {
        return Err(DictFault::BadIndex);
    }
    let names = Dictionary::read(alloc, &plain[..header.dictionary as usize])?;
    if names.names().len() != usize::from(header.tags) {
        return Err(DictFault::BadIndex);
    }
    let numbers = Numbers {
        dictionary: header.dictionary,
        tree: header.tree as u32,
        names: header.tags,
        depth: header.depth,
    };
    let doc = read_events(alloc, &names, &numbers, plain)?;
    if !is_of_dictionary(alloc, &doc, &names, header.depth)? {
        return Err(DictFault::BadIndex);
    }
    Ok(doc)
}

/// Whether the bytes and the header may be those of a document.
fn is_formed(plain: &[u8], header: &Header) -> bool
    ensures { IsTrue result ↔ IsFormed plain.now header.now }
{
    let long = plain.len() as u64;
    long % u64::from(FRAGMENT) == 0
        && long <= MOST_STREAM_BYTES
        && usize::from(header.tags) <= MOST_NAMES
        && header.depth <= MOST_OPEN_ELEMENTS
        && header.tree <= long
        && u64::from(header.dictionary) + header.tree <= long
        && is_filled(plain, (u64::from(header.dictionary) + header.tree) as usize)
}

/// Whether the bytes after the first `count` are the zeros that fill the last fragment.
fn is_filled(plain: &[u8], count: usize) -> bool
    requires whole { length plain.now % 256 ≡ 0 }
    requires within { count ≤ length plain.now }
    ensures { IsTrue result ↔ IsFilled plain.now count }
{
    let fill = &plain[count..];
    fill.len() < FRAGMENT as usize && are_zero(fill)
}

/// Whether all of the bytes are zero.
fn are_zero(bytes: &[u8]) -> bool
    ensures { result ≡ list_all (λ b. nat_eq b 0) bytes.now }
{
    bytes.iter().all(|byte| *byte == 0)
}

/// Whether a document is valid, has this dictionary, and has at least so many levels. The steps let it have no more.
fn is_of_dictionary(
    alloc: Global,
    doc: &Doc,
    names: &Dictionary,
    levels: u16,
) -> Result<bool, AllocError>
    requires few { length names.now ≤ most_names }
    ensures { IfOk result (λ of. IsTrue of ↔ IsOfDictionary doc.now names.now levels) }
{
    if !is_document(doc) || !has_levels(&doc.root, levels) {
        return Ok(false);
    }
    match Dictionary::of_doc(alloc, doc) {
        Ok(own) => Ok(are_same(own.names(), names.names())),
        Err(TagFault::TooManyTags) => Ok(false),
        Err(TagFault::NoMemory) => Err(AllocError),
    }
}

/// Whether the two lists have the same names in the same order.
fn are_same(some: &[Name], others: &[Name]) -> bool
    ensures { IsTrue result ↔ (some.now ≡ others.now) }
{
    if some.len() != others.len() {
        return false;
    }
    for index in 0..some.len() {
        if some[index].as_slice() != others[index].as_slice() {
            return false;
        }
    }
    true
}
