//! The plain stream of a document: its dictionary section, its tree section and zeros.

ghost use Rattle.std.specs.Prelude.{◌≡◌, ◌<◌, ◌≤◌, true, Err, IfOk, length};
ghost use Rattle.acl_model.specs.Document.{is_document};
ghost use Rattle.acl_model.specs.Dictionary.{dictionary};
ghost use Rattle.skip_encode.specs.PlainStream.{IsPlainOf, sections_size};
ghost use Rattle.skip_encode.specs.declared.fault.EncodeFault.TheVariants as fault;

use crate::fault::EncodeFault;
use crate::measured::Measured;
use crate::plain::Plain;
use acl_model::{Bytes, Doc};
use std::alloc::Global;

/// Returns the plain stream of a document, and the numbers of its header. Answers `TooManyTags` only where the document
/// has more than 256 names. Answers `TooLarge` only where it has at most 256 names and its two sections together have
/// more than 33,554,432 bytes.
pub fn plain_stream(alloc: Global, doc: &Doc) -> Result<Plain, EncodeFault>
    requires { is_document doc.now ≡ true }
    ensures stream { IfOk result (λ p. IsPlainOf doc.now p) }
    ensures too_many { result ≡ Err fault.TooManyTags → 256 < length (dictionary doc.now) }
    ensures few { result ≡ Err fault.TooLarge → length (dictionary doc.now) ≤ 256 }
    ensures too_large { result ≡ Err fault.TooLarge → 33554432 < sections_size doc.now }
{
    let measured = Measured::of(alloc, doc)?;
    let mut bytes = Vec::with_capacity(alloc, measured.stream_len())?;
    let Measured {
        tree,
        dictionary,
        tags,
        depth,
        ..
    } = measured;
    measured.write(doc, &mut bytes)?;
    Ok(Plain {
        bytes: Bytes::from_vec(bytes),
        tree,
        dictionary,
        tags,
        depth,
    })
}
