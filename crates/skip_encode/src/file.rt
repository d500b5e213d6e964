//! The encrypted file of a document: its header, its enciphered stream and the table of digests.

ghost use Rattle.std.specs.Prelude.{◌≡◌, ◌<◌, ◌≤◌, true, Err, IfOk, length};
ghost use Rattle.acl_model.specs.Document.{is_document};
ghost use Rattle.acl_model.specs.Dictionary.{dictionary};
ghost use Rattle.skip_encode.specs.EncodedFile.{IsFileOf};
ghost use Rattle.skip_encode.specs.PlainStream.{sections_size};
ghost use Rattle.skip_encode.specs.declared.fault.EncodeFault.TheVariants as fault;

use crate::encoded::Encoded;
use crate::fault::EncodeFault;
use crate::locking::{FRAGMENT, HEADER, lock_file};
use crate::measured::Measured;
use acl_model::{Bytes, Doc};
use aes_block::Key128;
use merkle_chunks::{Header, key_check, root_of, table_len};
use std::alloc::Global;

/// Returns the file of a document under a key, and its root. Answers `TooManyTags` only where the document has more
/// than 256 names. Answers `TooLarge` only where it has at most 256 names and its two sections together have more than
/// 33,554,432 bytes.
///
/// The file is one allocation of its size, in addition to what measuring keeps. The stream is written after the header
/// and enciphered in place. Each fragment is hashed once, into the table after the stream.
pub fn encode_file(alloc: Global, doc: &Doc, key: [u8; 16]) -> Result<Encoded, EncodeFault>
    requires { is_document doc.now ≡ true }
    ensures file { IfOk result (λ e. IsFileOf doc.now key e) }
    ensures too_many { result ≡ Err fault.TooManyTags → 256 < length (dictionary doc.now) }
    ensures few { result ≡ Err fault.TooLarge → length (dictionary doc.now) ≤ 256 }
    ensures too_large { result ≡ Err fault.TooLarge → 33554432 < sections_size doc.now }
{
    let measured = Measured::of(alloc, doc)?;
    let header = Header {
        tree: measured.tree,
        dictionary: measured.dictionary,
        tags: measured.tags,
        depth: measured.depth,
        check: key_check(&key),
    };
    let prefix = header.write();
    let stream = measured.stream_len();
    let end = HEADER + stream + table_len((stream / FRAGMENT) as u32);
    let mut bytes = Vec::with_capacity(alloc, end)?;
    bytes.extend_from_slice(&prefix)?;
    measured.write(doc, &mut bytes)?;
    bytes.resize(end, 0)?;
    let top = lock_file(&Key128::new(key), &mut bytes, stream);
    Ok(Encoded {
        bytes: Bytes::from_vec(bytes),
        root: root_of(&prefix, &top),
    })
}
