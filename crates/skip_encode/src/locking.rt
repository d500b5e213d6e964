//! Enciphers a stream in place in its file, and writes the table of digests after it.

ghost use Rattle.std.specs.Prelude.{◌≡◌, ◌+◌, ◌*◌, ◌/◌, ◌%◌, ◌≤◌, ◌++◌, length, take, drop};
ghost use Rattle.sha2.specs.Sha256.{sha256};
ghost use Rattle.aes_block.specs.Aes.{AreBytes};
ghost use Rattle.position_cipher.specs.Fragments.{locked_fragment};
ghost use Rattle.merkle_chunks.specs.Table.{digest_count, fragments, table_bytes, table_levels, top_digest};
ghost use Rattle.skip_encode.specs.EncodedFile.{locked_stream};

use aes_block::Key128;
use merkle_chunks::{Digest, write_table};
use position_cipher::lock_fragment;

/// The size of a file's header in bytes.
pub(crate) const HEADER: usize = 64;

/// The size of a fragment in bytes.
pub(crate) const FRAGMENT: usize = 256;

/// Enciphers the stream after a file's header, and writes the table of digests into the room after the stream. Returns
/// the top digest.
pub(crate) fn lock_file(key: &Key128, file: &mut [u8], stream_len: usize) -> Digest
    requires key { AreBytes 16 key.now }
    requires whole { stream_len % 256 ≡ 0 }
    requires some { 256 ≤ stream_len }
    requires few { stream_len ≤ 33554432 }
    requires room { length file.old ≡ 64 + (stream_len + 32 * digest_count (stream_len / 256)) }
    ensures file { let cipher = locked_stream key.now (take stream_len (drop 64 file.old)) in
        file.new ≡ take 64 file.old
        ++ (cipher ++ table_bytes (table_levels sha256 (fragments cipher))) }
    ensures top { let cipher = locked_stream key.now (take stream_len (drop 64 file.old)) in
        result ≡ top_digest sha256 (fragments cipher) }
{
    let (prefix, table) = file.split_at_mut(HEADER + stream_len);
    let (_, stream) = prefix.split_at_mut(HEADER);
    lock_fragments(key, stream);
    write_table(stream, table)
}

/// Enciphers a stream, fragment after fragment.
fn lock_fragments(key: &Key128, stream: &mut [u8])
    requires key { AreBytes 16 key.now }
    requires whole { length stream.old % 256 ≡ 0 }
    requires few { length stream.old ≤ 33554432 }
    ensures { stream.new ≡ locked_stream key.now stream.old }
{
    for index in 0..stream.len() / FRAGMENT {
        let at = FRAGMENT * index;
        lock_piece(key, index as u32, &mut stream[at..at + FRAGMENT]);
    }
}

/// Enciphers the fragment at an index of the stream.
fn lock_piece(key: &Key128, index: u32, piece: &mut [u8])
    requires { length piece.old ≡ 256 }
    ensures { piece.new ≡ locked_fragment key.now index piece.old }
{
    lock_fragment(key, index, piece.as_mut_array().unwrap());
}
