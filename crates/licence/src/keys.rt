//! Reads keys: two lines, the document key and the seal key.

ghost use Rattle.std.specs.Prelude.{◌≡◌, Ok, Err, MatchResult, IfOk};
ghost use Rattle.acl_model.specs.Lines.{lines};
ghost use Rattle.licence.specs.Forms.{bytes_after, line_of_form};
ghost use Rattle.licence.specs.Keys.{document_word, seal_key_word, SaysKeys, read_keys_of, ReadsKeys};
ghost use Rattle.licence.specs.declared.keys.KeysError.TheVariants.{BadKeys};

use crate::forms::{read_16_bytes, read_32_bytes};
use acl_model::next_line;
use std::alloc::Global;
use thiserror::Error;

/// The keys of a publisher or a reader. The type has no `Debug`, so that no key is printed by accident.
#[derive(Clone, Copy)]
pub struct Keys {
    /// The key under which documents are enciphered.
    pub document: [u8; 16],
    /// The key under which licences are sealed.
    pub seal: [u8; 32],
}

/// Why bytes are no keys.
#[derive(Debug, Drop, Error)]
pub enum KeysError {
    /// The line is missing, is not of its form, or comes after the second. Lines are counted from 1.
    #[error("line {line} is missing, or it is not of its form")]
    BadKeys { line: u32 },
    /// Out of memory.
    #[error("no memory")]
    NoMemory,
}

/// Reads the first line. The answer is the document key, and the bytes after the line.
fn read_document_line(bytes: &[u8]) -> Result<([u8; 16], &[u8]), KeysError>
    ensures { MatchResult result
        (λ read. line_of_form (BadKeys 1) (bytes_after document_word 16) (lines bytes.now)
        ≡ Ok (read.0, lines read.1.now))
        (λ error. line_of_form (BadKeys 1) (bytes_after document_word 16) (lines bytes.now)
        ≡ Err error) }
{
    let Some((line, rest)) = next_line(bytes) else {
        return Err(KeysError::BadKeys { line: 1 });
    };
    match read_16_bytes(b"document ", line) {
        Some(document) => Ok((document, rest)),
        None => Err(KeysError::BadKeys { line: 1 }),
    }
}

/// Reads the second line. The answer is the seal key, and the bytes after the line.
fn read_seal_key_line(bytes: &[u8]) -> Result<([u8; 32], &[u8]), KeysError>
    ensures { MatchResult result
        (λ read. line_of_form (BadKeys 2) (bytes_after seal_key_word 32) (lines bytes.now)
        ≡ Ok (read.0, lines read.1.now))
        (λ error. line_of_form (BadKeys 2) (bytes_after seal_key_word 32) (lines bytes.now)
        ≡ Err error) }
{
    let Some((line, rest)) = next_line(bytes) else {
        return Err(KeysError::BadKeys { line: 2 });
    };
    match read_32_bytes(b"seal ", line) {
        Some(seal) => Ok((seal, rest)),
        None => Err(KeysError::BadKeys { line: 2 }),
    }
}

/// Reads keys. It allocates nothing. The allocator is a parameter because all readers have it.
pub fn read_keys(_alloc: Global, bytes: &[u8]) -> Result<Keys, KeysError>
    ensures exact { ReadsKeys (read_keys_of bytes.now) result }
    ensures said { IfOk result (λ keys. SaysKeys bytes.now keys) }
{
    let (document, rest) = read_document_line(bytes)?;
    let (seal, rest) = read_seal_key_line(rest)?;
    match next_line(rest) {
        None => Ok(Keys { document, seal }),
        Some(_) => Err(KeysError::BadKeys { line: 3 }),
    }
}
