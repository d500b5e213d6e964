//! The header: 64 bytes before the fragments. `Header::read` takes the numbers from the bytes and writes them again.
//! Bytes that differ from what is written are refused, so each byte of a header is checked.

ghost use Rattle.std.specs.Prelude.{◌≡◌, ◌≢◌, ◌↔◌, IsTrue, IsErr, IfOk};
ghost use Rattle.merkle_chunks.specs.HeaderBytes.{IsInRange, header_bytes, fragment_count};
ghost use Rattle.merkle_chunks.specs.Table.{IsNode, node_place};
ghost use Rattle.merkle_chunks.specs.declared.header.Header.{Header};

use crate::counts::counts_at;
use crate::layout::{DIGEST_LEN, FRAGMENT_LEN, HEADER_LEN};
use acl_model::limits::{MOST_NAMES, MOST_OPEN_ELEMENTS, MOST_STREAM_BYTES};

/// The first bytes of each file.
const MAGIC: &[u8; 8] = b"SKIPIDX1";

/// The numbers of a file.
#[derive(Clone, Copy, Debug, PartialEq, Eq)]
pub struct Header {
    /// The number of bytes of the tree section.
    pub tree: u64,
    /// The number of bytes of the dictionary section.
    pub dictionary: u32,
    /// The number of names.
    pub tags: u16,
    /// The greatest number of open elements.
    pub depth: u16,
    /// The key check, by which a reader sees that its document key is the right one.
    pub check: [u8; 16],
}

/// The bytes are not a header.
#[derive(Clone, Copy, Debug, PartialEq, Eq)]
pub struct BadHeader;

impl Header {
    /// The bytes of the header.
    pub fn write(&self) -> [u8; 64]
        requires { IsInRange self.now }
        ensures { result ≡ header_bytes self.now }
    {
        let mut bytes = [0; 64];
        bytes[..8].copy_from_slice(MAGIC);
        bytes[8..16].copy_from_slice(&self.tree.to_be_bytes());
        bytes[16..20].copy_from_slice(&self.dictionary.to_be_bytes());
        bytes[20..22].copy_from_slice(&self.tags.to_be_bytes());
        bytes[22..24].copy_from_slice(&self.depth.to_be_bytes());
        bytes[24..40].copy_from_slice(&self.check);
        bytes
    }

    /// Reads a header. The answer is `BadHeader` exactly where the bytes are not a header.
    pub fn read(bytes: &[u8; 64]) -> Result<Header, BadHeader>
        ensures range { IfOk result (λ h. IsInRange h) }
        ensures bytes { IfOk result (λ h. header_bytes h ≡ bytes.now) }
        ensures bad { IsErr result → (h : Header) → IsInRange h → header_bytes h ≢ bytes.now }
    {
        let header = Header::at_its_places(bytes);
        if !header.is_in_range() || header.write() != *bytes {
            return Err(BadHeader);
        }
        Ok(header)
    }

    /// The number of fragments of 256 bytes, the last one filled with zeros.
    pub fn fragments(&self) -> u32
        requires { IsInRange self.now }
        ensures { result ≡ fragment_count self.now }
    {
        (self.tree + u64::from(self.dictionary)).div_ceil(FRAGMENT_LEN as u64) as u32
    }

    /// The byte offset of a node of the table in the file of so many fragments.
    pub fn node_place(fragments: u32, level: u32, index: u32) -> u64
        requires { IsNode fragments level index }
        ensures { result ≡ node_place fragments level index }
    {
        let before = counts_at(fragments, level).below + u64::from(index);
        HEADER_LEN as u64 + FRAGMENT_LEN as u64 * u64::from(fragments) + DIGEST_LEN as u64 * before
    }

    /// Whether the numbers are in their ranges.
    fn is_in_range(&self) -> bool
        ensures { IsTrue result ↔ IsInRange self.now }
    {
        self.tree >= 1
            && self.tags >= 1
            && usize::from(self.tags) <= MOST_NAMES
            && self.dictionary >= 2 + 2 * u32::from(self.tags)
            && self.depth >= 1
            && self.depth <= MOST_OPEN_ELEMENTS
            && self.tree <= MOST_STREAM_BYTES
            && self.tree + u64::from(self.dictionary) <= MOST_STREAM_BYTES
    }

    /// The numbers at the offsets of a header's fields. Where the bytes are a header, the result is that header.
    fn at_its_places(bytes: &[u8; 64]) -> Header
        ensures { (h : Header) → IsInRange h → header_bytes h ≡ bytes.now → result ≡ h }
    {
        let mut check = [0; 16];
        check.copy_from_slice(&bytes[24..40]);
        Header {
            tree: u64::from_be_bytes([
                bytes[8], bytes[9], bytes[10], bytes[11], bytes[12], bytes[13], bytes[14],
                bytes[15],
            ]),
            dictionary: u32::from_be_bytes([bytes[16], bytes[17], bytes[18], bytes[19]]),
            tags: u16::from_be_bytes([bytes[20], bytes[21]]),
            depth: u16::from_be_bytes([bytes[22], bytes[23]]),
            check,
        }
    }
}
