//! The two passes over a document. The first measures it, and the second writes its stream from the measures.

ghost use Rattle.std.specs.Prelude.{◌≡◌, ◌+◌, ◌*◌, ◌/◌, ◌<◌, ◌≤◌, ◌++◌, true, Err, IfOk, OnOk, length, vec_len};
ghost use Rattle.acl_model.specs.Document.{is_document};
ghost use Rattle.acl_model.specs.Dictionary.{dictionary};
ghost use Rattle.acl_model.specs.Stream.{plain};
ghost use Rattle.skip_encode.specs.inside.Measured.{IsMeasured};
ghost use Rattle.skip_encode.specs.PlainStream.{sections_size};
ghost use Rattle.skip_encode.specs.declared.fault.EncodeFault.TheVariants as fault;

use crate::fault::EncodeFault;
use crate::heads::{Parent, binary_length};
use crate::height::height;
use crate::locking::FRAGMENT;
use crate::measures::Measures;
use crate::measuring::measure_tree;
use crate::writing::write_element;
use acl_bits::Row;
use acl_model::{Bytes, Doc};
use std::alloc::{AllocError, Global};
use tag_dictionary::Dictionary;

/// The result of the first pass over a document whose stream isn't written yet.
#[derive(Debug, Drop)]
pub(crate) struct Measured {
    /// The length of its tree section in bytes.
    pub(crate) tree: u64,
    /// The length of its dictionary section in bytes.
    pub(crate) dictionary: u32,
    /// The number of its names.
    pub(crate) tags: u16,
    /// Its depth: the greatest number of elements nested in each other, the root included.
    pub(crate) depth: u16,
    /// Its names.
    names: Dictionary,
    /// Its dictionary section.
    section: Bytes,
    /// The measures of its elements.
    measures: Measures,
}

impl Measured {
    /// The first pass. Answers `TooManyTags` only where the document has more than 256 names. Answers `TooLarge` only
    /// where it has at most 256 names and its two sections together have more than 33,554,432 bytes.
    pub(crate) fn of(alloc: Global, doc: &Doc) -> Result<Measured, EncodeFault>
        requires { is_document doc.now ≡ true }
        ensures measured { IfOk result (λ m. IsMeasured doc.now m) }
        ensures too_many { result ≡ Err fault.TooManyTags → 256 < length (dictionary doc.now) }
        ensures few { result ≡ Err fault.TooLarge → length (dictionary doc.now) ≤ 256 }
        ensures too_large { result ≡ Err fault.TooLarge → 33554432 < sections_size doc.now }
    {
        let names = Dictionary::of_doc(alloc, doc)?;
        let section = names.bytes(alloc)?;
        let mut measures = Measures::new(alloc);
        let tree = measure_tree(&mut measures, &names, section.as_slice(), &doc.root)?;
        Ok(Measured {
            tree: u64::from(tree),
            dictionary: section.len() as u32,
            tags: names.names().len() as u16,
            depth: height(&doc.root),
            names,
            section,
            measures,
        })
    }

    /// The length of the stream in bytes, with the zeros at its end.
    pub(crate) fn stream_len(&self) -> usize
        requires { self.now.tree + self.now.dictionary ≤ 33554432 }
        ensures { result ≡ 256 * ((self.now.tree + self.now.dictionary + 255) / 256) }
    {
        (self.tree as usize + self.dictionary as usize).next_multiple_of(FRAGMENT)
    }

    /// The second pass: appends the stream to the buffer, which contains at most a header.
    pub(crate) fn write(mut self, doc: &Doc, bytes: &mut Vec<u8>) -> Result<(), AllocError>
        requires document { is_document doc.now ≡ true }
        requires measured { IsMeasured doc.now self }
        requires prefix { vec_len bytes.old ≤ 64 }
        ensures { OnOk result (bytes.new.items ≡ bytes.old.items ++ plain doc.now) }
    {
        let parent = Parent {
            members: Row::full(self.tags),
            width: binary_length(self.tree as u32),
        };
        let end = bytes.len() + self.stream_len();
        bytes.extend_from_slice(self.section.as_slice())?;
        write_element(bytes, &mut self.measures, &self.names, &parent, &doc.root)?;
        bytes.resize(end, 0)?;
        Ok(())
    }
}
