//! Reads a whole file: checks the header and the top digest against the root and the key, opens each fragment in order,
//! and decodes the stream.

ghost use Rattle.std.specs.Prelude.{◌≡◌, true, IfOk, OnOk, IfErr, MatchResult};
ghost use Rattle.acl_model.specs.Document.{is_document};
ghost use Rattle.acl_outside.specs.Outside.{NotFallen, Rose};
ghost use Rattle.fragment_open.specs.Checked.{AllFoldUnlessRefused};
ghost use Rattle.fragment_open.specs.CallReads.{Told};
ghost use Rattle.file_reading.specs.FileEnds.{FileEnds, IsGivenWhereShown, IsHonestFault, IsQuietFault, IsRefusedWhereShown, IsRefusedWithoutDocument, IsStoreFailure, OfHeldDocument, OpensInOrder, is_bad_fragment};

use crate::fault::FileFault;
use crate::stream::read_stream;
use acl_model::Doc;
use acl_outside::Store;
use fragment_open::begin;
use skip_decode::decode_all;
use std::alloc::Global;

/// Reads the document of a file under a root and a key. If the store holds the file of a document with this root, the
/// answer is this document, or an error of the store's failure or of missing memory. Whatever the store, a document
/// that is returned is the one with this root, unless there is a clash: a collision of two strings with one digest.
/// Whatever the root, it is the document whose stream the checked and deciphered fragments are.
///
/// The refusals are those of [`begin`], then those of the fragments from 0 on, and last `BadIndex`. The stream is read
/// into one allocation.
pub fn read_file<S: Store>(
    alloc: Global,
    store: &mut S,
    root: [u8; 32],
    key: [u8; 16],
) -> Result<Doc, FileFault>
    ensures told { Told (S.served store.old) (S.served store.new) (FileEnds result root key) }
    ensures document { IfOk result (λ doc. is_document doc ≡ true) }
    ensures exact { Told (S.served store.old) (S.served store.new)
        (λ reads. IsRefusedWhereShown result root key reads) }
    ensures shown_index { Told (S.served store.old) (S.served store.new)
        (λ reads. IsRefusedWithoutDocument result root key reads) }
    ensures decoded { Told (S.served store.old) (S.served store.new)
        (λ reads. IsGivenWhereShown result root key reads) }
    ensures checked { Told (S.served store.old) (S.served store.new)
        (λ reads. AllFoldUnlessRefused (is_bad_fragment result) reads) }
    ensures in_order { Told (S.served store.old) (S.served store.new) (OpensInOrder result) }
    ensures held { OfHeldDocument (S.holds store.old) root key (λ d. MatchResult result
        (λ doc. doc ≡ d)
        IsHonestFault) }
    ensures constant { S.holds store.new ≡ S.holds store.old }
    ensures cause { IsStoreFailure result → Rose (S.faults store.old) (S.faults store.new) }
    ensures never_falls { NotFallen (S.faults store.old) (S.faults store.new) }
    ensures quiet { OnOk result (S.faults store.new ≡ S.faults store.old) }
    ensures quiet_else { IfErr result
        (λ fault. IsQuietFault fault (S.faults store.old) (S.faults store.new)) }
{
    let head = begin(store, root, key)?;
    let header = *head.header();
    let stream = read_stream(alloc, store, head)?;
    Ok(decode_all(alloc, stream.as_slice(), &header)?)
}
