//! What an opener knows of a file before it opens a fragment: the header and the top digest, checked against the root
//! and the key.
ghost use Rattle.std.specs.Prelude.{◌≡◌, ◌≢◌, ◌≤◌, ℕ, List, None, IfOk, IsErrOf, MatchResult, OnOk, IfErr};
ghost use Rattle.sha2.specs.Sha256.{sha256};
ghost use Rattle.acl_model.specs.declared.document.Doc.{Doc};
ghost use Rattle.acl_outside.specs.Outside.{NotFallen, Rose};
ghost use Rattle.merkle_chunks.specs.HeaderBytes.{IsInRange, fragment_count, header_bytes};
ghost use Rattle.aes_block.specs.Aes.{AreBytes};
ghost use Rattle.merkle_chunks.specs.File.{document_header, file_root, key_check};
ghost use Rattle.merkle_chunks.specs.Strings.{root_string};
ghost use Rattle.merkle_chunks.specs.Table.{top_level};
ghost use Rattle.merkle_chunks.specs.Table.{top_level as top_level_of};
ghost use Rattle.fragment_open.specs.CallReads.{Told};
ghost use Rattle.fragment_open.specs.Held.{GivesOrFails, HoldsFile, IsQuietElse, IsStoreFault, digest_held};
ghost use Rattle.fragment_open.specs.Settled.{AreHeld, Settled};
ghost use Rattle.fragment_open.specs.Starting.{HoldsDocument, IsHead, IsHeadFault, IsHeadOf, IsHeaderRead, IsNoHeader, IsNoTop, IsNotStarted, IsStarted, IsTopRead, IsUnder};

use crate::reading::read_whole;
use acl_outside::{ReadFault, Store};
use aes_block::Key128;
use merkle_chunks::{Header, key_check, root_of, top_level};

/// Reads the header.
fn read_header<S: Store>(store: &mut S) -> Result<Header, ReadFault>
    ensures told { Told (S.served store.old) (S.served store.new) (λ reads. MatchResult result
        (λ header. IsHeaderRead header reads)
        (λ fault. IsNoHeader fault reads)) }
    ensures held { (d : Doc) (key : List ℕ) → HoldsDocument (S.holds store.old) d key
        → GivesOrFails result (λ header. header) (document_header d key) }
    ensures range { IfOk result (λ header. IsInRange header) }
    ensures constant { S.holds store.new ≡ S.holds store.old }
    ensures cause { IsErrOf result ReadFault.StoreFault
        → Rose (S.faults store.old) (S.faults store.new) }
    ensures never_falls { NotFallen (S.faults store.old) (S.faults store.new) }
    ensures quiet { OnOk result (S.faults store.new ≡ S.faults store.old) }
    ensures quiet_else { IfErr result (λ fault.
        IsQuietElse fault (S.faults store.old) (S.faults store.new)) }
{
    let mut bytes = [0; 64];
    read_whole(store, 0, &mut bytes)?;
    match Header::read(&bytes) {
        Ok(header) => Ok(header),
        Err(_) => Err(ReadFault::BadHeader),
    }
}

/// Reads the top digest over so many fragments.
fn read_top<S: Store>(store: &mut S, fragments: u32) -> Result<[u8; 32], ReadFault>
    requires some { 1 ≤ fragments }
    requires few { fragments ≤ 131072 }
    ensures told { Told (S.served store.old) (S.served store.new) (λ reads. MatchResult result
        (λ top. IsTopRead fragments top reads)
        (λ fault. IsNoTop fragments fault reads)) }
    ensures held { (d : Doc) (key : List ℕ) → HoldsFile (S.holds store.old) fragments d key
        → GivesOrFails result (λ top. top) (digest_held d key (top_level fragments) 0) }
    ensures constant { S.holds store.new ≡ S.holds store.old }
    ensures cause { IsErrOf result ReadFault.StoreFault
        → Rose (S.faults store.old) (S.faults store.new) }
    ensures never_falls { NotFallen (S.faults store.old) (S.faults store.new) }
    ensures quiet { OnOk result (S.faults store.new ≡ S.faults store.old) }
    ensures quiet_else { IfErr result (λ fault.
        IsQuietElse fault (S.faults store.old) (S.faults store.new)) }
{
    let mut top = [0; 32];
    read_whole(
        store,
        Header::node_place(fragments, top_level(fragments), 0),
        &mut top,
    )?;
    Ok(top)
}

/// The header and the top digest of a store, checked against the root and the key.
#[derive(Drop)]
pub struct Head {
    pub(crate) header: Header,
    pub(crate) fragments: u32,
    pub(crate) top_level: u32,
    pub(crate) top: [u8; 32],
    pub(crate) key: Key128,
    ghost range: { IsInRange header },
    ghost count: { fragments ≡ fragment_count header },
    ghost levels: { top_level ≡ top_level_of fragments },
    ghost right_key: { key_check key ≡ header.check },
    ghost key_bytes: { AreBytes 16 key },
}

impl Head {
    /// Checks a header and a top digest that were read. The answer is `WrongRoot` where they don't have the root, and
    /// else `WrongKey` where the key has another check than the header.
    fn checked(
        header: Header,
        top: [u8; 32],
        root: [u8; 32],
        key: [u8; 16],
    ) -> Result<Head, ReadFault>
        requires { IsInRange header }
        ensures { let made = sha256 (root_string (header_bytes header) top) in MatchResult result
            (λ head. IsHead root key header top head.header head.top head.key made)
            (λ fault. IsHeadFault root key header.check made fault) }
    {
        let made = root_of(&header.write(), &top);
        if made != root {
            return Err(ReadFault::WrongRoot { want: root, made });
        }
        let check = key_check(&key);
        if header.check != check {
            return Err(ReadFault::WrongKey {
                want: header.check,
                made: check,
            });
        }
        let fragments = header.fragments();
        Ok(Head {
            header,
            fragments,
            top_level: top_level(fragments),
            top,
            key: Key128::new(key),
        })
    }

    /// The header.
    pub fn header(&self) -> &Header
        ensures { result.now ≡ self.now.header }
    {
        &self.header
    }
}

/// Starts on a store: reads the header and the top digest, and checks the root and then the key. Each of the two reads
/// may end in `StoreFault` or `StoreShort`. `BadHeader` is found after the first read, and `WrongRoot` and then
/// `WrongKey` after the second.
pub fn begin<S: Store>(store: &mut S, root: [u8; 32], key: [u8; 16]) -> Result<Head, ReadFault>
    ensures told { Told (S.served store.old) (S.served store.new) (λ reads. MatchResult result
        (λ head. IsStarted head.header head.top reads)
        (λ fault. IsNotStarted root key fault reads)) }
    ensures right { IfOk result (λ head. IsUnder root key head.header head.top head.key) }
    ensures held { (d : Doc) → HoldsDocument (S.holds store.old) d key → file_root d key ≡ root
        → MatchResult result
        (λ head. IsHeadOf d key head.header head.top)
        (λ fault. IsStoreFault fault) }

    ensures settled { IfOk result (λ head.
        Settled (S.served store.new) head.header head.top None None) }
    ensures settled_held { IfOk result (λ head.
        AreHeld (S.holds store.new) head.header head.top head.key None) }

    ensures constant { S.holds store.new ≡ S.holds store.old }
    ensures cause { IsErrOf result ReadFault.StoreFault
        → Rose (S.faults store.old) (S.faults store.new) }
    ensures never_falls { NotFallen (S.faults store.old) (S.faults store.new) }
    ensures quiet { OnOk result (S.faults store.new ≡ S.faults store.old) }
    ensures quiet_else { IfErr result (λ fault.
        IsQuietElse fault (S.faults store.old) (S.faults store.new)) }
{
    let header = read_header(store)?;
    let top = read_top(store, header.fragments())?;
    Head::checked(header, top, root, key)
}
