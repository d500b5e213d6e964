//! The start of a walk over a file: its dictionary section is read through the window that the walk goes on with.

ghost use Rattle.std.specs.Prelude.{◌≡◌, ◌≢◌, ℕ, ◌*◌, ◌<◌, ◌≤◌, ◌++◌, true, None, List, length, take, drop, IfOk, IsErrOf, OnOk};
ghost use Rattle.acl_model.specs.Dictionary.{dictionary_section, is_dictionary};
ghost use Rattle.acl_walk.specs.Listed.{AreNames};
ghost use Rattle.skip_decode.specs.CheckedStream.{Fetched, MayBe, OpenedNone, opened_since, store_moment};
ghost use Rattle.skip_decode.specs.Fragments.{FitsNone, ForEach, Leads, Narrows};
ghost use Rattle.skip_decode.specs.Starting.{AreNamesOfOrigins, IsOfNoOrigin, OpensNext, OpensSection, RefusesFront, RefusesStart, fragments_of};
ghost use Rattle.skip_decode.specs.StoreWent.{AreGood};
ghost use Rattle.skip_decode.specs.inside.Windows.{IsHeld, IsHeld-prop, IsNewest};

use crate::checked::Checked;
use crate::fragments::Fragments;
use crate::start_fault::StartFault;
use crate::window::{FRAGMENT, Window};
use acl_outside::{NoMemory, ReadFault, Store};
use fragment_open::Opener;
use std::alloc::Global;
use tag_dictionary::{DictFault, Dictionary};

/// Fetches the fragment at an index, and appends the first of its bytes.
fn append<F: Fragments>(
    window: &mut Window<F>,
    bytes: &mut Vec<u8>,
    index: u32,
    long: u32,
) -> Result<(), StartFault>
    requires few { long ≤ 256 }
    requires within { index < F.count window.old.source }
    ensures same_count { F.count window.new.source ≡ F.count window.old.source }
    ensures refuses { RefusesFront result (F.refused window.old.source) (F.refused window.new.source) }
    ensures held { IsHeld (F.may_be window.new.source) window.new.held window.new.at }
    ensures narrows { Narrows (F.may_be window.old.source) (F.may_be window.new.source) }
    ensures went { Leads F.went window.old.source window.new.source }
    ensures index { IsErrOf result (StartFault.Read ReadFault.BadIndex)
        → FitsNone (F.may_be window.new.source) }
    ensures opens { OpensNext result index (F.opened window.old.source) (F.opened window.new.source) }
    ensures newest { OnOk result (IsNewest window.new.at (F.opened window.new.source)) }
    ensures bytes { OnOk result (ForEach (F.may_be window.new.source) (λ stream.
        bytes.new.items ≡ bytes.old.items ++ take long (drop (256 * index) stream))) }
{
    window.at = None;
    window.source.fetch(index, &mut window.held)?;
    window.at = Some(index);
    bytes.extend_from_slice(&window.held[..long as usize])?;
    Ok(())
}

/// The first `count` bytes of the stream. Their memory is taken once.
fn front<F: Fragments>(
    window: &mut Window<F>,
    alloc: Global,
    count: u32,
) -> Result<Vec<u8>, StartFault>
    requires within { count ≤ 256 * F.count window.old.source }
    requires held { IsHeld (F.may_be window.old.source) window.old.held window.old.at }
    ensures same_count { F.count window.new.source ≡ F.count window.old.source }
    ensures refuses { RefusesFront result (F.refused window.old.source) (F.refused window.new.source) }
    ensures held { IsHeld (F.may_be window.new.source) window.new.held window.new.at }
    ensures narrows { Narrows (F.may_be window.old.source) (F.may_be window.new.source) }
    ensures went { Leads F.went window.old.source window.new.source }
    ensures index { IsErrOf result (StartFault.Read ReadFault.BadIndex)
        → FitsNone (F.may_be window.new.source) }
    ensures opens { OpensSection result (fragments_of count)
        (F.opened window.old.source) (F.opened window.new.source) }
    ensures newest { 0 < count
        → OnOk result (IsNewest window.new.at (F.opened window.new.source)) }
    ensures bytes { IfOk result (λ bytes. ForEach (F.may_be window.new.source) (λ stream.
        bytes.items ≡ take count stream)) }
{
    let whole = count / FRAGMENT;
    let mut bytes = Vec::with_capacity(alloc, count as usize)?;
    for index in 0..whole {
        append(window, &mut bytes, index, FRAGMENT)?;
    }
    if count % FRAGMENT == 0 {
        return Ok(bytes);
    }
    append(window, &mut bytes, whole, count % FRAGMENT)?;
    Ok(bytes)
}

/// The dictionary with these bytes, if it has so many names.
fn names_of(alloc: Global, bytes: &[u8], count: u16) -> Result<Dictionary, DictFault>
    ensures formed { IfOk result (λ names. is_dictionary names ≡ true) }
    ensures counted { IfOk result (λ names. length names ≡ count) }
    ensures bytes { IfOk result (λ names. dictionary_section names ≡ bytes.now) }
    ensures bad { IsErrOf result DictFault.BadIndex → (names : List (List ℕ))
        → is_dictionary names ≡ true → length names ≡ count → dictionary_section names ≢ bytes.now }
{
    let names = Dictionary::read(alloc, bytes)?;
    if names.names().len() != usize::from(count) {
        return Err(DictFault::BadIndex);
    }
    Ok(names)
}

/// An opener of a file whose names were not read yet.
#[derive(Drop)]
pub struct SkipStart<'a, S: Store> {
    pub(crate) window: Window<Checked<'a, S>>,
    ghost held: { IsHeld (MayBe (S.served window.source.opener.store.now)
        (S.holds window.source.opener.store.now) window.source.opener.head) window.held window.at } by { IsHeld-prop (MayBe (S.served window.source.opener.store.now)
            (S.holds window.source.opener.store.now) window.source.opener.head) window.held window.at },
}

impl<'a, S: Store> SkipStart<'a, S> {
    /// The start of a walk over the file of an opener that has refused nothing and opened no fragment. This takes the
    /// memory for the set of the fragments that the walk opens.
    pub fn over(alloc: Global, opener: Opener<'a, S>) -> Result<SkipStart<'a, S>, NoMemory>
        requires quiet { opener.fault ≡ None }
        requires unopened { OpenedNone (S.served opener.store.now) }
        ensures opener { IfOk result (λ start. start.window.source.opener ≡ opener.entry) }
        ensures good { AreGood (store_moment (S.served opener.entry.store.now)
            (S.holds opener.entry.store.now) (S.faults opener.entry.store.now) opener.entry.fault) }
    {
        let checked = Checked::over(alloc, opener)?;
        Ok(SkipStart {
            window: Window::over(checked),
        })
    }

    /// Reads the names of the dictionary section. Only its fragments are opened, in ascending order. `BadIndex` comes
    /// only where the section is that of no dictionary with the header's number of names; all other refusals are those
    /// of [`Opener::fetch`].
    pub fn read_names(&mut self, alloc: Global) -> Result<Dictionary, StartFault>
        ensures same_store { self.new.window.source.opener.store.ghost_name
            ≡ self.old.window.source.opener.store.ghost_name }
        ensures went { Fetched self.old.window.source.opener.head self.new.window.source.opener.head
            (store_moment (S.served self.old.window.source.opener.store.now)
            (S.holds self.old.window.source.opener.store.now)
            (S.faults self.old.window.source.opener.store.now) self.old.window.source.opener.fault)
            (store_moment (S.served self.new.window.source.opener.store.now)
            (S.holds self.new.window.source.opener.store.now)
            (S.faults self.new.window.source.opener.store.now) self.new.window.source.opener.fault) }
        ensures refuses { RefusesStart result
            self.old.window.source.opener.fault self.new.window.source.opener.fault }
        ensures opens { OpensSection result
            (fragments_of self.old.window.source.opener.head.header.dictionary)
            (opened_since (S.served self.old.window.source.opener.store.now))
            (opened_since (S.served self.new.window.source.opener.store.now)) }
        ensures newest { OnOk result (IsNewest self.new.window.at
            (opened_since (S.served self.new.window.source.opener.store.now))) }
        ensures named { IfOk result (λ names. AreNames names) }
        ensures counted { IfOk result (λ names.
            length names ≡ self.old.window.source.opener.head.header.tags) }
        ensures names { IfOk result (AreNamesOfOrigins self.new.window.source.opener.head
            (S.served self.new.window.source.opener.store.now)
            (S.holds self.new.window.source.opener.store.now)) }
        ensures bad { IsErrOf result (StartFault.Read ReadFault.BadIndex)
            → IsOfNoOrigin self.new.window.source.opener.head
            (S.served self.new.window.source.opener.store.now)
            (S.holds self.new.window.source.opener.store.now) }
    {
        let header = *self.window.source.opener.header();
        let section = front(&mut self.window, alloc, header.dictionary)?;
        Ok(names_of(alloc, section.as_slice(), header.tags)?)
    }
}
