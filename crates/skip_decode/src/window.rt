//! Bytes of a stream, read through the fragment that is held. A fragment is fetched only where
//! another one is held.

ghost use Rattle.std.specs.Prelude.{◌≡◌, ◌+◌, ◌*◌, ◌/◌, ◌%◌, ◌<◌, ◌≤◌, None, Some, length, take, drop};
ghost use Rattle.std.specs.Prelude.{IsErrOf, OnErr, OnOk};
ghost use Rattle.std.specs.Option.{option_map};
ghost use Rattle.skip_decode.specs.Fragments.{ForEach, FitsNone, Leads, Narrows, Refuses};
ghost use Rattle.skip_decode.specs.inside.Windows.{AfterReads, HasRead, HasReadSome, HasReadWithin, IsHeld};
ghost use Rattle.skip_decode.specs.inside.Windows.{IsNewest, OpensSame, touch};

use crate::fragments::Fragments;
use acl_outside::ReadFault;

/// The number of bytes of a fragment.
pub(crate) const FRAGMENT: u32 = 256;

/// A stream's fragments, and the bytes of one of them.
#[derive(Drop)]
pub(crate) struct Window<F> {
    /// The fragments.
    pub source: F,
    /// The bytes of the fragment at index `at`.
    pub held: [u8; 256],
    /// The index of the fragment that is held, if there is one.
    pub at: Option<u32>,
}

impl<F: Fragments> Window<F> {
    /// A window that holds no fragment yet.
    pub fn over(source: F) -> Window<F>
        ensures source { result.source ≡ source }
        ensures at { result.at ≡ None }
    {
        Window {
            source,
            held: [0; 256],
            at: None,
        }
    }

    /// Holds the fragment at an index.
    pub fn open(&mut self, index: u32) -> Result<(), ReadFault>
        requires within { index < F.count self.old.source }
        requires held { IsHeld (F.may_be self.old.source) self.old.held self.old.at }
        ensures same_count { F.count self.new.source ≡ F.count self.old.source }
        ensures refuses { Refuses result (F.refused self.old.source) (F.refused self.new.source) }
        ensures held { IsHeld (F.may_be self.new.source) self.new.held self.new.at }
        ensures narrows { Narrows (F.may_be self.old.source) (F.may_be self.new.source) }
        ensures went { Leads F.went self.old.source self.new.source }
        ensures index { IsErrOf result ReadFault.BadIndex → FitsNone (F.may_be self.new.source) }
        ensures opens { IsNewest self.old.at (F.opened self.old.source)
            → OnOk result (F.opened self.new.source ≡ option_map (touch index) (F.opened self.old.source)) }
        ensures newest { IsNewest self.old.at (F.opened self.old.source)
            → OnOk result (IsNewest self.new.at (F.opened self.new.source)) }
        ensures some { IsNewest self.old.at (F.opened self.old.source)
            → OpensSame (touch index) (F.opened self.old.source) (F.opened self.new.source) }
        ensures at { OnOk result (self.new.at ≡ Some index) }
    {
        if self.at == Some(index) {
            return Ok(());
        }
        self.at = None;
        self.source.fetch(index, &mut self.held)?;
        self.at = Some(index);
        Ok(())
    }

    /// Copies the bytes from a byte offset on, all of one fragment.
    fn copy_within(&mut self, place: u32, into: &mut [u8]) -> Result<(), ReadFault>
        requires one { place % 256 + length into.old ≤ 256 }
        requires within { place + length into.old ≤ 256 * F.count self.old.source }
        requires held { IsHeld (F.may_be self.old.source) self.old.held self.old.at }
        ensures same_count { F.count self.new.source ≡ F.count self.old.source }
        ensures refuses { Refuses result (F.refused self.old.source) (F.refused self.new.source) }
        ensures held { IsHeld (F.may_be self.new.source) self.new.held self.new.at }
        ensures narrows { Narrows (F.may_be self.old.source) (F.may_be self.new.source) }
        ensures went { Leads F.went self.old.source self.new.source }
        ensures index { IsErrOf result ReadFault.BadIndex → FitsNone (F.may_be self.new.source) }
        ensures opens { AfterReads place self.old.at (F.opened self.old.source) (λ first start.
            OnOk result (HasRead first start (place + length into.old) self.new.at (F.opened self.new.source))) }
        ensures some { AfterReads place self.old.at (F.opened self.old.source) (λ first start.
            HasReadSome first start (F.opened self.new.source)) }
        ensures bound { AfterReads place self.old.at (F.opened self.old.source) (λ first start.
            OnErr result (HasReadWithin first start (place + length into.old) (F.opened self.new.source))) }
        ensures bytes { OnOk result (ForEach (F.may_be self.new.source) (λ stream.
            into.new ≡ take (length into.old) (drop place stream))) }
    {
        if into.is_empty() {
            return Ok(());
        }
        self.open(place / FRAGMENT)?;
        let from = (place % FRAGMENT) as usize;
        into.copy_from_slice(&self.held[from..from + into.len()]);
        Ok(())
    }

    /// Copies the bytes from a byte offset on, at most 256.
    pub fn copy(&mut self, place: u32, into: &mut [u8]) -> Result<(), ReadFault>
        requires few { length into.old ≤ 256 }
        requires within { place + length into.old ≤ 256 * F.count self.old.source }
        requires held { IsHeld (F.may_be self.old.source) self.old.held self.old.at }
        ensures same_count { F.count self.new.source ≡ F.count self.old.source }
        ensures refuses { Refuses result (F.refused self.old.source) (F.refused self.new.source) }
        ensures held { IsHeld (F.may_be self.new.source) self.new.held self.new.at }
        ensures narrows { Narrows (F.may_be self.old.source) (F.may_be self.new.source) }
        ensures went { Leads F.went self.old.source self.new.source }
        ensures index { IsErrOf result ReadFault.BadIndex → FitsNone (F.may_be self.new.source) }
        ensures opens { AfterReads place self.old.at (F.opened self.old.source) (λ first start.
            OnOk result (HasRead first start (place + length into.old) self.new.at (F.opened self.new.source))) }
        ensures some { AfterReads place self.old.at (F.opened self.old.source) (λ first start.
            HasReadSome first start (F.opened self.new.source)) }
        ensures bound { AfterReads place self.old.at (F.opened self.old.source) (λ first start.
            OnErr result (HasReadWithin first start (place + length into.old) (F.opened self.new.source))) }
        ensures bytes { OnOk result (ForEach (F.may_be self.new.source) (λ stream.
            into.new ≡ take (length into.old) (drop place stream))) }
    {
        let room = FRAGMENT - place % FRAGMENT;
        if into.len() <= room as usize {
            return self.copy_within(place, into);
        }
        let (front, rest) = into.split_at_mut(room as usize);
        self.copy_within(place, front)?;
        self.copy_within(place + room, rest)
    }
}
