//! Reads the plain stream of a file: its fragments in order, into one allocation.

ghost use Rattle.std.specs.Prelude.{◌≡◌, None, IfSome, OnOk, IfErr, false};
ghost use Rattle.std.specs.List.{list_any};
ghost use Rattle.acl_outside.specs.Outside.{NotFallen, Rose};
ghost use Rattle.fragment_open.specs.Checked.{AllFoldUnlessRefused};
ghost use Rattle.fragment_open.specs.CallReads.{Told};
ghost use Rattle.fragment_open.specs.Settled.{AreHeld, Settled, is_start, root_by, since};
ghost use Rattle.file_reading.specs.FileEnds.{GoesOnInOrder, GoesOnReading, HeldEnds, IsQuietFault, IsRefusedWhereShown, IsStoreFailure, OfHeldDocument, OpensInOrder, StreamEnds, StreamShown, is_bad_fragment};

use crate::fault::FileFault;
use acl_outside::Store;
use fragment_open::{Head, Opener};
use std::alloc::Global;

/// The number of bytes of a fragment.
const FRAGMENT: usize = 256;

/// Fetches each fragment, in order from 0, with an opener that has refused none.
fn fetch_all<S: Store>(alloc: Global, opener: &mut Opener<'_, S>) -> Result<Vec<u8>, FileFault>
    requires { opener.old.fault ≡ None }
    ensures same_store { opener.new.store.ghost_name ≡ opener.old.store.ghost_name }
    ensures grown { Told (S.served opener.old.store.now) (S.served opener.new.store.now)
        (λ more. list_any is_start more ≡ false) }
    ensures ends { IfSome (S.served opener.new.store.now) (λ all. StreamEnds result
        opener.old.head.header opener.old.head.top opener.old.head.key (since all)) }
    ensures exact { IfSome (S.served opener.new.store.now) (λ all. IsRefusedWhereShown result
        (root_by opener.old.head.header opener.old.head.top) opener.old.head.key (since all)) }
    ensures in_order { GoesOnInOrder result
        (S.served opener.old.store.now) (S.served opener.new.store.now) }
    ensures checked { IfSome (S.served opener.new.store.now) (λ all.
        AllFoldUnlessRefused (is_bad_fragment result) (since all)) }
    ensures reading { GoesOnReading result
        opener.old.head.header opener.old.head.top opener.old.head.key
        (S.served opener.old.store.now) (S.served opener.new.store.now) }
    ensures held { OfHeldDocument (S.holds opener.old.store.now)
        (root_by opener.old.head.header opener.old.head.top) opener.old.head.key (HeldEnds result) }
    ensures constant { S.holds opener.new.store.now ≡ S.holds opener.old.store.now }
    ensures cause { IsStoreFailure result
        → Rose (S.faults opener.old.store.now) (S.faults opener.new.store.now) }
    ensures never_falls { NotFallen
        (S.faults opener.old.store.now) (S.faults opener.new.store.now) }
    ensures quiet { OnOk result (S.faults opener.new.store.now ≡ S.faults opener.old.store.now) }
    ensures quiet_else { IfErr result
        (λ fault. IsQuietFault fault
        (S.faults opener.old.store.now) (S.faults opener.new.store.now)) }
{
    let count = opener.header().fragments();
    let mut stream = Vec::with_capacity(alloc, count as usize * FRAGMENT)?;
    for index in 0..count {
        let mut fragment = [0; FRAGMENT];
        opener.fetch(index, &mut fragment)?;
        stream.extend_from_slice(&fragment)?;
    }
    Ok(stream)
}

/// Reads each fragment, in order from 0, of a store whose head was read.
pub(crate) fn read_stream<S: Store>(
    alloc: Global,
    store: &mut S,
    head: Head,
) -> Result<Vec<u8>, FileFault>
    requires settled { Settled (S.served store.old) head.header head.top None None }
    requires held { AreHeld (S.holds store.old) head.header head.top head.key None }
    ensures grown { Told (S.served store.old) (S.served store.new)
        (λ more. list_any is_start more ≡ false) }
    ensures ends { IfSome (S.served store.new)
        (λ all. StreamEnds result head.header head.top head.key (since all)) }
    ensures exact { IfSome (S.served store.new) (λ all. IsRefusedWhereShown result
        (root_by head.header head.top) head.key (since all)) }
    ensures in_order { IfSome (S.served store.new) (λ all. OpensInOrder result (since all)) }
    ensures checked { IfSome (S.served store.new) (λ all.
        AllFoldUnlessRefused (is_bad_fragment result) (since all)) }
    ensures shown { IfSome (S.served store.new) (λ all.
        StreamShown result head.header head.top head.key (since all)) }
    ensures held { OfHeldDocument (S.holds store.old)
        (root_by head.header head.top) head.key (HeldEnds result) }
    ensures constant { S.holds store.new ≡ S.holds store.old }
    ensures cause { IsStoreFailure result → Rose (S.faults store.old) (S.faults store.new) }
    ensures never_falls { NotFallen (S.faults store.old) (S.faults store.new) }
    ensures quiet { OnOk result (S.faults store.new ≡ S.faults store.old) }
    ensures quiet_else { IfErr result
        (λ fault. IsQuietFault fault (S.faults store.old) (S.faults store.new)) }
{
    let mut opener = Opener::over(store, head);
    fetch_all(alloc, &mut opener)
}
