//! One read of a store that must give all bytes.
ghost use Rattle.std.specs.Prelude.{◌≡◌, ◌+◌, ◌^◌, ◌<◌, IfSome, IsErrOf, length, OnOk, IfErr};
ghost use Rattle.acl_outside.specs.Outside.{NotFallen, Rose};
ghost use Rattle.fragment_open.specs.Held.{IsQuietElse};
ghost use Rattle.fragment_open.specs.CallReads.{GivesWhole, IsReadFault, ReadsWhole, Told};

use acl_outside::{ReadFault, Store};

/// Fills `into` with the store's bytes from offset `at` on.
pub(crate) fn read_whole<S: Store>(store: &mut S, at: u64, into: &mut [u8]) -> Result<(), ReadFault>
    requires { at + length into.old < 2 ^ 64 }
    ensures told { Told (S.served store.old) (S.served store.new) (ReadsWhole result at into.new) }
    ensures given { IfSome (S.holds store.old) (GivesWhole result at into.new) }
    ensures constant { S.holds store.new ≡ S.holds store.old }
    ensures cause { IsErrOf result ReadFault.StoreFault
        → Rose (S.faults store.old) (S.faults store.new) }
    ensures never_falls { NotFallen (S.faults store.old) (S.faults store.new) }
    ensures quiet { OnOk result (S.faults store.new ≡ S.faults store.old) }
    ensures quiet_else { IfErr result (λ fault.
        IsQuietElse fault (S.faults store.old) (S.faults store.new)) }
    ensures only { IfErr result IsReadFault }
{
    let Ok(count) = store.read_at(at, into) else {
        return Err(ReadFault::StoreFault);
    };
    if count < into.len() {
        return Err(ReadFault::StoreShort {
            at: at + count as u64,
        });
    }
    Ok(())
}
