//! Reads a path from bytes in one pass. Each byte is read once.

ghost use Rattle.std.specs.Prelude.{◌≤◌, length, IfOk, OnOk};
ghost use Rattle.acl_model.specs.Limits.{most_path_bytes};
ghost use Rattle.xpath_rules.specs.PathReading.{Spells, IsPlace};
ghost use Rattle.xpath_rules.specs.PathMachine.{read_path_of};
ghost use Rattle.xpath_rules.specs.PathAnswers.{ButForMemory, IfFault, IsNoPath};

use crate::path_error::PathError;
use crate::state::State;
use acl_model::Path;
use acl_model::limits::MOST_PATH_BYTES;
use std::alloc::Global;

/// Runs the state machine over the bytes.
fn path_of(alloc: Global, bytes: &[u8], user: &[u8]) -> Result<Path, PathError>
    ensures { ButForMemory result (read_path_of bytes.now user.now) }
{
    let mut state = State::Start;
    let mut at = 0;
    for byte in bytes {
        if at >= MOST_PATH_BYTES {
            return Err(PathError::Fault { at });
        }
        let Some(next) = state.take(alloc, user, *byte)? else {
            return Err(PathError::Fault { at });
        };
        state = next;
        at += 1;
    }
    let Some(path) = state.finish()? else {
        return Err(PathError::Fault { at });
    };
    Ok(path)
}

/// Reads a path. `USER` in it means this user. Bytes that are no path are refused with the offset of the fault.
pub fn read_path(alloc: Global, bytes: &[u8], user: &[u8]) -> Result<Path, PathError>
    ensures exact { ButForMemory result (read_path_of bytes.now user.now) }

    // Both answers, defined by the grammar alone.
    ensures spelled { IfOk result (λ path. Spells user.now bytes.now path) }
    ensures within { OnOk result (length bytes.now ≤ most_path_bytes) }
    ensures refused { IfFault result (λ at. IsNoPath user.now bytes.now) }
    ensures place { IfFault result (λ at. IsPlace bytes.now at) }
{
    path_of(alloc, bytes, user)
}
