//! Reads the body of a licence. Its lines are read in order, and the first one that is refused is the answer.

ghost use Rattle.std.specs.Prelude.{◌≤◌, IfOk};
ghost use Rattle.licence.specs.BodyText.{Says};
ghost use Rattle.licence.specs.Body.{read_body_from, read_body_of, Reads};

use crate::fault::LicenceFault;
use crate::head::{read_root_line, read_title_line, read_user_line};
use crate::rules::read_rules;
use crate::terms::Licence;
use acl_model::Bytes;
use std::alloc::Global;

/// Reads a body whose first line has the number `first`.
pub fn read_body_from(alloc: Global, first: u32, bytes: &[u8]) -> Result<Licence, LicenceFault>
    requires { first ≤ 2 }
    ensures { Reads (read_body_from first bytes.now) result }
{
    let rest = read_title_line(first, bytes)?;
    let (root, rest) = read_root_line(first + 1, rest)?;
    let (user, rest) = read_user_line(first + 2, rest)?;
    let rules = read_rules(alloc, user, first + 3, rest)?;
    let user = Bytes::from_slice(alloc, user)?;
    Ok(Licence { root, user, rules })
}

/// Reads a body without a seal line. The answer is the licence or the body's first fault, and never `BadSeal`.
pub fn read_body(alloc: Global, bytes: &[u8]) -> Result<Licence, LicenceFault>
    ensures exact { Reads (read_body_of bytes.now) result }
    ensures said { IfOk result (λ licence. Says bytes.now licence) }
{
    read_body_from(alloc, 1, bytes)
}
