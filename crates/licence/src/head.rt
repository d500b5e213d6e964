//! Reads the first three lines of a body: `licence 1`, the root, and the user. Each function takes the number of its
//! line.

ghost use Rattle.std.specs.Prelude.{◌≡◌, Ok, Err, MatchResult};
ghost use Rattle.std.specs.List.{list_all};
ghost use Rattle.std.specs.Option.{option_copied};
ghost use Rattle.acl_model.specs.Lines.{lines};
ghost use Rattle.licence.specs.Forms.{line_of_form};
ghost use Rattle.licence.specs.BodyText.{is_user_byte, is_user};
ghost use Rattle.licence.specs.Body.{title_line, root_line, user_line};
ghost use Rattle.licence.specs.declared.fault.LicenceFault.TheVariants.{BadLicence};

use crate::fault::LicenceFault;
use crate::forms::{read_32_bytes, rest_after};
use acl_model::limits::MOST_USER_BYTES;
use acl_model::next_line;

/// Whether the byte may be in a user.
fn may_stand_in_user(byte: u8) -> bool
    ensures { result ≡ is_user_byte byte }
{
    byte >= b' ' && byte != 127
}

/// Whether each byte may be in a user.
fn all_may_stand_in_user(bytes: &[u8]) -> bool
    ensures { result ≡ list_all is_user_byte bytes.now }
{
    bytes.iter().all(|byte| may_stand_in_user(*byte))
}

/// Whether the bytes are a user: 1 to 255 bytes that may be in one.
fn is_a_user(bytes: &[u8]) -> bool
    ensures { result ≡ is_user bytes.now }
{
    !bytes.is_empty() && bytes.len() <= MOST_USER_BYTES && all_may_stand_in_user(bytes)
}

/// The root in its line. `None` where the line is not of its form.
fn read_root(line: &[u8]) -> Option<[u8; 32]>
    ensures { result ≡ root_line line.now }
{
    read_32_bytes(b"root ", line)
}

/// The user in its line. `None` where the line is not of its form.
fn read_user(line: &[u8]) -> Option<&[u8]>
    ensures { option_copied result ≡ user_line line.now }
{
    let user = rest_after(b"user ", line)?;
    if is_a_user(user) { Some(user) } else { None }
}

/// Reads the line `licence 1`. The answer is the bytes after it.
pub fn read_title_line(line: u32, bytes: &[u8]) -> Result<&[u8], LicenceFault>
    ensures { MatchResult result
        (λ rest. line_of_form (BadLicence line) title_line (lines bytes.now) ≡ Ok (tt, lines rest.now))
        (λ fault. line_of_form (BadLicence line) title_line (lines bytes.now) ≡ Err fault) }
{
    match next_line(bytes) {
        Some((first, rest)) if first == b"licence 1".as_slice() => Ok(rest),
        _ => Err(LicenceFault::BadLicence { line }),
    }
}

/// Reads the root's line. The answer is the root, and the bytes after the line.
pub fn read_root_line(line: u32, bytes: &[u8]) -> Result<([u8; 32], &[u8]), LicenceFault>
    ensures { MatchResult result
        (λ read. line_of_form (BadLicence line) root_line (lines bytes.now) ≡ Ok (read.0, lines read.1.now))
        (λ fault. line_of_form (BadLicence line) root_line (lines bytes.now) ≡ Err fault) }
{
    let Some((first, rest)) = next_line(bytes) else {
        return Err(LicenceFault::BadLicence { line });
    };
    match read_root(first) {
        Some(root) => Ok((root, rest)),
        None => Err(LicenceFault::BadLicence { line }),
    }
}

/// Reads the user's line. The answer is the user, and the bytes after the line.
pub fn read_user_line(line: u32, bytes: &[u8]) -> Result<(&[u8], &[u8]), LicenceFault>
    ensures { MatchResult result
        (λ read. line_of_form (BadLicence line) user_line (lines bytes.now) ≡ Ok (read.0.now, lines read.1.now))
        (λ fault. line_of_form (BadLicence line) user_line (lines bytes.now) ≡ Err fault) }
{
    let Some((first, rest)) = next_line(bytes) else {
        return Err(LicenceFault::BadLicence { line });
    };
    match read_user(first) {
        Some(user) => Ok((user, rest)),
        None => Err(LicenceFault::BadLicence { line }),
    }
}
