//! Reads sealed licences, and seals bodies. A seal is the HMAC of the body under the seal key.

ghost use Rattle.std.specs.Prelude.{◌≡◌, ◌++◌, ◌∷◌, IfOk, Some, None, MatchOption};
ghost use Rattle.hex.specs.Hex.{encode_lower};
ghost use Rattle.acl_model.specs.Ascii.{line_feed};
ghost use Rattle.licence.specs.Sealed.{seal_word, SaysSealed, seal_and_body, read_licence_of, sealed_text_of};
ghost use Rattle.licence.specs.Body.{Reads};

use crate::body::{read_body, read_body_from};
use crate::fault::LicenceFault;
use crate::forms::read_32_bytes;
use crate::terms::Licence;
use acl_model::{Bytes, cut};
use hmac_tag::hmac;
use std::alloc::{AllocError, Global};

/// Reads a sealed licence. The seal is checked first, and the body is read only where the seal is right.
pub fn read_licence(
    alloc: Global,
    bytes: &[u8],
    seal_key: &[u8; 32],
) -> Result<Licence, LicenceFault>
    ensures exact { Reads (read_licence_of bytes.now seal_key.now) result }
    ensures said { IfOk result (λ licence. SaysSealed seal_key.now bytes.now licence) }
{
    let Some((line, body)) = cut(bytes, b'\n') else {
        return Err(LicenceFault::BadLicence { line: 1 });
    };
    let Some(given) = read_32_bytes(b"seal ", line) else {
        return Err(LicenceFault::BadLicence { line: 1 });
    };
    let made = hmac(seal_key, body);
    if given != made {
        return Err(LicenceFault::BadSeal { given, made });
    }
    read_body_from(alloc, 2, body)
}

/// The seal line with this seal, and the body after it.
fn sealed_text(alloc: Global, seal: &[u8; 32], body: &[u8]) -> Result<Bytes, AllocError>
    ensures { IfOk result (λ text.
        text ≡ seal_word ++ (encode_lower seal.now ++ (line_feed ∷ body.now))) }
{
    let mut text = Vec::new(alloc);
    text.extend_from_slice(b"seal ")?;
    text.extend_from_slice(hex::encode(alloc, seal.as_slice())?.as_bytes())?;
    text.push(b'\n')?;
    text.extend_from_slice(body)?;
    Ok(Bytes::from_vec(text))
}

/// Seals a body: the answer is the seal line and the body unchanged, or the first fault of a body that can't be read.
pub fn seal_text(alloc: Global, body: &[u8], seal_key: &[u8; 32]) -> Result<Bytes, LicenceFault>
    ensures exact { Reads (sealed_text_of body.now seal_key.now) result }
{
    read_body(alloc, body)?;
    Ok(sealed_text(alloc, &hmac(seal_key, body), body)?)
}
