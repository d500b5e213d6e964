//! The laws of reading and writing. A licence is read exactly where the bytes say it, and refused exactly for its
//! cause. What is written is read again. These functions do nothing: their contracts are the laws.

ghost use Rattle.std.specs.Prelude.{◌≡◌, ℕ, ◌+◌, List, length, Result, Ok, Err};
ghost use Rattle.acl_model.specs.Lines.{lines};
ghost use Rattle.licence.specs.BodyText.{Says, body_text, CanBeWritten};
ghost use Rattle.licence.specs.BodyRefusals.{IsRefused};
ghost use Rattle.licence.specs.Body.{read_body_of};
ghost use Rattle.licence.specs.Sealed.{SaysSealed, IsRefusedSealed, read_licence_of, sealed_text_of};
ghost use Rattle.licence.specs.Keys.{SaysKeys, IsBadKeys, read_keys_of};
ghost use Rattle.licence.specs.declared.fault.LicenceFault.{LicenceFault};
ghost use Rattle.licence.specs.declared.fault.LicenceFault.TheVariants.{BadSeal, NoMemory};
ghost use Rattle.licence.specs.declared.terms.Licence.{Licence};
ghost use Rattle.licence.specs.declared.keys.Keys.{Keys};
ghost use Rattle.licence.specs.declared.keys.KeysError.{KeysError};

/// Where bytes are read as a licence or keys, they say that licence or those keys.
pub fn what_is_read_is_said()
    ensures body { (bytes : List ℕ) (licence : Licence)
        → read_body_of bytes ≡ Ok licence → Says bytes licence }
    ensures sealed { (key bytes : List ℕ) (licence : Licence)
        → read_licence_of bytes key ≡ Ok licence → SaysSealed key bytes licence }
    ensures keys { (bytes : List ℕ) (keys : Keys)
        → read_keys_of bytes ≡ Ok keys → SaysKeys bytes keys }
{}

/// Where bytes say a licence or keys, they are read as such. So no bytes say two licences, or two pairs of keys.
pub fn what_is_said_is_read()
    ensures body { (bytes : List ℕ) (licence : Licence)
        → Says bytes licence → read_body_of bytes ≡ Ok licence }
    ensures sealed { (key bytes : List ℕ) (licence : Licence)
        → SaysSealed key bytes licence → read_licence_of bytes key ≡ Ok licence }
    ensures keys { (bytes : List ℕ) (keys : Keys)
        → SaysKeys bytes keys → read_keys_of bytes ≡ Ok keys }
{}

/// Where bytes are refused, the fault has its cause.
pub fn what_is_refused_has_a_cause()
    ensures body { (bytes : List ℕ) (fault : LicenceFault)
        → read_body_of bytes ≡ Err fault → IsRefused 1 (lines bytes) fault }
    ensures sealed { (key bytes : List ℕ) (fault : LicenceFault)
        → read_licence_of bytes key ≡ Err fault → IsRefusedSealed key bytes fault }
    ensures keys { (bytes : List ℕ) (error : KeysError)
        → read_keys_of bytes ≡ Err error → IsBadKeys (lines bytes) error }
{}

/// Where there is a cause of a fault, this fault is the answer. So no bytes have causes of two faults.
pub fn what_has_a_cause_is_refused()
    ensures body { (bytes : List ℕ) (fault : LicenceFault)
        → IsRefused 1 (lines bytes) fault → read_body_of bytes ≡ Err fault }
    ensures sealed { (key bytes : List ℕ) (fault : LicenceFault)
        → IsRefusedSealed key bytes fault → read_licence_of bytes key ≡ Err fault }
    ensures keys { (bytes : List ℕ) (error : KeysError)
        → IsBadKeys (lines bytes) error → read_keys_of bytes ≡ Err error }
{}

/// Reading or sealing a body is never answered by `BadSeal`: a body has no seal.
pub fn a_body_is_no_bad_seal()
    ensures body { (bytes given made : List ℕ) → read_body_of bytes ≡ Err (BadSeal given made) → ⊥ }
    ensures text { (key body given made : List ℕ)
        → sealed_text_of body key ≡ Err (BadSeal given made) → ⊥ }
{}

/// `NoMemory` is never the wanted answer for any bytes.
pub fn no_text_is_out_of_memory()
    ensures body { (bytes : List ℕ) → read_body_of bytes ≡ Err NoMemory → ⊥ }
    ensures sealed { (key bytes : List ℕ) → read_licence_of bytes key ≡ Err NoMemory → ⊥ }
    ensures text { (key body : List ℕ) → sealed_text_of body key ≡ Err NoMemory → ⊥ }
    ensures keys { (bytes : List ℕ) → read_keys_of bytes ≡ Err KeysError.NoMemory → ⊥ }
{}

/// A body that is written from valid parts is read as these parts.
pub fn written_is_read()
    ensures { (licence : Licence) → CanBeWritten licence
        → read_body_of (body_text licence) ≡ Ok licence }
{}

/// A sealed body is read under the same key as the licence of the body. It is 70 bytes longer than the body.
pub fn sealed_is_read()
    ensures read { (key body text : List ℕ) (licence : Licence) → read_body_of body ≡ Ok licence
        → sealed_text_of body key ≡ Ok text → read_licence_of text key ≡ Ok licence }
    ensures longer { (key body text : List ℕ)
        → sealed_text_of body key ≡ Ok text → length text ≡ 70 + length body }
{}
