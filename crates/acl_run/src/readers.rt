//! What a run reads. Each source is read to its end, and then its bytes are read as keys, a licence or a document.

ghost use Rattle.std.specs.Prelude.{◌≡◌, ◌≤◌, ◌+◌, Ok, Err, true, IsTrue, IfSome, IfOk, OnOk, IfErr, MatchResult, length};
ghost use Rattle.std.specs.Bool.{OnTrue};
ghost use Rattle.std.specs.Io.KnownBytes.{IsAtEnd};
ghost use Rattle.acl_model.specs.Document.{is_document};
ghost use Rattle.esis_lines.specs.DocumentAnswers.{TakesUpTo, most_document_bytes};
ghost use Rattle.file_reading.specs.FileEnds.{OfHeldDocument};
ghost use Rattle.fragment_open.specs.Checked.{AllFoldUnlessRefused};
ghost use Rattle.fragment_open.specs.CallReads.{Told};
ghost use Rattle.licence.specs.BodyText.{most_rules};
ghost use Rattle.skip_encode.specs.EncodedFile.{IsFileOf};
ghost use Rattle.acl_outcome.specs.Ends.{Object, end_of};
ghost use Rattle.acl_run.specs.Objects.{LeavesSource, LeavesStore};
ghost use Rattle.acl_run.specs.Outcomes.{outcome_of_fault, outcome_of_licence_fault, outcome_of_keys_error};
ghost use Rattle.acl_run.specs.Outcomes.{outcome_of_encode_fault, outcome_of_file_fault, outcome_of_read_fault};
ghost use Rattle.acl_run.specs.Readers.{licence_of, keys_of, document_of, with_file, sealed_of, sealed_licence_of, query_of};
ghost use Rattle.acl_run.specs.Readers.{most_key_bytes, is_within_limits};
ghost use Rattle.acl_run.specs.inside.Opening.{IsHonestEnd, IsStoreRefused, IsStoreWithoutDocument, StoreEnds};
ghost use Rattle.acl_run.specs.inside.Opening.{ends_opening, is_fragment_refused};
ghost use Rattle.acl_run.specs.inside.SourceSteps.{is_fault_in, is_about_bytes, ends_reading, ends_asking, Answers, AnswersAlone};
ghost use Rattle.acl_run.specs.Steps.{Question, OrNoMemory};

use acl_model::limits::{MOST_KEY_BYTES, MOST_PRED_STEPS, MOST_PREDS, MOST_STEPS};
use acl_model::{Bytes, Doc, Path};
use acl_outcome::Outcome;
use acl_outside::{ReadFault, Source, Store};
use esis_lines::{DocFault, ReadAllFault, read_all, read_doc};
use file_reading::{FileFault, read_file};
use licence::{Keys, KeysError, Licence, LicenceFault, read_body, read_licence, seal_text};
use skip_encode::{EncodeFault, Encoded, encode_file};
use std::alloc::Global;
use xpath_rules::{PathError, count_states, read_path};

// ---- the outcome of each fault

/// The outcome where a licence, or the body of one, is refused.
fn licence_outcome(fault: LicenceFault) -> Outcome
    ensures { result ≡ outcome_of_licence_fault fault }
{
    match fault {
        LicenceFault::BadSeal { given, made } => Outcome::BadSeal { given, made },
        LicenceFault::BadRule { line, at } => Outcome::BadRule { line, at },
        LicenceFault::BadLicence { line } => Outcome::BadLicence { line },
        LicenceFault::TooManyRules => Outcome::TooManyRules,
        LicenceFault::TooManyStates => Outcome::TooManyStates,
        LicenceFault::NoMemory => Outcome::NoMemory,
    }
}

/// The outcome where keys are refused.
fn keys_outcome(error: KeysError) -> Outcome
    ensures { result ≡ outcome_of_keys_error error }
{
    match error {
        KeysError::BadKeys { line } => Outcome::BadKeys { line },
        KeysError::NoMemory => Outcome::NoMemory,
    }
}

/// The outcome where no document was read.
fn document_outcome(fault: DocFault) -> Outcome
    ensures { result ≡ outcome_of_fault fault }
{
    match fault {
        DocFault::BadLine { line } => Outcome::BadLine { line },
        DocFault::Unsupported { line, kind } => Outcome::Unsupported { line, kind },
        DocFault::Unbalanced { line } => Outcome::Unbalanced { line },
        DocFault::NoRoot => Outcome::NoRoot,
        DocFault::SecondRoot { line } => Outcome::SecondRoot { line },
        DocFault::TooDeep { line } => Outcome::TooDeep { line },
        DocFault::NameTooLong { line } => Outcome::NameTooLong { line },
        DocFault::InputTooLong { limit } => Outcome::InputTooLong { limit },
        DocFault::SourceFault => Outcome::SourceFault,
        DocFault::TooManyAttributes { line } => Outcome::TooManyAttributes { line },
        DocFault::NoMemory => Outcome::NoMemory,
    }
}

/// The outcome where a document has no file.
fn file_outcome(fault: EncodeFault) -> Outcome
    ensures { result ≡ outcome_of_encode_fault fault }
{
    match fault {
        EncodeFault::TooManyTags => Outcome::TooManyTags,
        EncodeFault::TooLarge => Outcome::TooLarge,
        EncodeFault::NoMemory => Outcome::NoMemory,
    }
}

/// The outcome where reading from a store failed, or the bytes of the store are refused.
fn read_outcome(fault: ReadFault) -> Outcome
    ensures { result ≡ outcome_of_read_fault fault }
{
    match fault {
        ReadFault::BadHeader => Outcome::BadHeader,
        ReadFault::WrongRoot { want, made } => Outcome::WrongRoot { want, made },
        ReadFault::WrongKey { want, made } => Outcome::WrongKey { want, made },
        ReadFault::StoreShort { at } => Outcome::StoreShort { at },
        ReadFault::StoreFault => Outcome::StoreFault,
        ReadFault::BadFragment { index, want, made } => Outcome::BadFragment { index, want, made },
        ReadFault::BadIndex => Outcome::BadIndex,
    }
}

/// The outcome where no document was read from a store.
fn store_outcome(fault: FileFault) -> Outcome
    ensures { result ≡ outcome_of_file_fault fault }
{
    match fault {
        FileFault::Refused(fault) => read_outcome(fault),
        FileFault::NoMemory => Outcome::NoMemory,
    }
}

// ---- keys

/// Reads the source of the rules to its end, and reads its bytes as the body of a licence.
#[tactic(auto, unfolding(crate::specs::Readers::licence_of), using(crate::proofs::Taking::taken))]
pub fn read_rules<K: Source>(alloc: Global, keys: &mut K) -> Result<Licence, Outcome>
    ensures answer { IfSome (K.left keys.old)
        (λ bytes. Answers Object.keys (licence_of bytes) result) }
    ensures ends { IfErr result
        (λ outcome. IsTrue (ends_reading Object.keys Question.are_rules (end_of outcome))) }
    ensures few_rules { IfOk result (λ licence. length licence.rules ≤ most_rules) }
    ensures to_the_end { OnOk result (IsAtEnd (K.left keys.new)) }
    ensures read { OnTrue (is_about_bytes result)
        (TakesUpTo (most_key_bytes + 1) (K.left keys.old) (K.left keys.new)) }
    ensures source { LeavesSource K.left K.faults (is_fault_in Object.keys result)
        most_key_bytes keys.old keys.new }
{
    let bytes = match read_all(alloc, keys, MOST_KEY_BYTES) {
        Ok(bytes) => bytes,
        Err(ReadAllFault::TooLong { limit }) => return Err(Outcome::InputTooLong { limit }),
        Err(ReadAllFault::Failed) => return Err(Outcome::KeysFault),
        Err(ReadAllFault::NoMemory) => return Err(Outcome::NoMemory),
    };
    match read_body(alloc, bytes.as_slice()) {
        Ok(licence) => Ok(licence),
        Err(fault) => Err(licence_outcome(fault)),
    }
}

/// Reads the source of the keys to its end, and reads its bytes as keys.
#[tactic(auto, unfolding(crate::specs::Readers::keys_of), using(crate::proofs::Taking::taken))]
pub fn read_keys<K: Source>(alloc: Global, keys: &mut K) -> Result<Keys, Outcome>
    ensures answer { IfSome (K.left keys.old)
        (λ bytes. Answers Object.keys (keys_of bytes) result) }
    ensures ends { IfErr result
        (λ outcome. IsTrue (ends_reading Object.keys Question.are_keys (end_of outcome))) }
    ensures to_the_end { OnOk result (IsAtEnd (K.left keys.new)) }
    ensures read { OnTrue (is_about_bytes result)
        (TakesUpTo (most_key_bytes + 1) (K.left keys.old) (K.left keys.new)) }
    ensures source { LeavesSource K.left K.faults (is_fault_in Object.keys result)
        most_key_bytes keys.old keys.new }
{
    let bytes = match read_all(alloc, keys, MOST_KEY_BYTES) {
        Ok(bytes) => bytes,
        Err(ReadAllFault::TooLong { limit }) => return Err(Outcome::InputTooLong { limit }),
        Err(ReadAllFault::Failed) => return Err(Outcome::KeysFault),
        Err(ReadAllFault::NoMemory) => return Err(Outcome::NoMemory),
    };
    match licence::read_keys(alloc, bytes.as_slice()) {
        Ok(keys) => Ok(keys),
        Err(error) => Err(keys_outcome(error)),
    }
}

// ---- the input

/// Reads the input to its end, and reads its bytes as the lines of a document.
#[tactic(auto, unfolding(crate::specs::Readers::document_of))]
pub fn read_document<Q: Source>(alloc: Global, input: &mut Q) -> Result<Doc, Outcome>
    ensures answer { IfSome (Q.left input.old)
        (λ bytes. Answers Object.input (document_of bytes) result) }
    ensures ends { IfErr result
        (λ outcome. IsTrue (ends_reading Object.input Question.is_document (end_of outcome))) }
    ensures form { IfOk result (λ d. is_document d ≡ true) }
    ensures to_the_end { OnOk result (IsAtEnd (Q.left input.new)) }
    ensures read { OnTrue (is_about_bytes result)
        (TakesUpTo (most_document_bytes + 1) (Q.left input.old) (Q.left input.new)) }
    ensures source { LeavesSource Q.left Q.faults (is_fault_in Object.input result)
        most_document_bytes input.old input.new }
{
    match read_doc(alloc, input) {
        Ok(doc) => Ok(doc),
        Err(fault) => Err(document_outcome(fault)),
    }
}

/// Makes the file of a document under a key.
#[tactic(auto, using(crate::proofs::Files::refusal_ends))]
pub fn make_file(alloc: Global, doc: &Doc, key: [u8; 16]) -> Result<Encoded, Outcome>
    requires { is_document doc.now ≡ true }
    ensures file { IfOk result (λ encoded. IsFileOf doc.now key encoded) }
    ensures has_file { IfOk result (λ _. with_file doc.now ≡ Ok doc.now) }
    ensures refused { IfErr result
        (λ outcome. OrNoMemory (end_of outcome) (with_file doc.now ≡ Err outcome)) }
    ensures ends { IfErr result (λ outcome.
        IsTrue (ends_asking Question.has_file (end_of outcome))) }
{
    match encode_file(alloc, doc, key) {
        Ok(encoded) => Ok(encoded),
        Err(fault) => Err(file_outcome(fault)),
    }
}

/// Reads the input to its end, reads its bytes as the body of a licence, and returns the sealed licence.
#[tactic(auto, unfolding(crate::specs::Readers::sealed_of), using(crate::proofs::Taking::taken))]
pub fn read_sealed<Q: Source>(
    alloc: Global,
    input: &mut Q,
    seal_key: &[u8; 32],
) -> Result<Bytes, Outcome>
    ensures answer { IfSome (Q.left input.old)
        (λ bytes. Answers Object.input (sealed_of seal_key.now bytes) result) }
    ensures ends { IfErr result
        (λ outcome. IsTrue (ends_reading Object.input Question.is_body (end_of outcome))) }
    ensures to_the_end { OnOk result (IsAtEnd (Q.left input.new)) }
    ensures read { OnTrue (is_about_bytes result)
        (TakesUpTo (most_key_bytes + 1) (Q.left input.old) (Q.left input.new)) }
    ensures source { LeavesSource Q.left Q.faults (is_fault_in Object.input result)
        most_key_bytes input.old input.new }
{
    let bytes = match read_all(alloc, input, MOST_KEY_BYTES) {
        Ok(bytes) => bytes,
        Err(ReadAllFault::TooLong { limit }) => return Err(Outcome::InputTooLong { limit }),
        Err(ReadAllFault::Failed) => return Err(Outcome::SourceFault),
        Err(ReadAllFault::NoMemory) => return Err(Outcome::NoMemory),
    };
    match seal_text(alloc, bytes.as_slice(), seal_key) {
        Ok(text) => Ok(text),
        Err(fault) => Err(licence_outcome(fault)),
    }
}

/// Reads the input to its end, and reads its bytes as a licence whose seal is right under this key.
#[tactic(auto, unfolding(crate::specs::Readers::sealed_licence_of), using(crate::proofs::Taking::taken))]
pub fn read_sealed_licence<Q: Source>(
    alloc: Global,
    input: &mut Q,
    seal_key: &[u8; 32],
) -> Result<Licence, Outcome>
    ensures answer { IfSome (Q.left input.old)
        (λ bytes. Answers Object.input (sealed_licence_of seal_key.now bytes) result) }
    ensures ends { IfErr result
        (λ outcome. IsTrue (ends_reading Object.input Question.is_licence (end_of outcome))) }
    ensures few_rules { IfOk result (λ licence. length licence.rules ≤ most_rules) }
    ensures to_the_end { OnOk result (IsAtEnd (Q.left input.new)) }
    ensures read { OnTrue (is_about_bytes result)
        (TakesUpTo (most_key_bytes + 1) (Q.left input.old) (Q.left input.new)) }
    ensures source { LeavesSource Q.left Q.faults (is_fault_in Object.input result)
        most_key_bytes input.old input.new }
{
    let bytes = match read_all(alloc, input, MOST_KEY_BYTES) {
        Ok(bytes) => bytes,
        Err(ReadAllFault::TooLong { limit }) => return Err(Outcome::InputTooLong { limit }),
        Err(ReadAllFault::Failed) => return Err(Outcome::SourceFault),
        Err(ReadAllFault::NoMemory) => return Err(Outcome::NoMemory),
    };
    match read_licence(alloc, bytes.as_slice(), seal_key) {
        Ok(licence) => Ok(licence),
        Err(fault) => Err(licence_outcome(fault)),
    }
}

// ---- the store

/// Reads the file in the store, checks it against a root and a key, and returns its document.
pub fn read_store<S: Store>(
    alloc: Global,
    store: &mut S,
    root: [u8; 32],
    key: [u8; 16],
) -> Result<Doc, Outcome>
    ensures told { Told (S.served store.old) (S.served store.new) (StoreEnds result root key) }
    ensures exact { Told (S.served store.old) (S.served store.new)
        (IsStoreRefused result root key) }
    ensures checked { Told (S.served store.old) (S.served store.new)
        (AllFoldUnlessRefused (is_fragment_refused result)) }
    ensures document { IfOk result (λ doc. is_document doc ≡ true) }
    ensures shown_index { Told (S.served store.old) (S.served store.new)
        (IsStoreWithoutDocument result root key) }
    ensures held { OfHeldDocument (S.holds store.old) root key (λ d. MatchResult result
        (λ doc. doc ≡ d)
        (λ outcome. IsHonestEnd (end_of outcome))) }
    ensures ends { IfErr result (λ outcome. IsTrue (ends_opening (end_of outcome))) }
    ensures store { LeavesStore S.holds S.served S.faults
        (is_fault_in Object.store result) store.old store.new }
{
    match read_file(alloc, store, root, key) {
        Ok(doc) => Ok(doc),
        Err(fault) => Err(store_outcome(fault)),
    }
}

// ---- a query

/// Whether a query is within its limits.
fn are_few_states(path: &Path) -> bool
    ensures { result ≡ is_within_limits path.now }
{
    let states = count_states(path);
    states.steps <= MOST_STEPS && states.pred_steps <= MOST_PRED_STEPS && states.preds <= MOST_PREDS
}

/// Reads a query as a path for a user.
#[tactic(auto, unfolding(crate::specs::Readers::query_of))]
pub fn read_query(alloc: Global, query: &[u8], user: &[u8]) -> Result<Path, Outcome>
    ensures answer { AnswersAlone (query_of user.now query.now) result }
    ensures ends { IfErr result (λ outcome.
        IsTrue (ends_asking Question.is_query (end_of outcome))) }
{
    match read_path(alloc, query, user) {
        Ok(path) if are_few_states(&path) => Ok(path),
        Ok(_) => Err(Outcome::TooManyStates),
        Err(PathError::Fault { at }) => Err(Outcome::BadQuery { at }),
        Err(PathError::NoMemory) => Err(Outcome::NoMemory),
    }
}
