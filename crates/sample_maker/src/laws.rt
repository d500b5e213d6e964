//! The law that a hospital is a document. It is the contract of a function that does nothing.

ghost use Rattle.std.specs.Prelude.{◌≡◌, ℕ, ◌≤◌, true};
ghost use Rattle.acl_model.specs.Document.{is_document};
ghost use Rattle.sample_maker.specs.Hospital.{hospital};

/// Each hospital of at most 20,000 folders is a document: its names, attributes and texts are of the right form, and it
/// isn't too deep.
#[tactic(auto, using(crate::proofs::HospitalForm::hospital_is_document))]
pub fn hospitals_are_documents()
    ensures { (n : ℕ) → n ≤ 20000 → is_document (hospital n) ≡ true }
{}
