//! Laws: where the elements of a document are in a list that spells it, and which documents can be
//! walked. These functions do nothing: their contracts are the laws.

ghost use Rattle.std.specs.Prelude.{◌≡◌, ℕ, ◌^◌, ◌-◌, ◌<◌, ◌≤◌, true, Some, List, length};
ghost use Rattle.acl_model.specs.Limits.{most_names};
ghost use Rattle.acl_model.specs.Dictionary.{dictionary};
ghost use Rattle.acl_model.specs.Document.{is_document};
ghost use Rattle.acl_model.specs.Places.{at};
ghost use Rattle.acl_model.specs.Text.{text};
ghost use Rattle.acl_model.specs.declared.document.Doc.{Doc};
ghost use Rattle.acl_model.specs.declared.document.Element.{Element};
ghost use Rattle.acl_walk.specs.Begun.{begins_at, finishes_at, StandsInList};
ghost use Rattle.acl_walk.specs.Spelling.{Spells};
ghost use Rattle.acl_walk.specs.TreeState.{CanBeWalked, knows};
ghost use Rattle.acl_walk.specs.declared.event.Event.{Event};

/// The element at each place of a document is a part of each list that spells the document.
pub fn elements_stand_in_the_list()
    ensures { (names : List (List ℕ)) (d : Doc) (list : List Event) (place : List ℕ) (e : Element)
        → length names ≤ most_names → Spells names (Some d) list → at d place ≡ Some e
        → StandsInList names list place e }
{}

/// In a list that spells a document, at most one element begins at each place of the document, and at most
/// one finishes.
pub fn elements_begin_once()
    ensures begins { (names : List (List ℕ)) (d : Doc) (list : List Event) (place : List ℕ)
        (i j : ℕ) → length names ≤ most_names → Spells names (Some d) list
        → begins_at list place i ≡ true → begins_at list place j ≡ true → i ≡ j }
    ensures finishes { (names : List (List ℕ)) (d : Doc) (list : List Event) (place : List ℕ)
        (i j : ℕ) → length names ≤ most_names → Spells names (Some d) list
        → finishes_at list place i ≡ true → finishes_at list place j ≡ true → i ≡ j }
{}

/// Where a list spells a document under names, each name in the document is known under them.
pub fn spelled_documents_are_known()
    ensures { (names : List (List ℕ)) (d : Doc) (list : List Event)
        → Spells names (Some d) list → knows names d ≡ true }
{}

/// A document can be walked under its dictionary, if the dictionary has at most 256 names and the text has
/// fewer than 2^64 - 1 bytes.
pub fn documents_can_be_walked()
    ensures { (d : Doc) → is_document d ≡ true → length (dictionary d) ≤ most_names
        → length (text d) < 2 ^ 64 - 1
        → CanBeWalked (record { doc = d; names = dictionary d }) }
{}
