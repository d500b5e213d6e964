//! Laws: the places of the elements that are open at an index of a list, and where a pass leads. These
//! functions do nothing: their contracts are the laws.

ghost use Rattle.std.specs.Prelude.{◌≡◌, ℕ, ◌<◌, ◌≤◌, Some, List, [], ◌∷◌, length};
ghost use Rattle.acl_model.specs.Limits.{most_names};
ghost use Rattle.acl_model.specs.Places.{prefixes};
ghost use Rattle.acl_model.specs.declared.document.Doc.{Doc};
ghost use Rattle.acl_walk.specs.Open.{OpenPlace, open_at, tags_at, places_of};
ghost use Rattle.acl_walk.specs.Passes.{IsPass};
ghost use Rattle.acl_walk.specs.Spelling.{Spells};
ghost use Rattle.acl_walk.specs.SpotMoves.{PassesTo};
ghost use Rattle.acl_walk.specs.declared.event.Event.{Event};

/// The elements that are open at an index of a list are inside each other: their places are the prefixes
/// of the innermost one's place. This is true of each list, whether it spells a document or not.
pub fn open_places_are_prefixes()
    ensures { (list : List Event) (place : ℕ) (element : OpenPlace) (up : List OpenPlace)
        → open_at list place ≡ element ∷ up
        → places_of (element ∷ up) ≡ prefixes element.place }
{}

/// In a list that spells a document, a pass leads to the Finish of the innermost open element, and all
/// that it leaves out is inside that element. Where no element is open, the index stays.
pub fn passes_lead_to_the_finish()
    ensures finish { (names : List (List ℕ)) (d : Doc) (list : List Event) (old new : ℕ)
        → length names ≤ most_names → Spells names (Some d) list → 0 < length (open_at list old)
        → PassesTo (tags_at list old) list old new → IsPass list old new }
    ensures stays { (list : List Event) (old new : ℕ) → open_at list old ≡ []
        → PassesTo (tags_at list old) list old new → new ≡ old }
{}
