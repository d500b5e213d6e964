//! Laws: which events meet a predicate, and with which event it closes. The *bearer* of a predicate is
//! its context node (XPath 1.0, 1). These functions do nothing: their contracts are the laws.

ghost use Rattle.std.specs.Prelude.{◌≡◌, ℕ, ◌<◌, ◌≤◌, true, Some, is_some, List, [], ◌∷◌, length, codes};
ghost use Rattle.std.specs.List.{list_any};
ghost use Rattle.acl_model.specs.Limits.{most_names};
ghost use Rattle.acl_model.specs.Places.{at};
ghost use Rattle.acl_model.specs.Predicates.{holds};
ghost use Rattle.acl_model.specs.declared.document.Doc.{Doc};
ghost use Rattle.acl_model.specs.declared.document.Element.{Element};
ghost use Rattle.acl_model.specs.declared.path.Pred.{Pred};
ghost use Rattle.acl_walk.specs.Begun.{begins_at, finishes_at};
ghost use Rattle.acl_walk.specs.inside.CloseExamples.{small_names, has_p, has_child, x_is, has_id};
ghost use Rattle.acl_walk.specs.inside.CloseExamples.{small, small_events};
ghost use Rattle.acl_walk.specs.inside.CloseExamples.{small_with_id, small_events_with_id};
ghost use Rattle.acl_walk.specs.inside.CloseExamples.{letters, long, long_events, attribute_is};
ghost use Rattle.acl_walk.specs.inside.CloseExamples.{nested_names, nested, nested_events, has_b};
ghost use Rattle.acl_walk.specs.Closes.{counted, is_met_at, close};
ghost use Rattle.acl_walk.specs.Spelling.{Spells};
ghost use Rattle.acl_walk.specs.TreeEvents.{document_events};
ghost use Rattle.acl_walk.specs.declared.event.Event.{Event};

/// A predicate is true at an element exactly where some event meets it. It closes with one event of the
/// list, from the Begin of its bearer to the bearer's Finish.
pub fn predicates_close_where_they_are_met()
    ensures met { (names : List (List ℕ)) (d : Doc) (list : List Event) (bearer : List ℕ)
        → (e : Element) (pred : Pred) → length names ≤ most_names
        → Spells names (Some d) list → at d bearer ≡ Some e
        → list_any (is_met_at d list bearer pred) (counted (length list)) ≡ holds pred e }
    ensures closes { (names : List (List ℕ)) (d : Doc) (list : List Event) (bearer : List ℕ)
        → (e : Element) (pred : Pred) → length names ≤ most_names
        → Spells names (Some d) list → at d bearer ≡ Some e
        → is_some (close d list bearer pred) ≡ true }
    ensures within { (d : Doc) (list : List Event) (bearer : List ℕ) (pred : Pred) (i : ℕ)
        → close d list bearer pred ≡ Some i → i < length list }
    ensures inside { (names : List (List ℕ)) (d : Doc) (list : List Event) (bearer : List ℕ)
        → (pred : Pred) (begin i finish : ℕ)
        → length names ≤ most_names → Spells names (Some d) list → close d list bearer pred ≡ Some i
        → begins_at list bearer begin ≡ true → finishes_at list bearer finish ≡ true
        → (begin ≤ i) × (i ≤ finish) }
{}

/// Where `[p]`, `[*]`, `[x = 'z']`, `[x = 'y']` and `[@Id]` close at the root of a small document, worked
/// out by hand.
pub fn closes_of_small_documents()
    ensures events { document_events small_names small ≡ small_events }
    ensures events_with_id { document_events small_names small_with_id ≡ small_events_with_id }
    ensures at_begin { close small small_events [] has_p ≡ Some 2 }
    ensures at_first { close small small_events [] has_child ≡ Some 2 }
    ensures at_finish { close small small_events [] (x_is (codes "z")) ≡ Some 8 }
    ensures unmet { close small small_events [] (x_is (codes "y")) ≡ Some 9 }
    ensures at_attribute { close small_with_id small_events_with_id [] has_id ≡ Some 1 }
{}

/// Where `[@x = ..]` closes at a root whose attribute `x` has a value of 257 letters and comes in two
/// pieces, worked out by hand. It closes with the last piece if the operand is the whole value, and with
/// the Finish if it is one letter shorter.
pub fn closes_of_an_attribute_in_two_pieces()
    ensures events { document_events small_names long ≡ long_events }
    ensures at_last_piece { close long long_events [] (attribute_is (letters 257)) ≡ Some 2 }
    ensures unmet { close long long_events [] (attribute_is (letters 256)) ≡ Some 4 }
{}

/// Where `[b]` closes at two elements `a` below the root, worked out by hand. The first `a` has a child
/// `b`, and the predicate closes with the Begin of that `b`. The second has none, and the predicate
/// closes with the Finish of this `a`.
pub fn closes_below_the_root()
    ensures events { document_events nested_names nested ≡ nested_events }
    ensures at_begin { close nested nested_events (1 ∷ []) has_b ≡ Some 4 }
    ensures at_own_finish { close nested nested_events (2 ∷ []) has_b ≡ Some 10 }
{}
